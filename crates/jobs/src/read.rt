// Jobs from text: decimal numbers between blanks. Any input is read; numbers of more than nine digits are cut.
ghost use Rattle.std.specs.Prelude.{◌≤◌, length};

use model::{Counts, Lazy, Options, Strategy};

// -1 stands for no outcome and for no target.
const NONE: u32 = 65535;

// The place of the first byte from a place on that is no blank.
pub fn past_blanks(s: &[u8], from: usize) -> usize
    requires { from ≤ length s.now }
    ensures { (from ≤ result) × (result ≤ length s.now) }
{
    match s[from..].iter().position(|b| b' ' < *b) {
        Some(n) => from + n,
        None => s.len(),
    }
}

// The place of the first blank from a place on.
fn at_blank(s: &[u8], from: usize) -> usize
    requires { from ≤ length s.now }
    ensures { (from ≤ result) × (result ≤ length s.now) }
{
    match s[from..].iter().position(|b| *b <= b' ') {
        Some(n) => from + n,
        None => s.len(),
    }
}

// A number with one digit more; a byte that is no digit counts as 0.
fn with_digit(v: u32, c: u8) -> u32 {
    if 99999999 < v {
        return v;
    }
    if !c.is_ascii_digit() {
        return v * 10;
    }
    v * 10 + u32::from(c - b'0')
}

// The number that a text between blanks says.
fn value(s: &[u8]) -> u32 {
    match s {
        [b'-', ..] => NONE,
        _ => s.iter().fold(0, |v, c| with_digit(v, *c)),
    }
}

// A number, and the place behind it.
fn number(s: &[u8], from: usize) -> (u32, usize)
    requires { from ≤ length s.now }
    ensures { result.1 ≤ length s.now }
{
    let a = past_blanks(s, from);
    let e = at_blank(s, a);
    (value(&s[a..e]), e)
}

// Reads so many numbers; the place behind them.
pub fn numbers(s: &[u8], from: usize, count: usize, to: &mut [u32]) -> usize
    requires { (from ≤ length s.now) × (count ≤ length to.old) }
    ensures { result ≤ length s.now }
{
    let mut at = from;
    for x in &mut to[..count] {
        let (v, next) = number(s, at);
        *x = v;
        at = next;
    }
    at
}

// Passes over so many numbers, or over all that are left; the place behind them.
pub fn pass_over(s: &[u8], from: usize, count: usize) -> usize
    requires { from ≤ length s.now }
    ensures { result ≤ length s.now }
{
    let mut at = from;
    for _ in 0..count {
        if at == s.len() {
            return at;
        }
        let (_, next) = number(s, at);
        at = next;
    }
    at
}

// A job's first 18 numbers, and the place behind them.
#[derive(Clone, Copy)]
pub struct Header {
    pub qubits: u32,
    pub nodes: u32,
    pub operations: u32,
    pub limit: u32,
    pub lookback: u32,
    pub window: u32,
    pub candidates: u32,
    pub rounds: u32,
    pub clifford_to_frame: u32,
    pub eager_swaps: u32,
    pub second_exchange_first: u32,
    pub lazy_cliffords: u32,
    pub strategy: u32,
    pub measure_depth: u32,
    pub words: u32,
    pub numbers: u32,
    pub result_operations: u32,
    pub result_rows: u32,
    pub next: usize,
}

pub fn read_header(s: &[u8], from: usize) -> Header
    requires { from ≤ length s.now }
    ensures { result.next ≤ length s.now }
{
    let mut v = [0u32; 18];
    let next = numbers(s, from, 18, &mut v);
    Header {
        qubits: v[0],
        nodes: v[1],
        operations: v[2],
        limit: v[3],
        lookback: v[4],
        window: v[5],
        candidates: v[6],
        rounds: v[7],
        clifford_to_frame: v[8],
        eager_swaps: v[9],
        second_exchange_first: v[10],
        lazy_cliffords: v[11],
        strategy: v[12],
        measure_depth: v[13],
        words: v[14],
        numbers: v[15],
        result_operations: v[16],
        result_rows: v[17],
        next,
    }
}

pub fn counts(h: Header) -> Counts {
    Counts {
        qubits: h.qubits as usize,
        nodes: h.nodes as usize,
        operations: h.operations as usize,
    }
}

fn strategy(v: u32) -> Strategy {
    match v {
        0 => Strategy::Merge,
        _ => Strategy::Litinski,
    }
}

// The lazy setting: 0 off, 1 on; else the place of a named operation, plus 2.
fn lazy(v: u32) -> Lazy {
    match v {
        0 => Lazy::Off,
        1 => Lazy::On,
        _ => Lazy::From(v as usize - 2),
    }
}

pub fn options(h: Header) -> Options {
    Options {
        lookback: h.lookback as usize,
        window: h.window as usize,
        candidates: h.candidates as usize,
        rounds: h.rounds as usize,
        clifford_to_frame: h.clifford_to_frame != 0,
        eager_swaps: h.eager_swaps != 0,
        second_exchange_first: h.second_exchange_first != 0,
        lazy_cliffords: lazy(h.lazy_cliffords),
        strategy: strategy(h.strategy),
        measure_depth: h.measure_depth != 0,
        max_packed_words: h.limit as usize,
    }
}
