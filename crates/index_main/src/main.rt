// Interns words one after the other, and prints each word's id by its chain and by the scan: 02, M-102, run.
#![tactic(auto)]

ghost use Rattle.std.specs.Prelude.{◌≡◌, ◌+◌, ◌*◌, ◌<◌, ◌≤◌, length, IfOk};
ghost use Rattle.layout.specs.Words.{OnlyWords};
ghost use Rattle.index_main.specs.Ready.{Ready, ReadyAfter};

use axes::{Sizes, StoredAxes};
use interning::StoredAxis;
use model::Counts;
use std::io;

// A word of one number in each plane: x, then z.
#[derive(Clone, Copy)]
struct Word(u64, u64);

const COUNT: usize = 22;

// A word's chain is picked by x + z modulo 2^64, and the walk on it by digits of its hash.
const WORDS: [Word; COUNT] = [
    Word(0, 0),
    // one chain: sums that are multiples of 1,024
    Word(1024, 0),
    Word(2048, 0),
    Word(3072, 0),
    // one sum: X and Z exchanged
    Word(0, 1024),
    Word(5, 3),
    Word(3, 5),
    Word(8, 0),
    Word(0, 8),
    // sums that wrap: to 0, as the identity's, and to 1,024
    Word(18446744073709551615, 1),
    Word(1, 18446744073709551615),
    Word(18446744073709550592, 2048),
    // the identity's chain and its hash, so its whole walk: z is 2^64 less 2,654,435,769 x
    Word(1024, 18446741355567324160),
    Word(2048, 18446738637425096704),
    Word(3072, 18446735919282869248),
    // repeated: from the ends of walks, from between, and from their heads
    Word(3072, 18446735919282869248),
    Word(2048, 18446738637425096704),
    Word(18446744073709550592, 2048),
    Word(18446744073709551615, 1),
    Word(3, 5),
    Word(0, 1024),
    Word(0, 0),
];

// A word of one number in each plane, laid at a place.
fn lay(words: &mut [u64], at: usize, x: u64, z: u64)
    requires { at + 2 ≤ length words.old }
    ensures { OnlyWords at (at + 2) words.old words.new }
{
    words[at] = x;
    words[at + 1] = z;
}

fn show(rt: &impl Print, number: usize, end: &[u8]) -> io::Result<()> {
    rt.print(number)?;
    rt.write_all(end)
}

// The end of a line: the id that a word is stored with, and 1 if chain and scan agreed before and after.
fn show_stored(rt: &impl Print, id: usize, agreed: bool) -> io::Result<()> {
    show(rt, id, b" ")?;
    rt.println(agreed as usize)
}

// Whether chain and scan agree on the word behind the limit.
fn agree(axes: StoredAxes) -> bool
    requires { axes.sizes.limit + 2 * axes.sizes.l ≤ length axes.words.now }
{
    let w = axes::word_at(axes.words, axes.sizes.limit, axes.sizes.l);
    interning::agree(axes, w)
}

// The start of a line: the word's id by its chain, and by the scan; the number of axes if it is none of them.
fn show_ids(rt: &impl Print, axes: StoredAxes) -> io::Result<()>
    requires { axes.sizes.limit + 2 * axes.sizes.l ≤ length axes.words.now }
{
    let sizes = axes.sizes;
    let w = axes::word_at(axes.words, sizes.limit, sizes.l);
    let found = interning::find(axes, w);
    show(rt, found.unwrap_or(sizes.axes), b" ")?;
    let scanned = interning::scan(axes.words, sizes.l, sizes.axes, w);
    show(rt, scanned.unwrap_or(sizes.axes), b" ")
}

// The word behind the limit, looked for both ways, stored if the limit leaves room for it, and looked for again: a line.
fn store(
    rt: &impl Print,
    words: &mut [u64],
    numbers: &mut [u32],
    sizes: Sizes,
    peak: usize,
) -> io::Result<Option<StoredAxis>>
    requires { Ready sizes peak words.old numbers.old }
    ensures { IfOk result (λ stored. ReadyAfter sizes stored words.new numbers.new) }
{
    let axes = StoredAxes {
        words: &words[..],
        numbers: &numbers[..],
        sizes,
    };
    show_ids(rt, axes)?;
    let before = agree(axes);
    let Ok(a) = interning::intern(words, numbers, sizes, 0, peak, sizes.limit) else {
        return Ok(None);
    };
    let with_it = StoredAxes {
        words: &words[..],
        numbers: &numbers[..],
        sizes: Sizes {
            axes: a.axes,
            ..sizes
        },
    };
    let after = agree(with_it);
    show_stored(rt, a.id, before & after)?;
    Ok(Some(a))
}

// A word, laid behind the limit and stored.
fn step(
    rt: &impl Print,
    words: &mut [u64],
    numbers: &mut [u32],
    sizes: Sizes,
    peak: usize,
    w: Word,
) -> io::Result<Option<StoredAxis>>
    requires { Ready sizes peak words.old numbers.old }
    ensures { IfOk result (λ stored. ReadyAfter sizes stored words.new numbers.new) }
{
    lay(words, sizes.limit, w.0, w.1);
    store(rt, words, numbers, sizes, peak)
}

// All words, one after the other. The limit has room for all: a word that is refused would end it, and its lines be missing.
fn run(rt: &impl Print, words: &mut [u64], numbers: &mut [u32], none: Sizes) -> io::Result<()>
    requires { Ready none 0 words.old numbers.old }
{
    let mut sizes = none;
    let mut peak = 0;
    for w in WORDS {
        let Some(a) = step(rt, words, numbers, sizes, peak, w)? else {
            return Ok(());
        };
        sizes.axes = a.axes;
        peak = a.peak;
    }
    Ok(())
}

// Memory as long as refusal 3 asks, 24 × 162 + 1,024 + 32 numbers, and not zeros: chains must be cleared.
fn main(rt: HostRuntime) -> io::Result<()> {
    let mut words = [7u64; 80];
    let mut numbers = [7u32; 4944];
    let shape = layout::shape_of(
        Counts {
            qubits: 64,
            nodes: 1,
            operations: 0,
        },
        64,
    );
    interning::clear_chains(&mut numbers, shape.u);
    run(&rt, &mut words, &mut numbers, axes::sizes_of(shape, 0))
}
