// A slice of lent memory: filled before a call, a line for what it holds after it.
ghost use Rattle.std.specs.Prelude.{◌<◌, ◌≤◌, length, IfOk};

use crate::number::Number;
use crate::out;
use std::io;

pub fn fill<T: Number>(s: &mut [T]) {
    for (place, x) in s.iter_mut().enumerate() {
        *x = T::lent(place);
    }
}

// The end of the places from a place on that are as they were lent.
pub fn unchanged_to<T: Number>(s: &[T], from: usize) -> usize
    requires { from ≤ length s.now }
    ensures { (from ≤ result) × (result ≤ length s.now) }
{
    // By index: what a place was lent depends on it.
    for i in from..s.len() {
        if s[i] != T::lent(i) {
            return i;
        }
    }
    s.len()
}

// The end of the places from a place on that hold the same.
fn equal_to<T: Number>(s: &[T], from: usize) -> usize
    requires { from < length s.now }
    ensures { (from < result) × (result ≤ length s.now) }
{
    let v = s[from];
    match s[from + 1..].iter().position(|x| *x != v) {
        Some(n) => from + 1 + n,
        None => s.len(),
    }
}

// Prints what a place and those like it hold; the end of these.
fn print_run<T: Number>(rt: &impl Print, s: &[T], from: usize) -> io::Result<usize>
    requires { from < length s.now }
    ensures { IfOk result (λ end. (from < end) × (end ≤ length s.now)) }
{
    let unchanged = unchanged_to(s, from);
    if from < unchanged {
        out::unchanged(rt, unchanged - from)?;
        return Ok(unchanged);
    }
    let end = equal_to(s, from);
    out::repeated(rt, s[from], end - from)?;
    Ok(end)
}

// The line of a slice, behind its name.
pub fn print<T: Number>(rt: &impl Print, s: &[T]) -> io::Result<()> {
    let mut at: usize = 0;
    // A run of like numbers ends where it does.
    while at < s.len() {
        at = print_run(rt, s, at)?;
    }
    rt.println("")
}
