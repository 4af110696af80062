// Memory that the gate's programs lend to a call: filled before it, printed after it. Bounds alone are promised: what is
// printed is held to a kept file. See oracle/README.md, "Memory".
#![tactic(auto)]

mod number;
mod out;
mod slices;

pub use number::Number;
pub use slices::{fill as fill_slice, unchanged_to};
use std::io;

// Each place holds a number that no run stores.
pub fn fill(w: &mut [u64], m: &mut [u32], result_operations: &mut [u32], result_rows: &mut [u32]) {
    slices::fill(w);
    slices::fill(m);
    slices::fill(result_operations);
    slices::fill(result_rows);
}

// A line for each slice.
pub fn print(
    rt: &impl Print,
    w: &[u64],
    m: &[u32],
    result_operations: &[u32],
    result_rows: &[u32],
) -> io::Result<()> {
    rt.print("words")?;
    slices::print(rt, w)?;
    rt.print("numbers")?;
    slices::print(rt, m)?;
    rt.print("operations")?;
    slices::print(rt, result_operations)?;
    rt.print("rows")?;
    slices::print(rt, result_rows)
}
