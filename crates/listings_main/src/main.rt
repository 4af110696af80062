// Runs Listing on the texts of its input, and prints what it answers and prints and what the lent slices hold. Reading and
// printing promise bounds alone: what is printed is held to a kept file. See oracle/README.md, "The gate's listings".
#![tactic(auto)]

mod call;
mod header;
mod memory;
mod output;

use std::io;

// All listings, in memory that each uses again.
fn run(
    rt: &impl Print,
    input: &[u8],
    output: &mut [u8],
    words: &mut [u64],
    numbers: &mut [u32],
    operations: &mut [u32],
    rows: &mut [u32],
) -> io::Result<()> {
    let mut at = jobs::past_blanks(input, 0);
    // A listing tells where the next begins.
    while at < input.len() {
        at = call::run(rt, input, at, output, words, numbers, operations, rows)?;
    }
    Ok(())
}

fn main(rt: HostRuntime) -> io::Result<()> {
    let mut input: [u8; memory::INPUT] = programs::zeros();
    let n = programs::read_full(&mut rt.stdin(), &mut input)?;
    let mut output: [u8; memory::OUTPUT] = programs::zeros();
    let mut words: [u64; memory::WORDS] = programs::zeros();
    let mut numbers: [u32; memory::NUMBERS] = programs::zeros();
    let mut operations: [u32; memory::OPERATIONS] = programs::zeros();
    let mut rows: [u32; memory::ROWS] = programs::zeros();
    run(
        &rt,
        &input[..n],
        &mut output,
        &mut words,
        &mut numbers,
        &mut operations,
        &mut rows,
    )
}
