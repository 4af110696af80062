// Runs Rewriting on the jobs of its input, and prints what it hands back and what the lent slices hold: see oracle/README.md.
#![tactic(auto)]

mod job;
mod memory;
mod out;

use std::io;

// All jobs, in memory that each uses again.
fn run(
    rt: &impl Print,
    input: &[u8],
    records: &mut [u32],
    kept: &mut [u32],
    words: &mut [u64],
    numbers: &mut [u32],
    result_operations: &mut [u32],
    result_rows: &mut [u32],
) -> io::Result<()> {
    let mut at = jobs::past_blanks(input, 0);
    // A job tells where the next begins.
    while at < input.len() {
        at = job::run(
            rt,
            input,
            at,
            records,
            kept,
            words,
            numbers,
            result_operations,
            result_rows,
        )?;
    }
    Ok(())
}

fn main(rt: HostRuntime) -> io::Result<()> {
    let mut input: [u8; memory::INPUT] = programs::zeros();
    let n = programs::read_full(&mut rt.stdin(), &mut input)?;
    let mut records: [u32; memory::RECORDS] = programs::zeros();
    let mut kept: [u32; memory::RECORDS] = programs::zeros();
    let mut words: [u64; memory::WORDS] = programs::zeros();
    let mut numbers: [u32; memory::NUMBERS] = programs::zeros();
    let mut result_operations: [u32; memory::RECORDS] = programs::zeros();
    let mut result_rows: [u32; memory::RECORDS] = programs::zeros();
    run(
        &rt,
        &input[..n],
        &mut records,
        &mut kept,
        &mut words,
        &mut numbers,
        &mut result_operations,
        &mut result_rows,
    )
}
