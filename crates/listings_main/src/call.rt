// One listing: memory filled, Listing, and what it answers, prints and leaves.
ghost use Rattle.std.specs.Prelude.{◌<◌, ◌≤◌, length, IfOk};

use crate::header::Header;
use crate::{header, output};
use listing::Listed;
use model::Refusal;
use std::io;

// The line in front of what a call prints: its answer, and how many bytes follow.
fn print_answer(rt: &impl Print, answer: Result<(), Refusal>, size: usize) -> io::Result<()> {
    println!(rt; "{} {size}", model::number_of(answer))
}

// Listing in memory that is filled.
fn list(
    text: &[u8],
    out: &mut [u8],
    words: &mut [u64],
    numbers: &mut [u32],
    operations: &mut [u32],
    rows: &mut [u32],
) -> Listed
    ensures { result.size ≤ length out.new }
{
    lent_memory::fill_slice(out);
    lent_memory::fill(words, numbers, operations, rows);
    listing::listing(text, out, words, numbers, operations, rows)
}

// A listing whose slices are lent.
fn call(
    rt: &impl Print,
    text: &[u8],
    out: &mut [u8],
    words: &mut [u64],
    numbers: &mut [u32],
    operations: &mut [u32],
    rows: &mut [u32],
) -> io::Result<()> {
    let listed = list(text, out, words, numbers, operations, rows);
    print_answer(rt, listed.answer, listed.size)?;
    output::print(rt, &out[..], listed.size)?;
    lent_memory::print(rt, &words[..], &numbers[..], &operations[..], &rows[..])?;
    rt.println("end")
}

// A listing in the memory that it is lent, as much of it as there is.
fn lend(
    rt: &impl Print,
    h: Header,
    text: &[u8],
    out: &mut [u8],
    words: &mut [u64],
    numbers: &mut [u32],
    operations: &mut [u32],
    rows: &mut [u32],
) -> io::Result<()> {
    let b = h.output.min(out.len());
    let w = h.words.min(words.len());
    let n = h.numbers.min(numbers.len());
    let o = h.operations.min(operations.len());
    let r = h.rows.min(rows.len());
    call(
        rt,
        text,
        &mut out[..b],
        &mut words[..w],
        &mut numbers[..n],
        &mut operations[..o],
        &mut rows[..r],
    )
}

// Reads the listing at a place of the input, runs it, and prints what comes of it; the place of the next listing.
pub fn run(
    rt: &impl Print,
    input: &[u8],
    at: usize,
    out: &mut [u8],
    words: &mut [u64],
    numbers: &mut [u32],
    operations: &mut [u32],
    rows: &mut [u32],
) -> io::Result<usize>
    requires { at < length input.now }
    ensures { IfOk result (λ next. (at < next) × (next ≤ length input.now)) }
{
    let h = header::read(input, at);
    let from = h.from;
    let to = h.to;
    lend(
        rt,
        h,
        &input[from..to],
        out,
        words,
        numbers,
        operations,
        rows,
    )?;
    Ok(jobs::behind(at, jobs::past_blanks(input, to), input.len()))
}
