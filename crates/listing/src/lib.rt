// Listing: 01's text in, its text out.
#![tactic(auto)]

ghost use Rattle.std.specs.Prelude.{◌≤◌, length};
ghost use Rattle.checking.specs.Call.{lent_of};
ghost use Rattle.listing_call.specs.Call.{most_bytes, ListingCalled};
ghost use Rattle.listing.specs.Listed.{RefusedTo, RunPre, RunCall};

use listing_read::Text;
use model::{Counts, Refusal};

// The most bytes that a listing has.
pub const MOST_BYTES: usize = 215369;

// What Listing answers: the text is the first `size` bytes of the output. A refusal has a text too, so the size stands beside the answer.
#[derive(Clone, Copy)]
pub struct Listed {
    pub answer: Result<(), Refusal>,
    pub size: usize,
}

// A refusal, and its text.
fn refused(out: &mut [u8], refusal: Refusal) -> Listed
    requires { most_bytes ≤ length out.old }
    ensures { RefusedTo refusal out.old result out.new }
{
    let size = listing_print::refusal(out, Err(refusal));
    Listed {
        answer: Err(refusal),
        size,
    }
}

// A program that is read: Rewriting, and its text.
fn run(
    counts: Counts,
    limit: usize,
    nodes: &[u32],
    operations: &[u32],
    rows: &[u32],
    out: &mut [u8],
    words: &mut [u64],
    numbers: &mut [u32],
    result_operations: &mut [u32],
    result_rows: &mut [u32],
) -> Listed
    requires { RunPre counts limit nodes.now operations.now rows.now out.old }
    ensures { RunCall counts limit nodes.now operations.now rows.now out.old
        (lent_of words.old numbers.old result_operations.old result_rows.old)
        result out.new
        (lent_of words.new numbers.new result_operations.new result_rows.new) }
{
    let a = counts.nodes * 5;
    let b = counts.operations * 6;
    let c = 2 * counts.qubits * 4;
    let reply = rewriting::by_value::rewriting(
        counts,
        model::defaults(limit),
        &nodes[..a],
        &operations[..b],
        &rows[..c],
        words,
        numbers,
        result_operations,
        result_rows,
    );
    match reply {
        Ok(rewritten) => Listed {
            answer: Ok(()),
            size: listing_print::result(
                out,
                rewritten.counters,
                counts.qubits,
                rewritten.operations,
                rewritten.axes,
                &words[..],
                &result_operations[..],
                &result_rows[..],
            ),
        },
        Err(refusal) => refused(out, refusal),
    }
}

// Listing.
pub fn listing(
    text: &[u8],
    output: &mut [u8],
    words: &mut [u64],
    numbers: &mut [u32],
    result_operations: &mut [u32],
    result_rows: &mut [u32],
) -> Listed
    ensures { ListingCalled text.now output.old
        (lent_of words.old numbers.old result_operations.old result_rows.old)
        result.answer result.size output.new
        (lent_of words.new numbers.new result_operations.new result_rows.new) }
{
    if output.len() < MOST_BYTES {
        return Listed {
            answer: Err(Refusal::SliceShort),
            size: 0,
        };
    }
    let mut nodes = [0u32; 640];
    let mut operations = [0u32; 768];
    let mut rows = [0u32; 512];
    let t = listing_read::read(text, &mut nodes, &mut operations, &mut rows);
    let Ok(Text { counts, limit }) = t else {
        return refused(output, Refusal::BadText);
    };
    run(
        counts,
        limit,
        &nodes,
        &operations,
        &rows,
        output,
        words,
        numbers,
        result_operations,
        result_rows,
    )
}
