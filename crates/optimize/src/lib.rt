// Rewriting by value: Checking, then the decision, then the results or zeros. Nothing is written into the results before the last refusal.
#![tactic(auto)]

ghost use Rattle.std.specs.Prelude.{◌≡◌};
ghost use Rattle.checking.specs.Call.{job_of, lent_of};
ghost use Rattle.optimize.specs.Reply.{reply_of};
ghost use Rattle.optimize.specs.Conclusion.{reply_in, AcceptPre, ConcludePre, RunPre};
ghost use Rattle.optimize.specs.Call.{CalledBy};

use decision::Decided;
use layout::Shape;
use model::{Counters, Counts, Options, Refusal};
use packing_answer::PackingRefusal;
use records::Records;

// What an accepted call hands back: the counters, how many operations came out, how many axes are stored.
#[derive(Clone, Copy)]
pub struct Rewritten {
    pub counters: Counters,
    pub operations: usize,
    pub axes: usize,
}

// An accepted run: results, then zeros.
fn accept(
    records: Records,
    words: &mut [u64],
    numbers: &mut [u32],
    result_operations: &mut [u32],
    result_rows: &mut [u32],
    shape: Shape,
    options: Options,
    x: Decided,
) -> Rewritten
    requires { AcceptPre shape options records.nodes.now records.operations.now records.rows.now x
        words.old numbers.old result_operations.old result_rows.old }
    ensures { reply_of (Ok result)
        (lent_of words.new numbers.new result_operations.new result_rows.new)
        ≡ reply_in shape options records.entry.nodes.now records.entry.operations.now records.entry.rows.now
        (lent_of words.old numbers.old result_operations.old result_rows.old) }
{
    let counters = x.counters;
    results::finish(
        records.operations,
        words,
        numbers,
        result_operations,
        result_rows,
        shape,
        x.items,
        x.axes,
        x.changed,
    );
    Rewritten {
        counters,
        operations: x.items,
        axes: x.axes,
    }
}

// The lent slices and what is handed back, once it is decided how the run ends: a refusal cleans the work stores.
fn conclude(
    records: Records,
    words: &mut [u64],
    numbers: &mut [u32],
    result_operations: &mut [u32],
    result_rows: &mut [u32],
    shape: Shape,
    options: Options,
    d: Result<Decided, PackingRefusal>,
) -> Result<Rewritten, Refusal>
    requires { ConcludePre shape options records.nodes.now records.operations.now records.rows.now d
        words.old numbers.old result_operations.old result_rows.old }
    ensures { reply_of result
        (lent_of words.new numbers.new result_operations.new result_rows.new)
        ≡ reply_in shape options records.entry.nodes.now records.entry.operations.now records.entry.rows.now
        (lent_of words.old numbers.old result_operations.old result_rows.old) }
{
    match d {
        Ok(x) => Ok(accept(
            records,
            words,
            numbers,
            result_operations,
            result_rows,
            shape,
            options,
            x,
        )),
        Err(refusal) => {
            results::clean(words, numbers, 0);
            Err(refusal.into())
        }
    }
}

// A program that Checking passes: decided, then concluded.
fn run(
    records: Records,
    words: &mut [u64],
    numbers: &mut [u32],
    result_operations: &mut [u32],
    result_rows: &mut [u32],
    shape: Shape,
    options: Options,
) -> Result<Rewritten, Refusal>
    requires { RunPre shape options records.nodes.now records.operations.now records.rows.now
        words.old numbers.old result_operations.old result_rows.old }
    ensures { reply_of result
        (lent_of words.new numbers.new result_operations.new result_rows.new)
        ≡ reply_in shape options records.entry.nodes.now records.entry.operations.now records.entry.rows.now
        (lent_of words.old numbers.old result_operations.old result_rows.old) }
{
    let d = decision::decide(records, words, numbers, shape, options);
    conclude(
        records,
        words,
        numbers,
        result_operations,
        result_rows,
        shape,
        options,
        d,
    )
}

// Rewriting, by value.
pub fn optimize_rotations(
    counts: Counts,
    options: Options,
    nodes: &[u32],
    operations: &[u32],
    rows: &[u32],
    words: &mut [u64],
    numbers: &mut [u32],
    result_operations: &mut [u32],
    result_rows: &mut [u32],
) -> Result<Rewritten, Refusal>
    ensures { CalledBy options (job_of counts nodes.now operations.now rows.now)
        (lent_of words.old numbers.old result_operations.old result_rows.old) result
        (lent_of words.new numbers.new result_operations.new result_rows.new) }
{
    checking::checking(
        counts,
        options,
        nodes,
        operations,
        rows,
        &words[..],
        &numbers[..],
        &result_operations[..],
        &result_rows[..],
    )?;
    let shape = layout::shape_of(counts, options.max_packed_words);
    let records = Records {
        nodes,
        operations,
        rows,
    };
    run(
        records,
        words,
        numbers,
        result_operations,
        result_rows,
        shape,
        options,
    )
}
