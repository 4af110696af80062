// The public call of Rewriting, the counters lent; and the same by value.
#![tactic(auto)]

ghost use Rattle.checking.specs.Call.{job_of, lent_of};
ghost use Rattle.model.specs.Rewriting.{Called};
ghost use Rattle.model.specs.Answers.{answer_in};
ghost use Rattle.rewriting.specs.Call.{operations_in, axes_in};

pub mod by_value;

use model::{Counters, Counts, Options, Refusal};

// What an accepted call answers beside the counters: how many operations came out, how many axes are stored.
#[derive(Clone, Copy)]
pub struct Answered {
    pub operations: usize,
    pub axes: usize,
}

// Rewriting. After a refusal the counters are 0.
pub fn rewriting(
    counts: Counts,
    options: Options,
    nodes: &[u32],
    operations: &[u32],
    rows: &[u32],
    words: &mut [u64],
    numbers: &mut [u32],
    result_operations: &mut [u32],
    result_rows: &mut [u32],
    stats: &mut Counters,
) -> Result<Answered, Refusal>
    ensures { Called options (job_of counts nodes.now operations.now rows.now)
        (lent_of words.old numbers.old result_operations.old result_rows.old)
        (answer_in result) stats.new (operations_in result) (axes_in result)
        (lent_of words.new numbers.new result_operations.new result_rows.new) }
{
    *stats = model::no_counters();
    let rewritten = optimize::optimize_rotations(
        counts,
        options,
        nodes,
        operations,
        rows,
        words,
        numbers,
        result_operations,
        result_rows,
    )?;
    *stats = rewritten.counters;
    Ok(Answered {
        operations: rewritten.operations,
        axes: rewritten.axes,
    })
}
