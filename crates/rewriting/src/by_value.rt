// Rewriting for callers that hold no counters: the public call is lent counters of its own, which come back with its answer.
ghost use Rattle.checking.specs.Call.{job_of, lent_of};
ghost use Rattle.optimize.specs.Call.{CalledBy};

use model::{Counts, Options, Refusal};
use optimize::Rewritten;

pub fn rewriting(
    counts: Counts,
    options: Options,
    nodes: &[u32],
    operations: &[u32],
    rows: &[u32],
    words: &mut [u64],
    numbers: &mut [u32],
    result_operations: &mut [u32],
    result_rows: &mut [u32],
) -> Result<Rewritten, Refusal>
    ensures { CalledBy options (job_of counts nodes.now operations.now rows.now)
        (lent_of words.old numbers.old result_operations.old result_rows.old) result
        (lent_of words.new numbers.new result_operations.new result_rows.new) }
{
    let mut counters = model::no_counters();
    let answered = crate::rewriting(
        counts,
        options,
        nodes,
        operations,
        rows,
        words,
        numbers,
        result_operations,
        result_rows,
        &mut counters,
    )?;
    Ok(Rewritten {
        counters,
        operations: answered.operations,
        axes: answered.axes,
    })
}
