// Checking, Rewriting and Listing in numbers, as C calls them: `werdutxa_c` exports them, include/werdutxa.h declares them, rust/ has a safe form.
#![tactic(auto)]

ghost use Rattle.std.specs.Prelude.{◌≡◌};
ghost use Rattle.model.specs.Interface.{number_of};
ghost use Rattle.model.specs.Checking.{checking};
ghost use Rattle.checking.specs.Call.{job_of, lent_of};
ghost use Rattle.werdutxa.specs.Calls.{counts_of, strategy_of, lazy_of, options_of, counted_by, ExportedCall, ExportedListing};

use model::{Counters, Counts, Lazy, Options, Strategy};

// The number of Checking's answer.
pub fn werdutxa_check(
    qubits: usize,
    node_count: usize,
    operation_count: usize,
    lookback: usize,
    window: usize,
    candidates: usize,
    rounds: usize,
    clifford_to_frame: bool,
    eager_swaps: bool,
    second_exchange_first: bool,
    lazy_cliffords: bool,
    named: bool,
    place: usize,
    litinski: bool,
    measure_depth: bool,
    limit: usize,
    nodes: &[u32],
    operations: &[u32],
    rows: &[u32],
    words: &[u64],
    numbers: &[u32],
    result_operations: &[u32],
    result_rows: &[u32],
) -> u32
    ensures { result ≡ number_of (checking
        (options_of lookback window candidates rounds clifford_to_frame eager_swaps second_exchange_first lazy_cliffords named place
        litinski measure_depth limit)
        (job_of (counts_of qubits node_count operation_count) nodes.now operations.now rows.now)
        (lent_of words.now numbers.now result_operations.now result_rows.now)) }
{
    let answer = checking::checking(
        counts(qubits, node_count, operation_count),
        options(
            lookback,
            window,
            candidates,
            rounds,
            clifford_to_frame,
            eager_swaps,
            second_exchange_first,
            lazy_cliffords,
            named,
            place,
            litinski,
            measure_depth,
            limit,
        ),
        nodes,
        operations,
        rows,
        words,
        numbers,
        result_operations,
        result_rows,
    );
    model::number_of(answer)
}

// Rewriting: the number of its answer; the counters, and how many operations and axes there are, are written.
pub fn werdutxa_rewrite(
    qubits: usize,
    node_count: usize,
    operation_count: usize,
    lookback: usize,
    window: usize,
    candidates: usize,
    rounds: usize,
    clifford_to_frame: bool,
    eager_swaps: bool,
    second_exchange_first: bool,
    lazy_cliffords: bool,
    named: bool,
    place: usize,
    litinski: bool,
    measure_depth: bool,
    limit: usize,
    nodes: &[u32],
    operations: &[u32],
    rows: &[u32],
    words: &mut [u64],
    numbers: &mut [u32],
    result_operations: &mut [u32],
    result_rows: &mut [u32],
    counted: &mut [usize; 14],
) -> u32
    ensures { ExportedCall
        (options_of lookback window candidates rounds clifford_to_frame eager_swaps second_exchange_first lazy_cliffords named place
        litinski measure_depth limit)
        (job_of (counts_of qubits node_count operation_count) nodes.now operations.now rows.now)
        (lent_of words.old numbers.old result_operations.old result_rows.old)
        result counted.new
        (lent_of words.new numbers.new result_operations.new result_rows.new) }
{
    let reply = rewriting::by_value::rewriting(
        counts(qubits, node_count, operation_count),
        options(
            lookback,
            window,
            candidates,
            rounds,
            clifford_to_frame,
            eager_swaps,
            second_exchange_first,
            lazy_cliffords,
            named,
            place,
            litinski,
            measure_depth,
            limit,
        ),
        nodes,
        operations,
        rows,
        words,
        numbers,
        result_operations,
        result_rows,
    );
    match reply {
        Ok(rewritten) => {
            count(
                rewritten.counters,
                rewritten.operations,
                rewritten.axes,
                counted,
            );
            0
        }
        Err(refusal) => {
            *counted = [0; 14];
            refusal.into()
        }
    }
}

// Listing: the number of its answer; the text is the first `size` bytes of the output.
pub fn werdutxa_list(
    text: &[u8],
    output: &mut [u8],
    words: &mut [u64],
    numbers: &mut [u32],
    result_operations: &mut [u32],
    result_rows: &mut [u32],
    size: &mut usize,
) -> u32
    ensures { ExportedListing text.now output.old
        (lent_of words.old numbers.old result_operations.old result_rows.old)
        result size.new output.new
        (lent_of words.new numbers.new result_operations.new result_rows.new) }
{
    let listed = listing::listing(text, output, words, numbers, result_operations, result_rows);
    *size = listed.size;
    model::number_of(listed.answer)
}

// The counts that a call hands in.
fn counts(qubits: usize, node_count: usize, operation_count: usize) -> Counts
    ensures { result ≡ counts_of qubits node_count operation_count }
{
    Counts {
        qubits,
        nodes: node_count,
        operations: operation_count,
    }
}

fn strategy(litinski: bool) -> Strategy
    ensures { result ≡ strategy_of litinski }
{
    if litinski {
        return Strategy::Litinski;
    }
    Strategy::Merge
}

// A named place stands in place of the lazy setting. It is a flag and a number, since C calls so.
fn lazy(lazy_cliffords: bool, named: bool, place: usize) -> Lazy
    ensures { result ≡ lazy_of lazy_cliffords named place }
{
    if named {
        return Lazy::From(place);
    }
    if lazy_cliffords {
        return Lazy::On;
    }
    Lazy::Off
}

// The options that a call hands in.
fn options(
    lookback: usize,
    window: usize,
    candidates: usize,
    rounds: usize,
    clifford_to_frame: bool,
    eager_swaps: bool,
    second_exchange_first: bool,
    lazy_cliffords: bool,
    named: bool,
    place: usize,
    litinski: bool,
    measure_depth: bool,
    limit: usize,
) -> Options
    ensures { result
        ≡ options_of lookback window candidates rounds clifford_to_frame eager_swaps second_exchange_first lazy_cliffords named place
        litinski measure_depth limit }
{
    Options {
        lookback,
        window,
        candidates,
        rounds,
        clifford_to_frame,
        eager_swaps,
        second_exchange_first,
        lazy_cliffords: lazy(lazy_cliffords, named, place),
        strategy: strategy(litinski),
        measure_depth,
        max_packed_words: limit,
    }
}

// The counters and how many operations and axes there are, in the order of a listing's first line and then those it has not, the words last.
fn count(c: Counters, operations: usize, axes: usize, to: &mut [usize; 14])
    ensures { to.new ≡ counted_by c operations axes }
{
    *to = [
        c.t_before,
        c.t_after,
        c.merges,
        c.swaps,
        c.cliffords_to_frame,
        operations,
        axes,
        c.rotations_before,
        c.rotations_after,
        c.t_depth_before,
        c.t_depth_after,
        c.weight_before,
        c.weight_after,
        c.packed_words,
    ];
}
