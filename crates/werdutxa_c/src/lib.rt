// Checking, Rewriting and Listing for C: include/werdutxa.h declares them, rust/ has a safe form. Each is the library's function.
// In C a slice is a pointer and a length, and `&mut [usize; 14]` a pointer to that many numbers.
#![tactic(auto)]

ghost use Rattle.std.specs.Prelude.{◌≡◌};
ghost use Rattle.model.specs.Interface.{number_of};
ghost use Rattle.model.specs.Checking.{checking};
ghost use Rattle.checking.specs.Call.{job_of, lent_of};
ghost use Rattle.werdutxa.specs.Calls.{counts_of, options_of, ExportedCall, ExportedListing};

// The number of Checking's answer.
#[unsafe(no_mangle)]
pub extern "C" fn werdutxa_check(
    qubits: usize,
    node_count: usize,
    operation_count: usize,
    lookback: usize,
    window: usize,
    candidates: usize,
    rounds: usize,
    clifford_to_frame: bool,
    eager_swaps: bool,
    second_exchange_first: bool,
    lazy_cliffords: bool,
    named: bool,
    place: usize,
    litinski: bool,
    measure_depth: bool,
    limit: usize,
    nodes: &[u32],
    operations: &[u32],
    rows: &[u32],
    words: &[u64],
    numbers: &[u32],
    result_operations: &[u32],
    result_rows: &[u32],
) -> u32
    ensures { result ≡ number_of (checking
        (options_of lookback window candidates rounds clifford_to_frame eager_swaps second_exchange_first lazy_cliffords named place
        litinski measure_depth limit)
        (job_of (counts_of qubits node_count operation_count) nodes.now operations.now rows.now)
        (lent_of words.now numbers.now result_operations.now result_rows.now)) }
{
    werdutxa::werdutxa_check(
        qubits,
        node_count,
        operation_count,
        lookback,
        window,
        candidates,
        rounds,
        clifford_to_frame,
        eager_swaps,
        second_exchange_first,
        lazy_cliffords,
        named,
        place,
        litinski,
        measure_depth,
        limit,
        nodes,
        operations,
        rows,
        words,
        numbers,
        result_operations,
        result_rows,
    )
}

// Rewriting: the number of its answer; the counters, and how many operations and axes there are, are written.
#[unsafe(no_mangle)]
pub extern "C" fn werdutxa_rewrite(
    qubits: usize,
    node_count: usize,
    operation_count: usize,
    lookback: usize,
    window: usize,
    candidates: usize,
    rounds: usize,
    clifford_to_frame: bool,
    eager_swaps: bool,
    second_exchange_first: bool,
    lazy_cliffords: bool,
    named: bool,
    place: usize,
    litinski: bool,
    measure_depth: bool,
    limit: usize,
    nodes: &[u32],
    operations: &[u32],
    rows: &[u32],
    words: &mut [u64],
    numbers: &mut [u32],
    result_operations: &mut [u32],
    result_rows: &mut [u32],
    counted: &mut [usize; 14],
) -> u32
    ensures { ExportedCall
        (options_of lookback window candidates rounds clifford_to_frame eager_swaps second_exchange_first lazy_cliffords named place
        litinski measure_depth limit)
        (job_of (counts_of qubits node_count operation_count) nodes.now operations.now rows.now)
        (lent_of words.old numbers.old result_operations.old result_rows.old)
        result counted.new
        (lent_of words.new numbers.new result_operations.new result_rows.new) }
{
    werdutxa::werdutxa_rewrite(
        qubits,
        node_count,
        operation_count,
        lookback,
        window,
        candidates,
        rounds,
        clifford_to_frame,
        eager_swaps,
        second_exchange_first,
        lazy_cliffords,
        named,
        place,
        litinski,
        measure_depth,
        limit,
        nodes,
        operations,
        rows,
        words,
        numbers,
        result_operations,
        result_rows,
        counted,
    )
}

// Listing: the number of its answer; the text is the first `size` bytes of the output.
#[unsafe(no_mangle)]
pub extern "C" fn werdutxa_list(
    text: &[u8],
    output: &mut [u8],
    words: &mut [u64],
    numbers: &mut [u32],
    result_operations: &mut [u32],
    result_rows: &mut [u32],
    size: &mut usize,
) -> u32
    ensures { ExportedListing text.now output.old
        (lent_of words.old numbers.old result_operations.old result_rows.old)
        result size.new output.new
        (lent_of words.new numbers.new result_operations.new result_rows.new) }
{
    werdutxa::werdutxa_list(
        text,
        output,
        words,
        numbers,
        result_operations,
        result_rows,
        size,
    )
}
