// The counters: T-counts, rotations and weights before and after.
#![tactic(auto)]

ghost use Rattle.std.specs.Prelude.{◌≡◌, ◌+◌, ◌*◌, ◌≤◌, ◌<◌, length};
ghost use Rattle.model.specs.Program.{is_rotate};
ghost use Rattle.model.specs.Results.{source_t_count, source_rotations};
ghost use Rattle.records.specs.Operations.{operations_in, operation_here};
ghost use Rattle.model.specs.Lists.{count_of};
ghost use Rattle.model.specs.Items.{is_rotation};
ghost use Rattle.items.specs.View.{tagged_at, items_in};
ghost use Rattle.layout.specs.Rows.{items_row, row_count};
ghost use Rattle.results.specs.Record.{ItemPre, ItemsPre};
ghost use Rattle.counters.specs.After.{OddItem, TCountAfter};
ghost use Rattle.counters.specs.Weight.{AxisPre, AxisWeight, ItemAxisPre, ItemWeight, WeightPre, WeightAfter};
ghost use Rattle.counters.specs.SourceWeight.{OperationPre, OperationWeight, SourcePre, WeightBefore};
ghost use Rattle.counters.specs.Source.{is_odd_source};
ghost use Rattle.counters.specs.Summary.{SummaryPre, Summed};

use layout::{ITEMS, Shape};
use model::Counters;
use records::OperationKind;

// Whether operation i of those handed in is an odd rotation, plain or conditional.
fn is_odd_source(operations: &[u32], i: usize) -> bool
    requires { i * 6 + 6 ≤ length operations.now }
    ensures { result ≡ is_odd_source (operation_here operations.now i) }
{
    let o = records::operation(operations, i);
    o.kind != OperationKind::Measure && o.angle % 2 == 1
}

// The source's T-count.
fn t_before(operations: &[u32], count: usize) -> usize
    requires { count * 6 ≤ length operations.now }
    ensures { result ≡ source_t_count (operations_in count operations.now) }
{
    (0..count).filter(|i| is_odd_source(operations, *i)).count()
}

// Whether operation i of those handed in is a plain rotation.
fn is_rotate_source(operations: &[u32], i: usize) -> bool
    requires { i * 6 + 6 ≤ length operations.now }
    ensures { result ≡ is_rotate (operation_here operations.now i).kind }
{
    records::operation(operations, i).kind == OperationKind::Rotate
}

// The source's plain rotations.
fn rotations_before(operations: &[u32], count: usize) -> usize
    requires { count * 6 ≤ length operations.now }
    ensures { result ≡ source_rotations (operations_in count operations.now) }
{
    (0..count)
        .filter(|i| is_rotate_source(operations, *i))
        .count()
}

// Whether item i comes out as an odd rotation, plain or conditional.
fn is_odd_item(operations: &[u32], numbers: &[u32], u: usize, i: usize) -> bool
    requires { ItemPre operations.now numbers.now u i }
    ensures { OddItem operations.now (tagged_at numbers.now u items_row i) result }
{
    let x = items::item_at(numbers, u, ITEMS, i);
    let r = results::record_of(operations, x);
    r.kind != OperationKind::Measure && r.angle % 2 == 1
}

// The T-count of what comes out.
fn t_after(operations: &[u32], numbers: &[u32], u: usize, k: usize) -> usize
    requires { ItemsPre operations.now numbers.now u k }
    ensures { TCountAfter operations.now numbers.now u k result }
{
    (0..k)
        .filter(|i| is_odd_item(operations, numbers, u, *i))
        .count()
}

// The plain rotations that come out.
fn rotations_after(numbers: &[u32], u: usize, k: usize) -> usize
    requires { (row_count * u ≤ length numbers.now) × (k ≤ u) }
    ensures { result ≡ count_of is_rotation (items_in numbers.now u items_row 0 k) }
{
    (0..k)
        .filter(|i| items::is_rotation(numbers, u, ITEMS, *i))
        .count()
}

// An axis's letters other than I.
fn axis_weight(words: &[u64], l: usize, a: usize) -> usize
    requires { AxisPre words.now l a }
    ensures { AxisWeight words.now l a result }
{
    letter::weight(axes_view::word(words, l, a), l)
}

// What item i weighs: nothing if it is a measurement.
fn item_weight(operations: &[u32], words: &[u64], numbers: &[u32], shape: Shape, i: usize) -> usize
    requires { ItemAxisPre operations.now words.now numbers.now shape.u shape.l i }
    ensures { ItemWeight operations.now words.now shape.l
        (tagged_at numbers.now shape.u items_row i) result }
{
    let x = items::item_at(numbers, shape.u, ITEMS, i);
    if results::record_of(operations, x).kind == OperationKind::Measure {
        return 0;
    }
    axis_weight(words, shape.l, x.axis as usize)
}

// The weight of what comes out.
fn weight_after(operations: &[u32], words: &[u64], numbers: &[u32], shape: Shape, k: usize) -> usize
    requires { WeightPre operations.now words.now numbers.now shape.u shape.l k }
    ensures { WeightAfter operations.now words.now numbers.now shape.u shape.l k result }
{
    let mut n: usize = 0;
    for i in 0..k {
        n += item_weight(operations, words, numbers, shape, i);
    }
    n
}

// What operation i weighs, before any drops out.
fn operation_weight(
    operations: &[u32],
    words: &[u64],
    numbers: &[u32],
    shape: Shape,
    i: usize,
) -> usize
    requires { OperationPre operations.now words.now numbers.now shape.u shape.l i }
    ensures { OperationWeight operations.now words.now numbers.now shape.u shape.l i result }
{
    if records::operation(operations, i).kind == OperationKind::Measure {
        return 0;
    }
    let f = work::root_at(numbers, shape.u, i);
    axis_weight(words, shape.l, f.axis as usize)
}

// The source's weight.
pub fn weight_before(operations: &[u32], words: &[u64], numbers: &[u32], shape: Shape) -> usize
    requires { SourcePre shape operations.now words.now numbers.now }
    ensures { WeightBefore operations.now words.now numbers.now
        shape.u shape.l shape.operations result }
{
    let mut n: usize = 0;
    for i in 0..shape.operations {
        n += operation_weight(operations, words, numbers, shape, i);
    }
    n
}

// What the run itself has counted: by its passes, the T-depths of its start and end, the source's weight, the largest word sum.
#[derive(Clone, Copy)]
pub struct RunCounts {
    pub merges: usize,
    pub swaps: usize,
    pub absorbed: usize,
    pub depth_before: usize,
    pub depth_after: usize,
    pub weight_before: usize,
    pub peak: usize,
}

// All counters of an accepted run with k items.
pub fn summary(
    operations: &[u32],
    words: &[u64],
    numbers: &[u32],
    shape: Shape,
    k: usize,
    counts: RunCounts,
) -> Counters
    requires { SummaryPre shape operations.now words.now numbers.now k }
    ensures { Summed shape operations.now words.now numbers.now k counts result }
{
    let before = t_before(operations, shape.operations);
    let after = t_after(operations, numbers, shape.u, k);
    let source = rotations_before(operations, shape.operations);
    let left = rotations_after(numbers, shape.u, k);
    let weight = weight_after(operations, words, numbers, shape, k);
    Counters {
        t_before: before,
        t_after: after,
        rotations_before: source,
        rotations_after: left,
        merges: counts.merges,
        swaps: counts.swaps,
        cliffords_to_frame: counts.absorbed,
        t_depth_before: counts.depth_before,
        t_depth_after: counts.depth_after,
        weight_before: counts.weight_before,
        weight_after: weight,
        packed_words: counts.peak,
    }
}
