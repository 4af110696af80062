// A run up to its last refusal: packing, the items, the passes, the counters. Nothing but the work stores is written.
#![tactic(auto)]

ghost use Rattle.std.specs.Prelude.{◌≡◌};
ghost use Rattle.model.specs.Packing.{packed};
ghost use Rattle.axes.specs.Held.{sizes_of};
ghost use Rattle.depth.specs.Demands.{DepthPre};
ghost use Rattle.records.specs.Given.{program_in};
ghost use Rattle.packing.specs.Packed.{PackPre};
ghost use Rattle.points.specs.Points.{OptionsIn};
ghost use Rattle.decision.specs.Depth.{DepthAs};
ghost use Rattle.decision.specs.Start.{PackedIn, StartedAs};
ghost use Rattle.decision.specs.End.{EndPre, DecidedAs};
ghost use Rattle.decision.specs.Decision.{DecisionAs};

use counters::RunCounts;
use layout::Shape;
use model::{Counters, Options};
use packing_answer::{PackedAxes, PackingRefusal};
use records::Records;
use steps::State;

// What the passes start from: items, the source's weight, its T-depth.
#[derive(Clone, Copy)]
pub struct Started {
    pub items: usize,
    pub weight: usize,
    pub depth: usize,
}

// A run that came to its end: items and axes, whether a pass absorbed anything, the counters.
#[derive(Clone, Copy)]
pub struct Decided {
    pub items: usize,
    pub axes: usize,
    pub changed: bool,
    pub counters: Counters,
}

// The T-depth of the items, or 0 where it is not measured.
fn depth_of(
    words: &[u64],
    numbers: &mut [u32],
    shape: Shape,
    on: bool,
    axes: usize,
    items: usize,
) -> usize
    requires { DepthPre (sizes_of shape axes) words.now numbers.old items }
    ensures { DepthAs (sizes_of shape axes) on words.now numbers.old items result numbers.new }
{
    if on {
        let z = axes::sizes_of(shape, axes);
        return depth::t_depth(words, numbers, z, items);
    }
    0
}

// After packing with so many axes: the items, the source's weight and T-depth.
fn start_run(
    records: Records,
    words: &[u64],
    numbers: &mut [u32],
    shape: Shape,
    options: Options,
    axes: usize,
) -> Started
    requires { PackedIn shape records.nodes.now records.operations.now records.rows.now axes
        words.now numbers.old }
    ensures { StartedAs shape options records.entry.nodes.now records.entry.operations.now records.entry.rows.now
        axes words.now numbers.old result numbers.new }
{
    let weight = counters::weight_before(records.operations, words, &numbers[..], shape);
    let items = start::build_items(records.operations, words, numbers, shape, axes);
    let depth = depth_of(words, numbers, shape, options.measure_depth, axes, items);
    Started {
        items,
        weight,
        depth,
    }
}

// The end of a run: its T-depth and its counters.
fn end_run(
    records: Records,
    words: &[u64],
    numbers: &mut [u32],
    shape: Shape,
    options: Options,
    started: Started,
    run: State,
) -> Decided
    requires { EndPre shape options records.nodes.now records.operations.now records.rows.now started run
        words.now numbers.old }
    ensures { DecidedAs shape options records.entry.nodes.now records.entry.operations.now records.entry.rows.now
        words.now numbers.old result numbers.new }
{
    let depth = depth_of(
        words,
        numbers,
        shape,
        options.measure_depth,
        run.axes,
        run.out,
    );
    let counts = RunCounts {
        merges: run.merges,
        swaps: run.swaps,
        absorbed: run.absorbed,
        depth_before: started.depth,
        depth_after: depth,
        weight_before: started.weight,
        peak: run.peak,
    };
    let counters = counters::summary(
        records.operations,
        words,
        &numbers[..],
        shape,
        run.out,
        counts,
    );
    Decided {
        items: run.out,
        axes: run.axes,
        changed: run.absorbed != 0,
        counters,
    }
}

// The passes of a packed program, and how they end.
fn passes(
    records: Records,
    words: &mut [u64],
    numbers: &mut [u32],
    shape: Shape,
    options: Options,
    axes: PackedAxes,
) -> Result<Decided, PackingRefusal>
    requires { PackedIn shape records.nodes.now records.operations.now records.rows.now axes.count
        words.old numbers.old × OptionsIn options
        × (axes.peak
        ≡ (packed (program_in shape records.nodes.now records.operations.now records.rows.now)).store.peak) }
    ensures { DecisionAs shape options records.entry.nodes.now records.entry.operations.now records.entry.rows.now
        words.old numbers.old result words.new numbers.new }
{
    let s = start_run(records, &words[..], numbers, shape, options, axes.count);
    let first = steps::first_state(axes.count, axes.peak, s.items);
    let run = rounds::passes(words, numbers, shape, options, first)?;
    Ok(end_run(records, &words[..], numbers, shape, options, s, run))
}

// Packs the program, and runs the passes unless packing refuses it.
pub fn decide(
    records: Records,
    words: &mut [u64],
    numbers: &mut [u32],
    shape: Shape,
    options: Options,
) -> Result<Decided, PackingRefusal>
    requires { PackPre shape records.nodes.now records.operations.now records.rows.now words.old numbers.old
        × OptionsIn options }
    ensures { DecisionAs shape options records.entry.nodes.now records.entry.operations.now records.entry.rows.now
        words.old numbers.old result words.new numbers.new }
{
    let axes = packing::pack(records, words, numbers, shape)?;
    passes(records, words, numbers, shape, options, axes)
}
