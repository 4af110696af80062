// Each pass, lent the run's counters: the core by value, then one adder.
#![tactic(auto)]

ghost use Rattle.std.specs.Prelude.{◌≡◌, ◌+◌, ◌<◌, ◌^◌};
ghost use Rattle.lent_passes.specs.Raised.{more_merges, more_swaps};
ghost use Rattle.stream.specs.Passing.{PassAtWork, SomeWork};
ghost use Rattle.exchange.specs.Segments.{ExchangePre, Exchanged};
ghost use Rattle.layering.specs.Demands.{LayeringPre, LayeredAs};
ghost use Rattle.lent_passes.specs.Counted.{merges_of, absorbed_of, raised, Room, CountedAs, StreamedAs};

pub mod by_value;

use axes::Sizes;
use exchange::Progress;
use layering::Layering;
use layout::Shape;
use model::{Counters, ExchangeRules, ExpansionLimit};
use steps::State;
use stream_states::StreamRules;

// How a stream ends, and what it counted: 0 where it is refused.
#[derive(Clone, Copy)]
pub struct Counted {
    pub outcome: Result<State, ExpansionLimit>,
    pub merges: usize,
    pub absorbed: usize,
}

// 01's `merges` of one stream.
fn merges_of(t: Result<State, ExpansionLimit>) -> usize
    ensures { result ≡ merges_of t }
{
    match t {
        Ok(s) => s.merges,
        Err(_) => 0,
    }
}

// 01's `cliffords_to_frame` of one stream.
fn absorbed_of(t: Result<State, ExpansionLimit>) -> usize
    ensures { result ≡ absorbed_of t }
{
    match t {
        Ok(s) => s.absorbed,
        Err(_) => 0,
    }
}

// The core by value: the stream, and what it counted.
fn stream_counted(
    words: &mut [u64],
    numbers: &mut [u32],
    shape: Shape,
    rules: StreamRules,
    items: usize,
    axes: usize,
    peak: usize,
) -> Counted
    requires { SomeWork (λ prog w g. PassAtWork shape rules prog w axes items peak words.old numbers.old g) }
    ensures { CountedAs shape rules items axes peak words.old numbers.old result
        words.new numbers.new }
{
    let outcome = stream::stream(words, numbers, shape, rules, items, axes, peak);
    let merges = merges_of(outcome);
    let absorbed = absorbed_of(outcome);
    Counted {
        outcome,
        merges,
        absorbed,
    }
}

// What the stream counted is added, and how it ended is given.
fn add_counted(stats: &mut Counters, r: Counted) -> Result<State, ExpansionLimit>
    requires { (stats.old.merges + r.merges < 2 ^ 64) × (stats.old.cliffords_to_frame + r.absorbed < 2 ^ 64) }
    ensures { (stats.new ≡ raised stats.old r.merges r.absorbed) × (result ≡ r.outcome) }
{
    stats.merges = stats.merges + r.merges;
    stats.cliffords_to_frame = stats.cliffords_to_frame + r.absorbed;
    r.outcome
}

// A stream as a pass, with the counters raised by what it merged and absorbed.
pub fn stream_pass(
    words: &mut [u64],
    numbers: &mut [u32],
    shape: Shape,
    rules: StreamRules,
    items: usize,
    axes: usize,
    peak: usize,
    stats: &mut Counters,
) -> Result<State, ExpansionLimit>
    requires { SomeWork (λ prog w g. PassAtWork shape rules prog w axes items peak words.old numbers.old g) × Room stats.old }
    ensures { StreamedAs shape rules items axes peak words.old numbers.old stats.old result
        words.new numbers.new stats.new }
{
    let r = stream_counted(words, numbers, shape, rules, items, axes, peak);
    add_counted(stats, r)
}

// What an exchange pass counted is added, and how it ended is given.
fn add_exchanged(stats: &mut Counters, r: Progress) -> Progress
    requires { stats.old.swaps + r.swaps < 2 ^ 64 }
    ensures { (stats.new ≡ more_swaps stats.old r.swaps) × (result ≡ r) }
{
    stats.swaps = stats.swaps + r.swaps;
    r
}

// The exchange pass, with the counters raised by its exchanges, which are no more than the items.
pub fn exchange_pass(
    words: &[u64],
    numbers: &mut [u32],
    z: Sizes,
    rules: ExchangeRules,
    items: usize,
    stats: &mut Counters,
) -> Progress
    requires { ExchangePre z rules words.now numbers.old items × (stats.old.swaps + items < 2 ^ 64) }
    ensures { Exchanged z rules words.now numbers.old items result numbers.new
        × (stats.new ≡ more_swaps stats.old result.swaps) }
{
    let r = exchange::swap_segments(words, numbers, z, rules, items);
    add_exchanged(stats, r)
}

// What a layering pass merged is added, and how it ended is given.
fn add_layered(stats: &mut Counters, r: Layering) -> Layering
    requires { stats.old.merges + r.merged < 2 ^ 64 }
    ensures { (stats.new ≡ more_merges stats.old r.merged) × (result ≡ r) }
{
    stats.merges = stats.merges + r.merged;
    r
}

// The layering pass, with the counters raised by what it merged, which is no more than the items.
pub fn layering_pass(
    words: &[u64],
    numbers: &mut [u32],
    z: Sizes,
    items: usize,
    stats: &mut Counters,
) -> Layering
    requires { LayeringPre z words.now numbers.old items × (stats.old.merges + items < 2 ^ 64) }
    ensures { LayeredAs z words.now numbers.old items result numbers.new
        × (stats.new ≡ more_merges stats.old result.merged) }
{
    let r = layering::layer_segments(words, numbers, z, items);
    add_layered(stats, r)
}
