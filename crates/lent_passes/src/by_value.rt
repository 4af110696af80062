// Each pass for callers that carry the run's counters by value, as a loop must: the counters are lent to the pass, and come back with its answer.
ghost use Rattle.std.specs.Prelude.{◌≡◌, ◌+◌, ◌<◌, ◌^◌};
ghost use Rattle.stream.specs.Passing.{PassAtWork, SomeWork};
ghost use Rattle.exchange.specs.Segments.{ExchangePre, Exchanged};
ghost use Rattle.layering.specs.Demands.{LayeringPre, LayeredAs};
ghost use Rattle.lent_passes.specs.Raised.{more_merges, more_swaps};
ghost use Rattle.lent_passes.specs.Counted.{Room, StreamedAs};

use axes::Sizes;
use exchange::Progress;
use layering::Layering;
use layout::Shape;
use model::{Counters, ExchangeRules, ExpansionLimit};
use steps::State;
use stream_states::StreamRules;

// How a pass ends, and the counters that it leaves.
#[derive(Clone, Copy)]
pub struct Passed<T> {
    pub outcome: T,
    pub stats: Counters,
}

pub fn stream(
    words: &mut [u64],
    numbers: &mut [u32],
    shape: Shape,
    rules: StreamRules,
    items: usize,
    axes: usize,
    peak: usize,
    mut stats: Counters,
) -> Passed<Result<State, ExpansionLimit>>
    requires { SomeWork (λ prog w g. PassAtWork shape rules prog w axes items peak words.old numbers.old g) × Room stats }
    ensures { StreamedAs shape rules items axes peak words.old numbers.old stats result.outcome
        words.new numbers.new result.stats }
{
    let outcome = crate::stream_pass(words, numbers, shape, rules, items, axes, peak, &mut stats);
    Passed { outcome, stats }
}

pub fn exchange(
    words: &[u64],
    numbers: &mut [u32],
    z: Sizes,
    rules: ExchangeRules,
    items: usize,
    mut stats: Counters,
) -> Passed<Progress>
    requires { ExchangePre z rules words.now numbers.old items × (stats.swaps + items < 2 ^ 64) }
    ensures { Exchanged z rules words.now numbers.old items result.outcome numbers.new
        × (result.stats ≡ more_swaps stats result.outcome.swaps) }
{
    let outcome = crate::exchange_pass(words, numbers, z, rules, items, &mut stats);
    Passed { outcome, stats }
}

pub fn layering(
    words: &[u64],
    numbers: &mut [u32],
    z: Sizes,
    items: usize,
    mut stats: Counters,
) -> Passed<Layering>
    requires { LayeringPre z words.now numbers.old items × (stats.merges + items < 2 ^ 64) }
    ensures { LayeredAs z words.now numbers.old items result.outcome numbers.new
        × (result.stats ≡ more_merges stats result.outcome.merged) }
{
    let outcome = crate::layering_pass(words, numbers, z, items, &mut stats);
    Passed { outcome, stats }
}
