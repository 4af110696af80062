// The merge strategy: rounds of stream and exchange, and one more stream.
#![tactic(auto)]

ghost use Rattle.std.specs.Prelude.{ℕ, ◌+◌, true};
ghost use Rattle.model.specs.Program.{Program};
ghost use Rattle.model.specs.Rules.{rules_of};
ghost use Rattle.model.specs.Rounds.{Work, merge_round, rounds_from, no_round, closing_stream, merge_rounds};
ghost use Rattle.points.specs.Points.{SomeRun, OptionsIn, SameLong, RunAt, EndedAs};

use layout::{ITEMS, Shape};
use model::{ExpansionLimit, Options};
use steps::State;

// A stream, and exchanges behind it.
fn merge_round(
    words: &mut [u64],
    numbers: &mut [u32],
    shape: Shape,
    options: Options,
    run: State,
) -> Result<State, ExpansionLimit>
    requires { SomeRun shape 510 run words.old numbers.old × OptionsIn options }
    ensures { SameLong words.old numbers.old words.new numbers.new
        × ((i : ℕ) (p : Program) (w : Work) → RunAt shape i run words.old numbers.old p w
        → EndedAs shape (i + 2) result words.new numbers.new p (merge_round shape.l (rules_of options) w)) }
{
    let s = points::stream_pass(words, numbers, shape, options, true, run)?;
    Ok(points::exchange_pass(&words[..], numbers, shape, options, s))
}

// Rounds until one has no exchange and no lower T-count than the one before, which left t.
fn rounds_from(
    words: &mut [u64],
    numbers: &mut [u32],
    shape: Shape,
    options: Options,
    first: State,
) -> Result<State, ExpansionLimit>
    requires { SomeRun shape 0 first words.old numbers.old × OptionsIn options }
    ensures { SameLong words.old numbers.old words.new numbers.new
        × ((p : Program) (w : Work) → RunAt shape 0 first words.old numbers.old p w
        → EndedAs shape 510 result words.new numbers.new p
        (rounds_from shape.l (rules_of options) options.rounds true no_round w)) }
{
    let mut run = first;
    // above every T-count, so that the first round is not the last
    let mut t = shape.operations + 1;
    for j in 0..options.rounds {
        let s = merge_round(words, numbers, shape, options, run)?;
        let left = item_lists::t_count(&numbers[..], shape.u, ITEMS, 0, s.out);
        if (s.swaps == run.swaps) & (t <= left) {
            return Ok(s);
        }
        run = s;
        t = left;
    }
    Ok(run)
}

// One more stream, if even rotations are to be absorbed and one is left.
fn closing_stream(
    words: &mut [u64],
    numbers: &mut [u32],
    shape: Shape,
    options: Options,
    run: State,
) -> Result<State, ExpansionLimit>
    requires { SomeRun shape 511 run words.old numbers.old × OptionsIn options }
    ensures { SameLong words.old numbers.old words.new numbers.new
        × ((i : ℕ) (p : Program) (w : Work) → RunAt shape i run words.old numbers.old p w
        → EndedAs shape (i + 1) result words.new numbers.new p
        (closing_stream shape.l (rules_of options) options.rounds w)) }
{
    if options.rounds == 0 {
        return Ok(run);
    }
    if !options.clifford_to_frame {
        return Ok(run);
    }
    if item_lists::any_even(&numbers[..], shape.u, ITEMS, 0, run.out) {
        return points::stream_pass(words, numbers, shape, options, true, run);
    }
    Ok(run)
}

// The merge strategy.
pub fn merge_rounds(
    words: &mut [u64],
    numbers: &mut [u32],
    shape: Shape,
    options: Options,
    first: State,
) -> Result<State, ExpansionLimit>
    requires { SomeRun shape 0 first words.old numbers.old × OptionsIn options }
    ensures { SameLong words.old numbers.old words.new numbers.new
        × ((p : Program) (w : Work) → RunAt shape 0 first words.old numbers.old p w
        → EndedAs shape 511 result words.new numbers.new p
        (merge_rounds shape.l (rules_of options) options.rounds w)) }
{
    let run = rounds_from(words, numbers, shape, options, first)?;
    closing_stream(words, numbers, shape, options, run)
}
