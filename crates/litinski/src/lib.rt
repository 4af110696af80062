// Litinski's strategy: a stream, then rounds of layers and streams.
#![tactic(auto)]

ghost use Rattle.model.specs.Program.{Program};
ghost use Rattle.model.specs.Rules.{rules_of};
ghost use Rattle.model.specs.Rounds.{Work, litinski_from, litinski_rounds};
ghost use Rattle.points.specs.Points.{SomeRun, OptionsIn, SameLong, RunAt, EndedAs};

use layout::Shape;
use model::{ExpansionLimit, Options};
use steps::State;

// Rounds of layers, each with a stream behind it, until one merges nothing.
fn litinski_from(
    words: &mut [u64],
    numbers: &mut [u32],
    shape: Shape,
    options: Options,
    first: State,
) -> Result<State, ExpansionLimit>
    requires { SomeRun shape 1 first words.old numbers.old × OptionsIn options }
    ensures { SameLong words.old numbers.old words.new numbers.new
        × ((p : Program) (w : Work) → RunAt shape 1 first words.old numbers.old p w
        → EndedAs shape 511 result words.new numbers.new p
        (litinski_from shape.l (rules_of options) options.rounds w)) }
{
    let mut run = first;
    for j in 0..options.rounds {
        let s = points::layering_pass(&words[..], numbers, shape, run);
        if s.merges == run.merges {
            return Ok(s);
        }
        run = points::stream_pass(words, numbers, shape, options, false, s)?;
    }
    Ok(run)
}

// Litinski's strategy.
pub fn litinski_rounds(
    words: &mut [u64],
    numbers: &mut [u32],
    shape: Shape,
    options: Options,
    first: State,
) -> Result<State, ExpansionLimit>
    requires { SomeRun shape 0 first words.old numbers.old × OptionsIn options }
    ensures { SameLong words.old numbers.old words.new numbers.new
        × ((p : Program) (w : Work) → RunAt shape 0 first words.old numbers.old p w
        → EndedAs shape 511 result words.new numbers.new p
        (litinski_rounds shape.l (rules_of options) options.rounds w)) }
{
    if options.rounds == 0 {
        return Ok(first);
    }
    let run = points::stream_pass(words, numbers, shape, options, false, first)?;
    litinski_from(words, numbers, shape, options, run)
}
