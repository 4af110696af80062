// The rounds of both strategies.
#![tactic(auto)]

ghost use Rattle.model.specs.Program.{Program};
ghost use Rattle.model.specs.Rules.{rules_of};
ghost use Rattle.model.specs.Rounds.{Work, passes};
ghost use Rattle.points.specs.Points.{SomeRun, OptionsIn, SameLong, RunAt, EndedAs};

use layout::Shape;
use model::{ExpansionLimit, Options, Strategy};
use steps::State;

// The passes, by the strategy.
pub fn passes(
    words: &mut [u64],
    numbers: &mut [u32],
    shape: Shape,
    options: Options,
    first: State,
) -> Result<State, ExpansionLimit>
    requires { SomeRun shape 0 first words.old numbers.old × OptionsIn options }
    ensures { SameLong words.old numbers.old words.new numbers.new
        × ((p : Program) (w : Work) → RunAt shape 0 first words.old numbers.old p w
        → EndedAs shape 511 result words.new numbers.new p
        (passes options.strategy shape.l (rules_of options) options.rounds w)) }
{
    match options.strategy {
        Strategy::Merge => merge_rounds::merge_rounds(words, numbers, shape, options, first),
        Strategy::Litinski => litinski::litinski_rounds(words, numbers, shape, options, first),
    }
}
