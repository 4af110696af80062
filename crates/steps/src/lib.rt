// Where a run stands beside what lies in the stores, and how a step of it ends.
#![tactic(auto)]

ghost use Rattle.std.specs.Prelude.{◌≡◌};
ghost use Rattle.steps.specs.State.{first_state, with_image};

// Axes stored; the largest word sum that was tested; the image of the axis carried last, its id and its quarter turns; qubits that F has
// touched; items put out, and where their last segment begins; how many places row WAITING names; merges, exchanges and absorbed rotations.
#[derive(Clone, Copy, Default)]
pub struct State {
    pub axes: usize,
    pub peak: usize,
    pub id: usize,
    pub turns: u32,
    pub slots: usize,
    pub out: usize,
    pub start: usize,
    pub waiting: usize,
    pub merges: usize,
    pub swaps: usize,
    pub absorbed: usize,
}

// An axis's image: how many axes there are with it, the largest word sum that was tested by then, its id and its quarter turns.
#[derive(Clone, Copy)]
pub struct Image {
    pub axes: usize,
    pub peak: usize,
    pub id: usize,
    pub turns: u32,
}

// Where a run or a stream begins: so many axes, the largest sum so far, so many items.
pub fn first_state(axes: usize, peak: usize, out: usize) -> State
    ensures { result ≡ first_state axes peak out }
{
    State {
        axes,
        peak,
        out,
        ..State::default()
    }
}

impl State {
    // The state with an axis's image.
    pub fn with_image(self, image: Image) -> State
        ensures { result ≡ with_image image.axes image.peak image.id image.turns self }
    {
        State {
            axes: image.axes,
            peak: image.peak,
            id: image.id,
            turns: image.turns,
            ..self
        }
    }
}
