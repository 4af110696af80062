// Frame rows are carried through F, if anything was absorbed.
#![tactic(auto)]

ghost use Rattle.std.specs.Prelude.{[], ℕ, ◌-◌};
ghost use Rattle.model.specs.declared.Absorption.{Absorption};
ghost use Rattle.model.specs.Stream.{Pass, carry_rows_from};
ghost use Rattle.work.specs.Rows.{rows_in};
ghost use Rattle.stream_states.specs.States.{SomePass};
ghost use Rattle.frame_rows.specs.FrameRows.{LeftR, RowAt, RowAs, RowsAt, RowsAs, rows_end, rows_carried};

use layout::{NO_AXIS, Shape};
use model::ExpansionLimit;
use steps::State;
use work::Root;

// Carries the axis of reference j, if it has one.
fn carry_row(
    words: &mut [u64],
    numbers: &mut [u32],
    shape: Shape,
    st: State,
    j: usize,
) -> Result<State, ExpansionLimit>
    requires { SomePass (λ m n p. RowAt shape st j words.old numbers.old m n p) }
    ensures { LeftR shape words.old numbers.old words.new numbers.new
        × ((m : Absorption) (n : ℕ) (p : Pass) → RowAt shape st j words.old numbers.old m n p
        → RowAs shape m j numbers.old p result words.new numbers.new) }
{
    let x = work::root_at(&numbers[..], shape.u, j);
    // Lent memory has a number for none.
    if x.axis == NO_AXIS {
        return Ok(st);
    }
    let a = x.axis as usize;
    let image = carrying::carry_held(words, numbers, shape, st, a)?;
    let to = st.with_image(image);
    let moved = Root {
        axis: to.id as u32,
        sign: (to.turns + x.sign) % 4,
    };
    work::put_root(numbers, shape.u, j, moved);
    Ok(to)
}

// Carries all frame rows that are roots.
fn carry_rows(
    words: &mut [u64],
    numbers: &mut [u32],
    shape: Shape,
    first: State,
) -> Result<State, ExpansionLimit>
    requires { SomePass (λ m n p. RowsAt shape first words.old numbers.old m n p) }
    ensures { LeftR shape words.old numbers.old words.new numbers.new
        × ((m : Absorption) (n : ℕ) (p : Pass) → RowsAt shape first words.old numbers.old m n p
        → RowsAs shape m numbers.old result words.new numbers.new
        (carry_rows_from shape.l p []
        (rows_in numbers.old shape.u shape.operations (rows_end shape - shape.operations)))) }
{
    let mut st = first;
    let end = shape.operations + 2 * shape.qubits;
    for j in shape.operations..end {
        st = carry_row(words, numbers, shape, st, j)?;
    }
    Ok(st)
}

// Carries the frame rows if anything was absorbed.
pub fn carry_frame(
    words: &mut [u64],
    numbers: &mut [u32],
    shape: Shape,
    st: State,
) -> Result<State, ExpansionLimit>
    requires { SomePass (λ m n p. RowsAt shape st words.old numbers.old m n p) }
    ensures { LeftR shape words.old numbers.old words.new numbers.new
        × ((m : Absorption) (n : ℕ) (p : Pass) → RowsAt shape st words.old numbers.old m n p
        → RowsAs shape m numbers.old result words.new numbers.new
        (rows_carried shape numbers.old p)) }
{
    if st.absorbed == 0 {
        return Ok(st);
    }
    carry_rows(words, numbers, shape, st)
}
