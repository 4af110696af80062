// F takes in a quarter, half or three quarter turn about an axis: the axis's qubits are touched, then the images change.
#![tactic(auto)]

ghost use Rattle.std.specs.Prelude.{◌≡◌, [], ◌∷◌, ℕ, ◌+◌, ◌*◌, ◌%◌, ◌<◌, ◌≤◌, length, get_or};
ghost use Rattle.store.specs.Row.{row, Written};
ghost use Rattle.product.specs.Product.{odd_phase};
ghost use Rattle.model.specs.Words.{set_bits, support, word_of};
ghost use Rattle.model.specs.Clifford.{Touched, touch_all, absorb_word};
ghost use Rattle.layout.specs.Rows.{f_phase};
ghost use Rattle.layout.specs.Words.{axis_place};
ghost use Rattle.clifford.specs.Holds.{SomeTouched, LeftF, TouchedAs, AxisAt};
ghost use Rattle.axes.specs.View.{word_at};
ghost use Rattle.absorbing.specs.Turning.{TurnPre, ImageTurned, TurnsPre, TurnedTo, ImagesTurned};
ghost use Rattle.absorbing.specs.Qubits.{SomeSlots, QubitsPre, TurnedFor, NumberPre, ActedPre};
ghost use Rattle.absorbing.specs.AxisQubits.{BitsAt};
ghost use Rattle.absorbing.specs.Absorbing.{AbsorbAt};

use angle::Phase;
use layout::{F_PHASE, F_SLOT, Shape};
use model::ExpansionLimit;
use steps::State;

// Touches the qubits of the set bits of number j of a plane.
fn touch_bits(
    words: &mut [u64],
    numbers: &mut [u32],
    shape: Shape,
    first: State,
    j: usize,
    acted: u64,
) -> Result<State, ExpansionLimit>
    requires { SomeTouched (λ (t : Touched). BitsAt shape first.axes first.slots first.peak j acted words.old numbers.old t) }
    ensures { LeftF shape words.old numbers.old words.new numbers.new
        × ((t : Touched) → BitsAt shape first.axes first.slots first.peak j acted words.old numbers.old t
        → TouchedAs shape first result words.new numbers.new (touch_all shape.l t (set_bits 64 (64 * j) acted))) }
{
    let mut st = first;
    for place in bits::set_bits(acted) {
        st = clifford::touch(words, numbers, shape, st, 64 * j + place)?;
    }
    Ok(st)
}

// Touches the qubits of axis id.
fn touch_all(
    words: &mut [u64],
    numbers: &mut [u32],
    shape: Shape,
    first: State,
    id: usize,
) -> Result<State, ExpansionLimit>
    requires { SomeTouched (λ (t : Touched). AxisAt shape first.axes first.slots first.peak id words.old numbers.old t) }
    ensures { LeftF shape words.old numbers.old words.new numbers.new
        × ((t : Touched) → AxisAt shape first.axes first.slots first.peak id words.old numbers.old t
        → TouchedAs shape first result words.new numbers.new
        (touch_all shape.l t (support shape.l (word_of t.store.axes id)))) }
{
    let at = layout::axis_at(shape.l, id);
    let mut st = first;
    for j in 0..shape.l {
        let acted = clifford::acted_at(&words[..], at, shape.l, j);
        st = touch_bits(words, numbers, shape, st, j, acted)?;
    }
    Ok(st)
}

// Adds e to the phase of image i.
fn add_phase(numbers: &mut [u32], u: usize, i: usize, e: u32)
    requires { (24 * u ≤ length numbers.old) × (i < u) × (e < 8) }
    ensures { Written numbers.old u f_phase i
        ((get_or (row numbers.old u f_phase) i 0 + e) % 4) numbers.new }
{
    let old = store::read(&numbers[..], u, F_PHASE, i);
    store::write(numbers, u, F_PHASE, i, (old % 4 + e) % 4);
}

// The phase of the product of the words at a and at b where it is odd.
fn odd_phase_at(words: &[u64], a: usize, b: usize, l: usize) -> Option<Phase>
    requires { (a + 2 * l ≤ length words.now) × (b + 2 * l ≤ length words.now) }
    ensures { result ≡ odd_phase l (word_at l words.now a) (word_at l words.now b) }
{
    product::odd_phase(axes::word_at(words, a, l), axes::word_at(words, b, l), l)
}

// Image P, of number i, by the word B at b. The phase of BP tells whether they anticommute; if so, P becomes iBP for angle 2, -iBP for 6,
// -P for 4.
fn turn_image(words: &mut [u64], numbers: &mut [u32], shape: Shape, i: usize, b: usize, k: u32)
    requires { TurnPre shape i b k words.old numbers.old }
    ensures { ImageTurned shape i b k words.old numbers.old words.new numbers.new }
{
    let at = layout::slot_at(shape.limit, shape.l, i);
    let Some(e) = odd_phase_at(&words[..], b, at, shape.l) else {
        return;
    };
    if k == 4 {
        add_phase(numbers, shape.u, i, 2);
        return;
    }
    product::product_word_in(words, b, at, at, shape.l);
    add_phase(numbers, shape.u, i, e.0 as u32 + k / 2);
}

// The images from one up to an end, by the word at b.
fn turn_images(
    words: &mut [u64],
    numbers: &mut [u32],
    shape: Shape,
    first: usize,
    end: usize,
    b: usize,
    k: u32,
)
    requires { TurnsPre shape end b k words.old numbers.old × (first ≤ end) }
    ensures { TurnedTo shape first end b k words.old numbers.old words.new numbers.new end }
{
    for i in first..end {
        turn_image(words, numbers, shape, i, b, k);
    }
}

// The images of qubit q, if it is touched.
fn turn_qubit(words: &mut [u64], numbers: &mut [u32], shape: Shape, q: usize, b: usize, k: u32)
    requires { SomeSlots (λ m. QubitsPre shape m b k words.old numbers.old) × (q < shape.qubits) }
    ensures { (m : ℕ) → QubitsPre shape m b k words.old numbers.old
        → TurnedFor shape m b k (q ∷ []) words.old numbers.old words.new numbers.new }
{
    // Lent memory has a number for none: 0 is no slot.
    let slot = store::read(&numbers[..], shape.u, F_SLOT, q) as usize;
    if slot == 0 {
        return;
    }
    turn_images(words, numbers, shape, 3 * (slot - 1), 3 * slot, b, k);
}

// Those of the qubits of the set bits of number j of a plane.
fn turn_bits(
    words: &mut [u64],
    numbers: &mut [u32],
    shape: Shape,
    j: usize,
    acted: u64,
    b: usize,
    k: u32,
)
    requires { SomeSlots (λ m. NumberPre shape m b k j acted words.old numbers.old) }
    ensures { (m : ℕ) → NumberPre shape m b k j acted words.old numbers.old
        → TurnedFor shape m b k (set_bits 64 (64 * j) acted)
        words.old numbers.old words.new numbers.new }
{
    for place in bits::set_bits(acted) {
        turn_qubit(words, numbers, shape, 64 * j + place, b, k);
    }
}

// Those of the qubits that the word at a place acts on.
fn turn_acted(words: &mut [u64], numbers: &mut [u32], shape: Shape, at: usize, b: usize, k: u32)
    requires { SomeSlots (λ m. ActedPre shape m at b k words.old numbers.old) }
    ensures { (m : ℕ) → ActedPre shape m at b k words.old numbers.old
        → TurnedFor shape m b k (support shape.l (word_at shape.l words.old at))
        words.old numbers.old words.new numbers.new }
{
    for j in 0..shape.l {
        let acted = clifford::acted_at(&words[..], at, shape.l, j);
        turn_bits(words, numbers, shape, j, acted, b, k);
    }
}

// All images, by axis id. Where the axis that F carries to it is known, no image of another qubit than that axis's can change.
fn turn(
    words: &mut [u64],
    numbers: &mut [u32],
    shape: Shape,
    st: State,
    id: usize,
    k: u32,
    source: Option<usize>,
)
    requires { SomeTouched (λ (t : Touched). AbsorbAt shape st.axes st.slots st.peak id k source words.old numbers.old t) }
    ensures { ImagesTurned shape (3 * st.slots) (axis_place shape.l id) k
        words.old numbers.old words.new numbers.new }
{
    let b = layout::axis_at(shape.l, id);
    let Some(a) = source else {
        turn_images(words, numbers, shape, 0, 3 * st.slots, b, k);
        return;
    };
    let at = layout::axis_at(shape.l, a);
    turn_acted(words, numbers, shape, at, b, k);
}

// F takes in angle k, which is 2, 4 or 6, about axis id; where it is known, the source is the axis that F carries to it.
pub fn absorb(
    words: &mut [u64],
    numbers: &mut [u32],
    shape: Shape,
    st: State,
    id: usize,
    k: u32,
    source: Option<usize>,
) -> Result<State, ExpansionLimit>
    requires { SomeTouched (λ (t : Touched). AbsorbAt shape st.axes st.slots st.peak id k source words.old numbers.old t) }
    ensures { LeftF shape words.old numbers.old words.new numbers.new
        × ((t : Touched) → AbsorbAt shape st.axes st.slots st.peak id k source words.old numbers.old t
        → TouchedAs shape st result words.new numbers.new (absorb_word shape.l t (word_of t.store.axes id) k)) }
{
    let s = touch_all(words, numbers, shape, st, id)?;
    turn(words, numbers, shape, s, id, k, source);
    Ok(s)
}
