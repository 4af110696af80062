// Axes carried through F.
#![tactic(auto)]

ghost use Rattle.std.specs.Prelude.{◌≡◌, true, ◌+◌, ◌*◌, ◌<◌, ◌≤◌, length};
ghost use Rattle.pauli.specs.Letter.{single};
ghost use Rattle.letter.specs.Letters.{number_of_letter};
ghost use Rattle.model.specs.Words.{as_value, set_bits, support};
ghost use Rattle.model.specs.Clifford.{Touched, word_image};
ghost use Rattle.layout.specs.Words.{OnlyWords};
ghost use Rattle.steps.specs.State.{step_with};
ghost use Rattle.clifford.specs.Holds.{SomeTouched, image_in, mask_place};
ghost use Rattle.clifford.specs.Images.{ImageThere};
ghost use Rattle.carrying.specs.Scratch.{TimesPre, ScratchTimes};
ghost use Rattle.carrying.specs.Letters.{LetterAt, letter_of_axis, LettersAt, LettersTimes, CarryAt, axis_word, WordCarried};
ghost use Rattle.carrying.specs.Carries.{CarriesAt};
ghost use Rattle.carrying.specs.Fixed.{NoneMarked};
ghost use Rattle.carrying.specs.Carrying.{CarryPre, LeftCarried, CarriedAs};

use layout::{F_PHASE, F_SLOT, Shape};
use letter::Letter;
use model::ExpansionLimit;
use steps::{Image, State};

// Whether the word at a place has no letter where the mask has a bit. Only the time of `carry` depends on it.
fn fixes(words: &[u64], at: usize, mask: usize, l: usize) -> bool
    requires { (at + 2 * l ≤ length words.now) × (mask + l ≤ length words.now) }
    ensures { result ≡ true → NoneMarked l words.now at mask l }
{
    (0..l).all(|j| clifford::acted_at(words, at, l, j) & words[mask + j] == 0)
}

// Multiplies a letter on qubit q behind the scratch word, whose phase is given; the phase then.
fn times_letter(words: &mut [u64], shape: Shape, q: usize, letter: Letter, phase: u32) -> u32
    requires { TimesPre shape words.old × (q < 64 * shape.l) × (phase < 4) }
    ensures { ScratchTimes shape phase words.old (as_value (single shape.l q (number_of_letter letter))) words.new result }
{
    let scratch = layout::scratch_at(shape.limit);
    let one = scratch + 2 * shape.l;
    letter::write_letter(words, one, shape.l, q, letter);
    let e = product::product_in(words, scratch, one, scratch, shape.l);
    (phase + e.0 as u32) % 4
}

// Multiplies image i behind the scratch word.
fn times_image(words: &mut [u64], numbers: &[u32], shape: Shape, i: usize, phase: u32) -> u32
    requires { TimesPre shape words.old × ImageThere shape i numbers.now × (phase < 4) }
    ensures { ScratchTimes shape phase words.old (image_in shape words.old numbers.now i)
        words.new result }
{
    let turns = store::read(numbers, shape.u, F_PHASE, i);
    let scratch = layout::scratch_at(shape.limit);
    let at = layout::slot_at(shape.limit, shape.l, i);
    let e = product::product_in(words, scratch, at, scratch, shape.l);
    (phase + turns % 4 + e.0 as u32) % 4
}

// Multiplies the image of axis id's letter on qubit q behind the scratch word.
fn carry_letter(
    words: &mut [u64],
    numbers: &[u32],
    shape: Shape,
    id: usize,
    q: usize,
    phase: u32,
) -> u32
    requires { SomeTouched (λ (t : Touched). LetterAt shape id q phase words.old numbers.now t) }
    ensures { (t : Touched) → LetterAt shape id q phase words.old numbers.now t
        → ScratchTimes shape phase words.old (letter_of_axis shape id q t) words.new result }
{
    let letter = letter::letter_at(axes::axis(&words[..], id, shape.l), shape.l, q);
    // Lent memory has a number for none: 0 is no slot.
    let slot = store::read(numbers, shape.u, F_SLOT, q) as usize;
    if slot == 0 {
        return times_letter(words, shape, q, letter, phase);
    }
    let i = 3 * (slot - 1) + (usize::from(letter) - 1);
    times_image(words, numbers, shape, i, phase)
}

// Multiplies the images of axis id's letters on the qubits of the set bits of number j behind the scratch word.
fn carry_bits(
    words: &mut [u64],
    numbers: &[u32],
    shape: Shape,
    id: usize,
    j: usize,
    acted: u64,
    before: u32,
) -> u32
    requires { SomeTouched (λ (t : Touched). LettersAt shape id j acted before words.old numbers.now t) }
    ensures { (t : Touched) → LettersAt shape id j acted before words.old numbers.now t
        → LettersTimes shape id before words.old t (set_bits 64 (64 * j) acted) words.new result }
{
    let mut phase = before;
    for place in bits::set_bits(acted) {
        phase = carry_letter(words, numbers, shape, id, 64 * j + place, phase);
    }
    phase
}

// Multiplies the images of all of axis id's letters behind the scratch word, qubits rising; the phase.
fn carry_letters(words: &mut [u64], numbers: &[u32], shape: Shape, id: usize) -> u32
    requires { SomeTouched (λ (t : Touched). CarryAt shape id words.old numbers.now t) }
    ensures { (t : Touched) → CarryAt shape id words.old numbers.now t
        → LettersTimes shape id 0 words.old t (support shape.l (axis_word id t)) words.new result }
{
    let at = layout::axis_at(shape.l, id);
    let mut phase: u32 = 0;
    for j in 0..shape.l {
        let acted = clifford::acted_at(&words[..], at, shape.l, j);
        phase = carry_bits(words, numbers, shape, id, j, acted, phase);
    }
    phase
}

// The image of axis id's word, as the scratch word, and its phase.
fn carry_word(words: &mut [u64], numbers: &[u32], shape: Shape, id: usize) -> u32
    requires { SomeTouched (λ (t : Touched). CarryAt shape id words.old numbers.now t) }
    ensures { (t : Touched) → CarryAt shape id words.old numbers.now t
        → WordCarried shape id words.old t words.new result }
{
    let scratch = layout::scratch_at(shape.limit);
    let e = scratch + 2 * shape.l;
    words[scratch..e].fill(0);
    carry_letters(words, numbers, shape, id)
}

// Whether F carries axis a to axis id, whatever the phase.
pub fn carries(words: &mut [u64], numbers: &[u32], shape: Shape, a: usize, id: usize) -> bool
    requires { SomeTouched (λ (t : Touched). CarriesAt shape a id words.old numbers.now t) }
    ensures { OnlyWords shape.limit (mask_place shape) words.old words.new
        × ((t : Touched) → CarriesAt shape a id words.old numbers.now t → result ≡ true
        → (word_image shape.l t.held (axis_word a t)).word ≡ axis_word id t) }
{
    carry_word(words, numbers, shape, a);
    let image = axes::word_at(&words[..], layout::scratch_at(shape.limit), shape.l);
    pauli::same(image, axes::axis(&words[..], id, shape.l))
}

// The same as `carry`, whether or not F is the identity: for callers that know that it is not.
pub fn carry_held(
    words: &mut [u64],
    numbers: &mut [u32],
    shape: Shape,
    st: State,
    id: usize,
) -> Result<Image, ExpansionLimit>
    requires { SomeTouched (λ (t : Touched). CarryPre shape st id words.old numbers.old t) }
    ensures { LeftCarried shape words.old numbers.old words.new numbers.new
        × ((t : Touched) → CarryPre shape st id words.old numbers.old t
        → CarriedAs shape st id t (step_with st result) words.new numbers.new) }
{
    let at = layout::axis_at(shape.l, id);
    let mask = clifford::mask_at(shape.limit, shape.l);
    if fixes(&words[..], at, mask, shape.l) {
        return Ok(Image {
            axes: st.axes,
            peak: st.peak,
            id,
            turns: 0,
        });
    }
    let turns = carry_word(words, &numbers[..], shape, id);
    let counted = st.slots * (6 * shape.l);
    let scratch = layout::scratch_at(shape.limit);
    let z = axes::sizes_of(shape, st.axes);
    let a = interning::intern(words, numbers, z, counted, st.peak, scratch)?;
    Ok(Image {
        axes: a.axes,
        peak: a.peak,
        id: a.id,
        turns,
    })
}

// The image of axis id: its word's id, stored if it is new, and its quarter turns. The sum that is tested counts F's images. Where F is the
// identity no call is made: by itself, so that the compiler puts the test into its callers.
pub fn carry(
    words: &mut [u64],
    numbers: &mut [u32],
    shape: Shape,
    st: State,
    id: usize,
) -> Result<Image, ExpansionLimit>
    requires { SomeTouched (λ (t : Touched). CarryPre shape st id words.old numbers.old t) }
    ensures { LeftCarried shape words.old numbers.old words.new numbers.new
        × ((t : Touched) → CarryPre shape st id words.old numbers.old t
        → CarriedAs shape st id t (step_with st result) words.new numbers.new) }
{
    if st.slots == 0 {
        return Ok(Image {
            axes: st.axes,
            peak: st.peak,
            id,
            turns: 0,
        });
    }
    carry_held(words, numbers, shape, st, id)
}
