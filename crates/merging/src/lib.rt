// A carried rotation: absorbed at once, merged, or put out.
#![tactic(auto)]

ghost use Rattle.std.specs.Prelude.{◌≡◌, ◌&&◌, not, ℕ, ◌+◌, ◌%◌, Some, None};
ghost use Rattle.model.specs.declared.Absorption.{Absorption};
ghost use Rattle.model.specs.Rules.{Rules, is_at_once};
ghost use Rattle.model.specs.Stream.{Pass, absorb, leave_zero, count_merge, merge_at, angle_at, take_rotation, carry_axis, image_id, axis_image};
ghost use Rattle.model.specs.Lists.{is_even};
ghost use Rattle.model.specs.Items.{with_sign};
ghost use Rattle.layout.specs.Words.{OnlyWords};
ghost use Rattle.clifford.specs.Holds.{mask_place};
ghost use Rattle.absorbing.specs.Absorbing.{CarriesTo};
ghost use Rattle.stream_states.specs.States.{held_of, SomePass, LeftS, SteppedAs, RulesAs};
ghost use Rattle.merging.specs.Reach.{BlocksPre, passes, ReachPre, reaches};
ghost use Rattle.merging.specs.Steps.{is_later, NamePre, PlaceNamed, PutPre, OutPut, LeftAbsorbed, ZeroPre, ZeroLeft, AbsorbingAt};
ghost use Rattle.merging.specs.Taking.{MergedAt, MergingAt, last_said, LastPre, PlacePre, PlaceFor, TakingAt};
ghost use Rattle.merging.specs.LookedUp.{SourceAt};
ghost use Rattle.merging.specs.Carried.{CarryingAt};

use axes::StoredAxes;
use layout::{CARRIED_FROM, LAST, OUT, Shape};
use model::ExpansionLimit;
use steps::State;
use stream_states::StreamRules;

// Whether output i, a rotation, stops axis id: it is not by nothing, and anticommutes with it.
fn blocks(axes: StoredAxes, i: usize, id: usize) -> bool
    requires { BlocksPre axes.sizes axes.numbers.now i id }
    ensures { result ≡ not (passes axes.entry.sizes axes.entry.words.now axes.entry.numbers.now i id) }
{
    // The axis is read only where the angle is not 0.
    if items::angle_at(axes.numbers, axes.sizes.u, OUT, i) == 0 {
        return false;
    }
    let axis = items::axis_at(axes.numbers, axes.sizes.u, OUT, i) as usize;
    axes.anticommute(axis, id)
}

// Whether axis id comes back to place j of the output: it is within lookback, and no later output stops it.
fn can_reach(axes: StoredAxes, lookback: usize, out: usize, j: usize, id: usize) -> bool
    requires { ReachPre axes.sizes out j id axes.numbers.now }
    ensures { result ≡ reaches axes.entry.sizes lookback out j id axes.entry.words.now axes.entry.numbers.now }
{
    if lookback < out - j - 1 {
        return false;
    }
    for i in (j + 1..out).rev() {
        if blocks(axes, i, id) {
            return false;
        }
    }
    true
}

// Whether angle k is left to wait.
fn later(rules: StreamRules, k: u32) -> bool
    ensures { result ≡ is_later rules k }
{
    // Even is not odd, as in the model.
    rules.is_lazy() && k % 2 != 1
}

// Place j of the output, a rotation by angle k, carried from axis a, is named among those that wait, if it is to wait.
fn name_place(
    numbers: &mut [u32],
    shape: Shape,
    rules: StreamRules,
    st: State,
    j: usize,
    k: u32,
    a: usize,
) -> State
    requires { NamePre shape rules st j a numbers.old }
    ensures { PlaceNamed shape rules st j k numbers.old numbers.new result }
{
    if !later(rules, k) {
        return st;
    }
    let n = waiting::insert(numbers, shape.u, st.waiting, j);
    store::write(numbers, shape.u, CARRIED_FROM, j, a as u32);
    State { waiting: n, ..st }
}

// Puts out a rotation by angle k about axis id, carried from axis a, and lets `last` name it.
fn put_out(
    numbers: &mut [u32],
    shape: Shape,
    rules: StreamRules,
    st: State,
    id: usize,
    k: u32,
    a: usize,
) -> State
    requires { PutPre shape rules st id a numbers.old }
    ensures { OutPut shape rules st id k numbers.old numbers.new result }
{
    let out = st.out;
    store::write(numbers, shape.u, LAST, id, (out + 1) as u32);
    items::put_rotation(numbers, shape.u, OUT, out, id as u32, k);
    let s = State { out: out + 1, ..st };
    name_place(numbers, shape, rules, s, out, k, a)
}

// Place j of the output, a rotation about axis id, becomes a zero, and `last` is cleared for the axis.
fn leave_zero(numbers: &mut [u32], shape: Shape, j: usize, id: usize)
    requires { ZeroPre shape j id numbers.old }
    ensures { ZeroLeft shape j id numbers.old numbers.new }
{
    store::write(numbers, shape.u, LAST, id, 0);
    items::put_rotation(numbers, shape.u, OUT, j, id as u32, 0);
}

// F takes in angle k, which is 2, 4 or 6, about axis id; where it is known, the source is the axis that F carries to it.
fn absorb(
    words: &mut [u64],
    numbers: &mut [u32],
    shape: Shape,
    st: State,
    id: usize,
    k: u32,
    source: Option<usize>,
) -> Result<State, ExpansionLimit>
    requires { SomePass (λ m n p. AbsorbingAt shape st id k source words.old numbers.old m n p) }
    ensures { LeftAbsorbed shape st words.old numbers.old result words.new numbers.new
        × ((m : Absorption) (n : ℕ) (p : Pass) → AbsorbingAt shape st id k source words.old numbers.old m n p
        → SteppedAs shape m 0 1 st result words.new numbers.new (absorb shape.l p id k)) }
{
    let after = absorbing::absorb(words, numbers, shape, st, id, k, source)?;
    Ok(State {
        absorbed: st.absorbed + 1,
        ..after
    })
}

// Whether angle k is absorbed at its turn.
fn at_once(rules: StreamRules, k: u32) -> bool
    ensures { result ≡ is_at_once rules.absorption && is_even k }
{
    // Even is not odd, as in the model.
    rules.is_at_once() && k % 2 != 1
}

// F takes in angle k about axis id, which place j of the output had; a zero is left there.
fn absorb_merged(
    words: &mut [u64],
    numbers: &mut [u32],
    shape: Shape,
    st: State,
    j: usize,
    id: usize,
    k: u32,
    source: Option<usize>,
) -> Result<State, ExpansionLimit>
    requires { SomePass (λ m n p. MergedAt shape st j id k source words.old numbers.old m n p) }
    ensures { LeftAbsorbed shape st words.old numbers.old result words.new numbers.new
        × ((m : Absorption) (n : ℕ) (p : Pass) → MergedAt shape st j id k source words.old numbers.old m n p
        → SteppedAs shape m 0 1 st result words.new numbers.new (leave_zero j id (absorb shape.l p id k))) }
{
    let after = absorb(words, numbers, shape, st, id, k, source)?;
    leave_zero(numbers, shape, j, id);
    Ok(after)
}

// Axis a, if F carries it to axis id.
fn source_of(
    words: &mut [u64],
    numbers: &[u32],
    shape: Shape,
    st: State,
    a: usize,
    id: usize,
) -> Option<usize>
    requires { SomePass (λ m n p. SourceAt shape st id words.old numbers.now m n p) }
    ensures { OnlyWords shape.limit (mask_place shape) words.old words.new
        × ((m : Absorption) (n : ℕ) (p : Pass) → SourceAt shape st id words.old numbers.now m n p
        → (b : ℕ) → result ≡ Some b → CarriesTo shape st.axes b id (held_of p)) }
{
    if a < st.axes && carrying::carries(words, numbers, shape, a, id) {
        Some(a)
    } else {
        None
    }
}

// F takes in angle k about axis id, which waits at place j of the output. The axis that it was carried from is looked up, and asked whether
// F still carries it there; no proof trusts the row.
pub fn absorb_place(
    words: &mut [u64],
    numbers: &mut [u32],
    shape: Shape,
    st: State,
    j: usize,
    id: usize,
    k: u32,
) -> Result<State, ExpansionLimit>
    requires { SomePass (λ m n p. MergedAt shape st j id k None words.old numbers.old m n p) }
    ensures { LeftAbsorbed shape st words.old numbers.old result words.new numbers.new
        × ((m : Absorption) (n : ℕ) (p : Pass) → MergedAt shape st j id k None words.old numbers.old m n p
        → SteppedAs shape m 0 1 st result words.new numbers.new (leave_zero j id (absorb shape.l p id k))) }
{
    let a = store::read(&numbers[..], shape.u, CARRIED_FROM, j) as usize;
    let source = source_of(words, &numbers[..], shape, st, a, id);
    absorb_merged(words, numbers, shape, st, j, id, k, source)
}

// Merges angle k about axis id, carried from axis a, into place j of the output, a rotation about it.
fn merge(
    words: &mut [u64],
    numbers: &mut [u32],
    shape: Shape,
    rules: StreamRules,
    st: State,
    j: usize,
    id: usize,
    k: u32,
    a: usize,
) -> Result<State, ExpansionLimit>
    requires { SomePass (λ m n p. MergingAt shape rules st j id k a words.old numbers.old m n p) }
    ensures { LeftS shape words.old numbers.old words.new numbers.new
        × ((m : Absorption) (n : ℕ) (p : Pass) → MergingAt shape rules st j id k a words.old numbers.old m n p
        → SteppedAs shape m 1 1 st result words.new numbers.new
        (merge_at shape.l m (count_merge p) j id ((angle_at p.out j + k) % 8))) }
{
    let old = items::angle_at(&numbers[..], shape.u, OUT, j);
    let sum = (old % 8 + k) % 8;
    let s = State {
        merges: st.merges + 1,
        ..st
    };
    if sum == 0 {
        leave_zero(numbers, shape, j, id);
        return Ok(s);
    }
    if at_once(rules, sum) {
        return absorb_merged(words, numbers, shape, s, j, id, sum, Some(a));
    }
    items::put_rotation(numbers, shape.u, OUT, j, id as u32, sum);
    Ok(name_place(numbers, shape, rules, s, j, sum, a))
}

// The place that `last` names for axis id; none where nothing is merged. The row has the place plus 1, or 0.
fn last_of(numbers: &[u32], shape: Shape, rules: StreamRules, st: State, id: usize) -> Option<usize>
    requires { LastPre shape id numbers.now }
    ensures { result ≡ last_said shape rules.merge st.start id numbers.now }
{
    if !rules.merge {
        return None;
    }
    let v = store::read(numbers, shape.u, LAST, id) as usize;
    if st.start < v { Some(v - 1) } else { None }
}

// The place that `last` names for axis id, if it is reached. By itself, so that a rotation is put out at one place of `take`,
// which the compiler then puts into the loop over the items.
fn place_for(
    words: &[u64],
    numbers: &[u32],
    shape: Shape,
    rules: StreamRules,
    st: State,
    id: usize,
) -> Option<usize>
    requires { PlacePre shape rules st id words.now numbers.now }
    ensures { PlaceFor shape rules st id words.now numbers.now result }
{
    let j = last_of(numbers, shape, rules, st, id)?;
    let z = axes::sizes_of(shape, st.axes);
    let axes = StoredAxes {
        words,
        numbers,
        sizes: z,
    };
    can_reach(axes, rules.lookback, st.out, j, id).then_some(j)
}

// A rotation by angle k about axis id, which was carried: absorbed, merged or put out.
fn take(
    words: &mut [u64],
    numbers: &mut [u32],
    shape: Shape,
    rules: StreamRules,
    st: State,
    id: usize,
    k: u32,
    a: usize,
) -> Result<State, ExpansionLimit>
    requires { SomePass (λ m n p. TakingAt shape rules st id k a words.old numbers.old m n p) }
    ensures { LeftS shape words.old numbers.old words.new numbers.new
        × ((g : Rules) (n : ℕ) (p : Pass) → RulesAs rules g
        → TakingAt shape rules st id k a words.old numbers.old g.absorption n p
        → SteppedAs shape g.absorption 1 1 st result words.new numbers.new
        (take_rotation shape.l g rules.merge p id k)) }
{
    if at_once(rules, k) {
        return absorb(words, numbers, shape, st, id, k, Some(a));
    }
    let Some(j) = place_for(&words[..], &numbers[..], shape, rules, st, id) else {
        return Ok(put_out(numbers, shape, rules, st, id, k, a));
    };
    merge(words, numbers, shape, rules, st, j, id, k, a)
}

// A rotation by an angle about axis a is carried through F, and taken.
pub fn carry_and_take(
    words: &mut [u64],
    numbers: &mut [u32],
    shape: Shape,
    rules: StreamRules,
    st: State,
    a: usize,
    angle: u32,
) -> Result<State, ExpansionLimit>
    requires { SomePass (λ m n p. CarryingAt shape rules st a angle words.old numbers.old m n p) }
    ensures { LeftS shape words.old numbers.old words.new numbers.new
        × ((g : Rules) (n : ℕ) (p : Pass) → RulesAs rules g
        → CarryingAt shape rules st a angle words.old numbers.old g.absorption n p
        → SteppedAs shape g.absorption 1 1 st result words.new numbers.new
        (take_rotation shape.l g rules.merge (carry_axis shape.l p a) (image_id shape.l (carry_axis shape.l p a) a)
        (with_sign (axis_image shape.l (carry_axis shape.l p a) a).turns angle))) }
{
    let image = carrying::carry(words, numbers, shape, st, a)?;
    let s = st.with_image(image);
    let k = items::with_sign(s.turns, angle);
    take(words, numbers, shape, rules, s, s.id, k, a)
}
