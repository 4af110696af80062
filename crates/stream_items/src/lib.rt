// The items of a stream, one after the other.
#![tactic(auto)]

ghost use Rattle.std.specs.Prelude.{◌≡◌, ℕ, ◌+◌, ◌-◌};
ghost use Rattle.model.specs.declared.Absorption.{Absorption};
ghost use Rattle.model.specs.declared.Absorption.TheVariants.{Lazy as lazy};
ghost use Rattle.model.specs.Rules.{Rules};
ghost use Rattle.model.specs.Stream.{Pass, absorb_blocking, absorb_all_waiting, stream_item, stream};
ghost use Rattle.model.specs.Items.{rot, rotation};
ghost use Rattle.layout.specs.Rows.{items_row};
ghost use Rattle.axes.specs.Held.{stored_axes};
ghost use Rattle.items.specs.View.{item_said, items_in};
ghost use Rattle.stream_states.specs.States.{SomePass, LeftS, SteppedAs, RulesAs, is_waiting};
ghost use Rattle.stream_items.specs.Waiting.{picked_by, PicksPre, TurnAt, TurnedAs};
ghost use Rattle.stream_items.specs.WaitingList.{ListedAt, WaitAt, waited_all};
ghost use Rattle.stream_items.specs.Items.{BlockingAt, unblocked, UnblockAt, RotationAt, AllAt, BarrierAt, barrier_put};
ghost use Rattle.stream_items.specs.Behind.{named_item, begins_at};
ghost use Rattle.stream_items.specs.Loop.{ItemAt, StreamAt, SomeStream, StreamedAs};

use axes::StoredAxes;
use items::Tagged;
use layout::{ITEMS, OUT, Shape, WAITING};
use model::{Absorption, ExpansionLimit, Lazy};
use steps::State;
use stream_states::StreamRules;

// Whether an output waits: an even rotation that is not by nothing.
fn waits(x: Tagged) -> bool
    ensures { result ≡ is_waiting (item_said x) }
{
    // Tag, then angle, as the model asks them.
    x.tag == 0 && x.angle != 0 && x.angle % 2 != 1
}

// Whether axis b is to be absorbed: all are, or only those that anticommute with an axis.
fn picks(axes: StoredAxes, only: Option<usize>, b: usize) -> bool
    requires { PicksPre axes.sizes only b }
    ensures { result ≡ picked_by only axes.entry.sizes.l (stored_axes axes.entry.sizes axes.entry.words.now) b }
{
    match only {
        None => true,
        Some(id) => axes.anticommute(b, id),
    }
}

// Place i of the list has its turn: the output there is passed over if it does not wait, left to wait if it is not picked, else absorbed.
// What is left to wait comes behind the places that are kept.
fn waiting_turn(
    words: &mut [u64],
    numbers: &mut [u32],
    shape: Shape,
    st: State,
    only: Option<usize>,
    i: usize,
) -> Result<State, ExpansionLimit>
    requires { SomePass (λ m n p. TurnAt shape st only i words.old numbers.old n p) }
    ensures { LeftS shape words.old numbers.old words.new numbers.new
        × ((n : ℕ) (p : Pass) → TurnAt shape st only i words.old numbers.old n p
        → TurnedAs shape st only i numbers.old p result words.new numbers.new) }
{
    let j = store::read(&numbers[..], shape.u, WAITING, i) as usize;
    let x = items::item_at(&numbers[..], shape.u, OUT, j);
    if !waits(x) {
        return Ok(st);
    }
    let axis = x.axis as usize;
    let z = axes::sizes_of(shape, st.axes);
    let axes = StoredAxes {
        words: &words[..],
        numbers: &numbers[..],
        sizes: z,
    };
    if !picks(axes, only, axis) {
        store::write(numbers, shape.u, WAITING, st.waiting, j as u32);
        return Ok(State {
            waiting: st.waiting + 1,
            ..st
        });
    }
    merging::absorb_place(words, numbers, shape, st, j, axis, x.angle)
}

// Goes over the n places of the list: rotations that wait are absorbed in order, all of them or only those that anticommute with an axis.
fn absorb_listed(
    words: &mut [u64],
    numbers: &mut [u32],
    shape: Shape,
    first: State,
    n: usize,
    only: Option<usize>,
) -> Result<State, ExpansionLimit>
    requires { SomePass (λ m k p. ListedAt shape first n only words.old numbers.old k p) }
    ensures { LeftS shape words.old numbers.old words.new numbers.new
        × ((k : ℕ) (p : Pass) → ListedAt shape first n only words.old numbers.old k p
        → SteppedAs shape lazy 0 n first result words.new numbers.new (waited_all shape only p)) }
{
    let mut st = first;
    for i in 0..n {
        st = waiting_turn(words, numbers, shape, st, only, i)?;
    }
    Ok(st)
}

// Absorbs the rotations that wait, in order: all of them, or only those that anticommute with an axis.
fn absorb_waiting(
    words: &mut [u64],
    numbers: &mut [u32],
    shape: Shape,
    st: State,
    only: Option<usize>,
) -> Result<State, ExpansionLimit>
    requires { SomePass (λ m n p. WaitAt shape st only words.old numbers.old n p) }
    ensures { LeftS shape words.old numbers.old words.new numbers.new
        × ((n : ℕ) (p : Pass) → WaitAt shape st only words.old numbers.old n p
        → SteppedAs shape lazy 0 st.out st result words.new numbers.new (waited_all shape only p)) }
{
    let first = State { waiting: 0, ..st };
    absorb_listed(words, numbers, shape, first, st.waiting, only)
}

// Absorbs the rotations that wait and anticommute with the image of axis a.
fn absorb_blocking(
    words: &mut [u64],
    numbers: &mut [u32],
    shape: Shape,
    st: State,
    a: usize,
) -> Result<State, ExpansionLimit>
    requires { SomePass (λ m n p. BlockingAt shape st a words.old numbers.old n p) }
    ensures { LeftS shape words.old numbers.old words.new numbers.new
        × ((n : ℕ) (p : Pass) → BlockingAt shape st a words.old numbers.old n p
        → SteppedAs shape lazy 0 st.out st result words.new numbers.new (absorb_blocking shape.l p a)) }
{
    let image = carrying::carry(words, numbers, shape, st, a)?;
    let s = st.with_image(image);
    absorb_waiting(words, numbers, shape, s, Some(s.id))
}

// Where even rotations wait, absorbs those that block axis a. By itself, so that `rotation` takes a rotation at one place, which the
// compiler puts into the loop over the items.
fn unblock(
    words: &mut [u64],
    numbers: &mut [u32],
    shape: Shape,
    rules: StreamRules,
    st: State,
    a: usize,
) -> Result<State, ExpansionLimit>
    requires { SomePass (λ m n p. UnblockAt shape rules st a words.old numbers.old m n p) }
    ensures { LeftS shape words.old numbers.old words.new numbers.new
        × ((m : Absorption) (n : ℕ) (p : Pass) → UnblockAt shape rules st a words.old numbers.old m n p
        → SteppedAs shape m 0 st.out st result words.new numbers.new (unblocked shape.l m p a)) }
{
    if !rules.is_lazy() {
        return Ok(st);
    }
    absorb_blocking(words, numbers, shape, st, a)
}

// A rotation by an angle about axis a: those that wait and block it are absorbed first.
fn rotation(
    words: &mut [u64],
    numbers: &mut [u32],
    shape: Shape,
    rules: StreamRules,
    st: State,
    a: usize,
    angle: u32,
) -> Result<State, ExpansionLimit>
    requires { SomePass (λ m n p. RotationAt shape rules st a angle words.old numbers.old m n p) }
    ensures { LeftS shape words.old numbers.old words.new numbers.new
        × ((g : Rules) (n : ℕ) (p : Pass) → RulesAs rules g
        → RotationAt shape rules st a angle words.old numbers.old g.absorption n p
        → SteppedAs shape g.absorption 1 (st.out + 1) st result words.new numbers.new
        (stream_item shape.l g rules.merge p (rotation (rot a angle)))) }
{
    let s = unblock(words, numbers, shape, rules, st, a)?;
    merging::carry_and_take(words, numbers, shape, rules, s, a, angle)
}

// Absorbs all that wait.
fn absorb_all(
    words: &mut [u64],
    numbers: &mut [u32],
    shape: Shape,
    rules: StreamRules,
    st: State,
) -> Result<State, ExpansionLimit>
    requires { SomePass (λ m n p. AllAt shape rules st words.old numbers.old m n p) }
    ensures { LeftS shape words.old numbers.old words.new numbers.new
        × ((m : Absorption) (n : ℕ) (p : Pass) → AllAt shape rules st words.old numbers.old m n p
        → SteppedAs shape m 0 st.out st result words.new numbers.new (absorb_all_waiting shape.l m p)) }
{
    if !rules.is_lazy() {
        return Ok(st);
    }
    absorb_waiting(words, numbers, shape, st, None)
}

// A barrier, once none waits: it is carried and put out, and a segment begins behind it.
fn put_barrier(
    words: &mut [u64],
    numbers: &mut [u32],
    shape: Shape,
    st: State,
    x: Tagged,
) -> Result<State, ExpansionLimit>
    requires { SomePass (λ m n p. BarrierAt shape st x words.old numbers.old m n p) }
    ensures { LeftS shape words.old numbers.old words.new numbers.new
        × ((m : Absorption) (n : ℕ) (p : Pass) → BarrierAt shape st x words.old numbers.old m n p
        → SteppedAs shape m 0 0 st result words.new numbers.new
        (barrier_put shape.l p (x.tag - 1) x.axis x.angle)) }
{
    let a = x.axis as usize;
    let image = carrying::carry(words, numbers, shape, st, a)?;
    let to = st.with_image(image);
    let out = to.out;
    let moved = Tagged {
        tag: x.tag,
        axis: to.id as u32,
        angle: (to.turns + x.angle) % 4,
    };
    items::put_item(numbers, shape.u, OUT, out, moved);
    Ok(State {
        out: out + 1,
        start: out + 1,
        ..to
    })
}

// One item of a stream.
fn stream_item(
    words: &mut [u64],
    numbers: &mut [u32],
    shape: Shape,
    rules: StreamRules,
    st: State,
    x: Tagged,
) -> Result<State, ExpansionLimit>
    requires { SomePass (λ m n p. ItemAt shape rules st x words.old numbers.old m n p) }
    ensures { LeftS shape words.old numbers.old words.new numbers.new
        × ((g : Rules) (n : ℕ) (p : Pass) → RulesAs rules g
        → ItemAt shape rules st x words.old numbers.old g.absorption n p
        → SteppedAs shape g.absorption 1 (st.out + 1) st result words.new numbers.new
        (stream_item shape.l g rules.merge p (item_said x))) }
{
    // The tag is asked here, since its other values are the operations.
    if x.tag == 0 {
        return rotation(words, numbers, shape, rules, st, x.axis as usize, x.angle);
    }
    let s = absorb_all(words, numbers, shape, rules, st)?;
    put_barrier(words, numbers, shape, s, x)
}

// Whether item x is the barrier that the rules name.
fn is_named(rules: StreamRules, x: Tagged) -> bool
    ensures { result ≡ named_item rules.lazy (item_said x) }
{
    match rules.lazy {
        Lazy::Off | Lazy::On => false,
        Lazy::From(place) => x.tag != 0 && (x.tag - 1) as usize == place,
    }
}

// Whether even rotations begin to wait behind item x.
fn begins(rules: StreamRules, x: Tagged) -> bool
    ensures { result ≡ begins_at rules x }
{
    rules.is_at_once() && is_named(rules, x)
}

// All of the items, one after the other, and then all that still wait.
pub fn stream_items(
    words: &mut [u64],
    numbers: &mut [u32],
    shape: Shape,
    rules: StreamRules,
    first: State,
    items: usize,
) -> Result<State, ExpansionLimit>
    requires { SomeStream (λ g p. StreamAt shape rules first items words.old numbers.old g p) }
    ensures { LeftS shape words.old numbers.old words.new numbers.new
        × ((g : Rules) (p : Pass) → StreamAt shape rules first items words.old numbers.old g p
        → StreamedAs shape result words.new numbers.new
        (stream shape.l g rules.merge p (items_in numbers.old shape.u items_row 0 items))) }
{
    let mut st = first;
    let mut present = rules;
    for i in 0..items {
        let x = items::item_at(&numbers[..], shape.u, ITEMS, i);
        st = stream_item(words, numbers, shape, present, st, x)?;
        // Where even rotations begin to wait, none is named yet.
        if begins(present, x) {
            st.waiting = 0;
            present.absorption = Absorption::Lazy;
        }
    }
    absorb_all(words, numbers, shape, present, st)
}
