// Slots: where nodes' values are while they are still to be used. Freed after the last use; the one freed last is reused first.
ghost use Rattle.std.specs.Prelude.{◌≡◌};
ghost use Rattle.records.specs.declared.NodeRecord.TheVariants.{Product};
ghost use Rattle.packing.specs.Values.{HeldPre, held_at, EvaluatePre, Evaluated, ReleasePre, Released, ChildrenPre, ChildrenReleased};
ghost use Rattle.packing.specs.Values.{TakePre, taken, KeepPre, Kept};

use super::{Slots, ValueHeld};
use angle::Phase;
use layout::{FREE, NODE_PHASE, NODE_SLOT, Shape, USES};
use model::ExpansionLimit;
use records::{Factor, NodeRecord};

// What is held of node n.
pub fn held(numbers: &[u32], shape: Shape, n: usize) -> ValueHeld
    requires { HeldPre shape numbers.now n }
    ensures { result ≡ held_at shape numbers.now n }
{
    let s = store::read(numbers, shape.u, NODE_SLOT, n) as usize;
    ValueHeld {
        at: layout::slot_at(shape.limit, shape.l, s),
        phase: store::read(numbers, shape.u, NODE_PHASE, n),
    }
}

// The product of two nodes' values, each with its phase: its word, as the scratch word, and its phase.
fn evaluate_product(
    words: &mut [u64],
    numbers: &[u32],
    shape: Shape,
    left: Factor,
    right: Factor,
) -> Phase
    requires { EvaluatePre shape (Product left right) words.old numbers.now }
    ensures { Evaluated shape (Product left right) words.old numbers.now words.new result.0 }
{
    let a = held(numbers, shape, left.node);
    let b = held(numbers, shape, right.node);
    let at = layout::scratch_at(shape.limit);
    let e = product::product_in(words, a.at, b.at, at, shape.l);
    Phase(((e.0 as u32 + a.phase + left.phase % 4 + b.phase + right.phase % 4) % 4) as u8)
}

// A node's word, as the scratch word, and its phase.
pub fn evaluate(words: &mut [u64], numbers: &[u32], shape: Shape, x: NodeRecord) -> Phase
    requires { EvaluatePre shape x words.old numbers.now }
    ensures { Evaluated shape x words.old numbers.now words.new result.0 }
{
    let at = layout::scratch_at(shape.limit);
    match x {
        NodeRecord::Identity => {
            let e = at + 2 * shape.l;
            words[at..e].fill(0);
            Phase(0)
        }
        NodeRecord::Letter { qubit, letter } => {
            letter::put_letter(words, at, shape.l, qubit, letter);
            Phase(0)
        }
        NodeRecord::Product { left, right } => evaluate_product(words, numbers, shape, left, right),
    }
}

// Gives up one use of a node; its slot is free after the last. How many slots are free then.
pub fn release(numbers: &mut [u32], u: usize, free: usize, node: usize) -> usize
    requires { ReleasePre numbers.old u free node }
    ensures { Released numbers.old u free node result numbers.new }
{
    let left = store::read(&numbers[..], u, USES, node) - 1;
    store::write(numbers, u, USES, node, left);
    if left != 0 {
        return free;
    }
    let s = store::read(&numbers[..], u, NODE_SLOT, node);
    store::write(numbers, u, FREE, free, s);
    free + 1
}

// Gives up the two uses that a product makes.
pub fn release_children(numbers: &mut [u32], u: usize, free: usize, x: NodeRecord) -> usize
    requires { ChildrenPre numbers.old u free x }
    ensures { ChildrenReleased numbers.old u free x result numbers.new }
{
    let NodeRecord::Product { left, right } = x else {
        return free;
    };
    let one = release(numbers, u, free, left.node);
    release(numbers, u, one, right.node)
}

// The slot freed last, or a new one within the limit.
pub fn take_slot(numbers: &[u32], shape: Shape, st: Slots) -> Result<Slots, ExpansionLimit>
    requires { TakePre shape numbers.now st }
    ensures { result ≡ taken shape numbers.now st }
{
    if 0 < st.free {
        let free = st.free - 1;
        let taken = store::read(numbers, shape.u, FREE, free) as usize;
        return Ok(Slots { free, taken, ..st });
    }
    let n = 2 * shape.l;
    let sum = st.slots * n + n + st.axes * n;
    if shape.limit < sum {
        return Err(ExpansionLimit);
    }
    Ok(Slots {
        peak: st.peak.max(sum),
        slots: st.slots + 1,
        free: 0,
        taken: st.slots,
        ..st
    })
}

// Copies the scratch word into slot s, which is node n's from now on.
pub fn keep(words: &mut [u64], numbers: &mut [u32], shape: Shape, n: usize, s: usize, phase: Phase)
    requires { KeepPre shape n s words.old numbers.old }
    ensures { Kept shape n s phase.0 words.old numbers.old words.new numbers.new }
{
    let from = layout::scratch_at(shape.limit);
    let at = layout::slot_at(shape.limit, shape.l, s);
    store::copy_within(words, from, at, 2 * shape.l);
    store::write(numbers, shape.u, NODE_SLOT, n, s as u32);
    store::write(numbers, shape.u, NODE_PHASE, n, phase.0 as u32);
}
