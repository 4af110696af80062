// Packing: used nodes by rising index, each value in a slot, each root stored at its node's turn.
#![tactic(auto)]

ghost use Rattle.std.specs.Prelude.{◌≡◌, suc, ◌*◌, ◌<◌, ◌≤◌, length, get_or};
ghost use Rattle.store.specs.Row.{row};
ghost use Rattle.model.specs.Program.{Program};
ghost use Rattle.packing_states.specs.References.{total};
ghost use Rattle.packing_states.specs.States.{before, slotted, within};
ghost use Rattle.packing_states.specs.SomeProgram.{SomeProgram};
ghost use Rattle.packing.specs.Holding.{PlaceAt, RootAt, RootsAt, NodeAt, Turned};
ghost use Rattle.packing.specs.RestKept.{RestKept};
ghost use Rattle.packing.specs.Phases.{PhasePre, phase_in};
ghost use Rattle.packing.specs.Packed.{PackPre, PackedAs};
ghost use Rattle.records.specs.Given.{program_in};
ghost use Rattle.axes.specs.Held.{NoChains};
ghost use Rattle.interning.specs.Find.{entry_of};

mod values;

use layout::{FIRST_ROOT, NEXT_ROOT, ROOT_AXIS, ROOT_SIGN, Shape, USES};
use packing_answer::{PackedAxes, PackingRefusal};
use records::{NodeRecord, Records};

// Axes stored, the largest word sum that was tested, slots allocated, slots on the free stack, and the slot taken last.
#[derive(Clone, Copy, Default)]
struct Slots {
    axes: usize,
    peak: usize,
    slots: usize,
    free: usize,
    taken: usize,
}

// Where a node's word is, and its phase.
#[derive(Clone, Copy)]
struct ValueHeld {
    at: usize,
    phase: u32,
}

// Works node n out, gives up its children's uses, and keeps its value in a slot.
fn place_node(
    words: &mut [u64],
    numbers: &mut [u32],
    shape: Shape,
    st: Slots,
    n: usize,
    x: NodeRecord,
) -> Result<Slots, PackingRefusal>
    requires { SomeProgram (λ (p : Program). PlaceAt p shape st n x words.old numbers.old) }
    ensures { RestKept shape words.old numbers.old words.new numbers.new
        × ((p : Program) → PlaceAt p shape st n x words.old numbers.old
        → Turned p shape (suc n) n 0 (slotted p n) result words.new numbers.new) }
{
    let phase = values::evaluate(words, &numbers[..], shape, x);
    let free = values::release_children(numbers, shape.u, st.free, x);
    let after = values::take_slot(&numbers[..], shape, Slots { free, ..st })?;
    values::keep(words, numbers, shape, n, after.taken, phase);
    Ok(after)
}

// The phase of a reference: operations first, then frame rows.
fn reference_phase(records: Records, count: usize, root: usize) -> u32
    requires { PhasePre count records.operations.now records.rows.now root }
    ensures { result ≡ phase_in count records.entry.operations.now records.entry.rows.now root }
{
    if root < count {
        return records.operation(root).phase;
    }
    records.row(root - count).phase
}

// Stores a root of node n, whose reference has the phase, or refuses it.
fn pack_root(
    words: &mut [u64],
    numbers: &mut [u32],
    shape: Shape,
    st: Slots,
    n: usize,
    root: usize,
    phase: u32,
) -> Result<Slots, PackingRefusal>
    requires { SomeProgram (λ (p : Program). RootAt p shape st n root phase words.old numbers.old) }
    ensures { RestKept shape words.old numbers.old words.new numbers.new
        × ((p : Program) → RootAt p shape st n root phase words.old numbers.old
        → Turned p shape (suc n) n (suc root) (within p n (suc root)) result words.new numbers.new) }
{
    let v = values::held(&numbers[..], shape, n);
    let total = (v.phase + phase % 4) % 4;
    if total % 2 == 1 {
        return Err(PackingRefusal::NonHermitianAxis);
    }
    let counted = st.slots * (2 * shape.l);
    let sizes = axes::sizes_of(shape, st.axes);
    let a = interning::intern(words, numbers, sizes, counted, st.peak, v.at)?;
    store::write(numbers, shape.u, ROOT_AXIS, root, a.id as u32);
    store::write(numbers, shape.u, ROOT_SIGN, root, total);
    let free = values::release(numbers, shape.u, st.free, n);
    Ok(Slots {
        axes: a.axes,
        peak: a.peak,
        free,
        ..st
    })
}

// The root that an entry in a row of links names: the entry is 0, or a root's number and 1.
// Not one function with the index's `named_at`: that reads by place, this by row.
fn linked_at(numbers: &[u32], u: usize, links: usize, i: usize) -> Option<usize>
    requires { (24 * u ≤ length numbers.now) × (links < 24) × (i < u) }
    ensures { entry_of result ≡ get_or (row numbers.now u links) i 0 }
{
    (store::read(numbers, u, links, i) as usize).checked_sub(1)
}

// Stores the roots of node n, in root order.
fn pack_roots(
    records: Records,
    words: &mut [u64],
    numbers: &mut [u32],
    shape: Shape,
    placed: Slots,
    n: usize,
) -> Result<Slots, PackingRefusal>
    requires { SomeProgram (λ (p : Program). RootsAt p shape placed n records.operations.now records.rows.now
        words.old numbers.old) }
    ensures { RestKept shape words.old numbers.old words.new numbers.new
        × ((p : Program)
        → RootsAt p shape placed n records.entry.operations.now records.entry.rows.now words.old numbers.old
        → Turned p shape (suc n) n (total p) (within p n (total p)) result words.new numbers.new) }
{
    let mut st = placed;
    let mut next = linked_at(&numbers[..], shape.u, FIRST_ROOT, n);
    while let Some(root) = next {
        let phase = reference_phase(records, shape.operations, root);
        st = pack_root(words, numbers, shape, st, n, root, phase)?;
        next = linked_at(&numbers[..], shape.u, NEXT_ROOT, root);
    }
    Ok(st)
}

// Node n's turn.
fn pack_node(
    records: Records,
    words: &mut [u64],
    numbers: &mut [u32],
    shape: Shape,
    st: Slots,
    n: usize,
) -> Result<Slots, PackingRefusal>
    requires { NodeAt shape st n records.nodes.now records.operations.now records.rows.now words.old numbers.old }
    ensures { RestKept shape words.old numbers.old words.new numbers.new
        × Turned (program_in shape records.entry.nodes.now records.entry.operations.now records.entry.rows.now)
        shape (suc n) (suc n) 0
        (before (program_in shape records.entry.nodes.now records.entry.operations.now records.entry.rows.now) (suc n))
        result words.new numbers.new }
{
    if store::read(&numbers[..], shape.u, USES, n) == 0 {
        return Ok(st);
    }
    let x = records.node(n);
    let placed = place_node(words, numbers, shape, st, n, x)?;
    pack_roots(records, words, numbers, shape, placed, n)
}

// Packs the program node by node, where every chain of the index is still empty.
fn pack_nodes(
    records: Records,
    words: &mut [u64],
    numbers: &mut [u32],
    shape: Shape,
) -> Result<PackedAxes, PackingRefusal>
    requires { PackPre shape records.nodes.now records.operations.now records.rows.now words.old numbers.old
        × NoChains shape.u numbers.old }
    ensures { PackedAs shape
        (program_in shape records.entry.nodes.now records.entry.operations.now records.entry.rows.now)
        result words.old numbers.old words.new numbers.new }
{
    mentions::relevance(records, numbers, shape);
    roots::prepare(records, numbers, shape);
    let mut st = Slots::default();
    for n in 0..shape.nodes {
        st = pack_node(records, words, numbers, shape, st, n)?;
    }
    Ok(PackedAxes {
        count: st.axes,
        peak: st.peak,
    })
}

// Packs the program: every root's axis and sign, and the axes' words, or a refusal by 9 or 10. Whatever the lent memory held, the chains
// of the index are cleared first.
pub fn pack(
    records: Records,
    words: &mut [u64],
    numbers: &mut [u32],
    shape: Shape,
) -> Result<PackedAxes, PackingRefusal>
    requires { PackPre shape records.nodes.now records.operations.now records.rows.now words.old numbers.old }
    ensures { PackedAs shape
        (program_in shape records.entry.nodes.now records.entry.operations.now records.entry.rows.now)
        result words.old numbers.old words.new numbers.new }
{
    interning::clear_chains(numbers, shape.u);
    pack_nodes(records, words, numbers, shape)
}
