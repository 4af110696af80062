// Each node's roots, linked in root order, and how often each node is used.
#![tactic(auto)]

ghost use Rattle.std.specs.Prelude.{◌*◌, ◌<◌, ◌≤◌, length};
ghost use Rattle.model.specs.Program.{Program};
ghost use Rattle.layout.specs.Rows.{row_count};
ghost use Rattle.records.specs.Records.{operation_record, row_record};
ghost use Rattle.packing_states.specs.SomeProgram.{SomeProgram};
ghost use Rattle.roots.specs.Links.{FrontPre, InFront, NoRoot, OperationPre, RowPre, RowLinked};
ghost use Rattle.roots.specs.Links.{RowsPre, RowsLinked, OperationsPre, OperationsLinked, LinkPre, RootsLinked};
ghost use Rattle.roots.specs.Prepared.{PreparePre, Prepared};
ghost use Rattle.roots.specs.UseCounts.{AddPre, Added, UsePre, ChildrenUsed, CountPre, UsesCounted};

use layout::{FIRST_ROOT, NEXT_ROOT, NO_AXIS, RELEVANT, ROOT_AXIS, ROOT_SIGN, Shape, USES};
use records::{NodeRecord, Records};

// One use more of a node.
fn add_use(numbers: &mut [u32], u: usize, node: usize)
    requires { AddPre numbers.old u node }
    ensures { Added numbers.old u node numbers.new }
{
    let uses = store::read(&numbers[..], u, USES, node);
    store::write(numbers, u, USES, node, uses + 1);
}

// Puts a root in front of its node's list.
fn link(numbers: &mut [u32], u: usize, root: usize, node: usize)
    requires { FrontPre numbers.old u root node }
    ensures { InFront numbers.old u root node numbers.new }
{
    let next = store::read(&numbers[..], u, FIRST_ROOT, node);
    store::write(numbers, u, NEXT_ROOT, root, next);
    store::write(numbers, u, FIRST_ROOT, node, (root + 1) as u32);
    add_use(numbers, u, node);
}

// A frame row that is no root has no axis: NO_AXIS, since an entry of lent memory is a number.
fn no_root(numbers: &mut [u32], u: usize, reference: usize)
    requires { (row_count * u ≤ length numbers.old) × (reference < u) }
    ensures { NoRoot numbers.old u reference numbers.new }
{
    store::write(numbers, u, ROOT_AXIS, reference, NO_AXIS);
    store::write(numbers, u, ROOT_SIGN, reference, 0);
}

// Links operation i.
fn link_operation(operations: &[u32], numbers: &mut [u32], u: usize, i: usize)
    requires { OperationPre operations.now numbers.old u i }
    ensures { InFront numbers.old u i (operation_record operations.now i).node numbers.new }
{
    let node = records::operation(operations, i).node as usize;
    link(numbers, u, i, node);
}

// Links frame row r, which is this reference, if its node is relevant.
fn link_row(rows: &[u32], numbers: &mut [u32], u: usize, reference: usize, r: usize)
    requires { RowPre rows.now numbers.old u reference r }
    ensures { RowLinked numbers.old u reference (row_record rows.now r).node numbers.new }
{
    let node = records::row_at(rows, r).node as usize;
    if store::read(&numbers[..], u, RELEVANT, node) == 0 {
        no_root(numbers, u, reference);
        return;
    }
    link(numbers, u, reference, node);
}

// Links the operations, the last one first, so that each node's list rises.
fn link_operations(operations: &[u32], numbers: &mut [u32], shape: Shape)
    requires { SomeProgram (λ (p : Program). OperationsPre p shape operations.now numbers.old) }
    ensures { OperationsLinked shape operations.now numbers.old numbers.new }
{
    for i in (0..shape.operations).rev() {
        link_operation(operations, numbers, shape.u, i);
    }
}

// Links the frame rows that are roots, the last one first.
fn link_rows(rows: &[u32], numbers: &mut [u32], shape: Shape)
    requires { SomeProgram (λ (p : Program). RowsPre p shape rows.now numbers.old) }
    ensures { RowsLinked shape rows.now numbers.old numbers.new }
{
    for r in (0..2 * shape.qubits).rev() {
        link_row(rows, numbers, shape.u, shape.operations + r, r);
    }
}

// Each node's roots in root order; one use of its node for each root.
fn link_roots(records: Records, numbers: &mut [u32], shape: Shape)
    requires { SomeProgram (λ (p : Program). LinkPre p shape records.operations.now records.rows.now numbers.old) }
    ensures { RootsLinked shape records.entry.operations.now records.entry.rows.now numbers.old numbers.new }
{
    store::clear_row(numbers, shape.u, FIRST_ROOT, shape.nodes);
    store::clear_row(numbers, shape.u, USES, shape.nodes);
    link_rows(records.rows, numbers, shape);
    link_operations(records.operations, numbers, shape);
}

// One use of each child of node n, if it is a used product.
fn use_children(nodes: &[u32], numbers: &mut [u32], u: usize, n: usize)
    requires { UsePre nodes.now numbers.old u n }
    ensures { ChildrenUsed nodes.now numbers.old u n numbers.new }
{
    let NodeRecord::Product { left, right } = records::node(nodes, n) else {
        return;
    };
    if store::read(&numbers[..], u, USES, n) == 0 {
        return;
    }
    add_use(numbers, u, left.node);
    add_use(numbers, u, right.node);
}

// One use for each edge out of a used product; users stand after what they use.
fn count_uses(nodes: &[u32], numbers: &mut [u32], u: usize, count: usize)
    requires { CountPre nodes.now numbers.old u count }
    ensures { UsesCounted nodes.now numbers.old u count numbers.new }
{
    for n in (0..count).rev() {
        use_children(nodes, numbers, u, n);
    }
}

// What packing needs before its first node, once row RELEVANT tells the relevant nodes.
pub fn prepare(records: Records, numbers: &mut [u32], shape: Shape)
    requires { PreparePre shape records.nodes.now records.operations.now records.rows.now numbers.old }
    ensures { Prepared shape records.entry.nodes.now records.entry.operations.now records.entry.rows.now
        numbers.old numbers.new }
{
    link_roots(records, numbers, shape);
    count_uses(records.nodes, numbers, shape.u, shape.nodes);
}
