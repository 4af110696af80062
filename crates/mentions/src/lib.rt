// Which nodes mention a qubit that an operation's nodes mention: what makes a frame row a root.
#![tactic(auto)]

ghost use Rattle.std.specs.Prelude.{◌≡◌, ◌*◌, ◌<◌, ◌≤◌, length};
ghost use Rattle.store.specs.Row.{row};
ghost use Rattle.mentions.specs.Marks.{is_set};
ghost use Rattle.mentions.specs.Nodes.{NodesPre, NodePre};
ghost use Rattle.mentions.specs.Operations.{OperationsPre, MarkedOperations};
ghost use Rattle.mentions.specs.Down.{MarkedFrom, MarkedDown};
ghost use Rattle.mentions.specs.Relevant.{relevant_here, RelevantNodes};
ghost use Rattle.mentions.specs.Relevance.{RelevancePre, Relevance};

use layout::{ACTED, MARK, RELEVANT, Shape};
use records::{NodeRecord, Records};

// Row RELEVANT says of each node whether it mentions a qubit that an operation's nodes mention.
pub fn relevance(records: Records, numbers: &mut [u32], shape: Shape)
    requires { RelevancePre shape records.nodes.now records.operations.now numbers.old }
    ensures { Relevance shape records.entry.nodes.now records.entry.operations.now numbers.old numbers.new }
{
    store::clear_row(numbers, shape.u, MARK, shape.nodes);
    store::clear_row(numbers, shape.u, ACTED, shape.qubits);
    mark_operations(records.operations, numbers, shape.u, shape.operations);
    mark_down(records.nodes, numbers, shape.u, shape.nodes);
    relevant_nodes(records.nodes, numbers, shape.u, shape.nodes);
}

// Each operation's node is marked.
fn mark_operations(operations: &[u32], numbers: &mut [u32], u: usize, count: usize)
    requires { OperationsPre operations.now u count numbers.old }
    ensures { MarkedOperations operations.now u count numbers.old numbers.new }
{
    for i in 0..count {
        let node = records::operation(operations, i).node as usize;
        store::write(numbers, u, MARK, node, 1);
    }
}

// The qubits that marked nodes mention. Children stand before their products, so one falling loop reaches them all.
fn mark_down(nodes: &[u32], numbers: &mut [u32], u: usize, count: usize)
    requires { NodesPre nodes.now u count numbers.old }
    ensures { MarkedDown nodes.now u count numbers.old numbers.new }
{
    for n in (0..count).rev() {
        mark_from(nodes, numbers, u, n);
    }
}

// A marked letter sets its qubit, a marked product marks its children.
fn mark_from(nodes: &[u32], numbers: &mut [u32], u: usize, n: usize)
    requires { NodePre nodes.now u n numbers.old }
    ensures { MarkedFrom nodes.now u n numbers.old numbers.new }
{
    if store::read(&numbers[..], u, MARK, n) == 0 {
        return;
    }
    match records::node(nodes, n) {
        NodeRecord::Identity => {}
        NodeRecord::Letter { qubit, .. } => store::write(numbers, u, ACTED, qubit, 1),
        NodeRecord::Product { left, right } => {
            store::write(numbers, u, MARK, left.node, 1);
            store::write(numbers, u, MARK, right.node, 1);
        }
    }
}

// Which nodes mention an acted qubit.
fn relevant_nodes(nodes: &[u32], numbers: &mut [u32], u: usize, count: usize)
    requires { NodesPre nodes.now u count numbers.old }
    ensures { RelevantNodes nodes.now u count count numbers.old numbers.new }
{
    for n in 0..count {
        let r = relevant(nodes, &numbers[..], u, n);
        store::write(numbers, u, RELEVANT, n, r as u32);
    }
}

// Whether an entry of a row is not 0.
fn is_set(numbers: &[u32], u: usize, flags: usize, i: usize) -> bool
    requires { (24 * u ≤ length numbers.now) × (flags < 24) × (i < u) }
    ensures { result ≡ is_set (row numbers.now u flags) i }
{
    store::read(numbers, u, flags, i) != 0
}

// Whether node n mentions an acted qubit, when row RELEVANT says so of its children.
fn relevant(nodes: &[u32], numbers: &[u32], u: usize, n: usize) -> bool
    requires { NodePre nodes.now u n numbers.now }
    ensures { result ≡ relevant_here nodes.now u n numbers.now }
{
    match records::node(nodes, n) {
        NodeRecord::Identity => false,
        NodeRecord::Letter { qubit, .. } => is_set(numbers, u, ACTED, qubit),
        NodeRecord::Product { left, right } => {
            is_set(numbers, u, RELEVANT, left.node) || is_set(numbers, u, RELEVANT, right.node)
        }
    }
}
