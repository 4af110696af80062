// A program's records, read by number.
#![tactic(auto)]

ghost use Rattle.std.specs.Prelude.{◌≡◌, ◌+◌, ◌*◌, ◌≤◌, length};
ghost use Rattle.records.specs.Kinds.{kind_record, kind_number};
ghost use Rattle.records.specs.Records.{node_record, operation_record, row_record};
ghost use Rattle.records.specs.Numbers.{node_numbers, node_numbered, operation_numbers, operation_numbered};

// A node's numbers as they stand, whatever its kind: a letter's qubit and letter are in the left factor's two fields.
#[derive(Clone, Copy)]
pub struct NodeNumbers {
    pub kind: u32,
    pub left: u32,
    pub left_phase: u32,
    pub right: u32,
    pub right_phase: u32,
}

// What a product multiplies: a node, with a phase.
#[derive(Clone, Copy)]
pub struct Factor {
    pub node: usize,
    pub phase: u32,
}

// A node: kind 0 the identity, 1 a letter on a qubit, 2 a product of two nodes before it.
#[derive(Clone, Copy)]
pub enum NodeRecord {
    Identity,
    // The letter is a number still: a record says the model's node before Checking has tested that it is at most 3.
    Letter { qubit: usize, letter: u32 },
    Product { left: Factor, right: Factor },
}

impl From<NodeNumbers> for NodeRecord {
    ghost from_gives = { λ r n. n ≡ node_numbered r };

    fn from(r: NodeNumbers) -> NodeRecord {
        let left = Factor {
            node: r.left as usize,
            phase: r.left_phase,
        };
        match r.kind {
            0 => NodeRecord::Identity,
            1 => NodeRecord::Letter {
                qubit: left.node,
                letter: left.phase,
            },
            _ => NodeRecord::Product {
                left,
                right: Factor {
                    node: r.right as usize,
                    phase: r.right_phase,
                },
            },
        }
    }
}

// What an operation does, as document 01 numbers it.
#[derive(Clone, Copy, PartialEq, Eq)]
pub enum OperationKind {
    Rotate = 1,
    Measure = 2,
    Conditional = 3,
}

impl From<u32> for OperationKind {
    ghost from_gives = { λ n k. k ≡ kind_record n };

    fn from(number: u32) -> OperationKind {
        match number {
            0 | 1 => OperationKind::Rotate,
            2 => OperationKind::Measure,
            _ => OperationKind::Conditional,
        }
    }
}

impl From<OperationKind> for u32 {
    ghost from_gives = { λ k n. n ≡ kind_number k };

    fn from(kind: OperationKind) -> u32 {
        kind as u32
    }
}

// An operation's numbers as they stand, its kind's too.
#[derive(Clone, Copy)]
pub struct OperationNumbers {
    pub kind: u32,
    pub node: u32,
    pub phase: u32,
    pub angle: u32,
    pub outcome: u32,
    pub target: u32,
}

// An operation.
#[derive(Clone, Copy)]
pub struct OperationRecord {
    pub kind: OperationKind,
    pub node: u32,
    pub phase: u32,
    pub angle: u32,
    pub outcome: u32,
    pub target: u32,
}

impl From<OperationNumbers> for OperationRecord {
    ghost from_gives = { λ r o. o ≡ operation_numbered r };

    fn from(r: OperationNumbers) -> OperationRecord {
        OperationRecord {
            kind: r.kind.into(),
            node: r.node,
            phase: r.phase,
            angle: r.angle,
            outcome: r.outcome,
            target: r.target,
        }
    }
}

// A frame row: qubit, 0 x or 1 z, and the node and phase that it refers to; nothing tests the half, so it stays a number.
#[derive(Clone, Copy)]
pub struct RowRecord {
    pub qubit: u32,
    pub half: u32,
    pub node: u32,
    pub phase: u32,
}

// The numbers of node n.
pub fn node_at(nodes: &[u32], n: usize) -> NodeNumbers
    requires { n * 5 + 5 ≤ length nodes.now }
    ensures { result ≡ node_numbers nodes.now n }
{
    let at = n * 5;
    NodeNumbers {
        kind: nodes[at],
        left: nodes[at + 1],
        left_phase: nodes[at + 2],
        right: nodes[at + 3],
        right_phase: nodes[at + 4],
    }
}

// Node n.
pub fn node(nodes: &[u32], n: usize) -> NodeRecord
    requires { n * 5 + 5 ≤ length nodes.now }
    ensures { result ≡ node_record nodes.now n }
{
    node_at(nodes, n).into()
}

// The numbers of operation i.
pub fn operation_at(operations: &[u32], i: usize) -> OperationNumbers
    requires { i * 6 + 6 ≤ length operations.now }
    ensures { result ≡ operation_numbers operations.now i }
{
    let at = i * 6;
    OperationNumbers {
        kind: operations[at],
        node: operations[at + 1],
        phase: operations[at + 2],
        angle: operations[at + 3],
        outcome: operations[at + 4],
        target: operations[at + 5],
    }
}

// Operation i.
pub fn operation(operations: &[u32], i: usize) -> OperationRecord
    requires { i * 6 + 6 ≤ length operations.now }
    ensures { result ≡ operation_record operations.now i }
{
    operation_at(operations, i).into()
}

pub fn row_at(rows: &[u32], i: usize) -> RowRecord
    requires { i * 4 + 4 ≤ length rows.now }
    ensures { result ≡ row_record rows.now i }
{
    let at = i * 4;
    RowRecord {
        qubit: rows[at],
        half: rows[at + 1],
        node: rows[at + 2],
        phase: rows[at + 3],
    }
}

// A program's records, as they were handed in.
#[derive(Clone, Copy)]
pub struct Records<'a> {
    pub nodes: &'a [u32],
    pub operations: &'a [u32],
    pub rows: &'a [u32],
}

impl<'a> Records<'a> {
    // Node n.
    pub fn node(self, n: usize) -> NodeRecord
        requires { n * 5 + 5 ≤ length self.nodes.now }
        ensures { result ≡ node_record self.entry.nodes.now n }
    {
        node(self.nodes, n)
    }

    // Operation i.
    pub fn operation(self, i: usize) -> OperationRecord
        requires { i * 6 + 6 ≤ length self.operations.now }
        ensures { result ≡ operation_record self.entry.operations.now i }
    {
        operation(self.operations, i)
    }

    // Frame row i.
    pub fn row(self, i: usize) -> RowRecord
        requires { i * 4 + 4 ≤ length self.rows.now }
        ensures { result ≡ row_record self.entry.rows.now i }
    {
        row_at(self.rows, i)
    }
}
