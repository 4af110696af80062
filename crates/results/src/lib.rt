// The results of an accepted run, and zeros behind them.
#![tactic(auto)]

ghost use Rattle.std.specs.Prelude.{◌≡◌, false, ◌+◌, ◌*◌, ◌≤◌, ◌<◌, length};
ghost use Rattle.store.specs.Part.{put};
ghost use Rattle.model.specs.Program.{is_rotate};
ghost use Rattle.model.specs.Results.{sign_field, barrier_record};
ghost use Rattle.model.specs.Rewriting.{then_zeros, zeros};
ghost use Rattle.layout.specs.Rows.{items_row};
ghost use Rattle.records.specs.Kinds.{kind_said};
ghost use Rattle.records.specs.Records.{operation_said};
ghost use Rattle.items.specs.View.{tagged_at};
ghost use Rattle.work.specs.Rows.{root_said};
ghost use Rattle.results.specs.Finish.{FinishPre, Finished};
ghost use Rattle.results.specs.Zeros.{zeroed_from};
ghost use Rattle.results.specs.Record.{operation_fields, RecordPre, RecordMade};
ghost use Rattle.results.specs.Rows.{row_fields, row_here, row_in, RowPre, RowsPre, RowsLaid, rows_to};
ghost use Rattle.results.specs.Operations.{OperationPre, OperationLaid, WritePre, OperationsLaid, ResultsWritten};

use items::Tagged;
use layout::{ITEMS, NO_AXIS, Shape};
use records::{OperationKind, OperationRecord};
use work::Root;

// 01's "-1 there is 65,535 for an outcome or target".
const NO_OUTCOME: u32 = 65535;

// 01's "else 4,294,967,295".
const MINUS_ONE: u32 = 4294967295;

// An operation that comes out: axis by id, sign 1 or -1.
#[derive(Clone, Copy)]
pub struct OperationResult {
    pub kind: OperationKind,
    pub axis: u32,
    pub sign: u32,
    pub angle: u32,
    pub outcome: u32,
    pub target: u32,
}

impl OperationResult {
    // As they stand in memory.
    fn fields(self) -> [u32; 6]
        ensures { result ≡ operation_fields self }
    {
        [
            self.kind.into(),
            self.axis,
            self.sign,
            self.angle,
            self.outcome,
            self.target,
        ]
    }
}

// A frame row that comes out: qubit, 0 x or 1 z, axis by id, sign; kept is -1, 0; nothing tests the half, so it stays a number.
#[derive(Clone, Copy)]
pub struct RowResult {
    pub qubit: u32,
    pub half: u32,
    pub axis: u32,
    pub sign: u32,
}

impl RowResult {
    // As they stand in memory.
    fn fields(self) -> [u32; 4]
        ensures { result ≡ row_fields self }
    {
        [self.qubit, self.half, self.axis, self.sign]
    }
}

// 1 or -1, for 0 or 2 quarter turns.
fn sign_field(s: u32) -> u32
    ensures { result ≡ sign_field s }
{
    if s == 0 {
        return 1;
    }
    MINUS_ONE
}

// A barrier's record, from its operation's.
fn barrier_record(o: OperationRecord, x: Tagged) -> OperationResult
    requires { (is_rotate (kind_said o.kind) ≡ false) × (o.angle ≤ 7) }
    ensures { operation_fields result ≡ barrier_record (operation_said o) (kind_said o.kind) x.axis x.angle }
{
    if o.kind == OperationKind::Measure {
        return OperationResult {
            kind: OperationKind::Measure,
            axis: x.axis,
            sign: sign_field(x.angle),
            angle: 0,
            outcome: o.outcome,
            target: o.target,
        };
    }
    OperationResult {
        kind: OperationKind::Conditional,
        axis: x.axis,
        sign: 1,
        angle: items::with_sign(x.angle, o.angle),
        outcome: o.outcome,
        target: NO_OUTCOME,
    }
}

// An item's record.
pub fn record_of(operations: &[u32], x: Tagged) -> OperationResult
    requires { RecordPre operations.now x }
    ensures { RecordMade operations.now x result }
{
    if x.is_rotation() {
        return OperationResult {
            kind: OperationKind::Rotate,
            axis: x.axis,
            sign: 1,
            angle: x.angle,
            outcome: NO_OUTCOME,
            target: NO_OUTCOME,
        };
    }
    let o = records::operation(operations, x.tag as usize - 1);
    barrier_record(o, x)
}

// A record's fields, from a place on.
fn put_fields(to: &mut [u32], at: usize, fields: &[u32])
    requires { at + length fields.now ≤ length to.old }
    ensures { to.new ≡ put to.old at fields.now }
{
    to[at..at + fields.len()].copy_from_slice(fields);
}

// Item i as record i.
fn write_operation(operations: &[u32], numbers: &[u32], u: usize, i: usize, to: &mut [u32])
    requires { OperationPre operations.now numbers.now u i to.old }
    ensures { OperationLaid operations.now (tagged_at numbers.now u items_row i) (6 * i) to.old
        to.new }
{
    let x = items::item_at(numbers, u, ITEMS, i);
    let r = record_of(operations, x);
    put_fields(to, 6 * i, &r.fields());
}

// The k items as records.
fn write_operations(operations: &[u32], numbers: &[u32], u: usize, k: usize, to: &mut [u32])
    requires { WritePre operations.now numbers.now u k to.old }
    ensures { OperationsLaid operations.now numbers.now u k to.old to.new }
{
    for i in 0..k {
        write_operation(operations, numbers, u, i, to);
    }
}

// The operations that come out, then zeros.
fn operation_results(operations: &[u32], numbers: &[u32], u: usize, k: usize, to: &mut [u32])
    requires { WritePre operations.now numbers.now u k to.old }
    ensures { ResultsWritten operations.now numbers.now u k to.old to.new }
{
    write_operations(operations, numbers, u, k, to);
    to[6 * k..].fill(0);
}

// Row i, whose axis and sign are these: kept where it has none or nothing changed.
fn row_record(changed: bool, f: Root, i: usize) -> RowResult
    requires { i < 8192 }
    ensures { row_fields result ≡ row_here changed (root_said f) i }
{
    let qubit = (i / 2) as u32;
    let half = (i % 2) as u32;
    // Lent memory has a number for none, in the rows and in the results.
    if changed && f.axis != NO_AXIS {
        return RowResult {
            qubit,
            half,
            axis: f.axis,
            sign: sign_field(f.sign),
        };
    }
    RowResult {
        qubit,
        half,
        axis: NO_AXIS,
        sign: 0,
    }
}

// Frame row i as row i.
fn write_row(numbers: &[u32], shape: Shape, changed: bool, i: usize, to: &mut [u32])
    requires { RowPre shape numbers.now i to.old }
    ensures { to.new ≡ put to.old (4 * i) (row_in changed shape numbers.now i) }
{
    let f = work::root_at(numbers, shape.u, shape.operations + i);
    let r = row_record(changed, f, i);
    put_fields(to, 4 * i, &r.fields());
}

// All frame rows.
fn write_rows(numbers: &[u32], shape: Shape, changed: bool, to: &mut [u32])
    requires { RowsPre shape numbers.now to.old }
    ensures { RowsLaid changed shape numbers.now (2 * shape.qubits) to.old to.new }
{
    for i in 0..2 * shape.qubits {
        write_row(numbers, shape, changed, i, to);
    }
}

// The frame rows that come out, then zeros.
fn row_results(numbers: &[u32], shape: Shape, changed: bool, to: &mut [u32])
    requires { RowsPre shape numbers.now to.old }
    ensures { to.new ≡ then_zeros to.old (rows_to changed shape numbers.now (2 * shape.qubits)) }
{
    write_rows(numbers, shape, changed, to);
    to[8 * shape.qubits..].fill(0);
}

// Zeros in the words from a place on, and in all numbers.
pub fn clean(words: &mut [u64], numbers: &mut [u32], from: usize)
    requires { from ≤ length words.old }
    ensures { (words.new ≡ zeroed_from words.old from) × (numbers.new ≡ zeros numbers.old) }
{
    words[from..].fill(0);
    numbers.fill(0);
}

// The last step of an accepted run with k items and n axes: results, then zeros; axis words, then zeros; the numbers zero.
pub fn finish(
    operations: &[u32],
    words: &mut [u64],
    numbers: &mut [u32],
    done: &mut [u32],
    moved: &mut [u32],
    shape: Shape,
    k: usize,
    n: usize,
    changed: bool,
)
    requires { FinishPre shape operations.now k n words.old numbers.old done.old moved.old }
    ensures { Finished shape operations.now k n changed
        words.old numbers.old done.old moved.old
        words.new numbers.new done.new moved.new }
{
    operation_results(operations, &numbers[..], shape.u, k, done);
    row_results(&numbers[..], shape, changed, moved);
    clean(words, numbers, layout::axis_at(shape.l, n));
}
