// Checking: refusals 1 to 8 and 16. It takes no lent slice by &mut, so it writes no lent memory.
#![tactic(auto)]

ghost use Rattle.std.specs.Prelude.{◌≡◌, false, List, [], ℕ, ◌+◌, ◌*◌, ◌<◌, ◌≤◌, length};
ghost use Rattle.model.specs.Checking.{bad_count, bad_option, program_short, lent_short};
ghost use Rattle.model.specs.Checking.{check_node_of_kind, check_node, check_nodes, bad_reference, check_row, check_rows};
ghost use Rattle.model.specs.Checking.{bad_operation, bad_outcome, measured, check_operations, check_program, check_place, check_records, checking};
ghost use Rattle.model.specs.declared.Lazy.TheVariants.{From};
ghost use Rattle.model.specs.Program.{records};
ghost use Rattle.checking.specs.Call.{job_of, lent_of};
ghost use Rattle.checking.specs.Table.{has_bit, with_bit};
ghost use Rattle.checking.specs.Outcomes.{Entered, Checked};

use model::{Counts, Lazy, Options, Refusal};
use records::Records;

// The most that lookback, window, candidates and word limit may be.
const MOST: usize = 1048576;

const LARGEST_OUTCOME: u32 = 65534;

const NO_OUTCOME: u32 = 65535;

// The numbers of a table that has a bit for each outcome.
const TABLE: usize = 1024;

// Refusal 1.
fn bad_count(c: Counts) -> bool
    ensures { result ≡ bad_count c }
{
    (c.qubits > 4096) | (c.nodes < 1) | (c.nodes > 65535) | (c.operations > 65535)
}

// Refusal 2.
fn bad_option(o: Options) -> bool
    ensures { result ≡ bad_option o }
{
    (o.rounds > 255)
        | (o.lookback > MOST)
        | (o.window > MOST)
        | (o.candidates > MOST)
        | (o.max_packed_words > MOST)
}

// Refusal 3, of the program.
fn program_short(c: Counts, program: Records) -> bool
    requires { bad_count c ≡ false }
    ensures { result ≡ program_short
        (job_of c program.entry.nodes.now program.entry.operations.now program.entry.rows.now) }
{
    (program.nodes.len() < 5 * c.nodes)
        | (program.operations.len() < 6 * c.operations)
        | (program.rows.len() < 8 * c.qubits)
}

// Refusal 3, of the work stores and the results.
fn lent_short(
    c: Counts,
    limit: usize,
    words: &[u64],
    numbers: &[u32],
    operations: &[u32],
    rows: &[u32],
) -> bool
    requires { (bad_count c ≡ false) × (limit ≤ 1048576) }
    ensures { result ≡ lent_short c
        (lent_of words.now numbers.now operations.now rows.now) limit }
{
    let shape = layout::shape_of(c, limit);
    (words.len() < shape.limit + layout::SCRATCH * shape.l)
        | (numbers.len() < layout::ROWS * shape.u + layout::index_length(shape.l, shape.limit))
        | (operations.len() < 6 * c.operations)
        | (rows.len() < 8 * c.qubits)
}

// Refusals 4 and 5 of a letter: as node 1, and as any node but 0.
fn check_letter(r: &[u32], qubits: usize) -> Result<(), Refusal>
    requires { length r.now ≡ 5 }
    ensures { result ≡ check_node_of_kind qubits 1 1 r.now }
{
    if r[2] > 3 {
        return Err(Refusal::BadNode);
    }
    if qubits <= r[1] as usize {
        return Err(Refusal::BadQubit);
    }
    Ok(())
}

// Refusals 4 and 5 of node i. Its kind is a number still: whether it is one of a node is tested here.
fn check_node(r: &[u32], i: usize, qubits: usize) -> Result<(), Refusal>
    requires { length r.now ≡ 5 }
    ensures { result ≡ check_node qubits i r.now }
{
    if r[0] == 0 {
        return Ok(());
    }
    if i == 0 {
        return Err(Refusal::BadNode);
    }
    if r[0] == 1 {
        return check_letter(r, qubits);
    }
    if r[0] > 2 {
        return Err(Refusal::BadNode);
    }
    if (r[2] > 3) | (r[4] > 3) | (i <= r[1] as usize) | (i <= r[3] as usize) {
        return Err(Refusal::BadNode);
    }
    Ok(())
}

// Refusal 6: a node or a phase out of range.
fn bad_reference(nodes: usize, node: u32, phase: u32) -> bool
    ensures { result ≡ bad_reference nodes node phase }
{
    (nodes <= node as usize) | (phase > 3)
}

// Refusal 7. The kind is a number still: whether it is one of an operation is tested here.
fn bad_operation(r: &[u32]) -> bool
    requires { length r.now ≡ 6 }
    ensures { result ≡ bad_operation r.now }
{
    let kind = r[0];
    (kind == 0)
        | (kind > 3)
        | (r[3] > 7)
        | (r[5] > NO_OUTCOME)
        | ((kind != 1) & (r[4] > LARGEST_OUTCOME))
}

// Refusal 6 of frame row i.
fn check_row(r: &[u32], i: usize, nodes: usize) -> Result<(), Refusal>
    requires { length r.now ≡ 4 }
    ensures { result ≡ check_row nodes i r.now }
{
    if (r[0] as usize != i / 2) | (r[1] as usize != i % 2) | bad_reference(nodes, r[2], r[3]) {
        return Err(Refusal::BadReference);
    }
    Ok(())
}

// Refusals 4 and 5.
fn check_nodes(nodes: &[u32], count: usize, qubits: usize) -> Result<(), Refusal>
    requires { 5 * count ≤ length nodes.now }
    ensures { result ≡ check_nodes qubits 0 (records 5 count nodes.now) }
{
    for i in 0..count {
        let at = i * 5;
        let e = at + 5;
        check_node(&nodes[at..e], i, qubits)?;
    }
    Ok(())
}

// Refusal 6 of the frame rows.
fn check_rows(rows: &[u32], count: usize, nodes: usize) -> Result<(), Refusal>
    requires { 4 * count ≤ length rows.now }
    ensures { result ≡ check_rows nodes 0 (records 4 count rows.now) }
{
    for i in 0..count {
        let at = i * 4;
        let e = at + 4;
        check_row(&rows[at..e], i, nodes)?;
    }
    Ok(())
}

// Whether the table has the outcome.
fn is_entered(table: &[u64; TABLE], outcome: u32) -> bool
    requires { outcome < 65536 }
    ensures { result ≡ has_bit table.now outcome }
{
    let o = outcome as usize;
    (table[o / 64] >> (o % 64)) % 2 == 1
}

// The table gets the outcome.
fn enter(table: &mut [u64; TABLE], outcome: u32)
    requires { outcome < 65536 }
    ensures { table.new ≡ with_bit table.old outcome }
{
    let o = outcome as usize;
    let j = o / 64;
    table[j] = table[j] | 1 << (o % 64);
}

// Refusal 8 of an operation that passes refusal 7. The table has the outcomes measured before it.
fn bad_outcome(table: &[u64; TABLE], r: &[u32]) -> bool
    requires { (length r.now ≡ 6) × (bad_operation r.now ≡ false) }
    ensures { (seen : List ℕ) → Entered seen table.now → result ≡ bad_outcome seen r.now }
{
    let kind = r[0];
    // a plain rotation has no outcome to look for
    if kind == 1 {
        return false;
    }
    let before = is_entered(table, r[4]);
    ((kind == 2) & before) | ((kind == 3) & !before)
}

// The outcome of an operation that passes refusal 7 is entered, if it is measured.
fn enter_measured(table: &mut [u64; TABLE], r: &[u32])
    requires { (length r.now ≡ 6) × (bad_operation r.now ≡ false) }
    ensures { (seen : List ℕ) → Entered seen table.old
        → Entered (measured seen r.now) table.new }
{
    if r[0] != 2 {
        return;
    }
    enter(table, r[4]);
}

// Refusals 7, 6 and 8 of an operation. The table has the outcomes measured before it, and then its own.
fn check_operation(table: &mut [u64; TABLE], r: &[u32], nodes: usize) -> Result<(), Refusal>
    requires { length r.now ≡ 6 }
    ensures { (seen : List ℕ) → Entered seen table.old
        → Checked nodes seen r.now result table.new }
{
    if bad_operation(r) {
        return Err(Refusal::BadOperation);
    }
    if bad_reference(nodes, r[1], r[2]) {
        return Err(Refusal::BadReference);
    }
    if bad_outcome(table, r) {
        return Err(Refusal::BadOutcome);
    }
    enter_measured(table, r);
    Ok(())
}

// Refusals 7, 6 and 8.
fn check_operations(operations: &[u32], count: usize, nodes: usize) -> Result<(), Refusal>
    requires { 6 * count ≤ length operations.now }
    ensures { result ≡ check_operations nodes [] (records 6 count operations.now) }
{
    // bit o: outcome o is measured
    let mut table = [0u64; TABLE];
    for i in 0..count {
        let at = i * 6;
        let e = at + 6;
        check_operation(&mut table, &operations[at..e], nodes)?;
    }
    Ok(())
}

// Refusals 4 to 8 of a program whose slices are long enough.
fn check_program(c: Counts, program: Records) -> Result<(), Refusal>
    requires { program_short (job_of c program.nodes.now program.operations.now program.rows.now) ≡ false }
    ensures { result ≡ check_program
        (job_of c program.entry.nodes.now program.entry.operations.now program.entry.rows.now) }
{
    check_nodes(program.nodes, c.nodes, c.qubits)?;
    check_operations(program.operations, c.operations, c.nodes)?;
    check_rows(program.rows, 2 * c.qubits, c.nodes)
}

// Refusal 16: the place is outside the program, or holds a plain rotation.
fn check_named(operations: &[u32], count: usize, place: usize) -> Result<(), Refusal>
    requires { 6 * count ≤ length operations.now }
    ensures { result ≡ check_place (From place) (records 6 count operations.now) }
{
    if place >= count {
        return Err(Refusal::BadPlace);
    }
    let at = place * 6;
    if operations[at] == 1 {
        return Err(Refusal::BadPlace);
    }
    Ok(())
}

// Refusal 16, where a place is named.
fn check_place(operations: &[u32], count: usize, lazy: Lazy) -> Result<(), Refusal>
    requires { 6 * count ≤ length operations.now }
    ensures { result ≡ check_place lazy (records 6 count operations.now) }
{
    match lazy {
        Lazy::Off => Ok(()),
        Lazy::On => Ok(()),
        Lazy::From(place) => check_named(operations, count, place),
    }
}

// Refusals 4 to 8, then 16.
fn check_records(c: Counts, lazy: Lazy, program: Records) -> Result<(), Refusal>
    requires { program_short (job_of c program.nodes.now program.operations.now program.rows.now) ≡ false }
    ensures { result ≡ check_records lazy
        (job_of c program.entry.nodes.now program.entry.operations.now program.entry.rows.now) }
{
    check_program(c, program)?;
    check_place(program.operations, c.operations, lazy)
}

// Refusals 1 to 8 and 16; 0 passes.
pub fn checking(
    counts: Counts,
    options: Options,
    nodes: &[u32],
    operations: &[u32],
    rows: &[u32],
    words: &[u64],
    numbers: &[u32],
    result_operations: &[u32],
    result_rows: &[u32],
) -> Result<(), Refusal>
    ensures { result ≡ checking options (job_of counts nodes.now operations.now rows.now)
        (lent_of words.now numbers.now result_operations.now result_rows.now) }
{
    if bad_count(counts) {
        return Err(Refusal::CountOutside);
    }
    if bad_option(options) {
        return Err(Refusal::OptionOutside);
    }
    let program = Records {
        nodes,
        operations,
        rows,
    };
    if program_short(counts, program)
        | lent_short(
            counts,
            options.max_packed_words,
            words,
            numbers,
            result_operations,
            result_rows,
        )
    {
        return Err(Refusal::SliceShort);
    }
    let lazy = options.lazy_cliffords;
    check_records(counts, lazy, program)
}
