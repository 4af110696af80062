// One job: memory filled, Rewriting, and what it hands back and leaves.
ghost use Rattle.std.specs.Prelude.{◌<◌, ◌≤◌, length, IfOk};
ghost use Rattle.jobs.specs.Within.{Within, room_of};

use crate::out;
use jobs::{Lent, Room, Stores};
use model::{Counts, Options};
use std::io;

// A job whose slices are lent.
fn call(
    rt: &impl Print,
    c: Counts,
    o: Options,
    nodes: &[u32],
    operations: &[u32],
    rows: &[u32],
    w: &mut [u64],
    m: &mut [u32],
    result_operations: &mut [u32],
    result_rows: &mut [u32],
) -> io::Result<()> {
    lent_memory::fill(w, m, result_operations, result_rows);
    let r = rewriting::by_value::rewriting(
        c,
        o,
        nodes,
        operations,
        rows,
        w,
        m,
        result_operations,
        result_rows,
    );
    out::rewritten(rt, r)?;
    lent_memory::print(rt, &w[..], &m[..], &result_operations[..], &result_rows[..])
}

// A job that is read, in the memory that it is lent.
fn lend(
    rt: &impl Print,
    c: Counts,
    o: Options,
    l: Lent,
    records: &[u32],
    words: &mut [u64],
    numbers: &mut [u32],
    result_operations: &mut [u32],
    result_rows: &mut [u32],
) -> io::Result<()>
    requires { Within l (room_of (length records.now) (length words.old) (length numbers.old)
        (length result_operations.old) (length result_rows.old)) }
{
    let s = l.stores;
    call(
        rt,
        c,
        o,
        jobs::part(records, 0, l.nodes),
        jobs::part(records, l.operations_from, l.operations),
        jobs::part(records, l.rows_from, l.rows),
        &mut words[..s.words],
        &mut numbers[..s.numbers],
        &mut result_operations[..s.result_operations],
        &mut result_rows[..s.result_rows],
    )
}

// Copies as much as there is room for.
fn keep(from: &[u32], to: &mut [u32]) {
    let n = from.len().min(to.len());
    to[..n].copy_from_slice(&from[..n]);
}

// Reads the job at a place of the input, runs it, and prints what comes of it; the place of the next job.
pub fn run(
    rt: &impl Print,
    input: &[u8],
    at: usize,
    records: &mut [u32],
    kept: &mut [u32],
    words: &mut [u64],
    numbers: &mut [u32],
    result_operations: &mut [u32],
    result_rows: &mut [u32],
) -> io::Result<usize>
    requires { at < length input.now }
    ensures { IfOk result (λ next. (at < next) × (next ≤ length input.now)) }
{
    let room = Room {
        records: records.len(),
        stores: Stores {
            words: words.len(),
            numbers: numbers.len(),
            result_operations: result_operations.len(),
            result_rows: result_rows.len(),
        },
    };
    let j = jobs::read_job(input, at, records, room);
    let Some(lent) = j.lent else {
        out::no_room(rt)?;
        return Ok(j.next);
    };
    keep(&records[..], kept);
    lend(
        rt,
        j.counts,
        j.options,
        lent,
        &records[..],
        words,
        numbers,
        result_operations,
        result_rows,
    )?;
    out::program(rt, &records[..], &kept[..])?;
    Ok(j.next)
}
