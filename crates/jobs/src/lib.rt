// Jobs of the oracle: reading them, and what a job is lent. See oracle/README.md.
#![tactic(auto)]

ghost use Rattle.std.specs.Prelude.{◌<◌, ◌≤◌, length, IfSome};
ghost use Rattle.jobs.specs.Within.{Within};

use model::{Counts, Options};
use read::Header;

mod lend;
mod read;

pub use lend::{Lent, Room, Stores, part};
pub use read::{numbers, past_blanks};

// A job that is read: its counts and options, what it is lent if there is room for it, and the place of the next job.
#[derive(Clone, Copy)]
pub struct Job {
    pub counts: Counts,
    pub options: Options,
    pub lent: Option<Lent>,
    pub next: usize,
}

// The place of the next job; the end, where that is not behind the job's own.
pub fn behind(from: usize, next: usize, end: usize) -> usize
    requires { (from < end) × (next ≤ end) }
    ensures { (from < result) × (result ≤ end) }
{
    if from < next { next } else { end }
}

// Reads a job's records, or passes over them; what it is lent, and the place behind them.
fn read_records(s: &[u8], h: Header, records: &mut [u32], room: Room) -> (Option<Lent>, usize)
    requires { (h.next ≤ length s.now) × (room.records ≤ length records.old) }
    ensures { IfSome result.0 (λ l. Within l room) × (result.1 ≤ length s.now) }
{
    let Some(size) = lend::following(h, room.records) else {
        let all = lend::size_of(h);
        return (
            None,
            read::pass_over(s, h.next, all.nodes + all.operations + all.rows),
        );
    };
    let end = read::numbers(s, h.next, size.nodes + size.operations + size.rows, records);
    (lend::lend(h, size, room), end)
}

// Reads the job at a place of the input, its records into memory for all of them.
pub fn read_job(s: &[u8], from: usize, records: &mut [u32], room: Room) -> Job
    requires { (from < length s.now) × (room.records ≤ length records.old) }
    ensures { (from < result.next) × (result.next ≤ length s.now) × IfSome result.lent (λ l. Within l room) }
{
    let h = read::read_header(s, from);
    let (lent, end) = read_records(s, h, records, room);
    Job {
        counts: read::counts(h),
        options: read::options(h),
        lent,
        next: behind(from, past_blanks(s, end), s.len()),
    }
}
