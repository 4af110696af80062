// What is printed of a job.
use model::{Counters, Refusal};
use optimize::Rewritten;
use std::io;

fn next_number(rt: &impl Print, v: usize) -> io::Result<()> {
    print!(rt; " {v}")
}

// The counters behind the number of axes.
fn sizes(rt: &impl Print, c: Counters) -> io::Result<()> {
    next_number(rt, c.rotations_before)?;
    next_number(rt, c.rotations_after)?;
    next_number(rt, c.t_depth_before)?;
    next_number(rt, c.t_depth_after)?;
    next_number(rt, c.weight_before)?;
    next_number(rt, c.weight_after)?;
    next_number(rt, c.packed_words)?;
    rt.println("")
}

// The counters before the number of operations.
fn rewrites(rt: &impl Print, c: Counters) -> io::Result<()> {
    next_number(rt, c.t_before)?;
    next_number(rt, c.t_after)?;
    next_number(rt, c.merges)?;
    next_number(rt, c.swaps)?;
    next_number(rt, c.cliffords_to_frame)
}

// The line of an accepted call.
fn accepted(rt: &impl Print, r: Rewritten) -> io::Result<()> {
    rt.print(0u32)?;
    rewrites(rt, r.counters)?;
    next_number(rt, r.operations)?;
    next_number(rt, r.axes)?;
    sizes(rt, r.counters)
}

// The line of what a call hands back: a refusal's number and zeros.
pub fn rewritten(rt: &impl Print, reply: Result<Rewritten, Refusal>) -> io::Result<()> {
    match reply {
        Ok(r) => accepted(rt, r),
        Err(refusal) => { println!(rt; "{} 0 0 0 0 0 0 0 0 0 0 0 0 0 0", u32::from(refusal)) }
    }
}

// A job that there is no room for.
pub fn no_room(rt: &impl Print) -> io::Result<()> {
    rt.println("no room\nend")
}

// Whether the program is what it was; the end of a job.
pub fn program(rt: &impl Print, records: &[u32], kept: &[u32]) -> io::Result<()> {
    if records == kept {
        return rt.println("program =\nend");
    }
    rt.println("program changed\nend")
}
