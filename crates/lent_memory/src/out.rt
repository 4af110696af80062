// What is printed of places that hold the same.
use crate::number::Number;
use std::io;

// How often a number comes, where that is more than once.
fn times(rt: &impl Print, count: usize) -> io::Result<()> {
    if 1 < count {
        return print!(rt; "*{count}");
    }
    Ok(())
}

// So many places that are as they were lent.
pub fn unchanged(rt: &impl Print, count: usize) -> io::Result<()> {
    rt.print(" =")?;
    times(rt, count)
}

// A number that so many places hold.
pub fn repeated<T: Number>(rt: &impl Print, v: T, count: usize) -> io::Result<()> {
    print!(rt; " {v}")?;
    times(rt, count)
}
