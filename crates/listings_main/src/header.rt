// What stands in front of a listing's text: its number of bytes, and how long the slices are that it is lent.
ghost use Rattle.std.specs.Prelude.{◌≤◌, length};

// The text's place, and the slices' lengths.
#[derive(Clone, Copy)]
pub struct Header {
    pub from: usize,
    pub to: usize,
    pub output: usize,
    pub words: usize,
    pub numbers: usize,
    pub operations: usize,
    pub rows: usize,
}

// The place behind the newline that stands at a place, or the end.
fn behind_newline(at: usize, end: usize) -> usize
    ensures { result ≤ end }
{
    if at < end { at + 1 } else { end }
}

// The end of so many bytes from a place on, or the end of all.
fn bytes_to(from: usize, count: usize, end: usize) -> usize
    requires { from ≤ end }
    ensures { (from ≤ result) × (result ≤ end) }
{
    from + count.min(end - from)
}

// A number that was read, as a length. A function, since its parameter is known to fit where an element written by a call is not.
fn wide(x: u32) -> usize {
    x as usize
}

pub fn read(input: &[u8], at: usize) -> Header
    requires { at ≤ length input.now }
    ensures { (result.from ≤ result.to) × (result.to ≤ length input.now) }
{
    let mut v = [0u32; 6];
    let from = behind_newline(jobs::numbers(input, at, 6, &mut v), input.len());
    Header {
        from,
        to: bytes_to(from, wide(v[0]), input.len()),
        output: wide(v[1]),
        words: wide(v[2]),
        numbers: wide(v[3]),
        operations: wide(v[4]),
        rows: wide(v[5]),
    }
}
