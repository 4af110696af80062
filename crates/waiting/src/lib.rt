// Row WAITING: a list of places of the output, rising.
#![tactic(auto)]

ghost use Rattle.std.specs.Prelude.{◌≡◌, ◌+◌, ◌*◌, ◌≤◌, ◌<◌, length};
ghost use Rattle.layout.specs.Rows.{row_count};
ghost use Rattle.waiting.specs.Inserting.{UpTo, is_last, MovedUp, InsertPre, Inserted};

use layout::WAITING;

// How many of the first n places are not above j.
fn up_to(numbers: &[u32], u: usize, n: usize, j: usize) -> usize
    requires { (row_count * u ≤ length numbers.now) × (n ≤ u) }
    ensures { UpTo u n j numbers.now result }
{
    for i in (0..n).rev() {
        if store::read(numbers, u, WAITING, i) as usize <= j {
            return i + 1;
        }
    }
    0
}

// Whether the last of the first n places is j.
fn is_last(numbers: &[u32], u: usize, n: usize, j: usize) -> bool
    requires { (row_count * u ≤ length numbers.now) × (n ≤ u) }
    ensures { result ≡ is_last u n j numbers.now }
{
    n != 0 && store::read(numbers, u, WAITING, n - 1) as usize == j
}

// Places a to n move up by one.
fn move_up(numbers: &mut [u32], u: usize, a: usize, n: usize)
    requires { (row_count * u ≤ length numbers.old) × (a ≤ n) × (n < u) }
    ensures { MovedUp u a n numbers.old numbers.new }
{
    let base = WAITING * u;
    numbers.copy_within(base + a..base + n, base + a + 1);
}

// Place j comes into the list of n places, unless it is there; how many there are then.
pub fn insert(numbers: &mut [u32], u: usize, n: usize, j: usize) -> usize
    requires { InsertPre u n j numbers.old }
    ensures { Inserted u n j numbers.old numbers.new result }
{
    let at = up_to(&numbers[..], u, n, j);
    if is_last(&numbers[..], u, at, j) {
        return n;
    }
    move_up(numbers, u, at, n);
    store::write(numbers, u, WAITING, at, j as u32);
    n + 1
}
