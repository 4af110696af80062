// The number store: 24 rows of u numbers; entry i of row r is at r * u + i.
ghost use Rattle.std.specs.Prelude.{◌≡◌, ◌+◌, ◌*◌, ◌<◌, ◌≤◌, length, get_or, replicate};
ghost use Rattle.store.specs.Part.{put};
ghost use Rattle.store.specs.Row.{row, Written};
ghost use Rattle.store.specs.Wide.{wide_at, WrittenWide};

// Entry i of row r.
pub fn read(numbers: &[u32], u: usize, r: usize, i: usize) -> u32
    requires { (24 * u ≤ length numbers.now) × (r < 24) × (i < u) }
    ensures { result ≡ get_or (row numbers.now u r) i 0 }
{
    let at = r * u + i;
    numbers[at]
}

// Entry i of row r becomes v.
pub fn write(numbers: &mut [u32], u: usize, r: usize, i: usize, v: u32)
    requires { (24 * u ≤ length numbers.old) × (r < 24) × (i < u) }
    ensures { Written numbers.old u r i v numbers.new }
{
    numbers[r * u + i] = v;
}

// The 64-bit number at entry i of rows r and r + 1, its low half and its high half.
pub fn read_wide(numbers: &[u32], u: usize, r: usize, i: usize) -> u64
    requires { (24 * u ≤ length numbers.now) × (r + 1 < 24) × (i < u) }
    ensures { result ≡ wide_at numbers.now u r i }
{
    let low = read(numbers, u, r, i);
    let high = read(numbers, u, r + 1, i);
    high as u64 * 4294967296 + low as u64
}

// Entry i of rows r and r + 1 becomes the 64-bit number v.
pub fn write_wide(numbers: &mut [u32], u: usize, r: usize, i: usize, v: u64)
    requires { (24 * u ≤ length numbers.old) × (r + 1 < 24) × (i < u) }
    ensures { WrittenWide numbers.old u r i v numbers.new }
{
    write(numbers, u, r, i, (v % 4294967296) as u32);
    write(numbers, u, r + 1, i, (v / 4294967296) as u32);
}

// The first n entries of row r become zeros.
pub fn clear_row(numbers: &mut [u32], u: usize, r: usize, n: usize)
    requires { (24 * u ≤ length numbers.old) × (r < 24) × (n ≤ u) }
    ensures { numbers.new ≡ put numbers.old (r * u) (replicate n 0) }
{
    let a = r * u;
    let e = a + n;
    numbers[a..e].fill(0);
}
