// Axes found and stored: a word's id among the stored axes, or a new one behind them.
#![tactic(auto)]

ghost use Rattle.std.specs.Prelude.{◌≡◌, ◌+◌, ◌^◌, ◌<◌, ◌≤◌, true, length, slice_index};
ghost use Rattle.layout.specs.Index.{links_place};
ghost use Rattle.layout.specs.Words.{axis_place};
ghost use Rattle.axes.specs.Pick.{mixed};
ghost use Rattle.axes.specs.View.{axes_of};
ghost use Rattle.axes.specs.Held.{Stored};
ghost use Rattle.interning.specs.Find.{SumsOf, FirstAt, Behind, entry_of, FoundAs, stored_id};
ghost use Rattle.interning.specs.Beside.{BesidePre, BesidePut};
ghost use Rattle.interning.specs.Link.{LinkPre, LinkPut, Entered, ChainsCleared};
ghost use Rattle.interning.specs.Intern.{InternPre, Stores};

use axes::{Sizes, StoredAxes};
use layout::{FORK, HEADS, SIGNATURE};
use model::ExpansionLimit;
use pauli::same;

// A hash's halves of 32 bits, and the odd numbers that they are multiplied by.
const HALF: u64 = 4294967296;

const LOWER: u64 = 2654435769;

const UPPER: u64 = 2246822519;

// A word among the axes: its id, how many axes there are with it, and the largest word sum that was tested by then.
#[derive(Clone, Copy)]
pub struct StoredAxis {
    pub id: usize,
    pub axes: usize,
    pub peak: usize,
}

// What the index goes by: a word's numbers added modulo 2^64, and its hash.
#[derive(Clone, Copy)]
struct Sums {
    total: u64,
    hash: u64,
}

// Both halves of a number, each multiplied, added modulo 2^64.
fn mixed_halves(hash: u64) -> u64
    ensures { result ≡ mixed hash }
{
    (hash % HALF * LOWER).wrapping_add(hash / HALF * UPPER)
}

// A word's numbers, read once.
fn sums_of(w: &[u64]) -> Sums
    ensures { SumsOf w.now result }
{
    let mut total: u64 = 0;
    let mut hash: u64 = 0;
    for &number in w {
        total = total.wrapping_add(number);
        hash = mixed_halves(hash).wrapping_add(number);
    }
    Sums { total, hash }
}

// Where a walk along the index stands, and the digits by which it goes on.
#[derive(Clone, Copy)]
struct Walk {
    place: usize,
    digits: u64,
}

impl Walk {
    // For a word with these sums it begins at the head of the chain that is picked for it.
    fn from_head(z: Sizes, s: Sums) -> Walk
        requires { links_place z.u < 2 ^ 64 }
        ensures { FirstAt z s result }
    {
        Walk {
            place: layout::heads_at(z.u) + (s.total % HEADS as u64) as usize,
            digits: mixed_halves(s.hash) / HALF,
        }
    }

    // Behind axis b it goes on by one of the axis's two links.
    fn behind(self, z: Sizes, b: usize) -> Walk
        requires { links_place z.u + b < 2 ^ 64 }
        ensures { Behind z self b result }
    {
        let links = if self.digits % 2 == 0 {
            layout::links_at(z.u)
        } else {
            FORK * z.u
        };
        Walk {
            place: links + b,
            digits: self.digits / 2,
        }
    }
}

// The axis that the index names at a place: an entry is 0, or an axis's id and 1.
fn named_at(numbers: &[u32], place: usize) -> Option<usize>
    requires { place < length numbers.now }
    ensures { entry_of result ≡ slice_index numbers.now place }
{
    (numbers[place] as usize).checked_sub(1)
}

// A word looked for by its chain: its id among the axes, or, as an error, the place at the end of its walk where its entry belongs.
pub fn find(axes: StoredAxes, w: &[u64]) -> Result<usize, usize>
    ensures { FoundAs axes.entry.sizes axes.entry.words.now axes.entry.numbers.now w.now result }
{
    let mut walk = Walk::from_head(axes.sizes, sums_of(w));
    while let Some(axis) = named_at(axes.numbers, walk.place) {
        if same(axes.axis(axis), w) {
            return Ok(axis);
        }
        walk = walk.behind(axes.sizes, axis);
    }
    Err(walk.place)
}

// The id of w among the first so many axes, by a scan of all: 01's rule, to which `find` is held.
pub fn scan(words: &[u64], l: usize, axes: usize, w: &[u64]) -> Option<usize>
    requires { axis_place l axes ≤ length words.now }
    ensures { result ≡ stored_id (axes_of l axes words.now) w.now }
{
    for id in 0..axes {
        if same(axes::axis(words, id, l), w) {
            return Some(id);
        }
    }
    None
}

// 02: "Ids and results stay equal to the scan's, which is kept and proved to agree."
pub fn agree(axes: StoredAxes, w: &[u64]) -> bool
    ensures { result ≡ true }
{
    find(axes, w).ok() == scan(axes.words, axes.sizes.l, axes.sizes.axes, w)
}

// Every chain is empty.
pub fn clear_chains(numbers: &mut [u32], u: usize)
    requires { links_place u ≤ length numbers.old }
    ensures { ChainsCleared u numbers.old numbers.new }
{
    let a = layout::heads_at(u);
    let e = layout::links_at(u);
    numbers[a..e].fill(0);
}

// Beside the next axis stands, where words are longer than one number, the signature of its word w.
fn put_beside(numbers: &mut [u32], z: Sizes, w: &[u64])
    requires { BesidePre z numbers.old w.now }
    ensures { BesidePut z numbers.old w.now numbers.new }
{
    if z.l == 1 {
        return;
    }
    let signature = support::support_signature(w, z.l);
    store::write_wide(numbers, z.u, SIGNATURE, z.axes, signature);
}

// At the end of its chain's walk stands the next axis, behind it nothing.
fn put_link(numbers: &mut [u32], z: Sizes, place: usize)
    requires { LinkPre z place numbers.old }
    ensures { LinkPut z place numbers.old numbers.new }
{
    let link = layout::links_at(z.u) + z.axes;
    numbers[link] = 0;
    let fork = FORK * z.u + z.axes;
    numbers[fork] = 0;
    numbers[place] = (z.axes + 1) as u32;
}

// All that the number store holds of the next axis: beside it, and in the chain of its word w.
fn enter(numbers: &mut [u32], z: Sizes, w: &[u64], place: usize)
    requires { BesidePre z numbers.old w.now × LinkPre z place numbers.old }
    ensures { Entered z place numbers.old w.now numbers.new }
{
    put_beside(numbers, z, w);
    put_link(numbers, z, place);
}

// The word at a place among the axes, stored behind them if it is new and the limit leaves room for it. The sum that is tested counts the other words besides the axes.
pub fn intern(
    words: &mut [u64],
    numbers: &mut [u32],
    z: Sizes,
    others: usize,
    peak: usize,
    at: usize,
) -> Result<StoredAxis, ExpansionLimit>
    requires { InternPre z others peak words.old numbers.old at }
    ensures { Stores z others peak words.old numbers.old at result words.new numbers.new }
{
    let w = axes::word_at(&words[..], at, z.l);
    let axes = StoredAxes {
        words: &words[..],
        numbers: &numbers[..],
        sizes: z,
    };
    let place = match find(axes, w) {
        Ok(id) => {
            return Ok(StoredAxis {
                id,
                axes: z.axes,
                peak,
            });
        }
        Err(place) => place,
    };
    let n = 2 * z.l;
    let end = layout::axis_at(z.l, z.axes);
    let sum = end + n + others;
    if z.limit < sum {
        return Err(ExpansionLimit);
    }
    enter(numbers, z, w, place);
    store::copy_within(words, at, end, n);
    Ok(StoredAxis {
        id: z.axes,
        axes: z.axes + 1,
        peak: peak.max(sum),
    })
}
