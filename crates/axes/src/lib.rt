// Stored axes, read: words of 2 l numbers from the start of the word store, axis id at `layout::axis_at`.
#![tactic(auto)]

ghost use Rattle.std.specs.Prelude.{◌≡◌, ℕ, ◌+◌, ◌*◌, ◌<◌, ◌≤◌, length};
ghost use Rattle.store.specs.Wide.{wide_at};
ghost use Rattle.model.specs.Words.{anticommute, word_of};
ghost use Rattle.layout.specs.Rows.{signature_row};
ghost use Rattle.layout.specs.Words.{axis_place};
ghost use Rattle.axes.specs.View.{axes_of, word_at};
ghost use Rattle.axes.specs.Beside.{is_apart};
ghost use Rattle.axes.specs.Held.{sizes_of, stored_axes, Stored};
ghost use Rattle.axes.specs.OneProof.{stored_prop};

use layout::{SIGNATURE, Shape};
use pauli::anticommutes;

// Where axes lie and how many there are: the length of a row of the number store, the width of a word, the word limit, the number of axes.
#[derive(Clone, Copy)]
pub struct Sizes {
    pub u: usize,
    pub l: usize,
    pub limit: usize,
    pub axes: usize,
}

// A run's sizes with so many axes.
pub fn sizes_of(shape: Shape, axes: usize) -> Sizes
    ensures { result ≡ sizes_of shape axes }
{
    Sizes {
        u: shape.u,
        l: shape.l,
        limit: shape.limit,
        axes,
    }
}

// The word at a place, inside the store.
pub fn word_at(words: &[u64], at: usize, l: usize) -> &[u64]
    requires { at + 2 * l ≤ length words.now }
    ensures { result.now ≡ word_at l words.now at }
{
    let e = at + 2 * l;
    &words[at..e]
}

// The word of axis id, inside the store.
pub fn axis(words: &[u64], id: usize, l: usize) -> &[u64]
    requires { axis_place l id + 2 * l ≤ length words.now }
    ensures { (n : ℕ) → id < n → result.now ≡ word_of (axes_of l n words.now) id }
{
    word_at(words, layout::axis_at(l, id), l)
}

// Whether the signatures of axes a and b tell that these commute. Where a word is one number, it is as soon looked at.
pub fn apart(numbers: &[u32], z: Sizes, a: usize, b: usize) -> bool
    requires { (24 * z.u ≤ length numbers.now) × (a < z.u) × (b < z.u) }
    ensures { result ≡ is_apart z.l (wide_at numbers.now z.u signature_row a)
        (wide_at numbers.now z.u signature_row b) }
{
    if z.l <= 1 {
        return false;
    }
    store::read_wide(numbers, z.u, SIGNATURE, a) & store::read_wide(numbers, z.u, SIGNATURE, b) == 0
}

// The stored axes, as they are read: both work stores, and how many axes lie in them.
#[derive(Clone, Copy)]
pub struct StoredAxes<'a> {
    pub words: &'a [u64],
    pub numbers: &'a [u32],
    pub sizes: Sizes,
    pub ghost stored: { Stored sizes words.now numbers.now } by { stored_prop sizes words.now numbers.now },
}

impl<'a> StoredAxes<'a> {
    // The word of axis id.
    pub fn axis(self, id: usize) -> &'a [u64]
        requires { id < self.sizes.axes }
        ensures { result.now ≡ word_of (stored_axes self.entry.sizes self.entry.words.now) id }
    {
        axis(self.words, id, self.sizes.l)
    }

    // Whether axes a and b anticommute.
    pub fn anticommute(self, a: usize, b: usize) -> bool
        requires { (a < self.sizes.axes) × (b < self.sizes.axes) }
        ensures { result ≡ anticommute self.entry.sizes.l (stored_axes self.entry.sizes self.entry.words.now) a b }
    {
        if apart(self.numbers, self.sizes, a, b) {
            return false;
        }
        anticommutes(self.axis(a), self.axis(b), self.sizes.l)
    }
}
