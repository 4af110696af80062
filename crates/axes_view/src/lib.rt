// 01's `Axes`: a view of the word store that carries the width l, thin over the functions that take slice and width.
#![tactic(auto)]

ghost use Rattle.std.specs.Prelude.{◌≡◌, ℕ, ◌+◌, ◌*◌, ◌<◌, ◌≤◌, length};
ghost use Rattle.model.specs.Words.{word_of};
ghost use Rattle.layout.specs.Words.{axis_place};
ghost use Rattle.axes.specs.View.{axes_of, axes_in};

#[derive(Clone, Copy)]
pub struct Axes<'a> {
    pub words: &'a [u64],
    pub l: usize,
}

impl<'a> Axes<'a> {
    // A view of the stored axes' words: the caller cuts the slice at their end.
    pub fn new(words: &'a [u64], l: usize) -> Axes<'a>
        ensures { (result.words ≡ words.entry) × (result.l ≡ l) }
    {
        Axes { words, l }
    }

    // The word of axis id, inside the store.
    pub fn get(self, id: usize) -> &'a [u64]
        requires { axis_place self.l id + 2 * self.l ≤ length self.words.now }
        ensures { (n : ℕ) → id < n → result.now ≡ word_of (axes_of self.entry.l n self.entry.words.now) id }
    {
        axes::axis(self.words, id, self.l)
    }

    // The number of stored axes, in a view that ends with them.
    pub fn len(self) -> usize
        requires { (0 < self.l) × (self.l ≤ 64) }
        ensures { (result ≡ axes_in self.entry.l self.entry.words.now)
            × ((n : ℕ) → length self.entry.words.now ≡ axis_place self.entry.l n → result ≡ n) }
    {
        count(self.words, self.l)
    }
}

// The same for a caller that has no view: the word of axis id, through one.
pub fn word<'a>(words: &'a [u64], l: usize, id: usize) -> &'a [u64]
    requires { axis_place l id + 2 * l ≤ length words.now }
    ensures { (n : ℕ) → id < n → result.now ≡ word_of (axes_of l n words.now) id }
{
    Axes::new(words, l).get(id)
}

// How many words of width l lie in a slice.
fn count(words: &[u64], l: usize) -> usize
    requires { (0 < l) × (l ≤ 64) }
    ensures { result ≡ axes_in l words.now }
{
    words.len() / (2 * l)
}
