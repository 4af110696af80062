// The product of two words inside one store.
ghost use Rattle.product.specs.Product.{StoredPre, StoredWord, StoredProduct};

use angle::Phase;

// The word at o becomes that of the product of those at p and at q. o is p, or q, or apart from them.
pub fn product_word_in(words: &mut [u64], p: usize, q: usize, o: usize, l: usize)
    requires { StoredPre l words.old p q o }
    ensures { StoredWord l words.old p q o words.new }
{
    // By index: the three words lie in one store, and may be the same.
    for j in 0..2 * l {
        words[o + j] = words[p + j] ^ words[q + j];
    }
}

// The same, with the phase of the product.
pub fn product_in(words: &mut [u64], p: usize, q: usize, o: usize, l: usize) -> Phase
    requires { StoredPre l words.old p q o }
    ensures { StoredProduct l words.old p q o words.new result.0 }
{
    let n = 2 * l;
    let e = crate::read::product_phase(&words[p..p + n], &words[q..q + n], l);
    product_word_in(words, p, q, o, l);
    e
}
