// The support signature of a packed Pauli word.
#![tactic(auto)]

ghost use Rattle.std.specs.Prelude.{◌≡◌, ◌+◌, ◌*◌, ◌^◌, ◌<◌, ◌≤◌, length};
ghost use Rattle.std.specs.Int.Bits.{bit_or};
ghost use Rattle.pauli.specs.Word.{IsWord};
ghost use Rattle.pauli.specs.Support.{signature};
ghost use Rattle.pauli.specs.SupportLaws.{buckets_of};

use bits::set_bits;

// The buckets of the set bits of w, the j-th number of a plane, or-ed to sig.
fn add_buckets(sig: u64, w: u64, j: usize, l: usize) -> u64
    requires { (j < l) × (l ≤ 2 ^ 32) }
    ensures { result ≡ bit_or sig (buckets_of l j w 64) }
{
    let mut s = sig;
    for place in set_bits(w) {
        let q = 64 * j + place;
        s |= 1 << (q / l);
    }
    s
}

// A bit for each bucket of qubits that the word acts on; what is lent is a word.
pub fn support_signature(words: &[u64], l: usize) -> u64
    requires { (length words.now ≡ 2 * l) × (l ≤ 2 ^ 32) }
    ensures { (result ≡ signature l words.now) × IsWord l words.now }
{
    // a qubit is its own bucket
    if l == 1 {
        return words[0] | words[1];
    }
    let mut sig: u64 = 0;
    // By index: the two planes advance together.
    for j in 0..l {
        sig = add_buckets(sig, words[j] | words[l + j], j, l);
    }
    sig
}
