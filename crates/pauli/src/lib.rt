// Packed Pauli words: l x-words, then l z-words.
#![tactic(auto)]

ghost use Rattle.std.specs.Prelude.{◌≡◌, ◌*◌, length};
ghost use Rattle.store.specs.Equal.{same_list};
ghost use Rattle.pauli.specs.Word.{width, is_identity, anticommutes};

// The words of a plane for a number of qubits.
pub fn width(qubits: usize) -> usize
    ensures { result ≡ width qubits }
{
    qubits.div_ceil(64).max(1)
}

// Whether p and q are one word.
pub fn same(p: &[u64], q: &[u64]) -> bool
    ensures { result ≡ same_list p.now q.now }
{
    p == q
}

// Whether every letter of p is I.
pub fn is_identity(p: &[u64]) -> bool
    ensures { result ≡ is_identity p.now }
{
    p.iter().all(|word| *word == 0)
}

// Whether p and q anticommute.
pub fn anticommutes(p: &[u64], q: &[u64], l: usize) -> bool
    requires { (length p.now ≡ 2 * l) × (length q.now ≡ 2 * l) }
    ensures { result ≡ anticommutes l p.now q.now }
{
    let mut acc: u64 = 0;
    // By index: two planes of two words advance together.
    for j in 0..l {
        acc ^= (p[j] & q[l + j]) ^ (p[l + j] & q[j]);
    }
    bits::count(acc) % 2 == 1
}
