// Pauli letters, and those of a packed word.
#![tactic(auto)]

ghost use Rattle.std.specs.Prelude.{◌≡◌, ◌+◌, ◌*◌, ◌%◌, ◌^◌, ◌<◌, ◌≤◌, length};
ghost use Rattle.bits.specs.Bit.{bit};
ghost use Rattle.store.specs.Part.{put};
ghost use Rattle.pauli.specs.Letter.{has_x, has_z, letter_at, letter_of, single, weight};
ghost use Rattle.letter.specs.Letters.{letter_numbered, number_of_letter};

// A letter. Its number is the model's: 0 to 3.
#[derive(Clone, Copy, PartialEq, Eq)]
pub enum Letter {
    I,
    X,
    Y,
    Z,
}

impl Letter {
    // 1 for a letter with x.
    #[tactic(auto, unfolding(pauli::specs::Letter::has_x))]
    fn has_x(self) -> u64
        ensures { result ≡ has_x (number_of_letter self) }
    {
        match self {
            Letter::X | Letter::Y => 1,
            Letter::I | Letter::Z => 0,
        }
    }

    // 1 for a letter with z.
    #[tactic(auto, unfolding(pauli::specs::Letter::has_z))]
    fn has_z(self) -> u64
        ensures { result ≡ has_z (number_of_letter self) }
    {
        match self {
            Letter::Y | Letter::Z => 1,
            Letter::I | Letter::X => 0,
        }
    }
}

impl From<Letter> for usize {
    ghost from_gives = { λ c n. n ≡ number_of_letter c };

    fn from(letter: Letter) -> usize {
        letter as usize
    }
}

impl From<Letter> for u64 {
    ghost from_gives = { λ c n. n ≡ number_of_letter c };

    fn from(letter: Letter) -> u64 {
        letter as u64
    }
}

// The letter of a node's number, which Checking limits to 3; above, it is Z.
impl From<u32> for Letter {
    ghost from_gives = { λ n c. c ≡ letter_numbered n };

    fn from(number: u32) -> Letter {
        match number {
            0 => Letter::I,
            1 => Letter::X,
            2 => Letter::Y,
            _ => Letter::Z,
        }
    }
}

// Bit q mod 64 of a number of a plane.
fn plane_bit(w: u64, q: usize) -> u64
    ensures { result ≡ bit w (q % 64) }
{
    (w >> (q % 64)) % 2
}

// The letter that two bits make.
fn letter_of(x: u64, z: u64) -> Letter
    ensures { number_of_letter result ≡ letter_of x z }
{
    match (x, z) {
        (0, 0) => Letter::I,
        (_, 0) => Letter::X,
        (0, _) => Letter::Z,
        _ => Letter::Y,
    }
}

// The letter of w at qubit q.
pub fn letter_at(w: &[u64], l: usize, q: usize) -> Letter
    requires { (length w.now ≡ 2 * l) × (q < 64 * l) }
    ensures { number_of_letter result ≡ letter_at l w.now q }
{
    let j = q / 64;
    letter_of(plane_bit(w[j], q), plane_bit(w[l + j], q))
}

// The word at `at` becomes a letter at qubit q and I elsewhere.
pub fn write_letter(words: &mut [u64], at: usize, l: usize, q: usize, letter: Letter)
    requires { (at + 2 * l ≤ length words.old) × (q < 64 * l) }
    ensures { words.new ≡ put words.old at (single l q (number_of_letter letter)) }
{
    let n = 2 * l;
    let e = at + n;
    words[at..e].fill(0);
    let j = q / 64;
    words[at + j] = letter.has_x() << (q % 64);
    words[at + (l + j)] = letter.has_z() << (q % 64);
}

// The same by a node's number for the letter, whatever it is.
pub fn put_letter(words: &mut [u64], at: usize, l: usize, q: usize, letter: u32)
    requires { (at + 2 * l ≤ length words.old) × (q < 64 * l) }
    ensures { words.new ≡ put words.old at (single l q letter) }
{
    write_letter(words, at, l, q, letter.into());
}

// How many letters of w are not I.
pub fn weight(w: &[u64], l: usize) -> usize
    requires { (length w.now ≡ 2 * l) × (l ≤ 2 ^ 32) }
    ensures { result ≡ weight l w.now }
{
    let mut n: usize = 0;
    // By index: the two planes advance together.
    for j in 0..l {
        n += bits::count(w[j] | w[l + j]) as usize;
    }
    n
}
