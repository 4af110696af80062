// The set bits of a number, counted and one by one; and laws of bits, counts and remainders that the kit lacks, for the crates above.
#![tactic(auto)]

ghost use Rattle.std.specs.Prelude.{◌≡◌, ◌≤◌};
ghost use Rattle.std.specs.Iterator.{YieldsFirst, item_count};
ghost use Rattle.bits.specs.Popcount.{popcount};
ghost use Rattle.bits.specs.SetBits.{places};

// How many bits of w are set.
pub fn count(w: u64) -> u32
    ensures { (result ≡ popcount w) × (result ≤ 64) }
{
    w.count_ones()
}

// The places of a number's set bits, rising.
#[derive(Drop)]
pub struct SetBits(u64);

pub fn set_bits(w: u64) -> SetBits
    ensures { result.0 ≡ w }
{
    SetBits(w)
}

impl Iterator for SetBits {
    type Item = usize;

    ghost next_gives = { YieldsFirst (λ s. places s.0) };

    ghost remaining = { item_count (λ s. places s.0) };

    fn next(&mut self) -> Option<usize> {
        if self.0 == 0 {
            return None;
        }
        let place = self.0.trailing_zeros() as usize;
        self.0 &= self.0 - 1;
        Some(place)
    }
}
