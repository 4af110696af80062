// The word store: copies.
ghost use Rattle.std.specs.Prelude.{◌≡◌};
ghost use Rattle.store.specs.Part.{part, put};
ghost use Rattle.store.specs.Copy.{CopyPre};

// The n words from `to` on become those from `from` on.
pub fn copy_within(words: &mut [u64], from: usize, to: usize, n: usize)
    requires { CopyPre words.old from to n }
    ensures { words.new ≡ put words.old to (part words.old from n) }
{
    words.copy_within(from..from + n, to);
}
