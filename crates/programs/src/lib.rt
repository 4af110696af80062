// What the programs share: memory of zeros, and a reader read whole.
#![tactic(auto)]

ghost use Rattle.std.specs.Prelude.{◌≡◌, ◌<◌, ◌≤◌, length, take, IfOk};
ghost use Rattle.std.specs.Io.KnownBytes.{Consumes, IsAtEnd};

use std::io;
use std::io::Read;

// So many zeros. A function, since a proof over a literal so long computes the list.
pub fn zeros<T: Copy + Default, const N: usize>() -> [T; N]
    ensures { N ≡ length result }
{
    [T::default(); N]
}

// Reads from a reader, as standard input, until there is no more room or the input ends; how many bytes were read, from the front.
pub fn read_full<R: Read>(from: &mut R, to: &mut [u8]) -> io::Result<usize>
    ensures bound { IfOk result (λ n. n ≤ length to.new) }
    ensures bytes { IfOk result (λ n. Consumes (R.remaining from.old) (R.remaining from.new) (take n to.new)) }
    ensures whole { IfOk result (λ n. n < length to.new → IsAtEnd (R.remaining from.new)) }
{
    let mut n = 0;
    // How much a read gives is not known before.
    while n < to.len() {
        let more = from.read(&mut to[n..])?;
        if more == 0 {
            return Ok(n);
        }
        n += more;
    }
    Ok(n)
}
