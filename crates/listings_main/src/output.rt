// What is printed of the output: the text, and whether the call left what lies behind it.
ghost use Rattle.std.specs.Prelude.{◌≤◌, length};

use std::io;

// The text, and whether anything changed behind it.
pub fn print(rt: &impl Print, s: &[u8], size: usize) -> io::Result<()>
    requires { size ≤ length s.now }
{
    rt.write_all(&s[..size])?;
    if lent_memory::unchanged_to(s, size) == s.len() {
        return rt.println("output =");
    }
    rt.println("output changed")
}
