// Runs document 01's starred examples about words, angles and buckets through the code, and prints what comes out.
#![tactic(auto)]

ghost use Rattle.std.specs.Prelude.{◌≡◌, ◌<◌, length};

use angle::PauliAngle;
use letter::Letter::{self, I, X, Y, Z};
use std::io;

// Letters a and b on two qubits.
fn word(a: Letter, b: Letter) -> [u64; 2] {
    let mut w = [0u64; 4];
    letter::write_letter(&mut w, 0, 1, 0, a);
    letter::write_letter(&mut w, 2, 1, 1, b);
    product::product_in(&mut w, 0, 2, 0, 1);
    [w[0], w[1]]
}

fn show_letter(rt: &impl Print, letter: Letter) -> io::Result<()> {
    rt.print(match letter {
        I => "I",
        X => "X",
        Y => "Y",
        Z => "Z",
    })
}

// The letters of a word of two qubits.
fn show_word(rt: &impl Print, w: &[u64]) -> io::Result<()>
    requires { length w.now ≡ 2 }
{
    show_letter(rt, letter::letter_at(w, 1, 0))?;
    show_letter(rt, letter::letter_at(w, 1, 1))
}

// Two words, the phase of their product, and its word.
fn show_product(rt: &impl Print, p: &[u64], q: &[u64]) -> io::Result<()>
    requires { (length p.now ≡ 2) × (length q.now ≡ 2) }
{
    let mut r = [0u64; 2];
    let e = product::product(p, q, &mut r, 1);
    show_word(rt, p)?;
    rt.print(" times ")?;
    show_word(rt, q)?;
    print!(rt; ": {}, ", e.0)?;
    show_word(rt, &r)?;
    rt.println("")
}

// A number from -7 to 7.
fn show_signed(rt: &impl Print, k: i32) -> io::Result<()> {
    let a = PauliAngle::new(k);
    if k < 0 {
        print!(rt; "-{}", (-a).0)
    } else {
        rt.print(a.0)
    }
}

fn show_normalized(rt: &impl Print, k: i32) -> io::Result<()> {
    show_signed(rt, k)?;
    rt.print(" gives ")?;
    show_signed(rt, angle::normalize(k) as i32)?;
    rt.println("")
}

// The bucket of a qubit out of 65: the one bit of a letter's signature.
fn show_bucket(rt: &impl Print, q: usize) -> io::Result<()>
    requires { q < 128 }
{
    let l = pauli::width(65);
    let mut w = [0u64; 4];
    letter::write_letter(&mut w, 0, l, q, X);
    let s = support::support_signature(&w, l);
    println!(rt; "qubit {q} in bucket {}", s.trailing_zeros())
}

fn main(rt: HostRuntime) -> io::Result<()> {
    show_product(&rt, &word(X, I), &word(Y, I))?;
    show_product(&rt, &word(X, I), &word(Z, I))?;
    show_product(&rt, &word(Z, I), &word(X, I))?;
    show_product(&rt, &word(X, X), &word(Z, Z))?;
    show_normalized(&rt, -4)?;
    show_normalized(&rt, 5)?;
    show_normalized(&rt, -5)?;
    show_bucket(&rt, 1)?;
    show_bucket(&rt, 64)
}
