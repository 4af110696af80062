// A field: a number, right-justified with blanks.
ghost use Rattle.std.specs.Prelude.{◌≡◌, ◌≤◌, length, drop};
ghost use Rattle.model.specs.Listing.{columns, digits_from, numeral, unpadded};
ghost use Rattle.listing_fields.specs.Views.{value_of};

use crate::{BadText, MINUS};

// How many blanks stand in front.
fn blanks(f: &[u8]) -> usize
    ensures { (result ≤ length f.now) × (unpadded f.now ≡ drop result f.now) }
{
    f.iter().position(|b| *b != b' ').unwrap_or(f.len())
}

// The number that digits say. The digits of a field, up to 19 columns, stay below 2^64.
fn digits(f: &[u8]) -> Result<u32, BadText>
    requires { length f.now ≤ columns }
    ensures { value_of result ≡ digits_from 0 f.now }
{
    let mut v: u64 = 0;
    for b in f {
        if !b.is_ascii_digit() {
            return Err(BadText);
        }
        v = v * 10 + u64::from(*b - b'0');
    }
    Ok(v as u32)
}

// Digits without leading zeros, or -1.
#[tactic(auto, using(crate::specs::Field::refused_or_minus))]
fn number(f: &[u8]) -> Result<u32, BadText>
    requires { length f.now ≤ columns }
    ensures { value_of result ≡ numeral f.now }
{
    match f {
        [] | [b'0', _, ..] => Err(BadText),
        b"-1" => Ok(MINUS),
        _ => digits(f),
    }
}

// The number of a field, behind its blanks.
pub fn field(f: &[u8]) -> Result<u32, BadText>
    requires { length f.now ≤ columns }
    ensures { value_of result ≡ numeral (unpadded f.now) }
{
    let a = blanks(f);
    number(&f[a..])
}
