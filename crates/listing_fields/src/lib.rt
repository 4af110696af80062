// A listing's line as numbers: its fields, in columns of one width, and what else a record's line must be.
#![tactic(auto)]

mod field;
mod record;

ghost use Rattle.std.specs.Prelude.{◌≡◌, length};
ghost use Rattle.model.specs.Listing.{fields_from};
ghost use Rattle.listing_fields.specs.Views.{values_of};

use model::COLUMNS;
pub use record::line;

// -1, as the model has it.
const MINUS: u32 = 4294967295;

// Refusal 11: a text that says no program.
#[derive(Clone, Copy, Debug, PartialEq, Eq)]
pub struct BadText;

// The fields of a line, as many as `to` has room for, no more and no fewer.
pub fn fields(line: &[u8], to: &mut [u32]) -> Result<(), BadText>
    ensures { values_of result to.new ≡ fields_from (length to.old) line.now }
{
    if line.len() % COLUMNS != 0 {
        return Err(BadText);
    }
    if line.len() / COLUMNS != to.len() {
        return Err(BadText);
    }
    // By index: each number has its part of the line.
    for i in 0..to.len() {
        let a = i * COLUMNS;
        let e = a + COLUMNS;
        let v = field::field(&line[a..e])?;
        to[i] = v;
    }
    Ok(())
}
