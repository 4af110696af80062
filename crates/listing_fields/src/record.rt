// A record's line: -1 stands in a plain rotation's outcome or in a target, and nowhere else.
ghost use Rattle.std.specs.Prelude.{◌≡◌, true, eqb, length};
ghost use Rattle.std.proofs.Math.Option.{bind};
ghost use Rattle.model.specs.Lists.{any_of};
ghost use Rattle.model.specs.Program.{minus_one};
ghost use Rattle.model.specs.Listing.{fields_from, plain_line, operation_line, to16, fits16};
ghost use Rattle.listing_fields.specs.Views.{values_of, outcome_and_target, fits_of};

use crate::{BadText, MINUS, fields};

const LARGEST_OUTCOME: u32 = 65534;

const NO_OUTCOME: u32 = 65535;

// Whether one of the fields is -1.
fn has_minus(r: &[u32]) -> bool
    ensures { result ≡ any_of (eqb minus_one) r.now }
{
    r.contains(&MINUS)
}

// A line without -1.
fn plain_line(line: &[u8], r: &mut [u32]) -> Result<(), BadText>
    ensures { values_of result r.new ≡ bind (fields_from (length r.old) line.now) plain_line }
{
    fields(line, r)?;
    if has_minus(&r[..]) {
        return Err(BadText);
    }
    Ok(())
}

// An outcome or a target, or -1.
fn fits(v: u32) -> bool
    ensures { result ≡ fits16 v }
{
    (v == MINUS) | (v <= LARGEST_OUTCOME)
}

// An outcome or a target as the records have it.
fn in_record(v: u32) -> u32
    ensures { result ≡ to16 v }
{
    if v == MINUS { NO_OUTCOME } else { v }
}

// Outcome and target of an operation's fields.
fn outcome_and_target(r: &mut [u32]) -> Result<(), BadText>
    requires { length r.old ≡ 6 }
    ensures { values_of result r.new ≡ outcome_and_target r.old }
{
    let outcome = r[4];
    let target = r[5];
    if !fits(outcome) | !fits(target) | ((outcome == MINUS) & (r[0] != 1)) {
        return Err(BadText);
    }
    r[4] = in_record(outcome);
    r[5] = in_record(target);
    Ok(())
}

// An operation's line: -1 only in a plain rotation's outcome or in a target.
fn operation_line(line: &[u8], r: &mut [u32]) -> Result<(), BadText>
    requires { length r.old ≡ 6 }
    ensures { values_of result r.new ≡ bind (fields_from (length r.old) line.now) operation_line }
{
    fields(line, r)?;
    if has_minus(&r[..4]) {
        return Err(BadText);
    }
    outcome_and_target(r)
}

// A line of a record: an operation's, or one without -1.
// `operation` says which columns the line has; no value goes with it.
pub fn line(line: &[u8], operation: bool, r: &mut [u32]) -> Result<(), BadText>
    requires { operation ≡ true → length r.old ≡ 6 }
    ensures { values_of result r.new ≡
        bind (fields_from (length r.old) line.now) (fits_of operation) }
{
    if operation {
        return operation_line(line, r);
    }
    plain_line(line, r)
}
