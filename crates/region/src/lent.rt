// A single record that is lent: what it is refused with, as every call on it says it, and its difference.
ghost use Rattle.std.specs.Prelude.{◌≡◌, ◌≤◌};
ghost use Rattle.answer.specs.Refusals.{Tested};
ghost use Rattle.format.specs.Limits.{widest};
ghost use Rattle.format.specs.Rows.{outcome};
ghost use Rattle.format.specs.Told.{record_tests, one_record, two_records};
ghost use Rattle.region.specs.Lent.{LentIs, BothLent};

use super::difference::Difference;
use super::front::front_at;
use super::record::alone_fault;
use answer::{Answer, Refusal};
use cube::{cube_len, width_refusal};

// The refusal of a record of w positions, which is the operand of that number.
pub fn record_refusal(w: usize, s: &[u8], operand: u8) -> Result<(), Answer>
    ensures { Tested (outcome (record_tests w s.now operand)) result }
{
    Refusal::of_lent(alone_fault(s, w), operand)
}

// The difference of a record beside a file of w positions, which is the operand of that number, or its refusal.
pub(crate) fn lent_difference<'a>(
    w: usize,
    s: &'a [u8],
    operand: u8,
) -> Result<Difference<'a>, Answer>
    requires { w ≤ widest }
    ensures { LentIs (outcome (record_tests w s.now operand)) w s.now result }
{
    record_refusal(w, s, operand)?;
    Ok(Difference::at(s, front_at(s, 0), cube_len(w)))
}

// The difference of the record beside a width given directly, or the refusal of either.
pub fn one_difference<'a>(w: usize, s: &'a [u8]) -> Result<Difference<'a>, Answer>
    ensures { LentIs (outcome (one_record w s.now)) w s.now result }
{
    width_refusal(w)?;
    lent_difference(w, s, 1)
}

// The refusal of a width given directly or of the record beside it.
pub fn one_refusal(w: usize, s: &[u8]) -> Result<(), Answer>
    ensures { Tested (outcome (one_record w s.now)) result }
{
    one_difference(w, s)?;
    Ok(())
}

// The refusal of a width given directly or of one of the two records beside it.
pub fn two_refusal(w: usize, s: &[u8], t: &[u8]) -> Result<(), Answer>
    ensures { Tested (outcome (two_records w s.now t.now)) result }
{
    one_refusal(w, s)?;
    record_refusal(w, t, 2)
}

// The differences of the two records beside a width given directly, or the refusal of one of them.
pub fn two_differences<'a>(
    w: usize,
    s: &'a [u8],
    t: &'a [u8],
) -> Result<(Difference<'a>, Difference<'a>), Answer>
    ensures { BothLent w s.now t.now result }
{
    let first = one_difference(w, s)?;
    let second = lent_difference(w, t, 2)?;
    Ok((first, second))
}
