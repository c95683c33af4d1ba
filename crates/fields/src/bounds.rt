// Where a field stands.
ghost use Rattle.answer.specs.Refusals.{Tested};
ghost use Rattle.format.specs.Rows.{outcome};
ghost use Rattle.fields.specs.Bounds.{field_tests};

use answer::{Answer, Refusal};
use cube::width_refusal;

// The refusal of a width given directly or of a field of n positions from s on. The field's end is never added up: it may not fit.
pub(crate) fn field_refusal(w: usize, s: usize, n: usize) -> Result<(), Answer>
    ensures { Tested (outcome (field_tests w s n)) result }
{
    width_refusal(w)?;
    if n == 0 || w < n || w - n < s {
        return Err(Refusal::Bounds.into());
    }
    Ok(())
}
