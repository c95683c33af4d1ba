// The ceiling of a difference.
ghost use Rattle.std.specs.Prelude.{◌≡◌};
ghost use Rattle.model.specs.Ceiling.{ceiling, capped};
ghost use Rattle.format.specs.Calls.{ceiling_of};
ghost use Rattle.region.specs.Difference.{difference_of};

use super::tally::Tally;
use answer::Answer;
use region::{Difference, one_difference};

// The capped ceiling of a difference. One pass, the last cut first, counts for both bounds.
fn bound(d: Difference<'_>) -> u32
    ensures { result ≡ capped (ceiling (difference_of d.entry)) }
{
    let mut tally = Tally::new(d.base);
    for cut in d.cuts.rev() {
        tally = tally.with(cut);
    }
    tally.smaller()
}

// The ceiling of the difference in a record, as the count.
pub fn ceiling(w: usize, s: &[u8]) -> Answer
    ensures { result ≡ (ceiling_of w s.now).answer }
{
    match one_difference(w, s) {
        Ok(difference) => Answer::counted(0, bound(difference)),
        Err(refusal) => refusal,
    }
}
