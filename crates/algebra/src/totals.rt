// What is counted of a result.
ghost use Rattle.std.specs.Prelude.{◌+◌, ◌*◌, ◌≤◌};
ghost use Rattle.format.specs.Limits.{most_differences};
ghost use Rattle.region.specs.Writing.{longest_record};

use super::piece::Piece;
use answer::Refusal;
use region::{MOST_CUTS, MOST_DIFFERENCES};

// How many differences there are, and the bytes of their records. A result with too many differences is counted to the first that is too much, and after
// that only looked through for one with too many cuts.
#[derive(Clone, Copy, Debug, PartialEq, Eq)]
pub(crate) struct Totals {
    pub(crate) count: usize,
    pub(crate) size: usize,
    ghost few: { count ≤ most_differences + 1 },
    ghost small: { size ≤ longest_record * count },
}

impl Totals {
    ghost use Rattle.std.specs.Prelude.{◌≡◌, [], ◌∷◌};
    ghost use Rattle.algebra.specs.Tidied.{difference_in};
    ghost use Rattle.algebra.specs.Totals.{Adds};

    // Nothing is counted yet.
    pub(crate) fn new() -> Totals
        ensures { (result.count ≡ 0) × (result.size ≡ 0) }
    {
        Totals { count: 0, size: 0 }
    }

    // Counts the difference of a piece more, and writes it behind the others, if it fits there. A difference with too many cuts refuses the whole.
    pub(crate) fn add(self, piece: &Piece, out: &mut [u8]) -> Result<Totals, Refusal>
        ensures { Adds piece.now.size (difference_in piece.now ∷ []) out.old self out.new result }
    {
        if MOST_CUTS < piece.kept {
            return Err(Refusal::Cuts);
        }
        if MOST_DIFFERENCES < self.count {
            return Ok(self);
        }
        Ok(Totals {
            count: self.count + 1,
            size: piece.put_behind(out, self.size),
        })
    }
}
