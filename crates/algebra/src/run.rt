// An operation over its operands: each difference of the first with each stop in the second, made in turn, counted, and written where it fits.
ghost use Rattle.std.specs.Prelude.{◌≡◌, ◌≤◌, length};
ghost use Rattle.format.specs.Limits.{widest};
ghost use Rattle.format.specs.Bytes.{cube_len};
ghost use Rattle.algebra.specs.Totals.{Stand, Stand-prop};

use super::piece::Piece;
use super::steps::{Fronts, Stops};
use super::stop::Operation;
use super::totals::Totals;
use answer::Refusal;
use cube::cube_len;
use region::Difference;

// An operation with its operands, whose headers have `width` positions: the records of s from one offset on, and the stops in t from another on. They
// all stand there.
#[derive(Clone, Copy, Debug, PartialEq, Eq)]
pub(crate) struct Task<'a> {
    pub(crate) operation: Operation,
    pub(crate) width: usize,
    pub(crate) s: &'a [u8],
    pub(crate) first: usize,
    pub(crate) t: &'a [u8],
    pub(crate) start: usize,
    ghost narrow: { width ≤ widest },
    ghost stand: { Stand operation (cube_len width) s.now first t.now start } by { Stand-prop operation (cube_len width) s.now first t.now start },
}

impl<'a> Task<'a> {
    ghost use Rattle.region.specs.Difference.{difference_of};
    ghost use Rattle.algebra.specs.Totals.{Counted, Adds};
    ghost use Rattle.algebra.specs.Results.{total_of, all_made};

    // Goes over all pairs of a difference and a stop, up to the first result with too many cuts. With no room in out nothing is written, and the result is
    // only counted.
    pub(crate) fn run(&self, out: &mut [u8]) -> Result<Totals, Refusal>
        ensures { Counted (cube_len self.now.width) (total_of self.now) out.old out.new result }
    {
        let mut piece = Piece::new(cube_len(self.width));
        let mut sum = Totals::new();
        let fronts = Fronts {
            s: self.s,
            at: self.first,
        };
        for front in fronts {
            let difference = Difference::new(self.s, front, piece.size).unwrap();
            sum = self.add_stops(difference, &mut piece, out, sum)?;
        }
        Ok(sum)
    }

    // Adds what one difference makes with each stop.
    fn add_stops(
        &self,
        difference: Difference,
        piece: &mut Piece,
        out: &mut [u8],
        sum: Totals,
    ) -> Result<Totals, Refusal>
        requires size { piece.old.size ≡ cube_len self.now.width }
        requires length { length difference.base.now ≡ piece.old.size }
        ensures adds { Adds piece.old.size (all_made self.now piece.old.size (difference_of difference.entry)) out.old sum out.new result }
        ensures size { piece.new.size ≡ piece.old.size }
    {
        let mut sum = sum;
        let stops = Stops {
            operation: self.operation,
            size: piece.size,
            t: self.t,
            at: self.start,
        };
        for stop in stops {
            if piece.make(difference, self.t, stop).is_some() {
                sum = sum.add(piece, out)?;
            }
        }
        Ok(sum)
    }
}
