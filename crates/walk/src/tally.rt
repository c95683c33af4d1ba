// What the cuts of a difference count for its ceiling, and the ceiling of the count.
ghost use Rattle.std.specs.Prelude.{◌≡◌, List, [], ◌∷◌, ◌+◌, ◌≤◌, ◌<◌, length};
ghost use Rattle.model.specs.Cube.{Cube};
ghost use Rattle.model.specs.Difference.{less};
ghost use Rattle.model.specs.Ceiling.{ceiling, most_pieces, capped};
ghost use Rattle.format.specs.Limits.{widest_cube};
ghost use Rattle.format.specs.Bytes.{codes};

use super::bounds::{opened_by, power, raised};
use cube::{WIDEST_CUBE, meet_into, meets};

// A base; and of the cuts counted: the first bound, capped; how many meet the base; and the AND of those that do, in which a position is free where
// none of them fixes it.
#[derive(Clone, Copy, Debug, PartialEq, Eq)]
pub(crate) struct Tally<'a> {
    pub(crate) base: &'a [u8],
    pub(crate) nested: u32,
    pub(crate) met: u32,
    pub(crate) kept: [u8; WIDEST_CUBE],
    ghost short: { length base.now ≤ widest_cube },
}

impl<'a> Tally<'a> {
    ghost use Rattle.walk.specs.Tally.{Tallied};

    // No cut is counted.
    pub(crate) fn new(base: &'a [u8]) -> Tally<'a>
        requires { length base.now ≤ widest_cube }
        ensures base { result.base ≡ base.entry }
        ensures counts { Tallied base.entry.now [] result }
        ensures none { result.met ≡ 0 }
    {
        Tally {
            base,
            nested: 1,
            met: 0,
            kept: [255u8; WIDEST_CUBE],
        }
    }

    // The tally with one cut more, in front of those counted.
    pub(crate) fn with(self, cut: &[u8]) -> Tally<'a>
        requires size { length self.base.now ≡ length cut.now }
        requires few { self.met < most_pieces }
        ensures base { result.base ≡ self.entry.base }
        ensures counts { (cs : List Cube) → Tallied self.entry.base.now cs self.entry → Tallied self.entry.base.now (codes cut.now ∷ cs) result }
        ensures few { result.met ≤ self.entry.met + 1 }
    {
        let base = self.base;
        if !meets(base, cut) {
            return self;
        }
        let was = self.kept;
        let mut kept = [255u8; WIDEST_CUBE];
        meet_into(&was[..base.len()], cut, &mut kept);
        Tally {
            base,
            nested: raised(opened_by(base, cut), self.nested),
            met: self.met + 1,
            kept,
        }
    }

    // The smaller of the two bounds, capped.
    pub(crate) fn smaller(self) -> u32
        ensures { (cs : List Cube) → Tallied self.entry.base.now cs self.entry → result ≡ capped (ceiling (less (codes self.entry.base.now) cs)) }
    {
        let base = self.base;
        let kept = self.kept;
        let over = raised(self.met, power(opened_by(base, &kept[..base.len()])));
        over.min(self.nested)
    }
}
