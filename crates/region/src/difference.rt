// A difference in lent bytes.
ghost use Rattle.std.specs.Prelude.{◌≡◌, ◌≤◌, length};
ghost use Rattle.format.specs.Limits.{widest_cube, most_cuts};

use super::front::Front;
use super::limits::MOST_CUTS;
use super::member::lies_in_any;
use cube::{Row, WIDEST_CUBE, lies_in};

// Its base, and its cuts one after another, all of as many bytes.
#[derive(Clone, Copy, Debug, PartialEq, Eq)]
pub struct Difference<'a> {
    pub base: &'a [u8],
    pub cuts: Row<'a>,
    ghost alike: { cuts.size ≡ length base.now },
    ghost short: { length base.now ≤ widest_cube },
    ghost few: { cuts.count ≤ most_cuts },
}

impl<'a> Difference<'a> {
    ghost use Rattle.region.specs.Front.{Stands};
    ghost use Rattle.region.specs.Difference.{held_in, DifferenceOf, DifferenceIs};

    // The difference of the record in s with that front, its cubes of q bytes each, where such a record stands there.
    pub fn new(s: &'a [u8], front: Front, q: usize) -> Option<Difference<'a>>
        ensures { DifferenceIs q s.now front result }
    {
        if WIDEST_CUBE < q || MOST_CUTS < front.cuts {
            return None;
        }
        Row::new(s, front.base, q, front.cuts + 1)?;
        Some(Difference::at(s, front, q))
    }

    // The same, where one is known to stand there.
    pub(crate) fn at(s: &'a [u8], front: Front, q: usize) -> Difference<'a>
        requires { (q ≤ widest_cube) × Stands q s.now front }
        ensures { DifferenceOf q s.now front result }
    {
        let (base, bytes) = s[front.base..].split_at(q);
        let cuts = Row {
            bytes,
            size: q,
            count: front.cuts,
        };
        Difference { base, cuts }
    }

    // Whether the header that h spells as a cube is in the base and in no cut. Where fewer bytes are lent than a cube has, it is not.
    pub fn holds(self, h: &[u8]) -> bool
        ensures { result ≡ held_in h.now self.entry }
    {
        let Some(header) = h.get(..self.base.len()) else {
            return false;
        };
        lies_in(header, self.base) && !lies_in_any(header, self.cuts)
    }
}
