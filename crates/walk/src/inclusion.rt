// Whether each header of one difference is in another, or one that is not.
ghost use Rattle.std.specs.Prelude.{◌≡◌, ◌+◌, ◌^◌, ◌≤◌, ◌<◌, map, length};
ghost use Rattle.model.specs.Cube.{meet};
ghost use Rattle.model.specs.Walk.{visit, walk_back, walks_less};
ghost use Rattle.format.specs.Limits.{widest_cube};
ghost use Rattle.format.specs.Bytes.{codes};
ghost use Rattle.format.specs.Told.{over};
ghost use Rattle.format.specs.Calls.{diff_in};
ghost use Rattle.cube.specs.Whole.{cube_of};
ghost use Rattle.cube.specs.Row.{slices};
ghost use Rattle.region.specs.Difference.{difference_of};
ghost use Rattle.visits.specs.Settle.{settle, says};
ghost use Rattle.walk.specs.Lent.{less_cuts};
ghost use Rattle.walk.specs.Ending.{Ended};

use super::record::{piece_of, visit};
use super::stop::{Stop, covered, fresh};
use super::told::tell;
use answer::{Answer, Refusal};
use cube::{Row, WIDEST_CUBE, header_len, meet_into, meets, put};
use region::{Difference, MOST_CUTS, two_differences};
use visits::{Allowance, Outcome, Verdict};

// The bytes of the cuts of a difference, and of one cut more.
const GATHERED: usize = (MOST_CUTS + 1) * WIDEST_CUBE;

// The meet of two cubes, as a piece.
fn met(base: &[u8], cut: &[u8]) -> [u8; WIDEST_CUBE]
    requires { (length base.now ≡ length cut.now) × (length base.now ≤ widest_cube) }
    ensures { cube_of (length base.now) result ≡ meet (codes base.now) (codes cut.now) }
{
    let mut piece = [255u8; WIDEST_CUBE];
    meet_into(base, cut, &mut piece);
    piece
}

// Two differences of cubes with as many bytes: the one that is asked about, and the one that is subtracted from it.
#[derive(Clone, Copy, Debug, PartialEq, Eq)]
struct Pair<'a> {
    first: Difference<'a>,
    second: Difference<'a>,
    ghost alike: { length first.base.now ≡ length second.base.now },
}

impl Pair<'_> {
    // The cuts of the first, and the base of the second as one more behind them.
    fn gathered(self) -> [u8; GATHERED]
        ensures { map codes (slices (length self.entry.first.base.now) result (self.entry.first.cuts.count + 1)) ≡ less_cuts (difference_of self.entry.first) (difference_of self.entry.second) }
    {
        let cuts = self.first.cuts;
        let n = cuts.count * cuts.size;
        let mut all = [255u8; GATHERED];
        put(&mut all, 0, &cuts.bytes[..n]);
        put(&mut all, n, self.second.base);
        all
    }

    // Walks the first piece: the base of the first, less its cuts and the base of the second.
    fn walk_first(self, a: Allowance) -> Outcome<[u8; WIDEST_CUBE]>
        requires { a.left + a.spent < 2 ^ 32 }
        ensures { says (length self.entry.first.base.now) result ≡ settle a (visit (less_cuts (difference_of self.entry.first) (difference_of self.entry.second)) (codes self.entry.first.base.now)) }
    {
        let all = self.gathered();
        let cuts = Row {
            bytes: &all,
            size: self.first.cuts.size,
            count: self.first.cuts.count + 1,
        };
        visit(piece_of(self.first.base), cuts, a)
    }

    // Walks what a cut gives back of the first: nothing where it shares no header with its base.
    fn walk_back(self, cut: &[u8], a: Allowance) -> Outcome<[u8; WIDEST_CUBE]>
        requires { (length self.first.base.now ≡ length cut.now) × (a.left + a.spent < 2 ^ 32) }
        ensures { says (length self.entry.first.base.now) result ≡ settle a (walk_back (difference_of self.entry.first) (codes cut.now)) }
    {
        let base = self.first.base;
        let piece = met(base, cut);
        if !meets(base, cut) {
            return Outcome {
                allowance: a,
                verdict: Verdict::Covered,
                piece,
            };
        }
        visit(piece, self.first.cuts, a)
    }

    // Walks what the cuts of the second give back of the first, one after another on one allowance, up to the first that is not covered. The first piece,
    // which is walked before, is counted.
    fn walk_restored(self, a: Allowance) -> Result<Allowance, Stop>
        requires { a.left + a.spent < 2 ^ 32 }
        ensures { Ended (length self.entry.first.base.now) a 1 (map (walk_back (difference_of self.entry.first)) (difference_of self.entry.second).cuts) result }
    {
        let mut left = a;
        for (i, cut) in self.second.cuts.enumerate() {
            left = covered(self.walk_back(cut, left), 1 + i as u16)?;
        }
        Ok(left)
    }

    // Walks the untidied pieces of the first less the second in their order on one allowance, up to the first that is not covered.
    fn walk_less(self, a: Allowance) -> Result<Allowance, Stop>
        requires { a.left + a.spent < 2 ^ 32 }
        ensures { Ended (length self.entry.first.base.now) a 0 (walks_less (difference_of self.entry.first) (difference_of self.entry.second)) result }
    {
        let left = covered(self.walk_first(a), 0)?;
        self.walk_restored(left)
    }
}

// Whether each header of the difference in the record s is in that of t: yes; no, and a header that is in the first and not in the second is written
// over the front of out; or undecided within the allowance.
pub fn diff_in(w: usize, s: &[u8], t: &[u8], allowance: u32, out: &mut [u8]) -> Answer
    ensures answer { result ≡ (diff_in w s.now t.now allowance (length out.old)).answer }
    ensures bytes { out.new ≡ over out.old (diff_in w s.now t.now allowance (length out.old)).bytes }
{
    let (first, second) = match two_differences(w, s, t) {
        Ok(pair) => pair,
        Err(refusal) => return refusal,
    };
    if out.len() < header_len(w) {
        return Refusal::Room.into();
    }
    let pair = Pair { first, second };
    tell(pair.walk_less(fresh(allowance)), w, out)
}
