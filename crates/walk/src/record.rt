// The walk of a difference.
ghost use Rattle.std.specs.Prelude.{◌≡◌, ◌+◌, ◌^◌, ◌≤◌, ◌<◌, length, take};
ghost use Rattle.model.specs.Walk.{walk, visit};
ghost use Rattle.format.specs.Limits.{widest_cube, most_cuts};
ghost use Rattle.cube.specs.Whole.{cube_of};
ghost use Rattle.region.specs.Difference.{difference_of};
ghost use Rattle.visits.specs.Settle.{settle, says};
ghost use Rattle.visits.specs.Cuts.{cubes_of};

use cube::{Row, WIDEST_CUBE, put};
use region::Difference;
use visits::walk::walk;
use visits::{Allowance, Outcome};

// A cube as a piece.
pub(crate) fn piece_of(cube: &[u8]) -> [u8; WIDEST_CUBE]
    requires { length cube.now ≤ widest_cube }
    ensures { take (length cube.now) result ≡ cube.now }
{
    let mut piece = [255u8; WIDEST_CUBE];
    put(&mut piece, 0, cube);
    piece
}

// Visits the piece with those cuts left.
pub(crate) fn visit(
    piece: [u8; WIDEST_CUBE],
    cuts: Row<'_>,
    a: Allowance,
) -> Outcome<[u8; WIDEST_CUBE]>
    requires { (cuts.size ≤ widest_cube) × (cuts.count ≤ most_cuts + 1) × (a.left + a.spent < 2 ^ 32) }
    ensures { says cuts.entry.size result ≡ settle a (visit (cubes_of cuts.entry) (cube_of cuts.entry.size piece)) }
{
    walk(cuts.size, piece, cuts.bytes, 0, cuts.count, a)
}

// Walks a difference.
pub(crate) fn walk_record(d: Difference<'_>, a: Allowance) -> Outcome<[u8; WIDEST_CUBE]>
    requires { a.left + a.spent < 2 ^ 32 }
    ensures { says (length d.entry.base.now) result ≡ settle a (walk (difference_of d.entry)) }
{
    visit(piece_of(d.base), d.cuts, a)
}
