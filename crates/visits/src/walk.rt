// The walk: plainly as long as it is short, and from the start over words where it is long.
ghost use Rattle.std.specs.Prelude.{◌≡◌, ◌-◌, ◌≤◌};
ghost use Rattle.model.specs.Walk.{visit};
ghost use Rattle.cube.specs.Whole.{cube_of};
ghost use Rattle.visits.specs.Cuts.{cubes_of};
ghost use Rattle.visits.specs.Settle.{settle, says};
ghost use Rattle.visits.specs.Walked.{walked, PossibleWalk, Resumed};

use super::allowance::{Allowance, Outcome, Purse, Verdict};
use super::cuts::Cuts;
use super::long::long_walk;
use super::visit::visit;
use cube::Row;

// How many pieces are visited plainly: as many as the words cost to set up.
const FEW: u32 = 100;

// What a visit on a smaller allowance says on the allowance a.
fn resumed(a: Allowance, mut r: Outcome<[u8; 80]>) -> Outcome<[u8; 80]>
    requires { (a.spent ≤ r.allowance.spent) × (r.allowance.spent - a.spent ≤ a.left) }
    ensures { Resumed a r result }
{
    let spent = r.allowance.spent;
    let left = a.left - (spent - a.spent);
    r.allowance = Allowance { left, spent };
    r
}

// As `visit`, and fast where the walk is long.
fn walk_within(piece: [u8; 80], cuts: Cuts, a: Purse) -> Outcome<[u8; 80]>
    ensures { says cuts.entry.row.size result ≡ settle a.allowance (visit (cubes_of cuts.entry.row) (cube_of cuts.entry.row.size piece)) }
{
    if a.allowance.left <= FEW {
        return visit(piece, cuts, a);
    }
    let few = Allowance {
        left: FEW,
        spent: a.allowance.spent,
    };
    let r = visit(piece, cuts, Purse::of(few));
    let Verdict::Undecided = r.verdict else {
        return resumed(a.allowance, r);
    };
    long_walk(piece, cuts, a)
}

// The cuts and the allowance of a walk, where it can be: its cubes are no wider than those of a header, its cuts no more than inclusion has, they stand in
// the bytes, and its allowance is one.
fn possible<'a>(
    s: &'a [u8],
    q: usize,
    at: usize,
    left: usize,
    a: Allowance,
) -> Option<(Cuts<'a>, Purse)>
    ensures { PossibleWalk s.entry q at left a result }
{
    if 80 < q {
        return None;
    }
    if 65 < left {
        return None;
    }
    a.left.checked_add(a.spent)?;
    let row = Row::new(s, at, q, left)?;
    Some((Cuts { row }, Purse::of(a)))
}

// Walks the piece in the first q bytes of `piece` with the `left` cuts of q bytes that stand in s from `at` on. Where that cannot be, nothing is visited.
pub fn walk(
    q: usize,
    piece: [u8; 80],
    s: &[u8],
    at: usize,
    left: usize,
    a: Allowance,
) -> Outcome<[u8; 80]>
    ensures { says q result ≡ walked q piece s.now at left a }
{
    let Some((cuts, purse)) = possible(s, q, at, left, a) else {
        return Outcome {
            allowance: a,
            verdict: Verdict::Undecided,
            piece,
        };
    };
    walk_within(piece, cuts, purse)
}
