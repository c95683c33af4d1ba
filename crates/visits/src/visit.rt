// A visit: the piece, the cuts left, and the pieces that follow from them.
ghost use Rattle.std.specs.Prelude.{◌≡◌, ◌-◌, ◌≤◌};
ghost use Rattle.model.specs.Walk.{visit};
ghost use Rattle.format.specs.Bytes.{codes};
ghost use Rattle.cube.specs.Whole.{cube_of};
ghost use Rattle.visits.specs.Cuts.{cubes_of, SplitFirst, FirstMet};
ghost use Rattle.visits.specs.Settle.{settle, says};

use super::allowance::{Outcome, Purse, Verdict};
use super::cuts::Cuts;
use super::opening::next_open;
use cube::{Row, code_at, meets, set_code};

// The first cut, and the cuts after it.
fn split_first<'a>(cuts: Row<'a>) -> Option<(&'a [u8], Row<'a>)>
    ensures { SplitFirst cuts.entry result }
{
    let count = cuts.count.checked_sub(1)?;
    let (first, bytes) = cuts.bytes.split_at(cuts.size);
    Some((
        first,
        Row {
            bytes,
            size: cuts.size,
            count,
        },
    ))
}

// The first cut that shares a header with the piece, and the cuts after it.
fn first_met<'a>(piece: &[u8], cuts: Row<'a>) -> Option<(&'a [u8], Row<'a>)>
    ensures { FirstMet cuts.entry (codes piece.now) result }
{
    let mut rest = cuts;
    while let Some((cut, after)) = split_first(rest) {
        rest = after;
        if meets(piece, cut) {
            return Some((cut, rest));
        }
    }
    None
}

// The code of the other value.
fn other(y: u8) -> u8
    requires { y ≤ 3 }
    ensures { result ≡ 3 - y }
{
    3 - y
}

// Visits the piece, with the cuts left.
// Kept: the piece, the cuts and the purse are no struct, since a child has others of all three, and a short walk another purse.
pub(crate) fn visit(piece: [u8; 80], cuts: Cuts, a: Purse) -> Outcome<[u8; 80]>
    ensures { says cuts.entry.row.size result ≡ settle a.allowance (visit (cubes_of cuts.entry.row) (cube_of cuts.entry.row.size piece)) }
{
    if a.allowance.left == 0 {
        return Outcome {
            allowance: a.allowance,
            verdict: Verdict::Undecided,
            piece,
        };
    }
    let mut have = a.spend();
    let q = cuts.row.size;
    let Some((cut, rest)) = first_met(&piece[..q], cuts.row) else {
        return Outcome {
            allowance: have.allowance,
            verdict: Verdict::Survives,
            piece,
        };
    };
    let mut near = piece;
    let mut next = next_open(&near[..q], cut, 0);
    while let Some(i) = next {
        let y = code_at(cut, 0, i);
        set_code(&mut near, i, other(y));
        let reply = visit(near, Cuts { row: rest }, have);
        let Verdict::Covered = reply.verdict else {
            return reply;
        };
        have = Purse::of(reply.allowance);
        set_code(&mut near, i, y);
        next = next_open(&near[..q], cut, i / 4);
    }
    Outcome {
        allowance: have.allowance,
        verdict: Verdict::Covered,
        piece: near,
    }
}
