// The walk over words: the piece and the cuts are brought into words, visited there, and what survives is brought back.
ghost use Rattle.std.specs.Prelude.{◌≡◌, suc, ◌≤◌, ◌<◌, true, cond, length};
ghost use Rattle.model.specs.Cube.{shares};
ghost use Rattle.model.specs.Walk.{visit};
ghost use Rattle.cube.specs.Whole.{cube_of};
ghost use Rattle.visits.specs.Cuts.{cubes_of};
ghost use Rattle.visits.specs.Settle.{settle, says};
ghost use Rattle.visits.specs.Words.{cube_of_words, row_cube, cuts_below};
ghost use Rattle.visits.specs.Alive.{Alive, Against};
ghost use Rattle.visits.specs.Memory.{Memory};
ghost use Rattle.visits.specs.Replies.{tells};

use super::alive::{after_top, top};
use super::allowance::{Outcome, Purse};
use super::cuts::Cuts;
use super::fast;
use super::load::{cut_of, load, load_cuts};
use super::memory::{EMPTY, Slot};
use super::reply::{Reply, in_bytes, last};
use super::table::{alive_of, enter_all};
use cube::meets;

// Visits a piece that meets those of the cuts below n that have a digit in `alive`, and the cut n as well where it is the `first`.
fn begin(
    p: [u64; 10],
    n: usize,
    first: bool,
    alive: u64,
    a: Purse,
    cuts: &[[u64; 10]],
    against: &[u64; 640],
    slots: &mut [Slot],
) -> Reply
    requires { (n < length cuts.now) × (first ≡ true → shares (cube_of_words p) (row_cube cuts.now n) ≡ true) × Alive cuts.now n (cube_of_words p) alive × Against cuts.now n against.now × Memory cuts.now slots.old }
    ensures { tells result ≡ settle a.allowance (visit (cuts_below cuts.now (cond first (suc n) n)) (cube_of_words p)) }
{
    if first {
        return fast::visit(p, n, alive, a, cuts, against, slots);
    }
    if alive == 0 {
        return last(a, p);
    }
    let m = top(alive);
    fast::visit(p, m, after_top(alive, m), a, cuts, against, slots)
}

// As `visit`, over words.
pub(crate) fn long_walk(piece: [u8; 80], cuts: Cuts, a: Purse) -> Outcome<[u8; 80]>
    ensures { says cuts.entry.row.size result ≡ settle a.allowance (visit (cubes_of cuts.entry.row) (cube_of cuts.entry.row.size piece)) }
{
    let row = cuts.row;
    let base = &piece[..row.size];
    let mut table = [[0u64; 10]; 65];
    load_cuts(&mut table, cuts);
    // The last 64 cuts have a digit.
    let n = row.count.min(64);
    let mut against = [0u64; 640];
    enter_all(&mut against, &table, n);
    let alive = alive_of(base, row, n);
    let first = n < row.count && meets(base, cut_of(row, n));
    let mut slots = [EMPTY; 251];
    in_bytes(begin(load(base), n, first, alive, a, &table, &against, &mut slots))
}
