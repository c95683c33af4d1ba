// The walk over words: a visit whose cost does not grow with the cuts passed, and no walk that found nothing twice.
ghost use Rattle.std.specs.Prelude.{◌≡◌, suc, ◌≤◌, ◌<◌, true, length};
ghost use Rattle.model.specs.Cube.{shares};
ghost use Rattle.model.specs.Walk.{visit};
ghost use Rattle.visits.specs.Settle.{settle};
ghost use Rattle.visits.specs.Words.{cube_of_words, row_cube, cuts_below};
ghost use Rattle.visits.specs.Alive.{Alive, Against};
ghost use Rattle.visits.specs.Memory.{Memory};
ghost use Rattle.visits.specs.Replies.{tells};

use super::alive::{after_top, narrow, top};
use super::allowance::{Outcome, Purse, Verdict};
use super::memory::{Slot, keep, look, slot_of};
use super::opening::next_open;
use super::reply::{Reply, last, pay};
use super::words::{given, number_in};

// Visits a piece that the cut n meets, with the cuts below n left: it meets those of them that have a digit in `live`.
pub(crate) fn visit(
    piece: [u64; 10],
    n: usize,
    live: u64,
    a: Purse,
    cuts: &[[u64; 10]],
    against: &[u64; 640],
    slots: &mut [Slot],
) -> Reply
    requires { (n < length cuts.now) × (shares (cube_of_words piece) (row_cube cuts.now n) ≡ true) × Alive cuts.now n (cube_of_words piece) live × Against cuts.now n against.now × Memory cuts.now slots.old }
    ensures said { tells result ≡ settle a.allowance (visit (cuts_below cuts.now (suc n)) (cube_of_words piece)) }
    ensures kept { Memory cuts.now slots.new }
{
    if a.allowance.left == 0 {
        return Outcome {
            allowance: a.allowance,
            verdict: Verdict::Undecided,
            piece,
        };
    }
    let mut have = a.spend();
    let mut near = piece;
    let mut met = live;
    let cut = &cuts[n];
    let mut next = next_open(&near, cut, 0);
    while let Some(i) = next {
        let w = i / 32;
        let x = near[w];
        let y = number_in(cut, i);
        near[w] = given(x, i % 32, 3 - y);
        let alive = narrow(met, against, i, 3 - y);
        if alive == 0 {
            return last(have, near);
        }
        let e = slot_of(alive);
        let known = look(slots, e, alive, &near);
        let reply = match known {
            Some(count) => pay(have, count, near),
            None => {
                let m = top(alive);
                visit(near, m, after_top(alive, m), have, cuts, against, slots)
            }
        };
        let Verdict::Covered = reply.verdict else {
            return reply;
        };
        if known.is_none() {
            let count = reply.allowance.spent - have.allowance.spent;
            keep(slots, e, &near, alive, count, cuts);
        }
        have = Purse::of(reply.allowance);
        near[w] = given(x, i % 32, y);
        met = narrow(met, against, i, y);
        next = next_open(&near, cut, w);
    }
    Outcome {
        allowance: have.allowance,
        verdict: Verdict::Covered,
        piece: near,
    }
}
