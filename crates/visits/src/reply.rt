// What a visit over words gives back.
ghost use Rattle.std.specs.Prelude.{◌≡◌};
ghost use Rattle.visits.specs.Settle.{settle};
ghost use Rattle.visits.specs.Words.{cube_of_words};
ghost use Rattle.visits.specs.Replies.{tells, survives, Pays, InBytes};

use super::allowance::{Allowance, Outcome, Purse, Verdict};
use super::load::unload;

pub(crate) type Reply = Outcome<[u64; 10]>;

// A walk of k pieces in which nothing survives is paid for, as far as the allowance goes.
pub(crate) fn pay(have: Purse, k: u32, piece: [u64; 10]) -> Reply
    ensures { Pays k have.allowance result }
{
    let Allowance { left, spent } = have.allowance;
    if left < k {
        return Outcome {
            allowance: Allowance {
                left: 0,
                spent: spent + left,
            },
            verdict: Verdict::Undecided,
            piece,
        };
    }
    Outcome {
        allowance: Allowance {
            left: left - k,
            spent: spent + k,
        },
        verdict: Verdict::Covered,
        piece,
    }
}

// A visit of a piece that no cut meets.
pub(crate) fn last(have: Purse, piece: [u64; 10]) -> Reply
    ensures { tells result ≡ settle have.allowance (survives (cube_of_words piece)) }
{
    if have.allowance.left == 0 {
        return Outcome {
            allowance: have.allowance,
            verdict: Verdict::Undecided,
            piece,
        };
    }
    Outcome {
        allowance: have.spend().allowance,
        verdict: Verdict::Survives,
        piece,
    }
}

// A reply with its piece in bytes.
pub(crate) fn in_bytes(r: Reply) -> Outcome<[u8; 80]>
    ensures { InBytes r result }
{
    Outcome {
        allowance: r.allowance,
        verdict: r.verdict,
        piece: unload(&r.piece),
    }
}
