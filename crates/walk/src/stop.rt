// How walks end that are walked one after another, and at which of them.
ghost use Rattle.std.specs.Prelude.{◌≡◌, ◌<◌, ◌+◌, ◌^◌};
ghost use Rattle.visits.specs.Settle.{says};
ghost use Rattle.walk.specs.Ending.{CoveredIs};

use cube::WIDEST_CUBE;
use visits::{Allowance, Outcome, Verdict};

// The walk that is not covered: the piece that survives it, or none where the allowance did not pay; how many pieces were paid for; and how many walks were
// covered before.
#[derive(Clone, Copy, Debug, PartialEq, Eq)]
pub(crate) struct Stop {
    pub(crate) survivor: Option<[u8; WIDEST_CUBE]>,
    pub(crate) spent: u32,
    pub(crate) index: u16,
}

// What the walk with that index leaves of the allowance where it is covered; else the walks stop with it.
pub(crate) fn covered(outcome: Outcome<[u8; WIDEST_CUBE]>, index: u16) -> Result<Allowance, Stop>
    ensures { CoveredIs outcome index result }
{
    let spent = outcome.allowance.spent;
    let survivor = match outcome.verdict {
        Verdict::Covered => return Ok(outcome.allowance),
        Verdict::Survives => Some(outcome.piece),
        Verdict::Undecided => None,
    };
    Err(Stop {
        survivor,
        spent,
        index,
    })
}

// The allowance with nothing spent.
pub(crate) fn fresh(left: u32) -> Allowance
    ensures { (result ≡ record { left = left; spent = 0 }) × (result.left + result.spent < 2 ^ 32) }
{
    Allowance { left, spent: 0 }
}
