// What is handed from visit to visit.
ghost use Rattle.std.specs.Prelude.{◌≡◌, ◌+◌, ◌^◌, ◌<◌};
ghost use Rattle.visits.specs.Settle.{after};

// How many pieces may still be visited, and how many were.
#[derive(Clone, Copy, Debug, PartialEq, Eq)]
pub struct Allowance {
    pub left: u32,
    pub spent: u32,
}

// An allowance whose pieces, left and spent, can be counted together.
#[derive(Clone, Copy, Debug, PartialEq, Eq)]
pub(crate) struct Purse {
    pub(crate) allowance: Allowance,
    ghost counted: { allowance.left + allowance.spent < 2 ^ 32 },
}

impl Purse {
    // The allowance, where its pieces can be counted.
    pub(crate) fn of(allowance: Allowance) -> Self
        requires { allowance.left + allowance.spent < 2 ^ 32 }
        ensures { result.allowance ≡ allowance }
    {
        Purse { allowance }
    }

    // One piece is paid for.
    pub(crate) fn spend(self) -> Self
        requires { 0 < self.allowance.left }
        ensures { result.allowance ≡ after self.allowance 1 }
    {
        let mut a = self.allowance;
        a.left -= 1;
        a.spent += 1;
        Purse { allowance: a }
    }
}

// How a visit ends: its piece is covered, a piece survives, or a piece could not be paid for.
#[derive(Clone, Copy, Debug, PartialEq, Eq)]
pub enum Verdict {
    Covered,
    Survives,
    Undecided,
}

// What a visit gives back, its pieces being bytes or words. The piece is the one that survives, where one does.
#[derive(Clone, Copy, Debug, PartialEq, Eq)]
pub struct Outcome<P> {
    pub allowance: Allowance,
    pub verdict: Verdict,
    pub piece: P,
}
