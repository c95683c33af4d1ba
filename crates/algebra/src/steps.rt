// The records of one operand and the stops in the other, in their order.
ghost use Rattle.std.specs.Prelude.{◌≤◌};
ghost use Rattle.format.specs.Limits.{widest_cube};

use super::stop::{Operation, Stop, stop_at};
use region::{Front, front_at};

// The fronts of the records of s, from an offset on.
#[derive(Drop, Debug, PartialEq, Eq)]
pub(crate) struct Fronts<'a> {
    pub(crate) s: &'a [u8],
    pub(crate) at: usize,
}

impl<'a> Iterator for Fronts<'a> {
    ghost use Rattle.std.specs.Iterator.{item_count, YieldsFirst};
    ghost use Rattle.algebra.specs.Steps.{fronts_of};

    type Item = Front;

    ghost next_gives = { YieldsFirst fronts_of };

    ghost remaining = { item_count fronts_of };

    fn next(&mut self) -> Option<Front> {
        if self.s.len() <= self.at {
            return None;
        }
        let front = front_at(self.s, self.at);
        self.at = front.next;
        Some(front)
    }
}

// The stops of an operation in t, from an offset on.
#[derive(Drop, Debug, PartialEq, Eq)]
pub(crate) struct Stops<'a> {
    pub(crate) operation: Operation,
    pub(crate) size: usize,
    pub(crate) t: &'a [u8],
    pub(crate) at: usize,
    ghost some: { 1 ≤ size },
    ghost narrow: { size ≤ widest_cube },
}

impl<'a> Iterator for Stops<'a> {
    ghost use Rattle.std.specs.Iterator.{item_count, YieldsFirst};
    ghost use Rattle.algebra.specs.Steps.{stops_of};

    type Item = Stop;

    ghost next_gives = { YieldsFirst stops_of };

    ghost remaining = { item_count stops_of };

    fn next(&mut self) -> Option<Stop> {
        if self.t.len() <= self.at {
            return None;
        }
        let stop = stop_at(self.operation, self.size, self.t, self.at);
        self.at = stop.next;
        Some(stop)
    }
}
