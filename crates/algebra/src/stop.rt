// The stops of an operation in its second operand.
ghost use Rattle.std.specs.Prelude.{◌≡◌, ◌≤◌, ◌<◌, length};
ghost use Rattle.format.specs.Limits.{widest_cube};
ghost use Rattle.algebra.specs.Stops.{stop_at};

use region::front_at;

// What is done to the differences of the first operand; subtraction is given where the base of its single record starts.
// Kept: an enum and one match say the three stops side by side; a trait would need three types, and a law that says which of them each is.
#[derive(Clone, Copy, Debug, PartialEq, Eq)]
pub(crate) enum Operation {
    Tidy,
    Intersect,
    Less(usize),
}

// What a stop adds to a difference of the first operand: where a cube stands that the base is met with, if there is one, and a stretch of cuts. Then
// follows the next stop.
#[derive(Clone, Copy, Debug, PartialEq, Eq)]
pub(crate) struct Stop {
    pub(crate) meets: Option<usize>,
    pub(crate) from: usize,
    pub(crate) cuts: usize,
    pub(crate) next: usize,
}

// The stop at an offset.
pub(crate) fn stop_at(operation: Operation, q: usize, t: &[u8], x: usize) -> Stop
    requires { (q ≤ widest_cube) × (x < length t.now) }
    ensures { result ≡ stop_at operation q t.now x }
{
    match operation {
        Operation::Tidy => Stop {
            meets: None,
            from: 0,
            cuts: 0,
            next: t.len(),
        },
        Operation::Intersect => {
            let front = front_at(t, x);
            Stop {
                meets: Some(front.base),
                from: front.base + q,
                cuts: front.cuts,
                next: front.next,
            }
        }
        Operation::Less(base) => {
            if x == base {
                return Stop {
                    meets: None,
                    from: x,
                    cuts: 1,
                    next: x + q,
                };
            }
            Stop {
                meets: Some(x),
                from: 0,
                cuts: 0,
                next: x + q,
            }
        }
    }
}
