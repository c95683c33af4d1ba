// What the end of walks tells.
ghost use Rattle.std.specs.Prelude.{◌≡◌, ◌≤◌, length};
ghost use Rattle.format.specs.Limits.{widest};
ghost use Rattle.format.specs.Bytes.{header_len};
ghost use Rattle.format.specs.Told.{over};
ghost use Rattle.walk.specs.Tell.{told_of};

use super::stop::Stop;
use answer::Answer;
use cube::{header_len, show};
use visits::Allowance;

// The answer of walks; where a piece survives, the header that it shows is written over the front of out, which has room for it.
pub(crate) fn tell(end: Result<Allowance, Stop>, w: usize, out: &mut [u8]) -> Answer
    requires { (w ≤ widest) × (header_len w ≤ length out.old) }
    ensures answer { result ≡ (told_of w end).answer }
    ensures bytes { out.new ≡ over out.old (told_of w end).bytes }
{
    match end {
        Ok(left) => Answer::counted(1, left.spent),
        Err(stop) => match stop.survivor {
            None => Answer::undecided(stop.spent, stop.index),
            Some(piece) => {
                show(piece, w, out);
                Answer::showing(stop.spent, header_len(w), stop.index)
            }
        },
    }
}
