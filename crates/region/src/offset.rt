// From record to record by their lengths.
ghost use Rattle.std.specs.Prelude.{◌≡◌, length, get_or};
ghost use Rattle.format.specs.Records.{first_at};
ghost use Rattle.region.specs.Ahead.{ahead};

use super::front::front_at;
use super::width::first_at;

// The offset of difference d, as the records' lengths say, or the end of the file where there is none.
pub(crate) fn seek(s: &[u8], d: usize) -> usize
    ensures { result ≡ get_or (ahead s.now (first_at s.now)) d (length s.now) }
{
    let mut at = first_at(s);
    for _ in 0..d {
        at = front_at(s, at).next;
    }
    at.min(s.len())
}
