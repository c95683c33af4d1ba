// What stands in front of a record's cubes, read once. Only this and the writer know how a record is laid out.
ghost use Rattle.std.specs.Prelude.{◌<◌};
ghost use Rattle.region.specs.Front.{FrontIs};

use super::bytes::{byte_at, u16_at};
use super::limits::{FRONT, LENGTH};

// What the record at an offset says of itself: its length and its kind; and of a difference how many cuts it has, where its base starts and where it
// ends.
#[derive(Clone, Copy, Debug, PartialEq, Eq)]
pub struct Front {
    pub(crate) length: u16,
    pub(crate) kind: u16,
    pub cuts: usize,
    pub base: usize,
    pub next: usize,
}

// The front of the record at an offset. Bytes that the slice does not have are read as 0, and no offset goes beyond its end.
pub fn front_at(s: &[u8], at: usize) -> Front
    ensures { FrontIs s.now at result × (result.length < 65536) }
{
    let end = s.len();
    let start = at.min(end);
    let rest = &s[start..];
    let length = u16_at(rest, 0);
    Front {
        length,
        kind: u16_at(rest, 2),
        cuts: usize::from(byte_at(rest, 4)),
        base: end.min(start + FRONT),
        next: end.min(start + LENGTH + usize::from(length)),
    }
}
