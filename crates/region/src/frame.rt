// What every record starts with: its length and its kind.
ghost use Rattle.std.specs.Prelude.{◌≡◌};
ghost use Rattle.answer.specs.Refusals.{code};
ghost use Rattle.format.specs.Rows.{outcome};
ghost use Rattle.format.specs.Records.{frame_rows};
ghost use Rattle.region.specs.Front.{FrontIs};

use super::front::{Front, front_at};
use answer::Refusal;

// A record that is to be read: the bytes that it stands in, its offset there, and its front.
#[derive(Clone, Copy, Debug, PartialEq, Eq)]
pub(crate) struct Framed<'a> {
    pub(crate) bytes: &'a [u8],
    pub(crate) at: usize,
    pub(crate) front: Front,
    ghost here: { FrontIs bytes.now at front },
}

impl<'a> Framed<'a> {
    pub(crate) fn read(bytes: &'a [u8], at: usize) -> Framed<'a>
        ensures { (result.bytes ≡ bytes.entry) × (result.at ≡ at) }
    {
        Framed {
            bytes,
            at,
            front: front_at(bytes, at),
        }
    }

    // What is wrong with its length or its kind.
    pub(crate) fn frame_fault(self, kind: u16) -> Result<(), Refusal>
        ensures { code result ≡ outcome (frame_rows kind self.entry.bytes.now self.entry.at) }
    {
        let end = self.bytes.len();
        if end < 2 {
            return Err(Refusal::CutShort);
        }
        if end - 2 < self.at {
            return Err(Refusal::CutShort);
        }
        if end - 2 - self.at < usize::from(self.front.length) {
            return Err(Refusal::CutShort);
        }
        if self.front.length < 2 {
            return Err(Refusal::Length);
        }
        if self.front.kind != kind {
            return Err(Refusal::Kind);
        }
        Ok(())
    }
}
