// The kind 1 record that a region file starts with.
ghost use Rattle.std.specs.Prelude.{◌≡◌};
ghost use Rattle.answer.specs.Refusals.{code};
ghost use Rattle.format.specs.Records.{width_of, first_at, width_fault};

use super::bytes::u16_at;
use super::frame::Framed;
use super::limits::{LENGTH, WIDTH_KIND, WIDTH_LENGTH};
use answer::Refusal;
use cube::WIDEST;

// The width that the record states.
pub(crate) fn width_of(s: &[u8]) -> usize
    ensures { result ≡ width_of s.now }
{
    usize::from(u16_at(s, 4))
}

// Where the records of differences begin.
pub fn first_at(s: &[u8]) -> usize
    ensures { result ≡ first_at s.now }
{
    LENGTH + usize::from(u16_at(s, 0))
}

// What is wrong with the record.
pub(crate) fn width_fault(s: &[u8]) -> Result<(), Refusal>
    ensures { code result ≡ width_fault s.now }
{
    let record = Framed::read(s, 0);
    record.frame_fault(WIDTH_KIND)?;
    if usize::from(record.front.length) != WIDTH_LENGTH {
        return Err(Refusal::Length);
    }
    let w = width_of(s);
    if w == 0 {
        return Err(Refusal::Width);
    }
    if WIDEST < w {
        return Err(Refusal::Width);
    }
    Ok(())
}
