// The reader of a whole region file.
ghost use Rattle.std.specs.Prelude.{◌≡◌};
ghost use Rattle.answer.specs.Answer.{fault};
ghost use Rattle.answer.specs.Refusals.{number_of};
ghost use Rattle.region.specs.Reader.{FileIs};

use super::asking::{Asked, ask_file};
use answer::{Answer, Refusal};

// An accepted file: the width that kind 1 states, and how many differences it has.
#[derive(Clone, Copy, Debug, PartialEq, Eq)]
pub struct File {
    pub width: usize,
    pub count: usize,
}

// Why a file is refused, the offset of the record at fault, and the width that kind 1 states.
#[derive(Clone, Copy, Debug, PartialEq, Eq)]
pub struct Refused {
    pub refusal: Refusal,
    pub offset: usize,
    pub width: usize,
}

impl Refused {
    // What a call answers that is lent the file as an operand.
    pub fn of_operand(self, operand: u8) -> Answer
        ensures { result ≡ fault (number_of self.refusal) operand self.offset }
    {
        self.refusal.of_operand(operand, self.offset)
    }
}

// Reads a region file from its start to its end, record after record: as membership does, whose loop is the only one over records, so that the reader of
// records is compiled into it. The header that is asked for has no bytes, and no record holds it.
pub fn check_file(s: &[u8]) -> Result<File, Refused>
    ensures { FileIs s.now result }
{
    let Asked { width, count, .. } = ask_file(s, &[])?;
    Ok(File { width, count })
}
