// The region reader: the file that is lent and a place in it, thin over `read_on`.
ghost use Rattle.std.specs.Prelude.{◌≡◌};
ghost use Rattle.format.specs.Calls.{read_on};
ghost use Rattle.region.specs.Viewing.{stepped};
ghost use Rattle.region.specs.Stepping.{begun, turned};

use super::steps::{Step, read_on};
use answer::Answer;

// A file that is read difference by difference, and the place of the next step.
#[derive(Clone, Copy, Debug, PartialEq, Eq)]
pub struct Reader<'a> {
    pub file: &'a [u8],
    pub place: usize,
}

// What a step of a reader gives: its result, and the reader with its next place.
#[derive(Clone, Copy, Debug, PartialEq, Eq)]
pub struct Turn<'a> {
    pub answer: Answer,
    pub reader: Reader<'a>,
}

// The reader of a file, before its first difference. It holds the very file that is lent.
pub fn begin_reading<'a>(file: &'a [u8]) -> Reader<'a>
    ensures { result ≡ begun file.entry }
{
    Reader { file, place: 0 }
}

// One step: what reading on gives at the reader's place, and the reader of the same file with its next place.
pub fn step_on<'a>(r: Reader<'a>) -> Turn<'a>
    ensures { result ≡ turned r.entry }
{
    let Step { answer, place } = read_on(r.file, r.place);
    Turn {
        answer,
        reader: Reader { place, ..r },
    }
}

// The first step of a file's reader, for a caller who has the file alone and keeps no reader.
pub fn first_step(file: &[u8]) -> Step
    ensures { stepped result ≡ read_on file.now 0 }
{
    let Turn { answer, reader } = step_on(begin_reading(file));
    Step {
        answer,
        place: reader.place,
    }
}
