// Why a call is refused.
ghost use Rattle.std.specs.Prelude.{◌≡◌};
ghost use Rattle.answer.specs.Answer.{fault, refused};
ghost use Rattle.answer.specs.Refusals.{number_of, LentAs};

use super::Answer;

// The refusals of FORMAT 35 to 49, with their numbers.
#[derive(Clone, Copy, Debug, PartialEq, Eq)]
pub enum Refusal {
    // A width that no header has.
    Width = 10,
    // Bytes of a header or a field's value that are too many or too few, or a bit that has to be zero.
    Bits = 11,
    // A lent cube with too many bytes or too few.
    CubeLength = 12,
    // A position with code 0.
    CodeZero = 13,
    // An unused place with another code than 3.
    UnusedPlace = 14,
    // A record that is cut short.
    CutShort = 15,
    // A kind that is not known, or not there.
    Kind = 16,
    // A length that does not fit its record.
    Length = 17,
    // More cuts than a difference may have.
    Cuts = 18,
    // More differences than a file may have.
    Differences = 19,
    // Files of two widths.
    TwoWidths = 20,
    // A field or a prefix out of its bounds.
    Bounds = 21,
    // Too little room in a lent buffer.
    Room = 22,
    // No difference, or no cube in it, of an index.
    Index = 23,
    // More input than a program takes.
    Input = 25,
}

impl Refusal {
    pub fn number(self) -> u8
        ensures { result ≡ number_of self }
    {
        self as u8
    }

    // The refusal of an operand, at the offset of the record at fault.
    pub fn of_operand(self, operand: u8, offset: usize) -> Answer
        ensures { result ≡ fault (number_of self) operand offset }
    {
        Answer::fault(self.number(), operand, offset)
    }

    // How the test of a lent cube or record ends, where it is known what is wrong with it: the fault is at its start.
    pub fn of_lent(tested: Result<(), Refusal>, operand: u8) -> Result<(), Answer>
        ensures { LentAs tested operand result }
    {
        match tested {
            Ok(()) => Ok(()),
            Err(refusal) => Err(refusal.of_operand(operand, 0)),
        }
    }
}

// The refusal that is of no operand.
impl From<Refusal> for Answer {
    ghost from_gives = { λ r a. a ≡ refused (number_of r) };

    fn from(refusal: Refusal) -> Answer {
        Answer::refused(refusal.number())
    }
}
