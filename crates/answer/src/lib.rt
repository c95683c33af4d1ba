// The result of every call, by value, with the six parts of FORMAT 26. It is made only by the functions below, which
// have the same names in specs/, so that a part can be added here and nowhere else.
#![tactic(auto)]

mod refusal;

ghost use Rattle.std.specs.Prelude.{◌≡◌};
ghost use Rattle.answer.specs.Answer.{accepted, yes, no, holding, refused, fault, counted, undecided, showing, wrote, placed};

pub use refusal::Refusal;

#[repr(C)]
#[derive(Clone, Copy, Debug, PartialEq, Eq)]
pub struct Answer {
    pub number: u8,
    pub operand: u8,
    pub offset: usize,
    pub count: u32,
    pub written: usize,
    pub index: u16,
}

// The index where no difference decided.
const NO_DIFFERENCE: u16 = 65535;

// No part says anything.
const NOTHING: Answer = Answer {
    number: 0,
    operand: 0,
    offset: 0,
    count: 0,
    written: 0,
    index: NO_DIFFERENCE,
};

impl Answer {
    // No refusal: what the tests of an operand give where none of them holds.
    pub fn accepted() -> Answer
        ensures { result ≡ accepted }
    {
        NOTHING
    }

    // Yes, to a question that counts nothing.
    pub fn yes() -> Answer
        ensures { result ≡ yes }
    {
        Answer {
            number: 1,
            ..NOTHING
        }
    }

    // No, to a question that shows nothing.
    pub fn no() -> Answer
        ensures { result ≡ no }
    {
        Answer {
            number: 2,
            ..NOTHING
        }
    }

    // Yes, to membership: the first difference that holds the header.
    pub fn holding(index: u16) -> Answer
        ensures { result ≡ holding index }
    {
        Answer {
            number: 1,
            index,
            ..NOTHING
        }
    }

    // A refusal that is of no operand.
    pub fn refused(number: u8) -> Answer
        ensures { result ≡ refused number }
    {
        Answer { number, ..NOTHING }
    }

    // A refusal of an operand, at the offset of the record at fault.
    pub fn fault(number: u8, operand: u8, offset: usize) -> Answer
        ensures { result ≡ fault number operand offset }
    {
        Answer {
            number,
            operand,
            offset,
            ..NOTHING
        }
    }

    // A walk's yes, or the ceiling, with its count.
    pub fn counted(number: u8, count: u32) -> Answer
        ensures { result ≡ counted number count }
    {
        Answer {
            number,
            count,
            ..NOTHING
        }
    }

    // Undecided, with its count and the difference whose next visit the allowance does not pay for.
    pub fn undecided(count: u32, index: u16) -> Answer
        ensures { result ≡ undecided count index }
    {
        Answer {
            number: 3,
            count,
            index,
            ..NOTHING
        }
    }

    // A walk's no, with its count, the bytes of the header that it shows, and the difference that it is in.
    pub fn showing(count: u32, written: usize, index: u16) -> Answer
        ensures { result ≡ showing count written index }
    {
        Answer {
            number: 2,
            count,
            written,
            index,
            ..NOTHING
        }
    }

    // Written, and how many bytes.
    pub fn wrote(written: usize) -> Answer
        ensures { result ≡ wrote written }
    {
        Answer { written, ..NOTHING }
    }

    // A difference that reading on gives, with its record's offset.
    pub fn placed(offset: usize) -> Answer
        ensures { result ≡ placed offset }
    {
        Answer {
            number: 1,
            offset,
            ..NOTHING
        }
    }
}
