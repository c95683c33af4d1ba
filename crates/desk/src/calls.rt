// The calls with their arguments, and what each asks of the library.
use crate::words::Words;
use answer::Answer;

// An operand and its width.
#[derive(Clone, Copy, Debug, PartialEq, Eq)]
pub(crate) struct One<'a> {
    w: usize,
    a: &'a [u8],
}

// Two operands and their width.
#[derive(Clone, Copy, Debug, PartialEq, Eq)]
pub(crate) struct Two<'a> {
    w: usize,
    a: &'a [u8],
    b: &'a [u8],
}

// Two operands that say their width themselves.
#[derive(Clone, Copy, Debug, PartialEq, Eq)]
pub(crate) struct Files<'a> {
    a: &'a [u8],
    b: &'a [u8],
}

// A width and three numbers, which say where fields lie.
#[derive(Clone, Copy, Debug, PartialEq, Eq)]
pub(crate) struct Fields {
    w: usize,
    x: usize,
    y: usize,
    z: usize,
}

// A call with its arguments, in the order of their words.
#[derive(Clone, Copy, Debug, PartialEq, Eq)]
pub(crate) enum Call<'a> {
    CubeMeet(Two<'a>),
    CubeIn(Two<'a>),
    Wider(Two<'a>),
    DiffMember(Two<'a>),
    RegionMember(Files<'a>),
    DiffIntersect(Two<'a>),
    RegionIntersect(Files<'a>),
    DiffLess(Two<'a>),
    RegionLess(Files<'a>),
    DiffEmpty(One<'a>, u32),
    RegionEmpty(&'a [u8], u32),
    DiffIn(Two<'a>, u32),
    Ceiling(One<'a>),
    RegionTidy(&'a [u8]),
    Prefix(Fields, &'a [u8]),
    EqualFields(Fields),
    View(&'a [u8], usize, usize),
    ReadOn(&'a [u8], usize),
}

// What a call hands beside its result.
#[derive(Clone, Copy, Debug, PartialEq, Eq)]
pub(crate) enum Beside<'a> {
    // The bytes that it writes.
    Written,
    // A cube that is lent.
    Cube(&'a [u8]),
    // A cube of a file, and where it starts.
    Stretch(&'a [u8], usize),
    // The next place.
    Place(usize),
}

// Kept: one reader for each list of arguments, since a match that read them all would be too long for one proof.
impl<'a> One<'a> {
    fn read(words: &mut Words<'a>) -> Option<One<'a>> {
        let w = words.number()?;
        let a = words.operand()?;
        Some(One { w, a })
    }
}

impl<'a> Two<'a> {
    fn read(words: &mut Words<'a>) -> Option<Two<'a>> {
        let w = words.number()?;
        let a = words.operand()?;
        let b = words.operand()?;
        Some(Two { w, a, b })
    }
}

impl<'a> Files<'a> {
    fn read(words: &mut Words<'a>) -> Option<Files<'a>> {
        let a = words.operand()?;
        let b = words.operand()?;
        Some(Files { a, b })
    }
}

impl Fields {
    fn read(words: &mut Words<'_>) -> Option<Fields> {
        let w = words.number()?;
        let x = words.number()?;
        let y = words.number()?;
        let z = words.number()?;
        Some(Fields { w, x, y, z })
    }
}

// Kept as a match for reading and one for asking: a trait would take a type and two methods for each of the 18 calls, and say no more.
impl<'a> Call<'a> {
    // The call of a name, whose arguments are the next words.
    fn read(name: &[u8], words: &mut Words<'a>) -> Option<Call<'a>> {
        Some(match name {
            b"cube_meet" => Call::CubeMeet(Two::read(words)?),
            b"cube_in" => Call::CubeIn(Two::read(words)?),
            b"wider" => Call::Wider(Two::read(words)?),
            b"diff_member" => Call::DiffMember(Two::read(words)?),
            b"region_member" => Call::RegionMember(Files::read(words)?),
            b"diff_intersect" => Call::DiffIntersect(Two::read(words)?),
            b"region_intersect" => Call::RegionIntersect(Files::read(words)?),
            b"diff_less" => Call::DiffLess(Two::read(words)?),
            b"region_less" => Call::RegionLess(Files::read(words)?),
            b"diff_empty" => Call::DiffEmpty(One::read(words)?, words.allowance()?),
            b"region_empty" => Call::RegionEmpty(words.operand()?, words.allowance()?),
            b"diff_in" => Call::DiffIn(Two::read(words)?, words.allowance()?),
            b"ceiling" => Call::Ceiling(One::read(words)?),
            b"region_tidy" => Call::RegionTidy(words.operand()?),
            b"prefix" => Call::Prefix(Fields::read(words)?, words.operand()?),
            b"equal_fields" => Call::EqualFields(Fields::read(words)?),
            b"view" => Call::View(words.operand()?, words.number()?, words.number()?),
            b"read_on" => Call::ReadOn(words.operand()?, words.number()?),
            _ => return None,
        })
    }

    // Whether a buffer is lent to the call.
    fn writes(self) -> bool {
        !matches!(
            self,
            Call::CubeIn(..)
                | Call::Wider(..)
                | Call::DiffMember(..)
                | Call::RegionMember(..)
                | Call::Ceiling(..)
                | Call::View(..)
                | Call::ReadOn(..)
        )
    }

    // Asks the call, once: its result, and what it hands beside it.
    pub(crate) fn ask(self, out: &mut [u8]) -> (Answer, Beside<'a>) {
        let answer = match self {
            Call::CubeMeet(Two { w, a, b }) => cube::cube_meet(w, a, b, out),
            Call::CubeIn(Two { w, a, b }) => cube::cube_in(w, a, b),
            Call::Wider(Two { w, a, b }) => {
                let answer = cube::wider_number(w, a, b);
                return (answer, Beside::Cube(cube::wider(w, a, b)));
            }
            Call::DiffMember(Two { w, a, b }) => region::diff_member(w, a, b),
            Call::RegionMember(Files { a, b }) => region::region_member(a, b),
            Call::DiffIntersect(Two { w, a, b }) => algebra::diff_intersect(w, a, b, out),
            Call::RegionIntersect(Files { a, b }) => algebra::region_intersect(a, b, out),
            Call::DiffLess(Two { w, a, b }) => algebra::diff_less(w, a, b, out),
            Call::RegionLess(Files { a, b }) => algebra::region_less(a, b, out),
            Call::DiffEmpty(One { w, a }, allowance) => walk::diff_empty(w, a, allowance, out),
            Call::RegionEmpty(a, allowance) => walk::region_empty(a, allowance, out),
            Call::DiffIn(Two { w, a, b }, allowance) => walk::diff_in(w, a, b, allowance, out),
            Call::Ceiling(One { w, a }) => walk::ceiling(w, a),
            Call::RegionTidy(a) => algebra::region_tidy(a, out),
            Call::Prefix(Fields { w, x, y, z }, value) => fields::prefix(w, x, y, z, value, out),
            Call::EqualFields(Fields { w, x, y, z }) => fields::equal_fields(w, x, y, z, out),
            Call::View(file, d, i) => {
                let view = region::stretch_of(file, d, i);
                let cube = &file[view.start..view.start + view.size];
                return (view.answer, Beside::Stretch(cube, view.start));
            }
            Call::ReadOn(file, place) => {
                let step = region::read_on(file, place);
                return (step.answer, Beside::Place(step.place));
            }
        };
        (answer, Beside::Written)
    }
}

// A question is a call, and the room of the buffer that is lent to it, which is 0 where none is.
#[derive(Clone, Copy, Debug, PartialEq, Eq)]
pub(crate) struct Question<'a> {
    pub(crate) call: Call<'a>,
    pub(crate) room: usize,
}

impl<'a> Question<'a> {
    // The question of a line, where it is one.
    pub(crate) fn read(line: &'a mut [u8]) -> Option<Question<'a>> {
        let mut words = Words::new(line);
        let name = words.word()?;
        let call = Call::read(name, &mut words)?;
        let room = if call.writes() { words.room()? } else { 0 };
        words.is_empty().then_some(Question { call, room })
    }
}
