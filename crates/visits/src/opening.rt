// The positions that a cut fixes and a piece leaves free, in cubes of bytes and of words alike.
ghost use Rattle.std.specs.Prelude.{◌≡◌, ℕ, List, ◌*◌, ◌^◌, ◌≤◌, ◌<◌};
ghost use Rattle.model.specs.Cube.{Cube};
ghost use Rattle.format.specs.Bytes.{codes};
ghost use Rattle.visits.specs.Opening.{FirstOpen};
ghost use Rattle.visits.specs.Words.{cube_of_words, Openings};
ghost use Rattle.visits.specs.Places.{CodesOf, Passed, byte-few, byte-codes, word-few, word-codes};

// A number whose places hold codes, and a cube in a row of such numbers.
pub(crate) trait Places: Copy {
    ghost PLACES: { ℕ };

    ghost word: { Self → ℕ };

    ghost cube: { List Self → Cube };

    const PLACES: usize;

    // The number as a word, whose last places are its own.
    fn word(self) -> u64
        ensures { (result ≡ word self) × (result < 2 ^ (2 * PLACES)) };

    ghost few: { PLACES ≤ 32 };

    ghost coded: { CodesOf PLACES word cube };
}

impl Places for u8 {
    ghost PLACES = { 4 };

    ghost word = { λ x. x };

    ghost cube = { codes };

    const PLACES: usize = 4;

    fn word(self) -> u64 {
        self.into()
    }

    ghost few = { byte-few };

    ghost coded = { byte-codes };
}

impl Places for u64 {
    ghost PLACES = { 32 };

    ghost word = { λ x. x };

    ghost cube = { cube_of_words };

    const PLACES: usize = 32;

    fn word(self) -> u64 {
        self
    }

    ghost few = { word-few };

    ghost coded = { word-codes };
}

// A digit 1 of base 4 for each place where a cut's word y opens a piece's word x.
fn open_marks(x: u64, y: u64) -> u64
    ensures { Openings x y result }
{
    x & (x >> 1) & (y ^ (y >> 1)) & 0x5555555555555555
}

// The first position that the cut opens; the numbers before `from` have none.
pub(crate) fn next_open<T: Places>(near: &[T], cut: &[T], from: usize) -> Option<usize>
    requires { Passed T.PLACES T.cube near.now cut.now from }
    ensures { FirstOpen (T.cube near.now) (T.cube cut.now) result }
{
    for b in from..near.len() {
        let marks = open_marks(near[b].word(), cut[b].word());
        if let Some(top) = marks.checked_ilog2() {
            return Some(T::PLACES * b + (T::PLACES - 1 - top as usize / 2));
        }
    }
    None
}
