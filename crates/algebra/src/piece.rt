// A piece of a result, tidied while its cuts are taken.
ghost use Rattle.std.specs.Prelude.{◌≡◌, ◌+◌, ◌*◌, ◌≤◌, length};
ghost use Rattle.format.specs.Limits.{widest_cube, taken_cuts};

use super::stop::Stop;
use cube::{Row, WIDEST_CUBE, equal, meet_into, meets, put};
use region::{Difference, TAKEN_CUTS, put_record, record_len};

// The bytes of a piece before it is tidied: its base, and the cuts of two differences.
const TAKEN: usize = (TAKEN_CUTS + 1) * WIDEST_CUBE;

// Cubes of `size` bytes each in a buffer: the base, and behind it the cuts that are kept so far.
#[derive(Drop)]
pub(crate) struct Piece {
    cubes: [u8; TAKEN],
    pub(crate) size: usize,
    pub(crate) kept: usize,
    ghost narrow: { size ≤ widest_cube },
    ghost few: { kept ≤ taken_cuts },
}

impl Piece {
    ghost use Rattle.std.specs.Prelude.{ℕ, [], ◌∷◌, ◌<◌, map, Some};
    ghost use Rattle.format.specs.Limits.{most_cuts, most_differences};
    ghost use Rattle.format.specs.Bytes.{codes};
    ghost use Rattle.cube.specs.Row.{slices_of};
    ghost use Rattle.region.specs.Difference.{difference_of};
    ghost use Rattle.region.specs.Writing.{longest_record};
    ghost use Rattle.algebra.specs.Tidied.{Taken, PutBehind};
    ghost use Rattle.algebra.specs.Stops.{bases_at, Room, Begun, MadeOf};

    // Room for a piece with cubes of a size.
    pub(crate) fn new(size: usize) -> Piece
        requires { size ≤ widest_cube }
        ensures { result.size ≡ size }
    {
        Piece {
            cubes: [0; TAKEN],
            size,
            kept: 0,
        }
    }

    // Begins with a base as it is, or met with the cube that stands in t at an offset; where they share no header there is no piece.
    fn begin(&mut self, base: &[u8], t: &[u8], meets_at: Option<usize>) -> Option<()>
        requires length { length base.now ≡ self.old.size }
        requires within { (x : ℕ) → meets_at ≡ Some x → x + self.old.size ≤ length t.now }
        ensures { Begun (bases_at self.old.size (codes base.now) t.now meets_at) self.old self.new result }
    {
        self.kept = 0;
        let Some(at) = meets_at else {
            put(&mut self.cubes, 0, base);
            return Some(());
        };
        let cube = &t[at..at + self.size];
        if !meets(base, cube) {
            return None;
        }
        meet_into(base, cube, &mut self.cubes);
        Some(())
    }

    // Takes a cut: what it shares with the base is kept behind the others, if it is none of them. A cut that covers the base leaves no piece.
    fn take(&mut self, cut: &[u8]) -> Option<()>
        requires length { length cut.now ≡ self.old.size }
        requires room { self.old.kept < taken_cuts }
        ensures { Taken self.old (codes cut.now ∷ []) self.new result }
    {
        let size = self.size;
        let count = self.kept;
        let cubes = &mut self.cubes;
        let (base, rest) = cubes.split_at_mut(size);
        if !meets(base, cut) {
            return Some(());
        }
        let (bytes, slot) = rest.split_at_mut(count * size);
        meet_into(base, cut, slot);
        let met = &slot[..size];
        if equal(met, base) {
            return None;
        }
        let mut row = Row { bytes, size, count };
        if row.any(|other| equal(met, other)) {
            return Some(());
        }
        self.kept = count + 1;
        Some(())
    }

    // Takes the cuts of a row in order.
    fn take_row(&mut self, row: Row) -> Option<()>
        requires size { row.size ≡ self.old.size }
        requires room { self.old.kept + row.count ≤ taken_cuts }
        ensures { Taken self.old (map codes (slices_of row.entry)) self.new result }
    {
        for cut in row {
            self.take(cut)?;
        }
        Some(())
    }

    // Makes the piece of a difference and a stop in t, and tidies it.
    pub(crate) fn make(&mut self, difference: Difference, t: &[u8], stop: Stop) -> Option<()>
        requires length { length difference.base.now ≡ self.old.size }
        requires room { Room self.old.size t.now stop }
        ensures { MadeOf (difference_of difference.entry) t.now stop self.old self.new result }
    {
        let size = self.size;
        self.begin(difference.base, t, stop.meets)?;
        self.take_row(difference.cuts)?;
        self.take_row(Row {
            bytes: &t[stop.from..],
            size,
            count: stop.cuts,
        })
    }

    // Writes the record of the piece's difference to an offset of out, if it fits there, and returns where it ends.
    pub(crate) fn put_behind(&self, out: &mut [u8], at: usize) -> usize
        requires few { self.now.kept ≤ most_cuts }
        requires low { at ≤ (most_differences + 1) * longest_record }
        ensures { PutBehind self.now at out.old result out.new }
    {
        let end = at + record_len(self.kept, self.size);
        if end <= out.len() {
            put_record(&mut out[at..], &self.cubes, self.kept, self.size);
        }
        end
    }
}
