// Equality of two fields: the difference of every header less, for each position, the headers whose two bits there differ.
ghost use Rattle.std.specs.Prelude.{◌≡◌, ◌+◌, ◌*◌, ◌≤◌, ◌<◌, length, set, replicate};
ghost use Rattle.model.specs.Cube.{free};
ghost use Rattle.format.specs.Limits.{widest};
ghost use Rattle.format.specs.Bytes.{cube_len, code_of, codes};
ghost use Rattle.format.specs.Told.{over};
ghost use Rattle.format.specs.Calls.{equal_fields};
ghost use Rattle.region.specs.Writing.{record_len};
ghost use Rattle.fields.specs.Equality.{most_pairs, equal_bytes};

use super::bounds::field_refusal;
use answer::{Answer, Refusal};
use cube::{cube_len, fill, set_code};
use region::{MOST_CUTS, front_len, put_front, record_len};

// The most positions that have cuts, two to each.
const MOST_PAIRS: usize = MOST_CUTS / 2;

// Makes a cube with two codes, free elsewhere.
fn put_apart(c: &mut [u8], p: usize, q: usize, x: u8, y: u8)
    ensures { codes c.new ≡ set (set (replicate (4 * length c.old) free) p (code_of x)) q (code_of y) }
{
    fill(c);
    set_code(c, p, x);
    set_code(c, q, y);
}

// The positions that have cuts, in a header of w positions: n from p on, each with the one as far from q on.
#[derive(Clone, Copy, Debug, PartialEq, Eq)]
struct Pairs {
    w: usize,
    p: usize,
    q: usize,
    n: usize,
    ghost narrow: { w ≤ widest },
    ghost first: { p + n ≤ w },
    ghost second: { q + n ≤ w },
}

impl Pairs {
    ghost use Rattle.model.specs.Fields.{apart, unequal};
    ghost use Rattle.format.specs.Bytes.{write_cube};
    ghost use Rattle.format.specs.Records.{cubes_bytes};
    ghost use Rattle.cube.specs.Lay.{laid};
    ghost use Rattle.fields.specs.Pairs.{PairsOf};

    // The positions of two fields of n positions, at p and at q. Where both start at the same position they are equal in every header: no position has cuts.
    fn of_fields(w: usize, p: usize, q: usize, n: usize) -> Pairs
        requires { (w ≤ widest) × (p + n ≤ w) × (q + n ≤ w) }
        ensures { PairsOf w p q n result }
    {
        Pairs {
            w,
            p,
            q,
            n: if p == q { 0 } else { n },
        }
    }

    // Writes the cut of a pair, with two codes, at an offset of out.
    fn put_cut(self, out: &mut [u8], o: usize, i: usize, x: u8, y: u8)
        requires { (o + cube_len self.w ≤ length out.old) × (i < self.n) }
        ensures { out.new ≡ laid out.old o (write_cube (apart self.w (self.p + i) (self.q + i) (code_of x) (code_of y))) }
    {
        let end = o + cube_len(self.w);
        put_apart(&mut out[o..end], self.p + i, self.q + i, x, y);
    }

    // Writes the cuts of all pairs: of each with 0 and 1, then with 1 and 0.
    fn put_cuts(self, out: &mut [u8])
        requires { 2 * self.n * cube_len self.w ≤ length out.old }
        ensures { out.new ≡ over out.old (cubes_bytes (unequal self.w self.p self.q self.n)) }
    {
        let size = cube_len(self.w);
        let mut o = 0;
        for i in 0..self.n {
            self.put_cut(out, o, i, 1, 2);
            self.put_cut(out, o + size, i, 2, 1);
            o += 2 * size;
        }
    }

    // Writes the record of the equality.
    fn put_record(self, out: &mut [u8])
        requires few { self.n ≤ most_pairs }
        requires room { record_len (2 * self.n) (cube_len self.w) ≤ length out.old }
        ensures { out.new ≡ over out.old (equal_bytes self.w self.p self.q self.n) }
    {
        let size = cube_len(self.w);
        let base = front_len(2 * self.n);
        let cuts = base + size;
        put_front(out, 2 * self.n, size);
        fill(&mut out[base..cuts]);
        self.put_cuts(&mut out[cuts..]);
    }
}

// Writes the difference of the headers whose fields of n positions at p and at q are equal, as one kind 2 record.
pub fn equal_fields(w: usize, p: usize, q: usize, n: usize, out: &mut [u8]) -> Answer
    ensures answer { result ≡ (equal_fields w p q n (length out.old)).answer }
    ensures bytes { out.new ≡ over out.old (equal_fields w p q n (length out.old)).bytes }
{
    if let Err(refusal) = field_refusal(w, p, n) {
        return refusal;
    }
    if let Err(refusal) = field_refusal(w, q, n) {
        return refusal;
    }
    let pairs = Pairs::of_fields(w, p, q, n);
    if MOST_PAIRS < pairs.n {
        return Refusal::Cuts.into();
    }
    let size = record_len(2 * pairs.n, cube_len(w));
    if out.len() < size {
        return Refusal::Room.into();
    }
    pairs.put_record(out);
    Answer::wrote(size)
}
