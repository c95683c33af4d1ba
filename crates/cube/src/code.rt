// The codes of a cube in its bytes, read and written.
ghost use Rattle.std.specs.Prelude.{◌≡◌, [], ◌∷◌, not, length, set, replicate};
ghost use Rattle.model.specs.Cube.{solid};
ghost use Rattle.format.specs.Bytes.{code_of, codes};
ghost use Rattle.cube.specs.Code.{code_at};

// Whether a place of a byte holds code 0: neither of its bits is set. `meets` gathers the same of many bytes at once.
pub(crate) fn code_zero(b: u8) -> bool
    ensures { result ≡ not (solid (codes (b ∷ []))) }
{
    ((b | (b >> 1)) & 0x55) ^ 0x55 != 0
}

// Leaves every position of a cube free.
pub fn fill(c: &mut [u8])
    ensures { c.new ≡ replicate (length c.old) 255 }
{
    c.fill(255);
}

// The code at position i of the cube that stands in s at an offset, as a number; 0 where s has no byte.
pub fn code_at(s: &[u8], at: usize, i: usize) -> u8
    ensures { result ≡ code_at s.now at i }
{
    if s.len() <= at || s.len() - at <= i / 4 {
        return 0;
    }
    (s[at + i / 4] >> (6 - 2 * (i % 4))) & 3
}

// Writes the code v at a position of a cube, where what is above 3 is 3; nothing is written where the cube has no such position.
pub fn set_code(c: &mut [u8], p: usize, v: u8)
    ensures { codes c.new ≡ set (codes c.old) p (code_of v) }
{
    let at = p / 4;
    if c.len() <= at {
        return;
    }
    let weight = 64u8 >> (2 * (p % 4));
    c[at] = c[at] - code_at(c, 0, p) * weight + v.min(3) * weight;
}
