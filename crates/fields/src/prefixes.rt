// Prefix constraints: the cube of the headers whose field begins with the bits of a value.
ghost use Rattle.std.specs.Prelude.{◌≡◌, ◌+◌, ◌*◌, ◌≤◌, length};
ghost use Rattle.model.specs.Fields.{prefix_cube};
ghost use Rattle.format.specs.Limits.{widest};
ghost use Rattle.format.specs.Bytes.{bits, codes};
ghost use Rattle.format.specs.Told.{over};
ghost use Rattle.format.specs.Calls.{prefix};

use super::bounds::field_refusal;
use answer::{Answer, Refusal};
use cube::{bits_refusal, cube_len, fill, set_code};

// Makes a cube that fixes the positions from s on to the first m bits of a value.
fn put_prefix(c: &mut [u8], s: usize, value: &[u8], m: usize)
    requires { (s + m ≤ 4 * length c.old) × (m ≤ 8 * length value.now) × (s + m ≤ widest) }
    ensures { codes c.new ≡ prefix_cube (4 * length c.old) s m (bits value.now) }
{
    fill(c);
    for i in 0..m {
        let bit = (value[i / 8] >> (7 - i % 8)) % 2;
        set_code(c, s + i, bit + 1);
    }
}

// Writes the cube of a prefix constraint: the field of n positions from s on begins with the first m bits of the value.
pub fn prefix(w: usize, s: usize, n: usize, m: usize, value: &[u8], out: &mut [u8]) -> Answer
    ensures answer { result ≡ (prefix w s n m value.now (length out.old)).answer }
    ensures bytes { out.new ≡ over out.old (prefix w s n m value.now (length out.old)).bytes }
{
    if let Err(refusal) = field_refusal(w, s, n) {
        return refusal;
    }
    if n < m {
        return Refusal::Bounds.into();
    }
    if let Err(refusal) = bits_refusal(value, n, m) {
        return refusal;
    }
    let size = cube_len(w);
    if out.len() < size {
        return Refusal::Room.into();
    }
    put_prefix(&mut out[0..size], s, value, m);
    Answer::wrote(size)
}
