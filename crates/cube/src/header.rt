// Header bytes: bits that have to be zero, and the cube that fixes every bit.
ghost use Rattle.std.specs.Prelude.{◌≡◌, [], ◌∷◌, map, ◌<◌, drop};
ghost use Rattle.model.specs.Fields.{bit_code};
ghost use Rattle.answer.specs.Refusals.{Tested};
ghost use Rattle.format.specs.Rows.{outcome};
ghost use Rattle.format.specs.Bytes.{bits, any_bit, codes};
ghost use Rattle.format.specs.Told.{bits_tests};
ghost use Rattle.cube.specs.Header.{spelled_cube};

use super::size::{WIDEST_CUBE, WIDEST_HEADER, header_len};
use answer::{Answer, Refusal};

// The cube byte that fixes four bits, for each four.
const SPELLED: [u8; 16] = [
    0x55, 0x56, 0x59, 0x5a, 0x65, 0x66, 0x69, 0x6a, 0x95, 0x96, 0x99, 0x9a, 0xa5, 0xa6, 0xa9, 0xaa,
];

// Whether a bit is set.
fn any_set(h: &[u8]) -> bool
    ensures { result ≡ any_bit (bits h.now) }
{
    let mut set = 0u8;
    for b in h {
        set |= b;
    }
    set != 0
}

// Whether a bit of a byte is set at or after a place of it.
fn set_after(b: u8, used: usize) -> bool
    requires { used < 8 }
    ensures { result ≡ any_bit (drop used (bits (b ∷ []))) }
{
    b & (255 >> used) != 0
}

// Whether a bit is set at or after the position `used`.
fn bits_after(h: &[u8], used: usize) -> bool
    ensures { result ≡ any_bit (drop used (bits h.now)) }
{
    let whole = used / 8;
    whole < h.len() && (set_after(h[whole], used % 8) || any_set(&h[whole + 1..]))
}

// The refusal of the bytes of a header or field value of n positions of which the first `used` may be set.
pub fn bits_refusal(bs: &[u8], n: usize, used: usize) -> Result<(), Answer>
    ensures { Tested (outcome (bits_tests n used bs.now)) result }
{
    if bs.len() != header_len(n) || bits_after(bs, used) {
        return Err(Refusal::Bits.into());
    }
    Ok(())
}

// The cube byte that fixes the last four bits of a byte.
fn spell(b: u8) -> u8
    requires { b < 16 }
    ensures { codes (result ∷ []) ≡ map bit_code (drop 4 (bits (b ∷ []))) }
{
    SPELLED[b as usize]
}

// The cube of the widest header that fixes each bit of h, as bytes; where h has no byte the bits are zero.
pub fn spelled(h: &[u8]) -> [u8; WIDEST_CUBE]
    ensures { codes result ≡ spelled_cube h.now }
{
    let mut c = [0x55u8; WIDEST_CUBE];
    for i in 0..h.len().min(WIDEST_HEADER) {
        c[2 * i] = spell(h[i] / 16);
        c[2 * i + 1] = spell(h[i] % 16);
    }
    c
}
