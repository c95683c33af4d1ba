// The header that a piece shows.
ghost use Rattle.std.specs.Prelude.{◌≡◌, [], ◌∷◌, ◌-◌, ◌*◌, ◌%◌, ◌^◌, ◌<◌};
ghost use Rattle.model.specs.Cube.{shown};
ghost use Rattle.format.specs.Bytes.{codes, octet};
ghost use Rattle.cube.specs.Shown.{show_into};

use super::size::{WIDEST, WIDEST_CUBE, header_len};

// The four bits that a byte of a cube shows: 1 where its code is 2.
fn shown_half(x: u8) -> u8
    ensures { (result * 16 ≡ octet (shown (codes (x ∷ [])))) × (result < 16) }
{
    let m = (x >> 1) & (x ^ 255) & 0x55;
    ((m >> 3) & 8) | ((m >> 2) & 4) | ((m >> 1) & 2) | (m & 1)
}

// The byte of a header that two bytes of a cube show.
fn shown_byte(x: u8, y: u8) -> u8
    ensures { result ≡ octet (shown (codes (x ∷ y ∷ []))) }
{
    shown_half(x) * 16 + shown_half(y)
}

// The first n bits of a byte, the others zero.
fn front_bits(b: u8, n: usize) -> u8
    requires { n < 8 }
    ensures { result ≡ b - b % 2 ^ (8 - n) }
{
    b - (b & (255 >> n))
}

// Writes the header of the piece's first w positions with all its free positions 0 over the front of out; nothing is written where w is above the widest
// width, or where the header has no room.
pub fn show(piece: [u8; WIDEST_CUBE], w: usize, out: &mut [u8])
    ensures { out.new ≡ show_into piece w out.old }
{
    if WIDEST < w || out.len() < header_len(w) {
        return;
    }
    let whole = w / 8;
    for j in 0..whole {
        out[j] = shown_byte(piece[2 * j], piece[2 * j + 1]);
    }
    let rest = w % 8;
    if rest != 0 {
        out[whole] = front_bits(shown_byte(piece[2 * whole], piece[2 * whole + 1]), rest);
    }
}
