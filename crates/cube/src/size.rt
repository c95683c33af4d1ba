// Widths, and how many bytes headers and cubes take.
ghost use Rattle.std.specs.Prelude.{◌≡◌};
ghost use Rattle.answer.specs.Refusals.{Tested};
ghost use Rattle.format.specs.Rows.{outcome};
ghost use Rattle.format.specs.Bytes.{header_len, cube_len};
ghost use Rattle.format.specs.Told.{width_tests};

use answer::{Answer, Refusal};

// The most positions of a header.
pub const WIDEST: usize = 320;

// The bytes of the widest cube and of the widest header.
pub const WIDEST_CUBE: usize = (WIDEST + 3) / 4;

pub const WIDEST_HEADER: usize = (WIDEST + 7) / 8;

// The refusal of a width given directly.
pub fn width_refusal(w: usize) -> Result<(), Answer>
    ensures { Tested (outcome (width_tests w)) result }
{
    if w == 0 || WIDEST < w {
        return Err(Refusal::Width.into());
    }
    Ok(())
}

// The bytes of a cube of w positions.
pub fn cube_len(w: usize) -> usize
    ensures { result ≡ cube_len w }
{
    w.div_ceil(4)
}

// The bytes of a header of w positions.
pub fn header_len(w: usize) -> usize
    ensures { result ≡ header_len w }
{
    w.div_ceil(8)
}
