// Whether a header is in a cube of some.
ghost use Rattle.std.specs.Prelude.{◌≡◌};
ghost use Rattle.std.specs.List.{list_any};
ghost use Rattle.cube.specs.Pair.{lies_in};
ghost use Rattle.cube.specs.Row.{slices_of};

use cube::{Row, lies_in};

// Whether a header, which is lent as the cube that fixes each of its bits, is in one of some cubes.
pub(crate) fn lies_in_any(header: &[u8], mut cubes: Row) -> bool
    ensures { result ≡ list_any (lies_in header.now) (slices_of cubes.entry) }
{
    cubes.any(|cube| lies_in(header, cube))
}
