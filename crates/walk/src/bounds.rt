// What the two bounds of the ceiling are made of.
ghost use Rattle.std.specs.Prelude.{◌≡◌, ◌+◌, ◌*◌, ◌^◌, ◌≤◌, length};
ghost use Rattle.model.specs.Ceiling.{marks, capped};
ghost use Rattle.format.specs.Limits.{widest, widest_cube};
ghost use Rattle.format.specs.Bytes.{codes};
ghost use Rattle.walk.specs.Tally.{lost};

use cube::free_places;

// How many positions the first cube leaves free and the second does not: those that are free in the first and not in their meet.
pub(crate) fn opened_by(base: &[u8], cut: &[u8]) -> u32
    requires { (length base.now ≡ length cut.now) × (length base.now ≤ widest_cube) }
    ensures { (result ≡ marks (lost (codes base.now) (codes cut.now))) × (result ≤ widest) }
{
    let mut opened: u32 = 0;
    for (x, y) in base.iter().zip(cut) {
        opened += u32::from(free_places(*x) - free_places(*x & *y));
    }
    opened
}

// 1 + f * n, capped.
pub(crate) fn raised(f: u32, n: u32) -> u32
    ensures { result ≡ capped (1 + f * n) }
{
    f.saturating_mul(n).saturating_add(1)
}

// 2 to the s, capped.
pub(crate) fn power(s: u32) -> u32
    ensures { result ≡ capped (2 ^ s) }
{
    1u32.checked_shl(s).unwrap_or(u32::MAX)
}
