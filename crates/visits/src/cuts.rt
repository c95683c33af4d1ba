// The cuts that a walk passes.
ghost use Rattle.std.specs.Prelude.{◌≤◌};

use cube::Row;

// A row of cuts no wider than a piece, and no more of them than inclusion has.
#[derive(Clone, Copy, Debug, PartialEq, Eq)]
pub(crate) struct Cuts<'a> {
    pub(crate) row: Row<'a>,
    ghost narrow: { row.size ≤ 80 },
    ghost few: { row.count ≤ 65 },
}
