// The limits and the kinds of records, each named once.
pub const MOST_CUTS: usize = 64;

// The cuts of two differences: the most that a piece of a result is given before it is tidied.
pub const TAKEN_CUTS: usize = 2 * MOST_CUTS;

pub const MOST_DIFFERENCES: usize = 256;

pub(crate) const WIDTH_KIND: u16 = 1;

// The bytes of a record's length, which it does not count.
pub(crate) const LENGTH: usize = 2;

// What a kind 1 record says of its length, and how many bytes it takes.
pub(crate) const WIDTH_LENGTH: usize = 4;

pub const WIDTH_RECORD: usize = LENGTH + WIDTH_LENGTH;

pub(crate) const DIFFERENCE_KIND: u16 = 2;

// The bytes of a difference's record in front of its base, and those of them that its length counts.
pub(crate) const FRONT: usize = 5;

pub(crate) const COUNTED: usize = FRONT - LENGTH;
