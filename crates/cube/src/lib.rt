// Header bytes and cube bytes: how many there are, what is wrong with them, whether cubes meet, lie in each other and are the same, their codes read and
// written, the header that a piece shows, bytes laid into a buffer; and the public questions about two lent cubes.
#![tactic(auto)]

mod call;
mod code;
mod compare;
mod fault;
mod header;
mod lay;
mod pair;
mod row;
mod shown;
mod size;
mod table;

pub use call::{cube_in, cube_meet, wider, wider_number};
pub use code::{code_at, fill, set_code};
pub use compare::equal;
pub use fault::cube_fault;
pub use header::{bits_refusal, spelled};
pub use lay::put;
pub use pair::{lies_in, meet_into, meets};
pub use row::Row;
pub use shown::show;
pub use size::{WIDEST, WIDEST_CUBE, WIDEST_HEADER, cube_len, header_len, width_refusal};
pub use table::free_places;
