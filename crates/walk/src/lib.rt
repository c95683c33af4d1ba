// The walk of records and region files on an allowance: emptiness, inclusion, the ceiling.
#![tactic(auto)]

mod bounds;
mod ceilings;
mod empty;
mod inclusion;
mod record;
mod stop;
mod tally;
mod told;

pub use ceilings::ceiling;
pub use empty::{diff_empty, region_empty};
pub use inclusion::diff_in;
