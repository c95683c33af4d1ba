// The walk over bytes: a piece and the cuts left, and the pieces that follow from them, visited one after another on an allowance.
#![tactic(auto)]

mod alive;
mod allowance;
mod cuts;
mod fast;
mod load;
mod long;
mod memory;
mod opening;
mod reply;
mod table;
mod visit;
pub mod walk;
mod words;

pub use allowance::{Allowance, Outcome, Verdict};
