// What writes regions: tidying, intersection and subtraction.
#![tactic(auto)]

mod call;
mod piece;
mod result;
mod run;
mod steps;
mod stop;
mod totals;

pub use call::{diff_intersect, diff_less, region_intersect, region_less, region_tidy};
