// Fields of a header: prefix constraints and equality of two fields, as the cubes and differences that hold exactly the headers asked for.
#![tactic(auto)]

mod bounds;
mod equality;
mod prefixes;

pub use equality::equal_fields;
pub use prefixes::prefix;
