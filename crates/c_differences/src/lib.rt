//! Which expressions of a source have another value in C, or none.
#![tactic(auto)]

mod constants;
mod difference;
mod given;
mod ints;
mod literal;
mod shape;
mod stream;
mod told;
mod walk;

pub use difference::{Difference, InC, Reason};
pub use literal::Type;
pub use told::{Differences, differences_of};
