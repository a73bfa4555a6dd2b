//! Loops whose bounds name loops around, written out as loops with numbers for bounds and an `if` in their block.
#![tactic(auto)]

mod blocks;
mod bounds;
mod guards;
mod heads;
mod loops;
mod ranges;
mod steps;
mod triangles;

pub use loops::{Loop, MAX_HEAD, plain_loop};
pub use triangles::rectangular;
