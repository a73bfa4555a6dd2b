//! Loops that count down, written as loops that count up.
#![tactic(auto)]

mod blocks;
mod bounds;
mod descents;
mod heads;
mod lines;
mod loops;
mod parts;
mod sums;

pub use descents::upward;
