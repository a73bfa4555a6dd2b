//! Loops that end by a condition, written out as loops with a number of turns, and turns that end early.
#![tactic(auto)]

mod blocks;
mod bounds;
mod growth;
mod loops;

pub use loops::looped;
