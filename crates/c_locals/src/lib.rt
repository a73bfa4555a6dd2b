//! Local arrays of literal length, written out as scalars.
#![tactic(auto)]

mod blocks;
mod cells;
mod declarations;
mod hidden;
mod indices;
mod lines;
mod lists;
mod locals;
mod loops;
mod puts;
mod scalars;

pub use locals::in_scalars;
