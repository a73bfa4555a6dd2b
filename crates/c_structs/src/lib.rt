//! Structs whose members are all `uint64_t`, written out as the rows of arrays of two dimensions.
#![tactic(auto)]

mod declarations;
mod definitions;
mod found;
mod members;
mod rows;
mod state;
mod structs;

pub use rows::in_rows;
