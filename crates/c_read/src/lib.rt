//! From the bytes of a source to its program.
#![tactic(auto)]

mod array;
mod boxes;
mod gathered;
mod globals;
mod nest;
mod parts;
mod piece;
mod plain;
mod program;
mod region;
mod wrap;
mod written;

pub use program::read_program;
pub use written::source_written;
