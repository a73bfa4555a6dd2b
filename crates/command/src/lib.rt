//! The words of a command line, and what they ask for.
#![tactic(auto)]

mod request;
mod words;

pub use request::{Color, Explain, Format, Request, Run, Step, Workers};
pub use words::parse;
