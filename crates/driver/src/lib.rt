//! The commands of `ompc`: from the words of a command line to what it prints and its status.
#![tactic(auto)]

mod checked;
mod ending;
mod explained;
mod fixed;
mod input;
mod perform;
mod running;
mod sources;
mod viewed;
mod witnessed;

pub use perform::drive;
pub use sources::{SourceError, Sources};
