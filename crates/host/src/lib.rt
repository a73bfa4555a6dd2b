//! A run on worker threads: one lock round the state of the run, a channel for the jobs, workers, and the calling
//! thread as the host.
#![tactic(auto)]

pub use crate::gate::{Gate, OpenGate, Phase};
pub use crate::run::run_threads;
pub use crate::waits::waits_are_for_a_closing;

mod board;
mod channel;
mod gate;
mod operations;
mod origin;
mod run;
mod split;
mod waits;
mod work;
