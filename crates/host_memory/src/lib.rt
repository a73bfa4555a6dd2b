//! The memory of the host: a row of numbers for each array, which blocks of devices may have too.
#![tactic(auto)]

pub use crate::memory::{Memory, part};

mod memory;
