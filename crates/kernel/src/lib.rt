//! The code of a region on registers, and its run.
#![tactic(auto)]

pub use crate::emit::{Code, compile};
pub use crate::execute::{Done, run};
pub use crate::frames::{Frame, KeptRow, Row};
pub use crate::part::{Part, join_parts, run_part, whole};
pub use crate::runnable::frame_runs;
pub use crate::scalars::Scalars;
pub use crate::spread::{Spread, cut, spread_of};

mod apart;
mod block;
mod condition;
mod emit;
mod execute;
mod follow;
mod frames;
mod masks;
mod moved;
mod named;
mod op;
mod part;
mod room;
mod run_row;
mod runnable;
mod scalars;
mod simple;
mod spread;
mod state;
mod step;
mod stores;
mod turns;
mod values;
mod walk;
