//! The state of a run of a program on a host memory and devices, and its events.
#![tactic(auto)]

pub use crate::allowed::{allowed_count, nth_allowed};
pub use crate::answer::run_choices;
pub use crate::choosing::{few_events, nothing_after_the_end, nothing_only_at_the_end};
pub use crate::devices::{DEVICES, Devices};
pub use crate::jobs::Job;
pub use crate::left::Left;
pub use crate::output::{Output, text_of};
pub use crate::play::choice_at;
pub use crate::shared_frame::SharedFrame;
pub use crate::standing::{Held, Standing};
pub use crate::state::{RunState, are_numbers};
pub use crate::turns::Turn;

mod allowed;
mod answer;
mod blank;
mod choosing;
mod close;
mod closing;
mod devices;
mod enabled;
mod frame;
mod issued;
mod jobs;
mod left;
mod moves;
mod open;
mod opening;
mod output;
mod place;
mod play;
mod same;
mod same_frame;
mod shared_frame;
mod standing;
mod state;
mod take;
mod turns;
