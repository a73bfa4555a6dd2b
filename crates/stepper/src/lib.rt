//! The fine-grained machine by choices: each load, each store, each copied cell and each action on a table by itself.
#![tactic(auto)]

pub use crate::fine_run::FineRun;
pub use crate::marked::shown_of;
pub use crate::run::{run_fine, run_fine_shown};
pub use crate::sides::Turn;
pub use crate::stops::{Stop, stop_of};

mod beginning;
mod choosing;
mod closing;
mod enabling;
mod fine_run;
mod marked;
mod opening;
mod run;
mod sides;
mod standing;
mod stepping;
mod stops;
mod taking;
