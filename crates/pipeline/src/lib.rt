//! From the bytes of a source to whether it is accepted, its items, or what its run answers: the layers, one after the other.
#![tactic(auto)]

mod checking;
mod fine;
mod in_c;
mod listing;
mod loaded;
mod source;
mod text;
mod threads;

pub use checking::{check_source, tell};
pub use fine::run_source_fine;
pub use in_c::answers_are_those_in_c;
pub use listing::list_source;
pub use loaded::Loaded;
pub use source::{run_accepted, run_source};
pub use text::{items, read};
pub use threads::{run_accepted_on_threads, run_source_on_threads};
