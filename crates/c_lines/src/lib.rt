//! Lines that begin with `#` and go on behind a backslash.
#![tactic(auto)]

mod lines;
mod places;

pub use lines::{keeps_length, keeps_others, spliced};
pub use places::place_in;
