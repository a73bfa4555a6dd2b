//! Runs of a program that print something else than the program does without its directives.
#![tactic(auto)]

mod lists;
mod orders;
mod search;
mod shell;
mod shorten;
mod stopped;
mod text;
mod trial;

pub use search::{Found, Judged, MOST_EVENTS, MOST_TRIES, find, judge};
pub use shorten::MOST_CUTS;
pub use stopped::Stopped;
pub use text::{accepted_text, none_text, witness_text};
pub use trial::{Ended, Witness};
