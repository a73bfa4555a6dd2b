//! A program's text without its directives.
#![tactic(auto)]

mod lines;

pub use lines::{erase, is_directive};
