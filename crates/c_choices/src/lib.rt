//! The conditional operator, written out as `if` and `else`.
#![tactic(auto)]

mod choices;
mod kinds;
mod lifted;
mod parts;
mod statements;

pub use choices::chosen;
pub use kinds::{brackets_behind, closes, is_boundary, is_setting};
pub use statements::next_tokens;
