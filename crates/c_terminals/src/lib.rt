//! The tokens that the grammar is over, with their places: lines are borrowed or owned.
#![tactic(auto)]

mod ahead;
mod held;
mod lines;
mod names;
mod one_of;
mod token;

pub use ahead::Ahead;
pub use held::{Written, WrittenTerminal, borrowed, owned};
pub use lines::{has_parameters, is_pair, is_placed_sign, is_remark};
pub use names::Names;
pub use one_of::is_among;
pub use token::{Terminal, Token};
