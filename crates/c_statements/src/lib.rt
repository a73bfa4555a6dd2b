//! Statements of a source that are no directives of parts. After an error neither the scope nor the tokens are of use.
#![tactic(auto)]

mod assign;
mod atomic;
mod block;
mod declare;
mod directive;
mod head;
mod if_head;
mod level;
mod print;
mod right_side;
mod stmt;
mod update;

pub use assign::assigned;
pub use atomic::at_atomic;
pub use block::{begin_block, begin_choice, begin_loop, close_body, open_body, otherwise};
pub use declare::{declared, new_scalar};
pub use head::{bounds, head_name};
pub use if_head::condition;
pub use level::loops_around;
pub use print::printed;
pub use right_side::{ended_source, source};
pub use stmt::{atomic_update, body, choice, statement, statements};
