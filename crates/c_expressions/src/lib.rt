//! Expressions of a source, with the names that they may use.
#![tactic(auto)]

mod changes;
mod cursor;
mod expr;
mod fault;
mod line;
mod number;
mod operators;
mod scope;
mod spend;
mod terminal;

pub use changes::Turn;
pub use cursor::Cursor;
pub use fault::ReadError;
pub use line::{Misfit, words_misfit};
pub use operators::{Fraction, Infix, Operator, infix_of};
pub use scope::{BoxedName, Frame, Meaning, Name, Scope};
pub use spend::Tally;
pub use terminal::Terminal;
