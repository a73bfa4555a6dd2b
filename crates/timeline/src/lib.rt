//! A program as a table: for each item what it does to each array, and where the cells are current behind it.
#![tactic(auto)]

mod bars;
mod building;
mod folds;
mod kept;
mod places;
mod spans;
mod touched;

pub use bars::{Segment, Shade};
pub use building::{Deed, Row, Timeline, What, timeline_of};
pub use folds::{Line, Turns, last_shown, lines_of};
pub use spans::Span;

/// How many sides there are: the host, whose number is 0, and four devices behind it.
pub const SIDES: usize = 5;
