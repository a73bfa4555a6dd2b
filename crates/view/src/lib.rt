//! A program as a page of HTML: its source, and beside it where the cells of its arrays are current behind each item.
#![tactic(auto)]

mod bars;
mod chips;
mod copies;
mod document;
mod escape;
mod faults;
mod kernel_turns;
mod page;
mod rows;
mod scene;
mod source;
mod style;
mod table;
mod turn_rows;
mod viewing;

pub use escape::escaped;
pub use viewing::view_source;
