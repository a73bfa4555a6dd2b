//! How arrays are declared in the text of a source: as pointers, with which lengths, and by structs.
#![tactic(auto)]

mod declared;
mod rows;
mod structs;

pub use declared::{is_pointer, sides_of};
pub use rows::{Cell, Rows, Sides, cell_of, cell_text, rows_of, rows_text};
pub use structs::members_of;
