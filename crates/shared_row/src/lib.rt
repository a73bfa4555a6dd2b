//! Rows of numbers that several owners may have, and then are in memory once.
#![tactic(auto)]

pub use crate::lent::RowCells;
pub use crate::marks::Marks;
pub use crate::several::{LentRow, Several};
pub use crate::shared::SharedRow;

mod lent;
mod marks;
mod several;
mod shared;
