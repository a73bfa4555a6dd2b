//! Macros with parameters, which are expanded before all else.
#![tactic(auto)]

mod definitions;
mod macros;
mod reading;
mod text;

pub use text::replaced;
