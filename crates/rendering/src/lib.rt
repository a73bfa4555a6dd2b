//! What is told of a program, written as text, as JSON or in the Static Analysis Results Interchange Format.
#![tactic(auto)]

mod excerpt;
mod objects;
mod sarif;
mod sarif_fixes;
mod text;
mod told;

pub use objects::as_json;
pub use sarif::as_sarif;
pub use text::as_text;
pub use told::{Remedy, Told, Tried};
