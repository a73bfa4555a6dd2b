//! A program as a graph in the language DOT: its items, and which of them is before which.
#![tactic(auto)]

mod blame;
mod dot;
mod drawing;
mod edges;
mod escape;
mod levels;
mod nodes;
mod ordered;

pub use drawing::{graph_text, message_graph};
pub use escape::{escaped, quoted};
pub use ordered::{nexts, order_of};
