//! The directives of a source with their names resolved.
#![tactic(auto)]

mod bounds;
mod clauses;
mod items;
mod line;
mod map_kind;
mod names;
mod next;
mod resolved;
mod sections;

pub use next::directive;
pub use resolved::{Construct, Resolved};
