//! What says nothing and is left out: declarations of functions without a body, and empty statements.
#![tactic(auto)]

mod leaving;
mod prototypes;
mod states;

pub use leaving::needed;
