//! Scalars of the types `int` and `bool`, whose values are small: they are declared by `uint64_t`.
#![tactic(auto)]

mod scopes;
mod truths;
mod values;
mod widening;

pub use widening::widened;
