//! Numbers of the type `int`: where each value that one of them gets is small, `int` is `uint64_t`.
#![tactic(auto)]

mod checks;
mod classes;
mod fixed;
mod found;
mod functions;
mod kinds;
mod names;
mod numbers;
mod retyping;
mod states;
mod values;

pub use kinds::is_qualifier;
pub use retyping::of_one_type;
