//! Temporaries of the type `int`: what each stands for is put in its place.
#![tactic(auto)]

mod knowns;
mod parts;
mod scopes;
mod temporaries;
mod values;

pub use temporaries::in_place;
