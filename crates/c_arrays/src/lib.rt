//! Arrays that `main` declares, before it.
#![tactic(auto)]

mod arrays;
mod declarations;

pub use arrays::lifted;
