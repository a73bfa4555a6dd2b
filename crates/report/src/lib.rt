//! The texts of the program.
#![tactic(auto)]

mod checked;
mod faults;
mod listing;
mod refusal;
mod run;

pub use checked::accepted_text;
pub use faults::{Misuse, fault_text, misuse_text, no_change_text};
pub use listing::list_text;
pub use refusal::refusal_text;
pub use run::{finals_text, log_text};
