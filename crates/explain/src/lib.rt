//! Why a program is refused, told to a reader, with a change by which it is accepted, and what of it has another value in
//! C.
#![tactic(auto)]

mod calls;
mod explaining;
mod lines;
mod remedy;
mod telling;
mod values;
mod warnings;
mod weights;

pub use explaining::{Form, explain_source};
pub use lines::place_told;
pub use remedy::seek;
pub use rendering::Remedy;
pub use telling::all_told;
pub use values::text_told;
pub use warnings::warnings_of;
