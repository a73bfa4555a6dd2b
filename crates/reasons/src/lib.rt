//! Why a program is refused: at which place, which earlier construct is the cause, and what is missing.
#![tactic(auto)]

mod absent;
mod alike;
mod amounts;
mod around;
mod conflicts;
mod constants;
mod diagnosis;
mod ends;
mod events;
mod faults;
mod forms;
mod further;
mod kept;
mod limit;
mod limits;
mod lines;
mod lost;
mod meeting;
mod nest;
mod ordering;
mod past;
mod rules;
mod runs;
mod scene;
mod search;
mod source;
mod stale;
mod texts;
mod touching;
mod unordered;
mod words;

pub use diagnosis::{Conflict, Diagnosis, NamedCell, Note, Since, Touch, Turn, Weight};
pub use faults::{Faults, faults_of};
pub use limits::{too_many, turns_in_all};
pub use nest::loops_around;
pub use source::{end_of, line_of};
pub use texts::text_diagnosis;
