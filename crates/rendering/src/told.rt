// What is told of a program.

use mend::{Located, Mended};
use reasons::Diagnosis;
use std::alloc::Global;

/// What is said of a change.
pub const ACCEPTED: &str = "this change is accepted";

/// What comes of the search for a change.
#[derive(Drop)]
pub enum Remedy {
    /// A text that differs from the source in its directives alone, and whose program is accepted, with the lines that
    /// differ.
    Found(Mended),
    /// None of the changes that were tried helps.
    Missing(Tried),
    /// None was looked for, or not as far as `fix` looks.
    Unsought,
    /// None was looked for, since none is tried of such a fault.
    Untried,
}

/// How much was tried where no change was found.
#[derive(Clone, Copy)]
pub struct Tried {
    pub steps: usize,
    pub checks: usize,
    /// The latest of the first faults of what was tried, where it came later than that of the source.
    pub latest: Option<Located>,
}

/// What is told of a program. One that is accepted has no faults.
#[derive(Drop)]
pub struct Told {
    /// The faults, the first one first.
    pub diagnoses: Vec<Diagnosis>,
    /// How many more faults were found.
    pub more: u64,
    pub remedy: Remedy,
    /// What else is told, in the order of the source.
    pub warnings: Vec<Diagnosis>,
}

impl Told {
    /// Nothing.
    pub fn new(alloc: Global) -> Told {
        Told {
            diagnoses: Vec::new(alloc),
            more: 0,
            remedy: Remedy::Untried,
            warnings: Vec::new(alloc),
        }
    }
}
