// Accesses whose cell moves on in each turn of a loop by a multiple of what the loop's name does.

use base::tree::{ArrayId, Place};

/// Such an access: its cell in the first turn, by how many cells it moves on where the loop's name moves on by one, the
/// place of the array's name, and whether every condition around it is known to let it run.
#[derive(Clone, Copy, Drop)]
pub struct Slide {
    pub array: ArrayId,
    pub place: Place,
    pub start: u64,
    pub slope: u64,
    pub writes: bool,
    pub certain: bool,
}
