// Copies of sets of cells.

ghost use Rattle.std.specs.Prelude.{◌≡◌};
ghost use Rattle.ranges.specs.Cells.{HasSameCells, has};

use crate::cells::{CellSet, Footprint};
use bits::BitSet;
use std::alloc::AllocError;

impl Clone for CellSet {
    ghost is_clone = { λ s t. has t ≡ has s };

    fn clone(&self) -> Result<CellSet, AllocError> {
        Ok(CellSet {
            alloc: self.alloc,
            rows: self.rows.clone()?,
            none: BitSet::new(self.alloc),
        })
    }
}

impl Clone for Footprint {
    ghost is_clone = { HasSameCells };

    fn clone(&self) -> Result<Footprint, AllocError> {
        Ok(Footprint {
            exposed: self.exposed.clone()?,
            read: self.read.clone()?,
            write: self.write.clone()?,
            sure: self.sure.clone()?,
            meeting: self.meeting,
        })
    }
}
