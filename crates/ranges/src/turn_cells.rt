// Sets of cells, and what was seen, with cells whose indices are the values of a loop's name in its turns.

ghost use Rattle.std.specs.Prelude.{◌≡◌, ◌≤◌, ◌^◌, ◌&&◌, ◌||◌, not, OnOk, OnErr};
ghost use Rattle.ranges.specs.Cells.{AreKnown, has};
ghost use Rattle.ranges.specs.Seen.{seen_in};
ghost use Rattle.ranges.specs.Slides.{is_in_turn, with_read_of, with_written};

use crate::cells::CellSet;
use crate::row_turns::whole;
use crate::state::Walk;
use base::tree::{ArrayId, Bounds};
use std::alloc::AllocError;

impl CellSet {
    fn add_every(&mut self, array: ArrayId, cells: Bounds) -> Result<(), AllocError>
        requires { cells.end ≤ 2 ^ 32 }
        ensures ok { OnOk result (has self.new ≡ (λ c. has self.old c || is_in_turn array cells c)) }
        ensures err { OnErr result (has self.new ≡ has self.old) }
    {
        self.reach(array)?;
        self.rows[array.0 as usize].add_turns(cells)
    }

    fn add_every_unless(
        &mut self,
        array: ArrayId,
        cells: Bounds,
        other: &CellSet,
    ) -> Result<(), AllocError>
        requires { cells.end ≤ 2 ^ 32 }
        ensures ok { OnOk result (has self.new ≡ (λ c. has self.old c || (is_in_turn array cells c && not (has other.now c)))) }
        ensures err { OnErr result (has self.new ≡ has self.old) }
    {
        self.reach(array)?;
        self.rows[array.0 as usize].add_turns_unless(cells, other.row(array))
    }

    // Adds such cells of an array.
    fn add_turns(&mut self, array: ArrayId, cells: Bounds) -> Result<(), AllocError>
        requires { cells.end ≤ 2 ^ 32 }
        ensures ok { OnOk result (has self.new ≡ (λ c. has self.old c || is_in_turn array cells c)) }
        ensures err { OnErr result (has self.new ≡ has self.old) }
    {
        match whole(cells) {
            Some(all) => self.add(array, all),
            None => self.add_every(array, cells),
        }
    }

    // Adds such cells of an array, where it holds.
    fn add_turns_if(&mut self, holds: bool, array: ArrayId, cells: Bounds) -> Result<(), AllocError>
        requires { cells.end ≤ 2 ^ 32 }
        ensures ok { OnOk result (has self.new ≡ (λ c. has self.old c || (holds && is_in_turn array cells c))) }
        ensures err { OnErr result (has self.new ≡ has self.old) }
    {
        if !holds {
            return Ok(());
        }
        self.add_turns(array, cells)
    }

    // Adds those that the last set has not. All that are in `read` are in one of the two others.
    fn expose_turns(
        &mut self,
        array: ArrayId,
        cells: Bounds,
        read: &CellSet,
        sure: &CellSet,
    ) -> Result<(), AllocError>
        requires known { AreKnown (has self.now) (has read.now) (has sure.now) }
        requires fits { cells.end ≤ 2 ^ 32 }
        ensures ok { OnOk result (has self.new ≡ (λ c. has self.old c || (is_in_turn array cells c && not (has sure.now c)))) }
        ensures err { OnErr result (has self.new ≡ has self.old) }
    {
        match whole(cells) {
            Some(all) => self.expose(array, all, read, sure),
            None => self.add_every_unless(array, cells, sure),
        }
    }
}

impl Walk {
    /// Such cells of an array are read.
    pub fn read_turns(&mut self, array: ArrayId, cells: Bounds) -> Result<(), AllocError>
        requires { cells.end ≤ 2 ^ 32 }
        ensures { OnOk result (seen_in self.new ≡ with_read_of (is_in_turn array cells) (seen_in self.old)) }
    {
        let found = &mut self.found;
        found
            .exposed
            .expose_turns(array, cells, &found.read, &found.sure)?;
        found.read.add_turns(array, cells)
    }

    /// Such cells of an array are written, and surely so where that is certain.
    pub fn write_turns(
        &mut self,
        array: ArrayId,
        cells: Bounds,
        certain: bool,
    ) -> Result<(), AllocError>
        requires { cells.end ≤ 2 ^ 32 }
        ensures { OnOk result (seen_in self.new ≡ with_written certain (is_in_turn array cells) (seen_in self.old)) }
    {
        let found = &mut self.found;
        found.sure.add_turns_if(certain, array, cells)?;
        found.write.add_turns(array, cells)
    }
}
