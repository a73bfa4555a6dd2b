// Where turns meet that may run in any order.

ghost use Rattle.std.specs.Prelude.{◌≡◌, [], Some, IfOk};
ghost use Rattle.base.specs.declared.item.Cell.{Cell};
ghost use Rattle.base.specs.Accepted.{region_faults};
ghost use Rattle.base.specs.Footprint.{touches_of, writes};
ghost use Rattle.base.specs.Least.{IsLeast};
ghost use Rattle.base.specs.Meaning.{lengths_of};
ghost use Rattle.base.specs.Turns.{turns_at, turns_meet};
ghost use Rattle.ranges.specs.Cells.{has};

use crate::cells::CellSet;
use crate::independent::are_independent;
use crate::meeting_walk::note_turns;
use crate::met::Meetings;
use crate::nest::{turn_body, turns_up_to_two};
use crate::scalars::all_give;
use crate::walk::lengths;
use base::item::{Cell, LoopValues};
use base::tree::{ArrayId, Program, Region};
use std::alloc::{AllocError, Global};

impl CellSet {
    // The least cell of the set.
    fn first(&self) -> Option<Cell>
        ensures { IsLeast (has self.now) result }
    {
        'arrays: for a in 0..self.arrays() {
            let array = ArrayId(a as u32);
            if let Some(i) = self.row(array).first_from(0) {
                return Some(Cell {
                    array,
                    index: i as u64,
                });
            }
        }
        None
    }
}

/// The least cell on which two turns of a region meet that may run in any order: one of them writes it, and the other
/// reads or writes it, unless all that both do there are updates by one operator. Where a turn may need a scalar that
/// another assigns, two turns meet on each cell that they write. `write` has the cells that the region writes.
pub fn meeting(
    alloc: Global,
    program: &Program,
    region: &Region,
    loops: &LoopValues,
    write: &CellSet,
) -> Result<Option<Cell>, AllocError>
    requires fine { region_faults (lengths_of program.now) loops.now.values.items (Some region.now) ≡ [] }
    requires write { (c : Cell) → has write.now c ≡ writes (touches_of region.now loops.now.values.items) c }
    ensures { IfOk result (IsLeast (turns_meet (turns_at region.now.depth region.now.body.items loops.now.values.items))) }
{
    let depth = region.depth;
    if turns_up_to_two(depth, &region.body) < 2 {
        return Ok(None);
    }
    let body = turn_body(depth, &region.body);
    if all_give(body, body) {
        return Ok(write.first());
    }
    if are_independent(alloc, depth, &region.body, &loops.values, write)? {
        return Ok(None);
    }
    let lengths = lengths(alloc, program)?;
    let mut values = Vec::from_slice(alloc, &loops.values)?;
    let mut meetings = Meetings::new(alloc)?;
    note_turns(depth, &region.body, &lengths, &mut values, &mut meetings)?;
    Ok(meetings.least)
}
