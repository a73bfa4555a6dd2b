//! What the items of a program may touch: which sections leave their arrays, and which cells a region reads and writes.
#![tactic(auto)]

ghost use Rattle.std.specs.Prelude.{◌≡◌, [], Some, IfOk, OnOk, IfErr};
ghost use Rattle.base.specs.declared.item.Cell.{Cell};
ghost use Rattle.base.specs.Meaning.{lengths_of};
ghost use Rattle.base.specs.Accepted.{region_faults, section_faults};
ghost use Rattle.base.specs.Footprint.{exposes, reads, surely_writes, touches_of, writes};
ghost use Rattle.base.specs.Least.{IsLeast};
ghost use Rattle.base.specs.Turns.{turns_at, turns_meet};
ghost use Rattle.ranges.specs.Cells.{has};
ghost use Rattle.ranges.specs.Faults.{IsFirst};
ghost use Rattle.ranges.specs.FewRuns.{HasFewRuns};
ghost use Rattle.ranges.specs.Found.{IsFootprintFault};
ghost use Rattle.ranges.specs.ItemFaults.{AreByParts};
ghost use Rattle.ranges.specs.Meetings.{AreMetBefore, AreMetWhereWritten};

pub use crate::cells::{CellSet, Footprint};
use crate::first_meeting::meeting;
pub use crate::reached::{no_reach, reach};
pub use crate::run_list::{Part, Run, runs_are_unique};
use crate::section::{note_depends, note_maps};
use crate::state::Walk;
use crate::turns::turns_in_all;
use crate::walk::walk_region;
use base::fault::{RangeCode, RangeFault};
use base::item::{Item, LoopValues};
use base::tree::{Place, Program, Region};
use std::alloc::Global;
use thiserror::Error;

mod access;
mod affine;
mod blocks;
mod bound;
mod cases;
mod cells;
mod clones;
mod contents;
mod deciding;
mod first_meeting;
mod independent;
mod least;
mod meeting_walk;
mod met;
mod nest;
mod noting;
mod offsets;
mod period;
mod reached;
mod row;
mod row_turns;
mod run_list;
mod scalars;
mod section;
mod settled;
mod slide;
mod slides;
mod sliding;
mod span;
mod state;
mod steady;
mod straight;
mod stride;
mod touched;
mod turn_cells;
mod turns;
mod walk;
mod way;

// The most turns that the loops of a region may have.
const MOST_TURNS: u64 = 1_048_576;

/// Why a region has no footprint.
#[derive(Clone, Copy, Debug, Error)]
pub enum FootprintFault {
    #[error(transparent)]
    Range(RangeFault),
    #[error("F1")]
    OutOfMemory,
}

fn fault_at(code: RangeCode, place: Place) -> RangeFault
    ensures { result ≡ Rattle.ranges.specs.Faults.fault_at code place }
{
    RangeFault {
        code,
        line: place.line,
        column: place.column,
    }
}

/// Tests the sections of an item's map and depend items. The error is E302 at the least place, by line and then by
/// column, of a section that is empty or leaves its array. A section of an array that the program does not have
/// leaves it. It takes no memory.
pub fn sections(program: &Program, item: &Item) -> Result<(), RangeFault>
    ensures fine { OnOk result (section_faults (lengths_of program.now) item.now.maps.items item.now.depends.items ≡ []) }
    ensures fault { IfErr result (IsFirst (section_faults (lengths_of program.now) item.now.maps.items item.now.depends.items)) }
{
    let mut least = None;
    note_maps(program, &item.maps, &mut least);
    note_depends(program, &item.depends, &mut least);
    match least {
        None => Ok(()),
        Some(place) => Err(fault_at(RangeCode::SectionOutside, place)),
    }
}

/// The cells that a region may touch, found instance by instance: each turn of each loop, and of an `if` whose condition
/// is known the one branch that it takes. The loops around the region have these values, the outermost first. Of a loop
/// that no subscript and no condition names the first turn is walked alone, since the others touch the same. No turn is
/// walked of a loop that has no loop in it, and in each of whose subscripts its name stands, times a fixed value, with
/// others added or subtracted, so that the accesses of one array all move on by as many cells: `A[3 * i + 2]` beside
/// `A[3 * i]`, or `B[j * 256 + i]` beside `A[j]`. Fixed values are numbers, names of loops around it, and sums, differences
/// and products of these. Where it has conditions in it, these are alike in all of its turns, or in every so many turns, at
/// most 64, as `i % 3 == 0` in every third; at its end fewer turns are walked than that. The turns of a loop that are left
/// are not walked once the cells that they can touch were all seen: `A[i % 16]` after 16 turns.
///
/// The error is E303 at the region's first token where its loops have more than 1,048,576 turns, and then nothing is
/// walked; else E301 at the least place, by line and then by column, of the array name of a subscript that can leave
/// its array. An array that the program does not have is left by each subscript.
///
/// Where the region is one loop of step 1 up to at most 65,536, with no loop and no condition in it, and each subscript is
/// the loop's name, alone or with a number of at most 65,536 that is added or subtracted, each set has at most as many runs
/// as the region names cells of arrays.
///
/// Of a region whose turns may run in any order it is then found where two of them meet: each turn is walked twice, one
/// after the other, unless there are fewer than two. While that lasts it takes a bit more for each cell and each way in which
/// cells are touched: a read, a write, and an update by each of the operators.
///
/// It takes time for each turn that is walked and each subscript, and for the cells of a subscript's interval, unless all
/// of them lie in the one run of cells that is kept for an array; of a loop no turn of which is walked, for the cells that
/// it touches and for pairs of its accesses. It takes four bits of memory for each cell of an array up to the last one
/// touched.
pub fn footprint(
    alloc: Global,
    program: &Program,
    region: &Region,
    loops: &LoopValues,
) -> Result<Footprint, FootprintFault>
    ensures fine { OnOk result (region_faults (lengths_of program.now) loops.now.values.items (Some region.now) ≡ []) }
    ensures exposed { IfOk result (λ f. (c : Cell) → has f.exposed c ≡ exposes (touches_of region.now loops.now.values.items) c) }
    ensures read { IfOk result (λ f. (c : Cell) → has f.read c ≡ reads (touches_of region.now loops.now.values.items) c) }
    ensures write { IfOk result (λ f. (c : Cell) → has f.write c ≡ writes (touches_of region.now loops.now.values.items) c) }
    ensures sure { IfOk result (λ f. (c : Cell) → has f.sure c ≡ surely_writes (touches_of region.now loops.now.values.items) c) }
    ensures meeting { IfOk result (λ f. IsLeast (turns_meet (turns_at region.now.depth region.now.body.items loops.now.values.items)) f.meeting) }
    ensures few { IfOk result (HasFewRuns region.now loops.now.values.items) }
    ensures fault { IfErr result (IsFootprintFault (region_faults (lengths_of program.now) loops.now.values.items (Some region.now))) }
{
    if turns_in_all(&region.body) > MOST_TURNS {
        return Err(FootprintFault::Range(fault_at(RangeCode::TooManyTurns, region.place)));
    }
    let Ok(walk) = walk_region(alloc, program, region, loops) else {
        return Err(FootprintFault::OutOfMemory);
    };
    let Walk { mut found, least } = walk;
    if let Some(place) = least {
        return Err(FootprintFault::Range(fault_at(RangeCode::SubscriptOutside, place)));
    }
    let Ok(first) = meeting(alloc, program, region, loops, &found.write) else {
        return Err(FootprintFault::OutOfMemory);
    };
    found.meeting = first;
    Ok(found)
}

/// The first fault of an item's sections is its first fault of range; where they have none, its faults are those of its
/// region.
pub fn item_faults()
    ensures { AreByParts }
{}

/// The turns of a loop that may run in any order meet where one of them writes what one before it read or wrote, or reads
/// what one before it wrote, unless both touches are updates by one operator: so it is enough to know how all turns
/// before have touched each cell.
pub fn turns_meet_before()
    ensures { AreMetBefore }
{}

/// Where a turn may need a scalar that another assigns, two turns and more meet wherever one of them writes.
pub fn turns_meet_where_written()
    ensures { AreMetWhereWritten }
{}
