//! What a region touches, as it is found and by a plain walk, in lines:
//!
//!   exposed a0[0:1] a1[4:2]         the runs of cells in each set of the footprint, `a0` being the first array; or
//!   meeting a0[3]                   the least cell on which two turns meet that may run in any order, if there is one; or
//!   E301 line 2 column 1            the fault of range.

use super::cut::{cut, turns_in_all};
use super::meet::meeting;
use crate::text::Text;
use base::fault::{RangeCode, RangeFault};
use base::item::{Cell, LoopValues};
use base::tree::{Program, Region};
use ranges::{Footprint, FootprintFault, Part, footprint};
use std::alloc::{AllocError, Global};

const PARTS: [(Part, &str); 4] = [
    (Part::Exposed, "exposed"),
    (Part::Read, "read"),
    (Part::Write, "write"),
    (Part::Sure, "sure"),
];

/// The most turns that the loops of a region may have.
const MOST_TURNS: u64 = 1_048_576;

/// Up to how many turns each one stands in a loop of its own.
const FEW_TURNS: u64 = 65_536;

/// In a loop no two values of whose name are so many apart, each turn is walked, unless its name stands in no subscript
/// and no condition.
const WALKED: u64 = 7;

fn say_part(alloc: Global, found: &Footprint, part: Part, out: &mut Text) {
    let Ok(runs) = found.runs(alloc, part) else {
        return out.lack();
    };
    for run in &runs {
        out.add_with(" a", run.array.0);
        out.add_with("[", run.first);
        out.add_with(":", run.length);
        out.add("]");
    }
}

fn say_meeting(cell: Option<Cell>, out: &mut Text) {
    if let Some(cell) = cell {
        out.add_with("meeting a", cell.array.0);
        out.add_with("[", cell.index);
        out.add("]\n");
    }
}

fn say_footprint(alloc: Global, found: &Footprint, meeting: Option<Cell>, out: &mut Text) {
    for (part, name) in PARTS {
        out.add(name);
        say_part(alloc, found, part, out);
        out.add("\n");
    }
    say_meeting(meeting, out);
}

/// What is found of a region.
pub(crate) fn found(
    alloc: Global,
    program: &Program,
    region: &Region,
    loops: &LoopValues,
) -> Result<Vec<u8>, AllocError> {
    let mut out = Text::new(alloc);
    match footprint(alloc, program, region, loops) {
        Ok(found) => say_footprint(alloc, &found, found.meeting, &mut out),
        Err(FootprintFault::Range(fault)) => out.add_line(fault),
        Err(FootprintFault::OutOfMemory) => out.lack(),
    }
    out.end()
}

/// What must be found of a region, by one with the same turns in order.
fn wanted_by(
    alloc: Global,
    program: &Program,
    region: &Region,
    loops: &LoopValues,
    plain: &Region,
) -> Result<Vec<u8>, AllocError> {
    let mut out = Text::new(alloc);
    match footprint(alloc, program, plain, loops) {
        Ok(found) => {
            let cell = meeting(alloc, program, region, loops)?;
            say_footprint(alloc, &found, cell, &mut out);
        }
        Err(FootprintFault::Range(fault)) => out.add_line(fault),
        Err(FootprintFault::OutOfMemory) => out.lack(),
    }
    out.end()
}

/// What must be found of it: its turns are walked one by one, or they are too many.
pub(crate) fn wanted(
    alloc: Global,
    program: &Program,
    region: &Region,
    loops: &LoopValues,
) -> Result<Vec<u8>, AllocError> {
    let turns = turns_in_all(&region.body);
    if turns > MOST_TURNS {
        let mut out = Text::new(alloc);
        out.add_line(RangeFault {
            code: RangeCode::TooManyTurns,
            line: region.place.line,
            column: region.place.column,
        });
        return out.end();
    }
    let span = if turns > FEW_TURNS { WALKED } else { 1 };
    wanted_by(alloc, program, region, loops, &cut(alloc, span, region)?)
}
