// A kernel whose turns may run in any order: what some of its turns touch.

use crate::copies::copies_of;
use crate::scene::Scene;
use base::item::{Item, LoopValues};
use base::tree::{Bounds, Place, Region, Stmt};
use ranges::{FootprintFault, Part, Run, footprint};
use reasons::{Note, loops_around};
use smallvec::SmallVec;
use std::alloc::{AllocError, Global};

// So many turns are shown of a kernel at most, besides those that meet: the first of them, the last, and turns between.
const MOST_TURNS: u64 = 40;

const FIRST_TURNS: u64 = 12;

/// A turn: the values of the loops whose turns may run in any order, and what it touches.
#[derive(Drop)]
pub struct KernelTurn {
    pub values: Vec<u64>,
    pub read: Vec<Run>,
    pub write: Vec<Run>,
    /// Whether it is one of two that meet.
    pub meets: bool,
}

/// A kernel whose turns may run in any order.
#[derive(Drop)]
pub struct Kernel {
    /// The names of the loops that may.
    pub names: Vec<String>,
    /// How many turns they have in all.
    pub count: u64,
    /// Some of the turns, in the order of the source.
    pub turns: Vec<KernelTurn>,
}

// The body of so many outermost loops, whose bounds are added.
fn body_of<'a>(
    depth: u8,
    all: &'a [Stmt],
    bounds: &mut Vec<Bounds>,
) -> Result<&'a [Stmt], AllocError> {
    match all {
        [Stmt::Loop(own, inner)] if depth > 0 => {
            bounds.push(*own)?;
            body_of(depth - 1, inner, bounds)
        }
        _ => Ok(all),
    }
}

fn count_of(bounds: &[Bounds]) -> u64 {
    let mut count = 1u64;
    'loops: for own in bounds {
        count = count.saturating_mul(own.turns());
    }
    count
}

// The values of the loops in a turn, by its number in the order of the source.
fn values_of(alloc: Global, bounds: &[Bounds], number: u64) -> Result<Vec<u64>, AllocError> {
    let mut left = number;
    let mut values = Vec::new(alloc);
    'loops: for (level, own) in bounds.iter().enumerate() {
        let inner = count_of(&bounds[level.saturating_add(1).min(bounds.len())..]).max(1);
        let turn = left / inner;
        left %= inner;
        values.push(own.first.saturating_add(turn.saturating_mul(own.step)))?;
    }
    Ok(values)
}

// The number of a turn, by the values of the loops in it.
fn number_of(bounds: &[Bounds], values: &[u64]) -> u64 {
    let mut number = 0u64;
    'loops: for (own, value) in bounds.iter().zip(values.iter()) {
        let turn = value.saturating_sub(own.first) / own.step.max(1);
        number = number.saturating_mul(own.turns()).saturating_add(turn);
    }
    number
}

// The numbers of the turns that are shown, in ascending order.
fn numbers_of(alloc: Global, count: u64, meeting: &[u64]) -> Result<Vec<u64>, AllocError> {
    let mut numbers = Vec::new(alloc);
    'shown: for at in 0..MOST_TURNS.min(count) {
        let between = count.saturating_sub(1).saturating_mul(at)
            / MOST_TURNS.saturating_sub(1).max(1);
        let number = if at < FIRST_TURNS || count <= MOST_TURNS {
            at
        } else {
            between.max(at)
        };
        numbers.push(number)?;
    }
    'meeting: for number in meeting {
        if !numbers.contains(number) {
            numbers.push(*number)?;
        }
    }
    numbers.sort()?;
    Ok(numbers)
}

// The first place in some statements at which a cell is written, and how many loops of theirs are around it.
#[cycle(written)]
fn written_in(stmt: &Stmt, around: usize) -> Option<(Place, usize)> {
    match stmt {
        Stmt::Declare(_, _) | Stmt::Assign(_, _) | Stmt::Print(_) => None,
        Stmt::Store(_, place, _, _) | Stmt::Combine(_, _, place, _, _) => Some((*place, around)),
        Stmt::Block(inner) => first_written(inner, around),
        Stmt::Loop(_, inner) => first_written(inner, around.saturating_add(1)),
        Stmt::If(_, first, second) => match first_written(first, around) {
            None => first_written(second, around),
            Some(found) => Some(found),
        },
    }
}

#[cycle(written)]
fn first_written(all: &[Stmt], around: usize) -> Option<(Place, usize)> {
    for stmt in all {
        if let Some(found) = written_in(stmt, around) {
            return Some(found);
        }
    }
    None
}

// The names of so many outermost loops of a region, which has so many loops around it. Those around the calls of its
// function have no name at its places.
fn names_of(
    alloc: Global,
    bytes: &[u8],
    region: &Region,
    outside: usize,
    depth: usize,
) -> Result<Vec<String>, AllocError> {
    let mut names = Vec::new(alloc);
    let Some((place, all)) = first_written(&region.body, outside) else {
        return Ok(names);
    };
    let known = loops_around(alloc, bytes, place)?;
    let unnamed = all.saturating_sub(known.len());
    'names: for level in 0..depth {
        let at = outside.saturating_add(level);
        let name = match at.checked_sub(unnamed) {
            None => "a loop",
            Some(at) => known.get(at).copied().unwrap_or("a loop"),
        };
        names.push(String::from_str(alloc, name)?)?;
    }
    Ok(names)
}

// The values of the loops of a region in the turns of which notes tell.
fn met_turns(
    alloc: Global,
    notes: &[Note],
    bounds: &[Bounds],
    outside: usize,
) -> Result<Vec<u64>, AllocError> {
    let mut numbers = Vec::new(alloc);
    'notes: for note in notes {
        let mut values = Vec::new(alloc);
        'loops: for (level, turn) in note.loops.iter().enumerate() {
            if level >= outside && values.len() < bounds.len() {
                values.push(turn.value)?;
            }
        }
        if values.len() == bounds.len() && !values.is_empty() {
            numbers.push(number_of(bounds, &values))?;
        }
    }
    Ok(numbers)
}

fn values_in(item: &Item, turn: &[u64], alloc: Global) -> Result<LoopValues, AllocError> {
    let mut values = SmallVec::new(alloc);
    'around: for value in item.loops.values.as_slice() {
        values.push(*value)?;
    }
    'own: for value in turn {
        values.push(*value)?;
    }
    Ok(LoopValues { values })
}

impl Scene<'_> {
    // What a turn touches. A turn in which a subscript can leave its array has no footprint.
    fn turn(
        &self,
        alloc: Global,
        item: &Item,
        body: &Region,
        values: Vec<u64>,
        meets: bool,
    ) -> Result<Option<KernelTurn>, AllocError> {
        let loops = values_in(item, &values, alloc)?;
        let found = match footprint(alloc, self.outlined.program(), body, &loops) {
            Ok(found) => found,
            Err(FootprintFault::Range(_)) => return Ok(None),
            Err(FootprintFault::OutOfMemory) => return Err(AllocError),
        };
        Ok(Some(KernelTurn {
            values,
            read: found.runs(alloc, Part::Read)?,
            write: found.runs(alloc, Part::Write)?,
            meets,
        }))
    }

    /// Some turns of an item's kernel, where they may run in any order. The turns that these notes tell of meet.
    pub fn kernel(
        &self,
        alloc: Global,
        item: &Item,
        notes: &[Note],
    ) -> Result<Option<Kernel>, AllocError> {
        let Some(region) = self.region_of(item) else {
            return Ok(None);
        };
        let mut bounds = Vec::new(alloc);
        let inner = body_of(region.depth, &region.body, &mut bounds)?;
        let count = count_of(&bounds);
        if bounds.is_empty() || count == 0 {
            return Ok(None);
        }
        let outside = item.loops.values.len();
        let meeting = met_turns(alloc, notes, &bounds, outside)?;
        let body = Region {
            place: region.place,
            body: copies_of(alloc, inner)?,
            depth: 0,
        };
        let mut turns = Vec::new(alloc);
        'turns: for number in &numbers_of(alloc, count, &meeting)? {
            let values = values_of(alloc, &bounds, *number)?;
            let meets = meeting.contains(number);
            if let Some(turn) = self.turn(alloc, item, &body, values, meets)? {
                turns.push(turn)?;
            }
        }
        let names = names_of(alloc, self.bytes, region, outside, bounds.len())?;
        Ok(Some(Kernel {
            names,
            count,
            turns,
        }))
    }
}
