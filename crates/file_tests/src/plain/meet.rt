//! On which cell two turns of a region meet that may run in any order, where each turn is compared with each other one.

use super::cut::in_order;
use base::item::{Cell, LoopValues};
use base::tree::{CombineOp, Place, Program, Region, Stmt};
use ranges::{Part, Run, footprint};
use smallvec::SmallVec;
use std::alloc::{AllocError, Global};

/// The operators of commuting updates.
const OPERATORS: [CombineOp; 7] = [
    CombineOp::Add,
    CombineOp::Multiply,
    CombineOp::BitAnd,
    CombineOp::BitOr,
    CombineOp::BitXor,
    CombineOp::Min,
    CombineOp::Max,
];

/// The cells that some statements may read, and those that they may write.
#[derive(Drop)]
struct Touched {
    read: Vec<Run>,
    write: Vec<Run>,
}

/// What a turn touches, and for each operator what it touches besides commuting updates by that. Without such updates
/// there is no list of others.
#[derive(Drop)]
struct Turn {
    all: Touched,
    others: Vec<Touched>,
}

fn has(runs: &[Run], cell: Cell) -> bool {
    for run in runs {
        let end = run.first.saturating_add(run.length);
        if run.array == cell.array && run.first <= cell.index && cell.index < end {
            return true;
        }
    }
    false
}

impl Touched {
    fn has(&self, cell: Cell) -> bool {
        has(&self.read, cell) || has(&self.write, cell)
    }
}

/// Whether some of these statements are commuting updates.
#[cycle(updates)]
fn have_updates(all: &[Stmt]) -> bool {
    for stmt in all {
        if is_update(stmt) {
            return true;
        }
    }
    false
}

#[cycle(updates)]
fn is_update(stmt: &Stmt) -> bool {
    match stmt {
        Stmt::Declare(_, _) | Stmt::Assign(_, _) | Stmt::Store(_, _, _, _) | Stmt::Print(_) => {
            false
        }
        Stmt::Combine(_, _, _, _, _) => true,
        Stmt::Block(inner) | Stmt::Loop(_, inner) => have_updates(inner),
        Stmt::If(_, first, second) => have_updates(first) || have_updates(second),
    }
}

/// What a region touches with these values of the loops around; none where it has a fault of range.
fn touched_by(
    alloc: Global,
    program: &Program,
    region: &Region,
    loops: &[u64],
) -> Result<Option<Touched>, AllocError> {
    let loops = LoopValues {
        values: SmallVec::from_slice(alloc, loops)?,
    };
    match footprint(alloc, program, region, &loops) {
        Ok(found) => Ok(Some(Touched {
            read: found.runs(alloc, Part::Read)?,
            write: found.runs(alloc, Part::Write)?,
        })),
        Err(_) => Ok(None),
    }
}

/// The turn of these statements with these values of the loops around; none where it has a fault of range.
fn turn_of(
    alloc: Global,
    program: &Program,
    place: Place,
    body: &[Stmt],
    loops: &[u64],
) -> Result<Option<Turn>, AllocError> {
    let region = in_order(alloc, place, body, None)?;
    let Some(all) = touched_by(alloc, program, &region, loops)? else {
        return Ok(None);
    };
    let mut others = Vec::new(alloc);
    if have_updates(body) {
        for op in OPERATORS {
            let region = in_order(alloc, place, body, Some(op))?;
            if let Some(other) = touched_by(alloc, program, &region, loops)? {
                others.push(other)?;
            }
        }
    }
    Ok(Some(Turn { all, others }))
}

/// Adds the turns of so many loops, the outermost first, that stand alone in one another.
#[cycle(turns)]
fn add_turns(
    alloc: Global,
    program: &Program,
    place: Place,
    depth: u8,
    body: &[Stmt],
    loops: &mut Vec<u64>,
    out: &mut Vec<Turn>,
) -> Result<(), AllocError> {
    if depth > 0
        && let [Stmt::Loop(bounds, inner)] = body
    {
        for n in 0..bounds.turns() {
            loops.push(bounds.first.saturating_add(n.saturating_mul(bounds.step)))?;
            add_turns(alloc, program, place, depth - 1, inner, loops, out)?;
            let _ = loops.pop();
        }
        return Ok(());
    }
    if let Some(turn) = turn_of(alloc, program, place, body, loops)? {
        out.push(turn)?;
    }
    Ok(())
}

/// Whether two turns touch a cell by commuting updates with one operator alone.
fn commute(one: &Turn, other: &Turn, cell: Cell) -> bool {
    for (left, right) in one.others.iter().zip(other.others.iter()) {
        if !left.has(cell) && !right.has(cell) {
            return true;
        }
    }
    false
}

/// The first cell of a run in another turn that the two meet on.
fn first_of(run: Run, one: &Turn, other: &Turn) -> Option<Cell> {
    for index in run.first..run.first.saturating_add(run.length) {
        let cell = Cell {
            array: run.array,
            index,
        };
        if other.all.has(cell) && !commute(one, other, cell) {
            return Some(cell);
        }
    }
    None
}

/// The lesser of a cell and the first that a turn writes and another one reads or writes.
fn lesser(found: Option<Cell>, one: &Turn, other: &Turn) -> Option<Cell> {
    let mut least = found;
    for run in &one.all.write {
        if let Some(cell) = first_of(*run, one, other) {
            least = match least {
                Some(other) if other <= cell => Some(other),
                _ => Some(cell),
            };
        }
    }
    least
}

/// The least cell that a turn writes and another one reads or writes, unless both do so by updates that commute.
fn meeting_of(turns: &[Turn]) -> Option<Cell> {
    let mut least = None;
    for (number, one) in turns.iter().enumerate() {
        for (other, turn) in turns.iter().enumerate() {
            if number != other {
                least = lesser(least, one, turn);
            }
        }
    }
    least
}

/// The least cell on which two turns of a region meet. No turn reads what another one assigned.
pub(crate) fn meeting(
    alloc: Global,
    program: &Program,
    region: &Region,
    loops: &LoopValues,
) -> Result<Option<Cell>, AllocError> {
    if region.depth == 0 {
        return Ok(None);
    }
    let mut values = Vec::from_slice(alloc, &loops.values)?;
    let mut turns = Vec::new(alloc);
    add_turns(
        alloc,
        program,
        region.place,
        region.depth,
        &region.body,
        &mut values,
        &mut turns,
    )?;
    Ok(meeting_of(&turns))
}
