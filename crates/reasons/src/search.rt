// The first read or write of a region that is looked for.

use base::fault::Interval;
use base::item::{Cell, LoopValues};
use base::tree::{ArrayId, Bounds, Expr, Place, Region, Source, Stmt};
use c_interval::interval;
use std::alloc::{AllocError, Global};

/// What is looked for.
#[derive(Clone, Copy)]
pub enum Wanted {
    /// A read of the cell with no sure write of it before.
    Exposed(Cell),
    Read(Cell),
    Write(Cell),
    Touch(Cell),
    /// Any access of the array.
    Any(ArrayId),
    /// A subscript at that place that can leave its array.
    Outside(Place),
}

/// A read or write of a region, with the values of all loops around it, the outermost first.
#[derive(Drop)]
pub struct Access {
    pub array: ArrayId,
    pub place: Place,
    pub cells: Interval,
    pub writes: bool,
    pub loops: Vec<u64>,
}

#[derive(Drop)]
struct Search<'a> {
    alloc: Global,
    wanted: Wanted,
    lengths: &'a [u32],
    loops: Vec<u64>,
    // The values of loops of a turn that is left out; none is where there are none.
    but: &'a [u64],
    // Whether the cell is surely written so far.
    sure: bool,
    found: Option<Access>,
}

fn is_same(left: Place, right: Place) -> bool {
    left.line == right.line && left.column == right.column
}

fn is_among(cell: Cell, array: ArrayId, cells: Interval) -> bool {
    cell.array == array && cells.lo <= cell.index && cell.index <= cells.hi
}

fn length_of(lengths: &[u32], array: ArrayId) -> u64 {
    u64::from(lengths.get(array.0 as usize).copied().unwrap_or(0))
}

impl Search<'_> {
    fn is_wanted(&self, array: ArrayId, place: Place, cells: Interval, writes: bool) -> bool {
        match self.wanted {
            Wanted::Exposed(cell) => !writes && !self.sure && is_among(cell, array, cells),
            Wanted::Read(cell) => !writes && is_among(cell, array, cells),
            Wanted::Write(cell) => writes && is_among(cell, array, cells),
            Wanted::Touch(cell) => is_among(cell, array, cells),
            Wanted::Any(wanted) => array == wanted,
            Wanted::Outside(at) => {
                is_same(at, place) && cells.hi >= length_of(self.lengths, array)
            }
        }
    }

    // Whether the turn is the one that is left out.
    fn is_left_out(&self) -> bool {
        match self.loops.get(..self.but.len()) {
            Some(front) => !self.but.is_empty() && front == self.but,
            None => false,
        }
    }

    // Whether a write of these cells is one of the cell that is looked for, whichever of them it is.
    fn is_of_the_cell(&self, array: ArrayId, cells: Interval) -> bool {
        match self.wanted {
            Wanted::Exposed(cell) => cells.lo == cells.hi && is_among(cell, array, cells),
            _ => false,
        }
    }

    fn note(
        &mut self,
        array: ArrayId,
        place: Place,
        cells: Interval,
        writes: bool,
    ) -> Result<(), AllocError> {
        if self.found.is_none()
            && self.is_wanted(array, place, cells, writes)
            && !self.is_left_out()
        {
            self.found = Some(Access {
                array,
                place,
                cells,
                writes,
                loops: Vec::from_slice(self.alloc, &self.loops)?,
            });
        }
        Ok(())
    }

    fn note_write(
        &mut self,
        array: ArrayId,
        place: Place,
        cells: Interval,
        certain: bool,
    ) -> Result<(), AllocError> {
        self.note(array, place, cells, true)?;
        if certain && self.is_of_the_cell(array, cells) {
            self.sure = true;
        }
        Ok(())
    }
}

fn search_expr(e: &Expr, search: &mut Search<'_>) -> Result<(), AllocError> {
    match e {
        Expr::Number(_) | Expr::Scalar(_) | Expr::LoopName(_) => Ok(()),
        Expr::Cell(array, place, subscript) => {
            search_expr(subscript, search)?;
            let cells = interval(subscript, &search.loops);
            search.note(*array, *place, cells, false)
        }
        Expr::Unary(_, a) | Expr::Shift(_, a, _) | Expr::Divide(_, a, _) => search_expr(a, search),
        Expr::Binary(_, a, b) | Expr::And(a, b) | Expr::Or(a, b) => {
            search_expr(a, search)?;
            search_expr(b, search)
        }
    }
}

fn search_source(v: &Source, search: &mut Search<'_>) -> Result<(), AllocError> {
    match v {
        Source::Value(e) => search_expr(e, search),
        Source::Read => Ok(()),
    }
}

// A statement. `certain` says that every condition around it is known to let it run.
#[cycle(search)]
fn search_stmt(s: &Stmt, certain: bool, search: &mut Search<'_>) -> Result<(), AllocError> {
    match s {
        Stmt::Declare(_, v) | Stmt::Assign(_, v) => search_source(v, search),
        Stmt::Store(array, place, e, v) => {
            search_expr(e, search)?;
            search_source(v, search)?;
            let cells = interval(e, &search.loops);
            search.note_write(*array, *place, cells, certain)
        }
        Stmt::Combine(_, array, place, e, v) => {
            search_expr(e, search)?;
            search_expr(v, search)?;
            let cells = interval(e, &search.loops);
            search.note(*array, *place, cells, false)?;
            search.note_write(*array, *place, cells, certain)
        }
        Stmt::Print(e) => search_expr(e, search),
        Stmt::Block(all) => search_all(all, certain, search),
        Stmt::Loop(bounds, body) => search_turns(*bounds, body, certain, search),
        Stmt::If(c, first, second) => {
            search_expr(c, search)?;
            let known = interval(c, &search.loops);
            let (fails, holds) = (known.hi == 0, known.lo >= 1);
            search_unless(fails, first, certain && holds, search)?;
            search_unless(holds, second, certain && fails, search)
        }
    }
}

// Statements, unless they are excluded.
#[cycle(search)]
fn search_unless(
    excluded: bool,
    all: &[Stmt],
    certain: bool,
    search: &mut Search<'_>,
) -> Result<(), AllocError> {
    if excluded {
        return Ok(());
    }
    search_all(all, certain, search)
}

#[cycle(search)]
fn search_all(all: &[Stmt], certain: bool, search: &mut Search<'_>) -> Result<(), AllocError> {
    for s in all {
        search_stmt(s, certain, search)?;
    }
    Ok(())
}

// Each turn of a loop, until what is looked for is found.
#[cycle(search)]
fn search_turns(
    bounds: Bounds,
    body: &[Stmt],
    certain: bool,
    search: &mut Search<'_>,
) -> Result<(), AllocError> {
    let mut v = bounds.first;
    while v < bounds.end {
        if search.found.is_some() {
            return Ok(());
        }
        search.loops.push(v)?;
        search_all(body, certain, search)?;
        let _ = search.loops.pop();
        v += bounds.step;
    }
    Ok(())
}

/// The first access of a region that is looked for, with these values of the loops around the region, the outermost
/// first. It takes time for each turn of the region's loops up to it.
pub fn first_access(
    alloc: Global,
    lengths: &[u32],
    region: &Region,
    loops: &LoopValues,
    wanted: Wanted,
) -> Result<Option<Access>, AllocError> {
    first_but(alloc, lengths, region, loops, wanted, &[])
}

/// The same in another turn than the one with these values of the outermost loops.
pub fn first_but(
    alloc: Global,
    lengths: &[u32],
    region: &Region,
    loops: &LoopValues,
    wanted: Wanted,
    but: &[u64],
) -> Result<Option<Access>, AllocError> {
    let mut search = Search {
        alloc,
        wanted,
        lengths,
        loops: Vec::from_slice(alloc, &loops.values)?,
        but,
        sure: false,
        found: None,
    };
    search_all(&region.body, true, &mut search)?;
    let Search { found, .. } = search;
    Ok(found)
}
