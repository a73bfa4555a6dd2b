// Cells and sections of an array of two or three dimensions, whose rows lie one behind the other.

ghost use Rattle.std.specs.Prelude.{◌≡◌, ◌+◌, ◌*◌, ◌<◌, IfSome};

use std::alloc::{AllocError, Global};

/// The length of the second dimension of an array, and of the third one, if it has three.
#[derive(Clone, Copy)]
pub struct Sides {
    pub second: u64,
    pub third: Option<u64>,
}

impl Sides {
    /// How many cells a row has.
    pub fn cells(self) -> u64 {
        match self.third {
            None => self.second,
            Some(third) => self.second.saturating_mul(third),
        }
    }
}

/// A cell, by its row and its place in the row.
#[derive(Clone, Copy)]
pub struct Cell {
    pub row: u64,
    pub column: u64,
}

/// The cell at a place in all rows, of which each has so many cells. None where a row has no cells.
pub fn cell_of(index: u64, columns: u64) -> Option<Cell>
    ensures place { IfSome result (λ c. c.row * columns + c.column ≡ index) }
    ensures within { IfSome result (λ c. c.column < columns) }
{
    if columns == 0 {
        return None;
    }
    Some(Cell {
        row: index / columns,
        column: index % columns,
    })
}

/// So many whole rows, from this one on.
#[derive(Clone, Copy)]
pub struct Rows {
    pub first: u64,
    pub count: u64,
}

/// The rows that are exactly the cells from a first one on. None where these are no whole rows.
pub fn rows_of(first: u64, length: u64, columns: u64) -> Option<Rows>
    ensures first { IfSome result (λ r. r.first * columns ≡ first) }
    ensures count { IfSome result (λ r. r.count * columns ≡ length) }
{
    let begin = cell_of(first, columns)?;
    let cells = cell_of(length, columns)?;
    if begin.column != 0 || cells.column != 0 {
        return None;
    }
    Some(Rows {
        first: begin.row,
        count: cells.row,
    })
}

/// The subscripts of the cell at a place in all rows.
pub fn cell_text(alloc: Global, index: u64, sides: Sides) -> Result<String, AllocError> {
    let Some(cell) = cell_of(index, sides.cells()) else {
        return format!(in alloc; "[{index}]");
    };
    if let Some(third) = sides.third
        && let Some(inner) = cell_of(cell.column, third)
    {
        return format!(in alloc; "[{}][{}][{}]", cell.row, inner.row, inner.column);
    }
    format!(in alloc; "[{}][{}]", cell.row, cell.column)
}

/// So many rows from this one on, as a section names them.
pub fn rows_text(
    alloc: Global,
    first: u64,
    count: u64,
    sides: Sides,
) -> Result<String, AllocError> {
    match sides.third {
        None => format!(in alloc; "[{first}:{count}][0:{}]", sides.second),
        Some(third) => format!(in alloc; "[{first}:{count}][0:{}][0:{third}]", sides.second),
    }
}
