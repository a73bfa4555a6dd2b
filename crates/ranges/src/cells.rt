// Sets of cells.

ghost use Rattle.std.specs.Prelude.{◌≡◌, ◌≤◌, ◌^◌, ℕ, false, length};
ghost use Rattle.bits.specs.Sets.{has as has_number};

use crate::row::Row;
use base::item::Cell;
use bits::BitSet;
use std::alloc::Global;

/// A set of cells. It has a bit for each cell of an array from the first one in it up to the last one.
#[derive(Drop)]
pub struct CellSet {
    pub(crate) alloc: Global,
    // A row for each array.
    pub(crate) rows: Vec<Row>,
    // No cell, for arrays beyond the rows.
    pub(crate) none: BitSet,
    ghost few: { length rows.items ≤ 2 ^ 32 },
    ghost empty: { (i : ℕ) → has_number none i ≡ false },
}

/// The cells that a region may touch.
#[derive(Drop)]
pub struct Footprint {
    /// Those that it may read with no sure write of them before.
    pub exposed: CellSet,
    /// Those that it may read.
    pub read: CellSet,
    /// Those that it may write.
    pub write: CellSet,
    /// Those that it writes in each run that comes to its end.
    pub sure: CellSet,
    /// The least cell on which two of its turns meet that may run in any order.
    pub meeting: Option<Cell>,
}
