// What a region runs on.

ghost use Rattle.std.specs.Prelude.{◌≡◌, length};
ghost use Rattle.shared_row.specs.Rows.{marks_of, numbers_in};

use crate::scalars::Scalars;
use base::item::LoopValues;
use shared_row::{Marks, RowCells};

/// A run of cells of an array, from the index `first` on.
#[derive(Drop)]
pub struct Row {
    pub first: u64,
    pub cells: RowCells,
}

/// What a region runs on: the values of the loops around it, the scalars, for each array by its number the cells that
/// are there, and the input that is left.
#[derive(Drop)]
pub struct Frame<'i> {
    /// The item that the region is run for.
    pub item: u32,
    pub loops: &'i LoopValues,
    pub scalars: Scalars,
    pub rows: Vec<Row>,
    pub input: &'i [u64],
}

/// A row after a region, and which of its cells the region stored in. Of its last cells those may be missing in which
/// the region stored nothing.
#[derive(Drop)]
pub struct KeptRow {
    pub first: u64,
    pub cells: RowCells,
    pub stored: Marks,
    ghost one_mark_each: { length (marks_of (length (numbers_in cells)) stored) ≡ length (numbers_in cells) },
}
