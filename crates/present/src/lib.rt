//! The device's present table: blocks of storage with their counts, and what entries, exits and updates do with them.
#![tactic(auto)]

ghost use Rattle.std.specs.Prelude.{◌≡◌, ◌≤◌, true};
ghost use Rattle.present.specs.Blocks.{are_stored, cells_in};

use crate::block::Block;
use std::alloc::Global;

mod block;
mod cells;
mod entry;
mod exit;
mod find;
mod fresh;
mod needed;
pub mod presence;
mod rows;
mod several;
mod update;

/// The storage of a device with room for so many cells: blocks, each a section with the numbers of its cells, and how
/// often it was entered and not yet left. Storage that is created has the byte a5 in every byte.
///
/// The caller sees to it that each section has a cell and ends within 65,536 cells.
#[derive(Drop)]
pub struct Table {
    alloc: Global,
    // In order of their arrays, and of their places in an array.
    blocks: Vec<Block>,
    used: u64,
    capacity: u64,
    fresh: u64,
    ghost stored: { are_stored blocks.items ≡ true },
    ghost counted: { used ≡ cells_in blocks.items },
    ghost room: { used ≤ capacity },
}
