// Finding blocks by their places in one row of all arrays.

ghost use Rattle.std.specs.Prelude.{◌≡◌, ◌<◌, ◌≤◌, ◌^◌, length, true, IfSome, IfNone, None};
ghost use Rattle.present.specs.Blocks.{IsSection, are_stored, start_of, stored_at};
ghost use Rattle.present.specs.Found.{IsFound, IsBlockAt, AllBefore, AllAfter};

use crate::block::Block;
use base::item::{Cell, Section};

/// No array has more cells.
pub const MOST_CELLS: u64 = 65_536;

/// Where a section lies among the blocks.
#[derive(Clone, Copy)]
pub enum Found {
    /// In none, and its place is before this one.
    Absent(usize),
    /// Inside this block.
    Inside(usize),
    InPart,
}

// Where a section begins.
fn start(section: &Section) -> u64
    requires { section.now.first ≤ 65536 }
    ensures value { result ≡ start_of section.now }
    ensures bound { result < 2 ^ 49 }
{
    u64::from(section.array.0) * MOST_CELLS + section.first
}

// The first block that ends after a place.
fn first_after(blocks: &[Block], place: u64) -> usize
    requires { are_stored blocks.now ≡ true }
    ensures bound { result ≤ length blocks.now }
    ensures before { AllBefore blocks.now result place }
    ensures after { AllAfter blocks.now result place }
{
    let mut low = 0;
    let mut high = blocks.len();
    while low < high {
        let middle = low + (high - low) / 2;
        let section = &blocks[middle].section;
        if start(section) + section.length <= place {
            low = middle + 1;
        } else {
            high = middle;
        }
    }
    low
}

/// Where a section lies.
pub fn find(blocks: &[Block], section: &Section) -> Found
    requires stored { are_stored blocks.now ≡ true }
    requires section { IsSection section.now }
    ensures { IsFound blocks.now section.now result }
{
    let first = start(section);
    let end = first + section.length;
    let i = first_after(blocks, first);
    if i == blocks.len() {
        return Found::Absent(i);
    }
    let found = &blocks[i].section;
    let begin = start(found);
    if end <= begin {
        Found::Absent(i)
    } else if begin <= first && end <= begin + found.length {
        Found::Inside(i)
    } else {
        Found::InPart
    }
}

/// The block that has a cell.
pub fn block_with(blocks: &[Block], cell: Cell) -> Option<usize>
    requires { are_stored blocks.now ≡ true }
    ensures some { IfSome result (IsBlockAt blocks.now cell) }
    ensures none { IfNone result (stored_at blocks.now cell ≡ None) }
{
    if cell.index >= MOST_CELLS {
        return None;
    }
    let place = u64::from(cell.array.0) * MOST_CELLS + cell.index;
    let i = first_after(blocks, place);
    if i < blocks.len() && start(&blocks[i].section) <= place {
        Some(i)
    } else {
        None
    }
}
