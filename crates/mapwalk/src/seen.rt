// What stands against the map items of an item: the least cells.

ghost use Rattle.std.specs.Prelude.{◌≡◌, Some, None, map};
ghost use Rattle.base.specs.Accepted.{first_cell};
ghost use Rattle.base.specs.Least.{is_less};
ghost use Rattle.base.specs.Map.{presence};
ghost use Rattle.mapwalk.specs.Blocks.{block_of, present_at};
ghost use Rattle.mapwalk.specs.Seen.{least_shared, lesser, nothing, seen_absent, seen_at, shared};

use crate::blocks::{Block, Place, end};
use base::item::{Cell, MapItem, Section};

/// The least cell of a section that overlaps a block in part and of a block; the least first cell of a section that is
/// absent, and of one that is absent and is to be present.
#[derive(Clone, Copy)]
pub struct Seen {
    pub in_part: Option<Cell>,
    pub absent: Option<Cell>,
    pub missing: Option<Cell>,
}

// Whether a cell is before another, by array and then by index.
fn comes_before(left: Cell, right: Cell) -> bool
    ensures { result ≡ is_less left right }
{
    left.array.0 < right.array.0 || (left.array.0 == right.array.0 && left.index < right.index)
}

/// The lesser of two cells.
pub fn least(cell: Cell, found: Option<Cell>) -> Cell
    ensures { result ≡ lesser cell found }
{
    match found {
        None => cell,
        Some(other) => {
            if comes_before(cell, other) {
                cell
            } else {
                other
            }
        }
    }
}

// The first cell of a section.
fn first(section: &Section) -> Cell
    ensures { result ≡ first_cell section.now }
{
    Cell {
        array: section.array,
        index: section.first,
    }
}

// The first cell that two sections share.
fn common(left: &Section, right: &Section) -> Option<Cell>
    ensures { result ≡ shared left.now right.now }
{
    let index = left.first.max(right.first);
    if left.array == right.array
        && u128::from(index) < end(left)
        && u128::from(index) < end(right)
    {
        Some(Cell {
            array: left.array,
            index,
        })
    } else {
        None
    }
}

// The least cell that a section shares with a block, and what was found before.
fn least_common(blocks: &[Block], section: &Section, found: Option<Cell>) -> Option<Cell>
    ensures { result ≡ least_shared section.now (map block_of blocks.now) found }
{
    let mut found = found;
    'each: for block in blocks {
        if let Some(cell) = common(section, &block.section) {
            found = Some(least(cell, found));
        }
    }
    found
}

impl Seen {
    pub fn new() -> Seen
        ensures { result ≡ nothing }
    {
        Seen {
            in_part: None,
            absent: None,
            missing: None,
        }
    }

    // Notes a section that is absent.
    fn note_absent(&mut self, item: &MapItem)
        ensures { self.new ≡ seen_absent item.now self.old }
    {
        if item.present {
            self.missing = Some(least(first(&item.section), self.missing));
        } else {
            self.absent = Some(least(first(&item.section), self.absent));
        }
    }

    /// Notes a map item that is met, where its section lies here among the blocks.
    pub fn note(&mut self, place: Place, blocks: &[Block], item: &MapItem)
        requires { present_at place ≡ presence (map block_of blocks.now) item.now.section }
        ensures { self.new ≡ seen_at item.now (map block_of blocks.now) self.old }
    {
        match place {
            Place::Absent => self.note_absent(item),
            Place::Inside(_) => {}
            Place::InPart => self.in_part = least_common(blocks, &item.section, self.in_part),
        }
    }
}
