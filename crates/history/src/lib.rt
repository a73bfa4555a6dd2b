//! Where one cell is current, item after item, and what made it stale.
#![tactic(auto)]

ghost use Rattle.std.specs.Prelude.{◌≡◌, length};

mod items;
mod moves;

use base::item::Cell;
pub use items::history_of;

// How many devices there are.
const DEVICES: usize = 4;

/// Where a value of a cell is.
#[derive(Clone, Copy, Debug, PartialEq, Eq)]
pub enum Side {
    Host,
    Device(u8),
}

/// What made a cell stale on a side.
#[derive(Clone, Copy)]
pub enum How {
    /// Nothing: no value was there from the start.
    Never,
    /// A region may have written it on another side.
    Written(Side),
    /// The block was created by the map item of that place in its list, and its cells are undefined.
    Created(usize),
    Removed(usize),
    /// It was copied from a side where it was stale, by what is told by this event.
    Copied(usize, Side, Option<usize>),
}

/// What made a cell stale on a side, and by which item.
#[derive(Clone, Copy)]
pub struct Event {
    pub item: u32,
    pub side: Side,
    pub how: How,
}

/// Whether a cell is current on a side, or the number of the event that made it stale last.
#[derive(Clone, Copy)]
pub enum State {
    Current,
    Stale(usize),
}

/// The history of a cell up to an item.
#[derive(Drop)]
pub struct History {
    pub cell: Cell,
    host: State,
    devices: Vec<State>,
    /// What made the cell stale somewhere, in program order.
    pub events: Vec<Event>,
    ghost count: { length devices.items ≡ 4 },
}
