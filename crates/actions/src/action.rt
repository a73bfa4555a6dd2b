// A single action on the memories, and its answer.

use base::item::{Cell, MapItem, Section};
use base::tree::CombineOp;

/// What an open item does next.
#[derive(Clone, Copy)]
pub enum Action {
    Load(Cell),
    Store(Cell, u64),
    /// The cell takes what the operator makes of its number and this one.
    Combine(CombineOp, Cell, u64),
    /// An entry's action on the table: creation and count.
    Enter(MapItem),
    /// An exit's count.
    Leave(MapItem),
    /// The block that contains the section loses its storage.
    Remove(Section),
    CopyIn(Cell),
    CopyOut(Cell),
}

/// What an action gives: the number that was loaded; whether an entry or an exit copies, and whether the exit removes.
#[derive(Clone, Copy)]
pub struct Given {
    pub number: u64,
    pub copies: bool,
    pub removes: bool,
}
