// What is kept of turns that may run in any order.

ghost use Rattle.std.specs.Prelude.{◌≡◌, length};

use crate::cells::CellSet;
use base::item::Cell;

/// What is noted of the turns so far.
#[derive(Drop)]
pub struct Meetings {
    // For each way the cells that they touched in it.
    pub touched: Vec<CellSet>,
    // The least cell on which two of them meet.
    pub least: Option<Cell>,
    ghost each: { length touched.items ≡ 9 },
}
