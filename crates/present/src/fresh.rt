// What created storage holds.

ghost use Rattle.std.specs.Prelude.{◌<◌, ◌^◌};
ghost use Rattle.base.specs.declared.item.Cell.{Cell};
ghost use Rattle.present.specs.Table.{fill_of};

use crate::Table;

impl Table {
    /// A number, in each cell.
    pub fn fills_with_numbers(&self)
        ensures { (c : Cell) → fill_of self.now c < 2 ^ 64 }
    {
        let _fresh = self.fresh;
    }
}
