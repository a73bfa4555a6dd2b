// What an item does to a cell, as the definition of conflicts has it.

ghost use Rattle.std.specs.Prelude.{◌≡◌, true, IfOk, IsTrue};
ghost use Rattle.base.specs.Items.{plan};
ghost use Rattle.mapcheck.specs.Accesses.{has_cell, same_loc};
ghost use Rattle.reasons.specs.Conflicting.{Meet, Touches, some_touch};

use crate::diagnosis::{Conflict, Touch};
use crate::past::Past;
use crate::scene::has_cell;
use base::item::{Cell, Loc};
use mapcheck::accesses::{Accesses, Cells};
use std::alloc::{AllocError, Global};

/// Whether two locations are one.
pub fn is_same_loc(left: Loc, right: Loc) -> bool
    ensures { result ≡ same_loc left right }
{
    match (left, right) {
        (Loc::Host, Loc::Host) => true,
        (Loc::Dev(one), Loc::Dev(other)) | (Loc::Tab(one), Loc::Tab(other)) => one == other,
        _ => false,
    }
}

fn have(cells: Cells<'_>, cell: Cell) -> bool
    ensures { result ≡ has_cell cells.entry cell }
{
    match cells {
        Cells::Section(section) => has_cell(&section, cell),
        Cells::Set(set) => set.contains(cell),
    }
}

// Whether one of these accesses is this one, of the cell.
fn is_among(touch: &Touch, accesses: &Accesses<'_>, cell: Cell) -> bool
    ensures { IsTrue result → some_touch accesses.now.list.items touch.now.writes touch.now.loc cell ≡ true }
{
    'accesses: for access in &accesses.list {
        if access.writes == touch.writes
            && is_same_loc(access.loc, touch.loc)
            && have(access.cells, cell)
        {
            return true;
        }
    }
    false
}

impl Past<'_> {
    /// Whether an item that was reached reads, or writes, a cell like this.
    pub fn touches(&self, alloc: Global, touch: &Touch, cell: Cell) -> Result<bool, AllocError>
        ensures { IfOk result (λ b. IsTrue b → Touches (plan self.now) cell touch.now) }
    {
        match self.accesses_of(alloc, touch.item)? {
            None => Ok(false),
            Some(accesses) => Ok(is_among(touch, &accesses, cell)),
        }
    }

    /// Whether two items that were reached do this to a cell.
    pub fn meet(&self, alloc: Global, conflict: &Conflict, cell: Cell) -> Result<bool, AllocError>
        ensures { IfOk result (λ b. IsTrue b → Meet (plan self.now) cell conflict.now) }
    {
        let (first, second) = (conflict.first, conflict.second);
        if !is_same_loc(first.loc, second.loc) || !(first.writes || second.writes) {
            return Ok(false);
        }
        if !self.touches(alloc, &first, cell)? {
            return Ok(false);
        }
        self.touches(alloc, &second, cell)
    }
}
