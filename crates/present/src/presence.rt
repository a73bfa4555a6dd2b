// Where a section lies, as callers are told it.

ghost use Rattle.present.specs.Blocks.{IsSection};
ghost use Rattle.present.specs.Table.{IsPresence};

use crate::Table;
use crate::find::{Found, find};
use base::item::Section;

/// Where a section lies among the blocks of a table.
#[derive(Clone, Copy)]
pub enum Presence {
    /// No block has a cell of it.
    Absent,
    /// A block has all of it.
    Inside,
    /// It overlaps a block in part.
    InPart,
}

impl Table {
    /// Where a section lies.
    pub fn presence(&self, section: &Section) -> Presence
        requires { IsSection section.now }
        ensures { IsPresence section.now self.now result }
    {
        match find(&self.blocks, section) {
            Found::Absent(_) => Presence::Absent,
            Found::Inside(_) => Presence::Inside,
            Found::InPart => Presence::InPart,
        }
    }
}
