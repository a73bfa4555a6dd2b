// The cells that entries would create.

ghost use Rattle.std.specs.Prelude.{◌≡◌, ◌≤◌, drop, length};
ghost use Rattle.base.specs.Memory.{overlaps};
ghost use Rattle.present.specs.Blocks.{IsSection};
ghost use Rattle.present.specs.Needed.{AreAll, IsFreeOr, IsMetOr, IsNewOr, Needs, sections_in};
ghost use Rattle.present.specs.Table.{AreSections, IsNeed};

use crate::Table;
use crate::find::{Found, find};
use base::item::{MapItem, Section};

// Sections that entries have created, the last one first.
#[derive(Clone, Copy)]
pub enum Created<'a> {
    Nothing,
    Also(Section, &'a Created<'a>),
}

// Whether two sections share a cell.
fn overlap(a: &Section, b: &Section) -> bool
    requires first { IsSection a.now }
    requires second { IsSection b.now }
    ensures { result ≡ overlaps a.now b.now }
{
    a.array.0 == b.array.0 && a.first < b.first + b.length && b.first < a.first + a.length
}

// Whether a section shares a cell with one of these.
fn meets(created: &Created<'_>, section: &Section) -> bool
    requires created { AreAll (sections_in created.now) }
    requires section { IsSection section.now }
    ensures { IsMetOr (sections_in created.now) section.now result }
{
    match created {
        Created::Nothing => false,
        Created::Also(first, others) => {
            if overlap(first, section) {
                true
            } else {
                meets(others, section)
            }
        }
    }
}

impl Table {
    // Whether no cell of a section has storage, after the creation of these.
    fn is_free(&self, section: &Section, created: &Created<'_>) -> bool
        requires created { AreAll (sections_in created.now) }
        requires section { IsSection section.now }
        ensures { IsFreeOr self.now (sections_in created.now) section.now result }
    {
        match find(&self.blocks, section) {
            Found::Absent(_) => !meets(created, section),
            Found::Inside(_) => false,
            Found::InPart => false,
        }
    }

    // Whether an entry would create its block, after the creation of these.
    fn is_new(&self, item: &MapItem, created: &Created<'_>) -> bool
        requires created { AreAll (sections_in created.now) }
        requires section { IsSection item.now.section }
        ensures { IsNewOr self.now (sections_in created.now) item.now result }
    {
        !item.present && self.is_free(&item.section, created)
    }

    // The cells that the entries from this one on would create, if a number can say it.
    fn needed_from(&self, items: &[MapItem], from: usize, created: &Created<'_>) -> Option<u64>
        requires items { AreSections items.now }
        requires from { from ≤ length items.now }
        requires created { AreAll (sections_in created.now) }
        ensures { Needs self.now (sections_in created.now) (drop from items.now) result }
    {
        if from == items.len() {
            return Some(0);
        }
        let item = &items[from];
        let section = item.section;
        if self.is_new(item, created) {
            let more = Created::Also(section, &*created);
            match self.needed_from(items, from + 1, &more) {
                None => None,
                Some(cells) => {
                    if u64::MAX - section.length < cells {
                        None
                    } else {
                        Some(cells + section.length)
                    }
                }
            }
        } else {
            self.needed_from(items, from + 1, &*created)
        }
    }

    // The cells that entries in turn would create, if a number can say it.
    pub(crate) fn needed(&self, items: &[MapItem]) -> Option<u64>
        requires { AreSections items.now }
        ensures { Needs self.now (sections_in Created.Nothing) items.now result }
    {
        self.needed_from(items, 0, &Created::Nothing)
    }

    /// The cells that entries in turn would create, or the greatest number where they are more. An entry that overlaps
    /// a block in part, or is to be present, creates none. It takes time for each two of the entries.
    pub fn need(&self, items: &[MapItem]) -> u64
        requires { AreSections items.now }
        ensures { IsNeed self.now items.now result }
    {
        match self.needed(items) {
            None => u64::MAX,
            Some(cells) => cells,
        }
    }
}
