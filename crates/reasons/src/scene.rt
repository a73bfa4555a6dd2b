// What is known of a program that is refused.

ghost use Rattle.std.specs.Prelude.{◌≡◌};
ghost use Rattle.base.specs.Memory.{is_in};

use crate::diagnosis::{NamedCell, Turn};
use crate::nest::loops_around;
use crate::past::{Entered, Past};
use crate::search::{Access, Wanted, first_access};
use base::item::{Cell, Item, ItemKind, MapItem, Section};
use base::tree::{ArrayId, Place, Program};
use mapwalk::Acts;
use outline::{Outlined, RegionEntry};
use ranges::Footprint;
use std::alloc::{AllocError, Global};

/// A program with its text, and what the items before the one that is refused did, where there was no fault of range and
/// no clash.
#[derive(Drop)]
pub struct Scene<'a> {
    pub alloc: Global,
    pub bytes: &'a [u8],
    pub outlined: &'a Outlined<'a>,
    pub past: Option<Past<'a>>,
}

/// Whether a section has a cell.
pub fn has_cell(section: &Section, cell: Cell) -> bool
    ensures { result ≡ is_in cell section.now }
{
    cell.array.0 == section.array.0
        && section.first <= cell.index
        && cell.index - section.first < section.length
}

/// Whether two sections have a cell in common.
pub fn overlap(left: &Section, right: &Section) -> bool {
    left.array == right.array
        && left.length > 0
        && right.length > 0
        && left.first < right.first.saturating_add(right.length)
        && right.first < left.first.saturating_add(left.length)
}

/// Whether two sections are one.
pub fn is_same(left: &Section, right: &Section) -> bool {
    left.array == right.array && left.first == right.first && left.length == right.length
}

/// The first map item whose section has a cell.
pub fn map_with<'a>(item: &'a Item, cell: Cell) -> Option<&'a MapItem> {
    let maps: &'a [MapItem] = item.maps.as_slice();
    'maps: for map in maps {
        if has_cell(&map.section, cell) {
            return Some(map);
        }
    }
    None
}

/// The place of a map item.
pub fn place_of(map: &MapItem) -> Place {
    Place {
        line: map.line,
        column: map.column,
    }
}

/// The name of an array.
pub fn name_of(program: &Program, array: ArrayId) -> &str {
    match program.arrays.get_index(array.0 as usize) {
        None => "",
        Some((name, _)) => name.as_str(),
    }
}

impl<'a> Scene<'a> {
    pub fn program(&self) -> &'a Program {
        self.outlined.program()
    }

    pub fn name_of(&self, array: ArrayId) -> &'a str {
        name_of(self.program(), array)
    }

    pub fn length_of(&self, array: ArrayId) -> u32 {
        self.outlined
            .lengths()
            .get(array.0 as usize)
            .copied()
            .unwrap_or(0)
    }

    pub fn item(&self, number: u32) -> Option<&'a Item> {
        self.outlined.items().get(number as usize)
    }

    /// Where an item stands.
    pub fn place_of_item(&self, number: u32) -> Place {
        match self.item(number) {
            None => Place { line: 1, column: 1 },
            Some(item) => item.place,
        }
    }

    /// The map item of an item by its place in the list.
    pub fn map_item(&self, number: u32, map: usize) -> Option<&'a MapItem> {
        self.item(number)?.maps.as_slice().get(map)
    }

    /// The footprint of the region of an item.
    pub fn footprint(&self, number: usize) -> Option<&'a Footprint> {
        match &self.past {
            None => None,
            Some(past) => past.footprint(number),
        }
    }

    /// What the map items of an item do.
    pub fn row(&self, number: usize) -> Option<&'a [Acts]> {
        match &self.past {
            None => None,
            Some(past) => past.row(number),
        }
    }

    /// What a map item of an item does.
    pub fn acts(&self, number: u32, map: usize) -> Option<&'a Acts> {
        self.row(number as usize)?.get(map)
    }

    /// Whether a map item of an item copies a cell to the host.
    pub fn copies_out(&self, number: u32, map: usize, cell: Cell) -> bool {
        match (self.acts(number, map), self.map_item(number, map)) {
            (Some(acts), Some(map)) => acts.copies_out && has_cell(&map.section, cell),
            _ => false,
        }
    }

    /// The blocks of a device before an item.
    pub fn blocks(&self, device: u8, until: u32) -> Result<Vec<Entered>, AllocError> {
        match &self.past {
            None => Ok(Vec::new(self.alloc)),
            Some(past) => past.blocks(self.alloc, device, until),
        }
    }

    /// The last item before another one that removed a cell from a device, and the map item by which it did.
    pub fn last_removal(&self, device: u8, cell: Cell, until: u32) -> Option<(u32, usize)> {
        match &self.past {
            None => None,
            Some(past) => past.last_removal(device, cell, until),
        }
    }

    pub fn region_of(&self, item: &Item) -> Option<&'a RegionEntry<'a>> {
        self.outlined.regions().get(item.region? as usize)
    }

    /// The first access of an item's region that is looked for.
    pub fn access(&self, item: &Item, wanted: Wanted) -> Result<Option<Access>, AllocError> {
        let Some(entry) = self.region_of(item) else {
            return Ok(None);
        };
        let lengths = self.outlined.lengths();
        first_access(self.alloc, lengths, entry.region, &item.loops, wanted)
    }

    /// Whether a map item stands for an array that its target uses and names in no `map` clause.
    pub fn is_implicit(&self, item: &Item, map: &MapItem) -> bool {
        match (item.kind, self.region_of(item)) {
            (ItemKind::Target, Some(entry)) => {
                map.line == entry.region.place.line && map.column == entry.region.place.column
            }
            _ => false,
        }
    }

    /// The names and values of the loops around a place. Those around the calls of its function have no name there.
    pub fn turns(&self, place: Place, values: &[u64]) -> Result<Vec<Turn>, AllocError> {
        let names = loops_around(self.alloc, self.bytes, place)?;
        let outside = values.len().saturating_sub(names.len());
        let mut turns = Vec::new(self.alloc);
        'loops: for (level, value) in values.iter().enumerate() {
            let name = match level.checked_sub(outside) {
                Some(inside) => names.get(inside).copied().unwrap_or("a loop"),
                None => "a loop around the call",
            };
            turns.push(Turn {
                name: String::from_str(self.alloc, name)?,
                value: *value,
            })?;
        }
        Ok(turns)
    }

    pub fn named(&self, cell: Cell) -> Result<NamedCell, AllocError> {
        Ok(NamedCell {
            cell,
            array: String::from_str(self.alloc, self.name_of(cell.array))?,
        })
    }
}
