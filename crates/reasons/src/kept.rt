// Why what a device has was not copied to the host.

use crate::diagnosis::{Note, Weight};
use crate::past::{Entered, block_with, copies_from};
use crate::scene::{Scene, has_cell, place_of};
use crate::words::{add, map_word, times_text};
use base::item::{Cell, Item, ItemKind, MapItem, Section};
use mapwalk::Acts;
use std::alloc::AllocError;

// How often a block was entered by items that do not leave it, and which did, and how often it was left.
#[derive(Drop)]
struct Count {
    entries: Vec<Entered>,
    left: u64,
}

impl Count {
    // What one map item does.
    fn take(
        &mut self,
        item: &Item,
        number: u32,
        map: usize,
        acts: &Acts,
    ) -> Result<(), AllocError> {
        if acts.creates || acts.removes {
            self.entries.truncate(0);
            self.left = 0;
        }
        if acts.removes {
            return Ok(());
        }
        match item.kind {
            ItemKind::Enter | ItemKind::Begin => self.entries.push(Entered {
                section: acts.block,
                item: number,
                map,
            })?,
            ItemKind::Exit | ItemKind::End => self.left = self.left.saturating_add(1),
            _ => {}
        }
        Ok(())
    }
}

// A map item that would copy to the host at its end, and does not.
#[derive(Clone, Copy)]
struct Kept {
    item: u32,
    map: usize,
    block: Section,
}

impl Scene<'_> {
    // A map item of an item that would copy the cell to the host, and does not.
    fn kept_in(&self, number: u32, item: &Item, cell: Cell) -> Option<Kept> {
        let row = self.row(number as usize)?;
        'maps: for (place, map) in item.maps.as_slice().iter().enumerate() {
            if has_cell(&map.section, cell)
                && copies_from(map.kind)
                && !self.is_implicit(item, map)
                && let Some(acts) = row.get(place)
                && !acts.copies_out
            {
                return Some(Kept {
                    item: number,
                    map: place,
                    block: acts.block,
                });
            }
        }
        None
    }

    // The last such map item of the items on a device from one up to another.
    fn last_kept(&self, cell: Cell, device: u8, since: u32, until: u32) -> Option<Kept> {
        let mut last = None;
        'items: for number in since..until {
            if let Some(item) = self.item(number)
                && item.device.number == device
                && matches!(item.kind, ItemKind::Target | ItemKind::Exit | ItemKind::End)
                && let Some(kept) = self.kept_in(number, item, cell)
            {
                last = Some(kept);
            }
        }
        last
    }

    // How often the block that has a cell was entered and left, up to an item and with it.
    fn count(&self, cell: Cell, device: u8, last: u32) -> Result<Count, AllocError> {
        let mut count = Count {
            entries: Vec::new(self.alloc),
            left: 0,
        };
        'items: for number in 0..=last {
            if let Some(item) = self.item(number)
                && item.device.number == device
                && let Some(row) = self.row(number as usize)
            {
                'row: for (place, acts) in row.iter().enumerate() {
                    if has_cell(&acts.block, cell) {
                        count.take(item, number, place, acts)?;
                    }
                }
            }
        }
        Ok(count)
    }

    fn kept_text(&self, item: &Item, map: &MapItem, kept: &Kept) -> Result<String, AllocError> {
        let (text, block) = (self.map_text(item, map)?, self.section_text(&kept.block)?);
        let device = item.device.number;
        format!(in self.alloc;
            "{text} copies nothing to the host here, since {block} was on device {device} before"
        )
    }

    // The same of an item that leaves the block.
    fn counted_text(
        &self,
        item: &Item,
        map: &MapItem,
        kept: &Kept,
        count: &Count,
    ) -> Result<String, AllocError> {
        let (text, block) = (self.map_text(item, map)?, self.section_text(&kept.block)?);
        let (entered, left) = (
            times_text(self.alloc, count.entries.len() as u64)?,
            times_text(self.alloc, count.left)?,
        );
        let here = self.here_text(item);
        format!(in self.alloc;
            "{text} copies nothing to the host {here}: {block} was entered {entered}, and left {left}"
        )
    }

    // The last entry of a block that was there.
    fn note_last_entry(
        &self,
        entries: &[Entered],
        notes: &mut Vec<Note>,
    ) -> Result<(), AllocError> {
        let [_, .., last] = entries else {
            return Ok(());
        };
        let Some(map) = self.map_item(last.item, last.map) else {
            return Ok(());
        };
        let block = self.section_text(&last.section)?;
        let message = format!(in self.alloc; "{block} was entered once more here")?;
        add(notes, Weight::Note, place_of(map), message)
    }

    fn help_always(&self, map: &MapItem, notes: &mut Vec<Note>) -> Result<(), AllocError> {
        let word = map_word(map.kind);
        let message = format!(in self.alloc;
            "write `always, {word}` in place of `{word}` here, which copies it to the host each time"
        )?;
        add(notes, Weight::Help, place_of(map), message)
    }

    // Of the map item of a target.
    fn note_kept_by_target(
        &self,
        item: &Item,
        map: &MapItem,
        kept: &Kept,
        notes: &mut Vec<Note>,
    ) -> Result<(), AllocError> {
        let message = self.kept_text(item, map, kept)?;
        add(notes, Weight::Note, place_of(map), message)?;
        let device = item.device.number;
        let blocks = self.blocks(device, kept.item)?;
        let name = Cell {
            array: kept.block.array,
            index: kept.block.first,
        };
        if let Some(entered) = block_with(&blocks, name) {
            self.note_entry(entered, device, notes)?;
        }
        if map.present || map.always {
            return Ok(());
        }
        self.help_always(map, notes)
    }

    // Of the map item of an item that leaves the block.
    fn note_kept_by_exit(
        &self,
        item: &Item,
        map: &MapItem,
        kept: &Kept,
        cell: Cell,
        notes: &mut Vec<Note>,
    ) -> Result<(), AllocError> {
        let device = item.device.number;
        let count = self.count(cell, device, kept.item)?;
        let message = self.counted_text(item, map, kept, &count)?;
        add(notes, Weight::Note, place_of(map), message)?;
        if let Some(first) = count.entries.first() {
            self.note_entry(*first, device, notes)?;
        }
        self.note_last_entry(&count.entries, notes)
    }

    /// Why the last map item that would copy a cell to the host, of the items from one up to another, did not.
    pub fn note_kept(
        &self,
        cell: Cell,
        device: u8,
        since: u32,
        until: u32,
        notes: &mut Vec<Note>,
    ) -> Result<(), AllocError> {
        let Some(kept) = self.last_kept(cell, device, since, until) else {
            return Ok(());
        };
        let (Some(item), Some(map)) = (self.item(kept.item), self.map_item(kept.item, kept.map))
        else {
            return Ok(());
        };
        match item.kind {
            ItemKind::Target => self.note_kept_by_target(item, map, &kept, notes),
            _ => self.note_kept_by_exit(item, map, &kept, cell, notes),
        }
    }

    // The last update of other cells of the array alone.
    fn last_beside(&self, cell: Cell, device: u8, since: u32, until: u32) -> Option<(u32, usize)> {
        let mut last = None;
        'items: for number in since..until {
            if let Some(item) = self.item(number)
                && item.device.number == device
                && matches!(item.kind, ItemKind::Update)
            {
                'maps: for (place, map) in item.maps.as_slice().iter().enumerate() {
                    if copies_from(map.kind)
                        && map.section.array == cell.array
                        && !has_cell(&map.section, cell)
                    {
                        last = Some((number, place));
                    }
                }
            }
        }
        last
    }

    /// That the last update of the array to the host, of the items from one up to another, does not have the cell.
    pub fn note_beside(
        &self,
        cell: Cell,
        device: u8,
        since: u32,
        until: u32,
        notes: &mut Vec<Note>,
    ) -> Result<(), AllocError> {
        let Some((number, map)) = self.last_beside(cell, device, since, until) else {
            return Ok(());
        };
        let (Some(item), Some(map)) = (self.item(number), self.map_item(number, map)) else {
            return Ok(());
        };
        let (text, name) = (self.map_text(item, map)?, self.cell_text(cell)?);
        let message = format!(in self.alloc; "{text} does not have {name}")?;
        add(notes, Weight::Note, place_of(map), message)
    }
}
