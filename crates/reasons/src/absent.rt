// Sections that are not where a directive needs them (E501 to E504, E509).

use crate::diagnosis::{Diagnosis, Note, Weight};
use crate::past::{Entered, block_with, removed_in};
use crate::rules::refusal_rule;
use crate::runs::hull;
use crate::scene::{Scene, is_same, map_with, overlap, place_of};
use crate::search::{Access, Wanted};
use crate::source::word_at;
use crate::words::{add, construct, device_clause};
use base::fault::{Refusal, RefusalCode};
use base::item::{Cell, Item, ItemKind, MapItem, Section};
use base::tree::Place;
use std::alloc::AllocError;

// How many devices there are.
const DEVICES: u8 = 4;

// The block that a section overlaps.
fn overlapped(blocks: &[Entered], section: &Section) -> Option<Entered> {
    'blocks: for entered in blocks {
        if overlap(&entered.section, section) {
            return Some(*entered);
        }
    }
    None
}

// The map item of an array.
fn map_of<'a>(item: &'a Item, cell: Cell) -> Option<&'a MapItem> {
    let maps: &'a [MapItem] = item.maps.as_slice();
    'maps: for map in maps {
        if map.section.array == cell.array {
            return Some(map);
        }
    }
    None
}

// What goes away with a map item.
fn line_text(item: &Item) -> &'static str {
    if item.maps.len() == 1 {
        "this line"
    } else {
        "this map item"
    }
}

impl Scene<'_> {
    // A refusal at a place, about a cell.
    fn at(
        &self,
        refusal: &Refusal,
        place: Place,
        values: &[u64],
        message: String,
        notes: Vec<Note>,
    ) -> Result<Diagnosis, AllocError> {
        Ok(Diagnosis {
            code: refusal.code.as_str(),
            rule: refusal_rule(refusal.code),
            place,
            message,
            item: Some(refusal.item),
            cell: Some(self.named(refusal.cell)?),
            since: None,
            conflict: None,
            loops: self.turns(place, values)?,
            notes,
        })
    }

    /// Where a block was created.
    pub fn note_entry(
        &self,
        entered: Entered,
        device: u8,
        notes: &mut Vec<Note>,
    ) -> Result<(), AllocError> {
        let Some(map) = self.map_item(entered.item, entered.map) else {
            return Ok(());
        };
        let block = self.section_text(&entered.section)?;
        let message = format!(in self.alloc;
            "{block} is on device {device} since it was entered here"
        )?;
        add(notes, Weight::Note, place_of(map), message)
    }

    fn in_part_text(
        &self,
        item: &Item,
        map: &MapItem,
        entered: &Entered,
    ) -> Result<String, AllocError> {
        let (text, block) = (
            self.map_text(item, map)?,
            self.section_text(&entered.section)?,
        );
        let turn = self.turn_at(place_of(map), &item.loops.values)?;
        let device = item.device.number;
        format!(in self.alloc;
            "{text} overlaps {block}, which is on device {device}, without lying inside it{turn}"
        )
    }

    // What is touched of an array outside a block by a target that is refused.
    fn touched_outside(
        &self,
        refusal: &Refusal,
        block: &Section,
    ) -> Result<Option<Section>, AllocError> {
        'touched: for run in self.touched(refusal.item, refusal.cell)?.as_slice() {
            if !is_same(&hull(block, run), block) {
                return Ok(Some(*run));
            }
        }
        Ok(None)
    }

    // Where a target needs more than the block has.
    fn help_wider(
        &self,
        map: &MapItem,
        entered: &Entered,
        needed: &Section,
        notes: &mut Vec<Note>,
    ) -> Result<(), AllocError> {
        let Some(entry) = self.map_item(entered.item, entered.map) else {
            return Ok(());
        };
        let (all, needed, block) = (
            self.section_text(&hull(&entered.section, &map.section))?,
            self.section_text(needed)?,
            self.section_text(&entered.section)?,
        );
        let message = format!(in self.alloc;
            "enter all of {all} here: the target touches {needed}, and {block} is not enough"
        )?;
        add(notes, Weight::Help, place_of(entry), message)
    }

    // Where a target, which needs no more than the block has, maps all of an array that none of its clauses names.
    fn help_unnamed(
        &self,
        item: &Item,
        map: &MapItem,
        entered: &Entered,
        access: &Access,
        notes: &mut Vec<Note>,
    ) -> Result<(), AllocError> {
        let (name, first, length) = (
            word_at(self.bytes, access.place),
            entered.section.first,
            entered.section.length,
        );
        let all = self.section_text(&map.section)?;
        let message = format!(in self.alloc;
            "write `map(tofrom: {name}[{first}:{length}])` on this line, which maps all of {all} without it"
        )?;
        let place = if self.is_implicit(item, map) {
            item.place
        } else {
            place_of(map)
        };
        add(notes, Weight::Help, place, message)
    }

    fn help_in_part(
        &self,
        refusal: &Refusal,
        item: &Item,
        map: &MapItem,
        entered: &Entered,
        notes: &mut Vec<Note>,
    ) -> Result<(), AllocError> {
        if let Some(needed) = self.touched_outside(refusal, &entered.section)? {
            return self.help_wider(map, entered, &needed, notes);
        }
        if self.sides_of(self.name_of(map.section.array)).is_none()
            && let Some(access) = self.unnamed_access(item, map)?
        {
            return self.help_unnamed(item, map, entered, &access, notes);
        }
        let (section, block) = (
            self.section_text(&map.section)?,
            self.section_text(&entered.section)?,
        );
        let message = format!(in self.alloc;
            "name {block} here, or a section inside it; or enter all of {section} there"
        )?;
        add(notes, Weight::Help, place_of(map), message)
    }

    // Of a map item that overlaps this block in part.
    fn in_part_of(
        &self,
        refusal: &Refusal,
        item: &Item,
        map: &MapItem,
        entered: Entered,
    ) -> Result<Diagnosis, AllocError> {
        let message = self.in_part_text(item, map, &entered)?;
        let mut notes = Vec::new(self.alloc);
        self.note_entry(entered, item.device.number, &mut notes)?;
        self.help_in_part(refusal, item, map, &entered, &mut notes)?;
        self.at(refusal, place_of(map), &item.loops.values, message, notes)
    }

    /// Of a section that overlaps a block in part.
    pub fn in_part(&self, refusal: &Refusal) -> Result<Option<Diagnosis>, AllocError> {
        let Some(item) = self.item(refusal.item) else {
            return Ok(None);
        };
        let Some(map) = map_with(item, refusal.cell) else {
            return Ok(None);
        };
        let blocks = self.blocks(item.device.number, refusal.item)?;
        match overlapped(&blocks, &map.section) {
            None => Ok(None),
            Some(entered) => Ok(Some(self.in_part_of(refusal, item, map, entered)?)),
        }
    }

    fn absence_text(
        &self,
        cell: Cell,
        device: u8,
        remover: Option<u32>,
    ) -> Result<String, AllocError> {
        let name = self.cell_text(cell)?;
        match remover {
            None => format!(in self.alloc; "nothing before has entered {name} on device {device}"),
            Some(number) => {
                let here = self
                    .item(number)
                    .map_or("here", |item| self.here_text(item));
                format!(in self.alloc; "{name} was removed from device {device} {here}")
            }
        }
    }

    // Where a cell was removed from a device, or that it was never there.
    fn note_absence(
        &self,
        refusal: &Refusal,
        device: u8,
        place: Place,
        notes: &mut Vec<Note>,
    ) -> Result<(), AllocError> {
        let (remover, place) = match self.last_removal(device, refusal.cell, refusal.item) {
            None => (None, place),
            Some((number, map)) => match self.map_item(number, map) {
                None => return Ok(()),
                Some(map) => (Some(number), place_of(map)),
            },
        };
        let message = self.absence_text(refusal.cell, device, remover)?;
        add(notes, Weight::Note, place, message)
    }

    // Other devices that have the cell.
    fn note_elsewhere(
        &self,
        refusal: &Refusal,
        device: u8,
        notes: &mut Vec<Note>,
    ) -> Result<(), AllocError> {
        'devices: for other in 0..DEVICES {
            if other != device {
                let blocks = self.blocks(other, refusal.item)?;
                if let Some(entered) = block_with(&blocks, refusal.cell) {
                    self.note_entry(entered, other, notes)?;
                }
            }
        }
        Ok(())
    }

    fn missing_text(&self, item: &Item, map: &MapItem, turn: &str) -> Result<String, AllocError> {
        let (text, section) = (self.map_text(item, map)?, self.section_text(&map.section)?);
        let (device, what) = (item.device.number, construct(item.kind));
        format!(in self.alloc;
            "{text} of {what} says that {section} is present, and it is not on device {device}{turn}"
        )
    }

    fn absent_text(
        &self,
        code: RefusalCode,
        item: &Item,
        map: &MapItem,
    ) -> Result<String, AllocError> {
        let turn = self.turn_at(place_of(map), &item.loops.values)?;
        let verb = match code {
            RefusalCode::ExitOfAbsent => "leaves",
            RefusalCode::UpdateOfAbsent => "copies",
            _ => return self.missing_text(item, map, &turn),
        };
        let section = self.section_text(&map.section)?;
        let (device, what) = (item.device.number, construct(item.kind));
        format!(in self.alloc; "{what} {verb} {section}, which is not on device {device}{turn}")
    }

    // An exit behind another item that left the section.
    fn help_exit(
        &self,
        item: &Item,
        map: &MapItem,
        earlier: &Item,
        notes: &mut Vec<Note>,
    ) -> Result<(), AllocError> {
        let section = self.section_text(&map.section)?;
        let message = if item.place.line == earlier.place.line {
            format!(in self.alloc;
                "this line left {section} in an earlier turn: write it behind the loop, or enter {section} in each turn"
            )?
        } else {
            let (what, line) = (line_text(item), self.done_at(earlier).line);
            format!(in self.alloc; "{section} was left at line {line} already: take {what} away")?
        };
        add(notes, Weight::Help, place_of(map), message)
    }

    // An exit in a block that leaves the section at its end.
    fn help_exit_inside(
        &self,
        block: &Item,
        earlier: &Item,
        exit: &MapItem,
        notes: &mut Vec<Note>,
    ) -> Result<(), AllocError> {
        let (section, what) = (self.section_text(&exit.section)?, line_text(earlier));
        let line = self.done_at(block).line;
        let message = format!(in self.alloc;
            "take {what} away: the block that ends at line {line} leaves {section} there"
        )?;
        add(notes, Weight::Help, place_of(exit), message)
    }

    // The last item before another one, but for targets, that removed a cell from a device, and its map item that did.
    fn last_exit(&self, device: u8, cell: Cell, until: u32) -> Option<(u32, usize)> {
        let mut last = None;
        'items: for number in 0..until {
            if let Some(item) = self.item(number)
                && item.device.number == device
                && !matches!(item.kind, ItemKind::Target)
                && let Some(map) = removed_in(self.row(number as usize)?, cell)
            {
                last = Some((number, map));
            }
        }
        last
    }

    // What can be done where an earlier item left a section that is left once more.
    fn help_left(
        &self,
        item: &Item,
        map: &MapItem,
        remover: (u32, usize),
        notes: &mut Vec<Note>,
    ) -> Result<(), AllocError> {
        let (number, place) = remover;
        let (Some(earlier), Some(exit)) = (self.item(number), self.map_item(number, place)) else {
            return Ok(());
        };
        match (item.kind, earlier.kind) {
            (ItemKind::Exit, _) => self.help_exit(item, map, earlier, notes),
            (ItemKind::End, ItemKind::Exit) => self.help_exit_inside(item, earlier, exit, notes),
            _ => self.help_enter(item, map, notes),
        }
    }

    // Another device that has the section.
    fn help_elsewhere(
        &self,
        refusal: &Refusal,
        device: u8,
        map: &MapItem,
        notes: &mut Vec<Note>,
    ) -> Result<(), AllocError> {
        'devices: for other in 0..DEVICES {
            let blocks = self.blocks(other, refusal.item)?;
            if other != device
                && let Some(entered) = block_with(&blocks, refusal.cell)
                && is_same(&hull(&entered.section, &map.section), &entered.section)
            {
                let section = self.section_text(&map.section)?;
                let help = format!(in self.alloc;
                    "write `device({other})` on this line: {section} is present there"
                )?;
                return add(notes, Weight::Help, place_of(map), help);
            }
        }
        Ok(())
    }

    fn help_enter(
        &self,
        item: &Item,
        map: &MapItem,
        notes: &mut Vec<Note>,
    ) -> Result<(), AllocError> {
        let section = self.section_text(&map.section)?;
        let clause = device_clause(self.alloc, item.device.number)?;
        let help = format!(in self.alloc;
            "enter it before, as by `#pragma omp target enter data map(to: {section}){clause}`"
        )?;
        add(notes, Weight::Help, item.place, help)
    }

    fn help_absent(
        &self,
        refusal: &Refusal,
        item: &Item,
        map: &MapItem,
        notes: &mut Vec<Note>,
    ) -> Result<(), AllocError> {
        let device = item.device.number;
        match self.last_exit(device, refusal.cell, refusal.item) {
            Some(remover) => self.help_left(item, map, remover, notes),
            None => {
                self.help_elsewhere(refusal, device, map, notes)?;
                self.help_enter(item, map, notes)
            }
        }
    }

    // Whether a map item stands for an array that is a pointer in C, and that no clause of its target names.
    fn is_pointer(&self, item: &Item, map: &MapItem) -> bool {
        matches!(item.kind, ItemKind::Target) && word_at(self.bytes, place_of(map)) == "target"
    }

    // Where a target uses such an array.
    fn pointer_access(&self, item: &Item, map: &MapItem) -> Result<Option<Access>, AllocError> {
        if !self.is_pointer(item, map) {
            return Ok(None);
        }
        self.access(item, Wanted::Any(map.section.array))
    }

    // Where a target uses an array that none of its clauses names.
    fn unnamed_access(&self, item: &Item, map: &MapItem) -> Result<Option<Access>, AllocError> {
        if !self.is_pointer(item, map) && !self.is_implicit(item, map) {
            return Ok(None);
        }
        self.access(item, Wanted::Any(map.section.array))
    }

    // A pointer that a target uses, whose array is not on the device.
    fn absent_pointer(
        &self,
        refusal: &Refusal,
        item: &Item,
        map: &MapItem,
        access: &Access,
    ) -> Result<Diagnosis, AllocError> {
        let (device, place) = (item.device.number, place_of(map));
        let (name, section) = (
            word_at(self.bytes, access.place),
            self.section_text(&map.section)?,
        );
        let turn = self.turn_at(place, &item.loops.values)?;
        let message = format!(in self.alloc;
            "the target uses `{name}`, a pointer in C, which it names in no `map` clause, and {section} is not on device {device}{turn}"
        )?;
        let mut notes = Vec::new(self.alloc);
        let used = format!(in self.alloc;
            "`{name}` is used here: a target maps no pointer by itself"
        )?;
        add(&mut notes, Weight::Note, access.place, used)?;
        self.note_elsewhere(refusal, device, &mut notes)?;
        let length = map.section.length;
        let help = format!(in self.alloc;
            "write `map(tofrom: {name}[0:{length}])` on this line, or enter it before"
        )?;
        add(&mut notes, Weight::Help, place, help)?;
        self.at(refusal, place, &item.loops.values, message, notes)
    }

    /// Of a section that is not on the device, where it is left, updated, or said to be present.
    pub fn absent(&self, refusal: &Refusal) -> Result<Option<Diagnosis>, AllocError> {
        let Some(item) = self.item(refusal.item) else {
            return Ok(None);
        };
        let Some(map) = map_with(item, refusal.cell) else {
            return Ok(None);
        };
        if let Some(access) = self.pointer_access(item, map)? {
            return Ok(Some(self.absent_pointer(refusal, item, map, &access)?));
        }
        let (device, place) = (item.device.number, place_of(map));
        let message = self.absent_text(refusal.code, item, map)?;
        let mut notes = Vec::new(self.alloc);
        self.note_absence(refusal, device, place, &mut notes)?;
        self.note_elsewhere(refusal, device, &mut notes)?;
        self.help_absent(refusal, item, map, &mut notes)?;
        Ok(Some(self.at(refusal, place, &item.loops.values, message, notes)?))
    }

    fn unmapped_text(&self, cell: Cell, access: &Access) -> Result<String, AllocError> {
        let name = self.cell_text(cell)?;
        let turn = self.turn_at(access.place, &access.loops)?;
        let verb = if access.cells.lo != access.cells.hi {
            "may touch"
        } else if access.writes {
            "writes"
        } else {
            "reads"
        };
        format!(in self.alloc; "the target {verb} {name}, which no map item of it has{turn}")
    }

    // The map item that could be widened.
    fn note_narrow(
        &self,
        item: &Item,
        map: &MapItem,
        notes: &mut Vec<Note>,
    ) -> Result<(), AllocError> {
        let (text, section) = (self.map_text(item, map)?, self.section_text(&map.section)?);
        let told = format!(in self.alloc; "{text} maps no more than {section} to the device")?;
        add(notes, Weight::Note, place_of(map), told)
    }

    // The section that has what is mapped and what the target touches.
    fn needed(&self, refusal: &Refusal, map: &MapItem) -> Result<Section, AllocError> {
        let mut needed = map.section;
        'touched: for run in self.touched(refusal.item, refusal.cell)?.as_slice() {
            needed = hull(&needed, run);
        }
        Ok(needed)
    }

    // The block that is in the way of a wider section.
    fn help_entry(
        &self,
        refusal: &Refusal,
        item: &Item,
        needed: &Section,
        notes: &mut Vec<Note>,
    ) -> Result<(), AllocError> {
        let device = item.device.number;
        let blocks = self.blocks(device, refusal.item)?;
        let Some(entered) = overlapped(&blocks, needed) else {
            return Ok(());
        };
        let all = hull(&entered.section, needed);
        let Some(entry) = self.map_item(entered.item, entered.map) else {
            return Ok(());
        };
        if is_same(&all, &entered.section) {
            return Ok(());
        }
        self.note_entry(entered, device, notes)?;
        let all = self.section_text(&all)?;
        let help = format!(in self.alloc; "widen the section here to {all} too")?;
        add(notes, Weight::Help, place_of(entry), help)
    }

    fn help_narrow(
        &self,
        refusal: &Refusal,
        item: &Item,
        map: &MapItem,
        notes: &mut Vec<Note>,
    ) -> Result<(), AllocError> {
        let needed = self.needed(refusal, map)?;
        let all = self.section_text(&needed)?;
        let help = format!(in self.alloc; "widen the section here to {all}")?;
        add(notes, Weight::Help, place_of(map), help)?;
        self.help_entry(refusal, item, &needed, notes)
    }

    /// Of a cell that a kernel names and its target does not map.
    pub fn unmapped(&self, refusal: &Refusal) -> Result<Option<Diagnosis>, AllocError> {
        let Some(item) = self.item(refusal.item) else {
            return Ok(None);
        };
        let Some(access) = self.access(item, Wanted::Touch(refusal.cell))? else {
            return Ok(None);
        };
        let message = self.unmapped_text(refusal.cell, &access)?;
        let mut notes = Vec::new(self.alloc);
        if let Some(map) = map_of(item, refusal.cell) {
            self.note_narrow(item, map, &mut notes)?;
            self.help_narrow(refusal, item, map, &mut notes)?;
        }
        Ok(Some(self.at(refusal, access.place, &access.loops, message, notes)?))
    }
}
