// What made a cell stale, event by event.

use crate::diagnosis::{Note, Weight};
use crate::scene::{Scene, place_of};
use crate::search::{Access, Wanted};
use crate::words::{add, side_text};
use base::item::{Cell, Item, ItemKind, MapItem};
use history::{Event, History, How, Side};
use std::alloc::AllocError;

// How many events of a history are told.
pub const MOST_EVENTS: usize = 8;

impl Scene<'_> {
    // Whether the region of an item may write a cell, and need not.
    fn is_uncertain(&self, number: u32, cell: Cell) -> bool {
        match self.footprint(number as usize) {
            None => false,
            Some(found) => found.write.contains(cell) && !found.sure.contains(cell),
        }
    }

    // That an item writes a cell on a side, in a region where no place is known for it.
    fn write_text(
        &self,
        number: u32,
        item: &Item,
        cell: Cell,
        side: Side,
    ) -> Result<String, AllocError> {
        let (name, there) = (self.cell_text(cell)?, side_text(self.alloc, side)?);
        let what = self.doer_text(item)?;
        format!(in self.alloc; "{name} is written on {there} by {what}")
    }

    // Under what a write comes about that need not.
    fn doubt_text(&self, number: u32, cell: Cell, access: &Access) -> &'static str {
        if !self.is_uncertain(number, cell) {
            ""
        } else if access.cells.lo == access.cells.hi {
            ", only under a condition"
        } else {
            ", only where the subscript is that of this cell"
        }
    }

    // The same where its place is known.
    fn write_here_text(
        &self,
        number: u32,
        item: &Item,
        cell: Cell,
        side: Side,
        access: &Access,
    ) -> Result<String, AllocError> {
        let (name, there) = (self.cell_text(cell)?, side_text(self.alloc, side)?);
        let doubt = self.doubt_text(number, cell, access);
        let turn = self.turn_at(access.place, &access.loops)?;
        format!(in self.alloc; "{name} is written here, on {there}{doubt}{turn}")
    }

    // Where the region of an item writes a cell.
    fn note_write(
        &self,
        number: u32,
        cell: Cell,
        side: Side,
        notes: &mut Vec<Note>,
    ) -> Result<(), AllocError> {
        let Some(item) = self.item(number) else {
            return Ok(());
        };
        match self.access(item, Wanted::Write(cell))? {
            None => {
                let message = self.write_text(number, item, cell, side)?;
                add(notes, Weight::Note, item.place, message)
            }
            Some(access) => {
                let message = self.write_here_text(number, item, cell, side, &access)?;
                self.add_in_turn(notes, access.place, message, &access.loops)
            }
        }
    }

    /// The last region before an item that may have written a cell where an event made it stale, and need not.
    pub fn note_uncertain(
        &self,
        cell: Cell,
        first: Event,
        until: u32,
        notes: &mut Vec<Note>,
    ) -> Result<(), AllocError> {
        let Side::Device(device) = first.side else {
            return Ok(());
        };
        let mut writer = None;
        'items: for number in first.item..until {
            if let Some(item) = self.item(number)
                && matches!(item.kind, ItemKind::Target)
                && item.device.number == device
                && self.is_uncertain(number, cell)
            {
                writer = Some(number);
            }
        }
        match writer {
            None => Ok(()),
            Some(number) => self.note_write(number, cell, first.side, notes),
        }
    }

    // The end of a sentence on a map item that did something to a cell of a side, as an event has it.
    fn deed_text(&self, event: &Event, name: &str, when: &str) -> Result<String, AllocError> {
        let here = side_text(self.alloc, event.side)?;
        match event.how {
            How::Removed(_) => format!(in self.alloc; "removes {name} from {here} {when}"),
            How::Copied(_, from, _) => {
                let there = side_text(self.alloc, from)?;
                format!(in self.alloc;
                    "copies {name} from {there} to {here} {when}, whatever it is there"
                )
            }
            How::Created(_) | How::Never | How::Written(_) => format!(in self.alloc;
                "creates {name} on {here} {when}, and copies nothing to it"
            ),
        }
    }

    // What a map item did to a cell.
    fn map_event_text(
        &self,
        event: &Event,
        item: &Item,
        map: &MapItem,
        cell: Cell,
    ) -> Result<String, AllocError> {
        let (text, name) = (self.map_text(item, map)?, self.cell_text(cell)?);
        let deed = self.deed_text(event, &name, self.here_text(item))?;
        format!(in self.alloc; "{text} {deed}")
    }

    // The map item of that place by which an event came about.
    fn note_map(
        &self,
        event: &Event,
        map: usize,
        cell: Cell,
        notes: &mut Vec<Note>,
    ) -> Result<(), AllocError> {
        let (Some(item), Some(map)) = (self.item(event.item), self.map_item(event.item, map)) else {
            return Ok(());
        };
        let message = self.map_event_text(event, item, map, cell)?;
        add(notes, Weight::Note, place_of(map), message)
    }

    /// What an event is.
    pub fn note_event(
        &self,
        event: &Event,
        cell: Cell,
        notes: &mut Vec<Note>,
    ) -> Result<(), AllocError> {
        match event.how {
            How::Never => Ok(()),
            How::Written(side) => self.note_write(event.item, cell, side, notes),
            How::Created(map) | How::Removed(map) | How::Copied(map, _, _) => {
                self.note_map(event, map, cell, notes)
            }
        }
    }

    /// The event that made a cell stale, and those before it by which it was stale where it was copied from. The first
    /// one of all is answered.
    pub fn note_events(
        &self,
        history: &History,
        event: Event,
        notes: &mut Vec<Note>,
    ) -> Result<Event, AllocError> {
        let mut event = event;
        'events: for _ in 0..MOST_EVENTS {
            self.note_event(&event, history.cell, notes)?;
            let How::Copied(_, _, Some(earlier)) = event.how else {
                return Ok(event);
            };
            match history.events.get(earlier) {
                None => return Ok(event),
                Some(before) => event = *before,
            }
        }
        Ok(event)
    }
}
