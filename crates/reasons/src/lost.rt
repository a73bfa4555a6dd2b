// Last values that were copied over, and what would keep them.

use crate::diagnosis::{Note, Weight};
use crate::ends::statements_end;
use crate::events::MOST_EVENTS;
use crate::runs::Copying;
use crate::scene::{Scene, place_of};
use crate::words::{add, map_word, side_text};
use base::item::{Cell, Item, ItemKind, MapItem};
use history::{Event, History, How, Side};
use std::alloc::AllocError;

/// That a map item copied over a value what another side had.
#[derive(Clone, Copy)]
pub struct Over {
    pub event: Event,
    pub map: usize,
    pub from: Side,
}

impl Scene<'_> {
    /// The copy over the value that a side had since an item, where there was one.
    pub fn copied_over(&self, history: &History, since: u32, side: Side) -> Option<Over> {
        let event = history.event(side)?;
        let How::Copied(map, from, _) = event.how else {
            return None;
        };
        if event.item < since {
            return None;
        }
        if let Side::Device(device) = side
            && let Some((number, _)) = self.last_removal(device, history.cell, event.item)
            && number >= since
        {
            return None;
        }
        Some(Over { event, map, from })
    }

    /// The region that may have written a cell elsewhere since an item left its last value on a side.
    pub fn written_over(&self, history: &History, since: u32, side: Side) -> Option<Event> {
        let event = history.event(side)?;
        if event.item >= since && matches!(event.how, How::Written(_)) {
            Some(event)
        } else {
            None
        }
    }

    /// That the last value of a cell was on a side, and may have been written elsewhere since.
    pub fn doubted_text(&self, event: &Event, side: Side) -> Result<String, AllocError> {
        let there = side_text(self.alloc, side)?;
        match event.how {
            How::Written(other) => {
                let (what, other) = (self.item_text(event.item)?, side_text(self.alloc, other)?);
                format!(in self.alloc;
                    "whose last value was on {there}, and which {what} may have written on {other} since"
                )
            }
            _ => format!(in self.alloc; "whose last value was on {there}"),
        }
    }

    // How the last value of a cell could have come to where it may have been written since.
    fn help_doubted(
        &self,
        cell: Cell,
        event: &Event,
        side: Side,
        notes: &mut Vec<Note>,
    ) -> Result<(), AllocError> {
        let (Some(item), How::Written(to)) = (self.item(event.item), event.how) else {
            return Ok(());
        };
        let device = match (side, to) {
            (Side::Host, Side::Device(device)) | (Side::Device(device), Side::Host) => device,
            _ => return Ok(()),
        };
        let copying = Copying {
            from: side,
            to,
            until: event.item,
        };
        self.help_before(cell, item, device, copying, notes)
    }

    /// What became of the last value that an item left on a side, and what would keep it, where it is not there any more.
    /// Whether that is so.
    pub fn tells_over(
        &self,
        history: &History,
        since: u32,
        side: Side,
        notes: &mut Vec<Note>,
    ) -> Result<bool, AllocError> {
        let cell = history.cell;
        if let Some(over) = self.copied_over(history, since, side) {
            self.note_event(&over.event, cell, notes)?;
            self.help_over(cell, &over, notes)?;
            return Ok(true);
        }
        if let Some(event) = self.written_over(history, since, side) {
            self.note_event(&event, cell, notes)?;
            self.help_doubted(cell, &event, side, notes)?;
            return Ok(true);
        }
        Ok(false)
    }

    /// A copy over the current value of a side, by which that value was lost.
    pub fn lost_by(&self, history: &History, event: Event) -> Result<Option<Over>, AllocError> {
        let How::Copied(map, from, Some(earlier)) = event.how else {
            return Ok(None);
        };
        let is_written = match history.events.get(earlier) {
            None => false,
            Some(before) => matches!(before.how, How::Written(_)),
        };
        if !is_written || !self.is_current_before(history.cell, event.item, event.side)? {
            return Ok(None);
        }
        Ok(Some(Over { event, map, from }))
    }

    /// The same of an event, or of those before it by which the cell was stale where it was copied from.
    pub fn lost_in(&self, history: &History, event: Event) -> Result<Option<Over>, AllocError> {
        let mut event = event;
        'events: for _ in 0..MOST_EVENTS {
            if let Some(over) = self.lost_by(history, event)? {
                return Ok(Some(over));
            }
            let How::Copied(_, _, Some(earlier)) = event.how else {
                return Ok(None);
            };
            match history.events.get(earlier) {
                None => return Ok(None),
                Some(before) => event = *before,
            }
        }
        Ok(None)
    }

    /// That the last value of a cell was on a side, and was copied over.
    pub fn over_text(&self, over: &Over) -> Result<String, AllocError> {
        let (there, from) = (
            side_text(self.alloc, over.event.side)?,
            side_text(self.alloc, over.from)?,
        );
        let number = over.event.item;
        match (self.item(number), self.map_item(number, over.map)) {
            (Some(item), Some(map)) => {
                let (text, line) = (self.map_text(item, map)?, self.done_at(item).line);
                format!(in self.alloc;
                    "whose last value was on {there}, and {text} at line {line} copied over it what {from} had"
                )
            }
            _ => format!(in self.alloc; "whose last value was on {there}"),
        }
    }

    // The other direction for an update.
    fn turned_text(&self, map: &MapItem, to: Side) -> Result<String, AllocError> {
        let word = map_word(map.kind);
        let (other, there) = (
            if word == "to" { "from" } else { "to" },
            side_text(self.alloc, to)?,
        );
        format!(in self.alloc;
            "write `{other}` in place of `{word}` here, which copies it to {there}"
        )
    }

    // An update of the cells around one.
    fn sent_text(&self, cell: Cell, device: u8, copying: Copying) -> Result<String, AllocError> {
        let word = match copying.to {
            Side::Host => "from",
            Side::Device(_) => "to",
        };
        let run = self.run_around(cell, device, copying)?;
        self.update_text(word, &run, device)
    }

    // How the value could have come to another side before an item copied over it.
    fn help_before(
        &self,
        cell: Cell,
        item: &Item,
        device: u8,
        copying: Copying,
        notes: &mut Vec<Note>,
    ) -> Result<(), AllocError> {
        let (update, before) = (
            self.sent_text(cell, device, copying)?,
            self.before_text(item),
        );
        let there = side_text(self.alloc, copying.to)?;
        let message = format!(in self.alloc;
            "write {update} {before}, which copies it to {there}"
        )?;
        add(notes, Weight::Help, self.done_at(item), message)
    }

    // How the last value of a cell could have come to another side before it was copied over.
    fn help_over(&self, cell: Cell, over: &Over, notes: &mut Vec<Note>) -> Result<(), AllocError> {
        let number = over.event.item;
        let (Some(item), Some(map)) = (self.item(number), self.map_item(number, over.map)) else {
            return Ok(());
        };
        match item.kind {
            ItemKind::Update => {
                let message = self.turned_text(map, over.from)?;
                add(notes, Weight::Help, place_of(map), message)
            }
            _ => {
                let copying = Copying {
                    from: over.event.side,
                    to: over.from,
                    until: number,
                };
                self.help_before(cell, item, item.device.number, copying, notes)
            }
        }
    }

    // How a value that the host wrote could come to a device behind its statements.
    fn help_behind(
        &self,
        cell: Cell,
        number: u32,
        device: u8,
        notes: &mut Vec<Note>,
    ) -> Result<(), AllocError> {
        let Some(item) = self.item(number) else {
            return Ok(());
        };
        let copying = Copying {
            from: Side::Host,
            to: Side::Device(device),
            until: number.saturating_add(1),
        };
        let update = self.sent_text(cell, device, copying)?;
        let message = format!(in self.alloc;
            "write {update} after this, which copies it to device {device}"
        )?;
        add(
            notes,
            Weight::Help,
            statements_end(self.bytes, item.place),
            message,
        )
    }

    /// How the host's value of a cell could have come to the device from where it was copied over.
    pub fn help_lost(
        &self,
        cell: Cell,
        over: &Over,
        first: Event,
        notes: &mut Vec<Note>,
    ) -> Result<(), AllocError> {
        match (over.from, first.how) {
            (Side::Device(device), How::Written(Side::Host)) => {
                self.help_behind(cell, first.item, device, notes)
            }
            _ => self.help_over_lost(cell, over, notes),
        }
    }

    fn help_over_lost(
        &self,
        cell: Cell,
        over: &Over,
        notes: &mut Vec<Note>,
    ) -> Result<(), AllocError> {
        let (Some(item), Side::Device(device)) = (self.item(over.event.item), over.from) else {
            return Ok(());
        };
        let copying = Copying {
            from: over.event.side,
            to: over.from,
            until: over.event.item,
        };
        self.help_before(cell, item, device, copying, notes)
    }
}
