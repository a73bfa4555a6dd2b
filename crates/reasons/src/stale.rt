// Reads of cells that are not current (E506, E507).

ghost use Rattle.std.specs.Prelude.{◌≡◌, IfOk, IfSome, Some};
ghost use Rattle.base.specs.Items.{plan};
ghost use Rattle.history.specs.Places.{IsSide};
ghost use Rattle.reasons.specs.Stale.{TellsSince, side_on};

use crate::diagnosis::{Diagnosis, Note, Since, Turn, Weight};
use crate::past::{Past, block_with, copies_from, copies_to};
use crate::rules::refusal_rule;
use crate::runs::Copying;
use crate::scene::{Scene, map_with, place_of};
use crate::search::{Access, Wanted};
use crate::words::{add, construct, map_word, side_text};
use base::fault::Refusal;
use base::item::{Cell, Item, ItemKind, MapItem, MapKind, Section};
use base::tree::Place;
use history::{Event, History, How, Side, State};
use std::alloc::AllocError;

// The side on which the region of an item runs.
fn side_of(item: &Item) -> Side
    ensures side { IsSide result }
    ensures runs { result ≡ side_on item.now.kind item.now.device.number }
{
    match item.kind {
        ItemKind::Target => Side::Device(item.device.number),
        _ => Side::Host,
    }
}

// The same section, copied both ways, or to the side that is meant.
fn better_kind(kind: MapKind) -> &'static str {
    match kind {
        MapKind::To => "tofrom",
        _ => "from",
    }
}

fn better_entry(kind: MapKind) -> &'static str {
    match kind {
        MapKind::From => "tofrom",
        _ => "to",
    }
}

impl Scene<'_> {
    // Of a cell whose last value another side has, or had.
    fn written_elsewhere_text(
        &self,
        history: &History,
        since: &Since,
        other: Side,
    ) -> Result<String, AllocError> {
        if let Some(over) = self.copied_over(history, since.event.item, other) {
            return self.over_text(&over);
        }
        if let Some(event) = self.written_over(history, since.event.item, other) {
            return self.doubted_text(&event, other);
        }
        let (here, there) = (
            side_text(self.alloc, since.side)?,
            side_text(self.alloc, other)?,
        );
        format!(in self.alloc;
            "whose last value is on {there}: nothing has copied it to {here} since"
        )
    }

    // What is wrong with the value that is read.
    fn stale_text(&self, history: &History, since: &Since) -> Result<String, AllocError> {
        let here = side_text(self.alloc, since.side)?;
        if let Some(over) = self.lost_by(history, since.event)? {
            return self.over_text(&over);
        }
        match since.event.how {
            How::Never => format!(in self.alloc; "which was never copied to {here}"),
            How::Written(other) => self.written_elsewhere_text(history, since, other),
            How::Created(_) => {
                format!(in self.alloc;
                    "which is undefined on {here}: it was created there, and nothing was copied to it"
                )
            }
            How::Removed(_) => { format!(in self.alloc; "which was removed from {here}") }
            How::Copied(_, other, _) => {
                let there = side_text(self.alloc, other)?;
                format!(in self.alloc;
                    "which was copied to {here} from {there}, where it was not current itself"
                )
            }
        }
    }

    fn loss_text(&self, item: &Item, map: &MapItem, cell: Cell) -> Result<String, AllocError> {
        let (text, name) = (self.map_text(item, map)?, self.cell_text(cell)?);
        let (device, here) = (item.device.number, self.here_text(item));
        format!(in self.alloc;
            "{text} removes {name} from device {device} {here} without copying it to the host"
        )
    }

    fn help_loss(
        &self,
        map: &MapItem,
        block: &Section,
        notes: &mut Vec<Note>,
    ) -> Result<(), AllocError> {
        let message = if copies_from(map.kind) {
            let block = self.section_text(block)?;
            format!(in self.alloc; "name {block} here, which copies all of it to the host")?
        } else {
            let (better, word) = (better_kind(map.kind), map_word(map.kind));
            format!(in self.alloc;
                "write `{better}` in place of `{word}` here, which copies it to the host"
            )?
        };
        add(notes, Weight::Help, place_of(map), message)
    }

    // That a cell was removed from a device without being copied to the host.
    fn note_loss(
        &self,
        number: u32,
        map: usize,
        cell: Cell,
        notes: &mut Vec<Note>,
    ) -> Result<(), AllocError> {
        let (Some(item), Some(acts), Some(map)) = (
            self.item(number),
            self.acts(number, map),
            self.map_item(number, map),
        ) else {
            return Ok(());
        };
        let message = self.loss_text(item, map, cell)?;
        add(notes, Weight::Note, place_of(map), message)?;
        self.help_loss(map, &acts.block, notes)
    }

    // How a cell that a device has could come to the host before an item.
    fn help_out(
        &self,
        since: u32,
        cell: Cell,
        device: u8,
        until: u32,
        place: Place,
        notes: &mut Vec<Note>,
    ) -> Result<(), AllocError> {
        match self.last_removal(device, cell, until) {
            Some((number, map)) if number >= since && !self.copies_out(number, map, cell) => {
                self.note_loss(number, map, cell, notes)
            }
            _ => {
                let copying = Copying {
                    from: Side::Device(device),
                    to: Side::Host,
                    until,
                };
                let run = self.run_around(cell, device, copying)?;
                let update = self.update_text("from", &run, device)?;
                let message = format!(in self.alloc; "write {update} before this")?;
                add(notes, Weight::Help, place, message)
            }
        }
    }

    // How a cell could be given a value where it was created.
    fn help_created(
        &self,
        number: u32,
        map: usize,
        cell: Cell,
        notes: &mut Vec<Note>,
    ) -> Result<(), AllocError> {
        let Some(map) = self.map_item(number, map) else {
            return Ok(());
        };
        let name = self.cell_text(cell)?;
        let (better, word) = (better_entry(map.kind), map_word(map.kind));
        let message = format!(in self.alloc;
            "write `{better}` in place of `{word}` here, which copies {name} from the host, or write {name} on the device before it is read"
        )?;
        add(notes, Weight::Help, place_of(map), message)
    }

    // How the value that a device has, or had, could be on the host.
    fn help_from(
        &self,
        refusal: &Refusal,
        place: Place,
        history: &History,
        first: Event,
        device: u8,
        notes: &mut Vec<Note>,
    ) -> Result<(), AllocError> {
        let (cell, until) = (refusal.cell, refusal.item);
        if self.tells_over(history, first.item, Side::Device(device), notes)? {
            return Ok(());
        }
        if let State::Current = history.state(Side::Device(device)) {
            self.note_kept(cell, device, first.item, until, notes)?;
            self.note_beside(cell, device, first.item, until, notes)?;
        }
        let place = self.place_before(until, cell, place);
        self.help_out(first.item, cell, device, until, place, notes)
    }

    // Where something is written before the statements of an item read a cell, and before they may write it.
    fn place_before(&self, number: u32, cell: Cell, read: Place) -> Place {
        match self.footprint(number as usize) {
            Some(found) if found.write.contains(cell) => self.place_of_item(number),
            _ => read,
        }
    }

    // How a read on the host could be right.
    fn help_host(
        &self,
        refusal: &Refusal,
        place: Place,
        history: &History,
        last: Event,
        first: Event,
        notes: &mut Vec<Note>,
    ) -> Result<(), AllocError> {
        if let Some(over) = self.lost_in(history, last)? {
            return self.help_lost(refusal.cell, &over, first, notes);
        }
        match first.how {
            How::Written(Side::Device(device)) => {
                self.help_from(refusal, place, history, first, device, notes)
            }
            How::Created(map) => {
                let until = last.item.saturating_add(1);
                self.note_uncertain(refusal.cell, first, until, notes)?;
                self.help_created(first.item, map, refusal.cell, notes)
            }
            How::Never | How::Written(Side::Host) | How::Removed(_) | How::Copied(_, _, _) => Ok(
                (),
            ),
        }
    }

    // Why the map item of a target copied nothing.
    fn no_copy_text(
        &self,
        item: &Item,
        map: &MapItem,
        block: &Section,
    ) -> Result<String, AllocError> {
        let text = self.map_text(item, map)?;
        let device = item.device.number;
        if copies_to(map.kind) {
            let block = self.section_text(block)?;
            format!(in self.alloc;
                "{text} copies nothing here, since {block} is on device {device} already"
            )
        } else {
            format!(in self.alloc;
                "{text} copies nothing to device {device}: that is what its type says"
            )
        }
    }

    fn note_no_copy(
        &self,
        item: &Item,
        map: &MapItem,
        refusal: &Refusal,
        notes: &mut Vec<Note>,
    ) -> Result<(), AllocError> {
        let device = item.device.number;
        let blocks = self.blocks(device, refusal.item)?;
        let Some(entered) = block_with(&blocks, refusal.cell) else {
            return Ok(());
        };
        let message = self.no_copy_text(item, map, &entered.section)?;
        add(notes, Weight::Note, place_of(map), message)?;
        self.note_entry(entered, device, notes)
    }

    // An update before an item, or a map item of it that always copies.
    fn always_text(&self, map: &MapItem, update: &str) -> Result<String, AllocError> {
        let (word, name) = (map_word(map.kind), self.section_text(&map.section)?);
        format!(in self.alloc; "write {update} before this, or `map(always, {word}: {name})` in it")
    }

    // How a read on a device could be right where the last value is elsewhere.
    fn help_in(
        &self,
        item: &Item,
        refusal: &Refusal,
        history: &History,
        writer: Side,
        since: u32,
        notes: &mut Vec<Note>,
    ) -> Result<(), AllocError> {
        if self.tells_over(history, since, writer, notes)? {
            return Ok(());
        }
        let is_stale = matches!(history.state(Side::Host), State::Stale(_));
        if let (Side::Device(device), true) = (writer, is_stale) {
            self.help_out(since, refusal.cell, device, refusal.item, item.place, notes)?;
        }
        let device = item.device.number;
        let copying = Copying {
            from: if is_stale { writer } else { Side::Host },
            to: Side::Device(device),
            until: refusal.item,
        };
        let run = self.run_around(refusal.cell, device, copying)?;
        let update = self.update_text("to", &run, device)?;
        let message = match map_with(item, refusal.cell) {
            Some(map) if copies_to(map.kind) && matches!(writer, Side::Host) => {
                self.always_text(map, &update)?
            }
            _ => {
                let then = if is_stale { "then " } else { "" };
                format!(in self.alloc; "{then}write {update} before this")?
            }
        };
        add(notes, Weight::Help, item.place, message)
    }

    // How a read on a device could be right.
    fn help_device(
        &self,
        item: &Item,
        refusal: &Refusal,
        history: &History,
        last: Event,
        first: Event,
        notes: &mut Vec<Note>,
    ) -> Result<(), AllocError> {
        if let Some(over) = self.lost_in(history, last)? {
            return self.help_lost(refusal.cell, &over, first, notes);
        }
        match (last.how, first.how) {
            (How::Written(writer), _) => {
                if let Some(map) = map_with(item, refusal.cell) {
                    self.note_no_copy(item, map, refusal, notes)?;
                }
                self.help_in(item, refusal, history, writer, last.item, notes)
            }
            (_, How::Created(map)) => {
                let until = match last.how {
                    How::Copied(_, _, _) => last.item,
                    _ => refusal.item,
                };
                self.note_uncertain(refusal.cell, first, until, notes)?;
                self.help_created(first.item, map, refusal.cell, notes)
            }
            (How::Copied(_, _, _), How::Written(Side::Device(device))) => {
                let place = self.item(last.item).map_or(item.place, |item| item.place);
                self.help_out(first.item, refusal.cell, device, last.item, place, notes)
            }
            _ => Ok(()),
        }
    }

    // The loops around an access, or around the item where there is none.
    fn turns_of(&self, item: &Item, access: &Option<Access>) -> Result<Vec<Turn>, AllocError> {
        match access {
            None => self.turns(item.place, &item.loops.values),
            Some(access) => self.turns(access.place, &access.loops),
        }
    }

    // The diagnosis of a read of a cell that is not current since an event.
    fn stale_since(
        &self,
        refusal: &Refusal,
        item: &Item,
        history: &History,
        since: Since,
    ) -> Result<Diagnosis, AllocError>
        ensures item { IfOk result (λ d. d.item ≡ Some refusal.now.item) }
        ensures since { IfOk result (λ d. d.since ≡ Some since) }
    {
        let access = self.access(item, Wanted::Exposed(refusal.cell))?;
        let place = access.as_ref().map_or(item.place, |access| access.place);
        let loops = self.turns_of(item, &access)?;
        let message = self.stale_message(item, history, &since, &loops)?;
        let notes = self.stale_notes(refusal, item, history, &since, place)?;
        Ok(Diagnosis {
            code: refusal.code.as_str(),
            rule: refusal_rule(refusal.code),
            place,
            message,
            item: Some(refusal.item),
            cell: Some(self.named(refusal.cell)?),
            since: Some(since),
            conflict: None,
            loops,
            notes,
        })
    }

    fn stale_message(
        &self,
        item: &Item,
        history: &History,
        since: &Since,
        loops: &[Turn],
    ) -> Result<String, AllocError> {
        let (name, stale) = (
            self.cell_text(history.cell)?,
            self.stale_text(history, since)?,
        );
        let turn = self.turn_text(loops)?;
        format!(in self.alloc; "{} reads {name}, {stale}{turn}", construct(item.kind))
    }

    // What made the cell stale, and what could be written.
    fn stale_notes(
        &self,
        refusal: &Refusal,
        item: &Item,
        history: &History,
        since: &Since,
        place: Place,
    ) -> Result<Vec<Note>, AllocError> {
        let mut notes = Vec::new(self.alloc);
        let last = since.event;
        let first = self.note_events(history, last, &mut notes)?;
        match since.side {
            Side::Host => self.help_host(refusal, place, history, last, first, &mut notes)?,
            Side::Device(_) => self.help_device(item, refusal, history, last, first, &mut notes)?,
        }
        Ok(notes)
    }

    /// Of a read of a cell that is not current.
    pub fn stale(&self, past: &Past<'_>, refusal: &Refusal) -> Result<Option<Diagnosis>, AllocError>
        ensures { IfOk result (λ o. IfSome o (TellsSince (plan past.now) refusal.now)) }
    {
        let Some(item) = past.item(refusal.item) else {
            return Ok(None);
        };
        let Some(history) = past.history_in(self.alloc, refusal.cell, refusal.item, item)? else {
            return Ok(None);
        };
        let side = side_of(item);
        let Some(event) = history.event(side) else {
            return Ok(None);
        };
        let since = Since { side, event };
        Ok(Some(self.stale_since(refusal, item, &history, since)?))
    }
}
