// Two turns that meet on a cell, of a loop whose turns may run in any order (E510).

use crate::diagnosis::{Diagnosis, Note, Weight};
use crate::rules::refusal_rule;
use crate::scene::Scene;
use crate::search::{Access, Wanted, first_but};
use crate::source::{has_word, is_scalar_assigned, line_of, update_at};
use crate::words::add;
use base::fault::Refusal;
use base::item::{Cell, Item};
use base::tree::Region;
use std::alloc::AllocError;

const ATOMIC: &str =
    "with `#pragma omp atomic` before each update of it, turns may update it in any order";

const FEWER: &str = "with a smaller `collapse`, or with none, fewer loops are in any order";

const IN_ORDER: &str = "as a `target` alone it has its turns in order";

const IN_ORDER_INSIDE: &str =
    "without the lines of constructs inside it this `target` has its turns in order";

// The words of which each combined construct has one behind `target`.
const CONSTRUCTS: [&str; 3] = ["teams", "parallel", "simd"];

impl Scene<'_> {
    // Where a turn reads or writes the cell.
    fn note_turn(
        &self,
        cell: &str,
        access: &Access,
        notes: &mut Vec<Note>,
    ) -> Result<(), AllocError> {
        let verb = if access.writes { "written" } else { "read" };
        let turn = self.turn_at(access.place, &access.loops)?;
        let message = format!(in self.alloc; "{cell} is {verb} here{turn}")?;
        self.add_in_turn(notes, access.place, message, &access.loops)
    }

    // The first access in another turn than that of this one.
    fn in_another_turn(
        &self,
        item: &Item,
        region: &Region,
        access: &Access,
        wanted: Wanted,
    ) -> Result<Option<Access>, AllocError> {
        let around = item
            .loops
            .values
            .len()
            .saturating_add(region.depth as usize);
        let Some(turn) = access.loops.get(..around) else {
            return Ok(None);
        };
        let lengths = self.outlined.lengths();
        first_but(self.alloc, lengths, region, &item.loops, wanted, turn)
    }

    // What is assigned may be the greatest number of all turns, or the least.
    fn help_kept(
        &self,
        cell: Cell,
        write: &Access,
        notes: &mut Vec<Note>,
    ) -> Result<(), AllocError> {
        if !is_scalar_assigned(self.bytes, write.place) {
            return Ok(());
        }
        let name = self.name_of(cell.array);
        let help = format!(in self.alloc;
            "where turns only keep the greatest number in it, they may do so in any order with `reduction(max: {name})` behind the words of the loop, and the least with `reduction(min: {name})`"
        )?;
        add(notes, Weight::Help, write.place, help)
    }

    // What both turns only update, they may update in any order.
    fn help_update(
        &self,
        cell: Cell,
        write: &Access,
        other: &Access,
        notes: &mut Vec<Note>,
    ) -> Result<(), AllocError> {
        let Some(update) = update_at(self.bytes, write.place) else {
            return self.help_kept(cell, write, notes);
        };
        if update_at(self.bytes, other.place).is_none() {
            return Ok(());
        }
        let help = if update.is_scalar {
            format!(in self.alloc;
                "with `reduction({}: {})` behind the words of the loop, turns may update it in any order",
                update.operator,
                self.name_of(cell.array)
            )?
        } else {
            String::from_str(self.alloc, ATOMIC)?
        };
        add(notes, Weight::Help, write.place, help)
    }

    // What other turns read and one alone writes may be written elsewhere.
    fn help_other_array(
        &self,
        cell: Cell,
        item: &Item,
        region: &Region,
        write: &Access,
        notes: &mut Vec<Note>,
    ) -> Result<(), AllocError> {
        let writer = self.in_another_turn(item, region, write, Wanted::Write(cell))?;
        if writer.is_some() {
            return Ok(());
        }
        let help = format!(in self.alloc;
            "let this write to another array: then other turns read what {} has before the loop",
            self.name_of(cell.array)
        )?;
        add(notes, Weight::Help, write.place, help)
    }

    // The first turn that writes the cell, and another one that reads or writes it.
    fn note_turns(
        &self,
        cell: Cell,
        item: &Item,
        region: &Region,
        notes: &mut Vec<Note>,
    ) -> Result<(), AllocError> {
        let Some(write) = self.access(item, Wanted::Write(cell))? else {
            return Ok(());
        };
        let name = self.cell_text(cell)?;
        self.note_turn(&name, &write, notes)?;
        let touch = self.in_another_turn(item, region, &write, Wanted::Touch(cell))?;
        let Some(other) = touch else {
            return Ok(());
        };
        self.note_turn(&name, &other, notes)?;
        self.help_update(cell, &write, &other, notes)?;
        self.help_other_array(cell, item, region, &write, notes)
    }

    fn help_in_order(
        &self,
        item: &Item,
        region: &Region,
        notes: &mut Vec<Note>,
    ) -> Result<(), AllocError> {
        if region.depth > 1 {
            let fewer = String::from_str(self.alloc, FEWER)?;
            add(notes, Weight::Help, item.place, fewer)?;
        }
        let text = if self.names_construct(item) {
            IN_ORDER
        } else {
            IN_ORDER_INSIDE
        };
        add(
            notes,
            Weight::Help,
            item.place,
            String::from_str(self.alloc, text)?,
        )
    }

    // Whether the construct stands on the line of the target.
    fn names_construct(&self, item: &Item) -> bool {
        'words: for word in CONSTRUCTS {
            if has_word(line_of(self.bytes, item.place.line), word.as_bytes()) {
                return true;
            }
        }
        false
    }

    // Of the kernel of an item.
    fn notes_of_meeting(&self, cell: Cell, item: &Item) -> Result<Vec<Note>, AllocError> {
        let mut notes = Vec::new(self.alloc);
        if let Some(entry) = self.region_of(item) {
            self.note_turns(cell, item, entry.region, &mut notes)?;
            self.help_in_order(item, entry.region, &mut notes)?;
        }
        Ok(notes)
    }

    fn meeting_text(&self, refusal: &Refusal, item: &Item) -> Result<String, AllocError> {
        let name = self.cell_text(refusal.cell)?;
        let loops = match self.region_of(item) {
            Some(entry) if entry.region.depth > 1 => "these loops",
            _ => "this loop",
        };
        format!(in self.alloc; "two turns of {loops}, which may run in any order, meet on {name}")
    }

    /// Of a target two of whose turns meet on a cell.
    pub fn meeting(&self, refusal: &Refusal) -> Result<Option<Diagnosis>, AllocError> {
        let Some(item) = self.item(refusal.item) else {
            return Ok(None);
        };
        let message = self.meeting_text(refusal, item)?;
        Ok(Some(Diagnosis {
            code: refusal.code.as_str(),
            rule: refusal_rule(refusal.code),
            place: item.place,
            message,
            item: Some(refusal.item),
            cell: Some(self.named(refusal.cell)?),
            since: None,
            conflict: None,
            loops: self.turns(item.place, &item.loops.values)?,
            notes: self.notes_of_meeting(refusal.cell, item)?,
        }))
    }
}
