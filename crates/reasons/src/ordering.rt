// What orders two items, and what could.

use crate::diagnosis::{Conflict, Note, Weight};
use crate::runs::has_run;
use crate::scene::{Scene, has_cell, is_same};
use crate::source::{section_at, word_at};
use crate::words::add;
use base::fault::Refusal;
use base::item::{Cell, Depend, Item, ItemKind, Section};
use base::tree::{DependKind, Place};
use std::alloc::AllocError;

fn takes_depend(item: &Item) -> bool {
    matches!(
        item.kind,
        ItemKind::Target | ItemKind::Enter | ItemKind::Exit | ItemKind::Update
    )
}

fn have_common(earlier: &Item, later: &Item) -> bool {
    'earlier: for one in earlier.depends.as_slice() {
        'later: for other in later.depends.as_slice() {
            if is_same(&one.section, &other.section) {
                return true;
            }
        }
    }
    false
}

// The depend item that has a cell.
fn depend_with<'a>(item: &'a Item, cell: Cell) -> Option<&'a Depend> {
    let depends: &'a [Depend] = item.depends.as_slice();
    'depends: for depend in depends {
        if has_cell(&depend.section, cell) {
            return Some(depend);
        }
    }
    None
}

fn depends_on(item: &Item, cell: Cell) -> bool {
    'depends: for depend in item.depends.as_slice() {
        if depend.section.array == cell.array {
            return true;
        }
    }
    false
}

// Whether both items are of the same turn of the loops around them.
fn are_in_one_turn(one: &Item, other: &Item) -> bool {
    let (left, right): (&[u64], &[u64]) = (&one.loops.values, &other.loops.values);
    left == right
}

impl Scene<'_> {
    // The last `taskwait` between two items that waits for some items alone.
    fn partial_wait(&self, other: u32, until: u32) -> Option<&Item> {
        let mut last = None;
        'items: for number in other..until {
            if let Some(item) = self.item(number)
                && matches!(item.kind, ItemKind::Wait)
                && !item.depends.is_empty()
            {
                last = Some(item);
            }
        }
        last
    }

    // The depend items of an item, with `and` between them.
    fn depends_text(&self, item: &Item) -> Result<String, AllocError> {
        let mut text = String::new(self.alloc);
        'depends: for (place, depend) in item.depends.as_slice().iter().enumerate() {
            if place > 0 {
                text.push_str(" and ")?;
            }
            text.push_str(&self.depend_text(depend)?)?;
        }
        Ok(text)
    }

    fn note_wait(&self, wait: &Item, other: u32, notes: &mut Vec<Note>) -> Result<(), AllocError> {
        let (depends, what) = (self.depends_text(wait)?, self.item_text(other)?);
        let message = format!(in self.alloc;
            "this `taskwait` waits for {depends} alone, and not for {what}"
        )?;
        add(notes, Weight::Note, wait.place, message)
    }

    // Why no `depend` clauses order two items.
    fn no_depend_text(&self, earlier: &Item, later: &Item) -> Result<String, AllocError> {
        let (one, two) = (earlier.depends.is_empty(), later.depends.is_empty());
        let why = if !takes_depend(later) {
            ""
        } else if one && two {
            ", and neither has a `depend` clause"
        } else if one || two {
            let without = self.placed_text(if one { earlier } else { later })?;
            return format!(in self.alloc;
                "no `taskwait` between the two waits for it, and {without} has no `depend` clause"
            );
        } else if have_common(earlier, later) {
            ", and where their `depend` clauses name one section both are `in`"
        } else {
            ", and their `depend` clauses name no section in common"
        };
        format!(in self.alloc; "no `taskwait` between the two waits for it{why}")
    }

    /// Why an earlier item is not before a later one.
    pub fn note_order(
        &self,
        refusal: &Refusal,
        other: u32,
        earlier: &Item,
        later: &Item,
        notes: &mut Vec<Note>,
    ) -> Result<(), AllocError> {
        let deferred = String::from_str(
            self.alloc,
            "this is deferred by `nowait`: what stands after it does not wait for it",
        )?;
        add(notes, Weight::Note, earlier.place, deferred)?;
        if let Some(wait) = self.partial_wait(other, refusal.item) {
            self.note_wait(wait, other, notes)?;
            if !takes_depend(later) {
                return Ok(());
            }
        }
        let message = self.no_depend_text(earlier, later)?;
        add(notes, Weight::Note, self.done_at(later), message)
    }

    // The section of a depend item, as it is written where both items are of one turn. In a function it may be written by
    // a name that another one does not know.
    fn depend_section_text(
        &self,
        depend: &Depend,
        is_one_turn: bool,
    ) -> Result<String, AllocError> {
        let place = Place {
            line: depend.line,
            column: depend.column,
        };
        let written = section_at(self.bytes, place);
        if is_one_turn && word_at(self.bytes, place) == self.name_of(depend.section.array) {
            return String::from_str(self.alloc, written);
        }
        self.short_text(&depend.section)
    }

    // The section by which an item names a cell; the array where no item names any cell of it. None where others of its
    // cells alone are named.
    fn shared_section_text(&self, cell: Cell) -> Result<Option<String>, AllocError> {
        let mut is_named = false;
        'items: for item in self.outlined.items() {
            if let Some(depend) = depend_with(item, cell) {
                return Ok(Some(self.short_text(&depend.section)?));
            }
            is_named = is_named || depends_on(item, cell);
        }
        if is_named {
            return Ok(None);
        }
        let all = Section {
            array: cell.array,
            first: 0,
            length: u64::from(self.length_of(cell.array)),
        };
        Ok(Some(self.short_text(&all)?))
    }

    // Whether a target reads the cells of an array, and changes none of them nor their block.
    fn reads_alone(&self, number: u32, item: &Item, cell: Cell) -> Result<bool, AllocError> {
        let (Some(found), Some(row)) = (self.footprint(number as usize), self.row(number as usize))
        else {
            return Ok(false);
        };
        'maps: for (place, map) in item.maps.as_slice().iter().enumerate() {
            if map.section.array == cell.array
                && let Some(acts) = row.get(place)
                && (!acts.rests || acts.copies_in || acts.copies_out)
            {
                return Ok(false);
            }
        }
        Ok(!has_run(&found.runs(self.alloc, ranges::Part::Write)?, cell.array))
    }

    // The word by which an item without the depend item of another one would be ordered with it.
    fn word_beside(
        &self,
        number: u32,
        item: &Item,
        cell: Cell,
        depend: &Depend,
    ) -> Result<&'static str, AllocError> {
        if matches!(depend.kind, DependKind::In) || !self.reads_alone(number, item, cell)? {
            return Ok("inout");
        }
        Ok("in")
    }

    // The depend items by which two items would be ordered.
    fn depend_help(
        &self,
        refusal: &Refusal,
        conflict: &Conflict,
        earlier: &Item,
        later: &Item,
    ) -> Result<Option<String>, AllocError> {
        let (cell, other) = (refusal.cell, conflict.first.item);
        let is_one_turn = are_in_one_turn(earlier, later);
        let text = match (depend_with(earlier, cell), depend_with(later, cell)) {
            (None, None) => match self.shared_section_text(cell)? {
                None => return Ok(None),
                Some(section) => format!(in self.alloc; "`depend(inout: {section})` on both")?,
            },
            (Some(one), None) => {
                let word = self.word_beside(refusal.item, later, cell, one)?;
                let section = self.depend_section_text(one, is_one_turn)?;
                format!(in self.alloc; "`depend({word}: {section})` on it")?
            }
            (None, Some(two)) => {
                let word = self.word_beside(other, earlier, cell, two)?;
                let section = self.depend_section_text(two, is_one_turn)?;
                let what = self.placed_text(earlier)?;
                format!(in self.alloc; "`depend({word}: {section})` on {what}")?
            }
            (Some(_), Some(_)) if conflict.second.writes => {
                String::from_str(self.alloc, "`inout` in place of `in` on it")?
            }
            (Some(_), Some(_)) => {
                let what = self.placed_text(earlier)?;
                format!(in self.alloc; "`inout` in place of `in` on {what}")?
            }
        };
        Ok(Some(text))
    }

    /// What would order two items.
    pub fn help_order(
        &self,
        refusal: &Refusal,
        conflict: &Conflict,
        earlier: &Item,
        later: &Item,
        notes: &mut Vec<Note>,
    ) -> Result<(), AllocError> {
        let before = self.before_text(later);
        let depend = if takes_depend(earlier) && takes_depend(later) {
            self.depend_help(refusal, conflict, earlier, later)?
        } else {
            None
        };
        let help = match depend {
            None => format!(in self.alloc; "write `#pragma omp taskwait` {before}")?,
            Some(text) => {
                format!(in self.alloc; "write `#pragma omp taskwait` {before}, or {text}")?
            }
        };
        add(notes, Weight::Help, self.done_at(later), help)
    }
}
