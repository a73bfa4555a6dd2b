// Sections, subscripts and counts out of range (E301 to E303, E401).

use crate::diagnosis::{Diagnosis, Note, Weight};
use crate::nest::loops_around;
use crate::rules::{ITEMS_CODE, ITEMS_RULE, range_rule};
use crate::scene::Scene;
use crate::search::{Access, Wanted};
use crate::source::declaration_of;
use crate::words::add;
use base::fault::{Interval, RangeCode, RangeFault};
use base::item::{Item, Section};
use base::tree::{ArrayId, Part, Place, Program, Stmt};
use std::alloc::{AllocError, Global};

// The most items of a program, and the most turns of a region.
const MOST_ITEMS: u64 = 65_536;

const MOST_TURNS: u64 = 1_048_576;

// The turns of the loops of a statement; a number above `u64::MAX` is kept as that.
#[cycle(turns)]
fn turns_in(s: &Stmt) -> u64 {
    match s {
        Stmt::Declare(_, _)
        | Stmt::Assign(_, _)
        | Stmt::Store(_, _, _, _)
        | Stmt::Combine(_, _, _, _, _)
        | Stmt::Print(_) => 0,
        Stmt::Block(all) => turns_in_all(all),
        Stmt::Loop(bounds, body) => bounds
            .turns()
            .saturating_mul(turns_in_all(body).saturating_add(1)),
        Stmt::If(_, first, second) => turns_in_all(first).saturating_add(turns_in_all(second)),
    }
}

#[cycle(turns)]
pub fn turns_in_all(all: &[Stmt]) -> u64 {
    let mut total = 0u64;
    for s in all {
        total = total.saturating_add(turns_in(s));
    }
    total
}

// How many items a part has; a number above `u64::MAX` is kept as that.
#[cycle(count)]
fn count(part: &Part) -> u64 {
    match part {
        Part::Host(_) | Part::Target(_, _) | Part::Alone(_, _) => 1,
        Part::Block(all) => count_all(all),
        Part::Loop(bounds, body) => bounds.turns().saturating_mul(count_all(body)),
        Part::Data(_, body) => count_all(body).saturating_add(2),
    }
}

#[cycle(count)]
fn count_all(parts: &[Part]) -> u64 {
    let mut total = 0u64;
    for part in parts {
        total = total.saturating_add(count(part));
    }
    total
}

// The place of the first item in the part that has most.
#[cycle(place)]
fn place_in(parts: &[Part]) -> Option<Place> {
    let mut best = None;
    let mut most = 0;
    for part in parts {
        let items = count(part);
        if items > most {
            most = items;
            best = place_of(part);
        }
    }
    best
}

#[cycle(place)]
fn place_of(part: &Part) -> Option<Place> {
    match part {
        Part::Host(region) => Some(region.place),
        Part::Target(target, _) => Some(target.place),
        Part::Alone(place, _) => Some(*place),
        Part::Block(all) => place_in(all),
        Part::Loop(_, body) => place_in(body),
        Part::Data(data, _) => Some(data.place),
    }
}

// Why a program has so many items.
fn note_many(
    alloc: Global,
    bytes: &[u8],
    place: Place,
    notes: &mut Vec<Note>,
) -> Result<(), AllocError> {
    let names = loops_around(alloc, bytes, place)?;
    let told = match names.last() {
        None => String::from_str(alloc, "this is one of them")?,
        Some(name) => format!(in alloc;
            "each turn of the loop over {name} has items of its own: a run of statements between directives is one, a directive is one, a `target data` two"
        )?,
    };
    add(notes, Weight::Note, place, told)
}

fn help_many(alloc: Global, place: Place, notes: &mut Vec<Note>) -> Result<(), AllocError> {
    let help = String::from_str(alloc, "move the loop into a target, or lower its count")?;
    add(notes, Weight::Help, place, help)
}

/// Of a program that has too many items.
pub fn too_many(alloc: Global, bytes: &[u8], program: &Program) -> Result<Diagnosis, AllocError> {
    let items = count_all(&program.body);
    let place = place_in(&program.body).unwrap_or(Place { line: 1, column: 1 });
    let message = format!(in alloc; "the program has {items} items, and {MOST_ITEMS} is the most")?;
    let mut notes = Vec::new(alloc);
    note_many(alloc, bytes, place, &mut notes)?;
    help_many(alloc, place, &mut notes)?;
    Ok(Diagnosis {
        code: ITEMS_CODE,
        rule: ITEMS_RULE,
        place,
        message,
        item: None,
        cell: None,
        since: None,
        conflict: None,
        loops: Vec::new(alloc),
        notes,
    })
}

// What a subscript can be.
fn interval_text(alloc: Global, cells: Interval) -> Result<String, AllocError> {
    if cells.lo == cells.hi {
        return format!(in alloc; "is {}", cells.lo);
    }
    if cells.lo == 0 && cells.hi == u64::MAX {
        return String::from_str(alloc, "can be any number");
    }
    format!(in alloc; "can be from {} to {}", cells.lo, cells.hi)
}

// The section at a place.
fn section_at(item: &Item, place: Place) -> Option<Section> {
    'maps: for map in item.maps.as_slice() {
        if map.line == place.line && map.column == place.column {
            return Some(map.section);
        }
    }
    'depends: for depend in item.depends.as_slice() {
        if depend.line == place.line && depend.column == place.column {
            return Some(depend.section);
        }
    }
    None
}

fn place_of_fault(fault: &RangeFault) -> Place {
    Place {
        line: fault.line,
        column: fault.column,
    }
}

impl Scene<'_> {
    // Where an array is declared, and how many cells it has.
    fn note_length(&self, array: ArrayId, notes: &mut Vec<Note>) -> Result<(), AllocError> {
        let name = self.name_of(array);
        let Some(place) = declaration_of(self.bytes, name) else {
            return Ok(());
        };
        let last = self.length_of(array).saturating_sub(1);
        let message = format!(in self.alloc; "{name} has the cells 0 to {last}")?;
        add(notes, Weight::Note, place, message)
    }

    fn of_range(
        &self,
        number: u32,
        fault: &RangeFault,
        message: String,
        values: &[u64],
        notes: Vec<Note>,
    ) -> Result<Diagnosis, AllocError> {
        let place = place_of_fault(fault);
        Ok(Diagnosis {
            code: fault.code.as_str(),
            rule: range_rule(fault.code),
            place,
            message,
            item: Some(number),
            cell: None,
            since: None,
            conflict: None,
            loops: self.turns(place, values)?,
            notes,
        })
    }

    fn outside_text(&self, access: &Access) -> Result<String, AllocError> {
        let (name, length) = (self.name_of(access.array), self.length_of(access.array));
        let turn = self.turn_at(access.place, &access.loops)?;
        let can = interval_text(self.alloc, access.cells)?;
        format!(in self.alloc; "the subscript of {name} {can}, and {name} has {length} cells{turn}")
    }

    fn help_outside(&self, access: &Access, notes: &mut Vec<Note>) -> Result<(), AllocError> {
        let help = if access.cells.lo == access.cells.hi {
            String::from_str(
                self.alloc,
                "put it under an `if` that the values of the loops decide, or change the bounds of the loop",
            )?
        } else {
            let length = u64::from(self.length_of(access.array));
            let last = length.saturating_sub(1);
            // a mask keeps the numbers that are within where it has all lower bits
            if length & last == 0 {
                format!(in self.alloc;
                    "what scalars and cells hold is not known here: mask the subscript, as by `& {last}`"
                )?
            } else {
                format!(in self.alloc;
                    "what scalars and cells hold is not known here: bound the subscript, as by `% {length}`"
                )?
            }
        };
        add(notes, Weight::Help, access.place, help)
    }

    // Of a subscript that can leave its array.
    fn outside(
        &self,
        number: u32,
        fault: &RangeFault,
        access: &Access,
    ) -> Result<Diagnosis, AllocError> {
        let message = self.outside_text(access)?;
        let mut notes = Vec::new(self.alloc);
        self.note_length(access.array, &mut notes)?;
        self.help_outside(access, &mut notes)?;
        self.of_range(number, fault, message, &access.loops, notes)
    }

    fn section_outside_text(&self, section: &Section, turn: &str) -> Result<String, AllocError> {
        if section.first == u64::MAX || section.length == u64::MAX {
            return self.section_below_text(section, turn);
        }
        let text = self.section_text(section)?;
        if section.length == 0 {
            return format!(in self.alloc; "the section {text} is empty{turn}");
        }
        self.section_past_text(section, &text, turn)
    }

    // A bound that is below 0 is kept as the greatest number.
    fn section_below_text(&self, section: &Section, turn: &str) -> Result<String, AllocError> {
        let (name, length) = (self.name_of(section.array), self.length_of(section.array));
        let what = if section.first == u64::MAX {
            "begins"
        } else {
            "has a length"
        };
        format!(in self.alloc;
            "a section of {name} {what} below 0 or above all cells, and {name} has {length} cells{turn}"
        )
    }

    fn section_past_text(
        &self,
        section: &Section,
        text: &str,
        turn: &str,
    ) -> Result<String, AllocError> {
        let (name, length) = (self.name_of(section.array), self.length_of(section.array));
        let last = section
            .first
            .saturating_add(section.length.saturating_sub(1));
        format!(in self.alloc;
            "the section {text} has the cells {} to {last}, and {name} has {length} cells{turn}",
            section.first
        )
    }

    fn help_section(
        &self,
        section: &Section,
        place: Place,
        notes: &mut Vec<Note>,
    ) -> Result<(), AllocError> {
        let (name, length) = (
            self.name_of(section.array),
            u64::from(self.length_of(section.array)),
        );
        let (first, rest, what) = if section.first < length {
            (section.first, length - section.first, "what fits at most")
        } else {
            (0, length, "the whole array")
        };
        let help = format!(in self.alloc;
            "a section is FIRST:LENGTH; {name}[{first}:{rest}] is {what}"
        )?;
        add(notes, Weight::Help, place, help)
    }

    // Of a section that is empty or leaves its array.
    fn section_outside(
        &self,
        number: u32,
        fault: &RangeFault,
        item: &Item,
        section: &Section,
    ) -> Result<Diagnosis, AllocError> {
        let place = place_of_fault(fault);
        let turn = self.turn_at(place, &item.loops.values)?;
        let message = self.section_outside_text(section, &turn)?;
        let mut notes = Vec::new(self.alloc);
        self.note_length(section.array, &mut notes)?;
        self.help_section(section, place, &mut notes)?;
        self.of_range(number, fault, message, &item.loops.values, notes)
    }

    fn help_turns(&self, place: Place, notes: &mut Vec<Note>) -> Result<(), AllocError> {
        let help = String::from_str(
            self.alloc,
            "split the region in two, by a directive between, or lower the counts of its loops",
        )?;
        add(notes, Weight::Help, place, help)
    }

    // Of a region with too many turns.
    fn turns_outside(
        &self,
        number: u32,
        fault: &RangeFault,
        item: &Item,
    ) -> Result<Diagnosis, AllocError> {
        let turns = match self.region_of(item) {
            None => 0,
            Some(entry) => turns_in_all(&entry.region.body),
        };
        let message = format!(in self.alloc;
            "the loops of this region have {turns} turns together, and {MOST_TURNS} is the most"
        )?;
        let mut notes = Vec::new(self.alloc);
        self.help_turns(place_of_fault(fault), &mut notes)?;
        self.of_range(number, fault, message, &item.loops.values, notes)
    }

    /// Of a fault of range.
    pub fn out_of_range(
        &self,
        number: u32,
        fault: &RangeFault,
    ) -> Result<Option<Diagnosis>, AllocError> {
        let Some(item) = self.item(number) else {
            return Ok(None);
        };
        let place = place_of_fault(fault);
        match fault.code {
            RangeCode::SubscriptOutside => match self.access(item, Wanted::Outside(place))? {
                None => Ok(None),
                Some(access) => Ok(Some(self.outside(number, fault, &access)?)),
            },
            RangeCode::SectionOutside => match section_at(item, place) {
                None => Ok(None),
                Some(section) => Ok(Some(self.section_outside(number, fault, item, &section)?)),
            },
            RangeCode::TooManyTurns => Ok(Some(self.turns_outside(number, fault, item)?)),
        }
    }
}
