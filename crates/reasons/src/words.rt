// Words for what a diagnosis speaks of.

use crate::diagnosis::{Note, Turn, Weight};
use crate::ends::block_end;
use crate::scene::Scene;
use base::item::{Cell, Depend, Item, ItemKind, MapItem, MapKind, Section};
use base::tree::{DependKind, Place};
use c_names::{Sides, cell_text, is_pointer, rows_of, rows_text, sides_of};
use history::Side;
use std::alloc::{AllocError, Global};

/// One note more.
pub fn add(
    notes: &mut Vec<Note>,
    weight: Weight,
    place: Place,
    message: String,
) -> Result<(), AllocError> {
    let loops = Vec::new(*notes.allocator());
    notes.push(Note {
        weight,
        place,
        message,
        loops,
    })?;
    Ok(())
}

pub fn side_text(alloc: Global, side: Side) -> Result<String, AllocError> {
    match side {
        Side::Host => String::from_str(alloc, "the host"),
        Side::Device(device) => format!(in alloc; "device {device}"),
    }
}

/// What an item is called in a sentence.
pub fn construct(kind: ItemKind) -> &'static str {
    match kind {
        ItemKind::Host => "the host",
        ItemKind::Target => "the target",
        ItemKind::Begin => "the beginning of `target data`",
        ItemKind::End => "the end of `target data`",
        ItemKind::Enter => "`target enter data`",
        ItemKind::Exit => "`target exit data`",
        ItemKind::Update => "`target update`",
        ItemKind::Wait => "`taskwait`",
    }
}

pub fn map_word(kind: MapKind) -> &'static str {
    match kind {
        MapKind::To => "to",
        MapKind::From => "from",
        MapKind::ToFrom => "tofrom",
        MapKind::Alloc => "alloc",
        MapKind::Release => "release",
        MapKind::Delete => "delete",
    }
}

fn depend_word(kind: DependKind) -> &'static str {
    match kind {
        DependKind::In => "in",
        DependKind::Out => "out",
        DependKind::InOut => "inout",
    }
}

fn modifiers(map: &MapItem) -> &'static str {
    match (map.always, map.present) {
        (false, false) => "",
        (true, false) => "always, ",
        (false, true) => "present, ",
        (true, true) => "always, present, ",
    }
}

// The clause that names a device.
pub fn device_clause(alloc: Global, device: u8) -> Result<String, AllocError> {
    if device == 0 {
        return Ok(String::new(alloc));
    }
    format!(in alloc; " device({device})")
}

/// How often something was done.
pub fn times_text(alloc: Global, count: u64) -> Result<String, AllocError> {
    if count == 1 {
        return String::from_str(alloc, "once");
    }
    format!(in alloc; "{count} times")
}

// The value of one loop, behind those of the loops around it.
fn turn_value_text(alloc: Global, level: usize, turn: &Turn) -> Result<String, AllocError> {
    let before = if level == 0 { " (in the turn" } else { "," };
    format!(in alloc; "{before} {} = {}", turn.name, turn.value)
}

impl Scene<'_> {
    // The lengths of the rows of an array with rows.
    pub fn sides_of(&self, name: &str) -> Option<Sides> {
        sides_of(self.bytes, name.as_bytes())
    }

    pub fn cell_text(&self, cell: Cell) -> Result<String, AllocError> {
        let name = self.name_of(cell.array);
        self.index_text(name, cell.index)
    }

    // A cell of an array, by its row where there are rows.
    fn index_text(&self, name: &str, index: u64) -> Result<String, AllocError> {
        let Some(sides) = self.sides_of(name) else {
            return format!(in self.alloc; "{name}[{index}]");
        };
        let cell = cell_text(self.alloc, index, sides)?;
        format!(in self.alloc; "{name}{cell}")
    }

    pub fn section_text(&self, section: &Section) -> Result<String, AllocError> {
        let name = self.name_of(section.array);
        match self.sides_of(name) {
            None => format!(in self.alloc; "{name}[{}:{}]", section.first, section.length),
            Some(sides) => self.rows_text(name, section, sides),
        }
    }

    // A section of an array with rows; the first and the last of its cells where these are no whole rows.
    fn rows_text(&self, name: &str, section: &Section, sides: Sides) -> Result<String, AllocError> {
        if let Some(rows) = rows_of(section.first, section.length, sides.cells()) {
            let rows = rows_text(self.alloc, rows.first, rows.count, sides)?;
            return format!(in self.alloc; "{name}{rows}");
        }
        let last = section
            .first
            .saturating_add(section.length)
            .saturating_sub(1);
        let (first, last) = (
            self.index_text(name, section.first)?,
            self.index_text(name, last)?,
        );
        format!(in self.alloc; "{first} to {last}")
    }

    /// A map item as it is written, with the bounds of its section.
    pub fn map_text(&self, item: &Item, map: &MapItem) -> Result<String, AllocError> {
        let section = self.section_text(&map.section)?;
        let word = map_word(map.kind);
        match item.kind {
            ItemKind::Update => {
                let present = if map.present { "present: " } else { "" };
                format!(in self.alloc; "`{word}({present}{section})`")
            }
            _ => {
                let (implicit, modifiers) = if self.is_implicit(item, map) {
                    ("the implicit ", "")
                } else {
                    ("", modifiers(map))
                };
                format!(in self.alloc; "{implicit}`map({modifiers}{word}: {section})`")
            }
        }
    }

    pub fn depend_text(&self, depend: &Depend) -> Result<String, AllocError> {
        let section = self.section_text(&depend.section)?;
        format!(in self.alloc; "`depend({}: {section})`", depend_word(depend.kind))
    }

    /// A section as it would be written, which is the name alone where it is the whole array, and no pointer in C.
    pub fn short_text(&self, section: &Section) -> Result<String, AllocError> {
        if section.first == 0
            && section.length == u64::from(self.length_of(section.array))
            && !is_pointer(self.bytes, self.name_of(section.array).as_bytes())
        {
            return String::from_str(self.alloc, self.name_of(section.array));
        }
        self.section_text(section)
    }

    /// An update as it would be written.
    pub fn update_text(
        &self,
        word: &str,
        section: &Section,
        device: u8,
    ) -> Result<String, AllocError> {
        let (text, clause) = (
            self.short_text(section)?,
            device_clause(self.alloc, device)?,
        );
        format!(in self.alloc; "`#pragma omp target update {word}({text}){clause}`")
    }

    /// Where an item is done, beside the place at which it stands.
    pub fn here_text(&self, item: &Item) -> &'static str {
        match item.kind {
            ItemKind::End => "at the end of its block",
            _ => "here",
        }
    }

    /// Where something can be written so that it is done before an item.
    pub fn before_text(&self, item: &Item) -> &'static str {
        match item.kind {
            ItemKind::End => "before the end of this block",
            _ => "before this",
        }
    }

    /// The place before which something can be written so that it is done before an item.
    pub fn done_at(&self, item: &Item) -> Place {
        match item.kind {
            ItemKind::End => block_end(self.bytes, item.place).unwrap_or(item.place),
            _ => item.place,
        }
    }

    /// The turn of the loops around, in parentheses behind a space, or nothing where there are none.
    pub fn turn_text(&self, turns: &[Turn]) -> Result<String, AllocError> {
        let mut text = String::new(self.alloc);
        'turns: for (level, turn) in turns.iter().enumerate() {
            let next = turn_value_text(self.alloc, level, turn)?;
            text.push_str(&next)?;
        }
        if !turns.is_empty() {
            text.push_str(")")?;
        }
        Ok(text)
    }

    /// The turn of the loops around a place.
    pub fn turn_at(&self, place: Place, values: &[u64]) -> Result<String, AllocError> {
        let turns = self.turns(place, values)?;
        self.turn_text(&turns)
    }

    /// One note more, of a place in the turn of the loops around it that has these values.
    pub fn add_in_turn(
        &self,
        notes: &mut Vec<Note>,
        place: Place,
        message: String,
        values: &[u64],
    ) -> Result<(), AllocError> {
        notes.push(Note {
            weight: Weight::Note,
            place,
            message,
            loops: self.turns(place, values)?,
        })?;
        Ok(())
    }

    /// An item by its line.
    pub fn placed_text(&self, item: &Item) -> Result<String, AllocError> {
        let line = self.done_at(item).line;
        format!(in self.alloc; "{} at line {line}", construct(item.kind))
    }

    /// An item as the one that did something, by its line and its turn.
    pub fn doer_text(&self, item: &Item) -> Result<String, AllocError> {
        let (what, turn) = (
            self.placed_text(item)?,
            self.turn_at(item.place, &item.loops.values)?,
        );
        format!(in self.alloc; "{what}{turn}")
    }

    /// The same of an item by its number.
    pub fn item_text(&self, number: u32) -> Result<String, AllocError> {
        match self.item(number) {
            None => format!(in self.alloc; "item {number}"),
            Some(item) => self.doer_text(item),
        }
    }
}
