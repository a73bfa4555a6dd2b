// A program that is refused, with its text.

use crate::lines::{Change, cut, indent};
use crate::sections::covers;
use crate::stores::stores_to;
use crate::words::item_around;
use base::item::{Cell, Item, ItemKind, MapItem, MapKind, Section};
use base::tree::{ArrayId, DeviceId, Place, Program};
use c_names::{cell_of, is_pointer, rows_text, sides_of};
use outline::Outlined;
use ranges::{Footprint, FootprintFault, footprint};
use std::alloc::{AllocError, Global};

/// A text, its lines, and the program that it spells.
#[derive(Clone, Copy)]
pub struct View<'v> {
    pub alloc: Global,
    pub text: &'v [u8],
    pub lines: &'v [&'v [u8]],
    pub program: &'v Program,
    pub outlined: &'v Outlined<'v>,
}

impl<'v> View<'v> {
    pub fn item(&self, number: usize) -> Option<&'v Item> {
        self.outlined.items().get(number)
    }

    /// The line of that number, counted from 1.
    pub fn line(&self, number: usize) -> &'v [u8] {
        match self.lines.get(number.saturating_sub(1)) {
            Some(line) => line,
            None => &[],
        }
    }

    /// The line of an item's directive.
    pub fn line_of(&self, item: &Item) -> &'v [u8] {
        self.line(item.place.line)
    }

    pub fn name(&self, array: ArrayId) -> &'v str {
        match self.program.arrays.get_index(array.0 as usize) {
            Some((name, _)) => name.as_str(),
            None => "",
        }
    }

    /// The array of that name.
    pub fn array_of(&self, name: &[u8]) -> Option<ArrayId> {
        for number in 0..self.outlined.lengths().len() {
            let array = ArrayId(number as u32);
            if self.name(array).as_bytes() == name {
                return Some(array);
            }
        }
        None
    }

    pub fn length(&self, array: ArrayId) -> u64 {
        match self.outlined.lengths().get(array.0 as usize) {
            Some(length) => u64::from(*length),
            None => 0,
        }
    }

    /// An array as it is written: its name alone, but of a pointer in C its cells.
    pub fn whole(&self, array: ArrayId) -> Result<String, AllocError> {
        let (name, length) = (self.name(array), self.length(array));
        if is_pointer(self.text, name.as_bytes()) {
            format!(in self.alloc; "{name}[0:{length}]")
        } else {
            format!(in self.alloc; "{name}")
        }
    }

    /// A section as it is written, which is the name alone where it is the whole array.
    pub fn section_text(&self, section: Section) -> Result<String, AllocError> {
        let name = self.name(section.array);
        if section.first == 0 && section.length == self.length(section.array) {
            self.whole(section.array)
        } else {
            self.part_text(name, section)
        }
    }

    // Some of an array's cells, or, where it has rows, all rows that have one of them.
    fn part_text(&self, name: &str, section: Section) -> Result<String, AllocError> {
        let end = section.first.saturating_add(section.length);
        if let Some(sides) = sides_of(self.text, name.as_bytes())
            && let Some(first) = cell_of(section.first, sides.cells())
            && let Some(last) = cell_of(end.saturating_sub(1), sides.cells())
        {
            let count = last.row.saturating_sub(first.row).saturating_add(1);
            let rows = rows_text(self.alloc, first.row, count, sides)?;
            return format!(in self.alloc; "{name}{rows}");
        }
        format!(in self.alloc; "{name}[{}:{}]", section.first, section.length)
    }

    /// Whether a line belongs to the directive that begins at another one.
    fn is_in_directive(&self, first: usize, line: usize) -> bool {
        if line < first {
            return false;
        }
        for before in first..line {
            if !self
                .line(before)
                .trim_ascii_end()
                .ends_with(b"\\".as_slice())
            {
                return false;
            }
        }
        true
    }

    /// Whether a map item stands on the item's directive.
    pub fn is_written(&self, item: &Item, map: &MapItem) -> bool {
        self.is_in_directive(item.place.line, map.line)
    }

    /// What is written at a place of an item's directive, or the array's name where nothing is.
    pub fn written_at(
        &self,
        item: &Item,
        line: usize,
        column: usize,
        array: ArrayId,
    ) -> Result<String, AllocError> {
        if self.is_in_directive(item.place.line, line) {
            let text = self.line(line);
            if let Some(span) = item_around(self.alloc, text, column.saturating_sub(1))?
                && let Ok(written) = std::str::from_utf8(cut(text, span.first, span.end))
            {
                return format!(in self.alloc; "{written}");
            }
        }
        format!(in self.alloc; "{}", self.name(array))
    }

    pub fn map_text(&self, item: &Item, map: &MapItem) -> Result<String, AllocError> {
        self.written_at(item, map.line, map.column, map.section.array)
    }

    /// Whether the region of an item has a store to an array.
    pub fn stores(&self, item: &Item, array: ArrayId) -> bool {
        let Some(number) = item.region else {
            return false;
        };
        match self.outlined.regions().get(number as usize) {
            Some(entry) => stores_to(&entry.region.body, array),
            None => false,
        }
    }

    /// The cells that the region of an item may touch; none where it has no region, or a fault of range.
    pub fn footprint(&self, item: &Item) -> Result<Option<Footprint>, AllocError> {
        let Some(number) = item.region else {
            return Ok(None);
        };
        let Some(entry) = self.outlined.regions().get(number as usize) else {
            return Ok(None);
        };
        match footprint(self.alloc, self.program, entry.region, &item.loops) {
            Ok(found) => Ok(Some(found)),
            Err(FootprintFault::OutOfMemory) => Err(AllocError),
            Err(FootprintFault::Range(_)) => Ok(None),
        }
    }

    /// The last of some items before one whose region may write a cell.
    pub fn last_writer(&self, before: usize, cell: Cell) -> Result<Option<usize>, AllocError> {
        for number in (before.saturating_sub(LOOK_BACK)..before).rev() {
            if let Some(item) = self.item(number)
                && self.stores(item, cell.array)
                && let Some(found) = self.footprint(item)?
                && found.write.contains(cell)
            {
                return Ok(Some(number));
            }
        }
        Ok(None)
    }

    /// A directive on a line of its own before a line, with that line's indentation.
    pub fn directive(&self, before: usize, words: &str) -> Result<Change, AllocError> {
        let line = self.line(before);
        let mut text = Vec::from_slice(self.alloc, cut(line, 0, indent(line)))?;
        text.extend_from_slice(b"#pragma omp ".as_slice())?;
        text.extend_from_slice(words.as_bytes())?;
        Ok(Change::Preceded(before, text))
    }

    /// Whether nothing but blanks stands before a place on its line.
    pub fn begins_line(&self, place: Place) -> bool {
        indent(self.line(place.line)) >= place.column.saturating_sub(1)
    }
}

/// How many items before one are looked at.
pub const LOOK_BACK: usize = 256;

/// The map item with a cell.
pub fn map_with(item: &Item, cell: Cell) -> Option<MapItem> {
    for map in item.maps.as_slice() {
        if covers(map.section, cell.array, cell.index) {
            return Some(*map);
        }
    }
    None
}

/// The first map item of an array.
pub fn map_of(item: &Item, array: ArrayId) -> Option<MapItem> {
    for map in item.maps.as_slice() {
        if map.section.array == array {
            return Some(*map);
        }
    }
    None
}

/// What names a device, behind a blank; nothing for device 0.
pub fn on_device(alloc: Global, device: DeviceId) -> Result<String, AllocError> {
    if device.number == 0 {
        format!(in alloc; "")
    } else {
        format!(in alloc; " device({})", device.number)
    }
}

pub fn kind_text(kind: MapKind) -> &'static str {
    match kind {
        MapKind::To => "to",
        MapKind::From => "from",
        MapKind::ToFrom => "tofrom",
        MapKind::Alloc => "alloc",
        MapKind::Release => "release",
        MapKind::Delete => "delete",
    }
}

/// The modifiers and a type.
pub fn head(
    alloc: Global,
    always: bool,
    present: bool,
    kind: MapKind,
) -> Result<String, AllocError> {
    let always = if always { "always, " } else { "" };
    let present = if present { "present, " } else { "" };
    format!(in alloc; "{always}{present}{}", kind_text(kind))
}

/// Whether an item enters sections.
pub fn enters(kind: ItemKind) -> bool {
    matches!(kind, ItemKind::Target | ItemKind::Begin | ItemKind::Enter)
}

/// Whether a directive takes `depend`.
pub fn takes_depend(kind: ItemKind) -> bool {
    matches!(
        kind,
        ItemKind::Target | ItemKind::Enter | ItemKind::Exit | ItemKind::Update
    )
}
