// What is tried where a section is not present, or only in part, or not mapped.

use crate::blocks::loops_around;
use crate::candidates::Candidates;
use crate::clauses::{with_length, with_map};
use crate::devices::other_devices;
use crate::exits::{left_before, left_twice};
use crate::lines::Change;
use crate::places::end_of_block;
use crate::pointers::{is_implied, map_pointer};
use crate::sections::{common, end_of, hull, touched};
use crate::view::{View, enters, map_of, map_with, on_device};
use crate::words::with_item;
use base::item::{Cell, Item, ItemKind, MapItem, Section};
use base::tree::ArrayId;
use std::alloc::AllocError;

// Another text for a map item that is written.
fn reword(
    view: &View<'_>,
    item: &Item,
    map: &MapItem,
    text: &str,
    out: &mut Candidates,
) -> Result<(), AllocError> {
    if !view.is_written(item, map) {
        return Ok(());
    }
    let place = map.column.saturating_sub(1);
    let line = with_item(view.alloc, view.line(map.line), place, text)?;
    out.replace(map.line, line)
}

// A map item that is written, up to the end of what is needed and with what else stands there, or with all that is
// needed.
fn widened(
    view: &View<'_>,
    item: &Item,
    map: &MapItem,
    needed: Section,
) -> Result<Option<Change>, AllocError> {
    if !view.is_written(item, map) {
        return Ok(None);
    }
    let text = view.map_text(item, map)?;
    let length = end_of(needed).saturating_sub(map.section.first);
    let text = match with_length(view.alloc, text.as_str(), length)? {
        Some(text) if needed.first >= map.section.first => text,
        _ => view.section_text(hull(map.section, needed))?,
    };
    let place = map.column.saturating_sub(1);
    match with_item(view.alloc, view.line(map.line), place, text.as_str())? {
        Some(line) => Ok(Some(Change::Replaced(map.line, line))),
        None => Ok(None),
    }
}

// The map item of a kernel and that of the block, both of which lack what the kernel touches.
fn widen_both(
    view: &View<'_>,
    at: usize,
    item: &Item,
    map: &MapItem,
    needed: Section,
    out: &mut Candidates,
) -> Result<(), AllocError> {
    let Some((earlier, block)) = entered_before(view, at, item, map.section) else {
        return Ok(());
    };
    if earlier.place.line == item.place.line || end_of(needed) <= end_of(block.section) {
        return Ok(());
    }
    match (
        widened(view, earlier, &block, needed)?,
        widened(view, item, map, needed)?,
    ) {
        (Some(there), Some(here)) => out.two(there, here),
        _ => Ok(()),
    }
}

// A map item that is written up to an end, with what else stands there.
fn lengthen(
    view: &View<'_>,
    item: &Item,
    map: &MapItem,
    end: u64,
    out: &mut Candidates,
) -> Result<(), AllocError> {
    let length = end.saturating_sub(map.section.first);
    if length == map.section.length || length == 0 {
        return Ok(());
    }
    let text = view.map_text(item, map)?;
    match with_length(view.alloc, text.as_str(), length)? {
        Some(text) => reword(view, item, map, text.as_str(), out),
        None => Ok(()),
    }
}

// A map item more.
fn add_map(
    view: &View<'_>,
    item: &Item,
    text: &str,
    out: &mut Candidates,
) -> Result<(), AllocError> {
    let line = with_map(view.alloc, view.line_of(item), "tofrom", text)?;
    out.replace(item.place.line, Some(line))
}

/// A kernel names a cell in none of its map items.
pub fn unmapped(
    view: &View<'_>,
    at: usize,
    cell: Cell,
    out: &mut Candidates,
) -> Result<(), AllocError> {
    let Some(item) = view.item(at) else {
        return Ok(());
    };
    let needed = match view.footprint(item)? {
        Some(found) => touched(&found, cell.array),
        None => None,
    };
    let name = view.whole(cell.array)?;
    match map_of(item, cell.array) {
        Some(map) => {
            if let Some(needed) = needed {
                if needed.first >= map.section.first {
                    lengthen(view, item, &map, end_of(needed), out)?;
                }
                let text = view.section_text(hull(map.section, needed))?;
                reword(view, item, &map, text.as_str(), out)?;
                widen_both(view, at, item, &map, needed, out)?;
            }
            reword(view, item, &map, name.as_str(), out)
        }
        None => add_map(view, item, name.as_str(), out),
    }
}

// The last item before one that enters cells of a section on its device, and its map item of them.
fn entered_before<'v>(
    view: &View<'v>,
    at: usize,
    item: &Item,
    section: Section,
) -> Option<(&'v Item, MapItem)> {
    for number in (0..at).rev() {
        if let Some(earlier) = view.item(number)
            && earlier.device.number == item.device.number
            && enters(earlier.kind)
            && let Some(map) = map_of(earlier, section.array)
            && common(map.section, section).is_some()
        {
            return Some((earlier, map));
        }
    }
    None
}

/// A section overlaps a present block without lying inside it.
pub fn in_part(
    view: &View<'_>,
    at: usize,
    cell: Cell,
    out: &mut Candidates,
) -> Result<(), AllocError> {
    let Some(item) = view.item(at) else {
        return Ok(());
    };
    let Some(map) = map_of(item, cell.array) else {
        return Ok(());
    };
    let Some((earlier, block)) = entered_before(view, at, item, map.section) else {
        return Ok(());
    };
    let text = view.map_text(earlier, &block)?;
    if view.is_written(item, &map) {
        lengthen(view, item, &map, end_of(block.section), out)?;
        reword(view, item, &map, text.as_str(), out)?;
    } else {
        add_map(view, item, text.as_str(), out)?;
    }
    if map.section.first >= block.section.first {
        lengthen(view, earlier, &block, end_of(map.section), out)?;
    }
    let text = view.section_text(hull(block.section, map.section))?;
    reword(view, earlier, &block, text.as_str(), out)?;
    let all = view.whole(cell.array)?;
    reword(view, earlier, &block, all.as_str(), out)?;
    leave_in_turn(view, earlier, &block, out)?;
    other_devices(view, at.saturating_add(1), cell.array, out)
}

// What is entered in each turn of a loop is left at the end of the turn.
fn leave_in_turn(
    view: &View<'_>,
    item: &Item,
    map: &MapItem,
    out: &mut Candidates,
) -> Result<(), AllocError> {
    if item.loops.values.is_empty() || !matches!(item.kind, ItemKind::Enter) {
        return Ok(());
    }
    let Some(end) = end_of_block(view.text, item.place.line) else {
        return Ok(());
    };
    if !view.begins_line(end) {
        return Ok(());
    }
    let text = view.map_text(item, map)?;
    let device = on_device(view.alloc, item.device)?;
    let words = format!(in view.alloc; "target exit data map(release: {text}){device}")?;
    out.one(view.directive(end.line, words.as_str())?)
}

// The first item on the device that maps an array, up to an item.
fn first_use<'v>(view: &View<'v>, at: usize, item: &Item, array: ArrayId) -> Option<&'v Item> {
    for number in 0..at {
        if let Some(earlier) = view.item(number)
            && earlier.device.number == item.device.number
            && map_of(earlier, array).is_some()
        {
            return Some(earlier);
        }
    }
    None
}

// An entry before each of the loops around an item, the outermost first, and before the item.
fn enter_before(
    view: &View<'_>,
    item: &Item,
    words: &str,
    out: &mut Candidates,
) -> Result<(), AllocError> {
    let loops = loops_around(view.alloc, view.text, item.place.line)?;
    for line in loops.as_slice() {
        out.one(view.directive(*line, words)?)?;
    }
    out.one(view.directive(item.place.line, words)?)
}

// The map items of an item that are to be present, with commas between them.
fn present_items(view: &View<'_>, item: &Item) -> Result<String, AllocError> {
    let mut text = String::new(view.alloc);
    for map in item.maps.as_slice() {
        if map.present {
            if !text.is_empty() {
                text.push_str(", ")?;
            }
            text.push_str(view.map_text(item, map)?.as_str())?;
        }
    }
    Ok(text)
}

// An entry before the first item that maps the array on the device, and before the item.
fn enter_first(
    view: &View<'_>,
    at: usize,
    item: &Item,
    array: ArrayId,
    text: &str,
    out: &mut Candidates,
) -> Result<(), AllocError> {
    let device = on_device(view.alloc, item.device)?;
    let words = format!(in view.alloc; "target enter data map(to: {text}){device}")?;
    if let Some(first) = first_use(view, at, item, array) {
        enter_before(view, first, words.as_str(), out)?;
    }
    enter_before(view, item, words.as_str(), out)
}

/// An exit, an update or an entry with `present` of a section that is not present.
pub fn absent(
    view: &View<'_>,
    at: usize,
    cell: Cell,
    out: &mut Candidates,
) -> Result<(), AllocError> {
    let Some(item) = view.item(at) else {
        return Ok(());
    };
    let Some(map) = map_with(item, cell) else {
        return Ok(());
    };
    if is_implied(view, item, &map) {
        map_pointer(view, item, &map, out)?;
    }
    other_devices(view, at.saturating_add(1), cell.array, out)?;
    if let Some(earlier) = left_before(view, at, item, cell) {
        return left_twice(view, at, earlier, cell, out);
    }
    entered_first(view, at, item, cell, &map, out)
}

// An entry of what is not present, and of all that is to be present with it, before an item and those before it.
fn entered_first(
    view: &View<'_>,
    at: usize,
    item: &Item,
    cell: Cell,
    map: &MapItem,
    out: &mut Candidates,
) -> Result<(), AllocError> {
    let text = view.map_text(item, map)?;
    let name = view.whole(cell.array)?;
    enter_first(view, at, item, cell.array, text.as_str(), out)?;
    let all = present_items(view, item)?;
    if !all.is_empty() && all.as_str() != text.as_str() {
        let device = on_device(view.alloc, item.device)?;
        let words = format!(in view.alloc; "target enter data map(to: {all}){device}")?;
        enter_before(view, item, words.as_str(), out)?;
    }
    if text.as_str() != name.as_str() {
        enter_first(view, at, item, cell.array, name.as_str(), out)?;
    }
    Ok(())
}

// The section that is written at a place.
fn section_at(item: &Item, line: usize, column: usize) -> Option<Section> {
    for map in item.maps.as_slice() {
        if map.line == line && map.column == column {
            return Some(map.section);
        }
    }
    for depend in item.depends.as_slice() {
        if depend.line == line && depend.column == column {
            return Some(depend.section);
        }
    }
    None
}

// What a region touches of an array, where a section begins with it and has, as its length, the place of its end.
fn up_to_last(
    view: &View<'_>,
    item: &Item,
    section: Section,
) -> Result<Option<Section>, AllocError> {
    let Some(found) = view.footprint(item)? else {
        return Ok(None);
    };
    match touched(&found, section.array) {
        Some(cells) => {
            let end = end_of(cells);
            let is_end = section.length == end || section.length == end.saturating_sub(1);
            Ok(if cells.first == section.first && is_end {
                Some(cells)
            } else {
                None
            })
        }
        None => Ok(None),
    }
}

/// A section leaves its array: its length may be the place of its last cell, or the one behind it; else it is cut at
/// the array's end.
pub fn past_the_array(
    view: &View<'_>,
    at: usize,
    line: usize,
    column: usize,
    out: &mut Candidates,
) -> Result<(), AllocError> {
    let Some(item) = view.item(at) else {
        return Ok(());
    };
    let Some(section) = section_at(item, line, column) else {
        return Ok(());
    };
    let length = view.length(section.array);
    if section.length == 0 || section.first >= length {
        return Ok(());
    }
    let left = Section {
        length: length.saturating_sub(section.first),
        ..section
    };
    let place = column.saturating_sub(1);
    if let Some(cells) = up_to_last(view, item, section)? {
        let text = view.section_text(cells)?;
        let changed = with_item(view.alloc, view.line(line), place, text.as_str())?;
        out.replace(line, changed)?;
    }
    let text = view.section_text(left)?;
    let changed = with_item(view.alloc, view.line(line), place, text.as_str())?;
    out.replace(line, changed)
}
