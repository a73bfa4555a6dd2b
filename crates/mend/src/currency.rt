// What is tried where a read is not current on its side.

use crate::candidates::Candidates;
use crate::clauses::with_map;
use crate::devices::other_devices;
use crate::kinds::{back, other_kinds, retype, turned};
use crate::lines::Change;
use crate::sections::{common, run_in};
use crate::sent::{sent_before, sent_behind};
use crate::stores::stored_by_kernels;
use crate::view::{LOOK_BACK, View, map_of, map_with, on_device};
use base::item::{Cell, Item, ItemKind, MapKind, Section};
use base::tree::{ArrayId, DeviceId};
use std::alloc::AllocError;

// How many sections are tried for an update.
const MOST_SECTIONS: usize = 5;

// Texts of sections, each once.
#[derive(Drop)]
struct Texts {
    all: Vec<String>,
}

impl Texts {
    fn add(&mut self, text: String) -> Result<(), AllocError> {
        for other in self.all.as_slice() {
            if other.as_str() == text.as_str() {
                return Ok(());
            }
        }
        if self.all.len() < MOST_SECTIONS {
            self.all.push(text)?;
        }
        Ok(())
    }

    fn add_section(&mut self, view: &View<'_>, section: Option<Section>) -> Result<(), AllocError> {
        match section {
            Some(section) => self.add(view.section_text(section)?),
            None => Ok(()),
        }
    }
}

// The sections by which the last items before enter an array on a device.
fn entered(
    view: &View<'_>,
    before: usize,
    array: ArrayId,
    device: DeviceId,
    texts: &mut Texts,
) -> Result<(), AllocError> {
    for number in (before.saturating_sub(LOOK_BACK)..before).rev() {
        if let Some(item) = view.item(number)
            && item.device.number == device.number
            && matches!(item.kind, ItemKind::Begin | ItemKind::Enter)
            && let Some(map) = map_of(item, array)
        {
            texts.add(view.map_text(item, &map)?)?;
        }
    }
    Ok(())
}

// The last target before an item that maps a cell.
fn last_target<'v>(view: &View<'v>, before: usize, cell: Cell) -> Option<&'v Item> {
    for number in (before.saturating_sub(LOOK_BACK)..before).rev() {
        if let Some(item) = view.item(number)
            && matches!(item.kind, ItemKind::Target)
            && map_with(item, cell).is_some()
        {
            return Some(item);
        }
    }
    None
}

// The cells that an item writes, of an array.
fn written(view: &View<'_>, item: &Item, array: ArrayId) -> Result<Option<Section>, AllocError> {
    match view.footprint(item)? {
        Some(found) => Ok(run_in(&found.write, array)),
        None => Ok(None),
    }
}

// The cells that an item reads without a write of its own before, of an array.
fn exposed(view: &View<'_>, item: &Item, array: ArrayId) -> Result<Option<Section>, AllocError> {
    match view.footprint(item)? {
        Some(found) => Ok(run_in(&found.exposed, array)),
        None => Ok(None),
    }
}

fn only(cell: Cell) -> Section {
    Section {
        array: cell.array,
        first: cell.index,
        length: 1,
    }
}

fn common_of(a: Option<Section>, b: Option<Section>) -> Option<Section> {
    match (a, b) {
        (Some(a), Some(b)) => common(a, b),
        _ => None,
    }
}

// What a target that wrote the cell may have written that the host reads.
fn sections_back(
    view: &View<'_>,
    at: usize,
    reader: &Item,
    writer: &Item,
    cell: Cell,
) -> Result<Texts, AllocError> {
    let mut texts = Texts {
        all: Vec::new(view.alloc),
    };
    let map = map_with(writer, cell);
    let mapped = map.map(|m| m.section);
    texts.add_section(view, common_of(written(view, writer, cell.array)?, mapped))?;
    if let Some(map) = map {
        texts.add(view.map_text(writer, &map)?)?;
    }
    entered(view, at, cell.array, writer.device, &mut texts)?;
    texts.add_section(view, common_of(exposed(view, reader, cell.array)?, mapped))?;
    texts.add_section(view, Some(only(cell)))?;
    Ok(texts)
}

// An update that brings the cell to the host before the item.
fn brought_back(
    view: &View<'_>,
    at: usize,
    reader: &Item,
    writer: &Item,
    cell: Cell,
    out: &mut Candidates,
) -> Result<(), AllocError> {
    if !view.begins_line(reader.place) {
        return Ok(());
    }
    let device = on_device(view.alloc, writer.device)?;
    let texts = sections_back(view, at, reader, writer, cell)?;
    let others = others_back(view, at, reader, writer, cell.array)?;
    for text in texts.all.as_slice() {
        let words = format!(in view.alloc; "target update from({text}){device}")?;
        out.one(view.directive(reader.place.line, words.as_str())?)?;
        if !others.is_empty() {
            let words = format!(in view.alloc; "target update from({text}{others}){device}")?;
            out.one(view.directive(reader.place.line, words.as_str())?)?;
        }
    }
    Ok(())
}

// A type that copies although the section stays present.
fn always_back(
    view: &View<'_>,
    writer: &Item,
    cell: Cell,
    out: &mut Candidates,
) -> Result<(), AllocError> {
    let Some(map) = map_with(writer, cell) else {
        return Ok(());
    };
    if !view.is_written(writer, &map) || map.always {
        return Ok(());
    }
    let kind = match map.kind {
        MapKind::Alloc | MapKind::From => MapKind::From,
        _ => MapKind::ToFrom,
    };
    retype(view, &map, true, Some(kind), out)
}

// The arrays, but for one, that an item reads without a write of its own before and some kernel writes, as they are
// entered on its device, or by name.
fn others_back(
    view: &View<'_>,
    at: usize,
    reader: &Item,
    writer: &Item,
    array: ArrayId,
) -> Result<String, AllocError> {
    let mut text = String::new(view.alloc);
    let Some(found) = view.footprint(reader)? else {
        return Ok(text);
    };
    for other in stored_by_kernels(view.alloc, view.outlined)? {
        if other != array && found.exposed.row(other).first_from(0).is_some() {
            let mut texts = Texts {
                all: Vec::new(view.alloc),
            };
            entered(view, at, other, writer.device, &mut texts)?;
            texts.add(view.whole(other)?)?;
            if let Some(section) = texts.all.first() {
                text.push_str(", ")?;
                text.push_str(section.as_str())?;
            }
        }
    }
    Ok(text)
}

// Where the host may have written the cell, or not: an update that brings it to the host before that.
fn brought_before(
    view: &View<'_>,
    number: usize,
    writer: &Item,
    cell: Cell,
    out: &mut Candidates,
) -> Result<(), AllocError> {
    let Some(found) = view.footprint(writer)? else {
        return Ok(());
    };
    match last_target(view, number, cell) {
        Some(kernel) if !found.sure.contains(cell) => {
            brought_back(view, number, writer, kernel, cell, out)
        }
        _ => Ok(()),
    }
}

/// A host item reads a cell that is not current on the host.
pub fn host_stale(
    view: &View<'_>,
    at: usize,
    cell: Cell,
    out: &mut Candidates,
) -> Result<(), AllocError> {
    let Some(reader) = view.item(at) else {
        return Ok(());
    };
    turned(view, at, cell, out)?;
    other_kinds(view, at, cell, None, out)?;
    let number = view.last_writer(at, cell)?;
    let writer = match number {
        Some(number) => view.item(number),
        None => None,
    };
    if let (Some(number), Some(item)) = (number, writer)
        && matches!(item.kind, ItemKind::Host)
    {
        sent_behind(view, number, at, item, cell, out)?;
        brought_before(view, number, item, cell, out)?;
    }
    let kernel = match writer {
        Some(item) if matches!(item.kind, ItemKind::Target) => Some(item),
        _ => last_target(view, at, cell),
    };
    if let Some(kernel) = kernel {
        brought_back(view, at, reader, kernel, cell, out)?;
        always_back(view, kernel, cell, out)?;
    }
    other_devices(view, at, cell.array, out)
}

// What the kernel may need of what was written last.
fn sections_forth(
    view: &View<'_>,
    reader: &Item,
    writer: Option<&Item>,
    cell: Cell,
) -> Result<Texts, AllocError> {
    let mut texts = Texts {
        all: Vec::new(view.alloc),
    };
    let map = map_with(reader, cell);
    let mapped = map.map(|m| m.section);
    if let Some(writer) = writer {
        let written = written(view, writer, cell.array)?;
        texts.add_section(view, common_of(written, mapped))?;
    }
    if let Some(map) = map {
        texts.add(view.map_text(reader, &map)?)?;
    }
    texts.add_section(view, common_of(exposed(view, reader, cell.array)?, mapped))?;
    texts.add_section(view, Some(only(cell)))?;
    Ok(texts)
}

// The update that brings what a kernel wrote to the host, before a line.
fn from_kernel(
    view: &View<'_>,
    line: usize,
    writer: &Item,
    text: &str,
) -> Result<Change, AllocError> {
    let device = on_device(view.alloc, writer.device)?;
    let words = format!(in view.alloc; "target update from({text}){device}")?;
    view.directive(line, words.as_str())
}

// Updates that bring the cell to the kernel's device before it: to the host, from where an entry of the kernel copies
// it, or to the device, from another device through the host.
fn brought_over(
    view: &View<'_>,
    reader: &Item,
    writer: Option<&Item>,
    cell: Cell,
    out: &mut Candidates,
) -> Result<(), AllocError> {
    let line = reader.place.line;
    let to = on_device(view.alloc, reader.device)?;
    let texts = sections_forth(view, reader, writer, cell)?;
    for text in texts.all.as_slice() {
        let words = format!(in view.alloc; "target update to({text}){to}")?;
        let forth = view.directive(line, words.as_str())?;
        match writer {
            Some(writer) if matches!(writer.kind, ItemKind::Target) => {
                out.one(from_kernel(view, line, writer, text.as_str())?)?;
                if writer.device.number == reader.device.number {
                    out.one(forth)?;
                } else {
                    out.two(from_kernel(view, line, writer, text.as_str())?, forth)?;
                }
            }
            _ => out.one(forth)?,
        }
    }
    Ok(())
}

// A type that copies although the section is present.
fn always_forth(
    view: &View<'_>,
    reader: &Item,
    cell: Cell,
    out: &mut Candidates,
) -> Result<(), AllocError> {
    let Some(map) = map_with(reader, cell) else {
        return Ok(());
    };
    if view.is_written(reader, &map) {
        let kind = match map.kind {
            MapKind::To | MapKind::Alloc => MapKind::To,
            _ => MapKind::ToFrom,
        };
        return retype(view, &map, true, Some(kind), out);
    }
    let name = view.whole(cell.array)?;
    let line = with_map(
        view.alloc,
        view.line_of(reader),
        "always, tofrom",
        name.as_str(),
    )?;
    out.replace(reader.place.line, Some(line))
}

// The types by which the host gets what a kernel wrote, for a later entry to copy.
fn kept_back(
    view: &View<'_>,
    writer: Option<&Item>,
    cell: Cell,
    out: &mut Candidates,
) -> Result<(), AllocError> {
    if let Some(writer) = writer
        && let Some(map) = map_with(writer, cell)
        && view.is_written(writer, &map)
    {
        let (one, two) = back(writer.kind, map.kind);
        retype(view, &map, map.always, one, out)?;
        retype(view, &map, map.always, two, out)?;
    }
    Ok(())
}

/// A kernel reads a cell that is not current on its device.
pub fn device_stale(
    view: &View<'_>,
    at: usize,
    cell: Cell,
    out: &mut Candidates,
) -> Result<(), AllocError> {
    let Some(reader) = view.item(at) else {
        return Ok(());
    };
    turned(view, at, cell, out)?;
    other_kinds(view, at.saturating_add(1), cell, Some(reader.device), out)?;
    let number = view.last_writer(at, cell)?;
    let writer = match number {
        Some(number) => view.item(number),
        None => None,
    };
    kept_back(view, writer, cell, out)?;
    brought_over(view, reader, writer, cell, out)?;
    if let (Some(number), Some(item)) = (number, writer)
        && matches!(item.kind, ItemKind::Host)
    {
        sent_before(view, at, reader, item, cell, out)?;
        sent_behind(view, number, at.saturating_add(1), item, cell, out)?;
    }
    always_forth(view, reader, cell, out)?;
    other_devices(view, at.saturating_add(1), cell.array, out)
}
