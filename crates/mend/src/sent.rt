// Updates that send to a device what a host item wrote.

use crate::candidates::Candidates;
use crate::places::behind_statements;
use crate::view::{View, map_of, map_with, on_device};
use base::item::{Cell, Item, ItemKind, MapKind, Section};
use base::tree::{ArrayId, DeviceId};
use ranges::{Part, Run};
use std::alloc::AllocError;

// How many runs of an array are sent one by one.
const MOST_RUNS: usize = 4;

// To how many devices something is sent.
const MOST_DEVICES: usize = 2;

// The device to which a cell goes, or from which it comes back over what the host wrote, by the last such items.
fn devices(view: &View<'_>, end: usize, cell: Cell) -> Result<Vec<DeviceId>, AllocError> {
    let mut all: Vec<DeviceId> = Vec::new(view.alloc);
    for number in (0..end).rev() {
        if all.len() >= MOST_DEVICES {
            return Ok(all);
        }
        if let Some(item) = view.item(number)
            && map_with(item, cell).is_some()
            && !has_device(&all, item.device)
        {
            all.push(item.device)?;
        }
    }
    Ok(all)
}

fn has_device(all: &[DeviceId], device: DeviceId) -> bool {
    for other in all {
        if other.number == device.number {
            return true;
        }
    }
    false
}

// The runs of an array among some.
fn runs_of(view: &View<'_>, runs: &[Run], array: ArrayId) -> Result<Vec<Section>, AllocError> {
    let mut sections = Vec::new(view.alloc);
    for run in runs {
        if run.array == array && sections.len() <= MOST_RUNS {
            sections.push(Section {
                array,
                first: run.first,
                length: run.length,
            })?;
        }
    }
    Ok(sections)
}

// Whether an item before a place, or up to it, has an array on a device where it stays or is updated.
fn is_mapped(view: &View<'_>, end: usize, array: ArrayId, device: DeviceId) -> bool {
    for number in (0..end).rev() {
        if let Some(item) = view.item(number)
            && item.device.number == device.number
            && matches!(
                item.kind,
                ItemKind::Begin | ItemKind::Enter | ItemKind::Update
            )
            && map_of(item, array).is_some()
        {
            return true;
        }
    }
    false
}

// The texts of what a host item wrote of some arrays: in the n-th one the n-th run of each.
fn rounds(view: &View<'_>, runs: &[Run], arrays: &[ArrayId]) -> Result<Vec<String>, AllocError> {
    let mut rounds: Vec<String> = Vec::new(view.alloc);
    for array in arrays {
        let sections = runs_of(view, runs, *array)?;
        if sections.len() > MOST_RUNS {
            return Ok(Vec::new(view.alloc));
        }
        for (number, section) in sections.as_slice().iter().enumerate() {
            let text = view.section_text(*section)?;
            match rounds.get_mut(number) {
                Some(round) => {
                    round.push_str(", ")?;
                    round.push_str(text.as_str())?;
                }
                None => rounds.push(text)?,
            }
        }
    }
    Ok(rounds)
}

// The arrays that have runs, which stand in order, and are on a device.
fn arrays_in(
    view: &View<'_>,
    runs: &[Run],
    end: usize,
    device: DeviceId,
) -> Result<Vec<ArrayId>, AllocError> {
    let mut arrays: Vec<ArrayId> = Vec::new(view.alloc);
    let mut last: Option<ArrayId> = None;
    for run in runs {
        if last != Some(run.array) && is_mapped(view, end, run.array, device) {
            arrays.push(run.array)?;
        }
        last = Some(run.array);
    }
    Ok(arrays)
}

// An update for each of some texts, on lines of their own before a line.
fn updates(
    view: &View<'_>,
    line: usize,
    texts: &[String],
    device: DeviceId,
    out: &mut Candidates,
) -> Result<(), AllocError> {
    let device = on_device(view.alloc, device)?;
    let mut changes = Vec::new(view.alloc);
    for text in texts {
        let words = format!(in view.alloc; "target update to({text}){device}")?;
        changes.push(view.directive(line, words.as_str())?)?;
    }
    out.many(changes)
}

// What a host item wrote goes to a device before a line: of the cell's array, and of all arrays that are there.
fn sent(
    view: &View<'_>,
    line: usize,
    end: usize,
    writer: &Item,
    cell: Cell,
    device: DeviceId,
    out: &mut Candidates,
) -> Result<(), AllocError> {
    let Some(found) = view.footprint(writer)? else {
        return Ok(());
    };
    let runs = found.runs(view.alloc, Part::Write)?;
    let mut one = Vec::new(view.alloc);
    one.push(cell.array)?;
    updates(view, line, &rounds(view, &runs, &one)?, device, out)?;
    let all = arrays_in(view, &runs, end, device)?;
    if all.len() > 1 {
        updates(view, line, &rounds(view, &runs, &all)?, device, out)?;
    }
    Ok(())
}

// The array as it is mapped last, before an item.
fn mapped_text(
    view: &View<'_>,
    end: usize,
    array: ArrayId,
    device: DeviceId,
) -> Result<Vec<String>, AllocError> {
    let mut texts = Vec::new(view.alloc);
    for number in (0..end).rev() {
        if let Some(item) = view.item(number)
            && item.device.number == device.number
            && !matches!(item.kind, ItemKind::End)
            && let Some(map) = map_of(item, array)
            && !matches!(map.kind, MapKind::Release | MapKind::Delete)
        {
            texts.push(view.map_text(item, &map)?)?;
            return Ok(texts);
        }
    }
    Ok(texts)
}

/// What a host item wrote goes to the device of a kernel, directly before the kernel.
pub fn sent_before(
    view: &View<'_>,
    at: usize,
    reader: &Item,
    writer: &Item,
    cell: Cell,
    out: &mut Candidates,
) -> Result<(), AllocError> {
    sent(
        view,
        reader.place.line,
        at,
        writer,
        cell,
        reader.device,
        out,
    )
}

/// What a host item wrote goes to a device behind the item, so that later kernels have it, and what is copied back later
/// is no older value.
pub fn sent_behind(
    view: &View<'_>,
    number: usize,
    end: usize,
    writer: &Item,
    cell: Cell,
    out: &mut Candidates,
) -> Result<(), AllocError> {
    let Some(place) = behind_statements(view.text, writer.place) else {
        return Ok(());
    };
    if !view.begins_line(place) {
        return Ok(());
    }
    for device in devices(view, end, cell)?.as_slice() {
        sent(view, place.line, number, writer, cell, *device, out)?;
        let texts = mapped_text(view, number, cell.array, *device)?;
        updates(view, place.line, &texts, *device, out)?;
    }
    Ok(())
}
