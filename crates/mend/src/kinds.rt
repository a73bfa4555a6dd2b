// Other types for map items, and the other direction for updates.

use crate::candidates::Candidates;
use crate::clauses::{place_of, with_head, with_other_direction};
use crate::stores::stored_by_kernels;
use crate::view::{View, head, kind_text, map_with};
use base::item::{Cell, Item, ItemKind, MapItem, MapKind};
use base::tree::{ArrayId, DeviceId};
use std::alloc::AllocError;

// How many directives get another type.
const MOST_KINDS: usize = 6;

// How many updates are turned.
const MOST_TURNED: usize = 4;

/// The types by which the host may get what a device has, the better one first.
pub fn back(item: ItemKind, kind: MapKind) -> (Option<MapKind>, Option<MapKind>) {
    match (item, kind) {
        (ItemKind::Target | ItemKind::Begin, MapKind::To | MapKind::From) => {
            (Some(MapKind::ToFrom), None)
        }
        (ItemKind::Target | ItemKind::Begin, MapKind::Alloc) => {
            (Some(MapKind::From), Some(MapKind::ToFrom))
        }
        (ItemKind::Enter, MapKind::Alloc) => (Some(MapKind::To), None),
        (ItemKind::Exit, MapKind::Release | MapKind::Delete) => (Some(MapKind::From), None),
        _ => (None, None),
    }
}

/// The types by which a device may get what the host has.
pub fn forth(item: ItemKind, kind: MapKind) -> (Option<MapKind>, Option<MapKind>) {
    match (item, kind) {
        (ItemKind::Target | ItemKind::Begin, MapKind::From) => (Some(MapKind::ToFrom), None),
        (ItemKind::Target | ItemKind::Begin, MapKind::Alloc) => {
            (Some(MapKind::To), Some(MapKind::ToFrom))
        }
        (ItemKind::Enter, MapKind::Alloc) => (Some(MapKind::To), None),
        _ => (None, None),
    }
}

/// Another type for a map item.
pub fn retype(
    view: &View<'_>,
    map: &MapItem,
    always: bool,
    kind: Option<MapKind>,
    out: &mut Candidates,
) -> Result<(), AllocError> {
    let Some(kind) = kind else {
        return Ok(());
    };
    let head = head(view.alloc, always, map.present, kind)?;
    let place = map.column.saturating_sub(1);
    let line = with_head(view.alloc, view.line(map.line), place, head.as_str())?;
    out.replace(map.line, line)
}

fn is_alike(map: &MapItem, other: &MapItem) -> bool {
    map.line == other.line
        && map.always == other.always
        && map.present == other.present
        && kind_text(map.kind) == kind_text(other.kind)
}

// Another type for all items of a directive that have the type of one, and one of these arrays.
fn retype_all(
    view: &View<'_>,
    item: &Item,
    map: &MapItem,
    kind: Option<MapKind>,
    arrays: &[ArrayId],
    out: &mut Candidates,
) -> Result<(), AllocError> {
    let Some(kind) = kind else {
        return Ok(());
    };
    let head = head(view.alloc, map.always, map.present, kind)?;
    let mut line = Vec::from_slice(view.alloc, view.line(map.line))?;
    let mut count = 0usize;
    for other in item.maps.as_slice() {
        if is_alike(map, other) && arrays.contains(&other.section.array) {
            let text = view.map_text(item, other)?;
            let place = place_of(view.alloc, &line, b"map".as_slice(), text.as_bytes())?;
            if let Some(place) = place
                && let Some(next) = with_head(view.alloc, &line, place, head.as_str())?
            {
                line = next;
                count = count.saturating_add(1);
            }
        }
    }
    if count < 2 {
        return Ok(());
    }
    out.replace(map.line, Some(line))
}

// The arrays that a kernel reads with no write of its own before.
fn exposed_arrays(view: &View<'_>, item: &Item) -> Result<Vec<ArrayId>, AllocError> {
    let mut arrays = Vec::new(view.alloc);
    if let Some(found) = view.footprint(item)? {
        for map in item.maps.as_slice() {
            let array = map.section.array;
            if found.exposed.row(array).first_from(0).is_some() {
                arrays.push(array)?;
            }
        }
    }
    Ok(arrays)
}

// The arrays of which one slip may make several stale: those that kernels store to, or those that the last item reads
// on its device.
fn arrays_at_once(
    view: &View<'_>,
    end: usize,
    device: Option<DeviceId>,
) -> Result<Vec<ArrayId>, AllocError> {
    match (device, view.item(end.saturating_sub(1))) {
        (Some(_), Some(reader)) => exposed_arrays(view, reader),
        _ => stored_by_kernels(view.alloc, view.outlined),
    }
}

fn is_on(item: &Item, device: Option<DeviceId>) -> bool {
    match device {
        Some(device) => item.device.number == device.number,
        None => true,
    }
}

/// Other types for the map items that have the cell, those of the last directives before a place first: for it alone,
/// and for all arrays of the directive at once. For the host where no device is given.
pub fn other_kinds(
    view: &View<'_>,
    end: usize,
    cell: Cell,
    device: Option<DeviceId>,
    out: &mut Candidates,
) -> Result<(), AllocError> {
    let arrays = arrays_at_once(view, end, device)?;
    let mut seen: Vec<usize> = Vec::new(view.alloc);
    for number in (0..end).rev() {
        if seen.len() >= MOST_KINDS {
            return Ok(());
        }
        if let Some(item) = view.item(number)
            && !matches!(item.kind, ItemKind::End)
            && is_on(item, device)
            && let Some(map) = map_with(item, cell)
            && view.is_written(item, &map)
            && !seen.contains(&item.place.line)
        {
            let (one, two) = match device {
                None => back(item.kind, map.kind),
                Some(_) => forth(item.kind, map.kind),
            };
            seen.push(item.place.line)?;
            retype(view, &map, map.always, one, out)?;
            retype(view, &map, map.always, two, out)?;
            retype_all(view, item, &map, one, &arrays, out)?;
            retype_all(view, item, &map, two, &arrays, out)?;
        }
    }
    Ok(())
}

/// The other direction for the updates that have the cell, the last ones before a place first.
pub fn turned(
    view: &View<'_>,
    end: usize,
    cell: Cell,
    out: &mut Candidates,
) -> Result<(), AllocError> {
    let mut seen: Vec<usize> = Vec::new(view.alloc);
    for number in (0..end).rev() {
        if seen.len() >= MOST_TURNED {
            return Ok(());
        }
        if let Some(item) = view.item(number)
            && matches!(item.kind, ItemKind::Update)
            && let Some(map) = map_with(item, cell)
            && !seen.contains(&map.line)
        {
            seen.push(map.line)?;
            let place = map.column.saturating_sub(1);
            let line = with_other_direction(view.alloc, view.line(map.line), place)?;
            out.replace(map.line, line)?;
        }
    }
    Ok(())
}
