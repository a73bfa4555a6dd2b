// What is tried where a section is left that an earlier item left already.

use crate::candidates::Candidates;
use crate::clauses::without_item;
use crate::lines::{Change, cut};
use crate::places::end_of_block;
use crate::view::{View, kind_text, map_with, on_device};
use base::item::{Cell, Item, ItemKind, MapItem};
use std::alloc::AllocError;

/// The last item before an exit, or the end of a block, that leaves the same cell on the same device. Targets leave
/// what they enter.
pub fn left_before(view: &View<'_>, at: usize, item: &Item, cell: Cell) -> Option<usize> {
    if !matches!(item.kind, ItemKind::Exit | ItemKind::End) {
        return None;
    }
    for number in (0..at).rev() {
        if let Some(earlier) = view.item(number)
            && earlier.device.number == item.device.number
            && matches!(earlier.kind, ItemKind::Exit | ItemKind::End)
            && map_with(earlier, cell).is_some()
        {
            return Some(number);
        }
    }
    None
}

// The change that takes a map item away: the whole line, where it has no other.
fn taken(view: &View<'_>, item: &Item, map: &MapItem) -> Result<Option<Change>, AllocError> {
    if item.maps.len() < 2 {
        return Ok(Some(Change::Removed(item.place.line)));
    }
    let place = map.column.saturating_sub(1);
    match without_item(view.alloc, view.line(map.line), place)? {
        Some(text) => Ok(Some(Change::Replaced(map.line, text))),
        None => Ok(None),
    }
}

// The line behind the brace that ends the loop around a line, where nothing else stands there.
fn behind_loop(view: &View<'_>, line: usize) -> Option<usize> {
    let end = end_of_block(view.text, line)?;
    let text = view.line(end.line);
    let behind = cut(text, end.column, text.len()).trim_ascii();
    if behind.is_empty() {
        Some(end.line.saturating_add(1))
    } else {
        None
    }
}

// An exit in each turn of a loop stands behind the loop.
fn moved_behind(
    view: &View<'_>,
    item: &Item,
    map: &MapItem,
    out: &mut Candidates,
) -> Result<(), AllocError> {
    let (Some(away), Some(line)) = (taken(view, item, map)?, behind_loop(view, item.place.line))
    else {
        return Ok(());
    };
    let (text, device) = (
        view.map_text(item, map)?,
        on_device(view.alloc, item.device)?,
    );
    let kind = kind_text(map.kind);
    let words = format!(in view.alloc; "target exit data map({kind}: {text}){device}")?;
    out.two(away, view.directive(line, words.as_str())?)
}

// An exit behind another one is taken away, or stands behind the loop in each turn of which it leaves the section; so
// is an exit in a block that leaves the section at its end.
fn left_once(
    view: &View<'_>,
    item: &Item,
    earlier: &Item,
    cell: Cell,
    out: &mut Candidates,
) -> Result<(), AllocError> {
    let exit = if matches!(item.kind, ItemKind::Exit) {
        item
    } else {
        earlier
    };
    let Some(map) = map_with(exit, cell) else {
        return Ok(());
    };
    if !matches!(exit.kind, ItemKind::Exit) || !view.is_written(exit, &map) {
        return Ok(());
    }
    if item.place.line == earlier.place.line {
        return moved_behind(view, exit, &map, out);
    }
    match taken(view, exit, &map)? {
        Some(change) => out.one(change),
        None => Ok(()),
    }
}

// The section is entered before the first item between both that uses it.
fn entered_again(
    view: &View<'_>,
    behind: usize,
    at: usize,
    item: &Item,
    cell: Cell,
    out: &mut Candidates,
) -> Result<(), AllocError> {
    let Some(map) = map_with(item, cell) else {
        return Ok(());
    };
    for number in behind.saturating_add(1)..at {
        if let Some(user) = view.item(number)
            && user.device.number == item.device.number
            && map_with(user, cell).is_some()
        {
            let (text, device) = (
                view.map_text(item, &map)?,
                on_device(view.alloc, item.device)?,
            );
            let words = format!(in view.alloc; "target enter data map(to: {text}){device}")?;
            return out.one(view.directive(user.place.line, words.as_str())?);
        }
    }
    Ok(())
}

/// A section is left that an earlier item, of this number, left already: one of them is taken away, or it is entered in
/// between.
pub fn left_twice(
    view: &View<'_>,
    at: usize,
    number: usize,
    cell: Cell,
    out: &mut Candidates,
) -> Result<(), AllocError> {
    let (Some(item), Some(earlier)) = (view.item(at), view.item(number)) else {
        return Ok(());
    };
    left_once(view, item, earlier, cell, out)?;
    if matches!(item.kind, ItemKind::Exit) {
        entered_again(view, number, at, item, cell, out)?;
    }
    Ok(())
}
