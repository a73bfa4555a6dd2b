// What is tried where two items have no order, or their depend items overlap in part.

use crate::blocks::{block_end, loops_around};
use crate::candidates::Candidates;
use crate::clauses::{with_depend, with_head};
use crate::lines::Change;
use crate::sections::{covers, hull};
use crate::view::{View, map_of, takes_depend};
use crate::words::with_item;
use base::item::{Cell, Depend, Item, ItemKind, MapKind};
use base::tree::{ArrayId, DependKind};
use std::alloc::AllocError;

// The depend item with a cell, else the first one of its array.
fn depend_of(item: &Item, cell: Cell) -> Option<Depend> {
    for depend in item.depends.as_slice() {
        if covers(depend.section, cell.array, cell.index) {
            return Some(*depend);
        }
    }
    for depend in item.depends.as_slice() {
        if depend.section.array == cell.array {
            return Some(*depend);
        }
    }
    None
}

fn depend_text(view: &View<'_>, item: &Item, depend: &Depend) -> Result<String, AllocError> {
    view.written_at(item, depend.line, depend.column, depend.section.array)
}

// Whether an item may change what a device has of an array.
fn changes_array(view: &View<'_>, item: &Item, array: ArrayId) -> bool {
    match item.kind {
        ItemKind::Target => view.stores(item, array),
        ItemKind::Update => match map_of(item, array) {
            Some(map) => !matches!(map.kind, MapKind::From),
            None => true,
        },
        _ => true,
    }
}

// The directive with a depend item more.
fn depending(view: &View<'_>, item: &Item, kind: &str, text: &str) -> Result<Change, AllocError> {
    let line = with_depend(view.alloc, view.line_of(item), kind, text)?;
    Ok(Change::Replaced(item.place.line, line))
}

// The directive with a depend item more: `in` where it only reads the array, as long as that is enough.
fn depend_one(
    view: &View<'_>,
    item: &Item,
    array: ArrayId,
    text: &str,
    out: &mut Candidates,
) -> Result<(), AllocError> {
    if !changes_array(view, item, array) {
        out.one(depending(view, item, "in", text)?)?;
    }
    out.one(depending(view, item, "inout", text)?)
}

// The same section in a depend item of both.
fn depend_both(
    view: &View<'_>,
    one: &Item,
    two: &Item,
    array: ArrayId,
    out: &mut Candidates,
) -> Result<(), AllocError> {
    let name = view.whole(array)?;
    let name = name.as_str();
    if one.place.line == two.place.line {
        return out.one(depending(view, two, "inout", name)?);
    }
    if !changes_array(view, one, array) {
        out.two(
            depending(view, one, "in", name)?,
            depending(view, two, "inout", name)?,
        )?;
    }
    if !changes_array(view, two, array) {
        out.two(
            depending(view, one, "inout", name)?,
            depending(view, two, "in", name)?,
        )?;
    }
    out.two(
        depending(view, one, "inout", name)?,
        depending(view, two, "inout", name)?,
    )
}

// Both read by their depend items: one of them writes.
fn depend_as_writer(
    view: &View<'_>,
    depend: &Depend,
    out: &mut Candidates,
) -> Result<(), AllocError> {
    let place = depend.column.saturating_sub(1);
    let line = with_head(view.alloc, view.line(depend.line), place, "inout")?;
    out.replace(depend.line, line)
}

// Another text for a depend item.
fn reword_one(
    view: &View<'_>,
    depend: &Depend,
    text: &str,
    out: &mut Candidates,
) -> Result<(), AllocError> {
    let place = depend.column.saturating_sub(1);
    let line = with_item(view.alloc, view.line(depend.line), place, text)?;
    out.replace(depend.line, line)
}

// The section of the one in the depend item of the other.
fn reword_either(
    view: &View<'_>,
    one: (&Item, &Depend),
    two: (&Item, &Depend),
    out: &mut Candidates,
) -> Result<(), AllocError> {
    let (first, earlier) = one;
    let (second, later) = two;
    let text = depend_text(view, first, earlier)?;
    reword_one(view, later, text.as_str(), out)?;
    let text = depend_text(view, second, later)?;
    reword_one(view, earlier, text.as_str(), out)
}

// A depend item with another text, as a change of its line.
fn reworded(view: &View<'_>, depend: &Depend, text: &str) -> Result<Option<Change>, AllocError> {
    let place = depend.column.saturating_sub(1);
    match with_item(view.alloc, view.line(depend.line), place, text)? {
        Some(text) => Ok(Some(Change::Replaced(depend.line, text))),
        None => Ok(None),
    }
}

// Another text for the depend items of both.
fn reword_both(
    view: &View<'_>,
    earlier: &Depend,
    later: &Depend,
    text: &str,
    out: &mut Candidates,
) -> Result<(), AllocError> {
    let Some(after) = reworded(view, later, text)? else {
        return Ok(());
    };
    if earlier.line == later.line {
        return out.one(after);
    }
    match reworded(view, earlier, text)? {
        Some(before) => out.two(before, after),
        None => Ok(()),
    }
}

fn order_by_depend(
    view: &View<'_>,
    one: &Item,
    two: &Item,
    cell: Cell,
    out: &mut Candidates,
) -> Result<(), AllocError> {
    match (depend_of(one, cell), depend_of(two, cell)) {
        (None, None) => depend_both(view, one, two, cell.array, out),
        (Some(depend), None) => {
            let text = depend_text(view, one, &depend)?;
            depend_one(view, two, cell.array, text.as_str(), out)
        }
        (None, Some(depend)) => {
            let text = depend_text(view, two, &depend)?;
            depend_one(view, one, cell.array, text.as_str(), out)
        }
        (Some(earlier), Some(later)) => {
            if changes_array(view, one, cell.array) && matches!(earlier.kind, DependKind::In) {
                depend_as_writer(view, &earlier, out)?;
            }
            if matches!(later.kind, DependKind::In) {
                depend_as_writer(view, &later, out)?;
            }
            reword_either(view, (one, &earlier), (two, &later), out)?;
            let all = view.whole(cell.array)?;
            reword_both(view, &earlier, &later, all.as_str(), out)
        }
    }
}

// A wait before an item, and before each loop around it, the outermost first.
fn wait_before(view: &View<'_>, item: &Item, out: &mut Candidates) -> Result<(), AllocError> {
    if matches!(item.kind, ItemKind::End) {
        return match block_end(view.text, item.place.line) {
            Some(line) => out.one(view.directive(line, "taskwait")?),
            None => Ok(()),
        };
    }
    let loops = loops_around(view.alloc, view.text, item.place.line)?;
    for line in loops.as_slice() {
        out.one(view.directive(*line, "taskwait")?)?;
    }
    if view.begins_line(item.place) {
        out.one(view.directive(item.place.line, "taskwait")?)?;
    }
    Ok(())
}

/// Two items touch a cell, one of them writes, and neither is before the other.
pub fn conflict(
    view: &View<'_>,
    at: usize,
    other: usize,
    cell: Cell,
    out: &mut Candidates,
) -> Result<(), AllocError> {
    let (Some(one), Some(two)) = (view.item(other), view.item(at)) else {
        return Ok(());
    };
    if takes_depend(one.kind) && takes_depend(two.kind) {
        order_by_depend(view, one, two, cell, out)?;
    }
    wait_before(view, two, out)
}

/// The sections of two depend items overlap without being identical.
pub fn overlap(
    view: &View<'_>,
    at: usize,
    other: usize,
    cell: Cell,
    out: &mut Candidates,
) -> Result<(), AllocError> {
    let (Some(one), Some(two)) = (view.item(other), view.item(at)) else {
        return Ok(());
    };
    let (Some(earlier), Some(later)) = (depend_of(one, cell), depend_of(two, cell)) else {
        return Ok(());
    };
    let text = view.section_text(hull(earlier.section, later.section))?;
    reword_both(view, &earlier, &later, text.as_str(), out)?;
    reword_either(view, (one, &earlier), (two, &later), out)?;
    let all = view.whole(cell.array)?;
    reword_both(view, &earlier, &later, all.as_str(), out)
}
