// What is tried where two turns of a loop meet, and the loops in it may have turns that do not.

use crate::blocks::loops_inside;
use crate::candidates::Candidates;
use crate::combined::without_collapse;
use crate::lines::{Change, cut, indent};
use crate::view::{View, head, on_device};
use crate::words::words;
use base::item::Item;
use std::alloc::AllocError;

// The `target data` that has the map items of a target, with the blanks before its directive.
fn data_line(view: &View<'_>, item: &Item) -> Result<Vec<u8>, AllocError> {
    let line = view.line_of(item);
    let mut out = Vec::from_slice(view.alloc, cut(line, 0, indent(line)))?;
    out.extend_from_slice(b"#pragma omp target data".as_slice())?;
    'maps: for map in item.maps.as_slice() {
        let head = head(view.alloc, map.always, map.present, map.kind)?;
        let text = view.map_text(item, map)?;
        let clause = format!(in view.alloc; " map({head}: {text})")?;
        out.extend_from_slice(clause.as_bytes())?;
    }
    let device = on_device(view.alloc, item.device)?;
    out.extend_from_slice(device.as_bytes())?;
    Ok(out)
}

// A directive without `#pragma omp`.
fn directive_words<'l>(view: &View<'_>, line: &'l [u8]) -> Result<&'l str, AllocError> {
    let words = words(view.alloc, line)?;
    let first = words.get(2).map_or(line.len(), |word| word.first);
    Ok(str::from_utf8(cut(line, first, line.len()).trim_ascii_end()).unwrap_or(""))
}

// The directive stands before a loop inside, and what it maps is mapped around all loops.
fn stand_before(
    view: &View<'_>,
    item: &Item,
    inner: usize,
    directive: &[u8],
    out: &mut Candidates,
) -> Result<(), AllocError> {
    let data = Change::Replaced(item.place.line, data_line(view, item)?);
    let moved = view.directive(inner, directive_words(view, directive)?)?;
    out.two(data, moved)
}

/// The directive before a loop that begins the body of the one around it, as it is and with no `collapse`, and before the
/// outermost one a `target data` with what it maps. A directive with `nowait` or `depend` stays where it is.
pub fn before_inner(
    view: &View<'_>,
    item: &Item,
    line: &[u8],
    out: &mut Candidates,
) -> Result<(), AllocError> {
    if item.deferred || !item.depends.is_empty() {
        return Ok(());
    }
    let shorter = without_collapse(view.alloc, line)?;
    'loops: for place in loops_inside(view.alloc, view.text, item.place.line)? {
        if view.begins_line(place) {
            stand_before(view, item, place.line, line, out)?;
            if let Some(shorter) = &shorter {
                stand_before(view, item, place.line, shorter, out)?;
            }
        }
    }
    Ok(())
}
