// Other devices for directives.

use crate::candidates::Candidates;
use crate::clauses::with_device;
use crate::lines::cut;
use crate::view::{View, map_of};
use crate::words::{is_text, words};
use base::item::{Item, ItemKind};
use base::tree::ArrayId;
use std::alloc::AllocError;

// How many directives get another device.
const MOST_DIRECTIVES: usize = 5;

// How many devices a directive gets.
const MOST_DEVICES: usize = 4;

// How many directives are looked at for their devices.
const MOST_LINES: usize = 256;

// A device as it is written in brackets.
fn written<'v>(view: &View<'v>, item: &Item) -> Result<&'v str, AllocError> {
    let line = view.line_of(item);
    for word in words(view.alloc, line)?.as_slice() {
        if is_text(line, word, b"device".as_slice()) {
            let text = cut(line, word.open, word.close).trim_ascii();
            return Ok(std::str::from_utf8(text).unwrap_or(""));
        }
    }
    Ok("")
}

fn is_known(devices: &[(u8, &str)], number: u8, text: &str) -> bool {
    for (other, known) in devices {
        if *other == number && *known == text {
            return true;
        }
    }
    false
}

// The devices on which an array is mapped, as they are written.
fn devices_of<'v>(view: &View<'v>, array: ArrayId) -> Result<Vec<(u8, &'v str)>, AllocError> {
    let mut all: Vec<(u8, &'v str)> = Vec::new(view.alloc);
    let mut seen: Vec<usize> = Vec::new(view.alloc);
    for item in view.outlined.items() {
        if all.len() < MOST_DEVICES
            && seen.len() < MOST_LINES
            && map_of(item, array).is_some()
            && !seen.contains(&item.place.line)
        {
            seen.push(item.place.line)?;
            let text = written(view, item)?;
            if !is_known(&all, item.device.number, text) {
                all.push((item.device.number, text))?;
            }
        }
    }
    Ok(all)
}

// The directive of an item on each other one of some devices that is written. No clause is taken away.
fn on_others<'v>(
    view: &View<'v>,
    item: &Item,
    devices: &[(u8, &'v str)],
    out: &mut Candidates,
) -> Result<(), AllocError> {
    let mut tried: Vec<&'v str> = Vec::new(view.alloc);
    tried.push("")?;
    tried.push(written(view, item)?)?;
    for (_, text) in devices {
        if !tried.contains(text) {
            tried.push(*text)?;
            let line = with_device(view.alloc, view.line_of(item), *text)?;
            out.replace(item.place.line, Some(line))?;
        }
    }
    Ok(())
}

fn are_several(devices: &[(u8, &str)]) -> bool {
    for (number, _) in devices {
        for (other, _) in devices {
            if *other != *number {
                return true;
            }
        }
    }
    false
}

/// Another device, on which an array is mapped as well, for the last directives before a place that map it.
pub fn other_devices(
    view: &View<'_>,
    end: usize,
    array: ArrayId,
    out: &mut Candidates,
) -> Result<(), AllocError> {
    let devices = devices_of(view, array)?;
    if !are_several(&devices) {
        return Ok(());
    }
    let mut seen: Vec<usize> = Vec::new(view.alloc);
    for number in (0..end).rev() {
        if seen.len() >= MOST_DIRECTIVES {
            return Ok(());
        }
        if let Some(item) = view.item(number)
            && !matches!(item.kind, ItemKind::End)
            && map_of(item, array).is_some()
            && !seen.contains(&item.place.line)
        {
            seen.push(item.place.line)?;
            on_others(view, item, &devices, out)?;
        }
    }
    Ok(())
}
