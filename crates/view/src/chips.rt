// What an item does to an array, in few signs.

use crate::page::Page;
use crate::scene::Scene;
use base::tree::ArrayId;
use std::alloc::AllocError;
use timeline::{Deed, Span, What};

// The sign of a deed, and what it says.
fn sign(what: What) -> (&'static str, &'static str) {
    match what {
        What::Enters(_) => (
            "<span class=k title=\"enters the device: then entered ",
            "+",
        ),
        What::Leaves(_) => (
            "<span class=k title=\"leaves the device: then still entered ",
            "\u{2212}",
        ),
        What::CopiesToDevice => (
            "<span class=\"k a\" title=\"is copied from the host to the device",
            "\u{2192}",
        ),
        What::CopiesToHost => (
            "<span class=\"k a\" title=\"is copied from the device to the host",
            "\u{2190}",
        ),
        What::Reads => ("<span class=k title=\"may be read here", "r"),
        What::Writes => ("<span class=\"k w\" title=\"may be written here", "w"),
    }
}

// How often a section is entered.
fn count_of(what: What) -> Option<u64> {
    match what {
        What::Enters(count) | What::Leaves(count) => Some(count),
        What::CopiesToDevice | What::CopiesToHost | What::Reads | What::Writes => None,
    }
}

/// A section, by its first cell and how many there are.
pub fn add_section(page: &mut Page, span: Span) -> Result<(), AllocError> {
    page.add("[")?;
    page.add_number(span.first)?;
    page.add(":")?;
    page.add_number(span.end.saturating_sub(span.first))?;
    page.add("]")
}

fn add_chip(page: &mut Page, scene: &Scene<'_>, deed: &Deed) -> Result<(), AllocError> {
    let (begin, sign) = sign(deed.what);
    let length = scene.length_of(deed.array);
    page.add(begin)?;
    if let Some(count) = count_of(deed.what) {
        page.add_count(count, " time", " times")?;
    }
    page.add(": ")?;
    page.add_text(scene.name_of(deed.array))?;
    add_section(page, deed.span)?;
    page.add("\">")?;
    page.add(sign)?;
    match count_of(deed.what) {
        Some(count) => page.add_number(count)?,
        None => {
            if deed.span.first > 0 || deed.span.end < length {
                add_section(page, deed.span)?;
            }
        }
    }
    page.add("</span> ")
}

/// What some deeds do to an array on a side.
pub fn add_chips(
    page: &mut Page,
    scene: &Scene<'_>,
    deeds: &[Deed],
    array: ArrayId,
    side: usize,
) -> Result<(), AllocError> {
    'deeds: for deed in deeds {
        if deed.array == array && deed.side == side {
            add_chip(page, scene, deed)?;
        }
    }
    Ok(())
}
