// Sections, and the cells of a region as one.

use base::item::Section;
use base::tree::ArrayId;
use ranges::{CellSet, Footprint};

/// One past the last cell.
pub fn end_of(section: Section) -> u64 {
    section.first.saturating_add(section.length)
}

pub fn covers(section: Section, array: ArrayId, index: u64) -> bool {
    section.array == array && section.first <= index && index < end_of(section)
}

/// The least section that has the cells of both.
pub fn hull(a: Section, b: Section) -> Section {
    let first = a.first.min(b.first);
    Section {
        array: a.array,
        first,
        length: end_of(a).max(end_of(b)).saturating_sub(first),
    }
}

/// The cells that are in both.
pub fn common(a: Section, b: Section) -> Option<Section> {
    let first = a.first.max(b.first);
    let end = end_of(a).min(end_of(b));
    if a.array == b.array && first < end {
        Some(Section {
            array: a.array,
            first,
            length: end.saturating_sub(first),
        })
    } else {
        None
    }
}

/// The least section with all cells of an array that are in a set.
pub fn run_in(set: &CellSet, array: ArrayId) -> Option<Section> {
    let row = set.row(array);
    let first = row.first_from(0)?;
    Some(Section {
        array,
        first: first as u64,
        length: row.end().saturating_sub(first) as u64,
    })
}

/// The least section with all cells of an array that a region touches.
pub fn touched(footprint: &Footprint, array: ArrayId) -> Option<Section> {
    match (
        run_in(&footprint.read, array),
        run_in(&footprint.write, array),
    ) {
        (Some(read), Some(write)) => Some(hull(read, write)),
        (read, None) => read,
        (None, write) => write,
    }
}
