// Cells beside each other with which items do the same.

use crate::scene::Scene;
use base::item::{Cell, Section};
use bits::BitSet;

/// The cells `first` to `end - 1` of an array.
#[derive(Clone, Copy)]
pub struct Span {
    pub first: u64,
    pub end: u64,
}

// The part of a span around a cell that is inside a section as the cell is, or outside of it.
fn cut_by_section(span: Span, section: &Section, cell: Cell) -> Span {
    if section.array != cell.array {
        return span;
    }
    let end = section.first.saturating_add(section.length);
    if cell.index < section.first {
        Span {
            first: span.first,
            end: span.end.min(section.first),
        }
    } else if cell.index >= end {
        Span {
            first: span.first.max(end),
            end: span.end,
        }
    } else {
        Span {
            first: span.first.max(section.first),
            end: span.end.min(end),
        }
    }
}

// Whether all numbers of a span are in a set, or none is.
fn is_alike(set: &BitSet, span: Span, holds: bool) -> bool {
    let (first, end) = (span.first as usize, span.end as usize);
    if holds {
        return set.has_range(first, end);
    }
    match set.first_from(first) {
        None => true,
        Some(next) => next >= end,
    }
}

fn start_alike(set: &BitSet, least: usize, index: usize, holds: bool) -> usize {
    for i in (least..index).rev() {
        if set.contains(i) != holds {
            return i.saturating_add(1);
        }
    }
    least
}

fn end_alike(set: &BitSet, index: usize, end: usize, holds: bool) -> usize {
    for i in index..end {
        if set.contains(i) != holds {
            return i;
        }
    }
    end
}

// The part of a span around a number that is in a set as the number is, or is not.
fn cut_by_set(span: Span, set: &BitSet, index: u64) -> Span {
    let index = index as usize;
    let holds = set.contains(index);
    if is_alike(set, span, holds) {
        return span;
    }
    Span {
        first: start_alike(set, span.first as usize, index, holds) as u64,
        end: end_alike(set, index, span.end as usize, holds) as u64,
    }
}

impl Scene<'_> {
    // The part of a span with which one item does what it does with a cell.
    fn alike_in(&self, number: u32, cell: Cell, span: Span) -> Span {
        let (Some(item), Some(row)) = (self.item(number), self.row(number as usize)) else {
            return span;
        };
        let mut span = span;
        'maps: for map in item.maps.as_slice() {
            span = cut_by_section(span, &map.section, cell);
        }
        'row: for acts in row {
            span = cut_by_section(span, &acts.block, cell);
        }
        let Some(found) = self.footprint(number as usize) else {
            return span;
        };
        span = cut_by_set(span, found.write.row(cell.array), cell.index);
        cut_by_set(span, found.sure.row(cell.array), cell.index)
    }

    /// The part of a span with which each item before one does what it does with a cell of it.
    pub fn alike(&self, cell: Cell, span: Span, until: u32) -> Span {
        let mut span = span;
        'items: for number in 0..until {
            span = self.alike_in(number, cell, span);
        }
        span
    }
}
