// Runs of cells that are told as one section.

use crate::alike::Span;
use crate::past::block_with;
use crate::scene::Scene;
use base::item::{Cell, Section};
use base::tree::ArrayId;
use history::{History, Side, State};
use ranges::{Part, Run};
use std::alloc::AllocError;

// How many spans of cells a run has on each side of the first, each of cells with which items do the same.
const MOST_SPANS: usize = 8;

/// A copy that stands before an item.
#[derive(Clone, Copy)]
pub struct Copying {
    pub from: Side,
    pub to: Side,
    pub until: u32,
}

fn is_current(history: &History, side: Side) -> bool {
    matches!(history.state(side), State::Current)
}

fn only(cell: Cell) -> Section {
    Section {
        array: cell.array,
        first: cell.index,
        length: 1,
    }
}

fn end_of(section: &Section) -> u64 {
    section.first.saturating_add(section.length)
}

/// The least section that has the cells of both.
pub fn hull(one: &Section, other: &Section) -> Section {
    let first = one.first.min(other.first);
    Section {
        array: one.array,
        first,
        length: end_of(one).max(end_of(other)).saturating_sub(first),
    }
}

fn section_of(run: &Run) -> Section {
    Section {
        array: run.array,
        first: run.first,
        length: run.length,
    }
}

/// Whether one of some runs is of an array.
pub fn has_run(runs: &[Run], array: ArrayId) -> bool {
    'runs: for run in runs {
        if run.array == array {
            return true;
        }
    }
    false
}

// Adds the runs of one array.
fn add_runs(sections: &mut Vec<Section>, runs: &[Run], cell: Cell) -> Result<(), AllocError> {
    'runs: for run in runs {
        if run.array == cell.array {
            sections.push(section_of(run))?;
        }
    }
    Ok(())
}

impl Scene<'_> {
    /// Whether a cell is current on a side before an item.
    pub fn is_current_before(
        &self,
        cell: Cell,
        until: u32,
        side: Side,
    ) -> Result<bool, AllocError> {
        let Some(past) = &self.past else {
            return Ok(false);
        };
        match past.history(self.alloc, cell, until)? {
            None => Ok(false),
            Some(history) => Ok(is_current(&history, side)),
        }
    }

    // Whether the copy would make the cell current where it is not.
    fn is_brought(&self, cell: Cell, copying: Copying) -> Result<bool, AllocError> {
        let Some(past) = &self.past else {
            return Ok(false);
        };
        match past.history(self.alloc, cell, copying.until)? {
            None => Ok(false),
            Some(history) => {
                Ok(is_current(&history, copying.from) && !is_current(&history, copying.to))
            }
        }
    }

    // Where the run begins that has the cells of a span from this one on.
    fn run_first(
        &self,
        cell: Cell,
        first: u64,
        span: Span,
        copying: Copying,
    ) -> Result<u64, AllocError> {
        let mut first = first;
        'spans: for _ in 0..MOST_SPANS {
            let next = Cell {
                array: cell.array,
                index: first.saturating_sub(1),
            };
            if first <= span.first || !self.is_brought(next, copying)? {
                return Ok(first);
            }
            first = self.alike(next, span, copying.until).first;
        }
        Ok(first)
    }

    // Where the run ends that has the cells of a span up to this one.
    fn run_end(
        &self,
        cell: Cell,
        end: u64,
        span: Span,
        copying: Copying,
    ) -> Result<u64, AllocError> {
        let mut end = end;
        'spans: for _ in 0..MOST_SPANS {
            let next = Cell {
                array: cell.array,
                index: end,
            };
            if end >= span.end || !self.is_brought(next, copying)? {
                return Ok(end);
            }
            end = self.alike(next, span, copying.until).end;
        }
        Ok(end)
    }

    /// The cells around a cell that a copy would bring: those of one block of the device that are current on the side it
    /// copies from, and not on the other.
    pub fn run_around(
        &self,
        cell: Cell,
        device: u8,
        copying: Copying,
    ) -> Result<Section, AllocError> {
        let blocks = self.blocks(device, copying.until)?;
        let Some(entered) = block_with(&blocks, cell) else {
            return Ok(only(cell));
        };
        let span = Span {
            first: entered.section.first,
            end: end_of(&entered.section),
        };
        if !self.is_brought(cell, copying)? {
            return Ok(only(cell));
        }
        let own = self.alike(cell, span, copying.until);
        let first = self.run_first(cell, own.first, span, copying)?;
        let end = self.run_end(cell, own.end, span, copying)?;
        Ok(Section {
            array: cell.array,
            first,
            length: end.saturating_sub(first),
        })
    }

    /// The runs of the cells of an array that the region of an item may read, and of those that it may write.
    pub fn touched(&self, number: u32, cell: Cell) -> Result<Vec<Section>, AllocError> {
        let mut touched = Vec::new(self.alloc);
        if let Some(found) = self.footprint(number as usize) {
            add_runs(&mut touched, &found.runs(self.alloc, Part::Read)?, cell)?;
            add_runs(&mut touched, &found.runs(self.alloc, Part::Write)?, cell)?;
        }
        Ok(touched)
    }
}
