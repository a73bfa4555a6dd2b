// What regions touch, as runs of cells.

use crate::spans::Span;
use base::tree::ArrayId;
use mapwalk::Footprints;
use outline::Outlined;
use ranges::{Footprint, Part, Run};
use std::alloc::{AllocError, Global};

/// What a region touches of an array.
#[derive(Drop)]
pub struct Touch {
    pub array: ArrayId,
    pub read: Vec<Span>,
    pub write: Vec<Span>,
    pub sure: Vec<Span>,
}

fn spans_of(alloc: Global, array: ArrayId, runs: &[Run]) -> Result<Vec<Span>, AllocError> {
    let mut spans = Vec::new(alloc);
    'runs: for run in runs {
        if run.array == array {
            spans.push(Span {
                first: run.first,
                end: run.first.saturating_add(run.length),
            })?;
        }
    }
    Ok(spans)
}

fn touches_of(
    alloc: Global,
    arrays: &[ArrayId],
    found: &Footprint,
) -> Result<Vec<Touch>, AllocError> {
    let read = found.runs(alloc, Part::Read)?;
    let write = found.runs(alloc, Part::Write)?;
    let sure = found.runs(alloc, Part::Sure)?;
    let mut touches = Vec::new(alloc);
    'arrays: for array in arrays {
        touches.push(Touch {
            array: *array,
            read: spans_of(alloc, *array, &read)?,
            write: spans_of(alloc, *array, &write)?,
            sure: spans_of(alloc, *array, &sure)?,
        })?;
    }
    Ok(touches)
}

/// What the regions of items touch. It is kept once for items that repeat each other.
#[derive(Drop)]
pub struct Touches {
    // Of each item the first one that it repeats.
    roots: Vec<usize>,
    lists: Vec<Vec<Touch>>,
}

impl Touches {
    /// Of no item.
    pub fn new(alloc: Global) -> Touches {
        Touches {
            roots: Vec::new(alloc),
            lists: Vec::new(alloc),
        }
    }

    /// What the region of an item touches.
    pub fn of(&self, item: usize) -> &[Touch] {
        let Some(root) = self.roots.get(item) else {
            return &[];
        };
        match self.lists.get(*root) {
            None => &[],
            Some(list) => list.as_slice(),
        }
    }

    /// Adds the next item, which may repeat an earlier one.
    pub fn add(
        &mut self,
        alloc: Global,
        outlined: &Outlined<'_>,
        found: &Footprints,
        earlier: Option<usize>,
    ) -> Result<(), AllocError> {
        let number = self.lists.len();
        let root = match earlier {
            None => None,
            Some(earlier) => self.roots.get(earlier).copied(),
        };
        if let Some(root) = root {
            self.roots.push(root)?;
            self.lists.push(Vec::new(alloc))?;
            return Ok(());
        }
        self.roots.push(number)?;
        self.lists.push(list_of(alloc, outlined, found, number)?)?;
        Ok(())
    }
}

// What the region of an item touches.
fn list_of(
    alloc: Global,
    outlined: &Outlined<'_>,
    found: &Footprints,
    number: usize,
) -> Result<Vec<Touch>, AllocError> {
    let Some(item) = outlined.items().get(number) else {
        return Ok(Vec::new(alloc));
    };
    let Some(region) = item.region else {
        return Ok(Vec::new(alloc));
    };
    let Some(entry) = outlined.regions().get(region as usize) else {
        return Ok(Vec::new(alloc));
    };
    if number >= found.len() {
        return Ok(Vec::new(alloc));
    }
    match found.get(number) {
        None => Ok(Vec::new(alloc)),
        Some(found) => touches_of(alloc, &entry.arrays, found),
    }
}
