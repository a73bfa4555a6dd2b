// How deep and how wide a graph is.

use std::alloc::{AllocError, Global};

/// For each item how many edges the longest way to it has, by the edges that were added.
#[derive(Drop)]
pub struct Levels {
    of: Vec<usize>,
}

impl Levels {
    /// The levels of so many items with no edges.
    pub fn new(alloc: Global, count: usize) -> Result<Levels, AllocError> {
        let mut of = Vec::new(alloc);
        for _ in 0..count {
            of.push(0)?;
        }
        Ok(Levels { of })
    }

    /// Adds an edge, where those to the item that it begins at were added before.
    pub fn add(&mut self, from: u32, to: u32) {
        let below = self
            .of
            .get(from as usize)
            .copied()
            .unwrap_or(0)
            .saturating_add(1);
        if let Some(level) = self.of.get_mut(to as usize) {
            *level = below.max(*level);
        }
    }

    /// Whether a level has more items than there are levels.
    pub fn are_wide(&self, alloc: Global) -> Result<bool, AllocError> {
        let mut counts = Vec::new(alloc);
        'items: for _ in &self.of {
            counts.push(0usize)?;
        }
        let mut depth = 0;
        let mut width = 0;
        'levels: for level in &self.of {
            depth = level.saturating_add(1).max(depth);
            if let Some(count) = counts.get_mut(*level) {
                *count = count.saturating_add(1);
                width = width.max(*count);
            }
        }
        Ok(width > depth)
    }
}
