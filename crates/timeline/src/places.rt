// Where the cells of the arrays are current, and which sections are on the devices, while the items are gone through.

use crate::SIDES;
use crate::bars::{Segment, shade_of};
use crate::spans::{Keep, Layers, Span, Which, combined};
use crate::touched::Touch;
use base::item::{MapKind, Section};
use std::alloc::{AllocError, Global};

// A section on a device, and how often it was entered and not yet left.
#[derive(Clone, Copy)]
struct Block {
    side: usize,
    section: Section,
    count: u64,
}

/// The cells of a section.
pub fn span_of(section: &Section) -> Span {
    Span {
        first: section.first,
        end: section.first.saturating_add(section.length),
    }
}

/// The arrays on the host and on the devices.
#[derive(Drop)]
pub struct Places {
    alloc: Global,
    // How many cells each array has.
    lengths: Vec<u64>,
    // The cells of each array that are current on each side, the arrays one after the other.
    current: Vec<Vec<Span>>,
    blocks: Vec<Block>,
    // No side from this number on is used.
    sides: usize,
}

impl Places {
    /// Each cell is current on the host alone. No side from this number on is used.
    pub fn new(alloc: Global, lengths: &[u32], sides: usize) -> Result<Places, AllocError> {
        let mut places = Places {
            alloc,
            lengths: Vec::new(alloc),
            current: Vec::new(alloc),
            blocks: Vec::new(alloc),
            sides: sides.min(SIDES),
        };
        'lengths: for length in lengths {
            let end = u64::from(*length);
            places.lengths.push(end)?;
            let mut host = Vec::new(alloc);
            host.push(Span { first: 0, end })?;
            places.current.push(host)?;
            'devices: for _ in 1..SIDES {
                places.current.push(Vec::new(alloc))?;
            }
        }
        Ok(places)
    }

    /// How many arrays there are.
    pub fn arrays(&self) -> usize {
        self.lengths.len()
    }

    // The cells of an array that are current on a side.
    fn on(&self, array: usize, side: usize) -> &[Span] {
        match self.current.get(field_of(array, side)) {
            None => &[],
            Some(spans) => spans.as_slice(),
        }
    }

    fn set(&mut self, array: usize, side: usize, spans: Vec<Span>) {
        if let Some(old) = self.current.get_mut(field_of(array, side)) {
            *old = spans;
        }
    }

    // Of an array and a side, with other cells.
    fn change(
        &mut self,
        array: usize,
        side: usize,
        spans: &[Span],
        keep: Keep,
    ) -> Result<(), AllocError> {
        let new = combined(self.alloc, self.on(array, side), spans, keep)?;
        self.set(array, side, new);
        Ok(())
    }

    /// The cells of a section are not current on a side.
    pub fn clear(&mut self, side: usize, section: &Section) -> Result<(), AllocError> {
        let spans = [span_of(section)];
        self.change(section.array.0 as usize, side, &spans, Keep::InFirstAlone)
    }

    /// The cells of a section are current on a side where they are on the other one.
    pub fn copy(&mut self, from: usize, to: usize, section: &Section) -> Result<(), AllocError> {
        let array = section.array.0 as usize;
        let spans = [span_of(section)];
        let copied = combined(self.alloc, self.on(array, from), &spans, Keep::InBoth)?;
        self.clear(to, section)?;
        self.change(array, to, &copied, Keep::InEither)
    }

    /// A region on a side touches an array.
    pub fn run(&mut self, side: usize, touch: &Touch) -> Result<(), AllocError> {
        let array = touch.array.0 as usize;
        if touch.write.is_empty() {
            return Ok(());
        }
        'sides: for other in 0..self.sides {
            if other != side {
                self.change(array, other, &touch.write, Keep::InFirstAlone)?;
            }
        }
        self.change(array, side, &touch.sure, Keep::InEither)
    }

    fn block_of(&mut self, side: usize, section: &Section) -> Option<&mut Block> {
        self.blocks
            .iter_mut()
            .find(|block| block.side == side && block.section == *section)
    }

    /// A section enters a device in this block, which is made where it creates it. The answer is how often it is
    /// entered then.
    pub fn enter(
        &mut self,
        side: usize,
        block: &Section,
        creates: bool,
    ) -> Result<u64, AllocError> {
        if creates {
            self.blocks.push(Block {
                side,
                section: *block,
                count: 1,
            })?;
            return Ok(1);
        }
        match self.block_of(side, block) {
            None => Ok(0),
            Some(found) => {
                found.count = found.count.saturating_add(1);
                Ok(found.count)
            }
        }
    }

    /// A section leaves a device in this block, which is taken away where it removes it. The answer is how often it is
    /// still entered.
    pub fn leave(&mut self, side: usize, block: &Section, kind: MapKind, removes: bool) -> u64 {
        if removes {
            let gone = *block;
            self.blocks
                .retain(|kept| kept.side != side || kept.section != gone);
            return 0;
        }
        match self.block_of(side, block) {
            None => 0,
            Some(found) => {
                if !matches!(kind, MapKind::Delete) {
                    found.count = found.count.saturating_sub(1);
                }
                found.count
            }
        }
    }

    // The cells of an array that have storage on a side.
    fn stored(&self, array: usize, side: usize) -> Result<Vec<Span>, AllocError> {
        let mut spans = Vec::new(self.alloc);
        if side == 0 {
            let end = self.lengths.get(array).copied().unwrap_or(0);
            spans.push(Span { first: 0, end })?;
            return Ok(spans);
        }
        'blocks: for block in &self.blocks {
            if block.side == side && block.section.array.0 as usize == array {
                spans.push(span_of(&block.section))?;
            }
        }
        Ok(spans)
    }

    /// How a side stands to the cells of an array.
    pub fn bar(&self, array: usize, side: usize) -> Result<Vec<Segment>, AllocError> {
        let mut layers = Layers::new(self.alloc);
        layers.add(Which::First, self.on(array, side))?;
        layers.add(Which::Second, &self.stored(array, side)?)?;
        'sides: for any in 0..self.sides {
            layers.add(Which::Third, self.on(array, any))?;
        }
        let length = self.lengths.get(array).copied().unwrap_or(0);
        let pieces = layers.pieces(length)?;
        let mut bar = Vec::new(self.alloc);
        'pieces: for piece in &pieces {
            add_segment(
                &mut bar,
                Segment {
                    end: piece.end,
                    shade: shade_of(piece.inside, side == 0),
                },
            )?;
        }
        Ok(bar)
    }
}

// Adds a segment behind the others.
fn add_segment(bar: &mut Vec<Segment>, segment: Segment) -> Result<(), AllocError> {
    if let Some(last) = bar.last_mut() {
        if last.shade == segment.shade {
            last.end = segment.end;
            return Ok(());
        }
    }
    bar.push(segment)?;
    Ok(())
}

/// The place of an array and a side where the arrays stand one after the other.
pub fn field_of(array: usize, side: usize) -> usize {
    array.saturating_mul(SIDES).saturating_add(side)
}
