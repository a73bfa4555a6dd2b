// The rows of a program's table.

ghost use Rattle.base.specs.Items.{plan};
ghost use Rattle.mapwalk.specs.Footprints.{AreFootprints};
ghost use Rattle.mapwalk.specs.Found.{all_found};
ghost use Rattle.mapwalk.specs.Walk.{HasNoRangeFault};

use crate::SIDES;
use crate::bars::Segment;
use crate::kept::{Bars, States};
use crate::places::{Places, field_of, span_of};
use crate::spans::Span;
use crate::touched::{Touch, Touches};
use base::fault::{CheckFault, Refusal};
use base::item::{Item, ItemKind, MapItem, Section};
use base::tree::ArrayId;
use mapcheck::passes::footprints_of;
use mapwalk::{Acts, Footprints, repeats, walk};
use outline::Outlined;
use std::alloc::{AllocError, Global};

/// What an item does to cells of an array.
#[derive(Clone, Copy, Debug, PartialEq, Eq)]
pub enum What {
    /// They enter the device, and are then entered so often.
    Enters(u64),
    /// They leave the device, and are then still entered so often.
    Leaves(u64),
    CopiesToDevice,
    CopiesToHost,
    Reads,
    Writes,
}

/// What an item does to cells of an array, on a side: of a copy, the device.
#[derive(Clone, Copy, Debug, PartialEq, Eq)]
pub struct Deed {
    pub array: ArrayId,
    pub side: usize,
    pub what: What,
    /// A run that has all of the cells.
    pub span: Span,
}

/// What an item does, and where the cells are current behind it.
#[derive(Drop)]
pub struct Row {
    pub deeds: Vec<Deed>,
    /// The number of a state; none where that is not known.
    pub state: Option<usize>,
}

/// A program as a table.
#[derive(Drop)]
pub struct Timeline {
    /// The sides that the program uses, in ascending order; the first is the host.
    pub sides: Vec<usize>,
    /// A row for each item.
    pub rows: Vec<Row>,
    /// The state before the first item.
    pub start: Option<usize>,
    /// States: for each array and each side the number of a bar.
    pub states: Vec<Vec<usize>>,
    pub bars: Vec<Vec<Segment>>,
    /// The first refusal of an item by itself, behind which no state is known.
    pub fault: Option<Refusal>,
}

impl Timeline {
    /// The bar of an array on a side in a state.
    pub fn bar(&self, state: usize, array: usize, side: usize) -> Option<usize> {
        self.states.get(state)?.get(field_of(array, side)).copied()
    }
}

// The side that an item works on.
fn side_of(item: &Item) -> usize {
    match item.kind {
        ItemKind::Host | ItemKind::Wait => 0,
        ItemKind::Target
        | ItemKind::Begin
        | ItemKind::End
        | ItemKind::Enter
        | ItemKind::Exit
        | ItemKind::Update => (item.device.number as usize).saturating_add(1),
    }
}

// The sides that items work on, and the host.
fn sides_of(alloc: Global, items: &[Item]) -> Result<Vec<usize>, AllocError> {
    let mut sides = Vec::new(alloc);
    'sides: for side in 0..SIDES {
        if side == 0 || items.iter().any(|item| side_of(item) == side) {
            sides.push(side)?;
        }
    }
    Ok(sides)
}

// A run that has all cells of some runs; none where they have none.
fn hull(spans: &[Span]) -> Option<Span> {
    let first = spans.first()?;
    let last = spans.last()?;
    Some(Span {
        first: first.first,
        end: last.end,
    })
}

/// The rows while they are made.
#[derive(Drop)]
struct Builder {
    alloc: Global,
    places: Places,
    bars: Bars,
    states: States,
    // No side from this number on is used.
    sides: usize,
    // The bars of all arrays and sides.
    fields: Vec<usize>,
    deeds: Vec<Deed>,
}

impl Builder {
    fn new(alloc: Global, lengths: &[u32], sides: usize) -> Result<Builder, AllocError> {
        let mut builder = Builder {
            alloc,
            places: Places::new(alloc, lengths, sides)?,
            sides,
            bars: Bars::new(alloc),
            states: States::new(alloc),
            fields: Vec::new(alloc),
            deeds: Vec::new(alloc),
        };
        'arrays: for _ in 0..lengths.len() {
            'sides: for _ in 0..SIDES {
                builder.fields.push(0)?;
            }
        }
        'arrays: for array in 0..lengths.len() {
            builder.look(array)?;
        }
        Ok(builder)
    }

    // The bars of an array as they are now.
    fn look(&mut self, array: usize) -> Result<(), AllocError> {
        'sides: for side in 0..self.sides {
            let bar = self.places.bar(array, side)?;
            let number = self.bars.number(self.alloc, bar)?;
            if let Some(field) = self.fields.get_mut(field_of(array, side)) {
                *field = number;
            }
        }
        Ok(())
    }

    fn state(&mut self) -> Result<usize, AllocError> {
        self.states.number(self.alloc, &self.fields)
    }

    fn note(
        &mut self,
        array: ArrayId,
        side: usize,
        what: What,
        span: Span,
    ) -> Result<(), AllocError> {
        self.deeds.push(Deed {
            array,
            side,
            what,
            span,
        })?;
        Ok(())
    }

    // What a map item does before the region.
    fn enter(&mut self, side: usize, section: &Section, acts: &Acts) -> Result<(), AllocError> {
        let count = self.places.enter(side, &acts.block, acts.creates)?;
        self.note(section.array, side, What::Enters(count), span_of(section))?;
        if acts.creates {
            self.places.clear(side, &acts.block)?;
        }
        self.copy_in(side, section, acts)
    }

    fn copy_in(&mut self, side: usize, section: &Section, acts: &Acts) -> Result<(), AllocError> {
        if acts.copies_in {
            self.note(section.array, side, What::CopiesToDevice, span_of(section))?;
            self.places.copy(0, side, section)?;
        }
        Ok(())
    }

    fn copy_out(&mut self, side: usize, section: &Section, acts: &Acts) -> Result<(), AllocError> {
        if acts.copies_out {
            self.note(section.array, side, What::CopiesToHost, span_of(section))?;
            self.places.copy(side, 0, section)?;
        }
        Ok(())
    }

    // What a map item does behind the region.
    fn leave(&mut self, side: usize, map: &MapItem, acts: &Acts) -> Result<(), AllocError> {
        self.copy_out(side, &map.section, acts)?;
        let count = self.places.leave(side, &acts.block, map.kind, acts.removes);
        self.note(
            map.section.array,
            side,
            What::Leaves(count),
            span_of(&map.section),
        )?;
        if acts.removes {
            self.places.clear(side, &acts.block)?;
        }
        Ok(())
    }

    fn enter_all(&mut self, side: usize, item: &Item, row: &[Acts]) -> Result<(), AllocError> {
        'maps: for (map, acts) in item.maps.as_slice().iter().zip(row) {
            self.enter(side, &map.section, acts)?;
        }
        Ok(())
    }

    fn leave_all(&mut self, side: usize, item: &Item, row: &[Acts]) -> Result<(), AllocError> {
        'maps: for (map, acts) in item.maps.as_slice().iter().zip(row) {
            self.leave(side, map, acts)?;
        }
        Ok(())
    }

    fn update_all(&mut self, side: usize, item: &Item, row: &[Acts]) -> Result<(), AllocError> {
        'maps: for (map, acts) in item.maps.as_slice().iter().zip(row) {
            self.copy_in(side, &map.section, acts)?;
            self.copy_out(side, &map.section, acts)?;
        }
        Ok(())
    }

    // What the region of an item does.
    fn run(&mut self, side: usize, touches: &[Touch]) -> Result<(), AllocError> {
        'touches: for touch in touches {
            if let Some(span) = hull(&touch.read) {
                self.note(touch.array, side, What::Reads, span)?;
            }
            if let Some(span) = hull(&touch.write) {
                self.note(touch.array, side, What::Writes, span)?;
                self.places.run(side, touch)?;
            }
        }
        Ok(())
    }

    // What an item does.
    fn act(&mut self, item: &Item, row: &[Acts], touches: &[Touch]) -> Result<(), AllocError> {
        let side = side_of(item);
        match item.kind {
            ItemKind::Host => self.run(side, touches),
            ItemKind::Target => {
                self.enter_all(side, item, row)?;
                self.run(side, touches)?;
                self.leave_all(side, item, row)
            }
            ItemKind::Begin | ItemKind::Enter => self.enter_all(side, item, row),
            ItemKind::End | ItemKind::Exit => self.leave_all(side, item, row),
            ItemKind::Update => self.update_all(side, item, row),
            ItemKind::Wait => Ok(()),
        }
    }

    // Looks at the arrays again that the item touches.
    fn look_again(&mut self) -> Result<(), AllocError> {
        let mut arrays: Vec<ArrayId> = Vec::new(self.alloc);
        'deeds: for deed in &self.deeds {
            if !matches!(deed.what, What::Reads) && !arrays.contains(&deed.array) {
                arrays.push(deed.array)?;
            }
        }
        'arrays: for array in &arrays {
            self.look(array.0 as usize)?;
        }
        Ok(())
    }

    // The row of an item.
    fn row(&mut self, item: &Item, row: &[Acts], touches: &[Touch]) -> Result<Row, AllocError> {
        self.deeds = Vec::new(self.alloc);
        self.act(item, row, touches)?;
        self.look_again()?;
        Ok(Row {
            deeds: Vec::from_slice(self.alloc, &self.deeds)?,
            state: Some(self.state()?),
        })
    }
}

// A row of which nothing is known.
fn no_row(alloc: Global) -> Row {
    Row {
        deeds: Vec::new(alloc),
        state: None,
    }
}

// A table without states.
fn bare(alloc: Global, outlined: &Outlined<'_>) -> Result<Timeline, AllocError> {
    let mut rows = Vec::new(alloc);
    'items: for _ in outlined.items() {
        rows.push(no_row(alloc))?;
    }
    Ok(Timeline {
        sides: sides_of(alloc, outlined.items())?,
        rows,
        start: None,
        states: Vec::new(alloc),
        bars: Vec::new(alloc),
        fault: None,
    })
}

// The table of a program whose items have these footprints.
fn replayed(
    alloc: Global,
    outlined: &Outlined<'_>,
    repeats: &[Option<usize>],
    found: &Footprints,
) -> Result<Timeline, AllocError>
    requires fine { HasNoRangeFault (plan outlined.now) }
    requires found { AreFootprints (plan outlined.now) (all_found found.now) }
{
    let walked = walk(alloc, outlined, found)?;
    let sides = sides_of(alloc, outlined.items())?;
    let end = sides.last().copied().unwrap_or(0).saturating_add(1);
    let mut builder = Builder::new(alloc, outlined.lengths(), end)?;
    let mut touches = Touches::new(alloc);
    let start = builder.state()?;
    let mut rows = Vec::new(alloc);
    'items: for (number, item) in outlined.items().iter().enumerate() {
        let earlier = repeats.get(number).copied().unwrap_or(None);
        match walked.acts.get(number) {
            None => rows.push(no_row(alloc))?,
            Some(row) => {
                touches.add(alloc, outlined, found, earlier)?;
                rows.push(builder.row(item, row, touches.of(number))?)?;
            }
        }
    }
    let Builder { bars, states, .. } = builder;
    Ok(Timeline {
        sides,
        rows,
        start: Some(start),
        states: states.list,
        bars: bars.list,
        fault: walked.fault,
    })
}

/// What each item of a program does, and where the cells are current behind it. Behind an item that is refused by
/// itself nothing is known; nor is it where the program has a fault of range. The error comes where an allocation
/// fails.
///
/// It takes time for the runs of cells that an item touches, and for the blocks of its device.
pub fn timeline_of(alloc: Global, outlined: &Outlined<'_>) -> Result<Timeline, AllocError> {
    let repeats = repeats(alloc, outlined)?;
    match footprints_of(alloc, outlined, &repeats) {
        Ok(found) => replayed(alloc, outlined, &repeats, &found),
        Err(CheckFault::OutOfMemory) => Err(AllocError),
        Err(_) => bare(alloc, outlined),
    }
}
