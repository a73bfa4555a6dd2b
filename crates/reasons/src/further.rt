// Faults besides the first: of range, and of depend items that overlap in part.

use crate::scene::is_same;
use base::fault::{CheckFault, OrderFault, RangeFault};
use base::item::{Cell, Depend, Item};
use base::least::{first_shared, lesser};
use base::tree::Place;
use mapwalk::{footprint_of, repeats};
use outline::Outlined;
use ranges::{FootprintFault, sections};
use std::alloc::{AllocError, Global};

/// The most faults that are told, with the first.
pub const MOST_TOLD: usize = 8;

// The most directives of which it is told that they have a fault.
const MOST_PLACES: usize = 1_024;

/// The most items of which each is compared with each earlier one.
pub const MOST_PAIRED: usize = 1_024;

/// Faults besides the first, one for each directive, or each run of statements between directives, that has one.
#[derive(Drop)]
pub struct Further {
    pub faults: Vec<CheckFault>,
    /// How many more were found.
    pub more: u64,
    // Where the items stand that have a fault, the first one's too.
    places: Vec<Place>,
}

impl Further {
    pub fn new(alloc: Global, first: Place) -> Result<Further, AllocError> {
        let mut places = Vec::new(alloc);
        places.push(first)?;
        Ok(Further {
            faults: Vec::new(alloc),
            more: 0,
            places,
        })
    }

    fn has(&self, place: Place) -> bool {
        'places: for other in &self.places {
            if other.line == place.line && other.column == place.column {
                return true;
            }
        }
        false
    }

    /// Whether another fault of an item there is told of.
    pub fn takes(&self, place: Place) -> bool {
        self.places.len() < MOST_PLACES && !self.has(place)
    }

    /// A fault of an item that stands there.
    pub fn note(&mut self, place: Place, fault: CheckFault) -> Result<(), AllocError> {
        self.places.push(place)?;
        if self.faults.len() < MOST_TOLD - 1 {
            self.faults.push(fault)?;
        } else {
            self.more = self.more.saturating_add(1);
        }
        Ok(())
    }
}

// The fault of range of an item; of its sections alone where an earlier item touches what it does.
fn range_of(
    alloc: Global,
    outlined: &Outlined<'_>,
    item: &Item,
    repeats: bool,
) -> Result<Option<RangeFault>, AllocError> {
    if let Err(fault) = sections(outlined.program(), item) {
        return Ok(Some(fault));
    }
    if repeats {
        return Ok(None);
    }
    match footprint_of(alloc, outlined, item) {
        Ok(_) => Ok(None),
        Err(FootprintFault::Range(fault)) => Ok(Some(fault)),
        Err(FootprintFault::OutOfMemory) => Err(AllocError),
    }
}

/// The faults of range of the items behind one.
pub fn ranges_behind(
    alloc: Global,
    outlined: &Outlined<'_>,
    first: u32,
    found: &mut Further,
) -> Result<(), AllocError> {
    let repeats = repeats(alloc, outlined)?;
    let mut number = 0u32;
    'items: for item in outlined.items() {
        if number > first && found.takes(item.place) {
            let repeat = matches!(repeats.get(number as usize), Some(Some(_)));
            if let Some(fault) = range_of(alloc, outlined, item, repeat)? {
                let fault = CheckFault::Range {
                    item: number,
                    fault,
                };
                found.note(item.place, fault)?;
            }
        }
        number = number.saturating_add(1);
    }
    Ok(())
}

// The least cell in which a depend item overlaps one of others without being the same.
fn clash_with(one: &Depend, others: &[Depend]) -> Option<Cell> {
    let mut least = None;
    'others: for other in others {
        if !is_same(&one.section, &other.section) {
            least = lesser(least, first_shared(&one.section, &other.section));
        }
    }
    least
}

// The least cell in which depend items of two items overlap without being the same.
fn clash_of(earlier: &Item, later: &Item) -> Option<Cell> {
    let mut least = None;
    'depends: for one in earlier.depends.as_slice() {
        least = lesser(least, clash_with(one, later.depends.as_slice()));
    }
    least
}

// The first earlier item of which a depend item overlaps one of this item without being the same.
fn clash_before(items: &[Item], number: u32, later: &Item) -> Option<OrderFault> {
    let mut other = 0u32;
    'items: for earlier in items {
        if other >= number {
            return None;
        }
        if let Some(cell) = clash_of(earlier, later) {
            return Some(OrderFault {
                item: number,
                cell,
                other,
            });
        }
        other = other.saturating_add(1);
    }
    None
}

/// The depend items of items behind one that overlap those of an earlier item in part; none in a program with many
/// items.
pub fn clashes_behind(
    outlined: &Outlined<'_>,
    first: u32,
    found: &mut Further,
) -> Result<(), AllocError> {
    let items = outlined.items();
    if items.len() > MOST_PAIRED {
        return Ok(());
    }
    let mut number = 0u32;
    'items: for item in items {
        if number > first && found.takes(item.place) {
            if let Some(clash) = clash_before(items, number, item) {
                found.note(item.place, CheckFault::Order(clash))?;
            }
        }
        number = number.saturating_add(1);
    }
    Ok(())
}
