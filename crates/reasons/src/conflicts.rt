// Conflicts besides the first, and the item behind it that is refused by itself.

use crate::further::{Further, MOST_PAIRED};
use crate::scene::Scene;
use base::fault::{CheckFault, Refusal, RefusalCode};
use base::item::Cell;
use mapcheck::accesses::Accesses;
use mapcheck::conflict::least_conflict;
use order::Order;
use std::alloc::AllocError;

// The conflict of an item with earlier ones on the least cell, and of those with the first item.
fn conflict_of(
    order: &Order<'_>,
    accesses: &[Accesses<'_>],
    number: u32,
    own: &Accesses<'_>,
) -> Option<Refusal> {
    let mut least: Option<Refusal> = None;
    let mut other = 0u32;
    'others: for accessed in accesses {
        if other >= number {
            return least;
        }
        if !order.before(other, number) {
            least = lesser_of(least, least_conflict(accessed, own), number, other);
        }
        other = other.saturating_add(1);
    }
    least
}

// The conflict with an item on a cell, where it is on a lesser cell than the one that was found.
fn lesser_of(found: Option<Refusal>, cell: Option<Cell>, item: u32, other: u32) -> Option<Refusal> {
    let Some(cell) = cell else {
        return found;
    };
    match found {
        Some(refusal) if refusal.cell <= cell => Some(refusal),
        _ => Some(Refusal {
            code: RefusalCode::Conflict,
            item,
            cell,
            other: Some(other),
        }),
    }
}

impl<'a> Scene<'a> {
    // What the items that the walk has done read and write.
    fn accesses(&self) -> Result<Vec<Accesses<'a>>, AllocError> {
        match &self.past {
            None => Ok(Vec::new(self.alloc)),
            Some(past) => past.accesses(self.alloc),
        }
    }

    /// The conflicts of the items behind one; none in a program with many items.
    pub fn conflicts_behind(
        &self,
        order: &Order<'_>,
        first: u32,
        found: &mut Further,
    ) -> Result<(), AllocError> {
        if self.outlined.items().len() > MOST_PAIRED {
            return Ok(());
        }
        let accesses = self.accesses()?;
        let mut number = 0u32;
        'items: for own in &accesses {
            let place = self.place_of_item(number);
            if number > first && found.takes(place) {
                if let Some(refusal) = conflict_of(order, &accesses, number, own) {
                    found.note(place, CheckFault::Refused(refusal))?;
                }
            }
            number = number.saturating_add(1);
        }
        Ok(())
    }

    /// The refusal of an item by itself, where there is one behind a conflict.
    pub fn refusal_behind(
        &self,
        alone: Option<Refusal>,
        found: &mut Further,
    ) -> Result<(), AllocError> {
        let Some(refusal) = alone else {
            return Ok(());
        };
        match self.item(refusal.item) {
            Some(item) if found.takes(item.place) => {
                found.note(item.place, CheckFault::Refused(refusal))
            }
            _ => Ok(()),
        }
    }
}
