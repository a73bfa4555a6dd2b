// Heads of loops of directives, at which the state of the walk may repeat.

ghost use Rattle.std.specs.Prelude.{◌≡◌, ◌≤◌, ◌<◌, ℕ, IfNone, IfSome, OnOk, length, map};
ghost use Rattle.mapwalk.specs.Found.{all_found};
ghost use Rattle.mapwalk.specs.Heads.{AbstractState, IsHeld, IsNextTurn, state_of, with_last};
ghost use Rattle.mapwalk.specs.Walk.{row_items};

use crate::found::Footprints;
use crate::likeness::{are_alike, is_next_turn};
use crate::rows::Acts;
use crate::snapshot::Snapshot;
use crate::state::State;
use base::item::Item;
use std::alloc::{AllocError, Global};
use std::collections::BTreeMap;

/// What is known of the head of a loop.
#[derive(Drop)]
pub enum Head {
    /// Nothing.
    Unknown,
    /// The state before an item, where a turn may begin that has so many items.
    Met {
        item: usize,
        period: usize,
        snapshot: Snapshot,
    },
    /// The state before the next item is that before the item so many items earlier.
    Repeated {
        period: usize,
    },
}

// So many statements are kept at most. Where there are more, they are forgotten.
const STATEMENTS: usize = 4096;

// By what an item is likely to be like another: its place in the source, the number of its footprint where it has a
// region, and the first cell of its first map item.
fn statement(item: &Item, found: &Footprints, number: usize) -> (usize, usize, usize, u64) {
    let footprint = match item.region {
        Some(_) => found.number_of(number).unwrap_or(0),
        None => 0,
    };
    let first = match item.maps.first() {
        Some(map) => map.section.first,
        None => 0,
    };
    (item.place.line, item.place.column, footprint, first)
}

/// Where turns of a loop may begin. Nothing rests on the choice: a turn is left out only where the state before it is
/// that before the last turn, and each of its items is like the one a turn before.
///
/// A turn is watched from an item in a loop that is like the last one of the same statement; it has the items from that
/// one on. The state before it is kept until the turn ends, or an item is unlike the one a turn before. One turn is
/// watched at a time: a loop inside it is not looked for. Nor is a loop found whose turns have more than 4096 statements.
#[derive(Drop)]
pub struct Heads {
    alloc: Global,
    // The last item of each statement that stands in a loop.
    last: BTreeMap<(usize, usize, usize, u64), usize>,
    // The place of the item that was noted last, and its innermost loop's value.
    before: (usize, usize, u64),
    pub head: Head,
    // How many turns in a row were watched in vain.
    failures: usize,
    // No turn is watched from an item before this one.
    next: usize,
}

impl Heads {
    pub fn new(alloc: Global) -> Heads
        ensures { result.head ≡ Head.Unknown }
    {
        Heads {
            alloc,
            last: BTreeMap::new(alloc),
            before: (0, 0, 0),
            head: Head::Unknown,
            failures: 0,
            next: 0,
        }
    }

    /// Notes an item. The answer is the last one of the same statement, none where no loop is around it; or the item just
    /// before, where that is the turn before of a loop around this place alone.
    pub fn note(
        &mut self,
        item: &Item,
        found: &Footprints,
        number: usize,
    ) -> Result<Option<usize>, AllocError>
        ensures { self.new.head ≡ self.old.head }
    {
        let Some(turn) = item.loops.values.as_slice().last().copied() else {
            return Ok(None);
        };
        let (line, column, before) = self.before;
        self.before = (item.place.line, item.place.column, turn);
        if line == item.place.line && column == item.place.column && before < turn {
            return Ok(number.checked_sub(1));
        }
        if self.last.len() >= STATEMENTS {
            self.last = BTreeMap::new(self.alloc);
        }
        Ok(self.last.insert(statement(item, found, number), number)?)
    }

    // The turn was watched in vain. After n times in a row none is watched for the next n * n items, so that copies of
    // the state take little time where it never repeats.
    fn fail(&mut self, number: usize)
        ensures { self.new.head ≡ Head.Unknown }
    {
        self.head = Head::Unknown;
        self.next = number.saturating_add(self.failures.saturating_mul(self.failures));
        self.failures = self.failures.saturating_add(1);
    }

    // Looks at the turn that is watched: it goes on, ends where the state is the same, or was watched in vain.
    fn watch(&mut self, items: &[Item], found: &Footprints, number: usize, state: &State)
        ensures { (history : ℕ → AbstractState) → history number ≡ state_of state.now → IsHeld history number self.old.head → IsHeld history number self.new.head }
    {
        let Head::Met {
            item,
            period,
            snapshot,
        } = &self.head
        else {
            return;
        };
        if number < *item
            || number < *period
            || !are_alike(items, found, number - *period, number)
        {
            self.fail(number);
        } else if number - *item == *period {
            if snapshot.is_of(state) {
                self.head = Head::Repeated { period: *period };
            } else {
                self.fail(number);
            }
        }
    }

    /// Looks at the state before an item, where `earlier` is the last one of the same statement.
    pub fn look(
        &mut self,
        items: &[Item],
        found: &Footprints,
        number: usize,
        earlier: Option<usize>,
        state: &State,
    ) -> Result<(), AllocError>
        ensures { OnOk result ((history : ℕ → AbstractState) → history number ≡ state_of state.now → IsHeld history number self.old.head → IsHeld history number self.new.head) }
    {
        self.watch(items, found, number, state);
        let Some(earlier) = earlier else {
            return Ok(());
        };
        if matches!(self.head, Head::Unknown)
            && self.next <= number
            && earlier < number
            && are_alike(items, found, earlier, number)
        {
            self.head = Head::Met {
                item: number,
                period: number - earlier,
                snapshot: Snapshot::new(self.alloc, state)?,
            };
        }
        Ok(())
    }

    /// How many items the next turn has, where it repeats the one before it. Else the head is no longer one at which
    /// the state repeats.
    pub fn turn(&mut self, items: &[Item], found: &Footprints, number: usize) -> Option<usize>
        requires { number ≤ length items.now }
        ensures turn { IfSome result (IsNextTurn items.now (all_found found.now) number) }
        ensures repeated { IfSome result (λ period. self.new.head ≡ Head.Repeated period) }
        ensures same { IfSome result (λ period. self.old.head ≡ Head.Repeated period) }
        ensures held { IfNone result ((history : ℕ → AbstractState) (k : ℕ) → IsHeld history number self.old.head → IsHeld history k self.new.head) }
    {
        let Head::Repeated { period } = self.head else {
            return None;
        };
        if is_next_turn(items, found, number, period) {
            self.failures = 0;
            return Some(period);
        }
        self.fail(number);
        None
    }
}

/// Adds the last rows once more.
pub fn copy_rows(alloc: Global, acts: &mut Vec<Vec<Acts>>, period: usize) -> Result<(), AllocError>
    requires { period ≤ length acts.old.items }
    ensures { OnOk result (map row_items acts.new.items ≡ with_last period (map row_items acts.old.items)) }
{
    let first = acts.len() - period;
    'rows: for j in 0..period {
        let row = Vec::from_slice(alloc, &acts[first + j])?;
        acts.push(row)?;
    }
    Ok(())
}
