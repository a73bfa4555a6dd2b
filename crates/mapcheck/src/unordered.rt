// The first conflict of each item with an earlier one that is not before it.

ghost use Rattle.std.specs.Prelude.{◌≡◌, ◌+◌, ◌<◌, ◌≤◌, length, IfOk, OnOk};
ghost use Rattle.base.specs.Items.{Plan, plan};
ghost use Rattle.base.specs.Limits.{most_items};
ghost use Rattle.base.specs.Order.{IsBeforeAll};
ghost use Rattle.mapcheck.specs.Noted.{AreBeforeAll, AreNoted};
ghost use Rattle.mapcheck.specs.Unordered.{AreOfItems, IsConflictIn, IsConflictOf, IsFoundBelow, IsLeastUnordered};

use crate::accesses::Accesses;
use crate::conflict::least_conflict;
use crate::noted::Noted;
use base::fault::{Refusal, RefusalCode};
use base::item::Cell;
use order::Order;
use std::alloc::{AllocError, Global};

// The least cell on which an item conflicts with an earlier one that is not before it.
fn least_unordered(
    order: &Order<'_>,
    accesses: &[Accesses<'_>],
    other: u32,
    item: u32,
) -> Option<Cell>
    requires earlier { other < item }
    requires inside { item < length accesses.now }
    requires accesses { AreOfItems (plan order.now) accesses.now }
    ensures { IsLeastUnordered (plan order.now) other item result }
{
    if order.before(other, item) {
        return None;
    }
    least_conflict(&accesses[other as usize], &accesses[item as usize])
}

// The earlier of two conflicts, by cell; of two on one cell, what was found.
fn earlier(found: Option<Refusal>, next: Refusal) -> Refusal
    ensures { result ≡ Rattle.mapcheck.specs.Unordered.earlier found next }
{
    match found {
        None => next,
        Some(first) => { if next.cell < first.cell { next } else { first } }
    }
}

// The first conflict of an item, where also another one is looked at.
fn found_with(
    order: &Order<'_>,
    accesses: &[Accesses<'_>],
    other: u32,
    item: u32,
    found: Option<Refusal>,
) -> Option<Refusal>
    requires earlier { other < item }
    requires inside { item < length accesses.now }
    requires accesses { AreOfItems (plan order.now) accesses.now }
    requires found { IsFoundBelow (plan order.now) other item found }
    ensures { IsFoundBelow (plan order.now) (other + 1) item result }
{
    match least_unordered(order, accesses, other, item) {
        None => found,
        Some(cell) => {
            let conflict = Refusal {
                code: RefusalCode::Conflict,
                item,
                cell,
                other: Some(other),
            };
            Some(earlier(found, conflict))
        }
    }
}

// The first conflict of an item with the earlier ones. It takes time for each of these.
fn conflict_of(order: &Order<'_>, accesses: &[Accesses<'_>], item: u32) -> Option<Refusal>
    requires inside { item < length accesses.now }
    requires accesses { AreOfItems (plan order.now) accesses.now }
    ensures { IsConflictOf (plan order.now) item result }
{
    let mut found = None;
    'others: for other in 0..item {
        found = found_with(order, accesses, other, item, found);
    }
    found
}

// Notes an item, and answers its first conflict with the earlier ones. These are looked at one by one only where what is
// noted does not show that the item is after all of them that it conflicts with.
fn conflict_noted(
    order: &Order<'_>,
    accesses: &[Accesses<'_>],
    item: u32,
    noted: &mut Noted,
) -> Result<Option<Refusal>, AllocError>
    requires inside { item < length accesses.now }
    requires accesses { AreOfItems (plan order.now) accesses.now }
    requires noted { AreNoted (plan order.now) accesses.now item noted.old }
    ensures conflict { IfOk result (IsConflictOf (plan order.now) item) }
    ensures noted { OnOk result (AreNoted (plan order.now) accesses.now (item + 1) noted.new) }
{
    if noted.note(order, item, &accesses[item as usize])? {
        Ok(None)
    } else {
        Ok(conflict_of(order, accesses, item))
    }
}

// The same, where all earlier items are before each from a place on, and this item from another one on. Where these are
// the item itself and the next one nothing is noted, and where the first is nothing earlier is kept.
fn next_conflict(
    alloc: Global,
    order: &Order<'_>,
    accesses: &[Accesses<'_>],
    item: u32,
    place: u32,
    after: u32,
    noted: &mut Noted,
) -> Result<Option<Refusal>, AllocError>
    requires few { length accesses.now ≤ most_items }
    requires inside { item < length accesses.now }
    requires accesses { AreOfItems (plan order.now) accesses.now }
    requires before { AreBeforeAll (plan order.now) item place }
    requires after { IsBeforeAll (plan order.now) item after }
    requires noted { AreNoted (plan order.now) accesses.now item noted.old }
    ensures conflict { IfOk result (IsConflictOf (plan order.now) item) }
    ensures noted { OnOk result (AreNoted (plan order.now) accesses.now (item + 1) noted.new) }
{
    if item < place {
        return conflict_noted(order, accesses, item, noted);
    }
    if after <= item + 1 {
        return Ok(None);
    }
    *noted = Noted::new(alloc);
    conflict_noted(order, accesses, item, noted)
}

/// The conflict (E508) of the first item that has one with an earlier item that is not before it: the least cell of a
/// conflict, and of those on this cell the first other item. These are the accesses of the first items.
///
/// It takes memory for each access of the items that are not before all later ones. Such an access takes time for
/// each halving from the 65,536 cells of a row down to its own, at most 16 at either end, and for each item that is
/// kept at its cells: one that reads or writes them, and where no later one that writes them and comes after all
/// there has taken its place. An item that is not after all of these is compared with each earlier one.
pub fn first_conflict(
    alloc: Global,
    order: &Order<'_>,
    accesses: &[Accesses<'_>],
) -> Result<Option<Refusal>, AllocError>
    requires few { length accesses.now ≤ most_items }
    requires accesses { AreOfItems (plan order.now) accesses.now }
    ensures { IfOk result (IsConflictIn (plan order.now) (length accesses.now)) }
{
    let mut noted = Noted::new(alloc);
    // All items that were looked at are before each from here on.
    let mut place = 0;
    'items: for item in 0..accesses.len() as u32 {
        let after = order.after_all(item);
        let conflict = next_conflict(alloc, order, accesses, item, place, after, &mut noted)?;
        if conflict.is_some() {
            return Ok(conflict);
        }
        place = place.max(after);
    }
    Ok(None)
}
