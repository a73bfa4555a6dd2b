// For each item those that it is before.

ghost use Rattle.std.specs.Prelude.{◌≡◌, ◌+◌, ◌-◌, ◌<◌, ◌≤◌, ◌^◌, ◌&&◌, ◌||◌, ◌==◌, ℕ, true, false, length, nat_lt, not, IfOk, IfSome, IsTrue, OnOk};
ghost use Rattle.base.specs.Limits.{most_items};
ghost use Rattle.base.specs.Machine.{on_item, writes_to};
ghost use Rattle.bits.specs.Sets.{has};
ghost use Rattle.order.specs.Bare.{bare, plan_of};
ghost use Rattle.order.specs.Touches.{AreTouches, HasTouches, MeetsSame};
ghost use Rattle.order.specs.Rows.{AreRowsFrom, HasMatches, HasMatchesOf, HasWaits, IsDependOf, IsNextWait, IsPart, IsRow, is_bare_wait, is_in, match_of, overwrite};

use crate::touches::{Touch, Touches, first_later, touches_of};
use base::depend::match_some;
use base::item::{Depend, Item, ItemKind};
use bits::BitSet;
use std::alloc::{AllocError, Global};
use std::slice::from_ref;

/// Some items: all from a place on, and members of a set.
#[derive(Drop)]
pub struct Row {
    pub place: usize,
    pub later: BitSet,
}

impl Row {
    // The items from a place on.
    fn from_place(alloc: Global, place: usize) -> Row
        ensures place { result.place ≡ place }
        ensures later { (k : ℕ) → has result.later k ≡ false }
    {
        Row {
            place,
            later: BitSet::new(alloc),
        }
    }

    /// Whether it has an item.
    pub fn has(&self, item: usize) -> bool
        ensures { result ≡ is_in self.now item }
    {
        self.place <= item || self.later.contains(item)
    }

    // Adds an item and those of its row. Where these are all that follow it no bit is kept.
    fn add(&mut self, next: usize, row: &Row) -> Result<(), AllocError>
        requires few { next < 2 ^ 32 }
        requires later { (k : ℕ) → has row.now.later k ≡ true → (next < k) × (k < 2 ^ 32) }
        ensures added { OnOk result ((k : ℕ) → is_in self.new k ≡ (is_in self.old k || ((next == k) || is_in row.now k))) }
        ensures members { OnOk result ((k : ℕ) → has self.new.later k ≡ true → (has self.old.later k || ((next == k) || has row.now.later k)) ≡ true) }
        ensures place { OnOk result (self.new.place ≤ self.old.place) }
    {
        if row.place == next + 1 {
            self.place = self.place.min(next);
        } else {
            self.later.make_room(next, next + 1)?;
            self.later.insert(next);
            self.later.extend_with(&row.later)?;
            self.place = self.place.min(row.place);
        }
        Ok(())
    }

    // The least place from which it has every item.
    fn least_place(&self) -> usize
        ensures down { result ≤ self.now.place }
        ensures all { (k : ℕ) → result ≤ k → is_in self.now k ≡ true }
        ensures least { 1 ≤ result → is_in self.now (result - 1) ≡ false }
    {
        let mut place = self.place;
        while place > 0 && self.later.contains(place - 1) {
            place -= 1;
        }
        place
    }

    // The same items, with the least place and no members from it on.
    fn lowered(&mut self, alloc: Global) -> Result<Row, AllocError>
        requires { self.old.place ≤ 2 ^ 32 }
        ensures same { IfOk result (λ r. (k : ℕ) → is_in r k ≡ is_in self.old k) }
        ensures members { IfOk result (λ r. (k : ℕ) → has r.later k ≡ true → has self.old.later k ≡ true) }
        ensures least { IfOk result (λ r. 1 ≤ r.place → is_in self.old (r.place - 1) ≡ false) }
    {
        let place = self.least_place();
        Ok(Row {
            place,
            later: members_below(alloc, &mut self.later, place)?,
        })
    }
}

// The members below a place, in memory up to the last of them. The set itself may lose the others.
fn members_below(alloc: Global, set: &mut BitSet, place: usize) -> Result<BitSet, AllocError>
    requires { place ≤ 2 ^ 32 }
    ensures { IfOk result (λ s. (k : ℕ) → has s k ≡ (nat_lt k place && has set.old k)) }
{
    let mut kept = BitSet::new(alloc);
    if let Some(first) = set.first_from(0) {
        if first < place {
            set.remove_range(place, set.room());
            let end = set.end();
            kept.make_room(first, end)?;
            kept.copy_range(set, first, end);
        }
    }
    Ok(kept)
}

// A `taskwait` without a `depend` clause.
fn is_bare_wait(item: &Item) -> bool
    ensures { result ≡ is_bare_wait (bare item.now) }
{
    matches!(item.kind, ItemKind::Wait) && item.depends.is_empty()
}

// What an item is before because of the `taskwait`s behind it that have no `depend` clause, of which this is the first.
fn behind_wait(
    alloc: Global,
    items: &[Item],
    rows: &[Row],
    item: usize,
    wait: usize,
) -> Result<Row, AllocError>
    requires few { length items.now ≤ most_items }
    requires many { length rows.now ≡ length items.now }
    requires rows { AreRowsFrom (plan_of items.now) (item + 1) rows.now }
    requires wait { IsNextWait (plan_of items.now) (item + 1) wait }
    ensures part { IfOk result (IsPart (plan_of items.now) item) }
    ensures waits { IfOk result (HasWaits (plan_of items.now) item) }
{
    let mut row = Row::from_place(alloc, items.len());
    if wait < items.len() {
        row.add(wait, &rows[wait])?;
    }
    Ok(row)
}

// Whether one of some depend items writes the section of another.
fn is_overwritten(depend: &Depend, others: &[Depend]) -> bool
    ensures { result ≡ overwrite others.now depend.now }
{
    others.iter().any(|other| other.kind.is_written() && other.section == depend.section)
}

// Adds a later item where a depend item of an item matches one of it. One that the row has already is not asked. It
// answers whether the row has the item now.
fn add_match(
    items: &[Item],
    rows: &[Row],
    item: usize,
    depend: &Depend,
    next: usize,
    row: &mut Row,
) -> Result<bool, AllocError>
    requires few { length items.now ≤ most_items }
    requires later { item < next }
    requires inside { next < length items.now }
    requires many { length rows.now ≡ length items.now }
    requires rows { AreRowsFrom (plan_of items.now) (item + 1) rows.now }
    requires depend { IsDependOf (plan_of items.now) item depend.now }
    requires part { IsPart (plan_of items.now) item row.old }
    ensures part { OnOk result (IsPart (plan_of items.now) item row.new) }
    ensures kept { OnOk result ((k : ℕ) → is_in row.old k ≡ true → is_in row.new k ≡ true) }
    ensures has { IfOk result (λ has. IsTrue has → is_in row.new next ≡ true) }
    ensures asked { OnOk result (match_of (plan_of items.now) depend.now next ≡ true → is_in row.new next ≡ true) }
{
    if row.has(next) {
        return Ok(true);
    }
    if !match_some(from_ref(depend), &items[next].depends) {
        return Ok(false);
    }
    row.add(next, &rows[next])?;
    Ok(true)
}

// Adds the items that a depend item of an item leads to. None is asked behind one that writes the same section, as they
// are in its row.
fn add_matches_of(
    items: &[Item],
    rows: &[Row],
    item: usize,
    depend: &Depend,
    row: &mut Row,
) -> Result<(), AllocError>
    requires few { length items.now ≤ most_items }
    requires inside { item < length items.now }
    requires many { length rows.now ≡ length items.now }
    requires rows { AreRowsFrom (plan_of items.now) (item + 1) rows.now }
    requires depend { IsDependOf (plan_of items.now) item depend.now }
    requires part { IsPart (plan_of items.now) item row.old }
    ensures part { OnOk result (IsPart (plan_of items.now) item row.new) }
    ensures kept { OnOk result ((k : ℕ) → is_in row.old k ≡ true → is_in row.new k ≡ true) }
    ensures matches { OnOk result (HasMatchesOf (plan_of items.now) item row.new depend.now) }
{
    let mut next = item + 1;
    while next < row.place {
        let has = add_match(items, rows, item, depend, next, row)?;
        if has && is_overwritten(depend, &items[next].depends) {
            return Ok(());
        }
        next += 1;
    }
    Ok(())
}

// The same, of the sections of all depend items in order, or of those that write where this one reads.
fn add_touched(
    touches: &[Touch],
    items: &[Item],
    rows: &[Row],
    item: usize,
    depend: &Depend,
    row: &mut Row,
) -> Result<(), AllocError>
    requires touches { AreTouches items.now (not (writes_to depend.now.kind)) touches.now }
    requires own { MeetsSame items.now depend.now.section }
    requires few { length items.now ≤ most_items }
    requires many { length rows.now ≡ length items.now }
    requires rows { AreRowsFrom (plan_of items.now) (item + 1) rows.now }
    requires depend { IsDependOf (plan_of items.now) item depend.now }
    requires part { IsPart (plan_of items.now) item row.old }
    ensures part { OnOk result (IsPart (plan_of items.now) item row.new) }
    ensures kept { OnOk result ((k : ℕ) → is_in row.old k ≡ true → is_in row.new k ≡ true) }
    ensures matches { OnOk result (HasMatchesOf (plan_of items.now) item row.new depend.now) }
{
    let first = first_later(touches, &depend.section, item);
    let mut at = first;
    while at < touches.len() {
        let touch = &touches[at];
        if touch.section != depend.section {
            return Ok(());
        }
        let has = add_match(items, rows, item, depend, touch.item, row)?;
        if has && is_overwritten(depend, &items[touch.item].depends) {
            return Ok(());
        }
        at += 1;
    }
    Ok(())
}

// The same. If the sections are pairwise disjoint or identical, only items with the same one are asked.
fn add_matches_by(
    touches: &Option<Touches>,
    items: &[Item],
    rows: &[Row],
    item: usize,
    depend: &Depend,
    row: &mut Row,
) -> Result<(), AllocError>
    requires touches { IfSome touches.now (HasTouches items.now) }
    requires own { IfSome touches.now (λ t. MeetsSame items.now depend.now.section) }
    requires few { length items.now ≤ most_items }
    requires inside { item < length items.now }
    requires many { length rows.now ≡ length items.now }
    requires rows { AreRowsFrom (plan_of items.now) (item + 1) rows.now }
    requires depend { IsDependOf (plan_of items.now) item depend.now }
    requires part { IsPart (plan_of items.now) item row.old }
    ensures part { OnOk result (IsPart (plan_of items.now) item row.new) }
    ensures kept { OnOk result ((k : ℕ) → is_in row.old k ≡ true → is_in row.new k ≡ true) }
    ensures matches { OnOk result (HasMatchesOf (plan_of items.now) item row.new depend.now) }
{
    let Some(touches) = touches else {
        return add_matches_of(items, rows, item, depend, row);
    };
    if depend.kind.is_written() {
        add_touched(&touches.all, items, rows, item, depend, row)
    } else {
        add_touched(&touches.written, items, rows, item, depend, row)
    }
}

// Adds the items that the depend items of an item lead to.
fn add_matches(
    touches: &Option<Touches>,
    items: &[Item],
    rows: &[Row],
    item: usize,
    row: &mut Row,
) -> Result<(), AllocError>
    requires touches { IfSome touches.now (HasTouches items.now) }
    requires few { length items.now ≤ most_items }
    requires inside { item < length items.now }
    requires many { length rows.now ≡ length items.now }
    requires rows { AreRowsFrom (plan_of items.now) (item + 1) rows.now }
    requires part { IsPart (plan_of items.now) item row.old }
    ensures part { OnOk result (IsPart (plan_of items.now) item row.new) }
    ensures kept { OnOk result ((k : ℕ) → is_in row.old k ≡ true → is_in row.new k ≡ true) }
    ensures matches { OnOk result (HasMatches (plan_of items.now) item row.new) }
{
    let depends: &[Depend] = &items[item].depends;
    for depend in depends {
        add_matches_by(touches, items, rows, item, depend, row)?;
    }
    Ok(())
}

// What a deferred item is before, from the rows of the later items.
fn deferred_row(
    alloc: Global,
    touches: &Option<Touches>,
    items: &[Item],
    rows: &[Row],
    item: usize,
    wait: usize,
) -> Result<Row, AllocError>
    requires touches { IfSome touches.now (HasTouches items.now) }
    requires few { length items.now ≤ most_items }
    requires inside { item < length items.now }
    requires deferred { on_item (plan_of items.now) item false (λ w. w.deferred) ≡ true }
    requires many { length rows.now ≡ length items.now }
    requires rows { AreRowsFrom (plan_of items.now) (item + 1) rows.now }
    requires wait { IsNextWait (plan_of items.now) (item + 1) wait }
    ensures { IfOk result (IsRow (plan_of items.now) item) }
{
    let mut row = behind_wait(alloc, items, rows, item, wait)?;
    add_matches(touches, items, rows, item, &mut row)?;
    row.lowered(alloc)
}

// What an item is before, from the rows of the later items. One that is not deferred is before all of them.
fn row_of(
    alloc: Global,
    touches: &Option<Touches>,
    items: &[Item],
    rows: &[Row],
    item: usize,
    wait: usize,
) -> Result<Row, AllocError>
    requires touches { IfSome touches.now (HasTouches items.now) }
    requires few { length items.now ≤ most_items }
    requires inside { item < length items.now }
    requires many { length rows.now ≡ length items.now }
    requires rows { AreRowsFrom (plan_of items.now) (item + 1) rows.now }
    requires wait { IsNextWait (plan_of items.now) (item + 1) wait }
    ensures { IfOk result (IsRow (plan_of items.now) item) }
{
    if items[item].deferred {
        deferred_row(alloc, touches, items, rows, item, wait)
    } else {
        Ok(Row::from_place(alloc, item + 1))
    }
}

// Rows that are still to be found.
fn unfound(alloc: Global, count: usize) -> Result<Vec<Row>, AllocError>
    ensures { IfOk result (λ rows. length rows.items ≡ count) }
{
    let mut rows = Vec::with_capacity(alloc, count)?;
    for _ in 0..count {
        rows.push(Row::from_place(alloc, 0))?;
    }
    Ok(rows)
}

/// For each item those that it is before, and the least place from which these are all.
pub fn rows_of(alloc: Global, items: &[Item]) -> Result<Vec<Row>, AllocError>
    requires { length items.now ≤ most_items }
    ensures rows { IfOk result (λ rows. AreRowsFrom (plan_of items.now) 0 rows.items) }
    ensures all { IfOk result (λ rows. length rows.items ≡ length items.now) }
{
    let touches = touches_of(alloc, items)?;
    let mut rows = unfound(alloc, items.len())?;
    let mut wait = items.len();
    for item in (0..items.len()).rev() {
        rows[item] = row_of(alloc, &touches, items, &rows, item, wait)?;
        if is_bare_wait(&items[item]) {
            wait = item;
        }
    }
    Ok(rows)
}
