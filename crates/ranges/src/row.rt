// The cells of one array.

ghost use Rattle.std.specs.Prelude.{◌≡◌, ◌+◌, ◌<◌, ◌≤◌, ◌^◌, ◌&&◌, ◌||◌, ℕ, not, false, IsTrue, OnOk, OnErr};
ghost use Rattle.bits.specs.Sets.{has};
ghost use Rattle.ranges.specs.Rows.{HasFrom, HasWithin, is_within};

use crate::noting::first_within;
use base::fault::Interval;
use bits::BitSet;
use std::alloc::{AllocError, Global};

/// Cells of an array.
#[derive(Drop)]
pub struct Row {
    pub cells: BitSet,
    // One run, all of whose cells are in the row: from `first`, up to `end`.
    first: usize,
    end: usize,
    ghost covered: { HasFrom cells first end },
}

// Adds the cells of an interval that are not excluded, one by one.
fn mark_each(row: &mut BitSet, cells: Interval, excluded: &BitSet) -> Result<(), AllocError>
    requires { cells.hi < 2 ^ 32 }
    ensures ok { OnOk result (has row.new ≡ (λ i. has row.old i || (is_within cells i && not (has excluded.now i)))) }
    ensures err { OnErr result (has row.new ≡ has row.old) }
{
    let first = cells.lo as usize;
    let end = cells.hi as usize + 1;
    row.make_room(first, end)?;
    for i in first..end {
        if !excluded.contains(i) {
            row.insert(i);
        }
    }
    Ok(())
}

// Adds the cells of an interval.
fn mark_all(row: &mut BitSet, cells: Interval) -> Result<(), AllocError>
    requires { cells.hi < 2 ^ 32 }
    ensures ok { OnOk result (has row.new ≡ (λ i. has row.old i || is_within cells i)) }
    ensures err { OnErr result (has row.new ≡ has row.old) }
{
    let first = cells.lo as usize;
    let end = cells.hi as usize + 1;
    row.make_room(first, end)?;
    row.insert_range(first, end);
    Ok(())
}

// Adds the cells of an interval that are not excluded: 64 at a time where none of them is.
fn mark(row: &mut BitSet, cells: Interval, excluded: &BitSet) -> Result<(), AllocError>
    requires { cells.hi < 2 ^ 32 }
    ensures ok { OnOk result (has row.new ≡ (λ i. has row.old i || (is_within cells i && not (has excluded.now i)))) }
    ensures err { OnErr result (has row.new ≡ has row.old) }
{
    if first_within(excluded, cells).is_some() {
        return mark_each(row, cells, excluded);
    }
    mark_all(row, cells)
}

impl Clone for Row {
    ghost is_clone = { λ r s. (i : ℕ) → has s.cells i ≡ has r.cells i };

    fn clone(&self) -> Result<Row, AllocError> {
        Ok(Row {
            cells: self.cells.clone()?,
            first: self.first,
            end: self.end,
        })
    }
}

impl Row {
    pub fn new(alloc: Global) -> Row
        ensures { (i : ℕ) → has result.cells i ≡ false }
    {
        Row {
            cells: BitSet::new(alloc),
            first: 0,
            end: 0,
        }
    }

    // Adds the cells of an interval that are not excluded.
    pub fn add_unless(&mut self, cells: Interval, excluded: &BitSet) -> Result<(), AllocError>
        requires { cells.hi < 2 ^ 32 }
        ensures ok { OnOk result (has self.new.cells ≡ (λ i. has self.old.cells i || (is_within cells i && not (has excluded.now i)))) }
        ensures err { OnErr result (has self.new.cells ≡ has self.old.cells) }
    {
        mark(&mut self.cells, cells, excluded)
    }

    // Adds the cells of an interval, and keeps the run as it is.
    fn add_all(&mut self, cells: Interval) -> Result<(), AllocError>
        requires { cells.hi < 2 ^ 32 }
        ensures ok { OnOk result (has self.new.cells ≡ (λ i. has self.old.cells i || is_within cells i)) }
        ensures err { OnErr result (has self.new.cells ≡ has self.old.cells) }
    {
        mark_all(&mut self.cells, cells)
    }

    pub fn covers(&self, cells: Interval) -> bool
        ensures { IsTrue result → HasWithin self.now.cells cells }
    {
        self.first as u64 <= cells.lo && cells.hi < self.end as u64
    }

    // Keeps the longer of two runs, or both where they meet.
    fn cover(&mut self, first: usize, end: usize)
        requires { HasFrom self.now.cells first end }
        ensures { self.new.cells ≡ self.old.cells }
    {
        if first <= self.end && self.first <= end {
            self.first = self.first.min(first);
            self.end = self.end.max(end);
        } else if end.saturating_sub(first) > self.end.saturating_sub(self.first) {
            self.first = first;
            self.end = end;
        }
    }

    // Adds the cells of an interval.
    pub fn add(&mut self, cells: Interval) -> Result<(), AllocError>
        requires { cells.hi < 2 ^ 32 }
        ensures ok { OnOk result (has self.new.cells ≡ (λ i. has self.old.cells i || is_within cells i)) }
        ensures err { OnErr result (has self.new.cells ≡ has self.old.cells) }
    {
        if self.covers(cells) {
            return Ok(());
        }
        self.add_all(cells)?;
        self.cover(cells.lo as usize, cells.hi as usize + 1);
        Ok(())
    }
}
