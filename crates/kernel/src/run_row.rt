// A row while a region runs.

ghost use Rattle.std.specs.Prelude.{ℕ, ◌≡◌, ◌+◌, ◌<◌, ◌≤◌, Bool, true, false, IfOk, IfSome, OnOk, Some, length, slice_get, slice_index, slice_index_or, slice_range, slice_set, take, []};
ghost use Rattle.kernel.specs.Laid.{IsAlike, IsLaid};
ghost use Rattle.kernel.specs.Lanes.{HasPut, Over, all_of};
ghost use Rattle.kernel.specs.Rows.{HaveMarks, fresh_parts, is_each, kept_parts, run_parts, stored_at};
ghost use Rattle.shared_row.specs.Rows.{marks_of};
ghost use Rattle.shared_row.specs.declared.marks.Marks.TheVariants as kinds;

use crate::frames::{KeptRow, Row};
use shared_row::{LentRow, Marks, RowCells};
use std::alloc::{AllocError, Global};
use std::marker::Model;
use std::sync::Arc;

/// A row while a region runs: that of the frame, of which as many cells as it has of its own, from the first one on, do
/// not count any more. Of its own cells those from a place on are stored, or it has all cells and each says so.
#[derive(Drop)]
pub struct RunRow<'f> {
    first: u64,
    lent: &'f [u64],
    own: Vec<u64>,
    stored: Marks,
}

impl<'f> Model for RunRow<'f> {
    ghost use Rattle.kernel.specs.Rows.{HaveMarks, Parts, run_parts};

    ghost Value = { Parts };

    ghost view = { λ r. run_parts r.first r.lent.now r.own.items r.stored };

    ghost invariant = { λ r. HaveMarks r.lent.now r.own.items r.stored };
}

// A number in a cell, and its mark.
#[inline(always)]
fn put_marked(cells: &mut [u64], marks: &mut [bool], at: usize, v: u64)
    requires cells { at < length cells.old }
    requires marks { at < length marks.old }
    ensures cells { cells.new ≡ slice_set cells.old at v }
    ensures marks { marks.new ≡ slice_set marks.old at true }
{
    cells[at] = v;
    marks[at] = true;
}

#[inline(never)]
#[tactic(auto, using(crate::proofs::Overs::over_more, crate::proofs::Overs::over_none))]
fn put_numbers(cells: &mut [u64], at: usize, numbers: &[u64])
    requires { at + length numbers.now ≤ length cells.old }
    ensures { Over ℕ all_of (slice_index numbers.now) at (length numbers.now) cells.old cells.new }
{
    'lanes: for j in 0..numbers.len() {
        cells[at + j] = numbers[j];
    }
}

#[inline(never)]
#[tactic(auto, using(crate::proofs::Overs::over_more, crate::proofs::Overs::over_none))]
fn mark_run(marks: &mut [bool], at: usize, n: usize)
    requires { at + n ≤ length marks.old }
    ensures { Over Bool all_of (λ k. true) at n marks.old marks.new }
{
    'lanes: for j in 0..n {
        marks[at + j] = true;
    }
}

// Written in any case: with no branch several are done at once.
#[inline(never)]
#[tactic(auto, using(crate::proofs::Overs::over_some, crate::proofs::Overs::over_none))]
fn put_some(cells: &mut [u64], at: usize, numbers: &[u64], mask: &[bool])
    requires size { length mask.now ≡ length numbers.now }
    requires fits { at + length numbers.now ≤ length cells.old }
    ensures { Over ℕ (λ k. slice_index_or mask.now k false) (slice_index numbers.now) at (length numbers.now) cells.old cells.new }
{
    'lanes: for j in 0..numbers.len() {
        cells[at + j] = if mask[j] { numbers[j] } else { cells[at + j] };
    }
}

#[inline(never)]
#[tactic(auto, using(crate::proofs::Overs::over_some, crate::proofs::Overs::over_none))]
fn mark_some(marks: &mut [bool], at: usize, mask: &[bool])
    requires { at + length mask.now ≤ length marks.old }
    ensures { Over Bool (λ k. slice_index_or mask.now k false) (λ k. true) at (length mask.now) marks.old marks.new }
{
    'lanes: for j in 0..mask.len() {
        marks[at + j] = mask[j] | marks[at + j];
    }
}

// Marks for all cells of a row, of which some are set.
fn marks_for(alloc: Global, n: usize, first: usize, end: usize) -> Result<Vec<bool>, AllocError>
    requires { (first ≤ end) × (end ≤ n) }
    ensures { IfOk result (λ marks. marks.items ≡ marks_of n (kinds.Run first end)) }
{
    let mut marks = vec![in alloc; false; n]?;
    mark_run(&mut marks, first, end - first);
    Ok(marks)
}

// From now on a row has all cells of its own, and a mark for each. It is a function of its own, so that a store, which
// seldom needs it, keeps the processor's registers.
#[inline(never)]
fn become_each(
    alloc: Global,
    lent: &[u64],
    own: &mut Vec<u64>,
    stored: &mut Marks,
) -> Result<(), AllocError>
    requires { HaveMarks lent.now own.old.items stored.old }
    ensures same { (first : ℕ) → run_parts first lent.now own.new.items stored.new ≡ run_parts first lent.now own.old.items stored.old }
    ensures marks { HaveMarks lent.now own.new.items stored.new }
    ensures each { OnOk result (is_each stored.new ≡ true) }
{
    let Marks::Run(first, end) = *stored else {
        return Ok(());
    };
    let marks = marks_for(alloc, lent.len(), first, end)?;
    own.extend_from_slice(&lent[own.len()..])?;
    *stored = Marks::Each(marks);
    Ok(())
}

// The first cells of a row, with room for all. It is a function of its own for the same reason.
#[inline(never)]
fn first_cells(alloc: Global, lent: &[u64], n: usize) -> Result<Vec<u64>, AllocError>
    requires { n ≤ length lent.now }
    ensures { IfOk result (λ cells. cells.items ≡ take n lent.now) }
{
    let mut cells = Vec::with_capacity(alloc, lent.len())?;
    cells.extend_from_slice(&lent[..n])?;
    Ok(cells)
}

impl<'f> RunRow<'f> {
    /// The row of a frame, in which nothing is stored.
    pub fn lent(alloc: Global, row: &'f Row) -> RunRow<'f>
        ensures { result ≡ fresh_parts row.now }
    {
        RunRow {
            first: row.first,
            lent: row.cells.numbers(),
            own: Vec::new(alloc),
            stored: Marks::Run(0, 0),
        }
    }

    /// The index of its first cell.
    #[inline]
    pub fn first(&self) -> u64
        ensures { result ≡ self.now.0 }
    {
        self.first
    }

    /// How many cells it has.
    #[inline]
    pub fn size(&self) -> usize
        ensures { result ≡ length self.now.1 }
    {
        self.lent.len()
    }

    /// The number in a cell by its place in the row.
    #[inline]
    pub fn number(&self, at: usize) -> u64
        requires { at < length self.now.1 }
        ensures { slice_get self.now.1 at ≡ Some result }
    {
        match self.own.get(at) {
            Some(n) => *n,
            None => self.lent[at],
        }
    }

    /// So many of its cells from a place on, where they lie together.
    #[inline]
    pub fn run(&self, at: usize, n: usize) -> Option<&[u64]>
        ensures { IfSome result (λ run. (at + n ≤ length self.now.1) × (run.now ≡ slice_range self.now.1 at (at + n))) }
    {
        if at > self.lent.len() || n > self.lent.len() - at {
            return None;
        }
        if at >= self.own.len() {
            return Some(&self.lent[at..at + n]);
        }
        if n > self.own.len() - at {
            return None;
        }
        Some(&self.own[at..at + n])
    }

    // A number in a cell, as the first one of its own or beside such as are stored.
    #[inline(never)]
    fn put_first(&mut self, alloc: Global, at: usize, v: u64) -> Result<(), AllocError>
        requires { at < length self.old.1 }
        ensures put { OnOk result (self.new ≡ (self.old.0, slice_set self.old.1 at v, slice_set self.old.2 at true)) }
    {
        if let Marks::Run(first, _) = self.stored {
            if first <= at && at < self.own.len() {
                self.own[at] = v;
                return Ok(());
            }
        }
        become_each(alloc, self.lent, &mut self.own, &mut self.stored)?;
        match &mut self.stored {
            Marks::Each(marks) => {
                put_marked(&mut self.own, marks, at, v);
                Ok(())
            }
            Marks::Run(_, _) => unreachable!(),
        }
    }

    /// A number in a cell by its place in the row, which is marked. The error comes for want of memory.
    #[inline]
    pub fn put(&mut self, alloc: Global, at: usize, v: u64) -> Result<(), AllocError>
        requires { at < length self.old.1 }
        ensures put { OnOk result (self.new ≡ (self.old.0, slice_set self.old.1 at v, slice_set self.old.2 at true)) }
        ensures marks { length self.old.2 ≡ length self.old.1 }
    {
        match &mut self.stored {
            Marks::Each(marks) => {
                put_marked(&mut self.own, marks, at, v);
                Ok(())
            }
            Marks::Run(_, _) => self.put_first(alloc, at, v),
        }
    }

    // Where a row has no cells of its own, those before a place become its own, if they are at most half of all.
    fn begin_at(&mut self, alloc: Global, at: usize) -> Result<(), AllocError>
        ensures same { self.new ≡ self.old }
    {
        if let Marks::Run(_, end) = self.stored {
            if end == 0 && at <= self.lent.len() / 2 {
                self.own = first_cells(alloc, self.lent, at)?;
                self.stored = Marks::Run(at, at);
            }
        }
        Ok(())
    }

    // Numbers in cells of its own that are stored, or behind its own. False where the cells are others.
    fn put_beside(&mut self, at: usize, numbers: &[u64]) -> Result<bool, AllocError>
        requires { at + length numbers.now ≤ length self.old.1 }
        ensures put { IfOk result (λ put. put ≡ true → HasPut all_of at numbers.now self.old self.new) }
        ensures same { IfOk result (λ put. put ≡ false → self.new ≡ self.old) }
    {
        let Marks::Run(first, end) = self.stored else {
            return Ok(false);
        };
        if at == end {
            self.own.extend_from_slice(numbers)?;
            self.stored = Marks::Run(first, end + numbers.len());
            return Ok(true);
        }
        if first <= at && at + numbers.len() <= end {
            put_numbers(&mut self.own, at, numbers);
            return Ok(true);
        }
        Ok(false)
    }

    /// Numbers in the cells from a place in the row on, which are marked. The error comes for want of memory.
    pub fn put_run(&mut self, alloc: Global, at: usize, numbers: &[u64]) -> Result<(), AllocError>
        requires { at + length numbers.now ≤ length self.old.1 }
        ensures { OnOk result (HasPut all_of at numbers.now self.old self.new) }
    {
        self.begin_at(alloc, at)?;
        if self.put_beside(at, numbers)? {
            return Ok(());
        }
        become_each(alloc, self.lent, &mut self.own, &mut self.stored)?;
        match &mut self.stored {
            Marks::Each(marks) => {
                put_numbers(&mut self.own, at, numbers);
                mark_run(marks, at, numbers.len());
                Ok(())
            }
            Marks::Run(_, _) => unreachable!(),
        }
    }

    /// Of numbers those that a mask has in the cells from a place in the row on, which are marked. The error comes for want of
    /// memory.
    pub fn put_some(
        &mut self,
        alloc: Global,
        at: usize,
        numbers: &[u64],
        mask: &[bool],
    ) -> Result<(), AllocError>
        requires size { length mask.now ≡ length numbers.now }
        requires fits { at + length numbers.now ≤ length self.old.1 }
        ensures { OnOk result (HasPut (λ k. slice_index_or mask.now k false) at numbers.now self.old self.new) }
    {
        become_each(alloc, self.lent, &mut self.own, &mut self.stored)?;
        match &mut self.stored {
            Marks::Each(marks) => {
                put_some(&mut self.own, at, numbers, mask);
                mark_some(marks, at, mask);
                Ok(())
            }
            Marks::Run(_, _) => unreachable!(),
        }
    }

    /// What was stored in another row is laid over this one. The error comes for want of memory.
    pub fn lay(&mut self, alloc: Global, over: &RunRow<'_>) -> Result<(), AllocError>
        requires { IsAlike self.old over.now }
        ensures { OnOk result (IsLaid self.old over.now self.new) }
    {
        match &over.stored {
            Marks::Run(first, end) => {
                if first < end {
                    self.put_run(alloc, *first, &over.own[*first..*end])?;
                }
                Ok(())
            }
            Marks::Each(marks) => self.put_some(alloc, 0, &over.own, marks),
        }
    }

    /// The row after the run, as far as it tells what was stored in it. The error comes for want of memory.
    pub fn kept(self, alloc: Global) -> Result<KeptRow, AllocError>
        ensures { IfOk result (λ row. (i : ℕ) → stored_at (kept_parts row) i ≡ stored_at self.entry i) }
    {
        let RunRow {
            first,
            lent,
            mut own,
            stored,
        } = self;
        if own.is_empty() {
            return Ok(KeptRow {
                first,
                cells: RowCells::Own(own),
                stored,
            });
        }
        // what is nearly whole may go back whole
        let rest = lent.len() - own.len();
        if rest <= own.len() {
            own.extend_from_slice(&lent[own.len()..])?;
        }
        let count = own.len();
        let row = Arc::new(alloc, own)?;
        Ok(KeptRow {
            first,
            cells: RowCells::Lent(LentRow {
                row,
                first: 0,
                count,
            }),
            stored,
        })
    }
}
