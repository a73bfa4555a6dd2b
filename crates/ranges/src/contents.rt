// What is in sets of cells.

ghost use Rattle.std.specs.Prelude.{◌≡◌, ◌<◌, ◌≤◌, ◌^◌, ◌&&◌, ◌||◌, not, false, length, IsTrue, OnOk, OnErr};
ghost use Rattle.base.specs.declared.item.Cell.{Cell};
ghost use Rattle.ranges.specs.Cells.{AreKnown, HasAll, has, is_among, row_of};

use crate::cells::{CellSet, Footprint};
use crate::row::Row;
use base::fault::Interval;
use base::item::Cell;
use base::tree::ArrayId;
use bits::BitSet;
use std::alloc::{AllocError, Global};

impl CellSet {
    /// No cell.
    pub fn new(alloc: Global) -> CellSet
        ensures { has result ≡ (λ c. false) }
    {
        CellSet {
            alloc,
            rows: Vec::new(alloc),
            none: BitSet::new(alloc),
        }
    }

    /// The cells of an array that are in the set, by their indices.
    pub fn row(&self, array: ArrayId) -> &BitSet
        ensures { result.now ≡ row_of self.now array.0 }
    {
        match self.rows.get(array.0 as usize) {
            Some(row) => &row.cells,
            None => &self.none,
        }
    }

    /// Of how many arrays, the first ones, it may have cells.
    pub fn arrays(&self) -> usize
        ensures few { result ≤ 2 ^ 32 }
        ensures none { (c : Cell) → result ≤ c.array.0 → has self.now c ≡ false }
    {
        self.rows.len()
    }

    /// Whether a cell is in the set.
    pub fn contains(&self, cell: Cell) -> bool
        ensures { result ≡ has self.now cell }
    {
        self.row(cell.array).contains(cell.index as usize)
    }

    // Whether these cells of an array are known to be in the set.
    fn covers(&self, array: ArrayId, cells: Interval) -> bool
        ensures { IsTrue result → HasAll self.now array cells }
    {
        match self.rows.get(array.0 as usize) {
            Some(row) => row.covers(cells),
            None => false,
        }
    }

    // Makes room for the rows of the first arrays up to this one, and no more, where there is none yet.
    fn reserve(&mut self, array: ArrayId) -> Result<(), AllocError>
        ensures { has self.new ≡ has self.old }
    {
        if self.rows.is_empty() {
            self.rows.reserve_exact(array.0 as usize + 1)?;
        }
        Ok(())
    }

    // Makes a row for an array.
    pub(crate) fn reach(&mut self, array: ArrayId) -> Result<(), AllocError>
        ensures same { has self.new ≡ has self.old }
        ensures long { OnOk result (array.0 < length self.new.rows.items) }
    {
        self.reserve(array)?;
        while self.rows.len() <= array.0 as usize {
            self.rows.push(Row::new(self.alloc))?;
        }
        Ok(())
    }

    // Adds the cells of an array that the other set has not. All that are in `read` are in one of the two.
    pub(crate) fn expose(
        &mut self,
        array: ArrayId,
        cells: Interval,
        read: &CellSet,
        sure: &CellSet,
    ) -> Result<(), AllocError>
        requires known { AreKnown (has self.now) (has read.now) (has sure.now) }
        requires fits { cells.hi < 2 ^ 32 }
        ensures ok { OnOk result (has self.new ≡ (λ c. has self.old c || (is_among array cells c && not (has sure.now c)))) }
        ensures err { OnErr result (has self.new ≡ has self.old) }
    {
        if read.covers(array, cells) {
            return Ok(());
        }
        self.add_unless(array, cells, sure)
    }

    // Adds the cells of an array that the other set has not.
    fn add_unless(
        &mut self,
        array: ArrayId,
        cells: Interval,
        other: &CellSet,
    ) -> Result<(), AllocError>
        requires { cells.hi < 2 ^ 32 }
        ensures ok { OnOk result (has self.new ≡ (λ c. has self.old c || (is_among array cells c && not (has other.now c)))) }
        ensures err { OnErr result (has self.new ≡ has self.old) }
    {
        self.reach(array)?;
        self.rows[array.0 as usize].add_unless(cells, other.row(array))
    }

    // Adds cells of an array.
    pub(crate) fn add(&mut self, array: ArrayId, cells: Interval) -> Result<(), AllocError>
        requires { cells.hi < 2 ^ 32 }
        ensures ok { OnOk result (has self.new ≡ (λ c. has self.old c || is_among array cells c)) }
        ensures err { OnErr result (has self.new ≡ has self.old) }
    {
        self.reach(array)?;
        self.rows[array.0 as usize].add(cells)
    }

    // Adds cells of an array, where it holds.
    pub(crate) fn add_if(
        &mut self,
        holds: bool,
        array: ArrayId,
        cells: Interval,
    ) -> Result<(), AllocError>
        requires { cells.hi < 2 ^ 32 }
        ensures ok { OnOk result (has self.new ≡ (λ c. has self.old c || (holds && is_among array cells c))) }
        ensures err { OnErr result (has self.new ≡ has self.old) }
    {
        if !holds {
            return Ok(());
        }
        self.add(array, cells)
    }
}

impl Footprint {
    // Where its sets have their memory.
    pub(crate) fn alloc(&self) -> Global {
        self.read.alloc
    }

    /// Nothing is touched.
    pub(crate) fn new(alloc: Global) -> Footprint
        ensures exposed { has result.exposed ≡ (λ c. false) }
        ensures read { has result.read ≡ (λ c. false) }
        ensures write { has result.write ≡ (λ c. false) }
        ensures sure { has result.sure ≡ (λ c. false) }
    {
        Footprint {
            exposed: CellSet::new(alloc),
            read: CellSet::new(alloc),
            write: CellSet::new(alloc),
            sure: CellSet::new(alloc),
            meeting: None,
        }
    }
}
