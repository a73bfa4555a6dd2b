// The sets of a footprint as runs of cells.

ghost use Rattle.std.specs.Prelude.{◌≡◌, ◌+◌, ◌≤◌, ◌^◌, true, IfOk, OnOk};
ghost use Rattle.bits.specs.Sets.{IsEndOf, has as has_number};
ghost use Rattle.ranges.specs.Cells.{has};
ghost use Rattle.ranges.specs.RunLists.{AreRuns, AreRunsUpTo, AreUnique, IsEndOfRun, set_of};

use crate::cells::{CellSet, Footprint};
use base::tree::ArrayId;
use bits::BitSet;
use std::alloc::{AllocError, Global};

/// Which of the four sets of a footprint.
#[derive(Clone, Copy, Debug)]
pub enum Part {
    Exposed,
    Read,
    Write,
    Sure,
}

/// The cells `first` to `first + length - 1` of an array.
#[derive(Clone, Copy, PartialEq, Eq, Debug)]
pub struct Run {
    pub array: ArrayId,
    pub first: u64,
    pub length: u64,
}

// One past the last number of the run in a set that begins at this number.
fn end_of_run(set: &BitSet, first: usize, end: usize) -> usize
    requires first { has_number set.now first ≡ true }
    requires end { IsEndOf (has_number set.now) end }
    ensures run { IsEndOfRun (has_number set.now) first result }
    ensures within { result ≤ end }
{
    for i in first..end {
        if !set.contains(i) {
            return i;
        }
    }
    end
}

impl CellSet {
    // Adds the runs of the cells of an array.
    fn add_runs(&self, array: ArrayId, runs: &mut Vec<Run>) -> Result<(), AllocError>
        requires { AreRunsUpTo (has self.now) array.0 0 runs.old.items }
        ensures { OnOk result (AreRunsUpTo (has self.now) (array.0 + 1) 0 runs.new.items) }
    {
        let row = self.row(array);
        let end = row.end();
        let mut from = 0;
        while let Some(first) = row.first_from(from) {
            from = end_of_run(row, first, end);
            runs.push(Run {
                array,
                first: first as u64,
                length: (from - first) as u64,
            })?;
        }
        Ok(())
    }

    /// The least list of runs that has the cells of the set and no others, in order. It takes a step for each cell of the
    /// runs, and one for 64 cells between them.
    pub fn runs(&self, alloc: Global) -> Result<Vec<Run>, AllocError>
        ensures { IfOk result (λ runs. AreRuns (has self.now) runs.items) }
    {
        let mut runs = Vec::new(alloc);
        'arrays: for a in 0..self.arrays() {
            self.add_runs(ArrayId(a as u32), &mut runs)?;
        }
        Ok(runs)
    }
}

impl Footprint {
    fn set(&self, part: Part) -> &CellSet
        ensures { result.now ≡ set_of part self.now }
    {
        match part {
            Part::Exposed => &self.exposed,
            Part::Read => &self.read,
            Part::Write => &self.write,
            Part::Sure => &self.sure,
        }
    }

    /// The least list of maximal runs of one of the sets, in order.
    pub fn runs(&self, alloc: Global, part: Part) -> Result<Vec<Run>, AllocError>
        ensures { IfOk result (λ runs. AreRuns (has (set_of part self.now)) runs.items) }
    {
        self.set(part).runs(alloc)
    }
}

/// A set of cells has one list of maximal runs in order.
pub fn runs_are_unique()
    ensures { AreUnique }
{}
