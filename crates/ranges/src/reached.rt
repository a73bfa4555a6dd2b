// The cells that a region may touch, as a run of cells of each array.

ghost use Rattle.std.specs.Prelude.{◌≡◌, ◌<◌, ◌≤◌, ◌^◌, ◌||◌, ℕ, true, false, IfOk, length};
ghost use Rattle.bits.specs.Sets.{has};
ghost use Rattle.ranges.specs.Reach.{AreLeastRuns, IsFirstOr, IsLeastRun, touched_by};

use crate::cells::Footprint;
use base::item::Section;
use base::tree::ArrayId;
use bits::BitSet;
use std::alloc::{AllocError, Global};

// The least number in a set, or the end where there is none.
fn first_or(set: &BitSet, end: usize) -> usize
    requires { (i : ℕ) → has set.now i ≡ true → i < end }
    ensures { IsFirstOr (has set.now) end result }
{
    set.first_from(0).unwrap_or(end)
}

// The least run of places of an array that has each one that is in one of two sets.
fn run_of(array: ArrayId, read: &BitSet, write: &BitSet) -> Section
    ensures array { result.array ≡ array }
    ensures least { IsLeastRun (λ i. has read.now i || has write.now i) result }
{
    let end = read.end().max(write.end());
    let first = first_or(read, end).min(first_or(write, end));
    Section {
        array,
        first: first as u64,
        length: (end - first) as u64,
    }
}

/// For each array the least run of cells that has all cells which the region may read or write, of length 0 where it
/// touches none. A cell beyond the arrays of these lengths is in no run. It takes a few steps for each array, and one for 64
/// cells between those that it touches.
pub fn reach(
    alloc: Global,
    lengths: &[u32],
    footprint: &Footprint,
) -> Result<Vec<Section>, AllocError>
    requires { length lengths.now ≤ 2 ^ 32 }
    ensures { IfOk result (λ reach. AreLeastRuns (touched_by footprint.now) (length lengths.now) reach.items) }
{
    let mut runs = Vec::new(alloc);
    'arrays: for a in 0..lengths.len() {
        let array = ArrayId(a as u32);
        runs.push(run_of(array, footprint.read.row(array), footprint.write.row(array)))?;
    }
    Ok(runs)
}

/// For each array a run of no cell, as for a region that touches none.
pub fn no_reach(alloc: Global, lengths: &[u32]) -> Result<Vec<Section>, AllocError>
    requires { length lengths.now ≤ 2 ^ 32 }
    ensures { IfOk result (λ reach. AreLeastRuns (λ c. false) (length lengths.now) reach.items) }
{
    let mut runs = Vec::new(alloc);
    'arrays: for a in 0..lengths.len() {
        runs.push(Section {
            array: ArrayId(a as u32),
            first: 0,
            length: 0,
        })?;
    }
    Ok(runs)
}
