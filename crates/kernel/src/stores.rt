// A block of turns stores in the cells of an array.

ghost use Rattle.std.specs.Prelude.{ℕ, ◌≡◌, ◌+◌, ◌-◌, ◌<◌, ◌≤◌, ◌^◌, true, false, IsSome, OnOk, if◌then◌else◌, length, slice_index, slice_index_or};
ghost use Rattle.kernel.specs.Lanes.{IsStoredIn, takes_part};
ghost use Rattle.kernel.specs.Machine.{with_cell};
ghost use Rattle.kernel.specs.Offsets.{moved_by};
ghost use Rattle.kernel.specs.Rows.{cells_kept, parts_stored};
ghost use Rattle.lanes.specs.Apart.{own_value_places, in_block, with_lanes};

use crate::run_row::RunRow;
use crate::state::store;
use crate::turns::Turns;
use base::item::Cell;
use base::tree::ArrayId;
use std::alloc::{AllocError, Global};

// Some numbers, one at least, go into the cells of an array from an index on.
fn store_run(
    alloc: Global,
    rows: &mut [RunRow<'_>],
    array: ArrayId,
    first: u64,
    numbers: &[u64],
) -> Result<(), AllocError>
    requires some { 0 < length numbers.now }
    requires there { (k : ℕ) → k < length numbers.now → IsSome (cells_kept rows.old (record { array = array; index = first + k })) }
    ensures cells { OnOk result (cells_kept rows.new ≡ with_lanes own_value_places (in_block first (length numbers.now)) array.0 (λ v. slice_index numbers.now (v - first)) (cells_kept rows.old)) }
    ensures stored { OnOk result (parts_stored rows.new ≡ with_lanes own_value_places (in_block first (length numbers.now)) array.0 (λ v. slice_index numbers.now (v - first)) (parts_stored rows.old)) }
{
    let row = &mut rows[array.0 as usize];
    let at = (first - row.first()) as usize;
    row.put_run(alloc, at, numbers)
}

// A number in a cell, if it is to be stored.
#[inline(always)]
fn store_if(
    alloc: Global,
    part: bool,
    rows: &mut [RunRow<'_>],
    cell: Cell,
    n: u64,
) -> Result<(), AllocError>
    requires { part ≡ true → IsSome (cells_kept rows.old cell) }
    ensures cells { OnOk result (cells_kept rows.new ≡ (if part then with_cell (cells_kept rows.old) cell n else cells_kept rows.old)) }
    ensures stored { OnOk result (parts_stored rows.new ≡ (if part then with_cell (parts_stored rows.old) cell n else parts_stored rows.old)) }
{
    if part {
        store(alloc, rows, cell, n)?;
    }
    Ok(())
}

// True only where the row of an array has so many cells from an index on, one at least.
#[tactic(auto, using(crate::proofs::LoadedRuns::run_there))]
fn has_run(rows: &[RunRow<'_>], array: ArrayId, first: u64, n: usize) -> bool
    ensures some { result ≡ true → 0 < n }
    ensures there { result ≡ true → (k : ℕ) → k < n → IsSome (cells_kept rows.now (record { array = array; index = first + k })) }
{
    match rows.get(array.0 as usize) {
        None => false,
        Some(row) => {
            let size = row.size();
            n > 0 && n <= size && row.first() <= first && first - row.first() <= (size - n) as u64
        }
    }
}

// Of some numbers those that a mask has go into the cells of an array from an index on, whose row has a cell for each.
fn store_masked(
    alloc: Global,
    rows: &mut [RunRow<'_>],
    array: ArrayId,
    first: u64,
    numbers: &[u64],
    mask: &[bool],
) -> Result<(), AllocError>
    requires size { length mask.now ≡ length numbers.now }
    requires some { 0 < length numbers.now }
    requires there { (k : ℕ) → k < length numbers.now → IsSome (cells_kept rows.old (record { array = array; index = first + k })) }
    ensures cells { OnOk result (IsStoredIn (λ k. slice_index_or mask.now k false) first (length numbers.now) array.0 (slice_index numbers.now) (cells_kept rows.old) (cells_kept rows.new)) }
    ensures stored { OnOk result (IsStoredIn (λ k. slice_index_or mask.now k false) first (length numbers.now) array.0 (slice_index numbers.now) (parts_stored rows.old) (parts_stored rows.new)) }
{
    let row = &mut rows[array.0 as usize];
    let at = (first - row.first()) as usize;
    row.put_some(alloc, at, numbers, mask)
}

// The same one by one, since a cell that the mask has not need not be there.
#[inline(never)]
#[tactic(auto, using(crate::proofs::SomeStores::begun))]
fn store_each(
    alloc: Global,
    rows: &mut [RunRow<'_>],
    array: ArrayId,
    first: u64,
    numbers: &[u64],
    mask: &[bool],
) -> Result<(), AllocError>
    requires size { length mask.now ≡ length numbers.now }
    requires no_wrap { first + length numbers.now ≤ 2 ^ 64 }
    requires there { (k : ℕ) → k < length numbers.now → slice_index_or mask.now k false ≡ true → IsSome (cells_kept rows.old (record { array = array; index = first + k })) }
    ensures cells { OnOk result (IsStoredIn (λ k. slice_index_or mask.now k false) first (length numbers.now) array.0 (slice_index numbers.now) (cells_kept rows.old) (cells_kept rows.new)) }
    ensures stored { OnOk result (IsStoredIn (λ k. slice_index_or mask.now k false) first (length numbers.now) array.0 (slice_index numbers.now) (parts_stored rows.old) (parts_stored rows.new)) }
{
    'lanes: for j in 0..numbers.len() {
        let index = first + j as u64;
        store_if(alloc, mask[j], rows, Cell { array, index }, numbers[j])?;
    }
    Ok(())
}

/// Numbers, one for each turn of a block, go into the cells of an array where the turn takes part. The error comes for want
/// of memory.
pub fn store_lanes(
    alloc: Global,
    rows: &mut [RunRow<'_>],
    array: ArrayId,
    at: &Turns<'_, '_>,
    numbers: &[u64],
) -> Result<(), AllocError>
    requires size { length numbers.now ≡ at.now.count }
    requires there { (k : ℕ) → k < at.now.count → takes_part at.now k ≡ true → IsSome (cells_kept rows.old (record { array = array; index = moved_by at.now.offset + at.now.first + k })) }
    ensures cells { OnOk result (IsStoredIn (takes_part at.now) (moved_by at.now.offset + at.now.first) at.now.count array.0 (slice_index numbers.now) (cells_kept rows.old) (cells_kept rows.new)) }
    ensures stored { OnOk result (IsStoredIn (takes_part at.now) (moved_by at.now.offset + at.now.first) at.now.count array.0 (slice_index numbers.now) (parts_stored rows.old) (parts_stored rows.new)) }
{
    let offset = at.offset.unwrap_or(0);
    let first = offset + at.first;
    match at.mask {
        None => store_run(alloc, rows, array, first, numbers),
        Some(mask) => {
            if has_run(rows, array, first, numbers.len()) {
                return store_masked(alloc, rows, array, first, numbers, mask);
            }
            store_each(alloc, rows, array, first, numbers, mask)
        }
    }
}
