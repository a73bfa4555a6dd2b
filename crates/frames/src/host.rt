// The host memory's part of a frame, and what a run leaves in it.

ghost use Rattle.std.specs.Prelude.{◌≡◌, ◌+◌, ◌-◌, ◌<◌, ◌≤◌, ◌^◌, All, ℕ, true, Some, IfOk, IfSome, length, slice_get, slice_index, slice_range};
ghost use Rattle.host_memory.specs.Arrays.{lengths_of, memory_of, row_of};
ghost use Rattle.base.specs.Memory.{end_of, view_of, within};
ghost use Rattle.frames.specs.Reach.{AreRuns, in_reach};
ghost use Rattle.frames.specs.Rows.{AreNumbers, AreRows, IsRow, run_from};
ghost use Rattle.frames.specs.Views.{AreCells, with_stored};
ghost use Rattle.kernel.specs.Rows.{cells_of, cells_stored, marks_kept};
ghost use Rattle.shared_row.specs.Rows.{lent_numbers, numbers_in};
ghost use Rattle.present.specs.Rows.{marked_in};
ghost use Rattle.regions.specs.Footprints.{BoundedScalars, BoundedView};

use crate::device::are_numbers;
use base::item::{LoopValues, Section};
use base::tree::ArrayId;
use host_memory::Memory;
use kernel::{Frame, KeptRow, Row, Scalars};
use shared_row::{LentRow, Marks, RowCells};
use std::alloc::{AllocError, Global};

// These numbers, each of which is below 2^64.
fn copied(alloc: Global, numbers: &[u64]) -> Result<Vec<u64>, AllocError>
    ensures items { IfOk result (λ cells. cells.items ≡ numbers.now) }
    ensures bounded { AreNumbers numbers.now }
{
    Vec::from_slice(alloc, numbers)
}

// The cells of a run. They are not copied where the host memory lends them.
fn host_row(alloc: Global, section: &Section, host: &Memory) -> Result<Row, AllocError>
    requires { 1 ≤ section.now.length → end_of section.now ≤ slice_index (lengths_of host.now) section.now.array.0 }
    ensures row { IfOk result (IsRow (view_of (lengths_of host.now) (memory_of host.now)) section.now) }
{
    let first = section.first;
    if section.length == 0 {
        return Ok(Row {
            first,
            cells: RowCells::Own(Vec::new(alloc)),
        });
    }
    if let Some(lent) = host.lent(section) {
        are_numbers(lent.numbers());
        return Ok(Row {
            first,
            cells: RowCells::Lent(lent),
        });
    }
    let cells = copied(alloc, host.section(section))?;
    Ok(Row {
        first,
        cells: RowCells::Own(cells),
    })
}

fn host_rows(alloc: Global, reach: &[Section], host: &Memory) -> Result<Vec<Row>, AllocError>
    requires { AreRuns (lengths_of host.now) reach.now }
    ensures { IfOk result (λ rows. AreRows (IsRow (view_of (lengths_of host.now) (memory_of host.now))) reach.now rows.items) }
{
    let mut rows = Vec::new(alloc);
    'runs: for section in reach {
        rows.push(host_row(alloc, section, host)?)?;
    }
    Ok(rows)
}

/// The frame of a region that runs on the host memory: of each array the cells in `reach`, with their numbers. Cells out
/// of reach are not there.
pub fn host_frame<'i>(
    alloc: Global,
    item: u32,
    loops: &'i LoopValues,
    scalars: Scalars,
    input: &'i [u64],
    reach: &[Section],
    host: &Memory,
) -> Result<Frame<'i>, AllocError>
    requires { AreRuns (lengths_of host.now) reach.now }
    ensures item { IfOk result (λ f. f.item ≡ item) }
    ensures loops { IfOk result (λ f. f.loops.now ≡ loops.now) }
    ensures scalars { IfOk result (λ f. f.scalars ≡ scalars) }
    ensures input { IfOk result (λ f. f.input.now ≡ input.now) }
    ensures cells { IfOk result (λ f. cells_of f.rows.items ≡ in_reach reach.now (view_of (lengths_of host.now) (memory_of host.now))) }
    ensures bounded { IfOk result (λ f. BoundedView (cells_of f.rows.items)) }
    ensures small_scalars { BoundedScalars (slice_index scalars) }
    ensures small_input { All (λ n. n < 2 ^ 64) input.now }
{
    let _numbers = scalars.numbers();
    Ok(Frame {
        item,
        loops,
        scalars,
        rows: host_rows(alloc, reach, host)?,
        input,
    })
}

// The end of the marked places that stand one after another from a marked one on.
fn marked_end(marks: &[bool], first: usize) -> usize
    requires { slice_get marks.now first ≡ Some true }
    ensures from { first < result }
    ensures bound { result ≤ length marks.now }
    ensures marked { (k : ℕ) → first ≤ k → k < result → slice_get marks.now k ≡ Some true }
{
    let mut end = first + 1;
    'places: while end < marks.len() && marks[end] {
        end += 1;
    }
    end
}

// Stores numbers in the cells of an array from an index on.
fn store_run(host: &mut Memory, array: ArrayId, first: u64, numbers: &[u64])
    requires some { 1 ≤ length numbers.now }
    requires cells { first + length numbers.now ≤ length (row_of host.old array.0) }
    ensures stored { memory_of host.new ≡ within (run_from array first (length numbers.now))
        (λ c. slice_index numbers.now (c.index - first)) (memory_of host.old) }
    ensures lengths { lengths_of host.new ≡ lengths_of host.old }
{
    let section = Section {
        array,
        first,
        length: numbers.len() as u64,
    };
    host.set_section(&section, numbers);
}

// Stores all numbers of a row that others have too in the cells of an array from an index on.
fn store_lent(host: &mut Memory, array: ArrayId, first: u64, lent: &LentRow)
    requires some { 1 ≤ length (lent_numbers lent.now) }
    requires cells { first + length (lent_numbers lent.now) ≤ length (row_of host.old array.0) }
    ensures stored { memory_of host.new ≡ within (run_from array first (length (lent_numbers lent.now)))
        (λ c. slice_index (lent_numbers lent.now) (c.index - first)) (memory_of host.old) }
    ensures lengths { lengths_of host.new ≡ lengths_of host.old }
{
    let section = Section {
        array,
        first,
        length: lent.numbers().len() as u64,
    };
    host.set_section_lent(&section, lent);
}

// Stores a part of a row's numbers in the cells of an array, the first of the row from the index `first` on.
fn store_part(
    host: &mut Memory,
    array: ArrayId,
    first: u64,
    cells: &RowCells,
    from: usize,
    end: usize,
)
    requires some { from < end }
    requires part { end ≤ length (numbers_in cells.now) }
    requires cells { first + end ≤ length (row_of host.old array.0) }
    ensures stored { memory_of host.new ≡ within (run_from array (first + from) (end - from))
        (λ c. slice_index (slice_range (numbers_in cells.now) from end) (c.index - (first + from))) (memory_of host.old) }
    ensures lengths { lengths_of host.new ≡ lengths_of host.old }
{
    match cells {
        RowCells::Own(numbers) => store_run(host, array, first + from as u64, &numbers[from..end]),
        RowCells::Lent(lent) => {
            if from == 0 && end == lent.count {
                store_lent(host, array, first, lent);
            } else {
                store_run(host, array, first + from as u64, &lent.numbers()[from..end]);
            }
        }
    }
}

// Stores the marked ones of some numbers in the cells of an array from an index on.
fn store_marked(host: &mut Memory, array: ArrayId, first: u64, numbers: &[u64], marks: &[bool])
    requires count { length marks.now ≡ length numbers.now }
    requires cells { AreCells (lengths_of host.old) (marked_in array first numbers.now marks.now) }
    ensures stored { memory_of host.new ≡ with_stored (marked_in array first numbers.now marks.now) (memory_of host.old) }
    ensures lengths { lengths_of host.new ≡ lengths_of host.old }
{
    let mut i = 0;
    'places: while i < marks.len() {
        if marks[i] {
            let end = marked_end(marks, i);
            store_run(host, array, first + i as u64, &numbers[i..end]);
            i = end;
        } else {
            i += 1;
        }
    }
}

// Stores the marked numbers of a row.
fn store_row(host: &mut Memory, array: ArrayId, row: &KeptRow)
    requires { AreCells (lengths_of host.old)
        (marked_in array row.now.first (numbers_in row.now.cells) (marks_kept row.now)) }
    ensures stored { memory_of host.new ≡ with_stored
        (marked_in array row.now.first (numbers_in row.now.cells) (marks_kept row.now)) (memory_of host.old) }
    ensures lengths { lengths_of host.new ≡ lengths_of host.old }
{
    match &row.stored {
        Marks::Run(from, end) => {
            if from < end {
                store_part(host, array, row.first, &row.cells, *from, *end);
            }
        }
        Marks::Each(marks) => store_marked(host, array, row.first, row.cells.numbers(), marks),
    }
}

/// Stores what a region stored in the host memory. It takes no memory.
pub fn store_host(host: &mut Memory, rows: &[KeptRow])
    requires few { length (lengths_of host.old) ≤ 2 ^ 32 }
    requires cells { AreCells (lengths_of host.old) (cells_stored rows.now) }
    ensures stored { memory_of host.new ≡ with_stored (cells_stored rows.now) (memory_of host.old) }
    ensures lengths { lengths_of host.new ≡ lengths_of host.old }
{
    'each: for (a, row) in rows.iter().enumerate() {
        let Ok(array) = u32::try_from(a) else {
            return;
        };
        store_row(host, ArrayId(array), row);
    }
}
