// The device storage's part of a frame, and what a run leaves in it.

ghost use Rattle.std.specs.Prelude.{◌≡◌, ◌<◌, ◌≤◌, ◌^◌, ℕ, [], Some, IfOk, length, slice_index, vec_capacity};
ghost use Rattle.base.specs.declared.item.Cell.{Cell};
ghost use Rattle.base.specs.Map.{Device};
ghost use Rattle.ranges.specs.Reach.{AreOfArrays};
ghost use Rattle.frames.specs.Reach.{in_reach};
ghost use Rattle.frames.specs.Rows.{AreNumbers, AreRows, FitIn, HasRoom, IsLoaded};
ghost use Rattle.frames.specs.Views.{every};
ghost use Rattle.kernel.specs.Rows.{cells_of, cells_stored};
ghost use Rattle.present.specs.Rows.{AreRead, over, with_numbers};
ghost use Rattle.present.specs.Table.{IsKept, IsUnchanged, Shows, number_at};
ghost use Rattle.shared_row.specs.Rows.{numbers_in, room_in};
ghost use Rattle.regions.specs.Footprints.{BoundedScalars, BoundedView};

use base::item::{LoopValues, Section};
use base::tree::ArrayId;
use kernel::{Frame, KeptRow, Row, Scalars};
use present::Table;
use shared_row::RowCells;
use std::alloc::{AllocError, Global};
use std::mem::replace;

// A row with room for the cells of a run.
fn room_for(alloc: Global, section: &Section) -> Result<Row, AllocError>
    ensures { IfOk result (HasRoom section.now) }
{
    Ok(Row {
        first: section.first,
        cells: RowCells::Own(Vec::with_capacity(alloc, section.length as usize)?),
    })
}

// For each run such a row.
fn rows_for(alloc: Global, reach: &[Section]) -> Result<Vec<Row>, AllocError>
    ensures { IfOk result (λ rows. AreRows HasRoom reach.now rows.items) }
{
    let mut rows = Vec::new(alloc);
    'runs: for section in reach {
        rows.push(room_for(alloc, section)?)?;
    }
    Ok(rows)
}

/// The frame of a region that runs on the device, before the numbers are read: of each array there is room for the cells
/// in `reach`. There is no input.
pub fn kernel_frame<'i>(
    alloc: Global,
    item: u32,
    loops: &'i LoopValues,
    scalars: Scalars,
    reach: &[Section],
) -> Result<Frame<'i>, AllocError>
    ensures item { IfOk result (λ f. f.item ≡ item) }
    ensures loops { IfOk result (λ f. f.loops.now ≡ loops.now) }
    ensures scalars { IfOk result (λ f. f.scalars ≡ scalars) }
    ensures input { IfOk result (λ f. f.input.now ≡ []) }
    ensures room { IfOk result (λ f. AreRows HasRoom reach.now f.rows.items) }
    ensures small_scalars { BoundedScalars (slice_index scalars) }
{
    let _numbers = scalars.numbers();
    Ok(Frame {
        item,
        loops,
        scalars,
        rows: rows_for(alloc, reach)?,
        input: &[],
    })
}

/// The rows that have room for the cells in reach get them, with the numbers of the storage of the device, and 0 for a
/// cell without storage. Cells out of reach are not there. It takes no memory.
pub fn load_rows(alloc: Global, rows: &mut [Row], reach: &[Section], table: &mut Table)
    requires room { AreRows HasRoom reach.now rows.old }
    requires arrays { AreOfArrays reach.now }
    ensures cells { cells_of rows.new ≡ in_reach reach.now (over (number_at table.old) (every 0)) }
    ensures bounded { BoundedView (cells_of rows.new) }
    ensures fits { FitIn rows.old rows.new }
    ensures unchanged { IsUnchanged table.old table.new }
{
    'each: for (a, row) in rows.iter_mut().enumerate() {
        load_row(alloc, row, &reach[a], table);
    }
}

// What every slice of numbers is.
pub(crate) fn are_numbers(numbers: &[u64])
    ensures { AreNumbers numbers.now }
{
    let _numbers = numbers;
}

// The room of a row without cells.
fn room_of(alloc: Global, cells: RowCells) -> Vec<u64>
    requires { numbers_in cells ≡ [] }
    ensures empty { result.items ≡ [] }
    ensures room { room_in cells ≤ vec_capacity result }
{
    match cells {
        RowCells::Own(room) => room,
        RowCells::Lent(_) => Vec::new(alloc),
    }
}

// The numbers of a section, lent where the table lends them.
fn loaded(table: &mut Table, section: &Section, room: Vec<u64>) -> RowCells
    requires empty { room.items ≡ [] }
    requires room { section.now.length ≤ vec_capacity room }
    ensures numbers { AreRead (number_at table.old) section.now (numbers_in result) }
    ensures count { length (numbers_in result) ≡ section.now.length }
    ensures bounded { AreNumbers (numbers_in result) }
    ensures unchanged { IsUnchanged table.old table.new }
{
    match table.lend_row(section, room) {
        Ok(lent) => {
            are_numbers(lent.numbers());
            RowCells::Lent(lent)
        }
        Err(mut numbers) => {
            table.read_row(section, &mut numbers);
            are_numbers(&numbers);
            RowCells::Own(numbers)
        }
    }
}

fn load_row(alloc: Global, row: &mut Row, section: &Section, table: &mut Table)
    requires { HasRoom section.now row.old }
    ensures loaded { IsLoaded (number_at table.old) section.now row.old row.new }
    ensures unchanged { IsUnchanged table.old table.new }
{
    let room = room_of(
        alloc,
        replace(&mut row.cells, RowCells::Own(Vec::new(alloc))),
    );
    row.cells = loaded(table, section, room);
}

/// Stores what a region stored in the storage of the device. A cell without storage is left out. It takes no memory.
pub fn store_kernel(table: &mut Table, rows: &[KeptRow])
    requires { (c : Cell) (n : ℕ) → cells_stored rows.now c ≡ Some n → c.array.0 < 2 ^ 32 }
    ensures stored { (d : Device) → Shows table.old d → Shows table.new (with_numbers (cells_stored rows.now) d) }
    ensures kept { IsKept table.old table.new }
{
    'each: for (a, row) in rows.iter().enumerate() {
        let Ok(array) = u32::try_from(a) else {
            return;
        };
        table.store_row(ArrayId(array), row.first, &row.cells, &row.stored);
    }
}
