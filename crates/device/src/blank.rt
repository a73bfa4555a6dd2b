// A frame without its cells, with room for them.

ghost use Rattle.std.specs.Prelude.{◌≡◌, IfOk, IfSome, IsSome, map, true};
ghost use Rattle.device.specs.Blank.{AreBlankRows, HaveRoomOf, IsBlank, IsBlankOf, IsBlankRow};
ghost use Rattle.device.specs.Standing.{frame_parts, row_parts};

use kernel::{Frame, Row};
use shared_row::RowCells;
use std::alloc::{AllocError, Global};

fn blank_rows(alloc: Global, rows: &[Row]) -> Result<Vec<Row>, AllocError>
    ensures { IfOk result (λ blank. HaveRoomOf rows.now blank.items) }
{
    let mut blank = Vec::new(alloc);
    'each: for row in rows {
        blank.push(Row {
            first: row.first,
            cells: RowCells::Own(Vec::with_capacity(alloc, row.cells.room())?),
        })?;
    }
    Ok(blank)
}

fn blank_of<'a>(alloc: Global, frame: &Frame<'a>) -> Result<Frame<'a>, AllocError>
    ensures { IfOk result (IsBlankOf frame.now) }
{
    let rows = blank_rows(alloc, &frame.rows)?;
    Ok(Frame {
        item: frame.item,
        loops: frame.loops,
        scalars: frame.scalars.copy(alloc)?,
        rows,
        input: frame.input,
    })
}

/// The same frame without its cells, with room for as many, if it is wanted.
pub fn blank_if<'a>(
    alloc: Global,
    frame: &Frame<'a>,
    wanted: bool,
) -> Result<Option<Frame<'a>>, AllocError>
    ensures wanted { IfOk result (λ blank. wanted ≡ true → IsSome blank) }
    ensures blank { IfOk result (λ blank. IfSome blank (IsBlankOf frame.now)) }
{
    if !wanted {
        return Ok(None);
    }
    Ok(Some(blank_of(alloc, frame)?))
}

fn fill_row(blank: &mut Row, row: &Row)
    requires { IsBlankRow (row_parts row.now) blank.old }
    ensures { row_parts blank.new ≡ row_parts row.now }
{
    match &mut blank.cells {
        RowCells::Own(numbers) => {
            if numbers.extend_from_slice(row.cells.numbers()).is_err() {
                unreachable!()
            }
        }
        // it has room for none
        RowCells::Lent(_) => {}
    }
}

fn fill_rows(blank: &mut [Row], rows: &[Row])
    requires { AreBlankRows (map row_parts rows.now) blank.old }
    ensures { map row_parts blank.new ≡ map row_parts rows.now }
{
    'each: for (i, to) in blank.iter_mut().enumerate() {
        fill_row(to, &rows[i]);
    }
}

/// It takes the cells of the frame that it is for. It takes no memory.
pub fn take_cells(blank: &mut Frame<'_>, frame: &Frame<'_>)
    requires { IsBlank (frame_parts frame.now) blank.old }
    ensures { frame_parts blank.new ≡ frame_parts frame.now }
{
    fill_rows(&mut blank.rows, &frame.rows);
}
