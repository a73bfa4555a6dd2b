// On which frames a region may be run.

ghost use Rattle.std.specs.Prelude.{slice_index};
ghost use Rattle.kernel.specs.Rows.{cells_of};
ghost use Rattle.regions.specs.Footprints.{BoundedScalars, BoundedView};
ghost use Rattle.kernel.specs.Runnable.{AreNumbers, HaveNumbers, RunsOn};

use crate::frames::{Frame, Row};
use regions::region_runs;

// What every slice of numbers is.
pub(crate) fn are_numbers(numbers: &[u64])
    ensures { AreNumbers numbers.now }
{
    let _numbers = numbers;
}

// What the cells of all rows are.
fn have_numbers(rows: &[Row])
    ensures { HaveNumbers rows.now }
{
    if let [first, rest @ ..] = rows {
        are_numbers(first.cells.numbers());
        have_numbers(rest);
    }
}

/// What every frame has: numbers of 64 bits.
pub(crate) fn frame_is_small(frame: &Frame<'_>)
    ensures loops { AreNumbers frame.now.loops.now.values.items }
    ensures view { BoundedView (cells_of frame.now.rows.items) }
    ensures scalars { BoundedScalars (slice_index frame.now.scalars) }
{
    have_numbers(&frame.rows);
    are_numbers(frame.loops.values.as_slice());
    are_numbers(frame.scalars.numbers());
}

/// A region without a fault of range has a meaning on the frame, and so may be run on it, if the frame has each cell of
/// which the region exposes a read and each that it may write.
pub fn frame_runs(frame: &Frame<'_>)
    ensures { RunsOn frame.now.loops.now.values.items (cells_of frame.now.rows.items) (slice_index frame.now.scalars) frame.now.input.now }
{
    region_runs();
    have_numbers(&frame.rows);
    are_numbers(frame.loops.values.as_slice());
    are_numbers(frame.scalars.numbers());
    are_numbers(frame.input);
}
