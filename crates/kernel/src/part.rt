// What some turns of a region leave.

ghost use Rattle.std.specs.Prelude.{◌≡◌, IfOk, slice_get};
ghost use Rattle.kernel.specs.Laid.{AlikeBy, AreLaid, HaveSame, LaidBy};
ghost use Rattle.kernel.specs.Spread.{IsPart, MayRun};
ghost use Rattle.spans.specs.Spans.{IsCut};

use crate::execute::{Done, kept, start};
use crate::run_row::RunRow;
use crate::spread::Spread;
use crate::state::Machine;
use crate::walk::some_turns;
use base::tree::Bounds;
use spans::spans_are_the_loop;
use std::alloc::{AllocError, Global};

/// What some turns of a loop left that were done on a frame from where its region begins: their scalars, the rows with
/// what they stored, and the printed numbers in order.
#[derive(Drop)]
pub struct Part<'f> {
    pub(crate) scalars: Box<[u64; 256]>,
    pub(crate) rows: Vec<RunRow<'f>>,
    pub(crate) printed: Vec<u64>,
}

/// Does turns of a loop from where its region begins. The error comes for want of memory.
pub fn run_part<'f>(
    alloc: Global,
    of: &Spread<'_, 'f, '_>,
    bounds: Bounds,
) -> Result<Part<'f>, AllocError>
    requires { MayRun of.now.frame.now of.now.inner of.now.body.now bounds }
    ensures { IfOk result (IsPart of.now.frame.now of.now.body.now bounds) }
{
    let mut m = start(alloc, of.frame)?;
    some_turns(alloc, bounds, of.body, &mut m)?;
    let Machine {
        alloc: _,
        loops: _,
        scalars,
        rows,
        input: _,
        printed,
    } = m;
    Ok(Part {
        scalars,
        rows,
        printed,
    })
}

// A row over which another one is laid, if there is one at its place.
fn lay_at<'f>(
    alloc: Global,
    row: RunRow<'f>,
    over: &[RunRow<'_>],
    at: usize,
) -> Result<RunRow<'f>, AllocError>
    requires { AlikeBy (slice_get over.now at) row }
    ensures { IfOk result (LaidBy (slice_get over.now at) row.entry) }
{
    let mut row = row;
    if let Some(other) = over.get(at) {
        row.lay(alloc, other)?;
    }
    Ok(row)
}

// Rows over which others are laid.
fn lay_rows<'f>(
    alloc: Global,
    rows: Vec<RunRow<'f>>,
    over: &[RunRow<'_>],
) -> Result<Vec<RunRow<'f>>, AllocError>
    requires { HaveSame rows.items over.now }
    ensures { IfOk result (λ now. AreLaid rows.entry.items over.now now.items) }
{
    let mut laid = Vec::new(alloc);
    for row in rows {
        let at = laid.len();
        laid.push(lay_at(alloc, row, over, at)?)?;
    }
    Ok(laid)
}

/// What two spans left, of which the second one begins where the first one ends, is what both together leave. The error
/// comes for want of memory.
pub fn join_parts<'f>(
    alloc: Global,
    of: &Spread<'_, 'f, '_>,
    bounds: Bounds,
    spans: (Bounds, Bounds),
    front: Part<'f>,
    back: Part<'f>,
) -> Result<Part<'f>, AllocError>
    requires may { MayRun of.now.frame.now of.now.inner of.now.body.now bounds }
    requires cut { IsCut bounds spans.0 spans.1 }
    requires front { IsPart of.now.frame.now of.now.body.now spans.0 front }
    requires back { IsPart of.now.frame.now of.now.body.now spans.1 back }
    ensures { IfOk result (IsPart of.now.frame.now of.now.body.now bounds) }
{
    spans_are_the_loop();
    let Part {
        scalars: _,
        rows,
        mut printed,
    } = front;
    printed.extend_from_slice(&back.printed)?;
    Ok(Part {
        scalars: back.scalars,
        rows: lay_rows(alloc, rows, &back.rows)?,
        printed,
    })
}

/// What all turns of the loop left is what the region leaves. The error comes for want of memory.
pub fn whole<'r, 'f, 'i>(
    alloc: Global,
    of: &Spread<'r, 'f, 'i>,
    part: Part<'f>,
) -> Result<Done<'r, 'f, 'i>, AllocError>
    requires { IsPart of.now.frame.now of.now.body.now of.now.bounds part }
    ensures region { IfOk result (λ done. done.region.now ≡ of.now.region.now) }
    ensures frame { IfOk result (λ done. done.frame.now ≡ of.now.frame.now) }
{
    let Part {
        scalars,
        rows,
        printed,
    } = part;
    Ok(Done {
        region: of.region,
        frame: of.frame,
        scalars,
        rows: kept(alloc, rows)?,
        input: of.frame.input,
        printed,
    })
}
