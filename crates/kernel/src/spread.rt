// A region whose turns may be done in spans.

ghost use Rattle.std.specs.Prelude.{◌≡◌, IfSome, IsSome, slice_index};
ghost use Rattle.base.specs.Meaning.{run_region};
ghost use Rattle.base.specs.Turns.{Independent, turns_at};
ghost use Rattle.kernel.specs.Rows.{cells_of};
ghost use Rattle.kernel.specs.Spread.{IsSpread, MayRun};
ghost use Rattle.spans.specs.Spans.{IsCut};

use crate::emit::Code;
use crate::frames::Frame;
use crate::runnable::frame_is_small;
use base::tree::{Bounds, Region, Stmt};
use spans::{is_self_contained, only_loop, spans_are_the_loop};

/// A region on its frame that is one loop, whose body leaves no scalars to other turns, and has no commuting update.
#[derive(Drop)]
pub struct Spread<'r, 'f, 'i> {
    pub region: &'r Region,
    pub frame: &'f Frame<'i>,
    pub bounds: Bounds,
    pub body: &'r [Stmt],
    /// How many loops inside this one have turns that may run in any order.
    pub inner: u8,
    pub ghost is_spread: { IsSpread region.now frame.now bounds body.now },
}

/// The loop that the region of a code is, where it is seen that its turns may be done in spans.
pub fn spread_of<'r, 'f, 'i>(code: &Code<'r>, frame: &'f Frame<'i>) -> Option<Spread<'r, 'f, 'i>>
    requires runs { IsSome (run_region code.now frame.now.loops.now.values.items (cells_of frame.now.rows.items) (slice_index frame.now.scalars) frame.now.input.now) }
    requires apart { Independent (turns_at code.now.depth code.now.body.items frame.now.loops.now.values.items) }
    ensures region { IfSome result (λ s. s.region.now ≡ code.now) }
    ensures frame { IfSome result (λ s. s.frame.now ≡ frame.now) }
    ensures may { IfSome result (λ s. MayRun s.frame.now s.inner s.body.now s.bounds) }
{
    let region = code.region();
    if region.depth == 0 || !frame.input.is_empty() {
        return None;
    }
    let (bounds, body) = only_loop(&region.body)?;
    if !is_self_contained(body) {
        return None;
    }
    frame_is_small(frame);
    Some(Spread {
        region,
        frame,
        bounds,
        body,
        inner: region.depth - 1,
    })
}

// A loop up to a turn, and from there on.
fn halves(bounds: Bounds) -> Option<(Bounds, Bounds)>
    ensures { IfSome result (λ p. IsCut bounds p.0 p.1) }
{
    let half = bounds.turns() / 2;
    let middle = bounds.first.checked_add(half.checked_mul(bounds.step)?)?;
    if half == 0 || middle >= bounds.end {
        return None;
    }
    let front = Bounds {
        first: bounds.first,
        end: middle,
        step: bounds.step,
    };
    let back = Bounds {
        first: middle,
        end: bounds.end,
        step: bounds.step,
    };
    Some((front, back))
}

/// Turns of the loop as two spans of them, where they are two at least.
pub fn cut(of: &Spread<'_, '_, '_>, bounds: Bounds) -> Option<(Bounds, Bounds)>
    requires { MayRun of.now.frame.now of.now.inner of.now.body.now bounds }
    ensures cut { IfSome result (λ p. IsCut bounds p.0 p.1) }
    ensures front { IfSome result (λ p. MayRun of.now.frame.now of.now.inner of.now.body.now p.0) }
    ensures back { IfSome result (λ p. MayRun of.now.frame.now of.now.inner of.now.body.now p.1) }
{
    spans_are_the_loop();
    halves(bounds)
}
