// Which turns of a loop tell what all of them touch.

ghost use Rattle.std.specs.Prelude.{◌≡◌, ◌+◌, min};
ghost use Rattle.ranges.specs.Deciding.{SeesAlike};

use base::tree::{Bounds, Stmt};
use regions::body_decides;

// The first turn of a loop, if it has one.
fn first_turn(bounds: Bounds) -> Bounds
    ensures first { result.first ≡ bounds.first }
    ensures end { result.end ≡ min bounds.end (bounds.first + 1) }
    ensures step { result.step ≡ bounds.step }
{
    Bounds {
        first: bounds.first,
        end: bounds.end.min(bounds.first.saturating_add(1)),
        step: bounds.step,
    }
}

/// Turns of a loop that tell what all of its turns touch, where so many loops stand around it: its first one if its
/// value decides no subscript and no condition, and else all.
pub fn telling_turns(bounds: Bounds, body: &[Stmt], level: usize) -> Bounds
    ensures { SeesAlike level body.now result bounds }
{
    if body_decides(level, body) {
        bounds
    } else {
        first_turn(bounds)
    }
}
