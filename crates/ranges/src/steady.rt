// Expressions that have one interval in all turns of a loop.

ghost use Rattle.std.specs.Prelude.{◌≡◌, ◌<◌, ◌++◌, ◌∷◌, [], ℕ, IsTrue, slice_index};
ghost use Rattle.base.specs.Interval.{interval, interval_divide};
ghost use Rattle.ranges.specs.Cases.{IsSteady, IsTurn};

use crate::offsets::values_of;
use base::tree::{Bounds, DivideOp, Divisor, Expr};

// Whether a loop's name is none of the loop with these loops around it.
fn is_other_name(level: u32, loops: &[u64]) -> bool
    ensures { IsTrue result → (v w : ℕ) → slice_index (loops.now ++ v ∷ []) level ≡ slice_index (loops.now ++ w ∷ []) level }
{
    level as usize != loops.len()
}

// Whether the rest of a division is one in all turns: where the operand moves on by a multiple of what the loop's name
// does, and the divisor divides the step.
fn has_one_rest(e: &Expr, n: Divisor, loops: &[u64], bounds: Bounds) -> bool
    requires { bounds.first < bounds.end }
    ensures { IsTrue result → (v : ℕ) → IsTurn bounds v → interval_divide DivideOp.Remainder (interval e.now (loops.now ++ v ∷ [])) n.value ≡ interval_divide DivideOp.Remainder (interval e.now (loops.now ++ bounds.first ∷ [])) n.value }
{
    match values_of(e, loops, bounds) {
        Some(_) => bounds.step % n.value == 0,
        None => false,
    }
}

/// Whether an expression has one interval in all turns of a loop, where these loops stand around it.
pub fn is_steady(e: &Expr, loops: &[u64], bounds: Bounds) -> bool
    requires { bounds.first < bounds.end }
    ensures { IsTrue result → IsSteady loops.now bounds e.now }
{
    match e {
        Expr::Number(_) | Expr::Scalar(_) | Expr::Cell(_, _, _) => true,
        Expr::LoopName(level) => is_other_name(*level, loops),
        Expr::Divide(DivideOp::Remainder, a, n) => {
            has_one_rest(a, *n, loops, bounds) || is_steady(a, loops, bounds)
        }
        Expr::Unary(_, a) | Expr::Shift(_, a, _) | Expr::Divide(_, a, _) => is_steady(
            a, loops, bounds,
        ),
        Expr::Binary(_, a, b) | Expr::And(a, b) | Expr::Or(a, b) => {
            is_steady(a, loops, bounds) && is_steady(b, loops, bounds)
        }
    }
}
