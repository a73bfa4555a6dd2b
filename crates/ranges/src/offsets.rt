// Subscripts that move on by a multiple of what a loop's name does.

ghost use Rattle.std.specs.Prelude.{◌<◌, IfSome};
ghost use Rattle.ranges.specs.Affines.{Slides};

use crate::affine::Affine;
use base::tree::{Bounds, Expr};

/// The values of an expression in the turns of a loop, where these loops stand around it: of numbers, of its name, and of
/// names of the loops around, by sums, differences and products that do not wrap. Of a product one factor does not move on.
pub fn values_of(e: &Expr, loops: &[u64], bounds: Bounds) -> Option<Affine>
    requires { bounds.first < bounds.end }
    ensures { IfSome result (Slides loops.now bounds e.now) }
{
    match e {
        Expr::Number(n) => Some(Affine::still(*n)),
        Expr::LoopName(level) if *level as usize == loops.len() => Some(Affine::name(bounds.first)),
        Expr::LoopName(level) => Some(Affine::still(*loops.get(*level as usize)?)),
        Expr::Binary(op, a, b) => {
            let left = values_of(a, loops, bounds)?;
            let right = values_of(b, loops, bounds)?;
            Affine::of(*op, left, right, bounds.end - 1 - bounds.first)
        }
        _ => None,
    }
}
