// Where an expression is begun.

ghost use Rattle.std.specs.Prelude.{◌≡◌, IfOk, slice_index};
ghost use Rattle.actions.specs.Begin.{BeginsExpr};
ghost use Rattle.actions.specs.Rest.{frames_of};

use crate::frame::Frame;
use crate::scalars::Scalars;
use crate::stack::Frames;
use base::tree::Expr;
use operators::number_at;
use std::alloc::AllocError;

/// The parts of an expression come before the others. The answer is the first number at hand.
pub fn begin_expr<'p>(
    frames: &mut Frames<'p>,
    e: &'p Expr,
    loops: &[u64],
    scalars: &Scalars,
) -> Result<u64, AllocError>
    ensures { IfOk result (λ first. BeginsExpr e.now loops.now (slice_index scalars.now) (frames_of frames.old) first (frames_of frames.new)) }
{
    match e {
        Expr::Number(n) => Ok(*n),
        Expr::Scalar(x) => Ok(scalars.number(x.0)),
        Expr::LoopName(level) => Ok(number_at(loops, *level as usize)),
        Expr::Cell(array, _, subscript) => {
            frames.push(Frame::Load(*array))?;
            begin_expr(frames, subscript, loops, scalars)
        }
        Expr::Unary(op, a) => {
            frames.push(Frame::Unary(*op))?;
            begin_expr(frames, a, loops, scalars)
        }
        Expr::Binary(op, a, b) => {
            frames.push(Frame::Right(*op, b))?;
            begin_expr(frames, a, loops, scalars)
        }
        Expr::And(a, b) => {
            frames.push(Frame::AndRight(b))?;
            begin_expr(frames, a, loops, scalars)
        }
        Expr::Or(a, b) => {
            frames.push(Frame::OrRight(b))?;
            begin_expr(frames, a, loops, scalars)
        }
        Expr::Shift(op, a, n) => {
            frames.push(Frame::Shift(*op, *n))?;
            begin_expr(frames, a, loops, scalars)
        }
        Expr::Divide(op, a, n) => {
            frames.push(Frame::Divide(*op, *n))?;
            begin_expr(frames, a, loops, scalars)
        }
    }
}
