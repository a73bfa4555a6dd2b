// Where the cells of an array that statements touch lie by the name of one of the loops around.

ghost use Rattle.std.specs.Prelude.{◌≡◌, ◌<◌, ◌++◌, ℕ, List, Bool, IfOk, IfSome, length};
ghost use Rattle.base.specs.Footprint.{Touch, expr_touches, source_touches, stmt_touches};
ghost use Rattle.base.specs.Interval.{interval};
ghost use Rattle.ranges.specs.Seen.{list_touches, turns_from};
ghost use Rattle.ranges.specs.Spans.{AreBetween};
ghost use Rattle.ranges.specs.Strides.{Holds, HoldsAsMuch, IsHeld, IsWithin, ahead};

use crate::span::Span;
use crate::stride::{Stride, stride_of};
use base::tree::{ArrayId, Bounds, Expr, Source, Stmt};
use std::alloc::AllocError;

/// Which array is asked about, by the name of the loop at which level, and but for a multiple of which modulus.
#[derive(Clone, Copy)]
pub struct Asked {
    pub array: ArrayId,
    pub level: usize,
    pub modulus: u64,
}

/// What is known of the cells of the array.
#[derive(Clone, Copy)]
pub enum Touched {
    /// There are none.
    Nothing,
    Within(Stride),
    Anywhere,
}

// Where cells lie that lie in one of two ways.
fn joined(u: Stride, v: Stride) -> Touched
    ensures left { HoldsAsMuch (Touched.Within u) result }
    ensures right { HoldsAsMuch (Touched.Within v) result }
{
    if u.by != v.by {
        return Touched::Anywhere;
    }
    Touched::Within(Stride {
        by: u.by,
        lo: u.lo.min(v.lo),
        hi: u.hi.max(v.hi),
    })
}

impl Touched {
    ghost use Rattle.ranges.specs.Strides.{HoldsAsMuch};

    // What is known of the cells of both.
    fn with(self, other: Touched) -> Touched
        ensures left { HoldsAsMuch self result }
        ensures right { HoldsAsMuch other result }
    {
        match (self, other) {
            (Touched::Nothing, known) | (known, Touched::Nothing) => known,
            (Touched::Within(u), Touched::Within(v)) => joined(u, v),
            _ => Touched::Anywhere,
        }
    }
}

fn touched_access(q: Asked, array: ArrayId, subscript: &Expr, span: &Span) -> Touched
    ensures { (loops : List ℕ) (t : Touch) → AreBetween span.now.lows.items span.now.highs.items loops → t.array ≡ array → t.cells ≡ interval subscript.now loops → IsHeld q result (ahead span.now.lows.items q.level loops) t }
{
    if array != q.array {
        return Touched::Nothing;
    }
    match stride_of(subscript, q.modulus, q.level, &span.lows, &span.highs) {
        Some(stride) => Touched::Within(stride),
        None => Touched::Anywhere,
    }
}

fn touched_expr(q: Asked, e: &Expr, span: &Span) -> Touched
    ensures { Holds q span.now.lows.items span.now.highs.items result (expr_touches e.now) }
{
    match e {
        Expr::Number(_) | Expr::Scalar(_) | Expr::LoopName(_) => Touched::Nothing,
        Expr::Cell(array, _, subscript) => {
            touched_expr(q, subscript, span).with(touched_access(q, *array, subscript, span))
        }
        Expr::Unary(_, a) | Expr::Shift(_, a, _) | Expr::Divide(_, a, _) => touched_expr(
            q, a, span,
        ),
        Expr::Binary(_, a, b) | Expr::And(a, b) | Expr::Or(a, b) => {
            touched_expr(q, a, span).with(touched_expr(q, b, span))
        }
    }
}

fn touched_source(q: Asked, v: &Source, span: &Span) -> Touched
    ensures { Holds q span.now.lows.items span.now.highs.items result (source_touches v.now) }
{
    match v {
        Source::Value(e) => touched_expr(q, e, span),
        Source::Read => Touched::Nothing,
    }
}

#[cycle(touched)]
fn touched_stmt(q: Asked, s: &Stmt, span: &mut Span) -> Result<Touched, AllocError>
    requires level { q.level < length span.old.lows.items }
    ensures lows { IfOk result (λ h. span.new.lows.items ≡ span.old.lows.items) }
    ensures highs { IfOk result (λ h. span.new.highs.items ≡ span.old.highs.items) }
    ensures holds { IfOk result (λ h. Holds q span.old.lows.items span.old.highs.items h (stmt_touches s.now)) }
{
    match s {
        Stmt::Declare(_, v) | Stmt::Assign(_, v) => Ok(touched_source(q, v, span)),
        Stmt::Store(array, _, e, v) => Ok(
            touched_expr(q, e, span)
                .with(touched_source(q, v, span))
                .with(touched_access(q, *array, e, span)),
        ),
        Stmt::Combine(_, array, _, e, v) => Ok(
            touched_expr(q, e, span)
                .with(touched_expr(q, v, span))
                .with(touched_access(q, *array, e, span)),
        ),
        Stmt::Print(e) => Ok(touched_expr(q, e, span)),
        Stmt::Block(all) => touched_all(q, all, span),
        Stmt::Loop(bounds, body) => {
            if bounds.first >= bounds.end {
                return Ok(Touched::Nothing);
            }
            touched_turns(q, *bounds, body, span)
        }
        Stmt::If(c, first, second) => {
            let condition = touched_expr(q, c, span);
            let branch = touched_all(q, first, span)?;
            let other = touched_all(q, second, span)?;
            Ok(condition.with(branch).with(other))
        }
    }
}

/// Where the cells of the array lie that statements touch, with all of these values of the loops around.
#[cycle(touched)]
pub fn touched_all(q: Asked, all: &[Stmt], span: &mut Span) -> Result<Touched, AllocError>
    requires level { q.level < length span.old.lows.items }
    ensures lows { IfOk result (λ h. span.new.lows.items ≡ span.old.lows.items) }
    ensures highs { IfOk result (λ h. span.new.highs.items ≡ span.old.highs.items) }
    ensures holds { IfOk result (λ h. Holds q span.old.lows.items span.old.highs.items h (list_touches all.now)) }
{
    let mut touched = Touched::Nothing;
    for s in all {
        touched = touched.with(touched_stmt(q, s, span)?);
    }
    Ok(touched)
}

// The turns of a loop.
#[cycle(touched)]
fn touched_turns(
    q: Asked,
    bounds: Bounds,
    body: &[Stmt],
    span: &mut Span,
) -> Result<Touched, AllocError>
    requires some { bounds.first < bounds.end }
    requires level { q.level < length span.old.lows.items }
    ensures lows { IfOk result (λ h. span.new.lows.items ≡ span.old.lows.items) }
    ensures highs { IfOk result (λ h. span.new.highs.items ≡ span.old.highs.items) }
    ensures holds { IfOk result (λ h. Holds q span.old.lows.items span.old.highs.items h (turns_from bounds.first bounds body.now)) }
{
    span.push(bounds.first, bounds.end - 1)?;
    let touched = touched_all(q, body, span)?;
    span.pop();
    Ok(touched)
}
