// What is known of a subscript where the loops around it have values from a least up to a greatest one.

ghost use Rattle.std.specs.Prelude.{◌≡◌, ℕ, List, IfSome, IsTrue};
ghost use Rattle.base.specs.Interval.{interval_binary, interval_divide, interval_shift};
ghost use Rattle.ranges.specs.Spans.{IsBound, IsPart, IsTheSame};

use base::fault::Interval;
use base::tree::{BinaryOp, DivideOp, Divisor, Expr, ShiftCount, ShiftOp};

/// Whether an expression has one interval with all of these values: where each loop name in it, but for those in
/// subscripts, has one value.
pub fn is_the_same(e: &Expr, lows: &[u64], highs: &[u64]) -> bool
    ensures { IsTrue result → IsTheSame lows.now highs.now e.now }
{
    match e {
        Expr::Number(_) | Expr::Scalar(_) | Expr::Cell(_, _, _) => true,
        Expr::LoopName(level) => at(lows, *level) == at(highs, *level),
        Expr::Unary(_, a) | Expr::Shift(_, a, _) | Expr::Divide(_, a, _) => is_the_same(
            a, lows, highs,
        ),
        Expr::Binary(_, a, b) | Expr::And(a, b) | Expr::Or(a, b) => {
            is_the_same(a, lows, highs) && is_the_same(b, lows, highs)
        }
    }
}

/// A loop's value, 0 of one that is not there.
pub fn at(values: &[u64], level: u32) -> u64
    ensures { result ≡ Rattle.std.specs.Prelude.slice_index values.now level }
{
    values.get(level as usize).copied().unwrap_or(0)
}

fn bound_sum(a: Interval, b: Interval) -> Option<Interval>
    ensures { IfSome result (λ r. (x y : Interval) → IsPart x a → IsPart y b → IsPart (interval_binary BinaryOp.Add x y) r) }
{
    Some(Interval {
        lo: a.lo.checked_add(b.lo)?,
        hi: a.hi.checked_add(b.hi)?,
    })
}

fn bound_difference(a: Interval, b: Interval) -> Option<Interval>
    ensures { IfSome result (λ r. (x y : Interval) → IsPart x a → IsPart y b → IsPart (interval_binary BinaryOp.Subtract x y) r) }
{
    Some(Interval {
        lo: a.lo.checked_sub(b.hi)?,
        hi: a.hi.checked_sub(b.lo)?,
    })
}

fn bound_product(a: Interval, b: Interval) -> Option<Interval>
    ensures { IfSome result (λ r. (x y : Interval) → IsPart x a → IsPart y b → IsPart (interval_binary BinaryOp.Multiply x y) r) }
{
    Some(Interval {
        lo: a.lo.checked_mul(b.lo)?,
        hi: a.hi.checked_mul(b.hi)?,
    })
}

// Of bits that both operands have, where one of them has this bound.
fn bound_bits(b: Interval) -> Interval
    ensures left { (x y : Interval) → IsPart x b → IsPart (interval_binary BinaryOp.BitAnd x y) result }
    ensures right { (x y : Interval) → IsPart y b → IsPart (interval_binary BinaryOp.BitAnd x y) result }
{
    Interval { lo: 0, hi: b.hi }
}

fn bound_right(a: Interval, n: ShiftCount) -> Interval
    ensures { (x : Interval) → IsPart x a → IsPart (interval_shift ShiftOp.Right x n.count) result }
{
    Interval {
        lo: a.lo >> n.count,
        hi: a.hi >> n.count,
    }
}

fn bound_left(a: Interval, n: ShiftCount) -> Option<Interval>
    ensures { IfSome result (λ r. (x : Interval) → IsPart x a → IsPart (interval_shift ShiftOp.Left x n.count) r) }
{
    let by = 1 << n.count;
    Some(Interval {
        lo: a.lo.checked_mul(by)?,
        hi: a.hi.checked_mul(by)?,
    })
}

fn bound_quotient(a: Interval, n: Divisor) -> Interval
    ensures { (x : Interval) → IsPart x a → IsPart (interval_divide DivideOp.Quotient x n.value) result }
{
    Interval {
        lo: a.lo / n.value,
        hi: a.hi / n.value,
    }
}

/// An interval of which that of an expression is a part with all of these values. None is found of some expressions:
/// scalars, cells, and sums, differences and products that may wrap.
pub fn bound(e: &Expr, lows: &[u64], highs: &[u64]) -> Option<Interval>
    ensures { IfSome result (IsBound lows.now highs.now e.now) }
{
    match e {
        Expr::Number(n) => Some(Interval { lo: *n, hi: *n }),
        Expr::LoopName(level) => Some(Interval {
            lo: at(lows, *level),
            hi: at(highs, *level),
        }),
        Expr::Binary(BinaryOp::Add, a, b) => {
            bound_sum(bound(a, lows, highs)?, bound(b, lows, highs)?)
        }
        Expr::Binary(BinaryOp::Subtract, a, b) => {
            bound_difference(bound(a, lows, highs)?, bound(b, lows, highs)?)
        }
        Expr::Binary(BinaryOp::Multiply, a, b) => {
            bound_product(bound(a, lows, highs)?, bound(b, lows, highs)?)
        }
        Expr::Binary(BinaryOp::BitAnd, a, b) => {
            match bound(b, lows, highs) {
                Some(mask) => Some(bound_bits(mask)),
                None => Some(bound_bits(bound(a, lows, highs)?)),
            }
        }
        Expr::Shift(ShiftOp::Right, a, n) => Some(bound_right(bound(a, lows, highs)?, *n)),
        Expr::Shift(ShiftOp::Left, a, n) => bound_left(bound(a, lows, highs)?, *n),
        Expr::Divide(DivideOp::Quotient, a, n) => Some(bound_quotient(bound(a, lows, highs)?, *n)),
        Expr::Divide(DivideOp::Remainder, _, n) => Some(Interval {
            lo: 0,
            hi: n.value - 1,
        }),
        _ => None,
    }
}
