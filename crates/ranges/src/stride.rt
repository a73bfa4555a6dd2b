// By how many cells a subscript moves on with the name of one of the loops around it.

ghost use Rattle.std.specs.Prelude.{◌≡◌, ◌≤◌, ◌*◌, ℕ, IfSome, IsTrue};
ghost use Rattle.ranges.specs.Spans.{IsPart};
ghost use Rattle.ranges.specs.Strides.{IsExact, IsWithin, Strides};

use crate::bound::{at, bound};
use base::fault::Interval;
use base::tree::{BinaryOp, Bounds, Expr};

/// Where cells lie by the name of a loop: as far as that is ahead of its first value, `by` times as far are they ahead of
/// those from `lo` up to `hi`, but for a multiple of some modulus.
#[derive(Clone, Copy)]
pub struct Stride {
    pub by: u64,
    pub lo: u64,
    pub hi: u64,
}

impl Stride {
    ghost use Rattle.std.specs.Prelude.{◌≡◌, ◌+◌, ◌-◌, ◌*◌, ◌^◌, ◌<◌, ◌≤◌, ℕ, IfSome, IsTrue};
    ghost use Rattle.base.specs.declared.fault.Interval.{Interval};
    ghost use Rattle.base.specs.Interval.{exactly, interval_binary};
    ghost use Rattle.ranges.specs.Spans.{IsPart};
    ghost use Rattle.ranges.specs.Strides.{IsWithin, KeepsApart};

    // What does not move on.
    fn still(cells: Interval) -> Stride
        ensures by { result.by ≡ 0 }
        ensures lo { result.lo ≡ cells.lo }
        ensures hi { result.hi ≡ cells.hi }
    {
        Stride {
            by: 0,
            lo: cells.lo,
            hi: cells.hi,
        }
    }

    // Of the loop's name.
    fn name(first: u64) -> Stride
        ensures by { result.by ≡ 1 }
        ensures lo { result.lo ≡ first }
        ensures hi { result.hi ≡ first }
    {
        Stride {
            by: 1,
            lo: first,
            hi: first,
        }
    }

    // Of a sum, where no sum of the two bounds wraps.
    fn plus(self, other: Stride, a: Interval, b: Interval) -> Option<Stride>
        ensures { IfSome result (λ w. (m s : ℕ) (x y : Interval) → IsPart x a → IsPart y b → IsWithin m self s x → IsWithin m other s y → IsWithin m w s (interval_binary BinaryOp.Add x y)) }
    {
        a.hi.checked_add(b.hi)?;
        Some(Stride {
            by: self.by.checked_add(other.by)?,
            lo: self.lo.checked_add(other.lo)?,
            hi: self.hi.checked_add(other.hi)?,
        })
    }

    // Of a difference with a number in these bounds.
    fn minus(self, b: Interval) -> Option<Stride>
        ensures { IfSome result (λ w. (m s : ℕ) (x y : Interval) → IsPart y b → IsWithin m self s x → IsWithin m w s (interval_binary BinaryOp.Subtract x y)) }
    {
        Some(Stride {
            by: self.by,
            lo: self.lo.checked_sub(b.hi)?,
            hi: self.hi.checked_sub(b.lo)?,
        })
    }

    // Of a product with a number, where that of the bound does not wrap.
    fn times(self, a: Interval, n: u64) -> Option<Stride>
        ensures left { IfSome result (λ w. (m s : ℕ) (x y : Interval) → IsPart x a → IsPart y (exactly n) → IsWithin m self s x → IsWithin (n * m) w s (interval_binary BinaryOp.Multiply x y)) }
        ensures right { IfSome result (λ w. (m s : ℕ) (x y : Interval) → IsPart x a → IsPart y (exactly n) → IsWithin m self s x → IsWithin (n * m) w s (interval_binary BinaryOp.Multiply y x)) }
    {
        a.hi.checked_mul(n)?;
        Some(Stride {
            by: self.by.checked_mul(n)?,
            lo: self.lo.checked_mul(n)?,
            hi: self.hi.checked_mul(n)?,
        })
    }

    /// Whether where the loop's name differs the cells do.
    pub fn keeps_apart(self, modulus: u64, bounds: Bounds) -> bool
        ensures { IsTrue result → KeepsApart modulus self bounds }
    {
        match self.hi.checked_sub(self.lo) {
            Some(width) => {
                width < self.by.saturating_mul(bounds.step)
                    && (modulus == 0 || self.reach(width, bounds) < modulus)
            }
            None => false,
        }
    }

    // How far its first cell and its last one are apart.
    fn reach(self, width: u64, bounds: Bounds) -> u64
        ensures { result < 2 ^ 64 - 1 → width + self.by * (bounds.end - 1 - bounds.first) ≤ result }
    {
        let last = bounds.end.saturating_sub(1).saturating_sub(bounds.first);
        width.saturating_add(self.by.saturating_mul(last))
    }
}

// Whether an expression is one number with all values of the loops.
fn is_exact(e: &Expr) -> bool
    ensures { IsTrue result → IsExact e.now }
{
    match e {
        Expr::Number(_) | Expr::LoopName(_) => true,
        Expr::Binary(BinaryOp::Add | BinaryOp::Subtract | BinaryOp::Multiply, a, b) => {
            is_exact(a) && is_exact(b)
        }
        _ => false,
    }
}

// What is left of a modulus in a factor beside this number: 0, which stands for none, where it is no multiple of it.
fn factor(modulus: u64, n: u64) -> u64
    ensures { (w : Stride) (s : ℕ) (x : Interval) → IsWithin (n * result) w s x → IsWithin modulus w s x }
{
    if n > 0 && modulus % n == 0 {
        modulus / n
    } else {
        0
    }
}

/// Where an expression lies by the name of the loop at this level, with all values of the loops from these least up to
/// these greatest ones, but for a multiple of the modulus, which is 0 where there is none. None is found of some
/// expressions: of scalars, of cells, and of what may wrap.
pub fn stride_of(
    e: &Expr,
    modulus: u64,
    level: usize,
    lows: &[u64],
    highs: &[u64],
) -> Option<Stride>
    ensures { IfSome result (Strides modulus level lows.now highs.now e.now) }
{
    if modulus == 1 && is_exact(e) {
        return Some(Stride::still(Interval { lo: 0, hi: 0 }));
    }
    match e {
        Expr::LoopName(own) if *own as usize == level => Some(Stride::name(at(lows, *own))),
        Expr::Binary(op, a, b) => {
            let (x, y) = (bound(a, lows, highs)?, bound(b, lows, highs)?);
            match op {
                BinaryOp::Add => {
                    let moved = stride_of(b, modulus, level, lows, highs)?;
                    stride_of(a, modulus, level, lows, highs)?.plus(moved, x, y)
                }
                BinaryOp::Subtract => stride_of(a, modulus, level, lows, highs)?.minus(y),
                BinaryOp::Multiply if y.lo == y.hi => {
                    stride_of(a, factor(modulus, y.lo), level, lows, highs)?.times(x, y.lo)
                }
                BinaryOp::Multiply if x.lo == x.hi => {
                    stride_of(b, factor(modulus, x.lo), level, lows, highs)?.times(y, x.lo)
                }
                _ => None,
            }
        }
        _ => Some(Stride::still(bound(e, lows, highs)?)),
    }
}
