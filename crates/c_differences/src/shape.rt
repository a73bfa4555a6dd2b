// The type of an expression in C with the bounds of its value, and what is told where its type may not hold it.

use crate::difference::{InC, Reason};
use crate::literal::Type;
use base::tree::{BinaryOp, DivideOp, Divisor, ShiftCount, ShiftOp, UnaryOp};

/// What is known of an expression that is the same in C.
#[derive(Clone, Copy)]
pub struct Shape {
    pub ctype: Type,
    pub lo: u64,
    pub hi: u64,
}

/// What is known of one that may not be.
#[derive(Clone, Copy)]
pub struct Misfit {
    pub reason: Reason,
    pub ctype: Type,
    pub in_c: InC,
    pub here: Option<u64>,
}

/// The result of an operator.
pub type Outcome = Result<Shape, Misfit>;

/// A name, or a cell.
pub fn unsigned() -> Shape {
    Shape {
        ctype: Type::Unsigned,
        lo: 0,
        hi: u64::MAX,
    }
}

/// The name of a loop of the type `int`, from its first number to the one before its end.
pub fn counter(first: u64, end: u64) -> Shape {
    Shape {
        ctype: Type::Int,
        lo: first,
        hi: end.saturating_sub(1).max(first),
    }
}

/// What is 0 or 1.
pub fn flag() -> Shape {
    Shape {
        ctype: Type::Int,
        lo: 0,
        hi: 1,
    }
}

impl Shape {
    /// The value, where it is known.
    pub fn single(self) -> Option<u64> {
        if self.lo == self.hi {
            Some(self.lo)
        } else {
            None
        }
    }
}

// The values of both, where they are known.
fn both(a: Shape, b: Shape) -> Option<(u64, u64)> {
    match (a.single(), b.single()) {
        (Some(a), Some(b)) => Some((a, b)),
        _ => None,
    }
}

// What a type with 32 bits and no sign keeps of a number.
fn low_half(n: u64) -> u64 {
    n & Type::UnsignedInt.greatest()
}

// What C makes of a result above the greatest of its type.
fn above(ctype: Type, here: Option<u64>) -> InC {
    match here {
        None => InC::Unknown,
        Some(n) => {
            if ctype.is_signed() {
                InC::Undefined
            } else {
                InC::Number(low_half(n))
            }
        }
    }
}

// What C makes of the difference of a number from a greater one, or of a complement, by the number that is missing.
fn below(ctype: Type, missing: Option<u64>) -> InC {
    match missing {
        None => InC::Unknown,
        Some(n) => {
            if ctype.is_signed() {
                InC::Negative(n)
            } else {
                InC::Number(low_half(0u64.wrapping_sub(n)))
            }
        }
    }
}

// A result with these bounds, if both are known and its type holds them.
fn within(ctype: Type, bounds: Option<(u64, u64)>) -> Option<Shape> {
    if ctype == Type::Unsigned {
        return Some(unsigned());
    }
    match bounds {
        Some((lo, hi)) if hi <= ctype.greatest() => Some(Shape { ctype, lo, hi }),
        _ => None,
    }
}

/// A number.
pub fn number(ctype: Type, n: u64) -> Outcome {
    within(ctype, Some((n, n))).ok_or(Misfit {
        reason: Reason::Number,
        ctype,
        in_c: above(ctype, Some(n)),
        here: Some(n),
    })
}

fn complement(a: Shape) -> Outcome {
    within(a.ctype, None).ok_or(Misfit {
        reason: Reason::Complement,
        ctype: a.ctype,
        in_c: below(a.ctype, a.single().map(|n| n.saturating_add(1))),
        here: a.single().map(|n| !n),
    })
}

pub fn unary(op: UnaryOp, a: Shape) -> Outcome {
    match op {
        UnaryOp::Not => Ok(flag()),
        UnaryOp::Complement => complement(a),
    }
}

fn sum(a: Shape, b: Shape) -> Option<(u64, u64)> {
    let hi = a.hi.checked_add(b.hi)?;
    Some((a.lo.saturating_add(b.lo), hi))
}

fn product(a: Shape, b: Shape) -> Option<(u64, u64)> {
    let hi = a.hi.checked_mul(b.hi)?;
    Some((a.lo.saturating_mul(b.lo), hi))
}

fn difference(a: Shape, b: Shape) -> Option<(u64, u64)> {
    let lo = a.lo.checked_sub(b.hi)?;
    Some((lo, a.hi.saturating_sub(b.lo)))
}

fn all_bits(a: Shape, b: Shape) -> Option<(u64, u64)> {
    let hi = a.hi.checked_add(b.hi)?;
    Some((0, hi))
}

// The value of both operands, in 64 bits without a sign.
fn value(op: BinaryOp, a: u64, b: u64) -> u64 {
    match op {
        BinaryOp::Add => a.wrapping_add(b),
        BinaryOp::Subtract => a.wrapping_sub(b),
        BinaryOp::Multiply => a.wrapping_mul(b),
        BinaryOp::BitAnd => a & b,
        BinaryOp::BitOr => a | b,
        BinaryOp::BitXor => a ^ b,
        BinaryOp::Equal => (a == b) as u64,
        BinaryOp::NotEqual => (a != b) as u64,
        BinaryOp::Less => (a < b) as u64,
        BinaryOp::LessOrEqual => (a <= b) as u64,
        BinaryOp::Greater => (a > b) as u64,
        BinaryOp::GreaterOrEqual => (a >= b) as u64,
    }
}

// The bounds of what operands give that are not both known.
fn bounds(op: BinaryOp, a: Shape, b: Shape) -> Option<(u64, u64)> {
    match op {
        BinaryOp::Add => sum(a, b),
        BinaryOp::Subtract => difference(a, b),
        BinaryOp::Multiply => product(a, b),
        BinaryOp::BitAnd => Some((0, a.hi.min(b.hi))),
        BinaryOp::BitOr | BinaryOp::BitXor => all_bits(a, b),
        _ => Some((0, 1)),
    }
}

// The bounds of what operands give, where nothing wraps.
fn bounds_of(op: BinaryOp, a: Shape, b: Shape) -> Option<(u64, u64)> {
    match (op, both(a, b)) {
        (BinaryOp::BitAnd | BinaryOp::BitOr | BinaryOp::BitXor, Some((x, y))) => {
            let bits = value(op, x, y);
            Some((bits, bits))
        }
        _ => bounds(op, a, b),
    }
}

fn compares(op: BinaryOp) -> bool {
    matches!(
        op,
        BinaryOp::Equal
            | BinaryOp::NotEqual
            | BinaryOp::Less
            | BinaryOp::LessOrEqual
            | BinaryOp::Greater
            | BinaryOp::GreaterOrEqual
    )
}

// What is told of operands whose result may not be held.
fn misfit_of(op: BinaryOp, ctype: Type, a: Shape, b: Shape) -> Misfit {
    let known = both(a, b);
    let here = known.map(|(x, y)| value(op, x, y));
    if matches!(op, BinaryOp::Subtract) {
        return Misfit {
            reason: Reason::Below,
            ctype,
            in_c: below(ctype, known.map(|(x, y)| y.saturating_sub(x))),
            here,
        };
    }
    Misfit {
        reason: Reason::Above,
        ctype,
        in_c: above(ctype, here),
        here,
    }
}

pub fn binary(op: BinaryOp, a: Shape, b: Shape) -> Outcome {
    if compares(op) {
        return Ok(flag());
    }
    let ctype = a.ctype.common(b.ctype);
    within(ctype, bounds_of(op, a, b)).ok_or(misfit_of(op, ctype, a, b))
}

// The bounds of what is shifted, where nothing is lost.
fn shift_bounds(op: ShiftOp, a: Shape, n: ShiftCount) -> Option<(u64, u64)> {
    match op {
        ShiftOp::Left => {
            let hi = a.hi.checked_mul(1 << n.count)?;
            Some((a.lo << n.count, hi))
        }
        ShiftOp::Right => Some((a.lo >> n.count, a.hi >> n.count)),
    }
}

fn shifted(op: ShiftOp, n: u64, count: ShiftCount) -> u64 {
    match op {
        ShiftOp::Left => n << count.count,
        ShiftOp::Right => n >> count.count,
    }
}

pub fn shift(op: ShiftOp, a: Shape, n: ShiftCount) -> Outcome {
    let here = a.single().map(|x| shifted(op, x, n));
    if n.count >= a.ctype.width() {
        return Err(Misfit {
            reason: Reason::Count,
            ctype: a.ctype,
            in_c: InC::Undefined,
            here,
        });
    }
    within(a.ctype, shift_bounds(op, a, n)).ok_or(Misfit {
        reason: Reason::Above,
        ctype: a.ctype,
        in_c: above(a.ctype, here),
        here,
    })
}

// The bounds of a quotient, or of a remainder.
fn division_bounds(op: DivideOp, a: Shape, n: Divisor) -> (u64, u64) {
    let (low, high) = (a.lo / n.value, a.hi / n.value);
    match op {
        DivideOp::Quotient => (low, high),
        DivideOp::Remainder if low == high => (a.lo % n.value, a.hi % n.value),
        DivideOp::Remainder => (0, n.value - 1),
    }
}

/// By a divisor that has its type.
pub fn division(op: DivideOp, a: Shape, n: Divisor, divisor: Shape) -> Outcome {
    let ctype = a.ctype.common(divisor.ctype);
    within(ctype, Some(division_bounds(op, a, n))).ok_or(Misfit {
        reason: Reason::Other,
        ctype,
        in_c: InC::Unknown,
        here: None,
    })
}
