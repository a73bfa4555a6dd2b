// The type of an expression in C, and its bounds.

ghost use Rattle.std.specs.Prelude.{◌≡◌, ◌+◌, ◌*◌, ◌<◌, ◌≤◌, ◌&&◌, IfSome, MatchOption, if◌then◌else◌};
ghost use Rattle.base.specs.Interval.{exactly, from_to, full, interval_divide, is_single, most};
ghost use Rattle.c_meaning.specs.Types.{common, greatest, has_literal_type, literal_type, width};
ghost use Rattle.c_meaning.specs.Values.{result_type};
ghost use Rattle.c_meaning.specs.Same.{binary_bounds, binary_shape, divide_shape, flag_bounds, result_shape, shape_of, shift_shape, unary_shape, unsigned_shape};

use base::fault::Interval;
use base::tree::{BinaryOp, DivideOp, Divisor, Expr, ShiftCount, ShiftOp, UnaryOp};

/// A type that an expression of the language has in C. `Unsigned` is `uint64_t`.
#[derive(Clone, Copy, Debug)]
pub enum CType {
    Int,
    Long,
    Unsigned,
}

/// What is certain of an expression that is the same in C. The bounds are those of a signed type: of `uint64_t` they are
/// from 0 to the greatest number.
#[derive(Clone, Copy)]
pub struct Shape {
    pub ctype: CType,
    pub bounds: Interval,
}

/// The type and the bounds of an expression in C, or none where it may not be the same there: where the bounds of a
/// subexpression pass its signed type, a shift count is not below the width, or a literal has no type.
pub fn shape_of(e: &Expr) -> Option<Shape>
    ensures value { result ≡ shape_of e.now }
    ensures in_order { IfSome result (λ s. s.bounds.lo ≤ s.bounds.hi) }
{
    match e {
        Expr::Number(n) => of_result(literal_type(*n), single(*n)),
        Expr::Scalar(_) | Expr::LoopName(_) => Some(unsigned()),
        Expr::Cell(_, _, subscript) => {
            shape_of(subscript)?;
            Some(unsigned())
        }
        Expr::Unary(op, a) => of_one(*op, shape_of(a)?),
        Expr::Binary(op, a, b) => of_both(*op, shape_of(a)?, shape_of(b)?),
        Expr::And(a, b) | Expr::Or(a, b) => {
            shape_of(a)?;
            shape_of(b)?;
            of_result(CType::Int, flag())
        }
        Expr::Shift(op, a, n) => of_shift(*op, shape_of(a)?, *n),
        Expr::Divide(op, a, n) => of_division(*op, shape_of(a)?, *n),
    }
}

/// Whether a literal has a type in C.
pub fn has_literal_type(n: u64) -> bool
    ensures { result ≡ has_literal_type n }
{
    n <= 9223372036854775807
}

/// The type of a literal that has one.
pub fn literal_type(n: u64) -> CType
    ensures { result ≡ literal_type n }
{
    if n <= 2147483647 {
        CType::Int
    } else {
        CType::Long
    }
}

/// The type to which operands of two types are converted.
pub fn common(s: CType, t: CType) -> CType
    ensures { result ≡ common s t }
{
    match (s, t) {
        (CType::Unsigned, _) | (_, CType::Unsigned) => CType::Unsigned,
        (CType::Long, _) | (_, CType::Long) => CType::Long,
        (CType::Int, CType::Int) => CType::Int,
    }
}

/// The type of a result, where the operands have been converted to this one.
pub fn result_type(op: BinaryOp, t: CType) -> CType
    ensures { result ≡ result_type op t }
{
    match op {
        BinaryOp::Equal
        | BinaryOp::NotEqual
        | BinaryOp::Less
        | BinaryOp::LessOrEqual
        | BinaryOp::Greater
        | BinaryOp::GreaterOrEqual => CType::Int,
        BinaryOp::BitOr
        | BinaryOp::BitXor
        | BinaryOp::BitAnd
        | BinaryOp::Add
        | BinaryOp::Subtract
        | BinaryOp::Multiply => t,
    }
}

fn single(n: u64) -> Interval
    ensures { result ≡ exactly n }
{
    Interval { lo: n, hi: n }
}

fn flag() -> Interval
    ensures { result ≡ flag_bounds }
{
    Interval { lo: 0, hi: 1 }
}

fn anything() -> Interval
    ensures { result ≡ full }
{
    Interval {
        lo: 0,
        hi: u64::MAX,
    }
}

fn unsigned() -> Shape
    ensures { result ≡ unsigned_shape }
{
    Shape {
        ctype: CType::Unsigned,
        bounds: anything(),
    }
}

// A result with these bounds.
fn of_result(t: CType, bounds: Interval) -> Option<Shape>
    requires { bounds.lo ≤ bounds.hi }
    ensures value { result ≡ result_shape t bounds }
    ensures in_order { IfSome result (λ s. s.bounds.lo ≤ s.bounds.hi) }
{
    match t {
        CType::Int if bounds.hi <= 2147483647 => Some(Shape { ctype: t, bounds }),
        CType::Long if bounds.hi <= 9223372036854775807 => Some(Shape { ctype: t, bounds }),
        CType::Int | CType::Long => None,
        CType::Unsigned => Some(unsigned()),
    }
}

fn of_one(op: UnaryOp, s: Shape) -> Option<Shape>
    ensures value { result ≡ unary_shape op s }
    ensures in_order { IfSome result (λ s. s.bounds.lo ≤ s.bounds.hi) }
{
    match op {
        UnaryOp::Not => of_result(CType::Int, flag()),
        UnaryOp::Complement => of_result(s.ctype, anything()),
    }
}

// The bounds, where both ends are numbers of the language.
fn sum(a: Interval, b: Interval) -> Option<Interval>
    requires a_in_order { a.lo ≤ a.hi }
    requires b_in_order { b.lo ≤ b.hi }
    ensures { MatchOption result (most < a.hi + b.hi) (λ i. i ≡ from_to (a.lo + b.lo) (a.hi + b.hi)) }
{
    let hi = a.hi.checked_add(b.hi)?;
    Some(Interval {
        lo: a.lo + b.lo,
        hi,
    })
}

fn product(a: Interval, b: Interval) -> Option<Interval>
    requires a_in_order { a.lo ≤ a.hi }
    requires b_in_order { b.lo ≤ b.hi }
    ensures { MatchOption result (most < a.hi * b.hi) (λ i. i ≡ from_to (a.lo * b.lo) (a.hi * b.hi)) }
{
    let hi = a.hi.checked_mul(b.hi)?;
    Some(Interval {
        lo: a.lo * b.lo,
        hi,
    })
}

fn difference(a: Interval, b: Interval) -> Interval
    requires a_in_order { a.lo ≤ a.hi }
    requires b_in_order { b.lo ≤ b.hi }
    ensures value { result ≡ binary_bounds BinaryOp.Subtract a b }
    ensures in_order { result.lo ≤ result.hi }
{
    if a.lo < b.hi {
        return anything();
    }
    Interval {
        lo: a.lo - b.hi,
        hi: a.hi - b.lo,
    }
}

fn both_single(a: Interval, b: Interval) -> bool
    ensures { result ≡ (is_single a && is_single b) }
{
    a.lo == a.hi && b.lo == b.hi
}

// Of both operands' bits the value, where both are known.
fn all_bits(a: Interval, b: Interval, value: u64) -> Option<Interval>
    ensures { MatchOption result (most < (if is_single a && is_single b then exactly value else from_to 0 (a.hi + b.hi)).hi)
        (λ i. i ≡ (if is_single a && is_single b then exactly value else from_to 0 (a.hi + b.hi))) }
{
    if both_single(a, b) {
        return Some(single(value));
    }
    let hi = a.hi.checked_add(b.hi)?;
    Some(Interval { lo: 0, hi })
}

fn common_bits(a: Interval, b: Interval) -> Interval
    ensures value { result ≡ binary_bounds BinaryOp.BitAnd a b }
    ensures in_order { result.lo ≤ result.hi }
{
    if both_single(a, b) {
        single(a.lo & b.lo)
    } else {
        Interval {
            lo: 0,
            hi: a.hi.min(b.hi),
        }
    }
}

// The bounds of a result, where they are numbers of the language.
fn bounds_of(op: BinaryOp, a: Interval, b: Interval) -> Option<Interval>
    requires a_in_order { a.lo ≤ a.hi }
    requires b_in_order { b.lo ≤ b.hi }
    ensures value { MatchOption result (most < (binary_bounds op a b).hi) (λ i. i ≡ binary_bounds op a b) }
    ensures in_order { IfSome result (λ i. i.lo ≤ i.hi) }
{
    match op {
        BinaryOp::Add => sum(a, b),
        BinaryOp::Subtract => Some(difference(a, b)),
        BinaryOp::Multiply => product(a, b),
        BinaryOp::BitAnd => Some(common_bits(a, b)),
        BinaryOp::BitOr => all_bits(a, b, a.lo | b.lo),
        BinaryOp::BitXor => all_bits(a, b, a.lo ^ b.lo),
        BinaryOp::Equal
        | BinaryOp::NotEqual
        | BinaryOp::Less
        | BinaryOp::LessOrEqual
        | BinaryOp::Greater
        | BinaryOp::GreaterOrEqual => Some(flag()),
    }
}

fn of_both(op: BinaryOp, s: Shape, t: Shape) -> Option<Shape>
    requires s_in_order { s.bounds.lo ≤ s.bounds.hi }
    requires t_in_order { t.bounds.lo ≤ t.bounds.hi }
    ensures value { result ≡ binary_shape op s t }
    ensures in_order { IfSome result (λ s. s.bounds.lo ≤ s.bounds.hi) }
{
    of_bounded(
        result_type(op, common(s.ctype, t.ctype)),
        op,
        s.bounds,
        t.bounds,
    )
}

fn of_bounded(t: CType, op: BinaryOp, a: Interval, b: Interval) -> Option<Shape>
    requires a_in_order { a.lo ≤ a.hi }
    requires b_in_order { b.lo ≤ b.hi }
    ensures value { result ≡ result_shape t (binary_bounds op a b) }
    ensures in_order { IfSome result (λ s. s.bounds.lo ≤ s.bounds.hi) }
{
    match t {
        CType::Unsigned => Some(unsigned()),
        CType::Int | CType::Long => of_result(t, bounds_of(op, a, b)?),
    }
}

/// How many bits a type has.
pub fn width(t: CType) -> u8
    ensures { result ≡ width t }
{
    match t {
        CType::Int => 32,
        CType::Long | CType::Unsigned => 64,
    }
}

fn of_shift(op: ShiftOp, s: Shape, n: ShiftCount) -> Option<Shape>
    requires { s.bounds.lo ≤ s.bounds.hi }
    ensures value { result ≡ shift_shape op n.count s }
    ensures in_order { IfSome result (λ s. s.bounds.lo ≤ s.bounds.hi) }
{
    if n.count >= width(s.ctype) {
        return None;
    }
    match (s.ctype, op) {
        (CType::Unsigned, _) => Some(unsigned()),
        (_, ShiftOp::Left) => of_result(s.ctype, product(s.bounds, single(1 << n.count))?),
        (_, ShiftOp::Right) => of_result(
            s.ctype,
            Interval {
                lo: s.bounds.lo >> n.count,
                hi: s.bounds.hi >> n.count,
            },
        ),
    }
}

fn quotient_or_rest(op: DivideOp, a: Interval, n: Divisor) -> Interval
    requires { a.lo ≤ a.hi }
    ensures value { result ≡ interval_divide op a n.value }
    ensures in_order { result.lo ≤ result.hi }
{
    let (low, high) = (a.lo / n.value, a.hi / n.value);
    match op {
        DivideOp::Quotient => Interval { lo: low, hi: high },
        DivideOp::Remainder if low == high => Interval {
            lo: a.lo % n.value,
            hi: a.hi % n.value,
        },
        DivideOp::Remainder => Interval {
            lo: 0,
            hi: n.value - 1,
        },
    }
}

fn of_division(op: DivideOp, s: Shape, n: Divisor) -> Option<Shape>
    requires { s.bounds.lo ≤ s.bounds.hi }
    ensures value { result ≡ divide_shape op n.value s }
    ensures in_order { IfSome result (λ s. s.bounds.lo ≤ s.bounds.hi) }
{
    if !has_literal_type(n.value) {
        return None;
    }
    of_result(
        common(s.ctype, literal_type(n.value)),
        quotient_or_rest(op, s.bounds, n),
    )
}
