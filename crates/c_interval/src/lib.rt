//! What is known of an expression before the program runs.
#![tactic(auto)]

ghost use Rattle.std.specs.Prelude.{◌≡◌, ◌≤◌, ◌^◌, ◌*◌};
ghost use Rattle.base.specs.Value.{binary as value_of_both};
ghost use Rattle.base.specs.Interval.{if_single, interval, interval_product, interval_unary, interval_binary, interval_shift, interval_divide, known, exactly, full};

use base::fault::Interval;
use base::tree::{BinaryOp, DivideOp, Divisor, Expr, ShiftCount, ShiftOp, UnaryOp};

/// The interval of an expression, given the values of the loops around it, the outermost first. A loop name
/// beyond them counts as 0.
pub fn interval(e: &Expr, loops: &[u64]) -> Interval
    ensures value { result ≡ interval e.now loops.now }
    ensures in_order { result.lo ≤ result.hi }
{
    match e {
        Expr::Number(n) => single(*n),
        Expr::Scalar(_) | Expr::Cell(_, _, _) => anything(),
        Expr::LoopName(level) => single(loops.get(*level as usize).copied().unwrap_or(0)),
        Expr::Unary(op, a) => of_one(*op, interval(a, loops)),
        Expr::Binary(op, a, b) => of_both(*op, interval(a, loops), interval(b, loops)),
        Expr::And(a, b) => {
            let x = interval(a, loops);
            let y = interval(b, loops);
            tested(x.lo >= 1 && y.lo >= 1, x.hi == 0 || y.hi == 0)
        }
        Expr::Or(a, b) => {
            let x = interval(a, loops);
            let y = interval(b, loops);
            tested(x.lo >= 1 || y.lo >= 1, x.hi == 0 && y.hi == 0)
        }
        Expr::Shift(op, a, n) => of_shift(*op, interval(a, loops), *n),
        Expr::Divide(op, a, n) => of_division(*op, interval(a, loops), *n),
    }
}

fn single(n: u64) -> Interval
    ensures value { result ≡ exactly n }
    ensures in_order { result.lo ≤ result.hi }
{
    Interval { lo: n, hi: n }
}

fn anything() -> Interval
    ensures value { result ≡ full }
    ensures in_order { result.lo ≤ result.hi }
{
    Interval {
        lo: 0,
        hi: u64::MAX,
    }
}

fn tested(holds: bool, fails: bool) -> Interval
    ensures value { result ≡ known holds fails }
    ensures in_order { result.lo ≤ result.hi }
{
    if holds {
        single(1)
    } else if fails {
        single(0)
    } else {
        Interval { lo: 0, hi: 1 }
    }
}

fn of_one(op: UnaryOp, a: Interval) -> Interval
    requires { a.lo ≤ a.hi }
    ensures value { result ≡ interval_unary op a }
    ensures in_order { result.lo ≤ result.hi }
{
    match op {
        UnaryOp::Not => tested(a.hi == 0, a.lo >= 1),
        UnaryOp::Complement => Interval {
            lo: u64::MAX - a.hi,
            hi: u64::MAX - a.lo,
        },
    }
}

/// The operator's value where both operands are single.
fn both_single(op: BinaryOp, a: Interval, b: Interval, other: Interval) -> Interval
    requires { other.lo ≤ other.hi }
    ensures value { result ≡ if_single op a b other }
    ensures in_order { result.lo ≤ result.hi }
{
    if a.lo == a.hi && b.lo == b.hi {
        single(value_of(op, a.lo, b.lo))
    } else {
        other
    }
}

fn value_of(op: BinaryOp, a: u64, b: u64) -> u64
    ensures { result ≡ value_of_both op a b }
{
    match op {
        BinaryOp::BitOr => a | b,
        BinaryOp::BitXor => a ^ b,
        BinaryOp::BitAnd => a & b,
        BinaryOp::Equal => u64::from(a == b),
        BinaryOp::NotEqual => u64::from(a != b),
        BinaryOp::Less => u64::from(a < b),
        BinaryOp::LessOrEqual => u64::from(a <= b),
        BinaryOp::Greater => u64::from(a > b),
        BinaryOp::GreaterOrEqual => u64::from(a >= b),
        BinaryOp::Add => a.wrapping_add(b),
        BinaryOp::Subtract => a.wrapping_sub(b),
        BinaryOp::Multiply => a.wrapping_mul(b),
    }
}

fn sum(a: Interval, b: Interval) -> Interval
    requires a_in_order { a.lo ≤ a.hi }
    requires b_in_order { b.lo ≤ b.hi }
    ensures value { result ≡ interval_binary BinaryOp.Add a b }
    ensures in_order { result.lo ≤ result.hi }
{
    match a.hi.checked_add(b.hi) {
        Some(hi) => Interval {
            lo: a.lo + b.lo,
            hi,
        },
        None => both_single(BinaryOp::Add, a, b, anything()),
    }
}

fn difference(a: Interval, b: Interval) -> Interval
    requires a_in_order { a.lo ≤ a.hi }
    requires b_in_order { b.lo ≤ b.hi }
    ensures value { result ≡ interval_binary BinaryOp.Subtract a b }
    ensures in_order { result.lo ≤ result.hi }
{
    if b.hi <= a.lo {
        Interval {
            lo: a.lo - b.hi,
            hi: a.hi - b.lo,
        }
    } else {
        both_single(BinaryOp::Subtract, a, b, anything())
    }
}

fn product(a: Interval, b: Interval) -> Interval
    requires a_in_order { a.lo ≤ a.hi }
    requires b_in_order { b.lo ≤ b.hi }
    ensures value { result ≡ interval_product a b }
    ensures in_order { result.lo ≤ result.hi }
{
    match a.hi.checked_mul(b.hi) {
        Some(hi) => Interval {
            lo: a.lo * b.lo,
            hi,
        },
        None => both_single(BinaryOp::Multiply, a, b, anything()),
    }
}

fn of_bits(op: BinaryOp, a: Interval, b: Interval) -> Interval
    ensures value { result ≡ if_single op a b full }
    ensures in_order { result.lo ≤ result.hi }
{
    both_single(op, a, b, anything())
}

fn of_both(op: BinaryOp, a: Interval, b: Interval) -> Interval
    requires a_in_order { a.lo ≤ a.hi }
    requires b_in_order { b.lo ≤ b.hi }
    ensures value { result ≡ interval_binary op a b }
    ensures in_order { result.lo ≤ result.hi }
{
    match op {
        BinaryOp::Add => sum(a, b),
        BinaryOp::Subtract => difference(a, b),
        BinaryOp::Multiply => product(a, b),
        BinaryOp::BitAnd => {
            let other = Interval {
                lo: 0,
                hi: a.hi.min(b.hi),
            };
            both_single(BinaryOp::BitAnd, a, b, other)
        }
        BinaryOp::BitOr | BinaryOp::BitXor => of_bits(op, a, b),
        BinaryOp::Less => tested(a.hi < b.lo, b.hi <= a.lo),
        BinaryOp::LessOrEqual => tested(a.hi <= b.lo, b.hi < a.lo),
        BinaryOp::Greater => tested(b.hi < a.lo, a.hi <= b.lo),
        BinaryOp::GreaterOrEqual => tested(b.hi <= a.lo, a.hi < b.lo),
        BinaryOp::Equal => tested(are_same(a, b), are_apart(a, b)),
        BinaryOp::NotEqual => tested(are_apart(a, b), are_same(a, b)),
    }
}

fn are_same(a: Interval, b: Interval) -> bool
    ensures { result ≡ Rattle.base.specs.Interval.are_same a b }
{
    a.lo == a.hi && b.lo == b.hi && a.lo == b.lo
}

fn are_apart(a: Interval, b: Interval) -> bool
    ensures { result ≡ Rattle.base.specs.Interval.are_apart a b }
{
    a.hi < b.lo || b.hi < a.lo
}

fn of_shift(op: ShiftOp, a: Interval, n: ShiftCount) -> Interval
    requires { a.lo ≤ a.hi }
    ensures value { result ≡ interval_shift op a n.count }
    ensures in_order { result.lo ≤ result.hi }
{
    match op {
        ShiftOp::Left => product(a, single(1 << n.count)),
        ShiftOp::Right => Interval {
            lo: a.lo >> n.count,
            hi: a.hi >> n.count,
        },
    }
}

fn of_division(op: DivideOp, a: Interval, n: Divisor) -> Interval
    requires { a.lo ≤ a.hi }
    ensures value { result ≡ interval_divide op a n.value }
    ensures in_order { result.lo ≤ result.hi }
{
    let (low, high) = (a.lo / n.value, a.hi / n.value);
    match op {
        DivideOp::Quotient => Interval { lo: low, hi: high },
        DivideOp::Remainder if low == high => Interval {
            lo: a.lo % n.value,
            hi: a.hi % n.value,
        },
        DivideOp::Remainder => Interval {
            lo: 0,
            hi: n.value - 1,
        },
    }
}
