// What C makes of an expression that names nothing.

ghost use Rattle.std.specs.Prelude.{◌≡◌, ◌<◌, ◌≤◌, ◌^◌, IsTrue, Option, Some, not, option_and_then, option_map, pos};
ghost use Rattle.base.specs.Value.{Names, flag};
ghost use Rattle.c_meaning.specs.Types.{CValue, as_int, in_signed, literal_type};
ghost use Rattle.c_meaning.specs.Values.{c_and, c_binary, c_divide, c_or, c_shift, c_unary, c_value, is_false, result_type, shift_in, signed_binary, signed_divide};
ghost use Rattle.c_meaning.specs.Constants.{IsDecided, IsSigned, Says, names_nothing, signed_value};

use crate::shape::{CType, common, has_literal_type, literal_type, width};
use base::tree::{BinaryOp, DivideOp, Divisor, Expr, ShiftCount, ShiftOp, UnaryOp};

/// What C makes of an expression.
#[derive(Clone, Copy)]
pub enum Constant {
    /// This value, of type `int` or `long`.
    Known(CType, i64),
    /// It is undefined.
    Undefined,
    /// It may depend on what the expression names.
    Unknown,
}

/// What C makes of an expression, whatever its names stand for.
pub fn constant_of(e: &Expr) -> Constant
    ensures value { (names : Names) → Says result (c_value e.now names) }
    ensures decided { IsTrue (names_nothing e.now) → IsDecided result }
{
    match e {
        Expr::Number(n) => of_literal(*n),
        Expr::Scalar(_) | Expr::LoopName(_) | Expr::Cell(_, _, _) => Constant::Unknown,
        Expr::Unary(op, a) => of_unary(*op, constant_of(a)),
        Expr::Binary(op, a, b) => of_binary(*op, constant_of(a), constant_of(b)),
        Expr::And(a, b) => of_and(constant_of(a), constant_of(b)),
        Expr::Or(a, b) => of_or(constant_of(a), constant_of(b)),
        Expr::Shift(op, a, n) => of_shift(*op, constant_of(a), *n),
        Expr::Divide(op, a, n) => of_divide(*op, constant_of(a), *n),
    }
}

fn of_number(t: CType, n: i64) -> Constant
    ensures value { Says result (in_signed t n) }
    ensures decided { IsSigned t → IsDecided result }
{
    match t {
        CType::Int if n < -2147483648 || n > 2147483647 => Constant::Undefined,
        CType::Int | CType::Long => Constant::Known(t, n),
        CType::Unsigned => Constant::Unknown,
    }
}

fn of_literal(n: u64) -> Constant
    ensures value { Says result (in_signed (literal_type n) (pos n)) }
    ensures decided { IsDecided result }
{
    if has_literal_type(n) {
        of_number(literal_type(n), n as i64)
    } else {
        Constant::Undefined
    }
}

fn of_flag(b: bool) -> Constant
    ensures value { Says result (in_signed CType.Int (pos (flag b))) }
    ensures decided { IsDecided result }
{
    Constant::Known(CType::Int, i64::from(b))
}

// A result of 64 bits, or one that passes them.
#[tactic(auto, using(crate::proofs::Signed::passes_both))]
fn of_sum(t: CType, x: i64, y: i64) -> Constant
    requires { IsSigned t }
    ensures value { Says result (in_signed t (signed_binary BinaryOp.Add x y)) }
    ensures decided { IsDecided result }
{
    match x.checked_add(y) {
        Some(n) => of_number(t, n),
        None => Constant::Undefined,
    }
}

#[tactic(auto, using(crate::proofs::Signed::passes_both))]
fn of_difference(t: CType, x: i64, y: i64) -> Constant
    requires { IsSigned t }
    ensures value { Says result (in_signed t (signed_binary BinaryOp.Subtract x y)) }
    ensures decided { IsDecided result }
{
    match x.checked_sub(y) {
        Some(n) => of_number(t, n),
        None => Constant::Undefined,
    }
}

#[tactic(auto, using(crate::proofs::Signed::passes_both))]
fn of_product(t: CType, x: i64, y: i64) -> Constant
    requires { IsSigned t }
    ensures value { Says result (in_signed t (signed_binary BinaryOp.Multiply x y)) }
    ensures decided { IsDecided result }
{
    match x.checked_mul(y) {
        Some(n) => of_number(t, n),
        None => Constant::Undefined,
    }
}

fn in_type(t: CType, op: BinaryOp, x: i64, y: i64) -> Constant
    requires { IsSigned t }
    ensures value { Says result (in_signed (result_type op t) (signed_binary op x y)) }
    ensures decided { IsDecided result }
{
    match op {
        BinaryOp::BitOr => of_number(t, x | y),
        BinaryOp::BitXor => of_number(t, x ^ y),
        BinaryOp::BitAnd => of_number(t, x & y),
        BinaryOp::Equal => of_flag(x <= y && y <= x),
        BinaryOp::NotEqual => of_flag(!(x <= y && y <= x)),
        BinaryOp::Less => of_flag(x < y),
        BinaryOp::LessOrEqual => of_flag(x <= y),
        BinaryOp::Greater => of_flag(y < x),
        BinaryOp::GreaterOrEqual => of_flag(y <= x),
        BinaryOp::Add => of_sum(t, x, y),
        BinaryOp::Subtract => of_difference(t, x, y),
        BinaryOp::Multiply => of_product(t, x, y),
    }
}

fn of_both(op: BinaryOp, s: CType, x: i64, t: CType, y: i64) -> Constant
    ensures value { Says result (c_binary op (signed_value s x) (signed_value t y)) }
    ensures decided { IsSigned s → IsSigned t → IsDecided result }
{
    match common(s, t) {
        CType::Int => in_type(CType::Int, op, x, y),
        CType::Long => in_type(CType::Long, op, x, y),
        CType::Unsigned => Constant::Unknown,
    }
}

fn of_binary(op: BinaryOp, a: Constant, b: Constant) -> Constant
    ensures value { (v w : Option CValue) → Says a v → Says b w →
        Says result (option_and_then (λ v. option_and_then (c_binary op v) w) v) }
    ensures decided { IsDecided a → IsDecided b → IsDecided result }
{
    match (a, b) {
        (Constant::Undefined, _) | (_, Constant::Undefined) => Constant::Undefined,
        (Constant::Known(s, x), Constant::Known(t, y)) => of_both(op, s, x, t, y),
        (Constant::Unknown, _) | (_, Constant::Unknown) => Constant::Unknown,
    }
}

fn of_one(op: UnaryOp, t: CType, x: i64) -> Constant
    ensures value { Says result (Some (c_unary op (signed_value t x))) }
    ensures decided { IsSigned t → IsDecided result }
{
    match (op, t) {
        (UnaryOp::Not, _) => Constant::Known(CType::Int, i64::from(x == 0)),
        (UnaryOp::Complement, CType::Unsigned) => Constant::Unknown,
        (UnaryOp::Complement, _) => Constant::Known(t, -1 - x),
    }
}

fn of_unary(op: UnaryOp, a: Constant) -> Constant
    ensures value { (v : Option CValue) → Says a v → Says result (option_map (c_unary op) v) }
    ensures decided { IsDecided a → IsDecided result }
{
    match a {
        Constant::Known(t, x) => of_one(op, t, x),
        Constant::Undefined => Constant::Undefined,
        Constant::Unknown => Constant::Unknown,
    }
}

fn of_test(b: Constant) -> Constant
    ensures value { (w : Option CValue) → Says b w → Says result (option_map (λ w. as_int (not (is_false w))) w) }
    ensures decided { IsDecided b → IsDecided result }
{
    match b {
        Constant::Known(_, y) => Constant::Known(CType::Int, i64::from(y != 0)),
        Constant::Undefined => Constant::Undefined,
        Constant::Unknown => Constant::Unknown,
    }
}

fn of_and(a: Constant, b: Constant) -> Constant
    ensures value { (v w : Option CValue) → Says a v → Says b w → Says result (c_and v w) }
    ensures decided { IsDecided a → IsDecided b → IsDecided result }
{
    match a {
        Constant::Known(_, 0) => Constant::Known(CType::Int, 0),
        Constant::Known(_, _) => of_test(b),
        Constant::Undefined => Constant::Undefined,
        Constant::Unknown => Constant::Unknown,
    }
}

fn of_or(a: Constant, b: Constant) -> Constant
    ensures value { (v w : Option CValue) → Says a v → Says b w → Says result (c_or v w) }
    ensures decided { IsDecided a → IsDecided b → IsDecided result }
{
    match a {
        Constant::Known(_, 0) => of_test(b),
        Constant::Known(_, _) => Constant::Known(CType::Int, 1),
        Constant::Undefined => Constant::Undefined,
        Constant::Unknown => Constant::Unknown,
    }
}

// A shift by less than the width.
fn shifted(op: ShiftOp, t: CType, x: i64, n: ShiftCount) -> Constant
    requires { IsSigned t }
    ensures value { Says result (shift_in t op (signed_value t x) n.count) }
    ensures decided { IsDecided result }
{
    if x < 0 {
        return Constant::Undefined;
    }
    match op {
        ShiftOp::Left => match (x as u64).checked_mul(1 << n.count) {
            Some(m) if has_literal_type(m) => of_number(t, m as i64),
            _ => Constant::Undefined,
        },
        ShiftOp::Right => of_number(t, x >> n.count),
    }
}

fn shift_one(op: ShiftOp, t: CType, x: i64, n: ShiftCount) -> Constant
    ensures value { Says result (c_shift op n.count (signed_value t x)) }
    ensures decided { IsSigned t → IsDecided result }
{
    if n.count >= width(t) {
        return Constant::Undefined;
    }
    match t {
        CType::Int => shifted(op, CType::Int, x, n),
        CType::Long => shifted(op, CType::Long, x, n),
        CType::Unsigned => Constant::Unknown,
    }
}

fn of_shift(op: ShiftOp, a: Constant, n: ShiftCount) -> Constant
    ensures value { (v : Option CValue) → Says a v → Says result (option_and_then (c_shift op n.count) v) }
    ensures decided { IsDecided a → IsDecided result }
{
    match a {
        Constant::Known(t, x) => shift_one(op, t, x, n),
        Constant::Undefined => Constant::Undefined,
        Constant::Unknown => Constant::Unknown,
    }
}

fn quotient_or_rest(op: DivideOp, x: i64, n: u64) -> i64
    requires positive { 1 ≤ n }
    requires small { n < 2 ^ 63 }
    ensures { result ≡ signed_divide op x (pos n) }
{
    let y = n as i64;
    match op {
        DivideOp::Quotient => x / y,
        DivideOp::Remainder => x % y,
    }
}

fn divide_one(op: DivideOp, t: CType, x: i64, n: Divisor) -> Constant
    ensures value { Says result (c_divide op n.value (signed_value t x)) }
    ensures decided { IsSigned t → IsDecided result }
{
    if !has_literal_type(n.value) {
        return Constant::Undefined;
    }
    match common(t, literal_type(n.value)) {
        CType::Int => of_number(CType::Int, quotient_or_rest(op, x, n.value)),
        CType::Long => of_number(CType::Long, quotient_or_rest(op, x, n.value)),
        CType::Unsigned => Constant::Unknown,
    }
}

fn of_divide(op: DivideOp, a: Constant, n: Divisor) -> Constant
    ensures value { (v : Option CValue) → Says a v → Says result (option_and_then (c_divide op n.value) v) }
    ensures decided { IsDecided a → IsDecided result }
{
    match a {
        Constant::Known(t, x) => divide_one(op, t, x, n),
        Constant::Undefined => Constant::Undefined,
        Constant::Unknown => Constant::Unknown,
    }
}
