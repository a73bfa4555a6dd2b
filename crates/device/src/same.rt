// Whether statements are the same, with their places in the source.

ghost use Rattle.std.specs.Prelude.{◌≡◌};
ghost use Rattle.device.specs.Same.{binary_number, combine_number, divide_number, same_bounds, same_expr, same_list, same_place, same_source, same_stmt, shift_number, unary_number};

use base::tree::{
    BinaryOp, Bounds, CombineOp, DivideOp, Expr, Place, ShiftOp, Source, Stmt, UnaryOp,
};

fn is_same_place(left: Place, right: Place) -> bool
    ensures { result ≡ same_place left right }
{
    left.line == right.line && left.column == right.column
}

fn unary_number(op: UnaryOp) -> u8
    ensures { result ≡ Rattle.device.specs.Same.unary_number op }
{
    match op {
        UnaryOp::Not => 0,
        UnaryOp::Complement => 1,
    }
}

fn binary_number(op: BinaryOp) -> u8
    ensures { result ≡ Rattle.device.specs.Same.binary_number op }
{
    match op {
        BinaryOp::BitOr => 0,
        BinaryOp::BitXor => 1,
        BinaryOp::BitAnd => 2,
        BinaryOp::Equal => 3,
        BinaryOp::NotEqual => 4,
        BinaryOp::Less => 5,
        BinaryOp::LessOrEqual => 6,
        BinaryOp::Greater => 7,
        BinaryOp::GreaterOrEqual => 8,
        BinaryOp::Add => 9,
        BinaryOp::Subtract => 10,
        BinaryOp::Multiply => 11,
    }
}

fn shift_number(op: ShiftOp) -> u8
    ensures { result ≡ Rattle.device.specs.Same.shift_number op }
{
    match op {
        ShiftOp::Left => 0,
        ShiftOp::Right => 1,
    }
}

fn divide_number(op: DivideOp) -> u8
    ensures { result ≡ Rattle.device.specs.Same.divide_number op }
{
    match op {
        DivideOp::Quotient => 0,
        DivideOp::Remainder => 1,
    }
}

fn combine_number(op: CombineOp) -> u8
    ensures { result ≡ Rattle.device.specs.Same.combine_number op }
{
    match op {
        CombineOp::Add => 0,
        CombineOp::Multiply => 1,
        CombineOp::BitAnd => 2,
        CombineOp::BitOr => 3,
        CombineOp::BitXor => 4,
        CombineOp::Min => 5,
        CombineOp::Max => 6,
    }
}

fn is_same_bounds(left: Bounds, right: Bounds) -> bool
    ensures { result ≡ same_bounds left right }
{
    left.first == right.first && (left.end == right.end && left.step == right.step)
}

fn is_same_expr(left: &Expr, right: &Expr) -> bool
    ensures { result ≡ same_expr left.now right.now }
{
    match (left, right) {
        (Expr::Number(m), Expr::Number(n)) => *m == *n,
        (Expr::Scalar(x), Expr::Scalar(y)) => x.0 == y.0,
        (Expr::LoopName(m), Expr::LoopName(n)) => *m == *n,
        (Expr::Cell(x, at, i), Expr::Cell(y, to, j)) => {
            x.0 == y.0 && (is_same_place(*at, *to) && is_same_expr(i, j))
        }
        (Expr::Unary(o, a), Expr::Unary(u, b)) => {
            unary_number(*o) == unary_number(*u) && is_same_expr(a, b)
        }
        (Expr::Binary(o, a, c), Expr::Binary(u, b, d)) => {
            binary_number(*o) == binary_number(*u) && (is_same_expr(a, b) && is_same_expr(c, d))
        }
        (Expr::And(a, c), Expr::And(b, d)) => is_same_expr(a, b) && is_same_expr(c, d),
        (Expr::Or(a, c), Expr::Or(b, d)) => is_same_expr(a, b) && is_same_expr(c, d),
        (Expr::Shift(o, a, m), Expr::Shift(u, b, n)) => {
            shift_number(*o) == shift_number(*u) && (m.count == n.count && is_same_expr(a, b))
        }
        (Expr::Divide(o, a, m), Expr::Divide(u, b, n)) => {
            divide_number(*o) == divide_number(*u) && (m.value == n.value && is_same_expr(a, b))
        }
        _ => false,
    }
}

fn is_same_source(left: &Source, right: &Source) -> bool
    ensures { result ≡ same_source left.now right.now }
{
    match (left, right) {
        (Source::Value(a), Source::Value(b)) => is_same_expr(a, b),
        (Source::Read, Source::Read) => true,
        _ => false,
    }
}

#[cycle(same)]
fn is_same_stmt(left: &Stmt, right: &Stmt) -> bool
    ensures { result ≡ same_stmt left.now right.now }
{
    match (left, right) {
        (Stmt::Declare(x, v), Stmt::Declare(y, w)) => x.0 == y.0 && is_same_source(v, w),
        (Stmt::Assign(x, v), Stmt::Assign(y, w)) => x.0 == y.0 && is_same_source(v, w),
        (Stmt::Store(x, at, i, v), Stmt::Store(y, to, j, w)) => {
            x.0 == y.0 && (is_same_place(*at, *to) && (is_same_expr(i, j) && is_same_source(v, w)))
        }
        (Stmt::Combine(o, x, at, i, v), Stmt::Combine(u, y, to, j, w)) => {
            combine_number(*o) == combine_number(*u)
                && (x.0 == y.0
                    && (is_same_place(*at, *to) && (is_same_expr(i, j) && is_same_expr(v, w))))
        }
        (Stmt::Print(a), Stmt::Print(b)) => is_same_expr(a, b),
        (Stmt::Block(all), Stmt::Block(other)) => is_same_list(all, other),
        (Stmt::Loop(a, all), Stmt::Loop(b, other)) => {
            is_same_bounds(*a, *b) && is_same_list(all, other)
        }
        (Stmt::If(a, all, more), Stmt::If(b, other, rest)) => {
            is_same_expr(a, b) && (is_same_list(all, other) && is_same_list(more, rest))
        }
        _ => false,
    }
}

/// Whether statements are the same.
#[cycle(same)]
pub fn is_same_list(left: &[Stmt], right: &[Stmt]) -> bool
    ensures { result ≡ same_list left.now right.now }
{
    if left.len() != right.len() {
        return false;
    }
    'each: for i in 0..left.len() {
        if !is_same_stmt(&left[i], &right[i]) {
            return false;
        }
    }
    true
}
