// After how many turns of a loop the conditions in it are as before.

ghost use Rattle.std.specs.Prelude.{◌≤◌, IfSome};

use base::tree::{DivideOp, Expr, Stmt};

// No more turns than this are tried.
const MOST_TURNS: u64 = 64;

// The least multiple of a number that another one divides, or a greater number than is tried.
fn common(m: u64, n: u64) -> u64
    requires some { 1 ≤ m }
    requires other { 1 ≤ n }
    ensures { 1 ≤ result }
{
    if m > MOST_TURNS {
        return m;
    }
    for k in 1..MOST_TURNS + 1 {
        if (m * k) % n == 0 {
            return m * k;
        }
    }
    MOST_TURNS + 1
}

// The same of the divisors of an expression.
fn period_of(e: &Expr, m: u64) -> u64
    requires { 1 ≤ m }
    ensures { 1 ≤ result }
{
    match e {
        Expr::Number(_) | Expr::Scalar(_) | Expr::LoopName(_) | Expr::Cell(_, _, _) => m,
        Expr::Divide(DivideOp::Remainder, a, n) => common(period_of(a, m), n.value),
        Expr::Unary(_, a) | Expr::Shift(_, a, _) | Expr::Divide(_, a, _) => period_of(a, m),
        Expr::Binary(_, a, b) | Expr::And(a, b) | Expr::Or(a, b) => period_of(b, period_of(a, m)),
    }
}

#[cycle(period)]
fn period_in(s: &Stmt, m: u64) -> u64
    requires { 1 ≤ m }
    ensures { 1 ≤ result }
{
    match s {
        Stmt::Declare(_, _)
        | Stmt::Assign(_, _)
        | Stmt::Store(_, _, _, _)
        | Stmt::Combine(_, _, _, _, _)
        | Stmt::Print(_)
        | Stmt::Loop(_, _) => m,
        Stmt::Block(all) => period_in_all(all, m),
        Stmt::If(c, first, second) => period_in_all(second, period_in_all(first, period_of(c, m))),
    }
}

#[cycle(period)]
fn period_in_all(all: &[Stmt], m: u64) -> u64
    requires { 1 ≤ m }
    ensures { 1 ≤ result }
{
    let mut period = m;
    for s in all {
        period = period_in(s, period);
    }
    period
}

/// After how many turns of a loop over these statements it is tried whether the conditions in them are as before: a number
/// that each divisor of a rest in them divides. None where that is a great one.
pub fn period(all: &[Stmt]) -> Option<u64>
    ensures { IfSome result (λ turns. 1 ≤ turns) }
{
    let turns = period_in_all(all, 1);
    if turns > MOST_TURNS {
        return None;
    }
    Some(turns)
}
