// About how many operations statements take.

use base::tree::{Expr, Source, Stmt};

fn of_expr(e: &Expr) -> u64 {
    match e {
        Expr::Number(_) | Expr::Scalar(_) | Expr::LoopName(_) => 0,
        Expr::Cell(_, _, a) | Expr::Unary(_, a) | Expr::Shift(_, a, _) | Expr::Divide(_, a, _) => {
            of_expr(a).saturating_add(1)
        }
        Expr::Binary(_, a, b) | Expr::And(a, b) | Expr::Or(a, b) => {
            of_expr(a).saturating_add(of_expr(b)).saturating_add(1)
        }
    }
}

fn of_source(v: &Source) -> u64 {
    match v {
        Source::Value(e) => of_expr(e),
        Source::Read => 1,
    }
}

#[cycle(operations)]
fn of_stmt(s: &Stmt) -> u64 {
    match s {
        Stmt::Declare(_, v) | Stmt::Assign(_, v) => of_source(v).saturating_add(1),
        Stmt::Store(_, _, e, v) => of_expr(e).saturating_add(of_source(v)).saturating_add(1),
        Stmt::Combine(_, _, _, e, v) => of_expr(e).saturating_add(of_expr(v)).saturating_add(1),
        Stmt::Print(e) => of_expr(e).saturating_add(1),
        Stmt::Block(all) => operations(all),
        Stmt::Loop(bounds, body) => bounds
            .turns()
            .saturating_mul(operations(body).saturating_add(1)),
        Stmt::If(c, first, second) => {
            let branches = operations(first).saturating_add(operations(second));
            of_expr(c).saturating_add(branches).saturating_add(1)
        }
    }
}

/// The operators and assignments of statements, as often as they are done, and of a choice those of both branches.
#[cycle(operations)]
pub fn operations(all: &[Stmt]) -> u64 {
    let mut sum = 0u64;
    for s in all {
        sum = sum.saturating_add(of_stmt(s));
    }
    sum
}
