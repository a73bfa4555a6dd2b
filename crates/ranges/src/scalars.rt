// Which scalars statements assign, and which have to be there before them.

ghost use Rattle.std.specs.Prelude.{◌≡◌};
ghost use Rattle.std.specs.List.{list_any};
ghost use Rattle.base.specs.ScalarUse as spec;
ghost use Rattle.base.specs.ScalarUse.{list_assigned, list_needs, stmt_assigned};

use base::tree::{Expr, ScalarId, Source, Stmt};

fn expr_reads(x: ScalarId, e: &Expr) -> bool
    ensures { result ≡ spec.expr_reads x.0 e.now }
{
    match e {
        Expr::Number(_) | Expr::LoopName(_) => false,
        Expr::Scalar(y) => x.0 == y.0,
        Expr::Cell(_, _, a) | Expr::Unary(_, a) | Expr::Shift(_, a, _) | Expr::Divide(_, a, _) => {
            expr_reads(x, a)
        }
        Expr::Binary(_, a, b) | Expr::And(a, b) | Expr::Or(a, b) => {
            expr_reads(x, a) || expr_reads(x, b)
        }
    }
}

fn source_reads(x: ScalarId, v: &Source) -> bool
    ensures { result ≡ spec.source_reads x.0 v.now }
{
    match v {
        Source::Value(e) => expr_reads(x, e),
        Source::Read => false,
    }
}

// Whether a statement is an assignment of the scalar.
fn sets(x: ScalarId, s: &Stmt) -> bool
    ensures { result ≡ spec.sets x.0 s.now }
{
    match s {
        Stmt::Declare(y, _) | Stmt::Assign(y, _) => x.0 == y.0,
        _ => false,
    }
}

// Whether a statement may read the scalar where none before, in a row that holds the read, has assigned it.
#[tactic(auto, using(crate::proofs::ScalarLists::needs_Block, crate::proofs::ScalarLists::needs_Loop, crate::proofs::ScalarLists::needs_If))]
#[cycle(needs)]
fn stmt_needs(x: ScalarId, s: &Stmt) -> bool
    ensures { result ≡ spec.stmt_needs x.0 s.now }
{
    match s {
        Stmt::Declare(_, v) | Stmt::Assign(_, v) => source_reads(x, v),
        Stmt::Store(_, _, e, v) => expr_reads(x, e) || source_reads(x, v),
        Stmt::Combine(_, _, _, e, v) => expr_reads(x, e) || expr_reads(x, v),
        Stmt::Print(e) => expr_reads(x, e),
        Stmt::Block(all) => all_need(x, all),
        Stmt::Loop(_, body) => all_need(x, body),
        Stmt::If(c, first, second) => {
            expr_reads(x, c) || (all_need(x, first) || all_need(x, second))
        }
    }
}

// The same of statements in turn.
#[cycle(needs)]
fn all_need(x: ScalarId, all: &[Stmt]) -> bool
    ensures { result ≡ list_needs x.0 all.now }
{
    for s in all {
        if stmt_needs(x, s) {
            return true;
        }
        if sets(x, s) {
            return false;
        }
    }
    false
}

// Whether some scalar that a statement may assign has to be there before the body.
#[tactic(auto, using(crate::proofs::ScalarLists::assigned_Block, crate::proofs::ScalarLists::assigned_Loop, crate::proofs::ScalarLists::given_If))]
#[cycle(gives)]
fn stmt_gives(s: &Stmt, body: &[Stmt]) -> bool
    ensures { result ≡ list_any (λ x. list_needs x body.now) (stmt_assigned s.now) }
{
    match s {
        Stmt::Declare(x, _) | Stmt::Assign(x, _) => all_need(*x, body),
        Stmt::Store(_, _, _, _) | Stmt::Combine(_, _, _, _, _) | Stmt::Print(_) => false,
        Stmt::Block(all) => all_give(all, body),
        Stmt::Loop(_, turn) => all_give(turn, body),
        Stmt::If(_, first, second) => all_give(first, body) || all_give(second, body),
    }
}

/// Whether some scalar that statements may assign has to be there before the body.
#[cycle(gives)]
pub fn all_give(all: &[Stmt], body: &[Stmt]) -> bool
    ensures { result ≡ list_any (λ x. list_needs x body.now) (list_assigned all.now) }
{
    for s in all {
        if stmt_gives(s, body) {
            return true;
        }
    }
    false
}
