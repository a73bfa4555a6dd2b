// Which scalars statements assign, and which have to be there before them.

ghost use Rattle.std.specs.Prelude.{◌≡◌};
ghost use Rattle.std.specs.List.{list_any};
ghost use Rattle.base.specs.ScalarUse as spec;
ghost use Rattle.base.specs.ScalarUse.{list_assigned, list_needs, stmt_assigned};
ghost use Rattle.spans.specs.Asked.{asks};
ghost use Rattle.spans.specs.Spans.{list_sure, sure_by};

use base::tree::{Expr, ScalarId, Source, Stmt};

fn expr_reads(x: ScalarId, e: &Expr) -> bool
    ensures { result ≡ spec.expr_reads x.0 e.now }
{
    match e {
        Expr::Number(_) | Expr::LoopName(_) => false,
        Expr::Scalar(y) => x.0 == y.0,
        Expr::Cell(_, _, a) | Expr::Unary(_, a) | Expr::Shift(_, a, _) | Expr::Divide(_, a, _) => {
            expr_reads(x, a)
        }
        Expr::Binary(_, a, b) | Expr::And(a, b) | Expr::Or(a, b) => {
            expr_reads(x, a) || expr_reads(x, b)
        }
    }
}

fn source_reads(x: ScalarId, v: &Source) -> bool
    ensures { result ≡ spec.source_reads x.0 v.now }
{
    match v {
        Source::Value(e) => expr_reads(x, e),
        Source::Read => false,
    }
}

// Whether a statement is an assignment of the scalar.
fn sets(x: ScalarId, s: &Stmt) -> bool
    ensures { result ≡ spec.sets x.0 s.now }
{
    match s {
        Stmt::Declare(y, _) | Stmt::Assign(y, _) => x.0 == y.0,
        _ => false,
    }
}

// Whether a statement may read the scalar where none before, in a row that holds the read, has assigned it.
#[tactic(auto, using(crate::proofs::ScalarLists::needs_Block, crate::proofs::ScalarLists::needs_Loop, crate::proofs::ScalarLists::needs_If))]
#[cycle(needs)]
fn stmt_needs(x: ScalarId, s: &Stmt) -> bool
    ensures { result ≡ spec.stmt_needs x.0 s.now }
{
    match s {
        Stmt::Declare(_, v) | Stmt::Assign(_, v) => source_reads(x, v),
        Stmt::Store(_, _, e, v) => expr_reads(x, e) || source_reads(x, v),
        Stmt::Combine(_, _, _, e, v) => expr_reads(x, e) || expr_reads(x, v),
        Stmt::Print(e) => expr_reads(x, e),
        Stmt::Block(all) => all_need(x, all),
        Stmt::Loop(_, body) => all_need(x, body),
        Stmt::If(c, first, second) => {
            expr_reads(x, c) || (all_need(x, first) || all_need(x, second))
        }
    }
}

// The same of statements in turn.
#[cycle(needs)]
fn all_need(x: ScalarId, all: &[Stmt]) -> bool
    ensures { result ≡ list_needs x.0 all.now }
{
    for s in all {
        if stmt_needs(x, s) {
            return true;
        }
        if sets(x, s) {
            return false;
        }
    }
    false
}

// Whether a statement assigns the scalar for certain.
#[tactic(auto, using(crate::proofs::SureLists::sure_Block, crate::proofs::SureLists::sure_Loop, crate::proofs::SureLists::sure_If))]
#[cycle(sure)]
fn is_sure(x: ScalarId, s: &Stmt) -> bool
    ensures { result ≡ sure_by x.0 s.now }
{
    match s {
        Stmt::Declare(y, _) | Stmt::Assign(y, _) => x.0 == y.0,
        Stmt::Store(_, _, _, _) | Stmt::Combine(_, _, _, _, _) | Stmt::Print(_) => false,
        Stmt::Block(all) => any_sure(x, all),
        Stmt::Loop(bounds, body) => bounds.first < bounds.end && any_sure(x, body),
        Stmt::If(_, first, second) => any_sure(x, first) && any_sure(x, second),
    }
}

// The same of statements in turn.
#[cycle(sure)]
fn any_sure(x: ScalarId, all: &[Stmt]) -> bool
    ensures { result ≡ list_sure x.0 all.now }
{
    for s in all {
        if is_sure(x, s) {
            return true;
        }
    }
    false
}

/// What is asked of a scalar beside a body: whether the body needs it, or does not assign it for certain.
#[derive(Clone, Copy)]
pub enum Asked {
    Needed,
    Loose,
}

fn is_so(asked: Asked, x: ScalarId, body: &[Stmt]) -> bool
    ensures { result ≡ asks asked x.0 body.now }
{
    match asked {
        Asked::Needed => all_need(x, body),
        Asked::Loose => !any_sure(x, body),
    }
}

// Whether this is so of some scalar that a statement may assign.
#[tactic(auto, using(crate::proofs::ScalarLists::assigned_Block, crate::proofs::ScalarLists::assigned_Loop, crate::proofs::ScalarLists::given_If))]
#[cycle(gives)]
fn stmt_gives(asked: Asked, s: &Stmt, body: &[Stmt]) -> bool
    ensures { result ≡ list_any (λ x. asks asked x body.now) (stmt_assigned s.now) }
{
    match s {
        Stmt::Declare(x, _) | Stmt::Assign(x, _) => is_so(asked, *x, body),
        Stmt::Store(_, _, _, _) | Stmt::Combine(_, _, _, _, _) | Stmt::Print(_) => false,
        Stmt::Block(all) => some_give(asked, all, body),
        Stmt::Loop(_, turn) => some_give(asked, turn, body),
        Stmt::If(_, first, second) => {
            some_give(asked, first, body) || some_give(asked, second, body)
        }
    }
}

/// Whether this is so of some scalar that statements may assign.
#[cycle(gives)]
pub fn some_give(asked: Asked, all: &[Stmt], body: &[Stmt]) -> bool
    ensures { result ≡ list_any (λ x. asks asked x body.now) (list_assigned all.now) }
{
    for s in all {
        if stmt_gives(asked, s, body) {
            return true;
        }
    }
    false
}

/// Whether some scalar that statements may assign has to be there before the body.
pub fn all_give(all: &[Stmt], body: &[Stmt]) -> bool
    ensures { result ≡ list_any (λ x. list_needs x body.now) (list_assigned all.now) }
{
    some_give(Asked::Needed, all, body)
}
