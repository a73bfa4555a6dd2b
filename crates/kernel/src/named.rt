// What is known of the scalars that statements name.

ghost use Rattle.std.specs.Prelude.{◌<◌};
ghost use Rattle.kernel.specs.Named.{AreNamed, IsNamed, IsSourceNamed, IsStmtNamed};

use base::tree::{Expr, Source, Stmt};

// What every byte is.
fn is_small(n: u8)
    ensures { n < 256 }
{
    let _number = n;
}

fn expr_named(e: &Expr)
    ensures { IsNamed e.now }
{
    match e {
        Expr::Number(_) | Expr::LoopName(_) => {}
        Expr::Scalar(x) => is_small(x.0),
        Expr::Cell(_, _, a) => expr_named(a),
        Expr::Unary(_, a) => expr_named(a),
        Expr::Shift(_, a, _) => expr_named(a),
        Expr::Divide(_, a, _) => expr_named(a),
        Expr::Binary(_, a, b) => {
            expr_named(a);
            expr_named(b);
        }
        Expr::And(a, b) => {
            expr_named(a);
            expr_named(b);
        }
        Expr::Or(a, b) => {
            expr_named(a);
            expr_named(b);
        }
    }
}

fn source_named(v: &Source)
    ensures { IsSourceNamed v.now }
{
    if let Source::Value(e) = v {
        expr_named(e);
    }
}

#[cycle(named)]
fn stmt_named(s: &Stmt)
    ensures { IsStmtNamed s.now }
{
    match s {
        Stmt::Declare(x, v) | Stmt::Assign(x, v) => {
            is_small(x.0);
            source_named(v);
        }
        Stmt::Store(_, _, e, v) => {
            expr_named(e);
            source_named(v);
        }
        Stmt::Combine(_, _, _, e, v) => {
            expr_named(e);
            expr_named(v);
        }
        Stmt::Print(e) => expr_named(e),
        Stmt::Block(all) => named(all),
        Stmt::Loop(_, body) => named(body),
        Stmt::If(c, first, second) => {
            expr_named(c);
            named(first);
            named(second);
        }
    }
}

/// The scalars of statements have numbers below 256.
#[cycle(named)]
pub fn named(all: &[Stmt])
    ensures { AreNamed all.now }
{
    for s in all {
        stmt_named(s);
    }
}
