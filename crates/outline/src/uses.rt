// The arrays that a region uses.

ghost use Rattle.std.specs.Prelude.{◌≡◌, IfOk};
ghost use Rattle.std.specs.List.{list_any};
ghost use Rattle.base.specs.Items.{expr_uses, source_uses, stmt_uses};
ghost use Rattle.outline.specs.Captures.{arrays_of, is_used};

use base::tree::{ArrayId, Expr, Region, Source, Stmt};
use std::alloc::{AllocError, Global};

fn in_expr(array: u32, e: &Expr) -> bool
    ensures { result ≡ expr_uses array e.now }
{
    match e {
        Expr::Number(_) | Expr::Scalar(_) | Expr::LoopName(_) => false,
        Expr::Cell(id, _, a) => array == id.0 || in_expr(array, a),
        Expr::Unary(_, a) | Expr::Shift(_, a, _) | Expr::Divide(_, a, _) => in_expr(array, a),
        Expr::Binary(_, a, b) | Expr::And(a, b) | Expr::Or(a, b) => {
            in_expr(array, a) || in_expr(array, b)
        }
    }
}

fn in_source(array: u32, v: &Source) -> bool
    ensures { result ≡ source_uses array v.now }
{
    match v {
        Source::Value(e) => in_expr(array, e),
        Source::Read => false,
    }
}

#[tactic(auto, using(crate::proofs::Naming::uses_Block))]
#[cycle(uses)]
fn in_stmt(array: u32, s: &Stmt) -> bool
    ensures { result ≡ stmt_uses array s.now }
{
    match s {
        Stmt::Declare(_, v) | Stmt::Assign(_, v) => in_source(array, v),
        Stmt::Store(id, _, e, v) => array == id.0 || in_expr(array, e) || in_source(array, v),
        Stmt::Combine(_, id, _, e, v) => array == id.0 || in_expr(array, e) || in_expr(array, v),
        Stmt::Print(e) => in_expr(array, e),
        Stmt::Block(all) => in_all(array, all),
        Stmt::Loop(_, body) => in_all(array, body),
        Stmt::If(c, first, second) => {
            in_expr(array, c) | in_all(array, first) | in_all(array, second)
        }
    }
}

#[cycle(uses)]
fn in_all(array: u32, all: &[Stmt]) -> bool
    ensures { result ≡ list_any (stmt_uses array) all.now }
{
    'all: for s in all {
        if in_stmt(array, s) {
            return true;
        }
    }
    false
}

/// Of so many arrays those that a region uses, in ascending order.
pub fn arrays_in(alloc: Global, region: &Region, count: u32) -> Result<Vec<ArrayId>, AllocError>
    ensures { IfOk result (λ arrays. arrays.items ≡ arrays_of count region.now) }
{
    let mut arrays = Vec::new(alloc);
    'arrays: for array in 0..count {
        if in_all(array, &region.body) {
            arrays.push(ArrayId(array))?;
        }
    }
    Ok(arrays)
}
