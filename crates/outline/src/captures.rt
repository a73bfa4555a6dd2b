// The scalars that a region captures.

ghost use Rattle.std.specs.Prelude.{◌≡◌, ◌≤◌, IfOk};
ghost use Rattle.std.specs.List.{list_any};
ghost use Rattle.base.specs.ScalarUse.{expr_reads, source_reads};
ghost use Rattle.outline.specs.Captures.{captures_of, is_captured, stmt_declares, stmt_reads};

use base::tree::{Expr, Region, ScalarId, Source, Stmt};
use std::alloc::{AllocError, Global};

fn expr_reads(scalar: u8, e: &Expr) -> bool
    ensures { result ≡ expr_reads scalar e.now }
{
    match e {
        Expr::Number(_) | Expr::LoopName(_) => false,
        Expr::Scalar(id) => scalar == id.0,
        Expr::Cell(_, _, a) | Expr::Unary(_, a) | Expr::Shift(_, a, _) | Expr::Divide(_, a, _) =>
            expr_reads(scalar, a),
        Expr::Binary(_, a, b) | Expr::And(a, b) | Expr::Or(a, b) => {
            expr_reads(scalar, a) || expr_reads(scalar, b)
        }
    }
}

fn source_reads(scalar: u8, v: &Source) -> bool
    ensures { result ≡ source_reads scalar v.now }
{
    match v {
        Source::Value(e) => expr_reads(scalar, e),
        Source::Read => false,
    }
}

#[tactic(auto, using(crate::proofs::Naming::reads_Block))]
#[cycle(reads)]
fn reads(scalar: u8, s: &Stmt) -> bool
    ensures { result ≡ stmt_reads scalar s.now }
{
    match s {
        Stmt::Declare(_, v) | Stmt::Assign(_, v) => source_reads(scalar, v),
        Stmt::Store(_, _, e, v) => expr_reads(scalar, e) || source_reads(scalar, v),
        Stmt::Combine(_, _, _, e, v) => expr_reads(scalar, e) || expr_reads(scalar, v),
        Stmt::Print(e) => expr_reads(scalar, e),
        Stmt::Block(all) => one_reads(scalar, all),
        Stmt::Loop(_, body) => one_reads(scalar, body),
        Stmt::If(c, first, second) => {
            expr_reads(scalar, c) | one_reads(scalar, first) | one_reads(scalar, second)
        }
    }
}

#[cycle(reads)]
fn one_reads(scalar: u8, all: &[Stmt]) -> bool
    ensures { result ≡ list_any (stmt_reads scalar) all.now }
{
    'all: for s in all {
        if reads(scalar, s) {
            return true;
        }
    }
    false
}

#[tactic(auto, using(crate::proofs::Naming::declares_Block))]
#[cycle(declares)]
fn declares(scalar: u8, s: &Stmt) -> bool
    ensures { result ≡ stmt_declares scalar s.now }
{
    match s {
        Stmt::Declare(id, _) => scalar == id.0,
        Stmt::Assign(_, _)
        | Stmt::Store(_, _, _, _)
        | Stmt::Combine(_, _, _, _, _)
        | Stmt::Print(_) => false,
        Stmt::Block(all) => one_declares(scalar, all),
        Stmt::Loop(_, body) => one_declares(scalar, body),
        Stmt::If(_, first, second) => { one_declares(scalar, first) | one_declares(scalar, second) }
    }
}

#[cycle(declares)]
fn one_declares(scalar: u8, all: &[Stmt]) -> bool
    ensures { result ≡ list_any (stmt_declares scalar) all.now }
{
    'all: for s in all {
        if declares(scalar, s) {
            return true;
        }
    }
    false
}

fn is_captured(scalar: u8, region: &Region) -> bool
    ensures { result ≡ is_captured region.now scalar }
{
    one_reads(scalar, &region.body) && !one_declares(scalar, &region.body)
}

/// Of so many scalars those that a region reads and that are declared outside it, in ascending order.
pub fn scalars_in(alloc: Global, region: &Region, count: usize) -> Result<Vec<ScalarId>, AllocError>
    requires { count ≤ 256 }
    ensures { IfOk result (λ captures. captures.items ≡ captures_of count region.now) }
{
    let mut captures = Vec::new(alloc);
    'scalars: for scalar in 0..count {
        if is_captured(scalar as u8, region) {
            captures.push(ScalarId(scalar as u8))?;
        }
    }
    Ok(captures)
}
