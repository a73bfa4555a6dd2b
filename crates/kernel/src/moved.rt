// Indices that are the loop's value and a number that no turn changes, as those along a row of a matrix.

ghost use Rattle.std.specs.Prelude.{◌≡◌, slice_index};
ghost use Rattle.kernel.specs.Offsets.{IsWithin, here_in};
ghost use Rattle.lanes.specs.Apart.{assigned_in};
ghost use Rattle.lanes.specs.Moved as moved;

use crate::apart::{is_assigned, is_turn};
use crate::turns::Around;
use base::tree::{BinaryOp, Expr, Stmt};
use operators::{of_both, of_division, of_one, of_shift};

// The value of an expression that no turn of a loop with this body changes, if it is one: it names no cell, no scalar
// that the body assigns, and of the loops only those around.
fn fixed_value(body: &[Stmt], outer: &[u64], scalars: &[u64; 256], e: &Expr) -> Option<u64>
    ensures { result ≡ moved.fixed_value (assigned_in body.now) (slice_index scalars.now) outer.now e.now }
{
    match e {
        Expr::Number(n) => Some(*n),
        Expr::Scalar(x) => {
            if is_assigned(body, *x) {
                None
            } else {
                Some(scalars[x.0 as usize])
            }
        }
        Expr::LoopName(l) => outer.get(*l as usize).copied(),
        Expr::Unary(op, a) => {
            let n = fixed_value(body, outer, scalars, a)?;
            Some(of_one(*op, n))
        }
        Expr::Binary(op, a, b) => {
            let n = fixed_value(body, outer, scalars, a)?;
            let m = fixed_value(body, outer, scalars, b)?;
            Some(of_both(*op, n, m))
        }
        Expr::Shift(op, a, by) => {
            let n = fixed_value(body, outer, scalars, a)?;
            Some(of_shift(*op, n, *by))
        }
        Expr::Divide(op, a, by) => {
            let n = fixed_value(body, outer, scalars, a)?;
            Some(of_division(*op, n, *by))
        }
        Expr::Cell(_, _, _) | Expr::And(_, _) | Expr::Or(_, _) => None,
    }
}

fn is_number(u: u64, o: Option<u64>) -> bool
    ensures { result ≡ moved.is_number u o }
{
    match o {
        Some(n) => n == u,
        None => false,
    }
}

fn is_add(op: BinaryOp) -> bool
    ensures { result ≡ moved.is_add op }
{
    match op {
        BinaryOp::Add => true,
        _ => false,
    }
}

// Whether an index is the sum of such an expression with this value and of the loop's value, in either order.
fn is_moved(body: &[Stmt], outer: &[u64], scalars: &[u64; 256], u: u64, e: &Expr) -> bool
    ensures { result ≡ moved.is_moved (assigned_in body.now) (slice_index scalars.now) outer.now u e.now }
{
    match e {
        Expr::Binary(op, a, b) => {
            let level = outer.len();
            is_add(*op)
                && ((is_number(u, fixed_value(body, outer, scalars, a)) && is_turn(level, b))
                    || (is_turn(level, a) && is_number(u, fixed_value(body, outer, scalars, b))))
        }
        _ => false,
    }
}

/// Whether an index expression names the turn's own cell.
pub fn is_here(body: &[Stmt], at: &Around<'_>, e: &Expr) -> bool
    ensures { result ≡ here_in body.now at.now e.now }
{
    match at.offset {
        None => is_turn(at.outer.len(), e),
        Some(u) => is_moved(body, at.outer, at.scalars, u, e),
    }
}

#[cycle(first)]
fn stored_by(s: &Stmt) -> Option<&Expr> {
    match s {
        Stmt::Store(_, _, index, _) => Some(index),
        Stmt::If(_, first, second) => match first_stored(first) {
            Some(index) => Some(index),
            None => first_stored(second),
        },
        _ => None,
    }
}

// The index at which the first of some statements that is a store does so, or a store in a branch of a choice.
#[cycle(first)]
fn first_stored(all: &[Stmt]) -> Option<&Expr> {
    for s in all {
        if let Some(index) = stored_by(s) {
            return Some(index);
        }
    }
    None
}

// What is added to the loop's value in an index, if no turn changes it.
fn added_to(body: &[Stmt], outer: &[u64], scalars: &[u64; 256], index: &Expr) -> Option<u64> {
    let Expr::Binary(BinaryOp::Add, a, b) = index else {
        return None;
    };
    if is_turn(outer.len(), b) {
        return fixed_value(body, outer, scalars, a);
    }
    if is_turn(outer.len(), a) {
        return fixed_value(body, outer, scalars, b);
    }
    None
}

/// What is added to the loop's value in the index at which a body stores first: none where that is no such sum, or where
/// an index before the end of the loop wraps.
pub fn offset_of(body: &[Stmt], outer: &[u64], scalars: &[u64; 256], end: u64) -> Option<u64>
    ensures { IsWithin result end }
{
    let u = added_to(body, outer, scalars, first_stored(body)?)?;
    u.checked_add(end)?;
    Some(u)
}
