// Whether the turns of a loop are apart, so that they can be done in blocks.

ghost use Rattle.std.specs.Prelude.{◌≡◌, ◌≤◌, ◌∷◌, [], true, drop, length, slice_index, take, IfSome};
ghost use Rattle.kernel.specs.Forms.{HasSum, IsCarriedBy, IsForm, IsSum};
ghost use Rattle.kernel.specs.Loops.{AreApart, AreApartFor, AreSettled, IsApartFor, IsSettled, certain_by, certain_in, loose_in, stored_by, stored_in};
ghost use Rattle.kernel.specs.Offsets.{IsWithin, here_in};
ghost use Rattle.lanes.specs.Apart as lanes;

use crate::moved::{is_here, offset_of};
use crate::turns::{Around, Form, Sum};
use base::tree::{ArrayId, Expr, ScalarId, Source, Stmt};

/// The most statements of a body that is looked at, those in the branches of its choices among them.
const MOST: usize = 32;

/// The most that operators of its expressions stand in one another: the stack of a worker has room for so many calls.
const DEEPEST: usize = 256;

fn is_shallow(e: &Expr, deepest: usize) -> bool {
    if deepest == 0 {
        return false;
    }
    match e {
        Expr::Number(_) | Expr::Scalar(_) | Expr::LoopName(_) => true,
        Expr::Cell(_, _, a) | Expr::Unary(_, a) | Expr::Shift(_, a, _) | Expr::Divide(_, a, _) =>
            is_shallow(a, deepest - 1),
        Expr::Binary(_, a, b) | Expr::And(a, b) | Expr::Or(a, b) => {
            is_shallow(a, deepest - 1) && is_shallow(b, deepest - 1)
        }
    }
}

/// Whether an expression is not too deep for a function that calls itself for the operands.
pub fn has_room(e: &Expr) -> bool {
    is_shallow(e, DEEPEST)
}

/// The same of what is assigned.
pub fn source_shallow(v: &Source) -> bool {
    match v {
        Source::Value(e) => has_room(e),
        Source::Read => true,
    }
}

// Whether a statement is an assignment without deep expressions, or a choice of such, and no more statements than are left.
#[cycle(shallow)]
fn stmt_shallow(s: &Stmt, left: &mut usize) -> bool {
    if *left == 0 {
        return false;
    }
    *left -= 1;
    match s {
        Stmt::Declare(_, v) | Stmt::Assign(_, v) => source_shallow(v),
        Stmt::Store(_, _, e, v) => has_room(e) && source_shallow(v),
        Stmt::If(c, first, second) => {
            has_room(c) && are_shallow(first, left) && are_shallow(second, left)
        }
        _ => false,
    }
}

#[cycle(shallow)]
fn are_shallow(all: &[Stmt], left: &mut usize) -> bool {
    for s in all {
        if !stmt_shallow(s, left) {
            return false;
        }
    }
    true
}

#[cycle(assigned)]
fn is_assigned_by(s: &Stmt, x: ScalarId) -> bool
    ensures { result ≡ lanes.assigned_by s.now x.0 }
{
    match s {
        Stmt::Declare(y, _) | Stmt::Assign(y, _) => y.0 == x.0,
        Stmt::If(_, first, second) => is_assigned(first, x) | is_assigned(second, x),
        _ => false,
    }
}

/// Whether statements assign a scalar, in the branches of their choices too.
#[cycle(assigned)]
pub fn is_assigned(all: &[Stmt], x: ScalarId) -> bool
    ensures { result ≡ lanes.assigned_in all.now x.0 }
{
    for s in all {
        if is_assigned_by(s, x) {
            return true;
        }
    }
    false
}

fn is_certain_by(s: &Stmt, x: ScalarId) -> bool
    ensures { result ≡ certain_by s.now x.0 }
{
    match s {
        Stmt::Declare(y, _) | Stmt::Assign(y, _) => y.0 == x.0,
        _ => false,
    }
}

// Whether statements assign a scalar for certain, and not in the branches of a choice alone.
fn is_certain(all: &[Stmt], x: ScalarId) -> bool
    ensures { result ≡ certain_in all.now x.0 }
{
    match all {
        [] => false,
        [first, rest @ ..] => is_certain_by(first, x) || is_certain(rest, x),
    }
}

#[cycle(settled)]
fn is_settled(s: &Stmt, body: &[Stmt]) -> bool
    ensures { result ≡ true → IsSettled body.now s.now }
{
    match s {
        Stmt::Declare(x, _) | Stmt::Assign(x, _) => is_certain(body, *x),
        Stmt::If(_, first, second) => are_settled(first, body) & are_settled(second, body),
        _ => true,
    }
}

// Whether each scalar that some statements assign is assigned for certain by a body.
#[cycle(settled)]
fn are_settled(some: &[Stmt], body: &[Stmt]) -> bool
    ensures { result ≡ true → AreSettled body.now some.now }
{
    for s in some {
        if !is_settled(s, body) {
            return false;
        }
    }
    true
}

#[cycle(stored)]
fn is_stored_by(s: &Stmt, array: ArrayId) -> bool
    ensures { result ≡ stored_by s.now array.0 }
{
    match s {
        Stmt::Store(other, _, _, _) | Stmt::Combine(_, other, _, _, _) => other.0 == array.0,
        Stmt::If(_, first, second) => is_stored(first, array) | is_stored(second, array),
        _ => false,
    }
}

#[cycle(stored)]
fn is_stored(all: &[Stmt], array: ArrayId) -> bool
    ensures { result ≡ stored_in all.now array.0 }
{
    for s in all {
        if is_stored_by(s, array) {
            return true;
        }
    }
    false
}

// A scalar of the turn that no statement before assigns for certain.
fn is_loose(body: &[Stmt], before: &[Stmt], x: ScalarId) -> bool
    ensures { result ≡ loose_in body.now before.now x.0 }
{
    is_assigned(body, x) && !is_certain(before, x)
}

/// Whether an expression is the value of the loop at a level alone.
pub fn is_turn(level: usize, e: &Expr) -> bool
    ensures { result ≡ lanes.is_turn level e.now }
{
    match e {
        Expr::LoopName(l) => *l as usize == level,
        _ => false,
    }
}

fn expr_apart(body: &[Stmt], before: &[Stmt], at: &Around<'_>, e: &Expr) -> bool
    ensures { result ≡ lanes.is_apart (stored_in body.now) (loose_in body.now before.now) (here_in body.now at.now) e.now }
{
    match e {
        Expr::Number(_) | Expr::LoopName(_) => true,
        Expr::Scalar(x) => !is_loose(body, before, *x),
        Expr::Cell(array, _, index) => {
            (is_here(body, at, index) || !is_stored(body, *array))
                && expr_apart(body, before, at, index)
        }
        Expr::Unary(_, a) | Expr::Shift(_, a, _) | Expr::Divide(_, a, _) => expr_apart(
            body, before, at, a,
        ),
        Expr::Binary(_, a, b) | Expr::And(a, b) | Expr::Or(a, b) => {
            expr_apart(body, before, at, a) && expr_apart(body, before, at, b)
        }
    }
}

fn source_apart(body: &[Stmt], before: &[Stmt], at: &Around<'_>, v: &Source) -> bool
    ensures { result ≡ lanes.source_apart (stored_in body.now) (loose_in body.now before.now) (here_in body.now at.now) v.now }
{
    match v {
        Source::Value(e) => expr_apart(body, before, at, e),
        Source::Read => false,
    }
}

// What a branch of a choice assigns does not count as assigned in it: one set of loose scalars serves all of it.
#[cycle(apart)]
fn stmt_apart(s: &Stmt, body: &[Stmt], before: &[Stmt], at: &Around<'_>) -> bool
    ensures { result ≡ true → IsApartFor (here_in body.now at.now) body.now (loose_in body.now before.now) s.now }
{
    match s {
        Stmt::Declare(x, v) | Stmt::Assign(x, v) => is_assigned(body, *x)
            && source_apart(body, before, at, v),
        Stmt::Store(array, _, index, v) => {
            is_stored(body, *array)
                && (is_here(body, at, index) && source_apart(body, before, at, v))
        }
        Stmt::If(c, first, second) => {
            expr_apart(body, before, at, c)
                & branch_apart(first, body, before, at)
                & branch_apart(second, body, before, at)
        }
        _ => false,
    }
}

#[cycle(apart)]
fn branch_apart(all: &[Stmt], body: &[Stmt], before: &[Stmt], at: &Around<'_>) -> bool
    ensures { result ≡ true → AreApartFor (here_in body.now at.now) body.now (loose_in body.now before.now) all.now }
{
    for s in all {
        if !stmt_apart(s, body, before, at) {
            return false;
        }
    }
    true
}

// Of some statements of a body those from a place on.
#[tactic(auto, using(crate::proofs::Looseness::none_apart))]
fn body_apart(body: &[Stmt], some: &[Stmt], at: &Around<'_>, k: usize) -> bool
    requires { k ≤ length some.now }
    ensures { result ≡ true → AreApartFor (here_in body.now at.now) body.now (loose_in body.now (take k some.now)) (drop k some.now) }
{
    if k == some.len() {
        return true;
    }
    if !stmt_apart(&some[k], body, &some[..k], at) {
        return false;
    }
    body_apart(body, some, at, k + 1)
}

// Whether the turns of a loop with this body are apart.
fn are_apart(body: &[Stmt], at: &Around<'_>) -> bool
    ensures { result ≡ true → AreApart (here_in body.now at.now) body.now }
{
    if !are_settled(body, body) {
        return false;
    }
    body_apart(body, body, at, 0)
}

// The scalar that a statement makes of itself.
fn carried_by(s: &Stmt) -> Option<Sum<'_>>
    ensures { IfSome result (λ sum. IsCarriedBy s.now sum) }
{
    let Stmt::Assign(x, Source::Value(Expr::Binary(op, left, added))) = s else {
        return None;
    };
    match &**left {
        Expr::Scalar(y) if y.0 == x.0 => Some(Sum {
            scalar: *x,
            op: *op,
            added,
        }),
        _ => None,
    }
}

// Whether a body whose last statement carries a scalar on has turns that are apart but for it.
#[tactic(auto, using(crate::proofs::Sums::is_sum))]
fn are_apart_but(body: &[Stmt], front: &[Stmt], at: &Around<'_>, sum: Sum<'_>) -> bool
    requires { HasSum body.now front.now sum }
    ensures { result ≡ true → IsSum (here_in body.now at.now) body.now front.now sum.entry }
{
    if is_assigned(front, sum.scalar) {
        return false;
    }
    if !are_settled(body, body) {
        return false;
    }
    if !body_apart(body, front, at, 0) {
        return false;
    }
    expr_apart(body, front, at, sum.added)
}

// A body that ends with a sum.
#[tactic(auto, using(crate::proofs::Sums::has_sum))]
fn sum_of<'b>(body: &'b [Stmt], at: &Around<'_>) -> Option<Form<'b>>
    ensures form { IfSome result (IsForm (slice_index at.now.scalars.now) at.now.outer.now body.now) }
    ensures offset { IfSome result (λ form. form.offset ≡ at.now.offset) }
{
    let [front @ .., last] = body else {
        return None;
    };
    let sum = carried_by(last)?;
    if are_apart_but(body, front, at, sum) {
        Some(Form {
            front,
            sum: Some(sum),
            offset: at.offset,
        })
    } else {
        None
    }
}

/// How the turns of a loop with this body and this end are done in blocks in these loops from these scalars, if they
/// can be. A long body, or a deep expression, is not looked at.
pub fn form_of<'b>(
    body: &'b [Stmt],
    outer: &[u64],
    scalars: &[u64; 256],
    end: u64,
) -> Option<Form<'b>>
    ensures form { IfSome result (IsForm (slice_index scalars.now) outer.now body.now) }
    ensures within { IfSome result (λ form. IsWithin form.offset end) }
{
    let mut left = MOST;
    if !are_shallow(body, &mut left) {
        return None;
    }
    let offset = offset_of(body, outer, scalars, end);
    let at = Around {
        outer,
        scalars,
        offset,
    };
    if are_apart(body, &at) {
        return Some(Form {
            front: body,
            sum: None,
            offset,
        });
    }
    sum_of(body, &at)
}
