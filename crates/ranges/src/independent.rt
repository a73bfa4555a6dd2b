// Turns that are known to meet nowhere by how their subscripts move on, with no walk over them.

ghost use Rattle.std.specs.Prelude.{◌≡◌, ◌<◌, ◌++◌, false, true, flat_map, IfOk, IsTrue, OnOk, length, slice_index};
ghost use Rattle.std.specs.List.{list_any};
ghost use Rattle.base.specs.declared.item.Cell.{Cell};
ghost use Rattle.base.specs.Footprint.{writes};
ghost use Rattle.base.specs.Turns.{Independent, turn_touches, turns_at};
ghost use Rattle.base.specs.ScalarUse.{list_assigned, list_needs};
ghost use Rattle.ranges.specs.Cells.{has};
ghost use Rattle.ranges.specs.Meetings as spec;
ghost use Rattle.ranges.specs.Strides.{AllApart, Apart, NestAt, nest_highs, nest_lows};

use crate::cells::CellSet;
use crate::nest::{nest_at, turn_body};
use crate::span::Span;
use crate::touched::{Asked, Touched, touched_all};
use base::tree::{ArrayId, BinaryOp, Bounds, Expr, Stmt};
use std::alloc::{AllocError, Global};

// The loops of a nest, with all of their values.
fn push_nest(depth: u8, nest: &[Stmt], span: &mut Span) -> Result<(), AllocError>
    ensures lows { OnOk result (span.new.lows.items ≡ span.old.lows.items ++ nest_lows depth nest.now) }
    ensures highs { OnOk result (span.new.highs.items ≡ span.old.highs.items ++ nest_highs depth nest.now) }
{
    let Some(outer) = nest_at(depth, nest) else {
        return Ok(());
    };
    span.push(outer.bounds.first, outer.bounds.end.saturating_sub(1))?;
    push_nest(depth - 1, outer.body, span)
}

// Whether turns that touch one cell of the array agree in the name of the loop, as it is seen modulo this number.
fn are_apart_by(
    q: Asked,
    bounds: Bounds,
    body: &[Stmt],
    span: &mut Span,
) -> Result<bool, AllocError>
    requires level { q.level < length span.old.lows.items }
    requires first { slice_index span.old.lows.items q.level ≡ bounds.first }
    ensures lows { IfOk result (λ b. span.new.lows.items ≡ span.old.lows.items) }
    ensures highs { IfOk result (λ b. span.new.highs.items ≡ span.old.highs.items) }
    ensures apart { IfOk result (λ b. IsTrue b → Apart q.array.0 q.level bounds body.now span.old.lows.items span.old.highs.items) }
{
    Ok(match touched_all(q, body, span)? {
        Touched::Nothing => true,
        Touched::Within(stride) => stride.keeps_apart(q.modulus, bounds),
        Touched::Anywhere => false,
    })
}

// The same, as it is seen modulo a number by which some part of a subscript is multiplied, all factors around it too.
fn are_apart_within(
    q: Asked,
    e: &Expr,
    bounds: Bounds,
    body: &[Stmt],
    span: &mut Span,
) -> Result<bool, AllocError>
    requires level { q.level < length span.old.lows.items }
    requires first { slice_index span.old.lows.items q.level ≡ bounds.first }
    ensures lows { IfOk result (λ b. span.new.lows.items ≡ span.old.lows.items) }
    ensures highs { IfOk result (λ b. span.new.highs.items ≡ span.old.highs.items) }
    ensures apart { IfOk result (λ b. IsTrue b → Apart q.array.0 q.level bounds body.now span.old.lows.items span.old.highs.items) }
{
    match e {
        Expr::Binary(BinaryOp::Add | BinaryOp::Subtract, a, b) => Ok(
            are_apart_within(q, a, bounds, body, span)?
                || are_apart_within(q, b, bounds, body, span)?,
        ),
        Expr::Binary(BinaryOp::Multiply, a, b) => {
            let (inner, n) = match (a.as_ref(), b.as_ref()) {
                (Expr::Number(n), inner) | (inner, Expr::Number(n)) => (inner, *n),
                _ => return Ok(false),
            };
            let multiple = Asked {
                array: q.array,
                level: q.level,
                modulus: q.modulus.saturating_mul(n),
            };
            Ok(
                are_apart_by(multiple, bounds, body, span)?
                    || are_apart_within(multiple, inner, bounds, body, span)?,
            )
        }
        _ => Ok(false),
    }
}

// The subscript of a store in the array, of the first one that is found.
fn stored_at(array: ArrayId, all: &[Stmt]) -> Option<&Expr> {
    for s in all {
        let found = match s {
            Stmt::Store(own, _, e, _) | Stmt::Combine(_, own, _, e, _) if *own == array => Some(e),
            Stmt::Block(inner) | Stmt::Loop(_, inner) => stored_at(array, inner),
            Stmt::If(_, first, second) => match stored_at(array, first) {
                Some(e) => Some(e),
                None => stored_at(array, second),
            },
            _ => None,
        };
        if found.is_some() {
            return found;
        }
    }
    None
}

// Whether turns that touch one cell of the array agree in the name of the loop at this level.
fn are_apart(
    array: ArrayId,
    level: usize,
    bounds: Bounds,
    body: &[Stmt],
    span: &mut Span,
) -> Result<bool, AllocError>
    requires level { level < length span.old.lows.items }
    requires first { slice_index span.old.lows.items level ≡ bounds.first }
    ensures lows { IfOk result (λ b. span.new.lows.items ≡ span.old.lows.items) }
    ensures highs { IfOk result (λ b. span.new.highs.items ≡ span.old.highs.items) }
    ensures apart { IfOk result (λ b. IsTrue b → Apart array.0 level bounds body.now span.old.lows.items span.old.highs.items) }
{
    let plain = Asked {
        array,
        level,
        modulus: 0,
    };
    if are_apart_by(plain, bounds, body, span)? {
        return Ok(true);
    }
    let Some(e) = stored_at(array, body) else {
        return Ok(false);
    };
    let one = Asked {
        array,
        level,
        modulus: 1,
    };
    are_apart_within(one, e, bounds, body, span)
}

// Whether turns that touch one cell of the array agree in the names of all loops of a nest, of which the first is at this
// level.
fn agree_in_all(
    array: ArrayId,
    level: usize,
    depth: u8,
    nest: &[Stmt],
    body: &[Stmt],
    span: &mut Span,
) -> Result<bool, AllocError>
    requires { NestAt depth nest.now level span.old.lows.items }
    ensures lows { IfOk result (λ b. span.new.lows.items ≡ span.old.lows.items) }
    ensures highs { IfOk result (λ b. span.new.highs.items ≡ span.old.highs.items) }
    ensures apart { IfOk result (λ b. IsTrue b → AllApart array.0 level depth nest.now body.now span.old.lows.items span.old.highs.items) }
{
    let Some(outer) = nest_at(depth, nest) else {
        return Ok(true);
    };
    Ok(
        are_apart(array, level, outer.bounds, body, span)?
            && agree_in_all(array, level + 1, depth - 1, outer.body, body, span)?,
    )
}

impl CellSet {
    ghost use Rattle.std.specs.Prelude.{◌≡◌, false};
    ghost use Rattle.base.specs.declared.item.Cell.{Cell};
    ghost use Rattle.ranges.specs.Cells.{has};

    // Whether it has cells of an array.
    fn has_some_of(&self, array: ArrayId) -> bool
        ensures { result ≡ false → (c : Cell) → c.array.0 ≡ array.0 → has self.now c ≡ false }
    {
        self.row(array).first_from(0).is_some()
    }
}

// Whether turns that touch one of these cells of the array agree in the names of all loops of a nest.
fn agree_in_array(
    array: ArrayId,
    write: &CellSet,
    level: usize,
    depth: u8,
    nest: &[Stmt],
    body: &[Stmt],
    span: &mut Span,
) -> Result<bool, AllocError>
    requires { NestAt depth nest.now level span.old.lows.items }
    ensures lows { IfOk result (λ b. span.new.lows.items ≡ span.old.lows.items) }
    ensures highs { IfOk result (λ b. span.new.highs.items ≡ span.old.highs.items) }
    ensures apart { IfOk result (λ b. IsTrue b → (c : Cell) → c.array.0 ≡ array.0 → has write.now c ≡ true → AllApart c.array.0 level depth nest.now body.now span.old.lows.items span.old.highs.items) }
{
    if !write.has_some_of(array) {
        return Ok(true);
    }
    agree_in_all(array, level, depth, nest, body, span)
}

/// Whether by how their subscripts move on no two turns of a region touch one cell that one of them writes. `write` has the
/// cells that the region writes.
pub fn are_independent(
    alloc: Global,
    depth: u8,
    nest: &[Stmt],
    loops: &[u64],
    write: &CellSet,
) -> Result<bool, AllocError>
    requires scalars { list_any (λ x. list_needs x (spec.turn_body depth nest.now)) (list_assigned (spec.turn_body depth nest.now)) ≡ false }
    requires write { (c : Cell) → has write.now c ≡ writes (flat_map turn_touches (turns_at depth nest.now loops.now)) c }
    ensures { IfOk result (λ b. IsTrue b → Independent (turns_at depth nest.now loops.now)) }
{
    let body = turn_body(depth, nest);
    let level = loops.len();
    let mut span = Span::new(alloc, loops)?;
    push_nest(depth, nest, &mut span)?;
    for a in 0..write.arrays() {
        if !agree_in_array(
            ArrayId(a as u32),
            write,
            level,
            depth,
            nest,
            body,
            &mut span,
        )? {
            return Ok(false);
        }
    }
    Ok(true)
}
