// Statements whose loops are done in blocks of turns where that can be.

ghost use Rattle.std.specs.Prelude.{◌≡◌, true, OnOk, slice_index};
ghost use Rattle.kernel.specs.Forms.{IsForm};
ghost use Rattle.kernel.specs.Offsets.{IsWithin};
ghost use Rattle.kernel.specs.Walks.{CanDo, HasDone, list_meaning, loop_meaning, stmt_meaning, turn_meaning};

use crate::apart::{form_of, has_room, source_shallow};
use crate::block::blocks;
use crate::condition::value_of;
use crate::emit::{loop_ops, ops_of};
use crate::follow::{Listed, follow};
use crate::named::named;
use crate::simple::{assign, print, store_at};
use crate::state::{Machine, pop};
use crate::turns::Form;
use base::tree::{Bounds, Stmt};
use std::alloc::{AllocError, Global};
use std::slice;

/// The fewest turns that are done in blocks: the test, and the operations that are made anew for choices and deep
/// expressions beside such a loop, take as long as some turns.
const FEWEST: u64 = 64;

// A loop of step 1 with some turns at least.
fn is_long(bounds: Bounds) -> bool
    ensures { result ≡ true → bounds.step ≡ 1 }
{
    bounds.step == 1 && bounds.end >= FEWEST && bounds.first <= bounds.end - FEWEST
}

// Numbers of which no two are alike.
fn stand_ins() -> [u64; 256] {
    let mut numbers = [0; 256];
    let mut n: u64 = 1;
    'numbers: for i in 0..256 {
        n = n
            .wrapping_mul(6_364_136_223_846_793_005)
            .wrapping_add(1_442_695_040_888_963_407);
        numbers[i] = n;
    }
    numbers
}

// Whether it looks as if a body at this level could be done in blocks: numbers stand in for the values of the loops
// around and of the scalars, which are not known before the loop begins, so that sums of other names have other values.
// They have a frame of their own, since `is_blocked` calls itself for what is nested.
#[inline(never)]
fn looks_apart(body: &[Stmt], level: usize) -> bool {
    let numbers = stand_ins();
    if level > numbers.len() {
        return false;
    }
    form_of(body, &numbers[..level], &numbers, 0).is_some()
}

#[cycle(has)]
fn is_blocked(s: &Stmt, level: usize) -> bool {
    match s {
        Stmt::Loop(bounds, body) => {
            (is_long(*bounds) && looks_apart(body, level))
                || has_blocks_in_turns(body, level.saturating_add(1))
        }
        Stmt::Block(all) => has_blocks_in_turns(all, level),
        Stmt::If(c, first, second) => {
            has_room(c) && (has_blocks_in_turns(first, level) || has_blocks_in_turns(second, level))
        }
        _ => false,
    }
}

// Whether all are loops, choices and braces, so that none of them is done alone.
fn are_nested(all: &[Stmt]) -> bool {
    for s in all {
        if !matches!(s, Stmt::Loop(_, _) | Stmt::If(_, _, _) | Stmt::Block(_)) {
            return false;
        }
    }
    true
}

// The same of statements that may be done in each turn of a loop. There a statement beside such a loop takes longer
// than its operations in the code of all, and a loop in a choice may come in few of the turns: so it counts only where
// there is none.
#[cycle(has)]
fn has_blocks_in_turns(all: &[Stmt], level: usize) -> bool {
    let alone = are_nested(all);
    for s in all {
        if (alone || !matches!(s, Stmt::If(_, _, _))) && is_blocked(s, level) {
            return true;
        }
    }
    false
}

/// Whether the statements of a region have a loop that is done in blocks, alone or in loops, braces and branches.
pub fn has_blocks(all: &[Stmt], level: usize) -> bool {
    for s in all {
        if is_blocked(s, level) {
            return true;
        }
    }
    false
}

// Statements, one operation after another. It has a frame of its own, as `in_blocks`, since `walk` calls itself.
#[inline(never)]
fn by_code(alloc: Global, all: &[Stmt], m: &mut Machine<'_, '_>) -> Result<(), AllocError>
    requires { CanDo (list_meaning all.now) m.old }
    ensures { OnOk result (HasDone (list_meaning all.now) m.old m.new) }
{
    let listing = ops_of(alloc, all)?;
    named(all);
    follow(alloc, &listing, Listed::All(all), m)?;
    Ok(())
}

// A loop in blocks of turns.
#[inline(never)]
fn in_blocks(
    alloc: Global,
    bounds: Bounds,
    form: Form<'_>,
    body: &[Stmt],
    m: &mut Machine<'_, '_>,
) -> Result<(), AllocError>
    requires step { bounds.step ≡ 1 }
    requires form { IsForm (slice_index m.old.scalars.value) m.old.loops.items body.now form }
    requires within { IsWithin form.offset bounds.end }
    requires can { CanDo (loop_meaning bounds body.now) m.old }
    ensures { OnOk result (HasDone (loop_meaning bounds body.now) m.old m.new) }
{
    blocks(
        alloc,
        form,
        body,
        &m.loops,
        bounds,
        &mut m.scalars,
        &mut m.rows,
    )?;
    Ok(())
}

// A statement whose own statements are not walked: by the values of its expressions where it has no statements and
// they are not deep, and else by its operations.
fn alone(alloc: Global, s: &Stmt, m: &mut Machine<'_, '_>) -> Result<(), AllocError>
    requires { CanDo (stmt_meaning s.now) m.old }
    ensures { OnOk result (HasDone (stmt_meaning s.now) m.old m.new) }
{
    match s {
        Stmt::Declare(x, v) | Stmt::Assign(x, v) if source_shallow(v) => {
            assign(*x, v, m);
            Ok(())
        }
        Stmt::Store(array, _, index, v) if has_room(index) && source_shallow(v) => {
            store_at(*array, index, v, m)
        }
        Stmt::Print(e) if has_room(e) => print(e, m),
        _ => by_code(alloc, slice::from_ref(s), m),
    }
}

#[cycle(walk)]
fn in_turn(alloc: Global, v: u64, body: &[Stmt], m: &mut Machine<'_, '_>) -> Result<(), AllocError>
    requires { CanDo (turn_meaning v body.now) m.old }
    ensures { OnOk result (HasDone (turn_meaning v body.now) m.old m.new) }
{
    m.loops.push(v)?;
    walk(alloc, body, m)?;
    let _ = pop(&mut m.loops);
    Ok(())
}

// A loop turn by turn.
#[cycle(walk)]
fn in_turns(
    alloc: Global,
    bounds: Bounds,
    body: &[Stmt],
    m: &mut Machine<'_, '_>,
) -> Result<(), AllocError>
    requires { CanDo (loop_meaning bounds body.now) m.old }
    ensures { OnOk result (HasDone (loop_meaning bounds body.now) m.old m.new) }
{
    let mut v = bounds.first;
    'turns: while v < bounds.end {
        in_turn(alloc, v, body, m)?;
        v += bounds.step;
    }
    Ok(())
}

// The statements of braces or of a branch.
#[cycle(walk)]
fn inside(alloc: Global, all: &[Stmt], m: &mut Machine<'_, '_>) -> Result<(), AllocError>
    requires { CanDo (list_meaning all.now) m.old }
    ensures { OnOk result (HasDone (list_meaning all.now) m.old m.new) }
{
    if all.is_empty() || has_blocks_in_turns(all, m.loops.len()) {
        return walk(alloc, all, m);
    }
    by_code(alloc, all, m)
}

#[cycle(walk)]
fn walk_one(alloc: Global, s: &Stmt, m: &mut Machine<'_, '_>) -> Result<(), AllocError>
    requires { CanDo (stmt_meaning s.now) m.old }
    ensures { OnOk result (HasDone (stmt_meaning s.now) m.old m.new) }
{
    if let Stmt::Loop(bounds, body) = s {
        let level = m.loops.len();
        if is_long(*bounds) {
            if let Some(form) = form_of(body, &m.loops, &m.scalars, bounds.end) {
                in_blocks(alloc, *bounds, form, body, m)?;
                return Ok(());
            }
        }
        if has_blocks_in_turns(body, level.saturating_add(1)) {
            in_turns(alloc, *bounds, body, m)?;
            return Ok(());
        }
    }
    if let Stmt::Block(all) = s {
        return inside(alloc, all, m);
    }
    if let Stmt::If(c, first, second) = s {
        if has_room(c) {
            if value_of(c, m) == 0 {
                return inside(alloc, second, m);
            }
            return inside(alloc, first, m);
        }
    }
    alone(alloc, s, m)
}

/// Does statements in order. The error comes for want of memory.
#[cycle(walk)]
pub fn walk(alloc: Global, all: &[Stmt], m: &mut Machine<'_, '_>) -> Result<(), AllocError>
    requires { CanDo (list_meaning all.now) m.old }
    ensures { OnOk result (HasDone (list_meaning all.now) m.old m.new) }
{
    for s in all {
        walk_one(alloc, s, m)?;
    }
    Ok(())
}

// Turns of a loop, one operation after another.
#[inline(never)]
fn turns_by_code(
    alloc: Global,
    bounds: Bounds,
    body: &[Stmt],
    m: &mut Machine<'_, '_>,
) -> Result<(), AllocError>
    requires { CanDo (loop_meaning bounds body.now) m.old }
    ensures { OnOk result (HasDone (loop_meaning bounds body.now) m.old m.new) }
{
    let listing = loop_ops(alloc, bounds, body)?;
    named(body);
    follow(alloc, &listing, Listed::Turns(bounds, body), m)?;
    Ok(())
}

/// Does turns of a loop. The error comes for want of memory.
pub fn some_turns(
    alloc: Global,
    bounds: Bounds,
    body: &[Stmt],
    m: &mut Machine<'_, '_>,
) -> Result<(), AllocError>
    requires { CanDo (loop_meaning bounds body.now) m.old }
    ensures { OnOk result (HasDone (loop_meaning bounds body.now) m.old m.new) }
{
    if is_long(bounds) {
        if let Some(form) = form_of(body, &m.loops, &m.scalars, bounds.end) {
            in_blocks(alloc, bounds, form, body, m)?;
            return Ok(());
        }
    }
    if has_blocks_in_turns(body, m.loops.len().saturating_add(1)) {
        in_turns(alloc, bounds, body, m)?;
        return Ok(());
    }
    turns_by_code(alloc, bounds, body, m)
}
