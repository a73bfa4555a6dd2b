// The walk over the statements of turns that may run in any order, instance by instance.

ghost use Rattle.std.specs.Prelude.{◌≡◌, OnOk, true};
ghost use Rattle.base.specs.Footprint.{expr_touches, source_touches, stmt_touches, unless};
ghost use Rattle.base.specs.Turns.{turns_at};
ghost use Rattle.ranges.specs.Seen.{list_touches, turns_from};
ghost use Rattle.ranges.specs.Ways.{after_turn, after_turns, after_uses, noted_in};

use crate::met::Meetings;
use crate::nest::nest_at;
use crate::walk::{is_nonzero, is_zero};
use crate::way::Way;
use base::tree::{Bounds, Expr, Source, Stmt};
use c_interval::interval;
use std::alloc::AllocError;

// The reads of an expression are noted.
#[tactic(auto, using(crate::proofs::TurnUses::uses_append))]
fn note_expr(
    e: &Expr,
    adds: bool,
    lengths: &[u32],
    loops: &[u64],
    meetings: &mut Meetings,
) -> Result<(), AllocError>
    ensures { OnOk result (noted_in meetings.new ≡ after_uses lengths.now adds (expr_touches e.now loops.now true) (noted_in meetings.old)) }
{
    match e {
        Expr::Number(_) | Expr::Scalar(_) | Expr::LoopName(_) => Ok(()),
        Expr::Cell(array, _, subscript) => {
            note_expr(subscript, adds, lengths, loops, meetings)?;
            meetings.note(adds, lengths, Way::Read, *array, interval(subscript, loops))
        }
        Expr::Unary(_, a) | Expr::Shift(_, a, _) | Expr::Divide(_, a, _) => note_expr(
            a, adds, lengths, loops, meetings,
        ),
        Expr::Binary(_, a, b) | Expr::And(a, b) | Expr::Or(a, b) => {
            note_expr(a, adds, lengths, loops, meetings)?;
            note_expr(b, adds, lengths, loops, meetings)
        }
    }
}

fn note_source(
    v: &Source,
    adds: bool,
    lengths: &[u32],
    loops: &[u64],
    meetings: &mut Meetings,
) -> Result<(), AllocError>
    ensures { OnOk result (noted_in meetings.new ≡ after_uses lengths.now adds (source_touches v.now loops.now true) (noted_in meetings.old)) }
{
    match v {
        Source::Value(e) => note_expr(e, adds, lengths, loops, meetings),
        Source::Read => Ok(()),
    }
}

// The live instances of a statement are noted.
#[tactic(auto, using(crate::proofs::TurnUses::uses_append, crate::proofs::Touches::touches_Block, crate::proofs::Touches::touches_Loop))]
#[cycle(note)]
fn note_stmt(
    s: &Stmt,
    adds: bool,
    lengths: &[u32],
    loops: &mut Vec<u64>,
    meetings: &mut Meetings,
) -> Result<(), AllocError>
    ensures loops { OnOk result (loops.new.items ≡ loops.old.items) }
    ensures noted { OnOk result (noted_in meetings.new ≡ after_uses lengths.now adds (stmt_touches s.now loops.old.items true) (noted_in meetings.old)) }
{
    match s {
        Stmt::Declare(_, v) | Stmt::Assign(_, v) => note_source(v, adds, lengths, loops, meetings),
        Stmt::Store(array, _, e, v) => {
            note_expr(e, adds, lengths, loops, meetings)?;
            note_source(v, adds, lengths, loops, meetings)?;
            meetings.note(adds, lengths, Way::Write, *array, interval(e, loops))
        }
        Stmt::Combine(op, array, _, e, v) => {
            note_expr(e, adds, lengths, loops, meetings)?;
            note_expr(v, adds, lengths, loops, meetings)?;
            let cells = interval(e, loops);
            meetings.note(adds, lengths, Way::Update(*op), *array, cells)?;
            meetings.note(adds, lengths, Way::Update(*op), *array, cells)
        }
        Stmt::Print(e) => note_expr(e, adds, lengths, loops, meetings),
        Stmt::Block(all) => note_all(all, adds, lengths, loops, meetings),
        Stmt::Loop(bounds, body) => note_loop(*bounds, body, adds, lengths, loops, meetings),
        Stmt::If(c, first, second) => {
            note_expr(c, adds, lengths, loops, meetings)?;
            let known = interval(c, loops);
            note_unless(is_zero(known), first, adds, lengths, loops, meetings)?;
            note_unless(is_nonzero(known), second, adds, lengths, loops, meetings)
        }
    }
}

// Statements, unless they are excluded.
#[cycle(note)]
fn note_unless(
    excluded: bool,
    all: &[Stmt],
    adds: bool,
    lengths: &[u32],
    loops: &mut Vec<u64>,
    meetings: &mut Meetings,
) -> Result<(), AllocError>
    ensures loops { OnOk result (loops.new.items ≡ loops.old.items) }
    ensures noted { OnOk result (noted_in meetings.new ≡ after_uses lengths.now adds (unless excluded (list_touches all.now loops.old.items true)) (noted_in meetings.old)) }
{
    if excluded {
        return Ok(());
    }
    note_all(all, adds, lengths, loops, meetings)
}

// The live instances of statements in turn.
#[cycle(note)]
fn note_all(
    all: &[Stmt],
    adds: bool,
    lengths: &[u32],
    loops: &mut Vec<u64>,
    meetings: &mut Meetings,
) -> Result<(), AllocError>
    ensures loops { OnOk result (loops.new.items ≡ loops.old.items) }
    ensures noted { OnOk result (noted_in meetings.new ≡ after_uses lengths.now adds (list_touches all.now loops.old.items true) (noted_in meetings.old)) }
{
    for s in all {
        note_stmt(s, adds, lengths, loops, meetings)?;
    }
    Ok(())
}

// Each turn of a loop.
#[cycle(note)]
fn note_loop(
    bounds: Bounds,
    body: &[Stmt],
    adds: bool,
    lengths: &[u32],
    loops: &mut Vec<u64>,
    meetings: &mut Meetings,
) -> Result<(), AllocError>
    ensures loops { OnOk result (loops.new.items ≡ loops.old.items) }
    ensures noted { OnOk result (noted_in meetings.new ≡ after_uses lengths.now adds (turns_from bounds.first bounds body.now loops.old.items true) (noted_in meetings.old)) }
{
    let mut v = bounds.first;
    while v < bounds.end {
        loops.push(v)?;
        note_all(body, adds, lengths, loops, meetings)?;
        let _ = loops.pop();
        v += bounds.step;
    }
    Ok(())
}

// One turn that may run before and after the others: it is tested against those before, and then added to them.
fn note_turn(
    body: &[Stmt],
    lengths: &[u32],
    loops: &mut Vec<u64>,
    meetings: &mut Meetings,
) -> Result<(), AllocError>
    ensures loops { OnOk result (loops.new.items ≡ loops.old.items) }
    ensures noted { OnOk result (noted_in meetings.new ≡ after_turn lengths.now (record { loops = loops.old.items; body = body.now }) (noted_in meetings.old)) }
{
    note_all(body, false, lengths, loops, meetings)?;
    note_all(body, true, lengths, loops, meetings)
}

/// The turns of so many outermost loops are noted, one after the other.
pub fn note_turns(
    depth: u8,
    body: &[Stmt],
    lengths: &[u32],
    loops: &mut Vec<u64>,
    meetings: &mut Meetings,
) -> Result<(), AllocError>
    ensures loops { OnOk result (loops.new.items ≡ loops.old.items) }
    ensures noted { OnOk result (noted_in meetings.new ≡ after_turns lengths.now (turns_at depth body.now loops.old.items) (noted_in meetings.old)) }
{
    let Some(nest) = nest_at(depth, body) else {
        return note_turn(body, lengths, loops, meetings);
    };
    let mut v = nest.bounds.first;
    while v < nest.bounds.end {
        loops.push(v)?;
        note_turns(depth - 1, nest.body, lengths, loops, meetings)?;
        let _ = loops.pop();
        v += nest.bounds.step;
    }
    Ok(())
}
