// Statements without loops and conditions, as a list of their accesses.

ghost use Rattle.std.specs.Prelude.{◌≡◌, ◌++◌, ◌-◌, ℕ, Bool, List, IfOk, IfSome, IsTrue, OnOk};
ghost use Rattle.base.specs.Footprint.{expr_touches, source_touches, stmt_touches, turns_touch};
ghost use Rattle.base.specs.Meaning.{turns_left};
ghost use Rattle.ranges.specs.Seen.{after, after_touch, list_touches, seen_in, turns_from};
ghost use Rattle.ranges.specs.Straight.{Adds, touch_at, touches_at, turns_at};

use crate::access::Access;
use crate::state::Walk;
use base::tree::{Bounds, Expr, Source, Stmt};
use c_interval::interval;
use std::alloc::{AllocError, Global};

// Adds the reads of an expression.
fn add_expr<'r>(e: &'r Expr, accesses: &mut Vec<Access<'r>>) -> Result<(), AllocError>
    ensures { OnOk result (Adds (expr_touches e.now) accesses.old.items accesses.new.items) }
{
    match e {
        Expr::Number(_) | Expr::Scalar(_) | Expr::LoopName(_) => Ok(()),
        Expr::Cell(array, place, subscript) => {
            add_expr(subscript, accesses)?;
            accesses.push(Access {
                array: *array,
                place: *place,
                subscript,
                writes: false,
            })?;
            Ok(())
        }
        Expr::Unary(_, a) | Expr::Shift(_, a, _) | Expr::Divide(_, a, _) => add_expr(a, accesses),
        Expr::Binary(_, a, b) | Expr::And(a, b) | Expr::Or(a, b) => {
            add_expr(a, accesses)?;
            add_expr(b, accesses)
        }
    }
}

fn add_source<'r>(v: &'r Source, accesses: &mut Vec<Access<'r>>) -> Result<(), AllocError>
    ensures { OnOk result (Adds (source_touches v.now) accesses.old.items accesses.new.items) }
{
    match v {
        Source::Value(e) => add_expr(e, accesses),
        Source::Read => Ok(()),
    }
}

// Adds the accesses of a statement, and answers whether that is one without loops and conditions.
fn add_stmt<'r>(s: &'r Stmt, accesses: &mut Vec<Access<'r>>) -> Result<bool, AllocError>
    ensures { IfOk result (λ straight. IsTrue straight → Adds (stmt_touches s.now) accesses.old.items accesses.new.items) }
{
    match s {
        Stmt::Declare(_, v) | Stmt::Assign(_, v) => add_source(v, accesses)?,
        Stmt::Print(e) => add_expr(e, accesses)?,
        Stmt::Store(array, place, e, v) => {
            add_expr(e, accesses)?;
            add_source(v, accesses)?;
            accesses.push(Access {
                array: *array,
                place: *place,
                subscript: e,
                writes: true,
            })?;
        }
        Stmt::Combine(_, _, _, _, _) | Stmt::Block(_) | Stmt::Loop(_, _) | Stmt::If(_, _, _) =>
            return Ok(false),
    }
    Ok(true)
}

/// The accesses of statements, in order, where none of these is a block, a loop or a condition.
pub fn accesses_of<'r>(
    alloc: Global,
    all: &'r [Stmt],
) -> Result<Option<Vec<Access<'r>>>, AllocError>
    ensures { IfOk result (λ some. IfSome some (λ accesses. (loops : List ℕ) (certain : Bool) → touches_at accesses.items loops certain ≡ list_touches all.now loops certain)) }
{
    let mut accesses = Vec::new(alloc);
    for s in all {
        if !add_stmt(s, &mut accesses)? {
            return Ok(None);
        }
    }
    Ok(Some(accesses))
}

impl Walk {
    fn note(
        &mut self,
        lengths: &[u32],
        access: &Access<'_>,
        loops: &[u64],
        certain: bool,
    ) -> Result<(), AllocError>
        ensures { OnOk result (seen_in self.new ≡ after_touch lengths.now (touch_at loops.now certain access.now) (seen_in self.old)) }
    {
        let cells = interval(access.subscript, loops);
        if access.writes {
            self.note_write(lengths, access.array, access.place, cells, certain)
        } else {
            self.note_read(lengths, access.array, access.place, cells)
        }
    }

    fn note_all(
        &mut self,
        lengths: &[u32],
        accesses: &[Access<'_>],
        loops: &[u64],
        certain: bool,
    ) -> Result<(), AllocError>
        ensures { OnOk result (seen_in self.new ≡ after lengths.now (touches_at accesses.now loops.now certain) (seen_in self.old)) }
    {
        for access in accesses {
            self.note(lengths, access, loops, certain)?;
        }
        Ok(())
    }

    /// The accesses in each turn of a loop.
    pub fn note_turns(
        &mut self,
        lengths: &[u32],
        bounds: Bounds,
        accesses: &[Access<'_>],
        loops: &mut Vec<u64>,
        certain: bool,
    ) -> Result<(), AllocError>
        ensures loops { OnOk result (loops.new.items ≡ loops.old.items) }
        ensures seen { OnOk result (seen_in self.new ≡ after lengths.now (turns_at bounds.first bounds accesses.now loops.old.items certain) (seen_in self.old)) }
    {
        let mut v = bounds.first;
        while v < bounds.end {
            loops.push(v)?;
            self.note_all(lengths, accesses, loops, certain)?;
            let _ = loops.pop();
            v += bounds.step;
        }
        Ok(())
    }
}
