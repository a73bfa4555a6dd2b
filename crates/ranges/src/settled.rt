// Touches of which nothing new can be seen.

ghost use Rattle.std.specs.Prelude.{◌≡◌, ◌<◌, ◌∷◌, [], true, false, IfOk, IsTrue, OnOk};
ghost use Rattle.base.specs.Footprint.{expr_touches, source_touches, stmt_touches, unless};
ghost use Rattle.base.specs.Interval.{interval, is_known_nonzero, is_known_zero};
ghost use Rattle.ranges.specs.Cells.{HasAll};
ghost use Rattle.ranges.specs.Seen.{after, list_touches, seen_in, turns_from};
ghost use Rattle.ranges.specs.Settled.{AllSettled, AreSettled, Settles, Tells};
ghost use Rattle.ranges.specs.Straight.{touch_at, turns_at};

use crate::access::Access;
use crate::bound::{bound, is_the_same};
use crate::cells::CellSet;
use crate::span::Span;
use crate::state::Walk;
use crate::walk::{both, is_nonzero, is_zero, leaves};
use base::fault::Interval;
use base::tree::{ArrayId, Bounds, Expr, Source, Stmt};
use c_interval::interval;
use std::alloc::{AllocError, Global};

// What is known of a condition.
#[derive(Clone, Copy)]
struct Told {
    fails: bool,
    holds: bool,
    may_fail: bool,
    may_hold: bool,
}

// What is known of a condition with all of these values of the loops.
fn told_of(c: &Expr, span: &Span) -> Told
    ensures { Tells span.now.lows.items span.now.highs.items c.now result }
{
    if !is_the_same(c, &span.lows, &span.highs) {
        return Told {
            fails: false,
            holds: false,
            may_fail: true,
            may_hold: true,
        };
    }
    let known = interval(c, &span.lows);
    let (fails, holds) = (is_zero(known), is_nonzero(known));
    Told {
        fails,
        holds,
        may_fail: fails,
        may_hold: holds,
    }
}

impl CellSet {
    // Whether all of these cells of an array are in the set.
    fn has_all(&self, array: ArrayId, cells: Interval) -> bool
        ensures { IsTrue result → HasAll self.now array cells }
    {
        cells.hi < u64::MAX
            && self
                .row(array)
                .has_range(cells.lo as usize, cells.hi as usize + 1)
    }
}

impl Walk {
    // Whether all of these cells of an array were seen.
    fn has_seen(
        &self,
        lengths: &[u32],
        array: ArrayId,
        cells: Interval,
        writes: bool,
        certain: bool,
    ) -> bool
        ensures { IsTrue result → AreSettled lengths.now (seen_in self.now) array cells writes certain }
    {
        if leaves(lengths, array, cells) {
            return false;
        }
        if writes {
            self.found.write.has_all(array, cells)
                && (!certain || self.found.sure.has_all(array, cells))
        } else {
            self.found.read.has_all(array, cells)
        }
    }

    // Whether nothing new is seen of an access with these values of the loops.
    fn settles_access(
        &self,
        lengths: &[u32],
        access: &Access<'_>,
        certain: bool,
        span: &Span,
    ) -> bool
        ensures { IsTrue result → Settles lengths.now (seen_in self.now) span.now.lows.items span.now.highs.items certain (λ loops d. touch_at loops d access.now ∷ []) }
    {
        let (array, writes) = (access.array, access.writes);
        if is_the_same(access.subscript, &span.lows, &span.highs) {
            let cells = interval(access.subscript, &span.lows);
            return self.has_seen(
                lengths,
                array,
                cells,
                writes,
                both(certain, cells.lo == cells.hi),
            );
        }
        match bound(access.subscript, &span.lows, &span.highs) {
            Some(cells) => self.has_seen(lengths, array, cells, writes, certain),
            None => false,
        }
    }

    #[tactic(auto, using(crate::proofs::SettledTouches::both_settled))]
    fn settles_expr(&self, lengths: &[u32], e: &Expr, certain: bool, span: &Span) -> bool
        ensures { IsTrue result → Settles lengths.now (seen_in self.now) span.now.lows.items span.now.highs.items certain (expr_touches e.now) }
    {
        match e {
            Expr::Number(_) | Expr::Scalar(_) | Expr::LoopName(_) => true,
            Expr::Cell(array, place, subscript) => {
                let access = Access {
                    array: *array,
                    place: *place,
                    subscript,
                    writes: false,
                };
                self.settles_expr(lengths, subscript, certain, span)
                    && self.settles_access(lengths, &access, certain, span)
            }
            Expr::Unary(_, a) | Expr::Shift(_, a, _) | Expr::Divide(_, a, _) => {
                self.settles_expr(lengths, a, certain, span)
            }
            Expr::Binary(_, a, b) | Expr::And(a, b) | Expr::Or(a, b) => {
                self.settles_expr(lengths, a, certain, span)
                    && self.settles_expr(lengths, b, certain, span)
            }
        }
    }

    fn settles_source(&self, lengths: &[u32], v: &Source, certain: bool, span: &Span) -> bool
        ensures { IsTrue result → Settles lengths.now (seen_in self.now) span.now.lows.items span.now.highs.items certain (source_touches v.now) }
    {
        match v {
            Source::Value(e) => self.settles_expr(lengths, e, certain, span),
            Source::Read => true,
        }
    }

    // A store of a value.
    #[tactic(auto, using(crate::proofs::SettledTouches::both_settled))]
    fn settles_store(
        &self,
        lengths: &[u32],
        access: &Access<'_>,
        v: &Source,
        certain: bool,
        span: &Span,
    ) -> bool
        requires { access.now.writes ≡ true }
        ensures { IsTrue result → Settles lengths.now (seen_in self.now) span.now.lows.items span.now.highs.items certain (stmt_touches (Stmt.Store access.now.array access.now.place access.now.subscript.now v.now)) }
    {
        self.settles_expr(lengths, access.subscript, certain, span)
            && self.settles_source(lengths, v, certain, span)
            && self.settles_access(lengths, access, certain, span)
    }

    #[cycle(settles)]
    fn settles_stmt(
        &self,
        lengths: &[u32],
        s: &Stmt,
        certain: bool,
        span: &mut Span,
    ) -> Result<bool, AllocError>
        ensures lows { IfOk result (λ b. span.new.lows.items ≡ span.old.lows.items) }
        ensures highs { IfOk result (λ b. span.new.highs.items ≡ span.old.highs.items) }
        ensures settles { IfOk result (λ b. IsTrue b → Settles lengths.now (seen_in self.now) span.old.lows.items span.old.highs.items certain (stmt_touches s.now)) }
    {
        match s {
            Stmt::Declare(_, v) | Stmt::Assign(_, v) => {
                Ok(self.settles_source(lengths, v, certain, span))
            }
            Stmt::Store(array, place, e, v) => {
                let access = Access {
                    array: *array,
                    place: *place,
                    subscript: e,
                    writes: true,
                };
                Ok(self.settles_store(lengths, &access, v, certain, span))
            }
            Stmt::Combine(_, _, _, _, _) => Ok(false),
            Stmt::Print(e) => Ok(self.settles_expr(lengths, e, certain, span)),
            Stmt::Block(all) => self.settles_all(lengths, all, certain, span),
            Stmt::Loop(bounds, body) => {
                if bounds.first >= bounds.end {
                    return Ok(true);
                }
                self.settles_turns(lengths, *bounds, body, certain, span)
            }
            Stmt::If(c, first, second) => {
                if !self.settles_expr(lengths, c, certain, span) {
                    return Ok(false);
                }
                let told = told_of(c, span);
                Ok(
                    self.settles_unless(
                        told.fails,
                        lengths,
                        first,
                        both(certain, told.may_hold),
                        span,
                    )? && self.settles_unless(
                        told.holds,
                        lengths,
                        second,
                        both(certain, told.may_fail),
                        span,
                    )?,
                )
            }
        }
    }

    // Statements, unless they are excluded.
    #[cycle(settles)]
    fn settles_unless(
        &self,
        excluded: bool,
        lengths: &[u32],
        all: &[Stmt],
        certain: bool,
        span: &mut Span,
    ) -> Result<bool, AllocError>
        ensures lows { IfOk result (λ b. span.new.lows.items ≡ span.old.lows.items) }
        ensures highs { IfOk result (λ b. span.new.highs.items ≡ span.old.highs.items) }
        ensures settles { IfOk result (λ b. IsTrue b → excluded ≡ false → Settles lengths.now (seen_in self.now) span.old.lows.items span.old.highs.items certain (list_touches all.now)) }
    {
        if excluded {
            return Ok(true);
        }
        self.settles_all(lengths, all, certain, span)
    }

    #[cycle(settles)]
    fn settles_all(
        &self,
        lengths: &[u32],
        all: &[Stmt],
        certain: bool,
        span: &mut Span,
    ) -> Result<bool, AllocError>
        ensures lows { IfOk result (λ b. span.new.lows.items ≡ span.old.lows.items) }
        ensures highs { IfOk result (λ b. span.new.highs.items ≡ span.old.highs.items) }
        ensures settles { IfOk result (λ b. IsTrue b → Settles lengths.now (seen_in self.now) span.old.lows.items span.old.highs.items certain (list_touches all.now)) }
    {
        for s in all {
            if !self.settles_stmt(lengths, s, certain, span)? {
                return Ok(false);
            }
        }
        Ok(true)
    }

    // The turns of a loop.
    #[cycle(settles)]
    fn settles_turns(
        &self,
        lengths: &[u32],
        bounds: Bounds,
        body: &[Stmt],
        certain: bool,
        span: &mut Span,
    ) -> Result<bool, AllocError>
        requires { bounds.first < bounds.end }
        ensures lows { IfOk result (λ b. span.new.lows.items ≡ span.old.lows.items) }
        ensures highs { IfOk result (λ b. span.new.highs.items ≡ span.old.highs.items) }
        ensures settles { IfOk result (λ b. IsTrue b → Settles lengths.now (seen_in self.now) span.old.lows.items span.old.highs.items certain (turns_from bounds.first bounds body.now)) }
    {
        span.push(bounds.first, bounds.end - 1)?;
        let settled = self.settles_all(lengths, body, certain, span)?;
        span.pop();
        Ok(settled)
    }

    /// Whether nothing new is seen in the turns of a loop from this value of its name on.
    #[tactic(auto, using(crate::proofs::Spans::between_self))]
    pub fn settles_rest(
        &self,
        lengths: &[u32],
        v: u64,
        bounds: Bounds,
        body: &[Stmt],
        loops: &[u64],
        certain: bool,
    ) -> Result<bool, AllocError>
        ensures { IfOk result (λ b. IsTrue b → AllSettled lengths.now (seen_in self.now) (turns_from v bounds body.now loops.now certain)) }
    {
        if v >= bounds.end {
            return Ok(true);
        }
        let rest = Bounds {
            first: v,
            end: bounds.end,
            step: bounds.step,
        };
        let mut span = Span::new(self.found.alloc(), loops)?;
        self.settles_turns(lengths, rest, body, certain, &mut span)
    }

    /// Leaves those accesses out of which nothing new is seen in any turn of a loop.
    pub fn leave_settled(
        &self,
        alloc: Global,
        lengths: &[u32],
        bounds: Bounds,
        accesses: &mut Vec<Access<'_>>,
        loops: &[u64],
        certain: bool,
    ) -> Result<(), AllocError>
        requires { bounds.first < bounds.end }
        ensures { OnOk result (after lengths.now (turns_at bounds.first bounds accesses.new.items loops.now certain) (seen_in self.now) ≡ after lengths.now (turns_at bounds.first bounds accesses.old.items loops.now certain) (seen_in self.now)) }
    {
        let mut span = Span::new(alloc, loops)?;
        span.push(bounds.first, bounds.end - 1)?;
        let mut i = 0;
        while i < accesses.len() {
            if self.settles_access(lengths, &accesses[i], certain, &span) {
                let _ = accesses.remove(i);
            } else {
                i += 1;
            }
        }
        Ok(())
    }
}
