// Statements whose conditions are alike in all turns of a loop, as the accesses that they make.

ghost use Rattle.std.specs.Prelude.{◌≡◌, ◌<◌, ◌++◌, ◌∷◌, [], true, IfOk, IsTrue};
ghost use Rattle.base.specs.Footprint.{expr_touches, source_touches, stmt_touches, unless};
ghost use Rattle.ranges.specs.Cases.{AddsSlides};
ghost use Rattle.ranges.specs.Seen.{list_touches};
ghost use Rattle.ranges.specs.Straight.{touch_at};

use crate::access::Access;
use crate::slide::Slide;
use crate::sliding::slide_of;
use crate::steady::is_steady;
use crate::walk::{both, is_nonzero, is_zero};
use base::tree::{Bounds, Expr, Source, Stmt};
use c_interval::interval;
use std::alloc::AllocError;

/// Turns of a loop: the values of the loops around it, and the same with the loop's first value behind them.
#[derive(Clone, Copy)]
pub struct Turns<'r> {
    pub lengths: &'r [u32],
    pub loops: &'r [u64],
    pub here: &'r [u64],
    pub bounds: Bounds,
    ghost some: { bounds.first < bounds.end },
    ghost values: { here.now ≡ loops.now ++ bounds.first ∷ [] },
}

// Adds an access, and answers whether its cell moves on by a multiple of what the loop's name does and stays in its array.
#[tactic(auto, using(crate::proofs::CaseSlides::one_added))]
fn add_access(
    turns: &Turns<'_>,
    access: &Access<'_>,
    certain: bool,
    slides: &mut Vec<Slide>,
) -> Result<bool, AllocError>
    ensures { IfOk result (λ all. IsTrue all → AddsSlides turns.now.lengths.now turns.now.loops.now turns.now.bounds (λ ls. touch_at ls certain access.now ∷ []) slides.old.items slides.new.items) }
{
    match slide_of(turns.lengths, access, turns.loops, turns.bounds, certain) {
        Some(slide) => {
            slides.push(slide)?;
            Ok(true)
        }
        None => Ok(false),
    }
}

// Adds the reads of an expression, and answers whether this holds of each.
#[tactic(auto, using(crate::proofs::CaseSlides::none_added, crate::proofs::CaseSlides::both_added))]
fn add_reads(
    turns: &Turns<'_>,
    e: &Expr,
    certain: bool,
    slides: &mut Vec<Slide>,
) -> Result<bool, AllocError>
    ensures { IfOk result (λ all. IsTrue all → AddsSlides turns.now.lengths.now turns.now.loops.now turns.now.bounds (λ ls. expr_touches e.now ls certain) slides.old.items slides.new.items) }
{
    match e {
        Expr::Number(_) | Expr::Scalar(_) | Expr::LoopName(_) => Ok(true),
        Expr::Cell(array, place, subscript) => {
            let access = Access {
                array: *array,
                place: *place,
                subscript,
                writes: false,
            };
            if !add_reads(turns, subscript, certain, slides)? {
                return Ok(false);
            }
            add_access(turns, &access, certain, slides)
        }
        Expr::Unary(_, a) | Expr::Shift(_, a, _) | Expr::Divide(_, a, _) => {
            add_reads(turns, a, certain, slides)
        }
        Expr::Binary(_, a, b) | Expr::And(a, b) | Expr::Or(a, b) => {
            if !add_reads(turns, a, certain, slides)? {
                return Ok(false);
            }
            add_reads(turns, b, certain, slides)
        }
    }
}

#[tactic(auto, using(crate::proofs::CaseSlides::none_added))]
fn add_source(
    turns: &Turns<'_>,
    v: &Source,
    certain: bool,
    slides: &mut Vec<Slide>,
) -> Result<bool, AllocError>
    ensures { IfOk result (λ all. IsTrue all → AddsSlides turns.now.lengths.now turns.now.loops.now turns.now.bounds (λ ls. source_touches v.now ls certain) slides.old.items slides.new.items) }
{
    match v {
        Source::Value(e) => add_reads(turns, e, certain, slides),
        Source::Read => Ok(true),
    }
}

// A store of a value.
#[tactic(auto, using(crate::proofs::CaseSlides::both_added))]
fn add_store(
    turns: &Turns<'_>,
    access: &Access<'_>,
    v: &Source,
    certain: bool,
    slides: &mut Vec<Slide>,
) -> Result<bool, AllocError>
    requires { access.now.writes ≡ true }
    ensures { IfOk result (λ all. IsTrue all → AddsSlides turns.now.lengths.now turns.now.loops.now turns.now.bounds (λ ls. stmt_touches (Stmt.Store access.now.array access.now.place access.now.subscript.now v.now) ls certain) slides.old.items slides.new.items) }
{
    if !add_reads(turns, access.subscript, certain, slides)? {
        return Ok(false);
    }
    if !add_source(turns, v, certain, slides)? {
        return Ok(false);
    }
    add_access(turns, access, certain, slides)
}

// Adds the accesses of a statement, and answers whether this holds of each, it has no loop in it, and its conditions are
// alike in all turns.
#[cycle(cases)]
#[tactic(auto, using(crate::proofs::CaseSlides::both_added, crate::proofs::Touches::touches_Block))]
fn add_stmt(
    turns: &Turns<'_>,
    s: &Stmt,
    certain: bool,
    slides: &mut Vec<Slide>,
) -> Result<bool, AllocError>
    ensures { IfOk result (λ all. IsTrue all → AddsSlides turns.now.lengths.now turns.now.loops.now turns.now.bounds (λ ls. stmt_touches s.now ls certain) slides.old.items slides.new.items) }
{
    match s {
        Stmt::Declare(_, v) | Stmt::Assign(_, v) => add_source(turns, v, certain, slides),
        Stmt::Print(e) => add_reads(turns, e, certain, slides),
        Stmt::Store(array, place, e, v) => {
            let access = Access {
                array: *array,
                place: *place,
                subscript: e,
                writes: true,
            };
            add_store(turns, &access, v, certain, slides)
        }
        Stmt::Block(all) => add_all(turns, all, certain, slides),
        Stmt::Combine(_, _, _, _, _) | Stmt::Loop(_, _) => Ok(false),
        Stmt::If(c, first, second) => {
            if !is_steady(c, turns.loops, turns.bounds) {
                return Ok(false);
            }
            if !add_reads(turns, c, certain, slides)? {
                return Ok(false);
            }
            let known = interval(c, turns.here);
            let (fails, holds) = (is_zero(known), is_nonzero(known));
            if !add_unless(fails, turns, first, both(certain, holds), slides)? {
                return Ok(false);
            }
            add_unless(holds, turns, second, both(certain, fails), slides)
        }
    }
}

// Statements, unless they are excluded.
#[cycle(cases)]
#[tactic(auto, using(crate::proofs::CaseSlides::none_added))]
fn add_unless(
    excluded: bool,
    turns: &Turns<'_>,
    all: &[Stmt],
    certain: bool,
    slides: &mut Vec<Slide>,
) -> Result<bool, AllocError>
    ensures { IfOk result (λ done. IsTrue done → AddsSlides turns.now.lengths.now turns.now.loops.now turns.now.bounds (λ ls. unless excluded (list_touches all.now ls certain)) slides.old.items slides.new.items) }
{
    if excluded {
        return Ok(true);
    }
    add_all(turns, all, certain, slides)
}

/// Adds the accesses of statements in the turns of a loop, and answers whether each moves on by a multiple of what the
/// loop's name does and stays in its array, there is no loop in the statements, and the conditions in them are alike in
/// all turns.
#[cycle(cases)]
pub fn add_all(
    turns: &Turns<'_>,
    all: &[Stmt],
    certain: bool,
    slides: &mut Vec<Slide>,
) -> Result<bool, AllocError>
    ensures { IfOk result (λ done. IsTrue done → AddsSlides turns.now.lengths.now turns.now.loops.now turns.now.bounds (λ ls. list_touches all.now ls certain) slides.old.items slides.new.items) }
{
    for s in all {
        if !add_stmt(turns, s, certain, slides)? {
            return Ok(false);
        }
    }
    Ok(true)
}
