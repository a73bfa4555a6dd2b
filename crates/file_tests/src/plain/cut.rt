//! Regions whose loops are cut into short ones: the same turns in the same order.

ghost use Rattle.std.specs.Prelude.{◌≤◌};

use base::tree::{Bounds, CombineOp, Expr, Place, Region, Source, Stmt};
use std::alloc::{AllocError, Global};

fn copy_of(alloc: Global, e: &Expr) -> Result<Expr, AllocError> {
    Ok(match e {
        Expr::Number(number) => Expr::Number(*number),
        Expr::Scalar(id) => Expr::Scalar(*id),
        Expr::LoopName(level) => Expr::LoopName(*level),
        Expr::Cell(array, place, index) => {
            Expr::Cell(*array, *place, Box::new(alloc, copy_of(alloc, index)?)?)
        }
        Expr::Unary(op, a) => Expr::Unary(*op, Box::new(alloc, copy_of(alloc, a)?)?),
        Expr::Binary(op, a, b) => {
            let (a, b) = (copy_of(alloc, a)?, copy_of(alloc, b)?);
            Expr::Binary(*op, Box::new(alloc, a)?, Box::new(alloc, b)?)
        }
        Expr::And(a, b) => {
            let (a, b) = (copy_of(alloc, a)?, copy_of(alloc, b)?);
            Expr::And(Box::new(alloc, a)?, Box::new(alloc, b)?)
        }
        Expr::Or(a, b) => {
            let (a, b) = (copy_of(alloc, a)?, copy_of(alloc, b)?);
            Expr::Or(Box::new(alloc, a)?, Box::new(alloc, b)?)
        }
        Expr::Shift(op, a, by) => Expr::Shift(*op, Box::new(alloc, copy_of(alloc, a)?)?, *by),
        Expr::Divide(op, a, by) => Expr::Divide(*op, Box::new(alloc, copy_of(alloc, a)?)?, *by),
    })
}

fn copy_of_source(alloc: Global, source: &Source) -> Result<Source, AllocError> {
    match source {
        Source::Value(e) => Ok(Source::Value(copy_of(alloc, e)?)),
        Source::Read => Ok(Source::Read),
    }
}

/// How statements are cut: no loop has two values of its name that are `span` or more apart, and commuting updates by
/// this operator are left out, but for what their operands touch.
#[derive(Clone, Copy)]
struct Cutting {
    span: u64,
    without: Option<CombineOp>,
}

pub(crate) fn is_same(one: CombineOp, other: CombineOp) -> bool {
    one as u8 == other as u8
}

impl Cutting {
    fn leaves_out(self, op: CombineOp) -> bool {
        match self.without {
            None => false,
            Some(left) => is_same(left, op),
        }
    }
}

/// Adds what touches the same as an expression.
fn add_operand(alloc: Global, e: &Expr, out: &mut Vec<Stmt>) -> Result<(), AllocError> {
    let test = copy_of(alloc, e)?;
    out.push(Stmt::If(test, Vec::new(alloc), Vec::new(alloc)))?;
    Ok(())
}

/// Adds a statement that is cut.
#[cycle(cut)]
fn add_cut(
    alloc: Global,
    how: Cutting,
    stmt: &Stmt,
    out: &mut Vec<Stmt>,
) -> Result<(), AllocError> {
    let copy = match stmt {
        Stmt::Declare(id, source) => Stmt::Declare(*id, copy_of_source(alloc, source)?),
        Stmt::Assign(id, source) => Stmt::Assign(*id, copy_of_source(alloc, source)?),
        Stmt::Store(array, place, index, source) => {
            let index = copy_of(alloc, index)?;
            Stmt::Store(*array, *place, index, copy_of_source(alloc, source)?)
        }
        Stmt::Combine(op, _, _, index, value) if how.leaves_out(*op) => {
            add_operand(alloc, index, out)?;
            return add_operand(alloc, value, out);
        }
        Stmt::Combine(op, array, place, index, value) => {
            let index = copy_of(alloc, index)?;
            Stmt::Combine(*op, *array, *place, index, copy_of(alloc, value)?)
        }
        Stmt::Print(e) => Stmt::Print(copy_of(alloc, e)?),
        Stmt::Block(inner) => Stmt::Block(all_cut(alloc, how, inner)?),
        Stmt::Loop(bounds, inner) => return add_loops(alloc, how, *bounds, inner, out),
        Stmt::If(test, first, second) => {
            let test = copy_of(alloc, test)?;
            let first = all_cut(alloc, how, first)?;
            Stmt::If(test, first, all_cut(alloc, how, second)?)
        }
    };
    out.push(copy)?;
    Ok(())
}

/// The least multiple of a loop's step that is `span` or more.
fn ahead(span: u64, step: u64) -> u64
    requires { 1 ≤ step }
    ensures { 1 ≤ result }
{
    span.max(1).div_ceil(step).saturating_mul(step).max(1)
}

/// The turns of a loop, in loops one behind the other.
#[cycle(cut)]
fn add_loops(
    alloc: Global,
    how: Cutting,
    bounds: Bounds,
    inner: &[Stmt],
    out: &mut Vec<Stmt>,
) -> Result<(), AllocError> {
    let ahead = ahead(how.span, bounds.step);
    let mut first = bounds.first;
    for _ in 0..bounds.end.saturating_sub(first).div_ceil(ahead) {
        let short = Bounds {
            first,
            end: bounds.end.min(first.saturating_add(how.span)),
            step: bounds.step,
        };
        out.push(Stmt::Loop(short, all_cut(alloc, how, inner)?))?;
        first = first.saturating_add(ahead);
    }
    Ok(())
}

#[cycle(cut)]
fn all_cut(alloc: Global, how: Cutting, all: &[Stmt]) -> Result<Vec<Stmt>, AllocError> {
    let mut out = Vec::new(alloc);
    for stmt in all {
        add_cut(alloc, how, stmt, &mut out)?;
    }
    Ok(out)
}

/// A region with the same turns. No loop in it has two values of its name that are `span` or more apart, which is at
/// least 1.
pub(crate) fn cut(alloc: Global, span: u64, region: &Region) -> Result<Region, AllocError> {
    let how = Cutting {
        span,
        without: None,
    };
    Ok(Region {
        place: region.place,
        body: all_cut(alloc, how, &region.body)?,
        depth: 0,
    })
}

/// A region of these statements, in order, without the commuting updates by an operator.
pub(crate) fn in_order(
    alloc: Global,
    place: Place,
    body: &[Stmt],
    without: Option<CombineOp>,
) -> Result<Region, AllocError> {
    let how = Cutting {
        span: u64::MAX,
        without,
    };
    Ok(Region {
        place,
        body: all_cut(alloc, how, body)?,
        depth: 0,
    })
}

#[cycle(turns)]
fn turns_in(stmt: &Stmt) -> u64 {
    match stmt {
        Stmt::Declare(_, _)
        | Stmt::Assign(_, _)
        | Stmt::Store(_, _, _, _)
        | Stmt::Combine(_, _, _, _, _)
        | Stmt::Print(_) => 0,
        Stmt::Block(inner) => turns_in_all(inner),
        Stmt::Loop(bounds, inner) => {
            let turns = turns_in_all(inner).saturating_add(1);
            bounds.turns().saturating_mul(turns)
        }
        Stmt::If(_, first, second) => turns_in_all(first).saturating_add(turns_in_all(second)),
    }
}

/// How many turns the loops of statements have, those of a loop in a loop once for each turn of that. What is above any
/// number is the greatest one.
#[cycle(turns)]
pub(crate) fn turns_in_all(all: &[Stmt]) -> u64 {
    let mut turns = 0_u64;
    for stmt in all {
        turns = turns.saturating_add(turns_in(stmt));
    }
    turns
}
