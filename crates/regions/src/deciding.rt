// Which of the loops around a region decide what it touches.

ghost use Rattle.std.specs.Prelude.{◌≡◌, IfOk, IsTrue, false, if◌then◌else◌, length};
ghost use Rattle.regions.specs.Deciding.{AgreeWhereDeciding, AreDeciding, AreMarkedValues, decides, expr_decides, list_decides, source_decides, stmt_decides};

use base::tree::{Expr, Region, Source, Stmt};
use std::alloc::{AllocError, Global};

// Whether an expression names the loop at this level in a subscript, or anywhere if its own value decides.
fn in_expr(deciding: bool, level: usize, e: &Expr) -> bool
    ensures { result ≡ expr_decides deciding level e.now }
{
    match e {
        Expr::Number(_) | Expr::Scalar(_) => false,
        Expr::LoopName(other) => deciding && *other as usize == level,
        Expr::Cell(_, _, subscript) => in_expr(true, level, subscript),
        Expr::Unary(_, a) | Expr::Shift(_, a, _) | Expr::Divide(_, a, _) => in_expr(
            deciding, level, a,
        ),
        Expr::Binary(_, a, b) | Expr::And(a, b) | Expr::Or(a, b) => {
            in_expr(deciding, level, a) || in_expr(deciding, level, b)
        }
    }
}

fn in_source(level: usize, v: &Source) -> bool
    ensures { result ≡ source_decides level v.now }
{
    match v {
        Source::Value(e) => in_expr(false, level, e),
        Source::Read => false,
    }
}

#[tactic(auto, using(crate::proofs::DecidingRows::decides_Block))]
#[cycle(deciding)]
fn in_stmt(level: usize, s: &Stmt) -> bool
    ensures { result ≡ stmt_decides level s.now }
{
    match s {
        Stmt::Declare(_, v) | Stmt::Assign(_, v) => in_source(level, v),
        Stmt::Store(_, _, e, v) => in_expr(true, level, e) || in_source(level, v),
        Stmt::Combine(_, _, _, e, v) => in_expr(true, level, e) || in_expr(false, level, v),
        Stmt::Print(e) => in_expr(false, level, e),
        Stmt::Block(all) => body_decides(level, all),
        Stmt::Loop(_, body) => body_decides(level, body),
        Stmt::If(c, first, second) => {
            in_expr(true, level, c) | body_decides(level, first) | body_decides(level, second)
        }
    }
}

/// Whether statements name the loop at this level in a subscript or in a condition. It takes no memory, and time for each
/// expression.
#[cycle(deciding)]
pub fn body_decides(level: usize, all: &[Stmt]) -> bool
    ensures { result ≡ list_decides level all.now }
{
    'all: for s in all {
        if in_stmt(level, s) {
            return true;
        }
    }
    false
}

// Whether a region names the loop at this level in a subscript or in a condition.
fn loop_decides(level: usize, region: &Region) -> bool
    ensures { result ≡ decides level region.now }
{
    body_decides(level, &region.body)
}

/// Whether two lists of as many loop values have the same ones for each loop that decides what a region touches. It
/// takes no memory, and time for each expression once for each loop whose two values differ.
pub fn agree_where_deciding(region: &Region, loops: &[u64], other: &[u64]) -> bool
    ensures agree { IsTrue result → AgreeWhereDeciding region.now loops.now other.now }
    ensures differ { result ≡ false → AgreeWhereDeciding region.now loops.now other.now → ⊥ }
{
    if loops.len() != other.len() {
        return false;
    }
    'levels: for level in 0..loops.len() {
        if loops[level] != other[level] && loop_decides(level, region) {
            return false;
        }
    }
    true
}

/// For each of so many loops around a region, the outermost first, whether it decides what the region touches.
pub fn deciding_loops(alloc: Global, outer: usize, region: &Region) -> Result<Vec<bool>, AllocError>
    ensures { IfOk result (λ marks. AreDeciding region.now outer marks.items) }
{
    let mut marks = Vec::new(alloc);
    'levels: for level in 0..outer {
        marks.push(loop_decides(level, region))?;
    }
    Ok(marks)
}

fn if_marked(mark: bool, value: u64) -> u64
    ensures { result ≡ (if mark then value else 0) }
{
    if mark { value } else { 0 }
}

/// The values of the loops, with 0 for each that is not marked. Two items of a region whose marked values are the same
/// touch alike.
pub fn marked_values(alloc: Global, marks: &[bool], loops: &[u64]) -> Result<Vec<u64>, AllocError>
    requires { length marks.now ≡ length loops.now }
    ensures { IfOk result (λ values. AreMarkedValues marks.now loops.now values.items) }
{
    let mut values = Vec::new(alloc);
    'levels: for level in 0..loops.len() {
        values.push(if_marked(marks[level], loops[level]))?;
    }
    Ok(values)
}
