// The value of an expression in each turn of a block.

ghost use Rattle.std.specs.Prelude.{ℕ, ◌≡◌, ◌+◌, ◌<◌, ◌≤◌, ◌^◌, Some, IfSome, OnOk, length, slice_index};
ghost use Rattle.base.specs.Rows.{at_index};
ghost use Rattle.base.specs.Value.{and_of, binary, on_both, or_of, value};
ghost use Rattle.kernel.specs.Lanes.{Agrees, AreLoaded, AreValues, HaveSize, IsRun, IsRunFrom, cell_of, lane_scalars, names_of};
ghost use Rattle.kernel.specs.Rows.{cells_kept};

use crate::apart::is_turn;
use crate::run_row::RunRow;
use crate::turns::{Lane, Reads};
use base::tree::{ArrayId, BinaryOp, Expr, ScalarId};
use lanes::numbers;
use std::alloc::{AllocError, Global};

/// The value of an expression in each turn of a block in which it has one, and in the others some number. The error comes
/// for want of memory.
#[cycle(values)]
pub fn eval(alloc: Global, e: &Expr, b: &Reads<'_>, out: &mut [u64]) -> Result<(), AllocError>
    requires turns { length out.old ≡ b.now.at.now.count }
    requires lanes { HaveSize (length out.old) b.now.lanes.now }
    ensures size { length out.new ≡ length out.old }
    ensures values { OnOk result (AreValues e.now b.now out.new) }
{
    match e {
        Expr::Number(n) => numbers::fill(out, *n),
        Expr::Scalar(x) => scalar(b.lanes, b.at.scalars, *x, out),
        Expr::LoopName(level) => name(b, *level, out),
        Expr::Cell(array, _, index) => cells(alloc, *array, index, b, out)?,
        Expr::Unary(op, a) => {
            eval(alloc, a, b, out)?;
            numbers::one(*op, out);
        }
        Expr::Binary(op, a, c) => {
            eval(alloc, a, b, out)?;
            right(alloc, *op, c, b, out)?;
        }
        Expr::Shift(op, a, n) => {
            eval(alloc, a, b, out)?;
            numbers::shift(*op, out, *n);
        }
        Expr::Divide(op, a, n) => {
            eval(alloc, a, b, out)?;
            numbers::divide(*op, out, *n);
        }
        Expr::And(a, c) => {
            eval(alloc, a, b, out)?;
            and_right(alloc, c, b, out)?;
        }
        Expr::Or(a, c) => {
            eval(alloc, a, b, out)?;
            or_right(alloc, c, b, out)?;
        }
    }
    Ok(())
}

// Cells whose index is the turn, or is the value of an expression in it.
#[cycle(values)]
fn cells(
    alloc: Global,
    array: ArrayId,
    index: &Expr,
    b: &Reads<'_>,
    out: &mut [u64],
) -> Result<(), AllocError>
    requires turns { length out.old ≡ b.now.at.now.count }
    requires lanes { HaveSize (length out.old) b.now.lanes.now }
    ensures size { length out.new ≡ length out.old }
    ensures values { OnOk result ((k : ℕ) → k < length out.new → Agrees (cell_of array index.now (names_of b.now k)) (slice_index out.new k)) }
{
    if is_turn(b.at.outer.len(), index) {
        load_turns(b.rows, array, b.at.first, out);
        return Ok(());
    }
    eval(alloc, index, b, out)?;
    load_each(b.rows, array, out);
    Ok(())
}

// An operator with its right operand, after the left one.
#[cycle(values)]
fn right(
    alloc: Global,
    op: BinaryOp,
    e: &Expr,
    b: &Reads<'_>,
    out: &mut [u64],
) -> Result<(), AllocError>
    requires turns { length out.old ≡ b.now.at.now.count }
    requires lanes { HaveSize (length out.old) b.now.lanes.now }
    ensures size { length out.new ≡ length out.old }
    ensures values { OnOk result ((k : ℕ) → k < length out.new →
        Agrees (on_both (binary op) (Some (slice_index out.old k)) (value e.now (names_of b.now k))) (slice_index out.new k)) }
{
    if let Expr::Number(n) = e {
        numbers::with_number(op, out, *n);
        return Ok(());
    }
    let mut operand = vec![in alloc; 0; out.len()]?;
    eval(alloc, e, b, &mut operand)?;
    numbers::both(op, out, &operand);
    Ok(())
}

// The right operand of `&&` after the left one: it has a value in each turn in which it counts.
#[cycle(values)]
fn and_right(alloc: Global, e: &Expr, b: &Reads<'_>, out: &mut [u64]) -> Result<(), AllocError>
    requires turns { length out.old ≡ b.now.at.now.count }
    requires lanes { HaveSize (length out.old) b.now.lanes.now }
    ensures size { length out.new ≡ length out.old }
    ensures values { OnOk result ((k : ℕ) → k < length out.new →
        Agrees (and_of (Some (slice_index out.old k)) (value e.now (names_of b.now k))) (slice_index out.new k)) }
{
    let mut operand = vec![in alloc; 0; out.len()]?;
    eval(alloc, e, b, &mut operand)?;
    numbers::and(out, &operand);
    Ok(())
}

// The right operand of `||` after the left one: it has a value in each turn in which it counts.
#[cycle(values)]
fn or_right(alloc: Global, e: &Expr, b: &Reads<'_>, out: &mut [u64]) -> Result<(), AllocError>
    requires turns { length out.old ≡ b.now.at.now.count }
    requires lanes { HaveSize (length out.old) b.now.lanes.now }
    ensures size { length out.new ≡ length out.old }
    ensures values { OnOk result ((k : ℕ) → k < length out.new →
        Agrees (or_of (Some (slice_index out.old k)) (value e.now (names_of b.now k))) (slice_index out.new k)) }
{
    let mut operand = vec![in alloc; 0; out.len()]?;
    eval(alloc, e, b, &mut operand)?;
    numbers::or(out, &operand);
    Ok(())
}

/// A scalar in each turn.
pub fn scalar(lanes: &[Lane], before: &[u64; 256], x: ScalarId, out: &mut [u64])
    requires { HaveSize (length out.old) lanes.now }
    ensures size { length out.new ≡ length out.old }
    ensures values { (k : ℕ) → k < length out.old → slice_index out.new k ≡ lane_scalars lanes.now (slice_index before.now) k x.0 }
{
    match lanes {
        [] => numbers::fill(out, before[x.0 as usize]),
        [first, rest @ ..] => {
            if first.scalar.0 == x.0 {
                numbers::copy(out, &first.numbers);
            } else {
                scalar(rest, before, x, out);
            }
        }
    }
}

// The value of a loop in each turn.
fn name(b: &Reads<'_>, level: u32, out: &mut [u64])
    requires { length out.old ≡ b.now.at.now.count }
    ensures size { length out.new ≡ length out.old }
    ensures values { (k : ℕ) → k < length out.old → slice_index out.new k ≡ slice_index (names_of b.now k).loops level }
{
    if level as usize == b.at.outer.len() {
        numbers::turns(out, b.at.first);
    } else {
        let n = b.at.outer.get(level as usize).copied().unwrap_or(0);
        numbers::fill(out, n);
    }
}

// The first of some numbers that follow one another.
#[inline(never)]
#[tactic(auto, using(crate::proofs::RunLoads::one_follows))]
fn first_of_run(row: &[u64]) -> Option<u64>
    ensures { IfSome result (IsRunFrom row.now) }
{
    let first = *row.first()?;
    first.checked_add(row.len() as u64)?;
    let mut follows = true;
    'lanes: for j in 0..row.len() {
        follows &= row[j] == first + j as u64;
    }
    if follows { Some(first) } else { None }
}

// What stands at the cells with these indices: at once, where they follow one another.
fn load_each(rows: &[RunRow<'_>], array: ArrayId, out: &mut [u64])
    ensures size { length out.new ≡ length out.old }
    ensures values { AreLoaded (cells_kept rows.now) array (slice_index out.old) out.new }
{
    if let Some(first) = first_of_run(out) {
        if let Some(run) = run_of(rows, array, first, out.len()) {
            numbers::copy(out, run);
            return;
        }
    }
    gather(rows, array, out);
}

// What stands at the cells whose indices are the turns.
#[inline(never)]
fn load_turns(rows: &[RunRow<'_>], array: ArrayId, first: u64, out: &mut [u64])
    requires { first + length out.old ≤ 2 ^ 64 }
    ensures size { length out.new ≡ length out.old }
    ensures values { AreLoaded (cells_kept rows.now) array (λ k. first + k) out.new }
{
    if let Some(run) = run_of(rows, array, first, out.len()) {
        numbers::copy(out, run);
        return;
    }
    numbers::turns(out, first);
    gather(rows, array, out);
}

// As many cells of an array from an index on, where all of them are there.
fn run_of<'a>(rows: &'a [RunRow<'_>], array: ArrayId, first: u64, n: usize) -> Option<&'a [u64]>
    ensures { IfSome result (λ run. IsRun (cells_kept rows.now) array first n run.now) }
{
    let row = rows.get(array.0 as usize)?;
    if first < row.first() {
        return None;
    }
    row.run((first - row.first()) as usize, n)
}

// What stands at the cells with these indices, one by one.
#[inline(never)]
fn gather(rows: &[RunRow<'_>], array: ArrayId, out: &mut [u64])
    ensures size { length out.new ≡ length out.old }
    ensures values { AreLoaded (cells_kept rows.now) array (slice_index out.old) out.new }
{
    match rows.get(array.0 as usize) {
        None => numbers::fill(out, 0),
        Some(row) => gather_in(row, out),
    }
}

// The same for the cells of a row that lie together.
fn gather_together(cells: &[u64], first: u64, out: &mut [u64])
    ensures size { length out.new ≡ length out.old }
    ensures values { (k : ℕ) → k < length out.new → Agrees (at_index first cells.now (slice_index out.old k)) (slice_index out.new k) }
{
    'lanes: for j in 0..out.len() {
        let at = out[j].wrapping_sub(first) as usize;
        out[j] = if at < cells.len() { cells[at] } else { 0 };
    }
}

// The same for a row of which some cells are the run's own.
fn gather_apart(row: &RunRow<'_>, out: &mut [u64])
    ensures size { length out.new ≡ length out.old }
    ensures values { (k : ℕ) → k < length out.new → Agrees (at_index row.now.0 row.now.1 (slice_index out.old k)) (slice_index out.new k) }
{
    let first = row.first();
    let size = row.size();
    'lanes: for j in 0..out.len() {
        let at = out[j].wrapping_sub(first) as usize;
        out[j] = if at < size { row.number(at) } else { 0 };
    }
}

// What stands in a row at these indices, and 0 where nothing does.
fn gather_in(row: &RunRow<'_>, out: &mut [u64])
    ensures size { length out.new ≡ length out.old }
    ensures values { (k : ℕ) → k < length out.new → Agrees (at_index row.now.0 row.now.1 (slice_index out.old k)) (slice_index out.new k) }
{
    let first = row.first();
    match row.run(0, row.size()) {
        Some(cells) => gather_together(cells, first, out),
        None => gather_apart(row, out),
    }
}
