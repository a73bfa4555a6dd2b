// Blocks of turns of a loop, statement by statement.

ghost use Rattle.std.specs.Prelude.{ℕ, ◌≡◌, ◌+◌, ◌-◌, ◌<◌, ◌≤◌, ◌&&◌, not, true, None, IsSome, IfOk, OnOk, length, slice_index};
ghost use Rattle.base.specs.Meaning.{set_scalar};
ghost use Rattle.base.specs.Value.{is_zero};
ghost use Rattle.kernel.specs.Forms.{IsCarriedOn, IsForm, form_block, statements};
ghost use Rattle.kernel.specs.Lanes.{AreAssigned, AreNumbersOf, HaveSize, IsBlock, IsPart, assigned_lanes, begun_block, block_of, inside_of, lane_scalars, masked, stored_lanes, takes_part};
ghost use Rattle.kernel.specs.Loops.{Begins, Ends};
ghost use Rattle.kernel.specs.Masks.{IsMask};
ghost use Rattle.kernel.specs.Offsets.{IsWithin, places_of};
ghost use Rattle.kernel.specs.Rows.{cells_kept};
ghost use Rattle.lanes.specs.Apart.{block_body, block_stmt, in_block, where_false, where_true};
ghost use Rattle.lanes.specs.There.{BodyThere, HasValues, StmtThere};

use crate::masks::{begin_mask, has_turns, keep_false, keep_others, keep_true};
use crate::run_row::RunRow;
use crate::stores::store_lanes;
use crate::turns::{Form, Lane, Reads, Sum, Turns};
use crate::values::{eval, scalar};
use base::tree::{ArrayId, Bounds, Expr, ScalarId, Source, Stmt};
use lanes::numbers::fold;
use std::alloc::{AllocError, Global};

// The numbers of an expression in the turns of a block.
fn values(
    alloc: Global,
    e: &Expr,
    at: &Turns<'_, '_>,
    lanes: &[Lane],
    rows: &[RunRow<'_>],
) -> Result<Vec<u64>, AllocError>
    requires lanes { HaveSize at.now.count lanes.now }
    requires there { HasValues (inside_of at.now) at.now.outer.now e.now (block_of at.now lanes.now rows.now) }
    ensures size { IfOk result (λ ys. length ys.items ≡ at.now.count) }
    ensures values { IfOk result (λ ys. AreNumbersOf at.now e.now (block_of at.now lanes.now rows.now) ys.items) }
{
    let mut out = vec![in alloc; 0; at.count]?;
    eval(alloc, e, &Reads { at, lanes, rows }, &mut out)?;
    Ok(out)
}

// The numbers of a scalar in the turns of a block: of an expression where a turn takes part, and else those from before.
fn assigned(
    alloc: Global,
    x: ScalarId,
    e: &Expr,
    at: &Turns<'_, '_>,
    lanes: &[Lane],
    rows: &[RunRow<'_>],
) -> Result<Vec<u64>, AllocError>
    requires lanes { HaveSize at.now.count lanes.now }
    requires there { HasValues (inside_of at.now) at.now.outer.now e.now (block_of at.now lanes.now rows.now) }
    ensures size { IfOk result (λ ys. length ys.items ≡ at.now.count) }
    ensures values { IfOk result (λ ys. AreAssigned at.now x.0 e.now lanes.now (block_of at.now lanes.now rows.now) ys.items) }
{
    let mut numbers = values(alloc, e, at, lanes, rows)?;
    let Some(mask) = at.mask else {
        return Ok(numbers);
    };
    let mut before = vec![in alloc; 0; at.count]?;
    scalar(lanes, at.scalars, x, &mut before);
    keep_others(&mut numbers, mask, &before);
    Ok(numbers)
}

// A scalar that the turns of a block assign that take part.
#[tactic(auto, using(crate::proofs::BlockLanes::assigned_block))]
fn assign(
    alloc: Global,
    x: ScalarId,
    e: &Expr,
    at: &Turns<'_, '_>,
    lanes: &mut Vec<Lane>,
    rows: &[RunRow<'_>],
) -> Result<(), AllocError>
    requires lanes { HaveSize at.now.count lanes.old.items }
    requires there { HasValues (inside_of at.now) at.now.outer.now e.now (block_of at.now lanes.old.items rows.now) }
    ensures lanes { OnOk result (HaveSize at.now.count lanes.new.items) }
    ensures block { OnOk result (block_of at.now lanes.new.items rows.now
        ≡ assigned_lanes (inside_of at.now) at.now.outer.now x.0 e.now (block_of at.now lanes.old.items rows.now)) }
{
    let numbers = assigned(alloc, x, e, at, lanes, rows)?;
    lanes.insert(0, Lane { scalar: x, numbers })?;
    Ok(())
}

// Cells that the turns of a block store that take part.
fn put(
    alloc: Global,
    array: ArrayId,
    e: &Expr,
    at: &Turns<'_, '_>,
    lanes: &[Lane],
    rows: &mut [RunRow<'_>],
) -> Result<(), AllocError>
    requires lanes { HaveSize at.now.count lanes.now }
    requires there { HasValues (inside_of at.now) at.now.outer.now e.now (block_of at.now lanes.now rows.old) }
    requires cells { (v : ℕ) → inside_of at.now v ≡ true → IsSome (cells_kept rows.old (record { array = array; index = (places_of at.now.offset).place v })) }
    ensures block { OnOk result (block_of at.now lanes.now rows.new
        ≡ stored_lanes (places_of at.now.offset) (inside_of at.now) at.now.outer.now array.0 e.now (block_of at.now lanes.now rows.old)) }
{
    let numbers = values(alloc, e, at, lanes, rows)?;
    store_lanes(alloc, rows, array, at, &numbers)?;
    Ok(())
}

// The turns in which each branch of a choice is done.
#[derive(Drop)]
struct BranchTurns {
    chosen: Vec<bool>,
    others: Vec<bool>,
}

// Of the turns that take part those in which the number is not 0.
fn chosen_of(alloc: Global, at: &Turns<'_, '_>, numbers: &[u64]) -> Result<Vec<bool>, AllocError>
    requires { length numbers.now ≡ at.now.count }
    ensures { IfOk result (λ mask. IsMask at.now.count (λ k. takes_part at.now k && not (is_zero (slice_index numbers.now k))) mask.items) }
{
    let mut mask = begin_mask(alloc, at)?;
    keep_true(&mut mask, numbers);
    Ok(mask)
}

// Of the turns that take part those in which the number is 0.
fn others_of(alloc: Global, at: &Turns<'_, '_>, numbers: &[u64]) -> Result<Vec<bool>, AllocError>
    requires { length numbers.now ≡ at.now.count }
    ensures { IfOk result (λ mask. IsMask at.now.count (λ k. takes_part at.now k && is_zero (slice_index numbers.now k)) mask.items) }
{
    let mut mask = begin_mask(alloc, at)?;
    keep_false(&mut mask, numbers);
    Ok(mask)
}

// The turns of a block that take part, by the number of a condition.
fn split(
    alloc: Global,
    c: &Expr,
    at: &Turns<'_, '_>,
    lanes: &[Lane],
    rows: &[RunRow<'_>],
) -> Result<BranchTurns, AllocError>
    requires lanes { HaveSize at.now.count lanes.now }
    requires there { HasValues (inside_of at.now) at.now.outer.now c.now (block_of at.now lanes.now rows.now) }
    ensures chosen { IfOk result (λ parts. IsPart at.now parts.chosen.items (where_true (inside_of at.now) c.now (block_of at.now lanes.now rows.now) at.now.outer.now)) }
    ensures others { IfOk result (λ parts. IsPart at.now parts.others.items (where_false (inside_of at.now) c.now (block_of at.now lanes.now rows.now) at.now.outer.now)) }
{
    let numbers = values(alloc, c, at, lanes, rows)?;
    let chosen = chosen_of(alloc, at, &numbers)?;
    let others = others_of(alloc, at, &numbers)?;
    Ok(BranchTurns { chosen, others })
}

// A statement, for the turns of a block that take part. One that no block has does nothing.
#[cycle(block)]
fn do_stmt(
    alloc: Global,
    s: &Stmt,
    at: &Turns<'_, '_>,
    lanes: &mut Vec<Lane>,
    rows: &mut [RunRow<'_>],
) -> Result<(), AllocError>
    requires lanes { HaveSize at.now.count lanes.old.items }
    requires there { StmtThere (places_of at.now.offset) (inside_of at.now) at.now.outer.now s.now (block_of at.now lanes.old.items rows.old) }
    ensures lanes { OnOk result (HaveSize at.now.count lanes.new.items) }
    ensures block { OnOk result (block_of at.now lanes.new.items rows.new
        ≡ block_stmt (places_of at.now.offset) (inside_of at.now) at.now.outer.now s.now (block_of at.now lanes.old.items rows.old)) }
{
    match s {
        Stmt::Declare(x, Source::Value(e)) => assign(alloc, *x, e, at, lanes, rows),
        Stmt::Assign(x, Source::Value(e)) => assign(alloc, *x, e, at, lanes, rows),
        Stmt::Store(array, _, _, Source::Value(e)) => put(alloc, *array, e, at, lanes, rows),
        Stmt::If(c, first, second) => {
            let parts = split(alloc, c, at, lanes, rows)?;
            do_branch(alloc, first, at, &parts.chosen, lanes, rows)?;
            do_branch(alloc, second, at, &parts.others, lanes, rows)
        }
        _ => Ok(()),
    }
}

// A branch of a choice, for the turns of a block that a mask has.
#[cycle(block)]
fn do_branch(
    alloc: Global,
    body: &[Stmt],
    at: &Turns<'_, '_>,
    mask: &[bool],
    lanes: &mut Vec<Lane>,
    rows: &mut [RunRow<'_>],
) -> Result<(), AllocError>
    requires size { length mask.now ≡ at.now.count }
    requires lanes { HaveSize at.now.count lanes.old.items }
    requires there { BodyThere (places_of at.now.offset) (masked at.now mask.now) at.now.outer.now body.now (block_of at.now lanes.old.items rows.old) }
    ensures lanes { OnOk result (HaveSize at.now.count lanes.new.items) }
    ensures block { OnOk result (block_of at.now lanes.new.items rows.new
        ≡ block_body (places_of at.now.offset) (masked at.now mask.now) at.now.outer.now body.now (block_of at.now lanes.old.items rows.old)) }
{
    if !has_turns(mask) {
        return Ok(());
    }
    let some = Turns {
        first: at.first,
        count: at.count,
        outer: at.outer,
        scalars: at.scalars,
        offset: at.offset,
        mask: Some(mask),
    };
    do_body(alloc, body, &some, lanes, rows)
}

// A body, for the turns of a block that take part.
#[cycle(block)]
fn do_body(
    alloc: Global,
    body: &[Stmt],
    at: &Turns<'_, '_>,
    lanes: &mut Vec<Lane>,
    rows: &mut [RunRow<'_>],
) -> Result<(), AllocError>
    requires lanes { HaveSize at.now.count lanes.old.items }
    requires there { BodyThere (places_of at.now.offset) (inside_of at.now) at.now.outer.now body.now (block_of at.now lanes.old.items rows.old) }
    ensures lanes { OnOk result (HaveSize at.now.count lanes.new.items) }
    ensures block { OnOk result (block_of at.now lanes.new.items rows.new
        ≡ block_body (places_of at.now.offset) (inside_of at.now) at.now.outer.now body.now (block_of at.now lanes.old.items rows.old)) }
{
    for s in body {
        do_stmt(alloc, s, at, lanes, rows)?;
    }
    Ok(())
}

/// A number in a scalar.
pub fn set(scalars: &mut [u64; 256], x: ScalarId, n: u64)
    ensures { slice_index scalars.new ≡ set_scalar x.0 n (slice_index scalars.old) }
{
    scalars[x.0 as usize] = n;
}

// The scalars take the numbers of the last of so many turns.
fn keep_last(lanes: &[Lane], count: usize, scalars: &mut [u64; 256])
    requires some { 0 < count }
    requires lanes { HaveSize count lanes.now }
    ensures { slice_index scalars.new ≡ lane_scalars lanes.now (slice_index scalars.old) (count - 1) }
{
    if let [first, rest @ ..] = lanes {
        keep_last(rest, count, scalars);
        set(scalars, first.scalar, first.numbers[count - 1]);
    }
}

// The number of a scalar that all turns of a block carry on.
fn carry_on(
    alloc: Global,
    sum: Sum<'_>,
    at: &Turns<'_, '_>,
    lanes: &[Lane],
    rows: &[RunRow<'_>],
) -> Result<u64, AllocError>
    requires all { at.now.mask ≡ None }
    requires lanes { HaveSize at.now.count lanes.now }
    requires there { HasValues (inside_of at.now) at.now.outer.now sum.added.now (block_of at.now lanes.now rows.now) }
    ensures { IfOk result (IsCarriedOn at.now.first at.now.count at.now.outer.now at.now.scalars.now (block_of at.now lanes.now rows.now) sum.entry) }
{
    let numbers = values(alloc, sum.added, at, lanes, rows)?;
    Ok(fold(sum.op, at.scalars[sum.scalar.0 as usize], &numbers))
}

// Some turns of a body, statement by statement.
fn block(
    alloc: Global,
    form: Form<'_>,
    outer: &[u64],
    first: u64,
    count: usize,
    scalars: &mut [u64; 256],
    rows: &mut [RunRow<'_>],
) -> Result<(), AllocError>
    requires some { 0 < count }
    requires no_wrap { IsWithin form.offset (first + count) }
    requires there { BodyThere (places_of form.offset) (in_block first count) outer.now (statements form) (begun_block scalars.old rows.old) }
    ensures { OnOk result (IsBlock (form_block form.entry outer.now first count (slice_index scalars.old) (begun_block scalars.old rows.old)) (first + (count - 1)) scalars.new rows.new) }
{
    let mut lanes = Vec::new(alloc);
    let at = Turns {
        first,
        count,
        outer,
        scalars: &*scalars,
        offset: form.offset,
        mask: None,
    };
    do_body(alloc, form.front, &at, &mut lanes, rows)?;
    match form.sum {
        None => keep_last(&lanes, count, scalars),
        Some(sum) => {
            let number = carry_on(alloc, sum, &at, &lanes, rows)?;
            keep_last(&lanes, count, scalars);
            set(scalars, sum.scalar, number);
        }
    }
    Ok(())
}

/// The turns of a loop of step 1 that can be done in this form, from the first value on to the end. The error comes for want
/// of memory.
pub fn blocks(
    alloc: Global,
    form: Form<'_>,
    body: &[Stmt],
    outer: &[u64],
    bounds: Bounds,
    scalars: &mut [u64; 256],
    rows: &mut [RunRow<'_>],
) -> Result<(), AllocError>
    requires form { IsForm (slice_index scalars.old) outer.now body.now form }
    requires within { IsWithin form.offset bounds.end }
    requires turns { Begins body.now outer.now bounds.first bounds.end scalars.old rows.old }
    ensures { OnOk result (Ends body.now outer.now bounds.first bounds.end scalars.old rows.old scalars.new rows.new) }
{
    let _body = body;
    let mut v = bounds.first;
    'turns: while v < bounds.end {
        let count = size_of(bounds.end - v);
        block(alloc, form, outer, v, count, scalars, rows)?;
        v += count as u64;
    }
    Ok(())
}

// How many turns of those that are left are done at once.
fn size_of(left: u64) -> usize
    requires { 0 < left }
    ensures some { 0 < result }
    ensures within { result ≤ left }
{
    if left < 512 { left as usize } else { 512 }
}
