// The walk over a region, instance by instance.

ghost use Rattle.std.specs.Prelude.{◌≡◌, ◌<◌, ◌^◌, ◌&&◌, OnOk, IfOk};
ghost use Rattle.base.specs.Meaning.{lengths_of};
ghost use Rattle.base.specs.Interval.{is_known_zero, is_known_nonzero};
ghost use Rattle.base.specs.Footprint.{expr_touches, source_touches, stmt_touches, touches_of, unless};
ghost use Rattle.ranges.specs.Found.{nothing_seen};
ghost use Rattle.ranges.specs.Faults.{with_place};
ghost use Rattle.ranges.specs.Cells.{is_among};
ghost use Rattle.ranges.specs.Slides.{with_written};
ghost use Rattle.ranges.specs.Seen.{after, after_read, after_write, list_touches, seen_in, turns_from};

use crate::cells::Footprint;
use crate::deciding::telling_turns;
use crate::least::note_place;
use crate::state::Walk;
use crate::straight::accesses_of;
use base::fault::Interval;
use base::item::LoopValues;
use base::tree::{ArrayId, Bounds, Expr, Place, Program, Region, Source, Stmt};
use c_interval::interval;
use std::alloc::{AllocError, Global};

// From how many values of its name on the accesses of a loop's body are listed.
const MANY_TURNS: u64 = 16;

// From how many values of its name on it is looked whether the turns of a loop that are left can see anything new.
const SOME_TURNS: u64 = 8;

// Whether cells up to this one leave their array.
pub(crate) fn leaves(lengths: &[u32], array: ArrayId, cells: Interval) -> bool
    ensures { result ≡ Rattle.ranges.specs.Seen.leaves lengths.now array cells }
{
    let length = lengths.get(array.0 as usize).copied().unwrap_or(0);
    cells.hi >= u64::from(length)
}

impl Walk {
    pub(crate) fn note_read(
        &mut self,
        lengths: &[u32],
        array: ArrayId,
        place: Place,
        cells: Interval,
    ) -> Result<(), AllocError>
        ensures { OnOk result (seen_in self.new ≡ after_read lengths.now array place cells (seen_in self.old)) }
    {
        if leaves(lengths, array, cells) {
            note_place(true, place, &mut self.least);
            return Ok(());
        }
        let found = &mut self.found;
        found
            .exposed
            .expose(array, cells, &found.read, &found.sure)?;
        found.read.add(array, cells)
    }

    pub(crate) fn note_write(
        &mut self,
        lengths: &[u32],
        array: ArrayId,
        place: Place,
        cells: Interval,
        certain: bool,
    ) -> Result<(), AllocError>
        ensures { OnOk result (seen_in self.new ≡ after_write lengths.now array place cells certain (seen_in self.old)) }
    {
        if leaves(lengths, array, cells) {
            note_place(true, place, &mut self.least);
            return Ok(());
        }
        self.note_written(array, cells, both(certain, cells.lo == cells.hi))
    }

    // Cells of an array that are written, and surely so where that is certain.
    fn note_written(
        &mut self,
        array: ArrayId,
        cells: Interval,
        certain: bool,
    ) -> Result<(), AllocError>
        requires { cells.hi < 2 ^ 32 }
        ensures { OnOk result (seen_in self.new ≡ with_written certain (is_among array cells) (seen_in self.old)) }
    {
        let found = &mut self.found;
        found.sure.add_if(certain, array, cells)?;
        found.write.add(array, cells)
    }
}

pub(crate) fn is_zero(a: Interval) -> bool
    ensures { result ≡ is_known_zero a }
{
    a.hi == 0
}

pub(crate) fn is_nonzero(a: Interval) -> bool
    ensures { result ≡ is_known_nonzero a }
{
    a.lo >= 1
}

pub(crate) fn both(a: bool, b: bool) -> bool
    ensures { result ≡ (a && b) }
{
    a && b
}

// The reads of an expression.
#[tactic(auto, using(crate::proofs::Walked::after_append))]
fn walk_expr(
    e: &Expr,
    certain: bool,
    lengths: &[u32],
    loops: &[u64],
    walk: &mut Walk,
) -> Result<(), AllocError>
    ensures { OnOk result (seen_in walk.new ≡ after lengths.now (expr_touches e.now loops.now certain) (seen_in walk.old)) }
{
    match e {
        Expr::Number(_) | Expr::Scalar(_) | Expr::LoopName(_) => Ok(()),
        Expr::Cell(array, place, subscript) => {
            walk_expr(subscript, certain, lengths, loops, walk)?;
            walk.note_read(lengths, *array, *place, interval(subscript, loops))
        }
        Expr::Unary(_, a) | Expr::Shift(_, a, _) | Expr::Divide(_, a, _) => walk_expr(
            a, certain, lengths, loops, walk,
        ),
        Expr::Binary(_, a, b) | Expr::And(a, b) | Expr::Or(a, b) => {
            walk_expr(a, certain, lengths, loops, walk)?;
            walk_expr(b, certain, lengths, loops, walk)
        }
    }
}

fn walk_source(
    v: &Source,
    certain: bool,
    lengths: &[u32],
    loops: &[u64],
    walk: &mut Walk,
) -> Result<(), AllocError>
    ensures { OnOk result (seen_in walk.new ≡ after lengths.now (source_touches v.now loops.now certain) (seen_in walk.old)) }
{
    match v {
        Source::Value(e) => walk_expr(e, certain, lengths, loops, walk),
        Source::Read => Ok(()),
    }
}

#[tactic(auto, using(crate::proofs::Walked::after_append, crate::proofs::Touches::touches_Block, crate::proofs::Touches::touches_Loop))]
// The live instances of a statement. `certain` says that every condition around them is known to let them run.
#[cycle(walk)]
fn walk_stmt(
    s: &Stmt,
    certain: bool,
    lengths: &[u32],
    loops: &mut Vec<u64>,
    walk: &mut Walk,
) -> Result<(), AllocError>
    ensures loops { OnOk result (loops.new.items ≡ loops.old.items) }
    ensures seen { OnOk result (seen_in walk.new ≡ after lengths.now (stmt_touches s.now loops.old.items certain) (seen_in walk.old)) }
{
    match s {
        Stmt::Declare(_, v) | Stmt::Assign(_, v) => walk_source(v, certain, lengths, loops, walk),
        Stmt::Store(array, place, e, v) => {
            walk_expr(e, certain, lengths, loops, walk)?;
            walk_source(v, certain, lengths, loops, walk)?;
            walk.note_write(lengths, *array, *place, interval(e, loops), certain)
        }
        Stmt::Combine(_, array, place, e, v) => {
            walk_expr(e, certain, lengths, loops, walk)?;
            walk_expr(v, certain, lengths, loops, walk)?;
            walk.note_read(lengths, *array, *place, interval(e, loops))?;
            walk.note_write(lengths, *array, *place, interval(e, loops), certain)
        }
        Stmt::Print(e) => walk_expr(e, certain, lengths, loops, walk),
        Stmt::Block(all) => walk_all(all, certain, lengths, loops, walk),
        Stmt::Loop(bounds, body) => {
            let telling = telling_turns(*bounds, body, loops.len());
            walk_loop(telling, body, certain, lengths, loops, walk)
        }
        Stmt::If(c, first, second) => {
            walk_expr(c, certain, lengths, loops, walk)?;
            let known = interval(c, loops);
            let (fails, holds) = (is_zero(known), is_nonzero(known));
            walk_unless(fails, first, both(certain, holds), lengths, loops, walk)?;
            walk_unless(holds, second, both(certain, fails), lengths, loops, walk)
        }
    }
}

// Statements, unless they are excluded.
#[cycle(walk)]
fn walk_unless(
    excluded: bool,
    all: &[Stmt],
    certain: bool,
    lengths: &[u32],
    loops: &mut Vec<u64>,
    walk: &mut Walk,
) -> Result<(), AllocError>
    ensures loops { OnOk result (loops.new.items ≡ loops.old.items) }
    ensures seen { OnOk result (seen_in walk.new ≡ after lengths.now (unless excluded (list_touches all.now loops.old.items certain)) (seen_in walk.old)) }
{
    if excluded {
        return Ok(());
    }
    walk_all(all, certain, lengths, loops, walk)
}

// The live instances of statements in turn.
#[cycle(walk)]
fn walk_all(
    all: &[Stmt],
    certain: bool,
    lengths: &[u32],
    loops: &mut Vec<u64>,
    walk: &mut Walk,
) -> Result<(), AllocError>
    ensures loops { OnOk result (loops.new.items ≡ loops.old.items) }
    ensures seen { OnOk result (seen_in walk.new ≡ after lengths.now (list_touches all.now loops.old.items certain) (seen_in walk.old)) }
{
    for s in all {
        walk_stmt(s, certain, lengths, loops, walk)?;
    }
    Ok(())
}

// A loop. Where it has many turns, and its body neither loops nor conditions, the accesses of the body are listed once. Where
// it has conditions, it is tried whether they are alike in every so many turns.
#[cycle(walk)]
fn walk_loop(
    bounds: Bounds,
    body: &[Stmt],
    certain: bool,
    lengths: &[u32],
    loops: &mut Vec<u64>,
    walk: &mut Walk,
) -> Result<(), AllocError>
    ensures loops { OnOk result (loops.new.items ≡ loops.old.items) }
    ensures seen { OnOk result (seen_in walk.new ≡ after lengths.now (turns_from bounds.first bounds body.now loops.old.items certain) (seen_in walk.old)) }
{
    if bounds.end.saturating_sub(bounds.first) >= MANY_TURNS {
        let alloc = walk.found.alloc();
        if let Some(mut accesses) = accesses_of(alloc, body)? {
            return walk.note_loop(alloc, lengths, bounds, &mut accesses, loops, certain);
        }
        let rest = walk.note_blocks(alloc, lengths, bounds, body, loops, certain)?;
        return walk_turns(rest, body, certain, lengths, loops, walk);
    }
    walk_turns(bounds, body, certain, lengths, loops, walk)
}

// Whether it is looked after so many turns whether the others can see anything new.
fn is_tested(bounds: Bounds, turns: u64) -> bool {
    bounds.end.saturating_sub(bounds.first) >= SOME_TURNS && turns & turns.wrapping_sub(1) == 0
}

// Each turn of a loop, up to one from which on nothing new is seen.
#[cycle(walk)]
fn walk_turns(
    bounds: Bounds,
    body: &[Stmt],
    certain: bool,
    lengths: &[u32],
    loops: &mut Vec<u64>,
    walk: &mut Walk,
) -> Result<(), AllocError>
    ensures loops { OnOk result (loops.new.items ≡ loops.old.items) }
    ensures seen { OnOk result (seen_in walk.new ≡ after lengths.now (turns_from bounds.first bounds body.now loops.old.items certain) (seen_in walk.old)) }
{
    let Bounds { first, end, step } = bounds;
    let mut v = first;
    let mut turns = 0_u64;
    while v < end {
        loops.push(v)?;
        walk_all(body, certain, lengths, loops, walk)?;
        let _ = loops.pop();
        v += step;
        turns = turns.wrapping_add(1);
        if is_tested(bounds, turns)
            && walk.settles_rest(lengths, v, bounds, body, loops, certain)?
        {
            return Ok(());
        }
    }
    Ok(())
}

// Each array's length, in order of declaration.
pub(crate) fn lengths(alloc: Global, program: &Program) -> Result<Vec<u32>, AllocError>
    ensures { IfOk result (λ lengths. lengths.items ≡ lengths_of program.now) }
{
    program.arrays.values().map(|a| a.length).collect(alloc)
}

/// All that is seen of a region, with these values of the loops around it.
pub fn walk_region(
    alloc: Global,
    program: &Program,
    region: &Region,
    loops: &LoopValues,
) -> Result<Walk, AllocError>
    ensures { IfOk result (λ w. seen_in w ≡ after (lengths_of program.now) (touches_of region.now loops.now.values.items) nothing_seen) }
{
    let lengths = lengths(alloc, program)?;
    let mut values = Vec::from_slice(alloc, &loops.values)?;
    let mut walk = Walk {
        found: Footprint::new(alloc),
        least: None,
    };
    walk_all(&region.body, true, &lengths, &mut values, &mut walk)?;
    Ok(walk)
}
