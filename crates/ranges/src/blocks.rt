// Loops of which each turn makes the accesses that the turn so many turns before it makes, further on.

ghost use Rattle.std.specs.Prelude.{◌≡◌, ◌+◌, ◌-◌, ◌*◌, ◌<◌, ◌≤◌, ◌^◌, IfOk, IfSome};
ghost use Rattle.ranges.specs.Cases.{AreTurns, IsBlock, Leaves, body_at};
ghost use Rattle.ranges.specs.Seen.{after, seen_in, turns_from};
ghost use Rattle.ranges.specs.Slides.{AllFit};

use crate::cases::{Turns, add_all};
use crate::period::period;
use crate::slide::Slide;
use crate::slides::alike;
use crate::state::Walk;
use base::tree::{Bounds, Stmt};
use std::alloc::{AllocError, Global};

// From how many times that many turns on they are done so.
const MANY_BLOCKS: u64 = 16;

// The greatest step and the greatest value of a loop's name: no array has as many cells.
const MOST: u64 = 1 << 32;

// Of a loop the first one of so many turns each, and the turns that are left.
fn block(bounds: Bounds, turns: u64) -> Option<(Bounds, Bounds)>
    requires { 1 ≤ turns }
    ensures block { IfSome result (λ r. IsBlock bounds r.0 turns) }
    ensures leaves { IfSome result (λ r. Leaves bounds r.0 r.1 turns) }
{
    let step = bounds.step.checked_mul(turns)?;
    let blocks = bounds.turns() / turns;
    if blocks < MANY_BLOCKS || step > MOST {
        return None;
    }
    let last = bounds.first.checked_add(step.checked_mul(blocks - 1)?)?;
    if last >= MOST {
        return None;
    }
    let all = Bounds {
        first: bounds.first,
        end: last + 1,
        step,
    };
    let later = Bounds {
        first: bounds.first.checked_add(step.checked_mul(all.turns())?)?,
        end: bounds.end,
        step: bounds.step,
    };
    let done = turns.checked_mul(all.turns())?;
    if done.checked_add(later.turns())? != bounds.turns() {
        return None;
    }
    Some((all, later))
}

// As many turns from another first value on.
fn moved(all: Bounds, first: u64) -> Bounds
    requires ahead { all.first < all.end }
    requires near { all.end ≤ 2 ^ 32 }
    requires small { all.step ≤ 2 ^ 32 }
    requires first { first ≤ 2 ^ 32 }
    ensures first { result.first ≡ first }
    ensures end { result.end ≡ first + (all.end - all.first) }
    ensures step { result.step ≡ all.step }
{
    Bounds {
        first,
        end: first + (all.end - all.first),
        step: all.step,
    }
}

// The accesses of the first turns of a loop, where each of them moves on by the step of all in as many turns, and stays in
// its array.
fn block_slides(
    alloc: Global,
    lengths: &[u32],
    all: Bounds,
    step: u64,
    turns: u64,
    body: &[Stmt],
    loops: &[u64],
    certain: bool,
) -> Result<Option<Vec<Slide>>, AllocError>
    requires ahead { all.first < all.end }
    requires near { all.end ≤ 2 ^ 32 }
    requires small { all.step ≤ 2 ^ 32 }
    requires step { step ≤ 2 ^ 32 }
    ensures are { IfOk result (λ some. IfSome some (λ slides. AreTurns all step turns (body_at body.now loops.now certain) slides.items)) }
    ensures fit { IfOk result (λ some. IfSome some (λ slides. AllFit lengths.now (all.end - all.first) slides.items)) }
{
    let mut slides = Vec::new(alloc);
    let mut here = Vec::from_slice(alloc, loops)?;
    let mut first = all.first;
    let mut done = 0;
    while done < turns {
        if first > MOST {
            return Ok(None);
        }
        let bounds = moved(all, first);
        here.push(bounds.first)?;
        let these = Turns {
            lengths,
            loops,
            here: &here,
            bounds,
        };
        if !add_all(&these, body, certain, &mut slides)? {
            return Ok(None);
        }
        let _ = here.pop();
        first += step;
        done += 1;
    }
    Ok(Some(slides))
}

impl Walk {
    /// Turns of a loop with no loops in it, where the conditions in it are again so after a few turns, each access moves on
    /// by a multiple of what the loop's name does, and those of one array by as much. It answers which turns are left.
    pub fn note_blocks(
        &mut self,
        alloc: Global,
        lengths: &[u32],
        bounds: Bounds,
        body: &[Stmt],
        loops: &[u64],
        certain: bool,
    ) -> Result<Bounds, AllocError>
        ensures { IfOk result (λ rest. after lengths.now (turns_from rest.first rest body.now loops.now certain) (seen_in self.new) ≡ after lengths.now (turns_from bounds.first bounds body.now loops.now certain) (seen_in self.old)) }
    {
        let Some(turns) = period(body) else {
            return Ok(bounds);
        };
        let Some((all, later)) = block(bounds, turns) else {
            return Ok(bounds);
        };
        let step = bounds.step;
        let Some(mut slides) = block_slides(alloc, lengths, all, step, turns, body, loops, certain)?
        else {
            return Ok(bounds);
        };
        if !alike(&slides) {
            return Ok(bounds);
        }
        self.note_slides(lengths, &mut slides, all)?;
        Ok(later)
    }
}
