// Loops over a straight body, in each turn of which all cells move on by multiples of what the loop's name does, or not.

ghost use Rattle.std.specs.Prelude.{◌≡◌, ◌-◌, ◌<◌, ◌≤◌, cond, IfOk, IfSome, OnOk};
ghost use Rattle.base.specs.Meaning.{turns_of};
ghost use Rattle.ranges.specs.Seen.{after, seen_in};
ghost use Rattle.ranges.specs.Slides.{AllFit, AreSlidesOf, AreSplit, Fits, IsSlideOf};
ghost use Rattle.ranges.specs.Straight.{turns_at};

use crate::access::Access;
use crate::offsets::values_of;
use crate::slide::Slide;
use crate::slides::alike;
use crate::state::Walk;
use base::tree::Bounds;
use std::alloc::{AllocError, Global};

// The greatest step of a loop whose accesses are done so: no array has as many cells.
const MOST_STEP: u64 = 1 << 32;

// The greatest number of cells by which an access moves on that is done so.
const MOST_SLOPE: u64 = 1 << 31;

// An access whose cell moves on in each turn by a multiple of what the loop's name does, and stays in its array.
pub(crate) fn slide_of(
    lengths: &[u32],
    access: &Access<'_>,
    loops: &[u64],
    bounds: Bounds,
    certain: bool,
) -> Option<Slide>
    requires { bounds.first < bounds.end }
    ensures is { IfSome result (IsSlideOf loops.now bounds certain access.now) }
    ensures fits { IfSome result (Fits lengths.now (bounds.end - bounds.first)) }
{
    let cells = values_of(access.subscript, loops, bounds)?;
    if cells.slope == 0 || cells.slope > MOST_SLOPE {
        return None;
    }
    let away = cells.slope.checked_mul(bounds.end - bounds.first - 1)?;
    let last = cells.first.checked_add(away)?;
    let length = lengths.get(access.array.0 as usize).copied().unwrap_or(0);
    if last >= u64::from(length) {
        return None;
    }
    Some(Slide {
        array: access.array,
        place: access.place,
        start: cells.first,
        slope: cells.slope,
        writes: access.writes,
        certain,
    })
}

// The same of each access, where it holds of each.
fn slides_of(
    alloc: Global,
    lengths: &[u32],
    accesses: &[Access<'_>],
    loops: &[u64],
    bounds: Bounds,
    certain: bool,
) -> Result<Option<Vec<Slide>>, AllocError>
    requires { bounds.first < bounds.end }
    ensures are { IfOk result (λ some. IfSome some (λ slides. AreSlidesOf loops.now bounds certain accesses.now slides.items)) }
    ensures fit { IfOk result (λ some. IfSome some (λ slides. AllFit lengths.now (bounds.end - bounds.first) slides.items)) }
{
    let mut slides = Vec::new(alloc);
    for access in accesses {
        let Some(slide) = slide_of(lengths, access, loops, bounds, certain) else {
            return Ok(None);
        };
        slides.push(slide)?;
    }
    Ok(Some(slides))
}

// The same turns of a loop, with its end right behind the last one.
fn tight(bounds: Bounds) -> Bounds
    requires { bounds.first < bounds.end }
    ensures first { result.first ≡ bounds.first }
    ensures ahead { result.first < result.end }
    ensures step { result.step ≡ bounds.step }
    ensures turns { turns_of result ≡ turns_of bounds }
{
    let Bounds { first, end, step } = bounds;
    Bounds {
        first,
        end: first + (end - 1 - first) / step * step + 1,
        step,
    }
}

// So many turns of a loop, and those that come after them.
fn split(bounds: Bounds, turns: u64) -> (Bounds, Bounds)
    requires some { bounds.first < bounds.end }
    requires turns { 1 ≤ turns }
    ensures { AreSplit bounds result.0 result.1 turns }
{
    let Bounds { first, end, step } = bounds;
    let next = step.checked_mul(turns).and_then(|by| first.checked_add(by));
    let middle = next.unwrap_or(end).min(end);
    (
        Bounds {
            first,
            end: middle,
            step,
        },
        Bounds {
            first: middle,
            end,
            step,
        },
    )
}

impl Walk {
    // The accesses in all turns of a loop, where all cells move on by multiples of what its name does, and those of one
    // array by as much. It answers whether they do.
    fn note_at_once(
        &mut self,
        alloc: Global,
        lengths: &[u32],
        bounds: Bounds,
        accesses: &[Access<'_>],
        loops: &[u64],
        certain: bool,
    ) -> Result<bool, AllocError>
        requires { bounds.first < bounds.end }
        ensures { IfOk result (λ done. seen_in self.new ≡ cond done (after lengths.now (turns_at bounds.first bounds accesses.now loops.now certain) (seen_in self.old)) (seen_in self.old)) }
    {
        if bounds.step > MOST_STEP {
            return Ok(false);
        }
        let all = tight(bounds);
        let Some(mut slides) = slides_of(alloc, lengths, accesses, loops, all, certain)? else {
            return Ok(false);
        };
        if !alike(&slides) {
            return Ok(false);
        }
        self.note_slides(lengths, &mut slides, all)?;
        Ok(true)
    }

    /// The accesses in each turn of a loop. Those of which nothing new can be seen are left out of the turns that follow, and
    /// where all cells move on by multiples of what the loop's name does, and those of one array by as much, each access is
    /// done with all its turns at once.
    pub fn note_loop(
        &mut self,
        alloc: Global,
        lengths: &[u32],
        bounds: Bounds,
        accesses: &mut Vec<Access<'_>>,
        loops: &mut Vec<u64>,
        certain: bool,
    ) -> Result<(), AllocError>
        ensures loops { OnOk result (loops.new.items ≡ loops.old.items) }
        ensures seen { OnOk result (seen_in self.new ≡ after lengths.now (turns_at bounds.first bounds accesses.old.items loops.old.items certain) (seen_in self.old)) }
    {
        let mut rest = bounds;
        let mut turns = 1;
        while rest.first < rest.end {
            if self.note_at_once(alloc, lengths, rest, accesses, loops, certain)? {
                return Ok(());
            }
            let (now, later) = split(rest, turns);
            self.note_turns(lengths, now, accesses, loops, certain)?;
            rest = later;
            if rest.first < rest.end {
                self.leave_settled(alloc, lengths, rest, accesses, loops, certain)?;
            }
            turns = turns.saturating_mul(2);
        }
        Ok(())
    }
}
