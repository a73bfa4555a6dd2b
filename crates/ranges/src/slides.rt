// Loops in each turn of which the cells of each array move on by as much, done access by access.

ghost use Rattle.std.specs.Prelude.{◌≡◌, ◌+◌, ◌-◌, ◌*◌, ◌≤◌, ◌<◌, ◌^◌, [], IfNone, IfSome, IsTrue, OnOk, length, slice_index};
ghost use Rattle.ranges.specs.Seen.{after, seen_in};
ghost use Rattle.base.specs.Meaning.{turns_of};
ghost use Rattle.ranges.specs.Slides.{AllFit, AreAlike, IsLater, IsLatest, IsTaken, is_in_turn, slide_turns, slope_in, starts, with_run};

use crate::slide::Slide;
use crate::state::Walk;
use base::tree::{ArrayId, Bounds};
use std::alloc::AllocError;

fn start(slides: &[Slide], i: usize) -> u64
    requires { i < length slides.now }
    ensures { result ≡ slice_index (starts slides.now) i }
{
    slides[i].start
}

// Of the slides that begin furthest ahead the first one.
fn latest(slides: &[Slide]) -> usize
    requires { 1 ≤ length slides.now }
    ensures { IsLatest (starts slides.now) result }
{
    let mut latest = 0;
    for i in 1..slides.len() {
        latest = later(slides, latest, i);
    }
    latest
}

// Which of two slides begins further ahead, the first one where they begin at one cell.
fn later(slides: &[Slide], latest: usize, i: usize) -> usize
    requires latest { latest < length slides.now }
    requires i { i < length slides.now }
    ensures { IsLater (starts slides.now) latest i result }
{
    if start(slides, latest) < start(slides, i) {
        i
    } else {
        latest
    }
}

fn take_latest(slides: &mut Vec<Slide>) -> Option<Slide>
    ensures none { IfNone result (slides.old.items ≡ []) }
    ensures some { IfSome result (λ s. IsTaken slides.old.items s slides.new.items) }
{
    if slides.is_empty() {
        return None;
    }
    let place = latest(slides);
    Some(slides.remove(place))
}

// By how much the first of those of an array moves on.
fn slope_of(slides: &[Slide], array: ArrayId) -> u64
    ensures { result ≡ slope_in slides.now array.0 }
{
    for s in slides {
        if s.array.0 == array.0 {
            return s.slope;
        }
    }
    0
}

/// Whether those of one array move on by as much.
pub fn alike(slides: &[Slide]) -> bool
    ensures { IsTrue result → AreAlike slides.now }
{
    for s in slides {
        if s.slope != slope_of(slides, s.array) {
            return false;
        }
    }
    true
}

// All cells of an access in the turns of a loop.
fn cells_of(slide: Slide, turns: Bounds) -> Bounds
    requires ahead { turns.first < turns.end }
    requires step { turns.step ≤ 2 ^ 32 }
    requires moves { 1 ≤ slide.slope }
    requires small { slide.slope ≤ 2 ^ 31 }
    requires inside { slide.start + slide.slope * (turns.end - turns.first - 1) < 2 ^ 32 }
    ensures first { result.first ≡ slide.start }
    ensures end { result.end ≡ slide.start + slide.slope * (turns.end - turns.first - 1) + 1 }
    ensures step { result.step ≡ slide.slope * turns.step }
{
    Bounds {
        first: slide.start,
        end: slide.start + slide.slope * (turns.end - turns.first - 1) + 1,
        step: slide.slope * turns.step,
    }
}

impl Walk {
    // All cells of an access, which lie in the array.
    fn note_run(&mut self, slide: Slide, cells: Bounds) -> Result<(), AllocError>
        requires { cells.end ≤ 2 ^ 32 }
        ensures { OnOk result (seen_in self.new ≡ with_run slide (is_in_turn slide.array cells) (seen_in self.old)) }
    {
        if slide.writes {
            self.write_turns(slide.array, cells, slide.certain)
        } else {
            self.read_turns(slide.array, cells)
        }
    }

    /// The accesses in the turns of a loop. Of two accesses to a cell, which move on by as much, the one whose cells are
    /// ahead comes first, so each access is done with all its turns, from the one that is furthest ahead on.
    pub fn note_slides(
        &mut self,
        lengths: &[u32],
        slides: &mut Vec<Slide>,
        turns: Bounds,
    ) -> Result<(), AllocError>
        requires some { turns.first < turns.end }
        requires small { turns.step ≤ 2 ^ 32 }
        requires alike { AreAlike slides.old.items }
        requires fit { AllFit lengths.now (turns.end - turns.first) slides.old.items }
        ensures { OnOk result (seen_in self.new ≡ after lengths.now (slide_turns turns.step (turns_of turns) 0 slides.old.items) (seen_in self.old)) }
    {
        while let Some(slide) = take_latest(slides) {
            self.note_run(slide, cells_of(slide, turns))?;
        }
        Ok(())
    }
}
