// What a strand does next.

ghost use Rattle.std.specs.Prelude.{◌≡◌, ◌+◌, ◌-◌, ◌<◌, [], false, true, OnOk, IfNone, IfSome};
ghost use Rattle.present.specs.Blocks.{IsSection};
ghost use Rattle.fine_machine.specs.Left as left;
ghost use Rattle.actions.specs.Acting.{answer_of};
ghost use Rattle.actions.specs.Strand.{Answers, AnswersEntry, AnswersExit, CopiesBefore, IsActing, IsNext, IsPending, IsStopped, Splits, is_some_left, left_of, stack_of};

use crate::action::{Action, Given};
use crate::frame::Frame;
use crate::maps::{Held, Maps};
use crate::strand::Strand;
use crate::take::is_action;
use crate::turns::{Cells, cells_of};
use base::item::{Cell, MapItem, Section};
use std::alloc::AllocError;

// The cells after the first.
fn after_first(cells: Cells) -> Cells
    requires { 0 < cells.count }
    ensures array { result.array ≡ cells.array }
    ensures first { result.first ≡ cells.first + 1 }
    ensures count { result.count + 1 ≡ cells.count }
{
    Cells {
        array: cells.array,
        first: cells.first + 1,
        count: cells.count - 1,
    }
}

impl<'p> Strand<'p> {
    // The next part, taken off where it is no action.
    fn pending(&mut self) -> Option<Frame<'p>>
        ensures some { IfSome result (λ f. IsPending f self.old self.new) }
        ensures none { IfNone result ((self.new ≡ self.old) × IsStopped self.new) }
    {
        let frame = self.frames.top()?;
        if is_action(&frame) {
            return None;
        }
        let _ = self.frames.pop();
        Some(frame)
    }

    /// What comes before the next action is done.
    pub fn advance(&mut self) -> Result<(), AllocError>
        ensures same { OnOk result (left_of self.new ≡ left_of self.old) }
        ensures stopped { OnOk result (IsStopped self.new) }
    {
        while let Some(frame) = self.pending() {
            self.take(frame)?;
        }
        Ok(())
    }

    /// The action that comes next, or none where nothing is left.
    pub fn next(&self) -> Option<Action>
        ensures { IsStopped self.now → IsNext self.now result }
    {
        let number = self.number;
        match self.frames.top()? {
            Frame::Load(array) => Some(Action::Load(Cell {
                array,
                index: number,
            })),
            Frame::Store(array, index) => Some(Action::Store(Cell { array, index }, number)),
            Frame::Combine(op, array, index) => {
                Some(Action::Combine(op, Cell { array, index }, number))
            }
            Frame::Entries(maps) => Some(Action::Enter(*maps.items.first()?)),
            Frame::Exits(maps) => Some(Action::Leave(*maps.items.first()?)),
            Frame::CopyIn(cells) => Some(Action::CopyIn(Cell {
                array: cells.array,
                index: cells.first,
            })),
            Frame::CopyOut(cells) => Some(Action::CopyOut(Cell {
                array: cells.array,
                index: cells.first,
            })),
            Frame::Remove(held) => Some(Action::Remove(held.section)),
            _ => None,
        }
    }
}

// The first of some map items, and the others.
fn split<'p>(maps: Maps<'p>) -> Option<(MapItem, Maps<'p>)>
    ensures some { IfSome result (λ r. Splits maps.entry r.0 r.1) }
    ensures none { IfNone result (is_some_left maps.entry.items.now ≡ false) }
{
    match maps.items {
        [] => None,
        [item, rest @ ..] => Some((*item, Maps { items: rest })),
    }
}

impl<'p> Strand<'p> {
    // The cells of a section come next, if an entry or an exit copies.
    fn copy_in(&mut self, copies: bool, section: &Section) -> Result<(), AllocError>
        requires section { IsSection section.now }
        requires zero { self.old.number ≡ 0 }
        ensures { OnOk result (CopiesBefore left.CopyIn copies section.now self.old self.new) }
    {
        if copies {
            self.frames.push(Frame::CopyIn(cells_of(section)))?;
        }
        Ok(())
    }

    fn copy_out(&mut self, copies: bool, section: &Section) -> Result<(), AllocError>
        requires section { IsSection section.now }
        requires zero { self.old.number ≡ 0 }
        ensures { OnOk result (CopiesBefore left.CopyOut copies section.now self.old self.new) }
    {
        if copies {
            self.frames.push(Frame::CopyOut(cells_of(section)))?;
        }
        Ok(())
    }

    // The first of some entries was counted.
    fn entered(&mut self, maps: Maps<'p>, copies: bool) -> Result<(), AllocError>
        requires { self.old.number ≡ 0 }
        ensures { OnOk result (AnswersEntry maps.entry copies self.old self.new) }
    {
        let Some((item, rest)) = split(maps) else {
            return Ok(());
        };
        self.frames.push(Frame::Entries(rest))?;
        self.copy_in(copies, &item.section)
    }

    // The first of some exits was counted.
    fn left(&mut self, maps: Maps<'p>, copies: bool, removes: bool) -> Result<(), AllocError>
        requires { self.old.number ≡ 0 }
        ensures { OnOk result (AnswersExit maps.entry copies removes self.old self.new) }
    {
        let Some((item, rest)) = split(maps) else {
            return Ok(());
        };
        self.frames.push(Frame::Exits(rest))?;
        if removes {
            let section = item.section;
            self.frames.push(Frame::Remove(Held { section }))?;
        }
        self.copy_out(copies, &item.section)
    }

    /// The action that came next gave this.
    pub fn answer(&mut self, given: Given) -> Result<(), AllocError>
        requires { IsStopped self.old }
        ensures { OnOk result (Answers (answer_of given) self.old self.new) }
    {
        let Some(frame) = self.frames.pop() else {
            return Ok(());
        };
        self.number = 0;
        match frame {
            Frame::Entries(maps) => self.entered(maps, given.copies),
            Frame::Exits(maps) => self.left(maps, given.copies, given.removes),
            Frame::CopyIn(cells) => self.frames.push(Frame::CopyIn(after_first(cells))),
            Frame::CopyOut(cells) => self.frames.push(Frame::CopyOut(after_first(cells))),
            Frame::Load(_) => {
                self.number = given.number;
                Ok(())
            }
            Frame::Store(_, _) => Ok(()),
            Frame::Combine(_, _, _) => Ok(()),
            Frame::Remove(_) => Ok(()),
            _ => unreachable!(),
        }
    }
}

impl<'p> Strand<'p> {
    /// Whether an action comes next in a strand that stands before one or at its end.
    pub fn is_acting(&self) -> bool
        ensures acting { IsStopped self.now → result ≡ true → IsActing self.now }
        ensures ended { result ≡ false → stack_of self.now ≡ [] }
    {
        self.frames.top().is_some()
    }

    /// The action that came next gave this; what comes before the one after it is done.
    pub fn proceed(&mut self, given: Given) -> Result<(), AllocError>
        requires { IsStopped self.old }
        ensures answered { OnOk result (Answers (answer_of given) self.old self.new) }
        ensures stopped { OnOk result (IsStopped self.new) }
    {
        self.answer(given)?;
        self.advance()
    }
}
