// What a strand does without an action on the memories.

ghost use Rattle.std.specs.Prelude.{◌≡◌, ◌+◌, ◌<◌, false, OnOk};
ghost use Rattle.base.specs.Meaning;
ghost use Rattle.actions.specs.Rest.{front_of};
ghost use Rattle.actions.specs.Strand.{BeginsAt, BeginsSource, BeginsStmt, Takes, TakesRest, TakesRight, TakesTurns, is_action};

use crate::begin::begin_expr;
use crate::frame::Frame;
use crate::strand::Strand;
use crate::turns::Turns;
use base::tree::{Bounds, Expr, Source, Stmt};
use operators::{flag, of_both, of_division, of_one, of_shift};
use std::alloc::AllocError;

// The turns of a loop.
pub fn turns_of(bounds: Bounds) -> Turns
    ensures left { result.left ≡ Meaning.turns_of bounds }
    ensures next { result.next ≡ bounds.first }
    ensures step { result.step ≡ bounds.step }
{
    Turns {
        left: bounds.turns(),
        next: bounds.first,
        step: bounds.step,
    }
}

// The turns of a loop after the next one.
fn after(turns: Turns) -> Turns
    requires { 0 < turns.left }
    ensures left { result.left + 1 ≡ turns.left }
    ensures next { result.next ≡ turns.next + turns.step }
    ensures step { result.step ≡ turns.step }
{
    Turns {
        left: turns.left - 1,
        next: turns.next + turns.step,
        step: turns.step,
    }
}

// The innermost loop is left.
fn leave_loop(loops: &mut Vec<u64>)
    ensures { loops.new.items ≡ front_of loops.old.items }
{
    let count = loops.len();
    loops.truncate(count.saturating_sub(1));
}

// Whether a part is an action.
pub fn is_action(frame: &Frame<'_>) -> bool
    ensures { result ≡ is_action frame.now }
{
    match frame {
        Frame::Load(_) | Frame::Store(_, _) | Frame::Combine(_, _, _) => true,
        Frame::Remove(_) => true,
        Frame::Entries(maps) | Frame::Exits(maps) => !maps.items.is_empty(),
        Frame::CopyIn(cells) | Frame::CopyOut(cells) => cells.count > 0,
        _ => false,
    }
}

impl<'p> Strand<'p> {
    // A source's value goes to a part.
    fn begin_source(&mut self, v: &'p Source, frame: Frame<'p>) -> Result<(), AllocError>
        ensures { OnOk result (BeginsSource v.now frame.entry self.old self.new) }
    {
        self.frames.push(frame)?;
        match v {
            Source::Value(e) => {
                self.number = begin_expr(&mut self.frames, e, &self.loops, &self.scalars)?;
            }
            Source::Read => match self.input {
                [] => self.number = 0,
                [first, rest @ ..] => {
                    self.number = *first;
                    self.input = rest;
                }
            },
        }
        Ok(())
    }

    // An expression's value goes to a part.
    fn begin(&mut self, e: &'p Expr, frame: Frame<'p>) -> Result<(), AllocError>
        ensures { OnOk result (BeginsAt e.now frame.entry self.old self.new) }
    {
        self.frames.push(frame)?;
        self.number = begin_expr(&mut self.frames, e, &self.loops, &self.scalars)?;
        Ok(())
    }

    fn begin_stmt(&mut self, s: &'p Stmt) -> Result<(), AllocError>
        ensures { OnOk result (BeginsStmt s.now self.old self.new) }
    {
        match s {
            Stmt::Declare(x, v) | Stmt::Assign(x, v) => self.begin_source(v, Frame::Assign(*x)),
            Stmt::Store(array, _, e, v) => self.begin(e, Frame::Subscript(*array, v)),
            Stmt::Combine(op, array, _, e, v) => self.begin(e, Frame::Place(*op, *array, v)),
            Stmt::Print(e) => self.begin(e, Frame::Print),
            Stmt::Block(all) => self.frames.push(Frame::Rest(all)),
            Stmt::Loop(bounds, body) => {
                self.frames.push(Frame::Turns(turns_of(*bounds), body))?;
                self.loops.push(0)?;
                Ok(())
            }
            Stmt::If(c, first, second) => self.begin(c, Frame::Choose(first, second)),
        }
    }
}

impl<'p> Strand<'p> {
    // The right operand of an operator is evaluated, unless the left one decides.
    fn take_right(&mut self, decides: bool, value: u64, e: &'p Expr) -> Result<(), AllocError>
        ensures { OnOk result (TakesRight decides value e.now self.old self.new) }
    {
        if decides {
            self.number = value;
            return Ok(());
        }
        self.begin(e, Frame::Truth)
    }

    // The next of some statements is begun.
    fn take_first(&mut self, all: &'p [Stmt]) -> Result<(), AllocError>
        ensures { OnOk result (TakesRest all.now self.old self.new) }
    {
        match all {
            [] => {
                self.number = 0;
                Ok(())
            }
            [first, rest @ ..] => {
                self.frames.push(Frame::Rest(rest))?;
                self.begin_stmt(first)
            }
        }
    }

    // The next turn of a loop is begun, or the loop is left.
    fn take_turn(&mut self, turns: Turns, body: &'p [Stmt]) -> Result<(), AllocError>
        ensures { OnOk result (TakesTurns turns body.now self.old self.new) }
    {
        leave_loop(&mut self.loops);
        if turns.left == 0 {
            self.number = 0;
            return Ok(());
        }
        self.loops.push(turns.next)?;
        self.frames.push(Frame::Turns(after(turns), body))?;
        self.frames.push(Frame::Rest(body))
    }

    // Does a part that was taken off and is no action.
    pub fn take(&mut self, frame: Frame<'p>) -> Result<(), AllocError>
        requires { is_action frame ≡ false }
        ensures { OnOk result (Takes frame.entry self.old self.new) }
    {
        match frame {
            Frame::Unary(op) => self.number = of_one(op, self.number),
            Frame::Both(op, left) => self.number = of_both(op, left, self.number),
            Frame::Truth => self.number = flag(self.number != 0),
            Frame::Shift(op, n) => self.number = of_shift(op, self.number, n),
            Frame::Divide(op, n) => self.number = of_division(op, self.number, n),
            Frame::Right(op, e) => return self.begin(e, Frame::Both(op, self.number)),
            Frame::AndRight(e) => return self.take_right(self.number == 0, 0, e),
            Frame::OrRight(e) => return self.take_right(self.number != 0, 1, e),
            Frame::Subscript(array, v) => {
                return self.begin_source(v, Frame::Store(array, self.number));
            }
            Frame::Place(op, array, e) => {
                return self.begin(e, Frame::Combine(op, array, self.number));
            }
            Frame::Assign(x) => {
                self.scalars.set(x.0, self.number)?;
                self.number = 0;
            }
            Frame::Print => {
                self.printed.push(self.number)?;
                self.number = 0;
            }
            Frame::Choose(first, second) => {
                let all = if self.number == 0 { second } else { first };
                return self.frames.push(Frame::Rest(all));
            }
            Frame::Rest(all) => return self.take_first(all),
            Frame::Turns(turns, body) => return self.take_turn(turns, body),
            // Those with a cell or a map item are actions.
            Frame::Entries(_) => self.number = 0,
            Frame::Exits(_) => self.number = 0,
            Frame::CopyIn(_) => self.number = 0,
            Frame::CopyOut(_) => self.number = 0,
            Frame::Load(_) => {}
            Frame::Store(_, _) => {}
            Frame::Combine(_, _, _) => {}
            Frame::Remove(_) => {}
        }
        Ok(())
    }
}
