// An open item.

ghost use Rattle.std.specs.Prelude.{◌≡◌, ◌≤◌, [], Some, OnOk, drop, length};
ghost use Rattle.actions.specs.Acting.{answer_of};
ghost use Rattle.actions.specs.Control.{AllActing, Answers, IsNext, IsStopped, MayWait, PutsBack, left_of, on_host, place};
ghost use Rattle.actions.specs.Strand as strand;
ghost use Rattle.actions.specs.Strand.{stack_of};

use crate::action::{Action, Given};
use crate::fork::begin_turns;
use crate::frame::Frame;
use crate::nest::count_of;
use crate::strand::Strand;
use crate::unordered::Unordered;
use std::alloc::{AllocError, Global};
use std::collections::VecDeque;

/// What is left of an open item: first the turns of a kernel that may run in any order, as far as they have an action
/// to do, and then a strand. Each number of the order picks the turn that acts next. At its end the strand comes to the
/// kernel, if there is one of which not all turns have begun.
#[derive(Drop)]
pub struct Control<'p> {
    pub alloc: Global,
    pub turns: VecDeque<Strand<'p>>,
    pub order: &'p [u32],
    pub strand: Strand<'p>,
    pub kernel: Option<Unordered<'p>>,
}

// The numbers after the first.
fn after_first<'p>(order: &'p [u32]) -> &'p [u32]
    ensures { result.now ≡ drop 1 order.now }
{
    match order {
        [] => order,
        [_, rest @ ..] => rest,
    }
}

// The turn that was taken from this place goes on after its action, and goes back if it has another one to do.
fn put_back<'p>(
    turns: &mut VecDeque<Strand<'p>>,
    place: usize,
    mut turn: Strand<'p>,
    given: Given,
) -> Result<(), AllocError>
    requires inside { place ≤ length turns.old.items }
    requires stopped { strand.IsStopped turn }
    ensures { OnOk result (PutsBack place turn.entry (answer_of given) turns.old.items turns.new.items) }
{
    turn.proceed(given)?;
    if !turn.is_acting() {
        return Ok(());
    }
    turns.insert(place, turn)?;
    Ok(())
}

impl<'p> Control<'p> {
    // The place of the turn that acts next, where there is one.
    fn place(&self) -> usize
        ensures { result ≡ place self.now.order.now (length self.now.turns.items) }
    {
        let count = self.turns.len();
        match self.order {
            [first, ..] if count > 0 => *first as usize % count,
            _ => 0,
        }
    }

    /// Whether the action that comes next is on the host.
    pub fn on_host(&self) -> bool
        ensures { result ≡ on_host self.now }
    {
        match self.turns.get(self.place()) {
            Some(turn) => turn.on_host,
            None => self.strand.on_host,
        }
    }

    /// The action that comes next, or none where nothing is left.
    pub fn next(&self) -> Option<Action>
        ensures { IsStopped self.now → IsNext self.now result }
    {
        match self.turns.get(self.place()) {
            Some(turn) => turn.next(),
            None => self.strand.next(),
        }
    }

    // The kernel's turns begin that have not begun, and the exits come after them; in order one begins where the one
    // before it has come to its end.
    fn begin_kernel(&mut self, kernel: Unordered<'p>) -> Result<(), AllocError>
        requires ended { stack_of self.old.strand ≡ [] }
        requires none { self.old.turns.items ≡ [] }
        requires kernel { self.old.kernel ≡ Some kernel }
        ensures same { OnOk result (left_of self.new ≡ left_of self.old) }
        ensures stopped { OnOk result (IsStopped self.new) }
    {
        let Some(count) = count_of(kernel.depth, kernel.body) else {
            return Err(AllocError);
        };
        let one = self.order.is_empty();
        let next = begin_turns(
            self.alloc,
            &mut self.turns,
            &self.strand,
            kernel,
            count,
            one,
        )?;
        if next < count {
            self.kernel = Some(Unordered { next, ..kernel });
            return Ok(());
        }
        self.kernel = None;
        self.strand.frames.push(Frame::Exits(kernel.exits))?;
        self.strand.advance()
    }

    // Where the strand has come to a kernel, and no turn has an action to do, the turns begin that have not begun.
    fn settle(&mut self) -> Result<(), AllocError>
        requires turns { AllActing self.old.turns.items }
        requires stopped { strand.IsStopped self.old.strand }
        requires kernel { MayWait self.old.kernel self.old }
        ensures same { OnOk result (left_of self.new ≡ left_of self.old) }
        ensures stopped { OnOk result (IsStopped self.new) }
    {
        if !self.turns.is_empty() || self.strand.is_acting() {
            return Ok(());
        }
        match self.kernel {
            None => Ok(()),
            Some(kernel) => self.begin_kernel(kernel),
        }
    }

    /// What comes before the first action is done.
    pub fn begin(&mut self) -> Result<(), AllocError>
        requires { self.old.turns.items ≡ [] }
        ensures same { OnOk result (left_of self.new ≡ left_of self.old) }
        ensures stopped { OnOk result (IsStopped self.new) }
    {
        self.strand.advance()?;
        self.settle()
    }

    /// The action that came next gave this; what comes before the one after it is done.
    pub fn proceed(&mut self, given: Given) -> Result<(), AllocError>
        requires { IsStopped self.old }
        ensures answered { OnOk result (Answers (answer_of given) self.old self.new) }
        ensures stopped { OnOk result (IsStopped self.new) }
    {
        let place = self.place();
        match self.turns.remove(place) {
            None => {
                self.strand.proceed(given)?;
                self.settle()
            }
            Some(turn) => {
                self.order = after_first(self.order);
                put_back(&mut self.turns, place, turn, given)?;
                self.settle()
            }
        }
    }
}
