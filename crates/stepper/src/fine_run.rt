// The state of a run of the fine-grained machine.

ghost use Rattle.std.specs.Prelude.{◌≡◌, IfErr, IfOk, IsTrue, OnErr, OnOk, option_map};
ghost use Rattle.base.specs.Blocks.{holder};
ghost use Rattle.base.specs.Items.{plan};
ghost use Rattle.fine_machine.specs.Machine.{enabled};
ghost use Rattle.mapwalk.specs.Walk.{HasNoRangeFault};
ghost use Rattle.stepper.specs.Answering.{next_by};
ghost use Rattle.stepper.specs.Run.{IsGoing, state_of};
ghost use Rattle.stepper.specs.Running.{HasCome, HasDone, HasStopped, IsEventFault, IsNew};

use crate::standing::Standing;
use crate::taking::take;
use actions::number_of;
use base::fault::RunFault;
use base::item::{Cell, Event};
use base::tree::{DeviceId, Program};
use device::are_numbers;
use outline::Outlined;
use std::alloc::{AllocError, Global};
use std::marker::Model;

/// A run of a program that has no fault of range, accepted or not, action by action, between two of its events. A fault
/// stops it: nothing more may happen in it then, and nothing is promised of what it shows but its program and its history.
#[derive(Drop)]
pub struct FineRun<'p> {
    pub(crate) alloc: Global,
    pub(crate) outlined: &'p Outlined<'p>,
    pub(crate) capacity: u64,
    pub(crate) whole: &'p [u64],
    pub(crate) standing: Standing<'p>,
    pub(crate) history: Vec<Event>,
    pub(crate) stopped: Option<Event>,
}

impl<'p> Model for FineRun<'p> {
    ghost use Rattle.stepper.specs.Run.{Run, run_code};

    ghost Value = { Run };

    ghost coded = { run_code };

    ghost use Rattle.stepper.specs.Running.{Shows, run_of};

    ghost view = { run_of };

    ghost invariant = { Shows };
}

impl<'p> FineRun<'p> {
    /// A run that has done nothing, on devices each with room for `capacity` cells. `input` holds the numbers that
    /// `read` takes in turn, and `turns` those that pick among the turns of a kernel that may run in any order. The
    /// error comes for want of memory.
    pub fn new(
        alloc: Global,
        outlined: &'p Outlined<'p>,
        input: &'p [u64],
        turns: &'p [u32],
        capacity: u64,
    ) -> Result<FineRun<'p>, AllocError>
        requires { HasNoRangeFault (plan outlined.now) }
        ensures start { IfOk result (IsNew outlined.now input.now turns.now capacity) }
    {
        are_numbers(input);
        let standing = Standing::new(alloc, outlined, input, turns, capacity)?;
        Ok(FineRun {
            alloc,
            outlined,
            capacity,
            whole: input,
            standing,
            history: Vec::new(alloc),
            stopped: None,
        })
    }

    /// The events so far are a run of the machine, where no fault has stopped it.
    pub fn has_come(&self)
        ensures { IsGoing self.now → HasCome self.now }
    {
        let _whole = &self.whole;
    }

    /// The program that is run.
    pub fn program(&self) -> &'p Program
        ensures { result.now ≡ self.now.program }
    {
        self.outlined.program()
    }

    /// The events that were done.
    pub fn history(&self) -> &[Event]
        ensures { result.now ≡ self.now.history }
    {
        &self.history
    }

    /// The event at which a fault stopped the run, if one did.
    pub fn stopped(&self) -> Option<Event>
        ensures { result ≡ self.now.stopped }
    {
        self.stopped
    }

    /// The numbers that were printed so far.
    pub fn output(&self) -> &[u64]
        ensures { IsGoing self.now → result.now ≡ (state_of self.now).output }
    {
        &self.standing.output
    }

    /// The number that a cell has on the host; 0 for a cell that is not in its array.
    pub fn host_cell(&self, cell: Cell) -> u64
        ensures { IsGoing self.now → result ≡ (state_of self.now).memories.host cell }
    {
        number_of(&self.standing.host, cell)
    }

    /// How often the device's block that has a cell was entered and not yet left, if there is one.
    pub fn count(&self, device: DeviceId, cell: Cell) -> Option<u64>
        ensures { IsGoing self.now → result ≡ option_map (λ b. b.count) (holder ((state_of self.now).memories.devices device.number).blocks cell) }
    {
        match self.standing.devices.table(device).lookup(cell) {
            None => None,
            Some((_, count)) => Some(count),
        }
    }

    /// The number that a cell has on a device, if it has storage there.
    pub fn device_cell(&self, device: DeviceId, cell: Cell) -> Option<u64>
        ensures { IsGoing self.now → result ≡ ((state_of self.now).memories.devices device.number).cells cell }
    {
        self.standing.devices.table(device).load(cell)
    }

    /// Whether an event may happen next.
    pub fn is_enabled(&self, event: Event) -> bool
        ensures going { IsGoing self.now → result ≡ enabled (plan self.now.program) (state_of self.now) event }
        ensures stopped { IsTrue result → IsGoing self.now }
    {
        match self.stopped {
            Some(_) => false,
            None => self.standing.is_enabled(event),
        }
    }

    /// Does an event that may happen next. The error stops the run: `DeviceFull` where an action would create more cells
    /// than its device has room for, `Absent` where the event fails, or `OutOfMemory`.
    pub fn take(&mut self, event: Event) -> Result<(), RunFault>
        requires going { IsGoing self.old }
        requires enabled { IsTrue (enabled (plan self.old.program) (state_of self.old) event) }
        ensures done { OnOk result (HasDone self.old event self.new) }
        ensures fault { IfErr result (IsEventFault self.old event) }
        ensures stopped { OnErr result (HasStopped self.old event self.new) }
    {
        self.stopped = Some(event);
        take(self.alloc, self.outlined, &mut self.standing, event)?;
        if self.history.push(event).is_err() {
            return Err(RunFault::OutOfMemory);
        }
        self.stopped = None;
        Ok(())
    }
}
