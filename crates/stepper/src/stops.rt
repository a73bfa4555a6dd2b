// The action at which a run stops.

ghost use Rattle.std.specs.Prelude.{◌≡◌, IfSome, IsTrue, Some, true};
ghost use Rattle.base.specs.Items.{Plan, plan};
ghost use Rattle.base.specs.declared.item.Event.TheVariants as event;
ghost use Rattle.fine_machine.specs.Machine.{State, enabled};
ghost use Rattle.mapwalk.specs.Walk.{HasNoRangeFault};
ghost use Rattle.actions.specs.Strand.{request_of, side_of};
ghost use Rattle.stepper.specs.Run.{IsGoing, state_of};
ghost use Rattle.stepper.specs.Standing.{IsAt, asked};
ghost use Rattle.stepper.specs.Stops.{IsComing, IsStop};

use crate::fine_run::FineRun;
use crate::standing::{Slot, Standing};
use actions::Action;
use base::fault::RunFault;
use base::item::Event;
use base::tree::{DeviceId, Place};
use outline::Outlined;
use std::alloc::Global;

/// An action of an open item, with the place of that item in the source and its device; whether a load, a store or an
/// update is on the host.
#[derive(Clone, Copy)]
pub struct Stop {
    pub item: u32,
    pub place: Place,
    pub device: DeviceId,
    pub on_host: bool,
    pub action: Action,
}

impl<'p> Standing<'p> {
    // The action that comes next for an open item, and whether it is on the host.
    fn next_action(&self, item: u32) -> Option<(bool, Action)>
        ensures { (p : Plan) (s : State) → IsAt p self.now s → enabled p s (event.Step item) ≡ true → IfSome result (λ x. asked (s.condition item) ≡ Some (request_of (side_of x.0) x.1)) }
    {
        match self.slots.get(item as usize) {
            Some(Slot::Opened(control)) => {
                let action = control.next()?;
                Some((control.on_host(), action))
            }
            Some(Slot::Captured(_)) => None,
            Some(Slot::Nothing) => None,
            None => None,
        }
    }
}

impl<'p> FineRun<'p> {
    // The action that an event is, if it is one.
    fn coming(&self, event: Event) -> Option<Stop>
        requires going { IsGoing self.now }
        requires enabled { IsTrue (enabled (plan self.now.program) (state_of self.now) event) }
        ensures { IfSome result (IsComing (plan self.now.program) (state_of self.now) event) }
    {
        let Event::Step(item) = event else {
            return None;
        };
        let it = &self.outlined.items()[item as usize];
        let (on_host, action) = self.standing.next_action(item)?;
        Some(Stop {
            item,
            place: it.place,
            device: it.device,
            on_host,
            action,
        })
    }
}

/// The action at which the run by these choices and these numbers of turns fails, which is played again for that. None
/// where the run does not fail, as `run_fine` says by `Absent`, where the opening of an item fails, or for want of memory.
pub fn stop_of<'p>(
    alloc: Global,
    outlined: &'p Outlined<'p>,
    input: &'p [u64],
    choices: &[u32],
    turns: &'p [u32],
    capacity: u64,
) -> Option<Stop>
    requires { HasNoRangeFault (plan outlined.now) }
    ensures { IfSome result (IsStop outlined.now input.now choices.now turns.now capacity) }
{
    let Ok(mut run) = FineRun::new(alloc, outlined, input, turns, capacity) else {
        return None;
    };
    while let Some(event) = run.next_event(choices) {
        run.has_come();
        let action = run.coming(event);
        match run.take(event) {
            Ok(()) => {}
            Err(RunFault::Absent) => return action,
            Err(_) => return None,
        }
    }
    None
}
