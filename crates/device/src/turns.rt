// A run as a machine whose items run side by side.

ghost use Rattle.std.specs.Prelude.{◌≡◌, Some, true};
ghost use Rattle.base.specs.Items.{plan};
ghost use Rattle.two_memories.specs.Two.{event_of};
ghost use Rattle.device.specs.Sides.{move_of};

use crate::state::RunState;
use base::fault::RunFault;
use base::item::Event;
use machine::Machine;

/// One event of a run, by its item. The end is the wait whose number is that of the items.
#[derive(Clone, Copy)]
pub enum Turn {
    Gen(u32),
    Open(u32),
    Close(u32),
    Wait(u32),
}

impl<'a> RunState<'a> {
    // The event of a turn.
    fn event_of(&self, turn: Turn) -> Event
        ensures { event_of (plan self.now.program) (move_of turn) ≡ Some result }
    {
        match turn {
            Turn::Gen(item) => Event::Gen(item),
            Turn::Open(item) => Event::Open(item),
            Turn::Close(item) => Event::Close(item),
            Turn::Wait(item) => {
                if item as usize == self.image.items().len() {
                    Event::End
                } else {
                    Event::Wait(item)
                }
            }
        }
    }
}

impl<'a> Machine for RunState<'a> {
    ghost use Rattle.std.specs.Prelude.{true, IfErr, OnErr, OnOk};
    ghost use Rattle.base.specs.Items.{plan};
    ghost use Rattle.two_memories.specs.Two.{Spot, event_of};
    ghost use Rattle.device.specs.Sides.{IsStepFault, move_of, run_parts};
    ghost use Rattle.device.specs.SideLaws.{laws};

    type State = RunState<'a>;

    type Event = Turn;

    type Fault = RunFault;

    ghost Location = { Spot };

    ghost parts = { run_parts };

    ghost move_of = { move_of };

    ghost is_kept = { λ _. true };

    fn enabled(state: &RunState<'a>, turn: &Turn) -> bool {
        state.is_enabled(state.event_of(*turn))
    }

    fn step(state: &mut RunState<'a>, turn: &Turn) -> Result<(), RunFault>
        requires { run_parts.enabled state.old (move_of turn.now) }
        ensures done { OnOk result (run_parts.step state.old (move_of turn.now) state.new) }
        ensures fault { IfErr result (IsStepFault state.old (event_of (plan state.old.program) (move_of turn.now))) }
        ensures unchanged { OnErr result (state.new ≡ state.old) }
    {
        state.take(state.event_of(*turn))
    }

    fn kept(_fault: &RunFault) -> bool
        ensures { result ≡ true }
    {
        true
    }

    ghost laws = { laws };
}
