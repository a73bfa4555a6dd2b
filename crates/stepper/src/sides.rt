// A run as a machine whose items run side by side.

ghost use Rattle.std.specs.Prelude.{◌≡◌};
ghost use Rattle.base.specs.Items.{plan};
ghost use Rattle.fine_headline.specs.FineState.{event_of};
ghost use Rattle.stepper.specs.Sides.{move_of};

use crate::fine_run::FineRun;
use base::fault::RunFault;
use base::item::Event;
use machine::Machine;

/// One event of a run, by its item. The end is the wait whose number is that of the items.
#[derive(Clone, Copy)]
pub enum Turn {
    Gen(u32),
    Open(u32),
    Step(u32),
    Close(u32),
    Wait(u32),
}

impl<'p> FineRun<'p> {
    // The event of a turn.
    fn event_of(&self, turn: Turn) -> Event
        ensures { result ≡ event_of (plan self.now.program) (move_of turn) }
    {
        match turn {
            Turn::Gen(item) => Event::Gen(item),
            Turn::Open(item) => Event::Open(item),
            Turn::Step(item) => Event::Step(item),
            Turn::Close(item) => Event::Close(item),
            Turn::Wait(item) => {
                if item as usize == self.outlined.items().len() {
                    Event::End
                } else {
                    Event::Wait(item)
                }
            }
        }
    }
}

impl<'p> Machine for FineRun<'p> {
    ghost use Rattle.std.specs.Prelude.{false, IfErr, OnOk, OnErr};
    ghost use Rattle.base.specs.Items.{plan};
    ghost use Rattle.two_memories.specs.Two.{Spot};
    ghost use Rattle.fine_headline.specs.FineState.{event_of};
    ghost use Rattle.stepper.specs.Sides.{move_of, run_parts};
    ghost use Rattle.stepper.specs.SideLaws.{laws};
    ghost use Rattle.stepper.specs.Running.{IsEventFault};

    type State = FineRun<'p>;

    type Event = Turn;

    type Fault = RunFault;

    ghost Location = { Spot };

    ghost parts = { run_parts };

    ghost move_of = { move_of };

    ghost is_kept = { λ _. false };

    fn enabled(state: &FineRun<'p>, turn: &Turn) -> bool {
        state.has_come();
        state.is_enabled(state.event_of(*turn))
    }

    fn step(state: &mut FineRun<'p>, turn: &Turn) -> Result<(), RunFault>
        requires { run_parts.enabled state.old (move_of turn.now) }
        ensures done { OnOk result (run_parts.step state.old (move_of turn.now) state.new) }
        ensures fault { IfErr result (IsEventFault state.old (event_of (plan state.old.program) (move_of turn.now))) }
        ensures stopped { OnErr result (run_parts.step state.old (move_of turn.now) state.new) }
    {
        state.take(state.event_of(*turn))
    }

    fn kept(_fault: &RunFault) -> bool
        ensures { result ≡ false }
    {
        false
    }

    ghost laws = { laws };
}
