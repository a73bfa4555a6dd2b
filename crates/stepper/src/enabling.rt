// Whether an event may happen next.

ghost use Rattle.std.specs.Prelude.{◌≡◌};
ghost use Rattle.base.specs.Items.{Plan};
ghost use Rattle.fine_machine.specs.Machine.{State, enabled};
ghost use Rattle.stepper.specs.Standing.{IsAt};

use crate::standing::Standing;
use base::item::Event;

impl<'p> Standing<'p> {
    /// Whether an event may happen next.
    pub fn is_enabled(&self, event: Event) -> bool
        ensures { (p : Plan) (s : State) → IsAt p self.now s → result ≡ enabled p s event }
    {
        if self.ended {
            return false;
        }
        match event {
            Event::Gen(item) => self.graph.may_generate(item as usize),
            Event::Open(item) => self.graph.may_open(item as usize),
            Event::Step(item) => self.graph.is_open(item as usize) && self.is_acting(item),
            Event::Close(item) => self.graph.is_open(item as usize) && !self.is_acting(item),
            Event::Wait(item) => self.graph.may_pass(item as usize),
            Event::End => self.graph.may_end(),
        }
    }
}
