// The event that a choice takes.

ghost use Rattle.std.specs.Prelude.{◌≡◌, ◌+◌, ◌≤◌, drop, false, length, slice_get};
ghost use Rattle.base.specs.Items.{Plan};
ghost use Rattle.base.specs.Limits.{most_items};
ghost use Rattle.fine_machine.specs.Machine.{State, all_enabled};
ghost use Rattle.stepper.specs.Answering.{next_by};
ghost use Rattle.stepper.specs.Standing.{IsAt};

use crate::standing::Standing;
use base::item::Event;
use device::{allowed_count, choice_at, nth_allowed};

impl<'p> Standing<'p> {
    // Of the events that may happen next, the one at a place; of an open item its next action, or its closing where
    // nothing is left of it.
    fn nth_event(&self, place: usize) -> Option<Event>
        requires few { length self.now.graph.tasks ≤ most_items }
        requires place { self.now.graph.place ≤ most_items + 1 }
        ensures { (p : Plan) (s : State) → IsAt p self.now s → self.now.ended ≡ false → result ≡ slice_get (all_enabled p s) place }
    {
        match nth_allowed(&self.graph, place)? {
            Event::Close(item) => {
                if self.is_acting(item) {
                    Some(Event::Step(item))
                } else {
                    Some(Event::Close(item))
                }
            }
            event => Some(event),
        }
    }

    /// Of the events that may happen next, the one that the choice of a turn takes, counted around.
    pub fn next_event(&self, choices: &[u32], turn: usize) -> Option<Event>
        requires few { length self.now.graph.tasks ≤ most_items }
        requires place { self.now.graph.place ≤ most_items + 1 }
        ensures { (p : Plan) (s : State) → IsAt p self.now s → result ≡ next_by p s (drop turn choices.now) }
    {
        if self.ended {
            return None;
        }
        let count = allowed_count(&self.graph);
        if count == 0 {
            return None;
        }
        let choice = choice_at(choices, turn);
        self.nth_event(choice as usize % count)
    }
}
