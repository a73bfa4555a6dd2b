// A run by choices to its end.

ghost use Rattle.std.specs.Prelude.{◌≡◌, [], drop, length, slice_get, IfErr, OnOk};
ghost use Rattle.base.specs.Headline.{ShowsErased};
ghost use Rattle.base.specs.Items.{plan};
ghost use Rattle.base.specs.Machine.{all_enabled, first_or_zero};
ghost use Rattle.device.specs.Choosing.{IsPlayed, IsStopped, most_events, next_by};
ghost use Rattle.device.specs.Run.{state_of};
ghost use Rattle.headline.specs.Stepwise.{program_order};

use crate::allowed::{allowed_count, nth_allowed};
use crate::state::RunState;
use base::fault::RunFault;
use base::item::Event;

/// The choice of a turn, 0 past the last.
pub fn choice_at(choices: &[u32], turn: usize) -> u32
    ensures { result ≡ first_or_zero (drop turn choices.now) }
{
    match choices.get(turn) {
        Some(choice) => *choice,
        None => 0,
    }
}

impl<'a> RunState<'a> {
    // No run of the program has more events.
    fn most_events(&self) -> usize
        ensures { result ≡ most_events self.now }
    {
        3 * self.image.items().len() + 1
    }

    // How many events may happen next.
    fn enabled_count(&self) -> usize
        ensures { result ≡ length (all_enabled (plan self.now.program) (state_of self.now)) }
    {
        if self.standing.ended {
            return 0;
        }
        let _items = self.image.items();
        allowed_count(&self.standing.graph)
    }

    // Of the events that may happen next, in the order of `enabled`, the one at a place.
    fn nth_enabled(&self, place: usize) -> Option<Event>
        ensures { result ≡ slice_get (all_enabled (plan self.now.program) (state_of self.now)) place }
    {
        if self.standing.ended {
            return None;
        }
        let _items = self.image.items();
        nth_allowed(&self.standing.graph, place)
    }

    // The event that the choices take next in this turn.
    fn next_event(&self, choices: &[u32], turn: usize) -> Option<Event>
        ensures { result ≡ next_by self.now (drop turn choices.now) }
    {
        let choice = choice_at(choices, turn);
        let count = self.enabled_count();
        if count == 0 {
            return None;
        }
        self.nth_enabled(choice as usize % count)
    }

    /// The run goes on to its end: of the events that may happen next, in the order of `enabled`, each choice in turn
    /// takes the one at its place, counted around, and after the last choice it is the first one. Whatever the choices, what was
    /// printed at the end and the arrays that are marked current are those of the erased program. With no choice at all a run
    /// that has done nothing closes each item before it meets the next one. The error is
    /// `DeviceFull` where an opening would create more cells than its device has room for, or `OutOfMemory`; the run
    /// then stands before the event that was not done.
    pub fn play_choices(&mut self, choices: &[u32]) -> Result<(), RunFault>
        ensures played { OnOk result (IsPlayed choices.now self.old self.new) }
        ensures shows { OnOk result (ShowsErased self.new.program self.new.input (state_of self.new)) }
        ensures in_order { OnOk result (choices.now ≡ [] → self.old.history ≡ [] → self.new.history ≡ program_order (plan self.new.program)) }
        ensures stopped { IfErr result (IsStopped choices.now self.old self.new) }
    {
        self.is_reached();
        let most = self.most_events();
        for turn in 0..most {
            self.is_reached();
            let Some(event) = self.next_event(choices, turn) else {
                return Ok(());
            };
            match self.take(event) {
                Err(fault) => return Err(fault),
                Ok(()) => {}
            }
        }
        self.is_reached();
        Ok(())
    }
}
