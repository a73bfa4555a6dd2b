// Where the host stands in a run.

ghost use Rattle.std.specs.Prelude.{◌≡◌, ◌↔◌, IsTrue};
ghost use Rattle.base.specs.Items.{plan};
ghost use Rattle.base.specs.Machine.{HasEnded};
ghost use Rattle.device.specs.Run.{state_of};

use crate::state::RunState;

impl<'a> RunState<'a> {
    /// The item at which the host stands: the number of items where it is past the last, one more where the run has
    /// ended.
    pub fn place(&self) -> usize
        ensures { result ≡ (state_of self.now).place }
    {
        if self.standing.ended {
            return self.image.items().len() + 1;
        }
        self.standing.graph.place()
    }

    /// Whether the run has come to its end.
    pub fn has_ended(&self) -> bool
        ensures { IsTrue result ↔ HasEnded (plan self.now.program) (state_of self.now) }
    {
        self.place() == self.image.items().len() + 1
    }
}
