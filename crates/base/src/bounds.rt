// How often a loop turns.

ghost use Rattle.std.specs.Prelude.{◌≡◌};
ghost use Rattle.base.specs.Meaning.{turns_of};

use crate::tree::Bounds;

impl Bounds {
    /// How often a loop with these bounds turns.
    pub fn turns(self) -> u64
        ensures { result ≡ turns_of self }
    {
        (self.end.saturating_sub(self.first) + (self.step - 1)) / self.step
    }
}
