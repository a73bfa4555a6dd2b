// What holds of each run by choices.

ghost use Rattle.device.specs.Choosing.{FewEvents, NothingAfterTheEnd, NothingOnlyAtTheEnd};

/// Of every program: a run that has not ended has had at most three events an item.
pub fn few_events()
    ensures { FewEvents }
{}

/// Of every program: after the end of a run no event may happen.
pub fn nothing_after_the_end()
    ensures { NothingAfterTheEnd }
{}

/// Of every program: where no event of a run may happen next, the run has ended.
pub fn nothing_only_at_the_end()
    ensures { NothingOnlyAtTheEnd }
{}
