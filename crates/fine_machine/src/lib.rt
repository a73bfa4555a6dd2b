// The fine-grained machine: each load, each store, each copied cell and each action on the table is an event.
#![tactic(auto)]

ghost use Rattle.fine_machine.specs.Machine.{OneEventNext};

/// Of an open item either an action or the close comes next, and never both.
pub fn one_event_comes_next()
    ensures { OneEventNext }
{}
