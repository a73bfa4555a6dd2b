// What holds of the runs of the fine-grained machine.
#![tactic(auto)]

ghost use Rattle.machine.specs.Machine.{Laws};
ghost use Rattle.fine_machine.specs.Headline.{FineHeadline};
ghost use Rattle.fine_headline.specs.FineState.{parts, AFineRunGoesOn};

/// The fine-grained machine keeps the laws from which the order of events is free.
pub fn keeps_the_laws()
    ensures { Laws parts }
{}

/// Of every program: a run of the fine-grained machine that has not ended can go on.
pub fn a_run_goes_on()
    ensures { AFineRunGoesOn }
{}

/// Of every accepted program: every run of the fine-grained machine, in any order of its loads, stores, copied cells and actions on the
/// table, ends with what the program does without its directives, and none fails.
pub fn every_run_is_right()
    ensures { FineHeadline }
{}
