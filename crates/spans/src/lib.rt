//! Loops whose turns may be done apart, in spans.
#![tactic(auto)]

ghost use Rattle.spans.specs.Spans.{SpansAreTheLoop};

pub use crate::contained::is_self_contained;
pub use crate::only::only_loop;
pub use crate::scalars::all_give;

mod contained;
mod only;
mod scalars;

/// The turns of a loop that meet nowhere may be done in two spans, each from where the loop begins: what the second one
/// stored, laid over what the first one stored, is what the loop stores. Each scalar that the body assigns has to be
/// assigned in each turn, before it is read, and there has to be no commuting update.
pub fn spans_are_the_loop()
    ensures { SpansAreTheLoop }
{}
