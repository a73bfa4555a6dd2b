//! A program's text without its directives means what the program means without them.
#![tactic(auto)]

ghost use Rattle.erased_meaning.specs.Laws.{ErasedTextRuns};

pub use crate::read::read_erased;

mod read;

/// Of every source and every program that it spells: a program that its text without directive lines spells has no
/// directive and the same arrays, but for those of boxed scalars, which the other may have behind them. On the host alone
/// it prints the same numbers and leaves the same memory of its arrays and the same input, or it names a cell that is not
/// there, as the other does.
pub fn erased_text_runs()
    ensures { ErasedTextRuns }
{}
