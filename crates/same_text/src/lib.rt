//! Texts that differ in directives alone print the same without them.
#![tactic(auto)]

ghost use Rattle.same_text.specs.Laws.{BareTokensStay, MendErases, SameTextRuns, SourceIsText};

/// Deleting the directive lines of a text whole leaves the kinds, names, numbers and columns of its other tokens.
pub fn bare_tokens_stay()
    ensures { BareTokensStay }
{}

/// Of every program that a text spells, as a mend, and every text that is the same without directive lines, as its
/// source: a program that the latter spells without those lines has no directive and the same arrays. On the host
/// alone it prints the same numbers and leaves the same memory and the same input, or it names a cell that is not
/// there, as the other does. The source itself need not spell a program.
pub fn mend_erases()
    ensures { MendErases }
{}

/// Without its directive lines such a source, where it is not too long, is a text of the grammar that keeps all rules.
pub fn source_is_text()
    ensures { SourceIsText }
{}

/// Of two texts that are the same without directive lines: the programs that they spell without those lines have
/// arrays of the same lengths, and on the host alone they print the same numbers and leave the same memory and the
/// same input, or each names a cell that is not there.
pub fn same_text_runs()
    ensures { SameTextRuns }
{}
