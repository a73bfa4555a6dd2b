//! What a mend answers is what its source prints without directives.
#![tactic(auto)]

ghost use Rattle.mend_runs.specs.Laws.{MendRunsByChoices, MendRunsOnThreads, MendSteps};

/// Where a text is run by choices that is the same as a source without directive lines, as a mend of the source, the
/// answer is what the source prints without those lines on the host alone, and what that leaves in the arrays that the
/// text has marked current. The source itself need not be accepted, nor spell a program.
pub fn mend_runs_by_choices()
    ensures { MendRunsByChoices }
{}

/// The same where the text is run on threads.
pub fn mend_runs_on_threads()
    ensures { MendRunsOnThreads }
{}

/// The same where the text is run action by action, and its program is accepted.
pub fn mend_steps()
    ensures { MendSteps }
{}
