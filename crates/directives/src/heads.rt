//! A whole line.

ghost use Rattle.std.specs.Prelude.{◌≡◌, [], IfOk, IfErr, OnOk, None, Some};
ghost use Rattle.c_grammar.specs.LineRules.{IsLine, line_begin};
ghost use Rattle.c_grammar.specs.LineMachine.{line_start};
ghost use Rattle.c_grammar.specs.Lexeme.{lexemes_of};
ghost use Rattle.directives.specs.Ahead.{seen_line};
ghost use Rattle.directives.specs.Cursor.{line_items};
ghost use Rattle.directives.specs.Names.{IsInSource};
ghost use Rattle.directives.specs.Reading.{IsSpelled, Outcome, run};
ghost use Rattle.directives.specs.Spells.{IsFirstLineFault, OnLine, SpellsLine, line_answer};
ghost use Rattle.directives.specs.Trees.{line_marks, text_of};

use crate::fault::DirectiveFault;
use crate::known::Act;
use crate::line::Line;
use crate::line_tokens::LineTokens;
use crate::tree::{Construct, Directive, DirectiveKind};
use base::fault::ReadCode;
use std::alloc::Global;

impl<'a, 'l> Line<'a, 'l> {
    ghost use Rattle.std.specs.Prelude.{◌≡◌, ◌∷◌, ◌++◌, [], false, IfOk, OnOk, None, codes, if◌then◌else◌};
    ghost use Rattle.base.specs.declared.fault.ReadCode.TheVariants.{UnknownClause};
    ghost use Rattle.c_grammar.specs.Lexeme.{Worded};
    ghost use Rattle.c_grammar.specs.LineGrammar as grammar;
    ghost use Rattle.c_grammar.specs.LineRules.{IsLine};
    ghost use Rattle.c_grammar.specs.LineMachine.{LineStack, AfterDistribute, AfterFor, AfterParallel, AfterTarget, AfterTeams, Begin, Clauses, Want, is_word, line_start};
    ghost use Rattle.directives.specs.Kinds.{seen_construct, seen_kind};
    ghost use Rattle.directives.specs.Cursor.{behind, first_item, items};
    ghost use Rattle.directives.specs.Reading.{IsSpelled, Outcome, OutcomeBy, rest};
    ghost use Rattle.directives.specs.Trees.{construct_marks, distribute_marks, head_marks, kind_marks, line_marks, parallel_marks, simd_marks, target_marks, teams_marks, text_of, word_mark};

    /// Whether the word `simd` stands behind a construct that ends with `for`, and goes past it.
    fn simd_word(&mut self) -> Result<bool, DirectiveFault>
        ensures read { (c d : grammar.Construct) (s : LineStack) → OutcomeBy result (rest self.old (AfterFor c d ∷ s))
            (λ x. rest self.new (Clauses (grammar.Combined (if x then d else c)) ∷ s)) }
        ensures tree { IfOk result (λ x. IsSpelled (simd_marks x) (items self.old) (items self.new)) }
    {
        if self.at_word(b"simd".as_slice()) {
            self.enter(Act::Plain)?;
            return Ok(true);
        }
        Ok(false)
    }

    /// The construct behind the words `target parallel`.
    fn parallel_kind(&mut self) -> Result<Construct, DirectiveFault>
        ensures read { (s : LineStack) → OutcomeBy result (rest self.old (AfterParallel ∷ s))
            (λ c. rest self.new (Clauses (grammar.Combined (seen_construct c)) ∷ s)) }
        ensures tree { IfOk result (λ c. IsSpelled (parallel_marks c) (items self.old) (items self.new)) }
        ensures named { IfOk result (λ c. construct_marks c ≡ word_mark (codes "parallel") ∷ parallel_marks c) }
    {
        if self.at_for() {
            self.enter(Act::Plain)?;
            let simd = self.simd_word()?;
            return if simd {
                Ok(Construct::ParallelForSimd)
            } else {
                Ok(Construct::ParallelFor)
            };
        }
        if self.at_word(b"loop".as_slice()) {
            self.enter(Act::Plain)?;
            return Ok(Construct::ParallelLoop);
        }
        Err(DirectiveFault::Line(self.misfit(ReadCode::UnknownDirective)))
    }

    /// The construct behind the words `target teams distribute`.
    fn distribute_kind(&mut self) -> Result<Construct, DirectiveFault>
        ensures read { (s : LineStack) → OutcomeBy result (rest self.old (AfterDistribute ∷ s))
            (λ c. rest self.new (Clauses (grammar.Combined (seen_construct c)) ∷ s)) }
        ensures tree { IfOk result (λ c. IsSpelled (distribute_marks c) (items self.old) (items self.new)) }
        ensures named { IfOk result (λ c. teams_marks c ≡ word_mark (codes "distribute") ∷ distribute_marks c) }
        ensures teams { IfOk result (λ c. construct_marks c ≡ word_mark (codes "teams") ∷ teams_marks c) }
    {
        if self.at_word(b"simd".as_slice()) {
            self.enter(Act::Plain)?;
            return Ok(Construct::TeamsDistributeSimd);
        }
        if self.at_word(b"parallel".as_slice()) {
            self.enter(Act::Plain)?;
            self.expect_for()?;
            let simd = self.simd_word()?;
            return if simd {
                Ok(Construct::TeamsDistributeParallelForSimd)
            } else {
                Ok(Construct::TeamsDistributeParallelFor)
            };
        }
        Ok(Construct::TeamsDistribute)
    }

    /// The construct behind the words `target teams`.
    fn teams_kind(&mut self) -> Result<Construct, DirectiveFault>
        ensures read { (s : LineStack) → OutcomeBy result (rest self.old (AfterTeams ∷ s))
            (λ c. rest self.new (Clauses (grammar.Combined (seen_construct c)) ∷ s)) }
        ensures tree { IfOk result (λ c. IsSpelled (teams_marks c) (items self.old) (items self.new)) }
        ensures named { IfOk result (λ c. construct_marks c ≡ word_mark (codes "teams") ∷ teams_marks c) }
    {
        if self.at_word(b"distribute".as_slice()) {
            self.enter(Act::Plain)?;
            let construct = self.distribute_kind()?;
            return Ok(construct);
        }
        if self.at_word(b"loop".as_slice()) {
            self.enter(Act::Plain)?;
            return Ok(Construct::TeamsLoop);
        }
        Err(DirectiveFault::Line(self.misfit(ReadCode::UnknownDirective)))
    }

    /// The construct that is combined with `target`, if its first word stands next.
    fn construct(&mut self) -> Result<DirectiveKind, DirectiveFault>
        requires data { is_word (codes "data") (first_item self.old).terminal ≡ false }
        requires update { is_word (codes "update") (first_item self.old).terminal ≡ false }
        requires enter { is_word (codes "enter") (first_item self.old).terminal ≡ false }
        requires exit { is_word (codes "exit") (first_item self.old).terminal ≡ false }
        ensures read { (s : LineStack) → OutcomeBy result (rest self.old (AfterTarget ∷ s))
            (λ k. rest self.new (Clauses (seen_kind k) ∷ s)) }
        ensures tree { IfOk result (λ k. IsSpelled (target_marks k) (items self.old) (items self.new)) }
        ensures named { IfOk result (λ k. kind_marks k ≡ word_mark (codes "target") ∷ target_marks k) }
    {
        if self.at_word(b"simd".as_slice()) {
            self.enter(Act::Plain)?;
            return Ok(DirectiveKind::Combined(Construct::Simd));
        }
        if self.at_word(b"parallel".as_slice()) {
            self.enter(Act::Plain)?;
            let construct = self.parallel_kind()?;
            return Ok(DirectiveKind::Combined(construct));
        }
        if self.at_word(b"teams".as_slice()) {
            self.enter(Act::Plain)?;
            let construct = self.teams_kind()?;
            return Ok(DirectiveKind::Combined(construct));
        }
        Ok(DirectiveKind::Target)
    }

    /// The kind of a directive behind the word `target`.
    fn target_kind(&mut self) -> Result<DirectiveKind, DirectiveFault>
        ensures read { (s : LineStack) → OutcomeBy result (rest self.old (AfterTarget ∷ s))
            (λ k. rest self.new (Clauses (seen_kind k) ∷ s)) }
        ensures tree { IfOk result (λ k. IsSpelled (target_marks k) (items self.old) (items self.new)) }
        ensures named { IfOk result (λ k. kind_marks k ≡ word_mark (codes "target") ∷ target_marks k) }
    {
        if self.at_word(b"data".as_slice()) {
            self.enter(Act::Demands)?;
            return Ok(DirectiveKind::TargetData);
        }
        if self.at_word(b"update".as_slice()) {
            self.enter(Act::Demands)?;
            return Ok(DirectiveKind::TargetUpdate);
        }
        if self.at_word(b"enter".as_slice()) {
            self.enter(Act::Plain)?;
            self.expect_word(b"data".as_slice(), Act::Demands)?;
            return Ok(DirectiveKind::TargetEnterData);
        }
        if self.at_word(b"exit".as_slice()) {
            self.enter(Act::Plain)?;
            self.expect_word(b"data".as_slice(), Act::Demands)?;
            return Ok(DirectiveKind::TargetExitData);
        }
        self.construct()
    }

    /// Goes past the word `update` behind `atomic`.
    #[tactic(auto, using(crate::proofs::Outcomes::on_from, crate::proofs::Moves::at_named, crate::proofs::Moves::stop_later, crate::proofs::Moves::word_is))]
    fn expect_update(&mut self) -> Result<(), DirectiveFault>
        ensures read { (s : LineStack) → Outcome result (rest self.old
            (Want (Worded (codes "update")) (grammar.of UnknownClause grammar.Plain) ∷ s)) (rest self.new s) }
        ensures first { OnOk result ((first_item self.old).terminal ≡ Worded (codes "update")) }
        ensures taken { OnOk result (behind self.old ≡ items self.new) }
    {
        if !self.at_word(b"update".as_slice()) {
            return Err(DirectiveFault::Line(self.misfit(ReadCode::UnknownClause)));
        }
        self.enter(Act::Plain)
    }

    /// The kind of the directive.
    fn kind(&mut self) -> Result<DirectiveKind, DirectiveFault>
        ensures read { (s : LineStack) → OutcomeBy result (rest self.old (Begin ∷ s))
            (λ k. rest self.new (Clauses (seen_kind k) ∷ s)) }
        ensures tree { IfOk result (λ k. IsSpelled (kind_marks k) (items self.old) (items self.new)) }
    {
        if self.at_word(b"target".as_slice()) {
            self.enter(Act::Plain)?;
            let kind = self.target_kind()?;
            return Ok(kind);
        }
        if self.at_word(b"taskwait".as_slice()) {
            self.enter(Act::Plain)?;
            return Ok(DirectiveKind::TaskWait);
        }
        if self.at_word(b"atomic".as_slice()) {
            self.enter(Act::Plain)?;
            self.expect_update()?;
            return Ok(DirectiveKind::AtomicUpdate);
        }
        Err(DirectiveFault::Line(self.misfit(ReadCode::UnknownDirective)))
    }

    /// The words before the clauses.
    #[tactic(auto, using(crate::proofs::Outcomes::on_from_by, crate::proofs::Outcomes::failed_from, crate::proofs::Heading::read_head))]
    fn head(&mut self) -> Result<DirectiveKind, DirectiveFault>
        ensures read { OutcomeBy result (rest self.old line_start) (λ k. rest self.new (Clauses (seen_kind k) ∷ [])) }
        ensures tree { IfOk result (λ k. IsSpelled (head_marks k) (items self.old) (items self.new)) }
    {
        self.expect_word(b"pragma".as_slice(), Act::Plain)?;
        self.expect_word(b"omp".as_slice(), Act::Plain)?;
        let kind = self.kind()?;
        Ok(kind)
    }

    /// The whole line.
    #[tactic(auto, using(crate::proofs::Outcomes::on_from, crate::proofs::Outcomes::failed_from, crate::proofs::Heading::read_line))]
    fn directive(&mut self) -> Result<Directive<'a>, DirectiveFault>
        ensures read { Outcome result (rest self.old line_start) None }
        ensures tree { IfOk result (λ d. IsSpelled (line_marks d) (items self.old) []) }
        ensures line { IfOk result (λ d. IsLine (text_of d)) }
    {
        let kind = self.head()?;
        let clauses = self.clauses(kind)?;
        Ok(Directive { kind, clauses })
    }
}

/// The directive of a line.
fn read_line<'a>(alloc: Global, line: &LineTokens<'a>) -> Result<Directive<'a>, DirectiveFault>
    ensures read { Outcome result (run line_begin line_start (line_items (seen_line line.now))) None }
    ensures tree { IfOk result (λ d. IsSpelled (line_marks d) (line_items (seen_line line.now)) []) }
    ensures line { IfOk result (λ d. IsLine (text_of d)) }
{
    let mut rest = Line::new(alloc, line);
    rest.directive()
}

/// Reads one directive line of these tokens. No name is looked up.
/// A fault is the first of the line, the lowest code at its token. Want of memory comes in place of any answer.
pub fn read_directive_in<'a>(
    alloc: Global,
    line: &LineTokens<'a>,
) -> Result<Directive<'a>, DirectiveFault>
    ensures found { IfOk result (λ d. SpellsLine (seen_line line.now) d) }
    ensures sound { OnOk result (line_answer (seen_line line.now) ≡ None) }
    ensures source { IfOk result (λ d. IsInSource (seen_line line.now) d) }
    ensures fault { IfErr result (OnLine (λ f. IsFirstLineFault (seen_line line.now) f)) }
    ensures told { IfErr result (OnLine (λ f. line_answer (seen_line line.now) ≡ Some f)) }
    ensures refused { IfErr result (OnLine (λ _. (d : Directive) → SpellsLine (seen_line line.now) d → ⊥)) }
{
    match read_line(alloc, line) {
        Ok(directive) => Ok(directive),
        Err(DirectiveFault::OutOfMemory) => Err(DirectiveFault::OutOfMemory),
        Err(DirectiveFault::Line(fault)) => Err(DirectiveFault::Line(fault)),
    }
}

/// Reads one directive line, its `#` first. Columns count bytes of the line from 1. No name is looked up.
/// A fault is the first of the line, the lowest code at its token. Want of memory comes in place of any answer.
pub fn read_directive<'a>(alloc: Global, line: &'a [u8]) -> Result<Directive<'a>, DirectiveFault>
    ensures found { IfOk result (λ d. SpellsLine (lexemes_of line.now 1) d) }
    ensures sound { OnOk result (line_answer (lexemes_of line.now 1) ≡ None) }
    ensures source { IfOk result (λ d. IsInSource (lexemes_of line.now 1) d) }
    ensures fault { IfErr result (OnLine (λ f. IsFirstLineFault (lexemes_of line.now 1) f)) }
    ensures told { IfErr result (OnLine (λ f. line_answer (lexemes_of line.now 1) ≡ Some f)) }
    ensures refused { IfErr result (OnLine (λ _. (d : Directive) → SpellsLine (lexemes_of line.now 1) d → ⊥)) }
{
    let tokens = LineTokens::new(alloc, line, 1)?;
    read_directive_in(alloc, &tokens)
}
