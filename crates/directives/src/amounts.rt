//! The clauses with numbers that say how a loop's turns are shared out. They change nothing of what the loop does, but for
//! how many loops are collapsed.

use crate::fault::DirectiveFault;
use crate::known::{Act, Single};
use crate::lexeme::Lexeme;
use crate::line::Line;
use crate::tree::{Amount, DirectiveKind, ScheduleType};
use base::fault::ReadCode;
use c_tokens::Sign;

impl<'a, 'l> Line<'a, 'l> {
    ghost use Rattle.std.specs.Prelude.{◌≡◌, ◌∷◌, [], true, false, IfOk, IfSome, IfNone, if◌then◌else◌};
    ghost use Rattle.c_tokens.specs.declared.kind.Sign.TheVariants as sign;
    ghost use Rattle.c_grammar.specs.Lexeme.{Worded};
    ghost use Rattle.c_grammar.specs.LineGrammar as grammar;
    ghost use Rattle.c_grammar.specs.LineRules.{IsChunk, IsClause};
    ghost use Rattle.c_grammar.specs.LineMachine.{LineStack, AfterSchedule, AmountNumber, ChunkNumber, Clauses, ScheduleHead, w};
    ghost use Rattle.directives.specs.Kinds.{IsNoScheduleWord, seen_amount, seen_kind, seen_schedule};
    ghost use Rattle.directives.specs.Clauses.{IsNoAmount, is_amount, is_schedule};
    ghost use Rattle.directives.specs.Cursor.{first_item, items};
    ghost use Rattle.directives.specs.Reading.{IsSpelled, Outcome, OutcomeBy, rest};
    ghost use Rattle.directives.specs.Trees.{chunk_marks, chunk_of, clause_marks, clause_of, number_mark, word_mark};
    ghost use Rattle.directives.specs.declared.tree.Clause.TheVariants as clause;

    /// Whether the clause of that amount stands next, and the directive takes it.
    fn at_amount(&self, kind: DirectiveKind, amount: Amount) -> bool
        ensures { result ≡ is_amount (seen_kind kind) (seen_amount amount) (first_item self.now).terminal }
    {
        kind.takes_amount(amount) && self.at_word(amount.word())
    }

    /// The amount whose clause stands next, if the directive takes it.
    #[tactic(auto, using(crate::proofs::Sharing::amount_is, crate::proofs::Sharing::amount_taken))]
    pub fn amount_word(&self, kind: DirectiveKind) -> Option<Amount>
        ensures some { IfSome result (λ a. (first_item self.now).terminal ≡ Worded (grammar.amount_word (seen_amount a))) }
        ensures takes { IfSome result (λ a. grammar.takes_amount (seen_kind kind) (seen_amount a) ≡ true) }
        ensures none { IfNone result (IsNoAmount (seen_kind kind) (first_item self.now).terminal) }
    {
        if self.at_amount(kind, Amount::Collapse) {
            return Some(Amount::Collapse);
        }
        if self.at_amount(kind, Amount::NumTeams) {
            return Some(Amount::NumTeams);
        }
        if self.at_amount(kind, Amount::ThreadLimit) {
            return Some(Amount::ThreadLimit);
        }
        if self.at_amount(kind, Amount::NumThreads) {
            return Some(Amount::NumThreads);
        }
        if self.at_amount(kind, Amount::SimdLen) {
            return Some(Amount::SimdLen);
        }
        if self.at_amount(kind, Amount::SafeLen) {
            return Some(Amount::SafeLen);
        }
        None
    }

    /// The number of an amount.
    fn amount_number(&mut self, amount: Amount) -> Result<u64, DirectiveFault>
        ensures read { (s : LineStack) → Outcome result (rest self.old (AmountNumber (seen_amount amount) ∷ s)) (rest self.new s) }
        ensures tree { IfOk result (λ n. IsSpelled (number_mark n ∷ []) (items self.old) (items self.new)) }
    {
        match self.peek() {
            Lexeme::Number(number) => {
                self.enter(Act::Amounts(amount))?;
                Ok(number)
            }
            Lexeme::BadNumber => Err(DirectiveFault::Line(self.fault(ReadCode::BadNumber))),
            _ => Err(DirectiveFault::Line(self.misfit(ReadCode::BadOperand))),
        }
    }

    /// The clause of that amount, whose word stands next.
    pub fn amount_clause(
        &mut self,
        kind: DirectiveKind,
        amount: Amount,
    ) -> Result<u64, DirectiveFault>
        requires takes { grammar.takes_amount (seen_kind kind) (seen_amount amount) ≡ true }
        requires word { (first_item self.old).terminal ≡ Worded (grammar.amount_word (seen_amount amount)) }
        ensures read { (s : LineStack) → Outcome result (rest self.old (Clauses (seen_kind kind) ∷ s))
            (rest self.new (Clauses (seen_kind kind) ∷ s)) }
        ensures tree { IfOk result (λ n. IsSpelled (clause_marks (clause.Amount amount n)) (items self.old) (items self.new)) }
    {
        self.enter(Act::Once(Single::OnAmount(amount)))?;
        self.expect(Sign::OpenParen)?;
        let number = self.amount_number(amount)?;
        self.expect(Sign::CloseParen)?;
        Ok(number)
    }

    /// Whether a schedule that the directive takes stands next.
    pub fn at_schedule(&self, kind: DirectiveKind) -> bool
        ensures { result ≡ is_schedule (seen_kind kind) (first_item self.now).terminal }
    {
        kind.takes_schedule() && self.at_word(b"schedule".as_slice())
    }

    /// The schedule whose word stands next.
    #[tactic(auto, using(crate::proofs::Moves::word_is))]
    fn schedule_word(&self) -> Option<ScheduleType>
        ensures some { IfSome result (λ t. (first_item self.now).terminal ≡ Worded (grammar.schedule_word (seen_schedule t))) }
        ensures none { IfNone result (IsNoScheduleWord (first_item self.now).terminal) }
    {
        if self.at_word(b"static".as_slice()) {
            return Some(ScheduleType::Static);
        }
        if self.at_word(b"dynamic".as_slice()) {
            return Some(ScheduleType::Dynamic);
        }
        if self.at_word(b"guided".as_slice()) {
            return Some(ScheduleType::Guided);
        }
        if self.at_word(b"auto".as_slice()) {
            return Some(ScheduleType::Auto);
        }
        if self.at_word(b"runtime".as_slice()) {
            return Some(ScheduleType::Runtime);
        }
        None
    }

    /// The type of a schedule.
    fn schedule_type(&mut self) -> Result<ScheduleType, DirectiveFault>
        ensures read { (s : LineStack) → OutcomeBy result (rest self.old (ScheduleHead ∷ s))
            (λ t. rest self.new ((if grammar.takes_chunk (seen_schedule t) then AfterSchedule else w sign.CloseParen) ∷ s)) }
        ensures tree { IfOk result (λ t. IsSpelled (word_mark (grammar.schedule_word (seen_schedule t)) ∷ [])
            (items self.old) (items self.new)) }
    {
        match self.schedule_word() {
            Some(schedule) => {
                self.enter(Act::Plain)?;
                Ok(schedule)
            }
            None => Err(DirectiveFault::Line(self.misfit(ReadCode::Unexpected))),
        }
    }

    /// The number of a chunk's turns.
    fn chunk_number(&mut self) -> Result<u64, DirectiveFault>
        ensures read { (s : LineStack) → Outcome result (rest self.old (ChunkNumber ∷ s)) (rest self.new s) }
        ensures tree { IfOk result (λ n. IsSpelled (number_mark n ∷ []) (items self.old) (items self.new)) }
    {
        match self.peek() {
            Lexeme::Number(number) => {
                self.enter(Act::Chunks)?;
                Ok(number)
            }
            Lexeme::BadNumber => Err(DirectiveFault::Line(self.fault(ReadCode::BadNumber))),
            _ => Err(DirectiveFault::Line(self.misfit(ReadCode::BadOperand))),
        }
    }

    /// What stands behind the type of a schedule with chunks.
    fn chunk(&mut self) -> Result<Option<u64>, DirectiveFault>
        ensures read { (s : LineStack) → Outcome result (rest self.old (AfterSchedule ∷ s)) (rest self.new s) }
        ensures tree { IfOk result (λ o. IsSpelled (chunk_marks o) (items self.old) (items self.new)) }
    {
        if self.at(Sign::Comma) {
            self.enter(Act::Plain)?;
            let number = self.chunk_number()?;
            self.expect(Sign::CloseParen)?;
            return Ok(Some(number));
        }
        if self.at(Sign::CloseParen) {
            self.enter(Act::Plain)?;
            return Ok(None);
        }
        Err(DirectiveFault::Line(self.misfit(ReadCode::Unexpected)))
    }

    /// What stands behind the type of a schedule.
    fn chunk_behind(&mut self, schedule: ScheduleType) -> Result<Option<u64>, DirectiveFault>
        ensures read { (s : LineStack) → Outcome result
            (rest self.old ((if grammar.takes_chunk (seen_schedule schedule) then AfterSchedule else w sign.CloseParen) ∷ s))
            (rest self.new s) }
        ensures tree { IfOk result (λ o. IsSpelled (chunk_marks o) (items self.old) (items self.new)) }
        ensures takes { IfOk result (λ o. IsChunk (seen_schedule schedule) (chunk_of o)) }
    {
        if schedule.takes_chunk() {
            return self.chunk();
        }
        self.expect(Sign::CloseParen)?;
        Ok(None)
    }

    /// A schedule, whose word stands next.
    pub fn schedule_clause(
        &mut self,
        kind: DirectiveKind,
    ) -> Result<(ScheduleType, Option<u64>), DirectiveFault>
        requires { is_schedule (seen_kind kind) (first_item self.old).terminal ≡ true }
        ensures read { (s : LineStack) → Outcome result (rest self.old (Clauses (seen_kind kind) ∷ s))
            (rest self.new (Clauses (seen_kind kind) ∷ s)) }
        ensures tree { IfOk result (λ x. IsSpelled (clause_marks (clause.Schedule x.0 x.1)) (items self.old) (items self.new)) }
        ensures takes { IfOk result (λ x. IsClause (seen_kind kind) (clause_of (clause.Schedule x.0 x.1))) }
    {
        self.enter(Act::Once(Single::OnSchedule))?;
        self.expect(Sign::OpenParen)?;
        let schedule = self.schedule_type()?;
        let chunk = self.chunk_behind(schedule)?;
        Ok((schedule, chunk))
    }
}
