//! The clauses of a directive.

use crate::fault::DirectiveFault;
use crate::known::{Act, Single};
use crate::line::Line;
use crate::tree::{
    Clause, DependClause, DeviceClause, DirectiveKind, MapClause, MotionClause, MotionType,
};
use base::fault::ReadCode;
use c_tokens::Sign;

impl<'a, 'l> Line<'a, 'l> {
    ghost use Rattle.std.specs.Prelude.{◌≡◌, ◌∷◌, ◌++◌, [], true, false, map, IfOk, IfSome, IfNone, None};
    ghost use Rattle.c_grammar.specs.Lexeme.{Ended, Worded, same};
    ghost use Rattle.c_grammar.specs.LineGrammar as grammar;
    ghost use Rattle.c_grammar.specs.LineRules.{AreClauses, IsClause};
    ghost use Rattle.c_grammar.specs.LineMachine.{LineStack, Clauses};
    ghost use Rattle.directives.specs.Kinds.{seen_kind, seen_motion};
    ghost use Rattle.directives.specs.Clauses.{IsNoMotion, is_depend, is_device, is_map, is_nowait};
    ghost use Rattle.directives.specs.Cursor.{first_item, items};
    ghost use Rattle.directives.specs.Reading.{IsSpelled, Outcome, rest};
    ghost use Rattle.directives.specs.Trees.{clause_marks, clause_of, clauses_marks};

    /// Whether a map clause that the directive takes stands next.
    fn at_map(&self, kind: DirectiveKind) -> bool
        ensures { result ≡ is_map (seen_kind kind) (first_item self.now).terminal }
    {
        kind.takes_map() && self.at_word(b"map".as_slice())
    }

    /// Whether a depend clause that the directive takes stands next.
    fn at_depend(&self, kind: DirectiveKind) -> bool
        ensures { result ≡ is_depend (seen_kind kind) (first_item self.now).terminal }
    {
        kind.takes_depend() && self.at_word(b"depend".as_slice())
    }

    /// Whether a nowait clause that the directive takes stands next.
    fn at_nowait(&self, kind: DirectiveKind) -> bool
        ensures { result ≡ is_nowait (seen_kind kind) (first_item self.now).terminal }
    {
        kind.takes_nowait() && self.at_word(b"nowait".as_slice())
    }

    /// Whether a device clause that the directive takes stands next.
    fn at_device(&self, kind: DirectiveKind) -> bool
        ensures { result ≡ is_device (seen_kind kind) (first_item self.now).terminal }
    {
        kind.takes_device() && self.at_word(b"device".as_slice())
    }

    /// The way in which the next clause copies, if it is one of an update, and the directive is one.
    #[tactic(auto, using(crate::proofs::Moves::word_is, crate::proofs::Clausing::no_motion, crate::proofs::Clausing::no_motion_word))]
    fn motion_word(&self, kind: DirectiveKind) -> Option<MotionType>
        ensures some { IfSome result (λ t. (first_item self.now).terminal ≡ Worded (grammar.motion_word (seen_motion t))) }
        ensures takes { IfSome result (λ _. grammar.takes_motion (seen_kind kind) ≡ true) }
        ensures none { IfNone result (IsNoMotion (seen_kind kind) (first_item self.now).terminal) }
    {
        if !kind.takes_motion() {
            return None;
        }
        if self.at_word(b"to".as_slice()) {
            return Some(MotionType::To);
        }
        if self.at_word(b"from".as_slice()) {
            return Some(MotionType::From);
        }
        None
    }

    /// A map clause, whose word stands next.
    fn map_clause(&mut self, kind: DirectiveKind) -> Result<MapClause<'a>, DirectiveFault>
        requires { is_map (seen_kind kind) (first_item self.old).terminal ≡ true }
        ensures read { (s : LineStack) → Outcome result (rest self.old (Clauses (seen_kind kind) ∷ s))
            (rest self.new (Clauses (seen_kind kind) ∷ s)) }
        ensures tree { IfOk result (λ m. IsSpelled (clause_marks (Clause.Map m)) (items self.old) (items self.new)) }
        ensures takes { IfOk result (λ m. IsClause (seen_kind kind) (clause_of (Clause.Map m))) }
    {
        self.enter(Act::Meets)?;
        self.expect(Sign::OpenParen)?;
        let modifiers = self.modifiers(kind)?;
        let map_type = self.map_type(kind)?;
        let sections = self.sections(Act::Maps)?;
        Ok(MapClause {
            modifiers,
            map_type,
            sections,
        })
    }

    /// A depend clause, whose word stands next.
    fn depend_clause(&mut self, kind: DirectiveKind) -> Result<DependClause<'a>, DirectiveFault>
        requires { is_depend (seen_kind kind) (first_item self.old).terminal ≡ true }
        ensures read { (s : LineStack) → Outcome result (rest self.old (Clauses (seen_kind kind) ∷ s))
            (rest self.new (Clauses (seen_kind kind) ∷ s)) }
        ensures tree { IfOk result (λ m. IsSpelled (clause_marks (Clause.Depend m)) (items self.old) (items self.new)) }
        ensures takes { IfOk result (λ m. IsClause (seen_kind kind) (clause_of (Clause.Depend m))) }
    {
        self.enter(Act::Plain)?;
        self.expect(Sign::OpenParen)?;
        let depend_type = self.depend_type()?;
        let sections = self.sections(Act::Depends)?;
        Ok(DependClause {
            depend_type,
            sections,
        })
    }

    /// The clause of an update, whose word stands next.
    fn motion_clause(
        &mut self,
        kind: DirectiveKind,
        motion_type: MotionType,
    ) -> Result<MotionClause<'a>, DirectiveFault>
        requires takes { grammar.takes_motion (seen_kind kind) ≡ true }
        requires word { (first_item self.old).terminal ≡ Worded (grammar.motion_word (seen_motion motion_type)) }
        ensures read { (s : LineStack) → Outcome result (rest self.old (Clauses (seen_kind kind) ∷ s))
            (rest self.new (Clauses (seen_kind kind) ∷ s)) }
        ensures tree { IfOk result (λ m. IsSpelled (clause_marks (Clause.Motion m)) (items self.old) (items self.new)) }
    {
        self.enter(Act::Meets)?;
        self.expect(Sign::OpenParen)?;
        let present = self.present();
        let sections = self.sections(Act::Maps)?;
        Ok(MotionClause {
            motion_type,
            present,
            sections,
        })
    }

    /// A device clause, whose word stands next.
    fn device_clause(&mut self, kind: DirectiveKind) -> Result<DeviceClause<'a>, DirectiveFault>
        requires { is_device (seen_kind kind) (first_item self.old).terminal ≡ true }
        ensures read { (s : LineStack) → Outcome result (rest self.old (Clauses (seen_kind kind) ∷ s))
            (rest self.new (Clauses (seen_kind kind) ∷ s)) }
        ensures tree { IfOk result (λ d. IsSpelled (clause_marks (Clause.Device d)) (items self.old) (items self.new)) }
        ensures takes { IfOk result (λ d. IsClause (seen_kind kind) (clause_of (Clause.Device d))) }
    {
        self.enter(Act::Once(Single::OnDevice))?;
        self.expect(Sign::OpenParen)?;
        let device = self.device()?;
        self.expect(Sign::CloseParen)?;
        Ok(device)
    }

    /// A schedule, or the clause of an amount.
    fn sharing_clause(&mut self, kind: DirectiveKind) -> Result<Clause<'a>, DirectiveFault>
        requires going { same Ended (first_item self.old).terminal ≡ false }
        requires no_map { is_map (seen_kind kind) (first_item self.old).terminal ≡ false }
        requires no_depend { is_depend (seen_kind kind) (first_item self.old).terminal ≡ false }
        requires no_motion { IsNoMotion (seen_kind kind) (first_item self.old).terminal }
        requires no_nowait { is_nowait (seen_kind kind) (first_item self.old).terminal ≡ false }
        requires no_device { is_device (seen_kind kind) (first_item self.old).terminal ≡ false }
        ensures read { (s : LineStack) → Outcome result (rest self.old (Clauses (seen_kind kind) ∷ s))
            (rest self.new (Clauses (seen_kind kind) ∷ s)) }
        ensures tree { IfOk result (λ c. IsSpelled (clause_marks c) (items self.old) (items self.new)) }
        ensures takes { IfOk result (λ c. IsClause (seen_kind kind) (clause_of c)) }
    {
        if self.at_schedule(kind) {
            let (schedule, chunk) = self.schedule_clause(kind)?;
            return Ok(Clause::Schedule(schedule, chunk));
        }
        if let Some(amount) = self.amount_word(kind) {
            let number = self.amount_clause(kind, amount)?;
            return Ok(Clause::Amount(amount, number));
        }
        Err(DirectiveFault::Line(self.misfit(ReadCode::UnknownClause)))
    }

    /// A `to`, `from`, `nowait` or `device` clause, or one that says how turns are shared out.
    fn short_clause(&mut self, kind: DirectiveKind) -> Result<Clause<'a>, DirectiveFault>
        requires going { same Ended (first_item self.old).terminal ≡ false }
        requires no_map { is_map (seen_kind kind) (first_item self.old).terminal ≡ false }
        requires no_depend { is_depend (seen_kind kind) (first_item self.old).terminal ≡ false }
        ensures read { (s : LineStack) → Outcome result (rest self.old (Clauses (seen_kind kind) ∷ s))
            (rest self.new (Clauses (seen_kind kind) ∷ s)) }
        ensures tree { IfOk result (λ c. IsSpelled (clause_marks c) (items self.old) (items self.new)) }
        ensures takes { IfOk result (λ c. IsClause (seen_kind kind) (clause_of c)) }
    {
        if let Some(motion_type) = self.motion_word(kind) {
            return self.motion_clause(kind, motion_type).map(Clause::Motion);
        }
        if self.at_nowait(kind) {
            self.enter(Act::Once(Single::NoWaits))?;
            return Ok(Clause::NoWait);
        }
        if self.at_device(kind) {
            let device = self.device_clause(kind)?;
            return Ok(Clause::Device(device));
        }
        self.sharing_clause(kind)
    }

    /// A clause that the directive takes.
    #[tactic(auto, using(crate::proofs::Outcomes::on_from))]
    fn clause(&mut self, kind: DirectiveKind) -> Result<Clause<'a>, DirectiveFault>
        requires { same Ended (first_item self.old).terminal ≡ false }
        ensures read { (s : LineStack) → Outcome result (rest self.old (Clauses (seen_kind kind) ∷ s))
            (rest self.new (Clauses (seen_kind kind) ∷ s)) }
        ensures tree { IfOk result (λ c. IsSpelled (clause_marks c) (items self.old) (items self.new)) }
        ensures takes { IfOk result (λ c. IsClause (seen_kind kind) (clause_of c)) }
    {
        if self.at_map(kind) {
            return self.map_clause(kind).map(Clause::Map);
        }
        if self.at_depend(kind) {
            return self.depend_clause(kind).map(Clause::Depend);
        }
        self.short_clause(kind)
    }

    /// The clauses of the directive and the end of the line.
    pub fn clauses(&mut self, kind: DirectiveKind) -> Result<Vec<Clause<'a>>, DirectiveFault>
        ensures read { Outcome result (rest self.old (Clauses (seen_kind kind) ∷ [])) None }
        ensures tree { IfOk result (λ cs. IsSpelled (clauses_marks cs.items ++ (Ended, None) ∷ [])
            (items self.old) []) }
        ensures takes { IfOk result (λ cs. AreClauses (seen_kind kind) (map clause_of cs.items)) }
    {
        let mut clauses = Vec::new(self.alloc);
        'clauses: while !self.at_end() {
            let clause = self.clause(kind)?;
            clauses.push(clause)?;
        }
        self.end()?;
        Ok(clauses)
    }
}
