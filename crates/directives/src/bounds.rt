//! The bounds of a section.

use crate::fault::DirectiveFault;
use crate::known::Act;
use crate::lexeme::Lexeme;
use crate::line::Line;
use crate::tree::{Bound, Name, SignedTerm, Term, TermSign};
use base::fault::ReadCode;
use c_tokens::Sign;

impl<'a, 'l> Line<'a, 'l> {
    ghost use Rattle.std.specs.Prelude.{◌≡◌, ◌∷◌, [], Bool, true, false, IfOk, OnOk, Some, None};
    ghost use Rattle.c_tokens.specs.declared.kind.Sign.TheVariants as sign;
    ghost use Rattle.c_grammar.specs.Lexeme.{Numbered, Signed};
    ghost use Rattle.c_grammar.specs.LineGrammar.{LineAct};
    ghost use Rattle.c_grammar.specs.LineMachine.{LineStack, AfterItem, AfterName, AfterTerm, Factor, Terms};
    ghost use Rattle.directives.specs.Cursor.{behind, first_item, items};
    ghost use Rattle.directives.specs.Reading.{IsSpelled, Outcome, rest};
    ghost use Rattle.directives.specs.Trees.{name_mark, sign_before, signed_marks, term_marks, terms_marks, bound_marks, first_marks, second_marks, bounds_marks};

    /// A name that stands next, behind a factor.
    #[tactic(auto, using(crate::proofs::Outcomes::on_from, crate::proofs::Bounding::at_factor, crate::proofs::Bounding::stop_factor, crate::proofs::BoundsRead::read_name))]
    fn factor(&mut self) -> Result<Name<'a>, DirectiveFault>
        ensures read { (s : LineStack) → Outcome result (rest self.old (Factor ∷ s)) (rest self.new s) }
        ensures tree { IfOk result (λ x. IsSpelled (name_mark x ∷ []) (items self.old) (items self.new)) }
    {
        match self.peek() {
            Lexeme::Name(text) => {
                let column = self.token.column;
                self.enter(Act::Times)?;
                Ok(Name { text, column })
            }
            _ => Err(DirectiveFault::Line(self.misfit(ReadCode::BadBound))),
        }
    }

    /// The number that stands next, and the name behind it where there is one.
    fn product(&mut self, number: u64) -> Result<Term<'a>, DirectiveFault>
        requires { (first_item self.old).terminal ≡ Numbered (Some number) }
        ensures read { (second : Bool) (act : LineAct) (s : LineStack) → Outcome result (rest self.old (Terms second act ∷ s)) (rest self.new (AfterTerm second act ∷ s)) }
        ensures tree { IfOk result (λ t. IsSpelled (term_marks t) (items self.old) (items self.new)) }
    {
        self.enter(Act::Begins)?;
        if !self.at(Sign::Star) {
            return Ok(Term::Literal(number));
        }
        self.enter(Act::Plain)?;
        let name = self.factor()?;
        Ok(Term::Product(number, name))
    }

    /// A term of a bound.
    fn term(&mut self) -> Result<Term<'a>, DirectiveFault>
        ensures read { (second : Bool) (act : LineAct) (s : LineStack) → Outcome result (rest self.old (Terms second act ∷ s)) (rest self.new (AfterTerm second act ∷ s)) }
        ensures tree { IfOk result (λ t. IsSpelled (term_marks t) (items self.old) (items self.new)) }
    {
        match self.peek() {
            Lexeme::Number(number) => self.product(number),
            Lexeme::BadNumber => Err(DirectiveFault::Line(self.fault(ReadCode::BadNumber))),
            Lexeme::Name(text) => {
                let column = self.token.column;
                self.enter(Act::BeginsNamed)?;
                Ok(Term::Variable(Name { text, column }))
            }
            _ => Err(DirectiveFault::Line(self.misfit(ReadCode::BadBound))),
        }
    }

    /// The sign before a term, where one stands next.
    fn sign_before(&self) -> Option<TermSign>
        ensures { result ≡ sign_before (first_item self.now).terminal }
    {
        if self.at(Sign::Plus) {
            return Some(TermSign::Added);
        }
        if self.at(Sign::Minus) {
            Some(TermSign::Taken)
        } else {
            None
        }
    }

    /// The term behind a sign, which stands next.
    #[tactic(auto, using(crate::proofs::Outcomes::on_from, crate::proofs::Bounding::at_sign, crate::proofs::BoundsRead::read_signed))]
    fn signed_term(&mut self, sign: TermSign) -> Result<SignedTerm<'a>, DirectiveFault>
        requires { sign_before (first_item self.old).terminal ≡ Some sign }
        ensures read { (second : Bool) (act : LineAct) (s : LineStack) → Outcome result (rest self.old (AfterTerm second act ∷ s)) (rest self.new (AfterTerm second act ∷ s)) }
        ensures tree { IfOk result (λ t. IsSpelled (signed_marks t) (items self.old) (items self.new)) }
    {
        self.enter(Act::Plain)?;
        self.term().map(|term| SignedTerm { sign, term })
    }

    /// Terms, each behind a sign.
    fn more_terms(&mut self) -> Result<Vec<SignedTerm<'a>>, DirectiveFault>
        ensures read { (second : Bool) (act : LineAct) (s : LineStack) → Outcome result (rest self.old (AfterTerm second act ∷ s)) (rest self.new (AfterTerm second act ∷ s)) }
        ensures tree { IfOk result (λ more. IsSpelled (terms_marks more.items) (items self.old) (items self.new)) }
        ensures stops { OnOk result (sign_before (first_item self.new).terminal ≡ None) }
    {
        let mut more = Vec::new(self.alloc);
        'terms: while let Some(sign) = self.sign_before() {
            let term = self.signed_term(sign)?;
            more.push(term)?;
        }
        Ok(more)
    }

    /// A bound.
    #[tactic(auto, using(crate::proofs::Outcomes::on_from, crate::proofs::Spellings::spelled_then))]
    fn bound(&mut self) -> Result<Bound<'a>, DirectiveFault>
        ensures read { (second : Bool) (act : LineAct) (s : LineStack) → Outcome result (rest self.old (Terms second act ∷ s)) (rest self.new (AfterTerm second act ∷ s)) }
        ensures tree { IfOk result (λ b. IsSpelled (bound_marks b) (items self.old) (items self.new)) }
        ensures stops { OnOk result (sign_before (first_item self.new).terminal ≡ None) }
    {
        let first = self.term()?;
        let more = self.more_terms()?;
        Ok(Bound { first, more })
    }

    /// The colon between the bounds.
    #[tactic(auto, using(crate::proofs::Outcomes::on_from, crate::proofs::Bounding::at_colon, crate::proofs::Bounding::stop_colon, crate::proofs::Moves::sign_is))]
    fn colon(&mut self) -> Result<(), DirectiveFault>
        requires { sign_before (first_item self.old).terminal ≡ None }
        ensures read { (act : LineAct) (s : LineStack) → Outcome result (rest self.old (AfterTerm false act ∷ s))
            (rest self.new (Terms true act ∷ s)) }
        ensures first { OnOk result ((first_item self.old).terminal ≡ Signed sign.Colon) }
        ensures taken { OnOk result (behind self.old ≡ items self.new) }
    {
        if !self.at(Sign::Colon) {
            return Err(DirectiveFault::Line(self.misfit(ReadCode::BadBound)));
        }
        self.enter(Act::Opens)
    }

    /// The bracket behind the bounds.
    fn bracket(&mut self) -> Result<(), DirectiveFault>
        requires { sign_before (first_item self.old).terminal ≡ None }
        ensures read { (act : LineAct) (s : LineStack) → Outcome result (rest self.old (AfterTerm true act ∷ s))
            (rest self.new (AfterItem act ∷ s)) }
        ensures first { OnOk result ((first_item self.old).terminal ≡ Signed sign.CloseBracket) }
        ensures taken { OnOk result (behind self.old ≡ items self.new) }
    {
        if !self.at(Sign::CloseBracket) {
            return Err(DirectiveFault::Line(self.misfit(ReadCode::BadBound)));
        }
        self.enter(Act::Plain)
    }

    /// The first bound, whose bracket stands next, and the colon behind it.
    fn first_bound(&mut self) -> Result<Bound<'a>, DirectiveFault>
        requires { (first_item self.old).terminal ≡ Signed sign.OpenBracket }
        ensures read { (act : LineAct) (s : LineStack) → Outcome result (rest self.old (AfterName act ∷ s))
            (rest self.new (Terms true act ∷ s)) }
        ensures tree { IfOk result (λ b. IsSpelled (first_marks b) (items self.old) (items self.new)) }
    {
        self.enter(Act::Opens)?;
        let first = self.bound()?;
        self.colon()?;
        Ok(first)
    }

    /// The second bound and the bracket behind it.
    fn second_bound(&mut self) -> Result<Bound<'a>, DirectiveFault>
        ensures read { (act : LineAct) (s : LineStack) → Outcome result (rest self.old (Terms true act ∷ s))
            (rest self.new (AfterItem act ∷ s)) }
        ensures tree { IfOk result (λ b. IsSpelled (second_marks b) (items self.old) (items self.new)) }
    {
        let length = self.bound()?;
        self.bracket().map(|()| length)
    }

    /// The bounds of a section, whose bracket stands next.
    fn two_bounds(&mut self) -> Result<(Bound<'a>, Bound<'a>), DirectiveFault>
        requires { (first_item self.old).terminal ≡ Signed sign.OpenBracket }
        ensures read { (act : LineAct) (s : LineStack) → Outcome result (rest self.old (AfterName act ∷ s))
            (rest self.new (AfterItem act ∷ s)) }
        ensures tree { IfOk result (λ b. IsSpelled (bounds_marks (Some b)) (items self.old) (items self.new)) }
    {
        let first = self.first_bound()?;
        self.second_bound().map(|length| (first, length))
    }

    /// The bounds of a section, where it has any.
    #[tactic(auto, using(crate::proofs::Outcomes::on_from, crate::proofs::Bounding::no_opening, crate::proofs::BoundsRead::read_no_bounds, crate::proofs::Moves::sign_is))]
    pub fn bounds(&mut self) -> Result<Option<(Bound<'a>, Bound<'a>)>, DirectiveFault>
        ensures read { (act : LineAct) (s : LineStack) → Outcome result (rest self.old (AfterName act ∷ s))
            (rest self.new (AfterItem act ∷ s)) }
        ensures tree { IfOk result (λ b. IsSpelled (bounds_marks b) (items self.old) (items self.new)) }
    {
        if !self.at(Sign::OpenBracket) {
            return Ok(None);
        }
        self.two_bounds().map(Some)
    }
}
