//! The sections of a clause.

use crate::fault::DirectiveFault;
use crate::known::Act;
use crate::lexeme::Lexeme;
use crate::line::Line;
use crate::tree::{Name, Section, Sections};
use base::fault::ReadCode;
use c_tokens::Sign;

impl<'a, 'l> Line<'a, 'l> {
    ghost use Rattle.std.specs.Prelude.{◌≡◌, ◌∷◌, ◌++◌, [], true, false, IfOk, OnOk};
    ghost use Rattle.c_tokens.specs.declared.kind.Sign.TheVariants as sign;
    ghost use Rattle.c_grammar.specs.Lexeme.{Signed, same};
    ghost use Rattle.c_grammar.specs.LineGrammar.{LineAct};
    ghost use Rattle.c_grammar.specs.LineMachine.{LineStack, AfterItem, AfterName, Name as NameOf};
    ghost use Rattle.directives.specs.Known.{seen_act};
    ghost use Rattle.directives.specs.Cursor.{behind, first_item, items};
    ghost use Rattle.directives.specs.Reading.{IsSpelled, Outcome, rest};
    ghost use Rattle.directives.specs.Trees.{each_behind, name_mark, section_marks, sections_marks, sign_mark};

    /// An array's name, which is there for that.
    fn array(&mut self, act: Act) -> Result<Name<'a>, DirectiveFault>
        ensures read { (s : LineStack) → Outcome result (rest self.old (NameOf (seen_act act) ∷ s))
            (rest self.new (AfterName (seen_act act) ∷ s)) }
        ensures tree { IfOk result (λ x. IsSpelled (name_mark x ∷ []) (items self.old) (items self.new)) }
    {
        match self.peek() {
            Lexeme::Name(text) => {
                let column = self.token.column;
                self.enter(act)?;
                Ok(Name { text, column })
            }
            _ => Err(DirectiveFault::Line(self.misfit(ReadCode::Unexpected))),
        }
    }

    /// A section.
    #[tactic(auto, using(crate::proofs::Outcomes::on_from, crate::proofs::Listing::read_section))]
    fn section(&mut self, act: Act) -> Result<Section<'a>, DirectiveFault>
        ensures read { (s : LineStack) → Outcome result (rest self.old (NameOf (seen_act act) ∷ s))
            (rest self.new (AfterItem (seen_act act) ∷ s)) }
        ensures tree { IfOk result (λ x. IsSpelled (section_marks x) (items self.old) (items self.new)) }
    {
        let array = self.array(act)?;
        let bounds = self.bounds()?;
        Ok(Section { array, bounds })
    }

    /// The bracket behind the sections.
    #[tactic(auto, using(crate::proofs::Outcomes::on_from, crate::proofs::Listing::at_closing, crate::proofs::Listing::stop_closing, crate::proofs::Moves::sign_is))]
    fn close(&mut self) -> Result<(), DirectiveFault>
        requires { same (Signed sign.Comma) (first_item self.old).terminal ≡ false }
        ensures read { (act : LineAct) (s : LineStack) → Outcome result (rest self.old (AfterItem act ∷ s))
            (rest self.new s) }
        ensures first { OnOk result ((first_item self.old).terminal ≡ Signed sign.CloseParen) }
        ensures taken { OnOk result (behind self.old ≡ items self.new) }
    {
        if !self.at(Sign::CloseParen) {
            return Err(DirectiveFault::Line(self.misfit(ReadCode::Unexpected)));
        }
        self.enter(Act::Plain)
    }

    /// The section behind a comma, which stands next.
    #[tactic(auto, using(crate::proofs::Outcomes::on_from, crate::proofs::Listing::at_comma, crate::proofs::Spellings::spelled_behind))]
    fn section_behind(&mut self, act: Act) -> Result<Section<'a>, DirectiveFault>
        requires { same (Signed sign.Comma) (first_item self.old).terminal ≡ true }
        ensures read { (s : LineStack) → Outcome result (rest self.old (AfterItem (seen_act act) ∷ s))
            (rest self.new (AfterItem (seen_act act) ∷ s)) }
        ensures tree { IfOk result (λ x. IsSpelled (sign_mark sign.Comma ∷ section_marks x) (items self.old) (items self.new)) }
    {
        self.enter(Act::Plain)?;
        self.section(act)
    }

    /// Sections, each behind a comma.
    fn more_sections(&mut self, act: Act) -> Result<Vec<Section<'a>>, DirectiveFault>
        ensures read { (s : LineStack) → Outcome result (rest self.old (AfterItem (seen_act act) ∷ s))
            (rest self.new (AfterItem (seen_act act) ∷ s)) }
        ensures tree { IfOk result (λ more. IsSpelled (each_behind sign.Comma section_marks more.items) (items self.old) (items self.new)) }
        ensures stops { OnOk result (same (Signed sign.Comma) (first_item self.new).terminal ≡ false) }
    {
        let mut more = Vec::new(self.alloc);
        'sections: while self.at(Sign::Comma) {
            let section = self.section_behind(act)?;
            more.push(section)?;
        }
        Ok(more)
    }

    /// Sections, as long as a comma follows.
    fn open_sections(&mut self, act: Act) -> Result<Sections<'a>, DirectiveFault>
        ensures read { (s : LineStack) → Outcome result (rest self.old (NameOf (seen_act act) ∷ s))
            (rest self.new (AfterItem (seen_act act) ∷ s)) }
        ensures tree { IfOk result (λ x. IsSpelled (section_marks x.first ++ each_behind sign.Comma section_marks x.more.items) (items self.old) (items self.new)) }
        ensures stops { OnOk result (same (Signed sign.Comma) (first_item self.new).terminal ≡ false) }
    {
        let first = self.section(act)?;
        let more = self.more_sections(act)?;
        Ok(Sections { first, more })
    }

    /// The sections of a clause and the bracket behind them.
    pub fn sections(&mut self, act: Act) -> Result<Sections<'a>, DirectiveFault>
        ensures read { (s : LineStack) → Outcome result (rest self.old (NameOf (seen_act act) ∷ s)) (rest self.new s) }
        ensures tree { IfOk result (λ x. IsSpelled (sections_marks x) (items self.old) (items self.new)) }
    {
        let sections = self.open_sections(act)?;
        self.close().map(|()| sections)
    }
}
