//! A line of which the next token can be seen.

ghost use Rattle.std.specs.Prelude.{◌≡◌, true};
ghost use Rattle.directives.specs.Ahead.{is_over};
ghost use Rattle.directives.specs.Seen.{ends_well, seen_lexeme};

use crate::code::lower;
use crate::fault::{DirectiveFault, LineFault};
use crate::known::{Act, Known, own_code};
use crate::lexeme::{Lexeme, PlacedLexeme, same_lexeme};
use crate::lexemes::Lexemes;
use crate::line_tokens::LineTokens;
use crate::word::Word;
use base::fault::ReadCode;
use c_tokens::Sign;
use std::alloc::Global;

/// What is left of a line, and what is known of it.
#[derive(Drop)]
pub struct Line<'a, 'l> {
    pub alloc: Global,
    pub lexemes: Lexemes<'a, 'l>,
    /// The next token.
    pub token: PlacedLexeme<'a>,
    pub known: Known<'a>,
    ghost ends: { ends_well (seen_lexeme token.lexeme) (is_over lexemes) ≡ true },
}

impl<'a, 'l> Line<'a, 'l> {
    ghost use Rattle.std.specs.Prelude.{◌≡◌, ◌≢◌, ◌≤◌, ◌∷◌, [], OnOk, Option, None};
    ghost use Rattle.base.specs.declared.fault.ReadCode.{ReadCode};
    ghost use Rattle.base.specs.declared.fault.ReadCode.TheVariants.{Unexpected, UnknownDirective};
    ghost use Rattle.c_grammar.specs.Lexeme.{For, Reserved, Signed, Worded, Ended, same};
    ghost use Rattle.c_grammar.specs.LineGrammar.{Ends, Plain, of};
    ghost use Rattle.c_grammar.specs.LineRules.{line_begin};
    ghost use Rattle.c_grammar.specs.LineMachine.{LineStack, Want, w, is_word};
    ghost use Rattle.directives.specs.Ahead.{seen_line};
    ghost use Rattle.directives.specs.Seen.{seen_lexeme};
    ghost use Rattle.directives.specs.Known.{broken_by, known_of, seen_act};
    ghost use Rattle.directives.specs.Cursor.{first_item, behind, items, line_items};
    ghost use Rattle.directives.specs.Reading.{Outcome, rest, took, fault_at, misfit_at};

    /// The line of these tokens.
    pub fn new(alloc: Global, line: &'l LineTokens<'a>) -> Line<'a, 'l>
        ensures items { items result ≡ line_items (seen_line line.now) }
        ensures known { known_of result.known ≡ line_begin }
    {
        let mut lexemes = Lexemes::new(line);
        let token = lexemes.next();
        Line {
            alloc,
            lexemes,
            token,
            known: Known::new(alloc),
        }
    }

    /// The next token.
    pub fn peek(&self) -> Lexeme<'a>
        ensures { seen_lexeme result ≡ (first_item self.now).terminal }
    {
        self.token.lexeme
    }

    /// A fault at the next token.
    pub fn fault(&self, code: ReadCode) -> LineFault
        ensures { result ≡ fault_at (first_item self.now) code }
    {
        LineFault {
            code,
            column: self.token.column,
        }
    }

    /// The fault at the next token, which may not stand there: in its place another one has the code.
    #[tactic(auto, using(crate::proofs::Moves::misfit_is))]
    pub fn misfit(&self, code: ReadCode) -> LineFault
        ensures { result ≡ misfit_at code (first_item self.now) }
    {
        self.fault(lower(own_code(self.token.lexeme), code))
    }

    /// Whether the next token is that sign.
    pub fn at(&self, sign: Sign) -> bool
        ensures { result ≡ same (Signed sign) (first_item self.now).terminal }
    {
        same_lexeme(Lexeme::Sign(sign), self.token.lexeme)
    }

    /// Whether the next token is that word.
    pub fn at_word(&self, word: &[u8]) -> bool
        ensures { result ≡ is_word word.now (first_item self.now).terminal }
    {
        same_lexeme(Lexeme::Name(word), self.token.lexeme)
    }

    /// Whether the next token is the word `for`.
    pub fn at_for(&self) -> bool
        ensures { result ≡ same (Reserved For) (first_item self.now).terminal }
    {
        same_lexeme(Lexeme::Reserved(Word::For), self.token.lexeme)
    }

    /// Whether the line is over.
    pub fn at_end(&self) -> bool
        ensures { result ≡ same Ended (first_item self.now).terminal }
    {
        same_lexeme(Lexeme::Ended, self.token.lexeme)
    }

    /// Goes past the next token, which is there for that and is not the end.
    #[tactic(auto, using(crate::proofs::Moves::took_broken, crate::proofs::Moves::took_passes, crate::proofs::Moves::not_over))]
    pub fn enter(&mut self, act: Act) -> Result<(), DirectiveFault>
        requires { (first_item self.old).terminal ≢ Ended }
        ensures read { (m : Option ReadCode) (s : LineStack) → Outcome result (took self.old (m, seen_act act) s)
            (rest self.new s) }
        ensures taken { OnOk result (behind self.old ≡ items self.new) }
        ensures kept { OnOk result (broken_by (known_of self.old.known) (first_item self.old).terminal (seen_act act) ≡ None) }
    {
        if let Some(code) = self.known.broken(self.token.lexeme, act) {
            return Err(DirectiveFault::Line(self.fault(code)));
        }
        self.known.note(self.token.lexeme, act)?;
        self.token = self.lexemes.next();
        Ok(())
    }

    /// The end of the line.
    #[tactic(auto, using(crate::proofs::Moves::last_broken, crate::proofs::Moves::last_passes))]
    pub fn end(&self) -> Result<(), DirectiveFault>
        requires { (first_item self.now).terminal ≡ Ended }
        ensures read { (m : Option ReadCode) → Outcome result (took self.now (m, Ends) []) None }
        ensures last { behind self.now ≡ [] }
    {
        if let Some(code) = self.known.broken(self.token.lexeme, Act::Ends) {
            return Err(DirectiveFault::Line(self.fault(code)));
        }
        Ok(())
    }

    /// Goes past that sign.
    pub fn expect(&mut self, sign: Sign) -> Result<(), DirectiveFault>
        ensures read { (s : LineStack) → Outcome result (rest self.old (w sign ∷ s)) (rest self.new s) }
        ensures first { OnOk result ((first_item self.old).terminal ≡ Signed sign) }
        ensures taken { OnOk result (behind self.old ≡ items self.new) }
    {
        if !self.at(sign) {
            return Err(DirectiveFault::Line(self.misfit(ReadCode::Unexpected)));
        }
        self.enter(Act::Plain)
    }

    /// Goes past the word `for` of the directive's name.
    #[tactic(auto, using(crate::proofs::Outcomes::on_from, crate::proofs::Moves::at_for, crate::proofs::Moves::stop_for, crate::proofs::Moves::for_is))]
    pub fn expect_for(&mut self) -> Result<(), DirectiveFault>
        ensures read { (s : LineStack) → Outcome result (rest self.old (Want (Reserved For) (of UnknownDirective Plain) ∷ s)) (rest self.new s) }
        ensures first { OnOk result ((first_item self.old).terminal ≡ Reserved For) }
        ensures taken { OnOk result (behind self.old ≡ items self.new) }
    {
        if !self.at_for() {
            return Err(DirectiveFault::Line(self.misfit(ReadCode::UnknownDirective)));
        }
        self.enter(Act::Plain)
    }

    /// Goes past that word of the directive's name.
    #[tactic(auto, using(crate::proofs::Outcomes::on_from, crate::proofs::Moves::at_named, crate::proofs::Moves::stop_named, crate::proofs::Moves::word_is))]
    pub fn expect_word(&mut self, word: &[u8], act: Act) -> Result<(), DirectiveFault>
        ensures read { (s : LineStack) → Outcome result (rest self.old (Want (Worded word.now) (of UnknownDirective (seen_act act)) ∷ s)) (rest self.new s) }
        ensures first { OnOk result ((first_item self.old).terminal ≡ Worded word.now) }
        ensures taken { OnOk result (behind self.old ≡ items self.new) }
    {
        if !self.at_word(word) {
            return Err(DirectiveFault::Line(self.misfit(ReadCode::UnknownDirective)));
        }
        self.enter(act)
    }
}
