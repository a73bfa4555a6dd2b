//! The written tokens of a source, of which the next can be seen.

ghost use Rattle.std.specs.Prelude.{◌≡◌};
ghost use Rattle.c_grammar.specs.Source.{end_of};

use crate::fault::ReadError;
use crate::line::words_misfit;
use crate::terminal::{Terminal, terminal_of};
use base::fault::{ReadCode, TextFault};
use base::tree::Place;
use c_terminals::Written;
use c_tokens::Sign;
use c_tokens::limits::MAX_NAME;
use directives::{Word, is_directive, lower, sign_number};

#[derive(Clone, Copy)]
pub struct Cursor<'a, 'l> {
    /// The tokens that are left.
    pub tokens: &'l [Written<'a>],
    pub end_line: usize,
    pub end_column: usize,
}

impl<'a, 'l> Cursor<'a, 'l> {
    ghost use Rattle.std.specs.Prelude.{◌≡◌, ◌≢◌, ◌≤◌, ◌+◌, ◌^◌, ◌∷◌, ◌++◌, [], map, length, OnOk, IfOk, IfErr, Some, None, true};
    ghost use Rattle.c_tokens.specs.declared.limits.TheConstants.{MAX_NAME};
    ghost use Rattle.c_tokens.specs.declared.kind.Sign.TheVariants as sign;
    ghost use Rattle.base.specs.declared.fault.ReadCode.TheVariants.{Unexpected};
    ghost use Rattle.c_grammar.specs.Terminal.{End, Mark, Fixed, Name, Num, same};
    ghost use Rattle.c_grammar.specs.Texts.{terminals};
    ghost use Rattle.c_grammar.specs.Grammar.{Act, Plain, Limit, Step, for};
    ghost use Rattle.c_grammar.specs.Rules.{Context, out, rule_here, source_grammar};
    ghost use Rattle.c_grammar.specs.Program.{Stack, Want, WantNum, m, w};
    ghost use Rattle.c_grammar.specs.Source.{end_of};
    ghost use Rattle.c_terminals.specs.Held.{seen_written};
    ghost use Rattle.c_expressions.specs.Means.{place_of};
    ghost use Rattle.c_expressions.specs.Seen.{HasColumns, seen};
    ghost use Rattle.directives.specs.Seen.{seen_word};
    ghost use Rattle.c_expressions.specs.Cursor.{items, first_item, behind};
    ghost use Rattle.c_expressions.specs.Scopes.{limited};
    ghost use Rattle.c_expressions.specs.Reading.{run, Outcome, OutcomeBy, IsNumberAct, fault_at, misfit_at, is_line, is_directive, Failed};

    /// The next token.
    pub fn peek(&self) -> Terminal<'a, 'l>
        ensures token { seen result ≡ (first_item self.now).terminal }
        ensures columns { HasColumns result (first_item self.now).columns }
    {
        match self.tokens {
            [] => Terminal::End,
            [token, ..] => terminal_of(token),
        }
    }

    /// Where the next token stands.
    pub fn place(&self) -> Place
        ensures { result ≡ place_of (items self.now) }
    {
        match self.tokens {
            [] => Place {
                line: self.end_line,
                column: self.end_column,
            },
            [token, ..] => Place {
                line: token.line,
                column: token.column,
            },
        }
    }

    /// A fault at the next token.
    pub fn fault(&self, code: ReadCode) -> TextFault
        ensures { result ≡ fault_at (first_item self.now) code }
    {
        let place = self.place();
        TextFault {
            code,
            line: place.line,
            column: place.column,
        }
    }

    /// The fault at the next token, which may not stand there: in its place another one has the code.
    pub fn misfit(&self, code: ReadCode) -> TextFault
        ensures { result ≡ misfit_at (Some (rule_here code)) (first_item self.now) }
    {
        match self.peek() {
            Terminal::Unknown => self.fault(lower(Some(ReadCode::UnknownByte), code)),
            Terminal::BadNumber => self.fault(lower(Some(ReadCode::BadNumber), code)),
            Terminal::Unworked => self.fault(ReadCode::BadOperand),
            Terminal::Name(name) => {
                if name.len() > MAX_NAME {
                    return self.fault(lower(Some(ReadCode::TooMany), code));
                }
                self.fault(code)
            }
            Terminal::Line(line) => match words_misfit(line) {
                None => self.fault(code),
                Some(misfit) => TextFault {
                    code: misfit.code,
                    line: self.place().line,
                    column: misfit.column,
                },
            },
            _ => self.fault(code),
        }
    }

    /// The fault at a token that the grammar does not allow.
    pub fn refuse(&self) -> TextFault
        ensures { result ≡ misfit_at (Some (rule_here Unexpected)) (first_item self.now) }
    {
        self.misfit(ReadCode::Unexpected)
    }

    /// Whether the next token is that sign.
    pub fn at(&self, sign: Sign) -> bool
        ensures { result ≡ same (Mark sign) (first_item self.now).terminal }
    {
        match self.peek() {
            Terminal::Sign(next) => sign_number(next) == sign_number(sign),
            _ => false,
        }
    }

    /// Whether the next token is a line that begins with `#`.
    pub fn at_line(&self) -> bool
        ensures { result ≡ is_line (first_item self.now).terminal }
    {
        match self.peek() {
            Terminal::Line(_) => true,
            _ => false,
        }
    }

    /// Whether the next token is a line whose words are `pragma omp`.
    pub fn at_directive(&self) -> bool
        ensures { result ≡ is_directive (first_item self.now).terminal }
    {
        match self.peek() {
            Terminal::Line(line) => is_directive(line),
            _ => false,
        }
    }

    /// Goes past that sign.
    pub fn expect(&mut self, sign: Sign) -> Result<(), ReadError>
        ensures read { (c : Context) (s : Stack) → Outcome result (run c (m sign ∷ s) (items self.old))
            (run (out c) s (items self.new)) }
        ensures first { OnOk result ((first_item self.old).terminal ≡ Mark sign) }
        ensures taken { OnOk result (behind self.old ≡ items self.new) }
    {
        if !self.at(sign) {
            return Err(ReadError::Fault(self.refuse()));
        }
        self.take();
        Ok(())
    }

    /// Goes past the next token, which is not the end.
    #[tactic(auto, using(crate::proofs::Ends::some_left, crate::proofs::Ends::one_taken))]
    pub fn take(&mut self)
        requires { (first_item self.old).terminal ≢ End }
        ensures { behind self.old ≡ items self.new }
    {
        self.tokens = &self.tokens[1..];
    }

    /// Whether the next token is that word.
    pub fn at_word(&self, word: Word) -> bool
        ensures { result ≡ same (Fixed (seen_word word)) (first_item self.now).terminal }
    {
        match self.peek() {
            Terminal::Word(next) => next.number() == word.number(),
            _ => false,
        }
    }

    /// Goes past that word.
    pub fn expect_word(&mut self, word: Word) -> Result<(), ReadError>
        ensures read { (c : Context) (s : Stack) → Outcome result (run c (w (seen_word word) ∷ s) (items self.old))
            (run (out c) s (items self.new)) }
        ensures first { OnOk result ((first_item self.old).terminal ≡ Fixed (seen_word word)) }
        ensures taken { OnOk result (behind self.old ≡ items self.new) }
    {
        if !self.at_word(word) {
            return Err(ReadError::Fault(self.refuse()));
        }
        self.take();
        Ok(())
    }

    fn at_name(&self, name: &[u8]) -> bool
        ensures { result ≡ same (Name name.now) (first_item self.now).terminal }
    {
        match self.peek() {
            Terminal::Name(next) => name == next,
            _ => false,
        }
    }

    /// Goes past that name.
    #[tactic(auto, using(crate::proofs::Going::stop_named, crate::proofs::Going::go_named, crate::proofs::Going::went))]
    pub fn expect_name(&mut self, name: &[u8]) -> Result<(), ReadError>
        requires { length name.now ≤ MAX_NAME }
        ensures read { (c : Context) (s : Stack) → Outcome result
            (run c (Want (Name name.now) (for Plain) ∷ s) (items self.old)) (run (out c) s (items self.new)) }
        ensures first { OnOk result ((first_item self.old).terminal ≡ Name name.now) }
        ensures taken { OnOk result (behind self.old ≡ items self.new) }
    {
        if !self.at_name(name) {
            return Err(ReadError::Fault(self.refuse()));
        }
        self.take();
        Ok(())
    }

    /// The number that stands next.
    #[tactic(auto, using(crate::proofs::Numbers::bad_number, crate::proofs::Numbers::stop_number))]
    pub fn literal(&self) -> Result<u64, ReadError>
        ensures number { IfOk result (λ n. (first_item self.now).terminal ≡ Num (Some n)) }
        ensures fault { (act : Act) (c : Context) (s : Stack) → IsNumberAct act →
            IfErr result (λ e. Failed e (run c (WantNum act ∷ s) (items self.now))) }
    {
        match self.peek() {
            Terminal::Number(n) => Ok(n),
            Terminal::BadNumber => Err(ReadError::Fault(self.fault(ReadCode::BadNumber))),
            _ => Err(ReadError::Fault(self.refuse())),
        }
    }

    /// Whether the source is over.
    #[tactic(auto, using(crate::proofs::Ends::end_none, crate::proofs::Ends::end_some, crate::proofs::Ends::end_is))]
    pub fn end(&self) -> Result<(), ReadError>
        ensures read { (c : Context) → Outcome result (run c (Want End (for Plain) ∷ []) (items self.now)) None }
        ensures taken { OnOk result (terminals source_grammar (items self.now) ≡ End ∷ []) }
    {
        match self.tokens {
            [] => Ok(()),
            _ => Err(ReadError::Fault(self.refuse())),
        }
    }

    /// The tokens of a source, written out.
    pub fn new(bytes: &[u8], tokens: &'l [Written<'a>]) -> Cursor<'a, 'l>
        ensures { items result ≡ map seen_written tokens.now ++ end_of bytes.now ∷ [] }
    {
        let (end_line, end_column) = end_place(bytes);
        Cursor {
            tokens,
            end_line,
            end_column,
        }
    }
}

/// The line and the column just past the last byte.
#[tactic(auto, using(crate::proofs::Ends::at_feed, crate::proofs::Ends::at_other))]
fn end_place(bytes: &[u8]) -> (usize, usize)
    ensures { (result.0 ≡ (end_of bytes.now).line) × (result.1 ≡ (end_of bytes.now).column) }
{
    let mut line = 1;
    let mut column = 1;
    'bytes: for b in bytes {
        if *b == b'\n' {
            line += 1;
            column = 1;
        } else {
            column += 1;
        }
    }
    (line, column)
}
