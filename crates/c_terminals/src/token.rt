//! A token as the grammar sees it.

ghost use Rattle.std.specs.Prelude.{◌≡◌};

use c_tokens::Sign;
use directives::{LineTokens, Word, is_directive, sign_number};

#[derive(Clone, Copy)]
pub enum Terminal<'a, 'l> {
    Word(Word),
    Sign(Sign),
    Name(&'a [u8]),
    Number(u64),
    BadNumber,
    /// A line that begins with `#`.
    Line(&'l LineTokens<'a>),
    Unknown,
    /// A constant expression whose value is no number below 2^64.
    Unworked,
}

/// A token with its place.
#[derive(Clone, Copy)]
pub struct Token<'a, 'l> {
    pub terminal: Terminal<'a, 'l>,
    pub line: usize,
    pub column: usize,
}

impl<'a, 'l> Terminal<'a, 'l> {
    ghost use Rattle.std.specs.Prelude.{◌≡◌};
    ghost use Rattle.c_grammar.specs.Terminal.{Mark, Fixed, Name, same};
    ghost use Rattle.c_grammar.specs.Constants.{is_name, is_number};
    ghost use Rattle.c_grammar.specs.Blocks.{is_directive};
    ghost use Rattle.directives.specs.Seen.{seen_word};
    ghost use Rattle.c_terminals.specs.Seen.{seen_terminal};

    pub fn is_sign(self, sign: Sign) -> bool
        ensures { result ≡ same (Mark sign) (seen_terminal self.entry) }
    {
        match self {
            Terminal::Sign(own) => sign_number(own) == sign_number(sign),
            _ => false,
        }
    }

    pub fn is_word(self, word: Word) -> bool
        ensures { result ≡ same (Fixed (seen_word word)) (seen_terminal self.entry) }
    {
        match self {
            Terminal::Word(own) => own.number() == word.number(),
            _ => false,
        }
    }

    /// Whether it is that name.
    pub fn is_named(self, name: &[u8]) -> bool
        ensures { result ≡ same (Name name.now) (seen_terminal self.entry) }
    {
        match self {
            Terminal::Name(own) => name == own,
            _ => false,
        }
    }

    pub fn is_name(self) -> bool
        ensures { result ≡ is_name (seen_terminal self.entry) }
    {
        match self {
            Terminal::Name(_) => true,
            _ => false,
        }
    }

    pub fn is_number(self) -> bool
        ensures { result ≡ is_number (seen_terminal self.entry) }
    {
        match self {
            Terminal::Number(_) | Terminal::BadNumber => true,
            _ => false,
        }
    }

    /// Whether it is a line whose words are `pragma omp`.
    pub fn is_directive(self) -> bool
        ensures { result ≡ is_directive (seen_terminal self.entry) }
    {
        match self {
            Terminal::Line(line) => is_directive(line),
            _ => false,
        }
    }
}

impl<'a, 'l> Token<'a, 'l> {
    ghost use Rattle.std.specs.Prelude.{◌≡◌};
    ghost use Rattle.c_grammar.specs.Terminal.{Mark, Fixed, Name, same};
    ghost use Rattle.c_grammar.specs.Constants.{is_name, is_number};
    ghost use Rattle.c_grammar.specs.Blocks.{is_directive};
    ghost use Rattle.directives.specs.Seen.{seen_word};
    ghost use Rattle.c_terminals.specs.Seen.{seen, seen_terminal, item_at};

    /// Another token at its place.
    pub fn at(self, terminal: Terminal<'a, 'l>) -> Token<'a, 'l>
        ensures { seen result ≡ item_at self.entry terminal.entry }
    {
        Token {
            terminal,
            line: self.line,
            column: self.column,
        }
    }
}
