//! What stands for the name of a loop.

ghost use Rattle.std.specs.Prelude.{◌≡◌};

use c_terminals::Terminal;
use c_tokens::Sign;
use directives::Lexeme;

/// A token of it.
#[derive(Clone, Copy)]
pub enum Part<'a> {
    Sign(Sign),
    Name(&'a [u8]),
    Number(u64),
    BadNumber,
}

impl<'a> Part<'a> {
    ghost use Rattle.std.specs.Prelude.{◌≡◌, []};
    ghost use Rattle.c_grammar.specs.Descents.{lexeme_of, part_of, terminal_of};
    ghost use Rattle.directives.specs.Seen.{seen_lexeme};
    ghost use Rattle.c_terminals.specs.Seen.{columns_in, seen_terminal};
    ghost use Rattle.c_descents.specs.Parts.{seen_part};

    /// That of a token of a bound.
    pub fn of(terminal: Terminal<'a, '_>) -> Part<'a>
        ensures { seen_part result ≡ part_of (seen_terminal terminal.entry) }
    {
        match terminal {
            Terminal::Sign(sign) => Part::Sign(sign),
            Terminal::Name(name) => Part::Name(name),
            Terminal::Number(number) => Part::Number(number),
            _ => Part::BadNumber,
        }
    }

    pub fn terminal<'l>(self) -> Terminal<'a, 'l>
        ensures terminal { seen_terminal result ≡ terminal_of (seen_part self.entry) }
        ensures columns { columns_in result ≡ [] }
    {
        match self {
            Part::Sign(sign) => Terminal::Sign(sign),
            Part::Name(name) => Terminal::Name(name),
            Part::Number(number) => Terminal::Number(number),
            Part::BadNumber => Terminal::BadNumber,
        }
    }

    pub fn lexeme(self) -> Lexeme<'a>
        ensures { seen_lexeme result ≡ lexeme_of (seen_part self.entry) }
    {
        match self {
            Part::Sign(sign) => Lexeme::Sign(sign),
            Part::Name(name) => Lexeme::Name(name),
            Part::Number(number) => Lexeme::Number(number),
            Part::BadNumber => Lexeme::BadNumber,
        }
    }
}
