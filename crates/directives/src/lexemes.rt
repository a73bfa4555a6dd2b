//! The tokens of a line that begins with `#`, one after another.

ghost use Rattle.std.specs.Prelude.{◌≡◌, map, true};
ghost use Rattle.directives.specs.Seen.{seen_placed, all_end_well};

use crate::lexeme::PlacedLexeme;
use crate::line_tokens::LineTokens;

/// What is left of a line.
#[derive(Clone, Copy)]
pub struct Lexemes<'a, 'l> {
    rest: &'l [PlacedLexeme<'a>],
    ghost ends: { all_end_well (map seen_placed rest.now) ≡ true },
}

impl<'a, 'l> Lexemes<'a, 'l> {
    ghost use Rattle.std.specs.Prelude.{◌≡◌, ◌∷◌, [], MatchOption, true, false};
    ghost use Rattle.directives.specs.Seen.{seen_lexeme, seen_placed, ends_well};
    ghost use Rattle.directives.specs.Ahead.{ahead_on_line, is_over, seen_line};

    /// The line behind its `#`.
    pub fn new(line: &'l LineTokens<'a>) -> Lexemes<'a, 'l>
        ensures ahead { ahead_on_line result ≡ seen_line line.now }
        ensures going { is_over result ≡ false }
    {
        Lexemes {
            rest: line.tokens(),
        }
    }

    /// The next token.
    pub fn next(&mut self) -> PlacedLexeme<'a>
        requires { is_over self.old ≡ false }
        ensures next { ahead_on_line self.old ≡ seen_placed result ∷ ahead_on_line self.new }
        ensures last { ends_well (seen_lexeme result.lexeme) (is_over self.new) ≡ true }
    {
        let first = self.rest[0];
        self.rest = &self.rest[1..];
        first
    }

    /// The next token, if there is one.
    pub fn next_token(&mut self) -> Option<PlacedLexeme<'a>>
        ensures { MatchOption result (ahead_on_line self.old ≡ [])
            (λ p. ahead_on_line self.old ≡ seen_placed p ∷ ahead_on_line self.new) }
    {
        if self.rest.is_empty() {
            return None;
        }
        Some(self.next())
    }
}
