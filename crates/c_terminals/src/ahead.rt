//! The tokens that follow, without directive lines.

ghost use Rattle.std.specs.Prelude.{◌≡◌};

use crate::token::Token;

/// What follows. Directive lines are seen through.
#[derive(Clone, Copy)]
pub struct Ahead<'a, 'l, 's> {
    rest: &'s [Token<'a, 'l>],
}

impl<'a, 'l, 's> Ahead<'a, 'l, 's> {
    ghost use Rattle.std.specs.Prelude.{◌≡◌, ◌∷◌, [], MatchOption};
    ghost use Rattle.c_grammar.specs.Blocks.{bare};
    ghost use Rattle.c_terminals.specs.Seen.{seen, seen_all};
    ghost use Rattle.c_terminals.specs.Ahead.{ahead};

    pub fn new(rest: &'s [Token<'a, 'l>]) -> Ahead<'a, 'l, 's>
        ensures { ahead result ≡ bare (seen_all rest.now) }
    {
        Ahead { rest }
    }

    /// The next token.
    pub fn next(&mut self) -> Option<Token<'a, 'l>>
        ensures { MatchOption result (ahead self.old ≡ []) (λ t. ahead self.old ≡ seen t ∷ ahead self.new) }
    {
        'lines: while let [token, rest @ ..] = self.rest {
            self.rest = rest;
            if !token.terminal.is_directive() {
                return Some(*token);
            }
        }
        None
    }
}
