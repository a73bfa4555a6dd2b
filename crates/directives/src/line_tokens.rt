//! The tokens of a line that begins with `#`.

ghost use Rattle.std.specs.Prelude.{◌≡◌, map, true};
ghost use Rattle.directives.specs.Seen.{seen_placed, is_whole};

use crate::lexeme::PlacedLexeme;
use crate::line_bytes::LineBytes;
use std::alloc::{AllocError, Global};

/// The tokens of a line, with its end.
#[derive(Drop)]
pub struct LineTokens<'a> {
    tokens: Vec<PlacedLexeme<'a>>,
    ghost ends: { is_whole (map seen_placed tokens.items) ≡ true },
}

impl<'a> LineTokens<'a> {
    ghost use Rattle.std.specs.Prelude.{◌≡◌, ◌≤◌, ◌^◌, map, IfOk, true};
    ghost use Rattle.c_grammar.specs.Lexeme.{Placed, lexemes_of};
    ghost use Rattle.directives.specs.Seen.{seen_placed, is_whole};
    ghost use Rattle.directives.specs.Ahead.{seen_line};

    /// The tokens of a line whose `#` stands at the column.
    pub fn new(alloc: Global, line: &'a [u8], column: usize) -> Result<LineTokens<'a>, AllocError>
        requires { column ≤ 2 ^ 63 }
        ensures { IfOk result (λ l. seen_line l ≡ lexemes_of line.now column) }
    {
        let tokens = LineBytes::new(line, column).tokens(alloc)?;
        Ok(LineTokens { tokens })
    }

    /// The line of these tokens, which end it.
    pub fn of(tokens: Vec<PlacedLexeme<'a>>) -> LineTokens<'a>
        requires { is_whole (map seen_placed tokens.items) ≡ true }
        ensures { seen_line result ≡ map seen_placed tokens.entry.items }
    {
        LineTokens { tokens }
    }

    pub fn copy(&self, alloc: Global) -> Result<LineTokens<'a>, AllocError>
        ensures { IfOk result (λ l. seen_line l ≡ seen_line self.now) }
    {
        let tokens = Vec::from_slice(alloc, self.tokens())?;
        Ok(LineTokens { tokens })
    }

    pub fn tokens(&self) -> &[PlacedLexeme<'a>]
        ensures tokens { map seen_placed result.now ≡ seen_line self.now }
        ensures whole { is_whole (map seen_placed result.now) ≡ true }
    {
        self.tokens.as_slice()
    }
}
