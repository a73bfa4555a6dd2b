//! The tokens of a line that begins with `#`, one after another.

ghost use Rattle.std.specs.Prelude.{◌+◌, ◌<◌, ◌^◌, length};

use crate::lexeme::{Lexeme, PlacedLexeme, lexeme_of, piece_on};
use c_tokens::{Mood, Piece, mood_after};
use std::alloc::{AllocError, Global};

/// What is left of a line.
#[derive(Clone, Copy)]
pub struct LineBytes<'a> {
    rest: &'a [u8],
    mood: Mood,
    column: usize,
    /// Nothing follows the end of the line, nor a byte that begins no token.
    over: bool,
    ghost fits: { column + length rest.now < 2 ^ 64 },
}

impl<'a> LineBytes<'a> {
    ghost use Rattle.std.specs.Prelude.{◌≡◌, ◌+◌, ◌≤◌, ◌<◌, ◌^◌, ◌∷◌, [], length, drop, map, IfOk, MatchOption, true, false};
    ghost use Rattle.c_grammar.specs.Lexeme.{lexemes_of};
    ghost use Rattle.directives.specs.Seen.{seen_lexeme, seen_placed, ends_well};
    ghost use Rattle.directives.specs.Ahead.{ahead_in_bytes};

    /// The line behind its `#`, which stands at the column.
    pub fn new(line: &'a [u8], column: usize) -> LineBytes<'a>
        requires { column ≤ 2 ^ 63 }
        ensures ahead { ahead_in_bytes result ≡ lexemes_of line.now column }
        ensures going { result.over ≡ false }
    {
        let rest = match line {
            [] => line,
            [_, rest @ ..] => rest,
        };
        LineBytes {
            rest,
            mood: Mood::Inside,
            column: column + 1,
            over: false,
        }
    }

    /// Goes past some bytes.
    fn pass(&mut self, len: usize, mood: Mood)
        requires { len ≤ length self.old.rest.now }
        ensures rest { self.new.rest.now ≡ drop len self.old.rest.now }
        ensures column { self.new.column ≡ self.old.column + len }
        ensures mood { self.new.mood ≡ mood }
        ensures over { self.new.over ≡ self.old.over }
    {
        self.column += len;
        self.rest = &self.rest[len..];
        self.mood = mood;
    }

    /// The next token.
    pub fn next(&mut self) -> PlacedLexeme<'a>
        requires { self.old.over ≡ false }
        ensures next { ahead_in_bytes self.old ≡ seen_placed result ∷ ahead_in_bytes self.new }
        ensures last { ends_well (seen_lexeme result.lexeme) self.new.over ≡ true }
    {
        'pieces: while !self.rest.is_empty() {
            match piece_on(self.mood, self.rest) {
                Piece::Layout(len, mood) => self.pass(len, mood),
                Piece::Token(kind, len) => {
                    let placed = PlacedLexeme {
                        lexeme: lexeme_of(kind, &self.rest[..len]),
                        column: self.column,
                    };
                    self.pass(len, mood_after(kind));
                    return placed;
                }
                Piece::Unknown => return self.end(Lexeme::Strange),
            }
        }
        self.end(Lexeme::Ended)
    }

    /// The next token, if there is one.
    pub fn next_token(&mut self) -> Option<PlacedLexeme<'a>>
        ensures { MatchOption result (ahead_in_bytes self.old ≡ [])
            (λ p. ahead_in_bytes self.old ≡ seen_placed p ∷ ahead_in_bytes self.new) }
    {
        if self.over {
            return None;
        }
        Some(self.next())
    }

    /// The tokens that are left.
    pub fn tokens(&mut self, alloc: Global) -> Result<Vec<PlacedLexeme<'a>>, AllocError>
        ensures { IfOk result (λ v. map seen_placed v.items ≡ ahead_in_bytes self.old) }
    {
        let mut tokens = Vec::new(alloc);
        'tokens: while let Some(token) = self.next_token() {
            tokens.push(token)?;
        }
        Ok(tokens)
    }

    /// The last token.
    fn end(&mut self, lexeme: Lexeme<'a>) -> PlacedLexeme<'a>
        ensures lexeme { result.lexeme ≡ lexeme.entry }
        ensures column { result.column ≡ self.old.column }
        ensures over { self.new.over ≡ true }
    {
        self.over = true;
        PlacedLexeme {
            lexeme,
            column: self.column,
        }
    }
}
