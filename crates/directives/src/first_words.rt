//! The first words of a line.

ghost use Rattle.std.specs.Prelude.{◌≡◌, ◌≤◌, ◌^◌};
ghost use Rattle.c_grammar.specs.Lexeme.{lexemes_of};
ghost use Rattle.c_grammar.specs.Lines.{is_atomic, is_omp};
ghost use Rattle.directives.specs.Ahead.{seen_line};
ghost use Rattle.directives.specs.Spells.{kinds_of};

use crate::lexeme::{Lexeme, same_lexeme};
use crate::lexemes::Lexemes;
use crate::line_bytes::LineBytes;
use crate::line_tokens::LineTokens;

/// Whether the words of a line are `pragma omp`.
#[tactic(auto, using(crate::proofs::Words::omp_not, crate::proofs::Words::omp_is, crate::proofs::Words::word_goes))]
pub fn is_directive(line: &LineTokens<'_>) -> bool
    ensures { result ≡ is_omp (kinds_of (seen_line line.now)) }
{
    let mut lexemes = Lexemes::new(line);
    let first = lexemes.next();
    if !same_lexeme(Lexeme::Name(b"pragma".as_slice()), first.lexeme) {
        return false;
    }
    let second = lexemes.next();
    same_lexeme(Lexeme::Name(b"omp".as_slice()), second.lexeme)
}

/// Whether the words of a line whose `#` stands at the column are `pragma omp`.
#[tactic(auto, using(crate::proofs::Words::omp_not, crate::proofs::Words::omp_is, crate::proofs::Words::word_goes))]
pub fn is_directive_at(line: &[u8], column: usize) -> bool
    requires { column ≤ 2 ^ 63 }
    ensures { result ≡ is_omp (kinds_of (lexemes_of line.now column)) }
{
    let mut lexemes = LineBytes::new(line, column);
    let first = lexemes.next();
    if !same_lexeme(Lexeme::Name(b"pragma".as_slice()), first.lexeme) {
        return false;
    }
    let second = lexemes.next();
    same_lexeme(Lexeme::Name(b"omp".as_slice()), second.lexeme)
}

/// Whether the line says of the store behind it that it is atomic.
pub fn is_atomic(line: &LineTokens<'_>) -> bool
    ensures { result ≡ is_atomic (kinds_of (seen_line line.now)) }
{
    match line.tokens() {
        [_, _, third, ..] => same_lexeme(Lexeme::Name(b"atomic".as_slice()), third.lexeme),
        _ => false,
    }
}
