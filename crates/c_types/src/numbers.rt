//! Numbers below 2^31, and others.

ghost use Rattle.std.specs.Prelude.{◌≡◌};
ghost use Rattle.c_grammar.specs.Types.{any_large, is_short, large_lexeme};
ghost use Rattle.directives.specs.Seen.{seen_lexeme};
ghost use Rattle.c_types.specs.Found.{all_lexemes};

use directives::{Lexeme, PlacedLexeme};

/// Whether a number is below 2^31.
pub fn is_short(number: u64) -> bool
    ensures { result ≡ is_short number }
{
    number < 2147483648
}

fn large_lexeme(lexeme: Lexeme<'_>) -> bool
    ensures { result ≡ large_lexeme (seen_lexeme lexeme.entry) }
{
    match lexeme {
        Lexeme::Number(number) => !is_short(number),
        _ => false,
    }
}

/// Whether a number of 2^31 or more stands on a line.
pub fn any_large(lexemes: &[PlacedLexeme<'_>]) -> bool
    ensures { result ≡ any_large (all_lexemes lexemes.now) }
{
    'lexemes: for placed in lexemes {
        if large_lexeme(placed.lexeme) {
            return true;
        }
    }
    false
}
