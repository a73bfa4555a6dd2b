//! Whether the words of a line that begins with `#` are `pragma omp`.

ghost use Rattle.std.specs.Prelude.{◌≡◌};
ghost use Rattle.std.specs.Option.{option_map};
ghost use Rattle.c_grammar.specs.LineRules.{is_stray};
ghost use Rattle.c_grammar.specs.LineMachine.{line_first_wrong};
ghost use Rattle.directives.specs.Ahead.{seen_line};
ghost use Rattle.directives.specs.Seen.{seen_lexeme, seen_placed};
ghost use Rattle.c_expressions.specs.Lines.{misfit_on, seen_misfit, words_misfit};

use base::fault::ReadCode;
use c_tokens::Sign;
use c_tokens::limits::MAX_NAME;
use directives::{Lexeme, Lexemes, LineTokens, PlacedLexeme, lower, same_lexeme};

/// A token that does not fit.
#[derive(Clone, Copy)]
pub struct Misfit {
    pub code: ReadCode,
    pub column: usize,
}

fn is_stray(sign: Sign) -> bool
    ensures { result ≡ is_stray sign }
{
    match sign {
        Sign::Question | Sign::Dot => true,
        _ => false,
    }
}

/// The code that a token has wherever it stands.
#[tactic(auto, using(crate::proofs::Words::own_strange, crate::proofs::Words::own_bad, crate::proofs::Words::own_long, crate::proofs::Words::own_short, crate::proofs::Words::own_stray, crate::proofs::Words::own_sign, crate::proofs::Words::own_other))]
fn own_code(lexeme: Lexeme<'_>) -> Option<ReadCode>
    ensures { result ≡ line_first_wrong (seen_lexeme lexeme.entry) }
{
    match lexeme {
        Lexeme::Strange => Some(ReadCode::UnknownByte),
        Lexeme::BadNumber => Some(ReadCode::BadNumber),
        Lexeme::Sign(sign) => {
            if is_stray(sign) {
                Some(ReadCode::UnknownByte)
            } else {
                None
            }
        }
        Lexeme::Name(name) => {
            if name.len() > MAX_NAME {
                Some(ReadCode::TooMany)
            } else {
                None
            }
        }
        _ => None,
    }
}

/// The fault at a token that stands in the place of another word.
fn misplaced(placed: PlacedLexeme<'_>) -> Misfit
    ensures { seen_misfit result ≡ misfit_on (seen_placed placed.entry) }
{
    Misfit {
        code: lower(own_code(placed.lexeme), ReadCode::UnknownDirective),
        column: placed.column,
    }
}

/// The fault of a line that begins with `#`, if its words are not `pragma omp`.
#[tactic(auto, using(crate::proofs::Words::none_words, crate::proofs::Words::first_words, crate::proofs::Words::one_words, crate::proofs::Words::second_words, crate::proofs::Words::sound_words))]
pub fn words_misfit(line: &LineTokens<'_>) -> Option<Misfit>
    ensures { option_map seen_misfit result ≡ words_misfit (seen_line line.now) }
{
    let mut lexemes = Lexemes::new(line);
    let Some(first) = lexemes.next_token() else {
        return None;
    };
    if !same_lexeme(Lexeme::Name(b"pragma".as_slice()), first.lexeme) {
        return Some(misplaced(first));
    }
    let Some(second) = lexemes.next_token() else {
        return None;
    };
    if !same_lexeme(Lexeme::Name(b"omp".as_slice()), second.lexeme) {
        return Some(misplaced(second));
    }
    None
}
