//! Where names stand on a directive line.

ghost use Rattle.std.specs.Prelude.{◌≡◌, map};
ghost use Rattle.c_grammar.specs.Functions.{has_colon};
ghost use Rattle.c_grammar.specs.Presence.{closes_list, opens_list};
ghost use Rattle.directives.specs.Seen.{seen_lexeme};
ghost use Rattle.c_written.specs.Spots.{all_kinds};

use crate::line_forms::is_sign;
use c_tokens::Sign;
use directives::{Lexeme, PlacedLexeme};
use std::alloc::AllocError;

/// Where a token stands: before it are so many that stay as they are, so many brackets are open, and what stands in them
/// are names.
#[derive(Clone, Copy)]
pub struct Spot {
    pub left: usize,
    pub depth: usize,
    pub names: bool,
}

pub fn opens_list(lexeme: Lexeme<'_>) -> bool
    ensures { result ≡ opens_list (seen_lexeme lexeme.entry) }
{
    is_sign(lexeme, Sign::OpenParen) || is_sign(lexeme, Sign::OpenBracket)
}

pub fn closes_list(lexeme: Lexeme<'_>) -> bool
    ensures { result ≡ closes_list (seen_lexeme lexeme.entry) }
{
    is_sign(lexeme, Sign::CloseParen) || is_sign(lexeme, Sign::CloseBracket)
}

// Whether a clause has a colon that stands in no brackets of its own.
fn has_colon(tokens: &[PlacedLexeme<'_>]) -> bool
    ensures { result ≡ has_colon 0 (all_kinds tokens.now) }
{
    let mut depth = 0usize;
    let mut rest = tokens;
    'tokens: while let [token, behind @ ..] = rest {
        rest = behind;
        if opens_list(token.lexeme) {
            depth += 1;
        } else if closes_list(token.lexeme) {
            if depth == 0 {
                return false;
            }
            depth -= 1;
        } else if is_sign(token.lexeme, Sign::Colon) && depth == 0 {
            return true;
        }
    }
    false
}

impl Spot {
    ghost use Rattle.std.specs.Prelude.{◌≡◌, ◌||◌, ◌==◌, not, nat_lt, IfOk};
    ghost use Rattle.c_grammar.specs.Functions.{line_begins, spot_behind};
    ghost use Rattle.directives.specs.Seen.{seen_lexeme};
    ghost use Rattle.c_written.specs.Spots.{all_kinds, seen_spot};

    /// Before the words `pragma omp`, which stay.
    pub fn begin() -> Spot
        ensures { seen_spot result ≡ line_begins }
    {
        Spot {
            left: 2,
            depth: 0,
            names: false,
        }
    }

    /// Whether the token there stays as it is.
    pub fn stays(self) -> bool
        ensures { result ≡ (nat_lt 0 self.left || (self.depth == 0) || not self.names) }
    {
        self.left > 0 || self.depth == 0 || !self.names
    }

    /// Behind a token, before others.
    pub fn behind(self, lexeme: Lexeme<'_>, others: &[PlacedLexeme<'_>]) -> Result<Spot, AllocError>
        ensures { IfOk result (λ s. seen_spot s ≡ spot_behind (seen_spot self) (seen_lexeme lexeme.entry) (all_kinds others.now)) }
    {
        let Spot { left, depth, names } = self;
        if left > 0 {
            return Ok(Spot {
                left: left - 1,
                depth,
                names,
            });
        }
        if opens_list(lexeme) {
            return Ok(Spot {
                left,
                depth: depth.checked_add(1).ok_or(AllocError)?,
                names: if depth == 0 {
                    !has_colon(others)
                } else {
                    names
                },
            });
        }
        if closes_list(lexeme) {
            return Ok(Spot {
                left,
                depth: depth.saturating_sub(1),
                names,
            });
        }
        Ok(Spot {
            left,
            depth,
            names: names || is_sign(lexeme, Sign::Colon) && depth == 1,
        })
    }
}
