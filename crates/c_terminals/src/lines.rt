//! The tokens of a line that begins with `#`, as those of a source: comments, and brackets behind names.

ghost use Rattle.std.specs.Prelude.{◌≡◌, ◌==◌, ◌+◌, ◌||◌, ◌&&◌, length, map};
ghost use Rattle.c_tokens.specs.declared.kind.Sign.TheVariants as sign;
ghost use Rattle.c_grammar.specs.Terminal.{End, Mark, same};
ghost use Rattle.c_grammar.specs.Expressions.{as_items, as_terminal};
ghost use Rattle.c_grammar.specs.Constants.{ends_remark, has_parameters, is_pair, is_remark};
ghost use Rattle.directives.specs.Seen.{seen_lexeme, seen_placed};
ghost use Rattle.c_terminals.specs.Lines.{item_of};

use c_tokens::Sign;
use directives::{Lexeme, PlacedLexeme, same_lexeme};

/// Whether it is that sign.
#[tactic(auto, using(crate::proofs::Remarks::same_sign))]
pub fn is_placed_sign(placed: PlacedLexeme<'_>, sign: Sign) -> bool
    ensures { result ≡ same (Mark sign) (as_terminal (seen_lexeme placed.entry.lexeme)) }
{
    same_lexeme(Lexeme::Sign(sign), placed.lexeme)
}

#[tactic(auto, using(crate::proofs::Remarks::same_end))]
fn is_end(placed: PlacedLexeme<'_>) -> bool
    ensures { result ≡ same End (as_terminal (seen_lexeme placed.entry.lexeme)) }
{
    same_lexeme(Lexeme::Ended, placed.lexeme)
}

/// Whether so many bytes fill what is between the columns.
fn fills(width: usize, left: usize, right: usize) -> bool
    ensures { result ≡ (right == left + width) }
{
    left <= right && right - left == width
}

/// Whether the two signs stand there with nothing between them.
pub fn is_pair(left: PlacedLexeme<'_>, right: PlacedLexeme<'_>, first: Sign, second: Sign) -> bool
    ensures { result ≡ is_pair first second (item_of 0 (seen_placed left.entry)) (item_of 0 (seen_placed right.entry)) }
{
    is_placed_sign(left, first)
        && is_placed_sign(right, second)
        && fills(1, left.column, right.column)
}

/// Whether star and slash stand first where the line ends behind them.
fn ends_remark(lexemes: &[PlacedLexeme<'_>]) -> bool
    ensures { result ≡ ends_remark (as_items 0 (map seen_placed lexemes.now)) }
{
    let mut rest = lexemes;
    'lexemes: while let [star, slash, end, ..] = rest {
        if is_pair(*star, *slash, Sign::Star, Sign::Slash) {
            return is_end(*end);
        }
        rest = &rest[1..];
    }
    false
}

/// Whether the line is over before these tokens, or a comment that they begin reaches its end.
fn begins_remark(
    first: PlacedLexeme<'_>,
    second: PlacedLexeme<'_>,
    rest: &[PlacedLexeme<'_>],
) -> bool
    ensures { result ≡ (same End (as_terminal (seen_lexeme first.entry.lexeme)) ||
        is_pair sign.Slash sign.Slash (item_of 0 (seen_placed first.entry)) (item_of 0 (seen_placed second.entry)) ||
        (is_pair sign.Slash sign.Star (item_of 0 (seen_placed first.entry)) (item_of 0 (seen_placed second.entry)) &&
        ends_remark (as_items 0 (map seen_placed rest.now)))) }
{
    is_end(first)
        || is_pair(first, second, Sign::Slash, Sign::Slash)
        || (is_pair(first, second, Sign::Slash, Sign::Star) && ends_remark(rest))
}

/// Whether the line is over, or a comment reaches its end.
pub fn is_remark(lexemes: &[PlacedLexeme<'_>]) -> bool
    ensures { result ≡ is_remark (as_items 0 (map seen_placed lexemes.now)) }
{
    match lexemes {
        [] => false,
        [only] => is_end(*only),
        [first, second, rest @ ..] => begins_remark(*first, *second, rest),
    }
}

/// Whether a bracket stands right behind a name at the column: it would make it one with parameters.
pub fn has_parameters(lexemes: &[PlacedLexeme<'_>], name: &[u8], column: usize) -> bool
    ensures { result ≡ has_parameters (column + length name.now) (as_items 0 (map seen_placed lexemes.now)) }
{
    match lexemes {
        [first, ..] => {
            is_placed_sign(*first, Sign::OpenParen) && fills(name.len(), column, first.column)
        }
        [] => false,
    }
}
