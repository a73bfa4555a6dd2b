//! The numbers that a term of a bound begins with: a product of numbers and constants, before a name or alone.

ghost use Rattle.std.specs.Prelude.{◌≡◌, ◌==◌, ◌&&◌, ◌||◌, ◌<◌, ◌≤◌, IfOk, IfSome, false, length, nat_lt, not};
ghost use Rattle.std.specs.Option.{option_map};
ghost use Rattle.c_grammar.specs.LineForms.{begins_with_name, ends_product, exactly, is_factor, is_number, is_within, open_behind, or_product, product_at, product_len, put_word};
ghost use Rattle.directives.specs.Seen.{seen_lexeme};
ghost use Rattle.c_written.specs.Forms.{all_placed, seen_bound};
ghost use Rattle.c_written.specs.Values.{seen_values};
ghost use Rattle.c_written.specs.Work.{seen_worked};

use crate::clauses::is_worded;
use crate::expressions::{Worked, expression};
use crate::line_forms::{as_tokens, is_sign};
use crate::values::Values;
use c_tokens::Sign;
use directives::{Lexeme, PlacedLexeme};
use std::alloc::{AllocError, Global};

/// So many brackets may be open in a product.
const MOST_OPEN: usize = 16;

/// The token, with its number where it is a constant's name.
pub fn put_word<'a>(values: &Values<'_>, lexeme: Lexeme<'a>) -> Lexeme<'a>
    ensures { seen_lexeme result ≡ put_word (seen_values values.now) (seen_lexeme lexeme.entry) }
{
    match lexeme {
        Lexeme::Name(word) => match values.value(word) {
            Some(n) => Lexeme::Number(n),
            None => lexeme,
        },
        _ => lexeme,
    }
}

fn is_number(lexeme: Lexeme<'_>) -> bool
    ensures { result ≡ is_number (seen_lexeme lexeme.entry) }
{
    matches!(lexeme, Lexeme::Number(_))
}

/// Whether the token is a number, or a sign between factors.
fn is_factor(lexeme: Lexeme<'_>) -> bool
    ensures { result ≡ is_factor (seen_lexeme lexeme.entry) }
{
    is_number(lexeme)
        || is_sign(lexeme, Sign::Star)
        || is_sign(lexeme, Sign::Slash)
        || is_sign(lexeme, Sign::Percent)
}

/// Whether the token may stand between brackets round a factor, or is one of them.
fn is_within(lexeme: Lexeme<'_>) -> bool
    ensures { result ≡ is_within (seen_lexeme lexeme.entry) }
{
    is_factor(lexeme)
        || is_sign(lexeme, Sign::OpenParen)
        || is_sign(lexeme, Sign::CloseParen)
        || is_sign(lexeme, Sign::Plus)
        || is_sign(lexeme, Sign::Minus)
        || is_sign(lexeme, Sign::ShiftLeft)
        || is_sign(lexeme, Sign::ShiftRight)
}

/// Whether a name that is no constant begins the tokens.
fn begins_with_name(values: &Values<'_>, rest: &[PlacedLexeme<'_>]) -> bool
    ensures { result ≡ begins_with_name (seen_values values.now) (all_placed rest.now) }
{
    match rest {
        [next, ..] => is_worded(put_word(values, next.lexeme)),
        [] => false,
    }
}

/// Whether a product ends before the token, outside of brackets: it is the star before a name, or no product has it.
fn ends_product(values: &Values<'_>, lexeme: Lexeme<'_>, behind: &[PlacedLexeme<'_>]) -> bool
    ensures { result ≡ ends_product (seen_values values.now) (seen_lexeme lexeme.entry) (all_placed behind.now) }
{
    if is_sign(lexeme, Sign::Star) {
        return begins_with_name(values, behind);
    }
    !is_factor(lexeme) && !is_sign(lexeme, Sign::OpenParen)
}

/// How many brackets are open behind the token.
fn open_behind(depth: usize, lexeme: Lexeme<'_>) -> usize
    requires { depth ≤ 16 }
    ensures { result ≡ open_behind depth (seen_lexeme lexeme.entry) }
{
    if is_sign(lexeme, Sign::OpenParen) {
        return depth + 1;
    }
    if is_sign(lexeme, Sign::CloseParen) {
        depth.saturating_sub(1)
    } else {
        depth
    }
}

// Whether the product ends before the token, where so many brackets are open.
fn ends_before(
    values: &Values<'_>,
    depth: usize,
    lexeme: Lexeme<'_>,
    behind: &[PlacedLexeme<'_>],
) -> bool
    ensures { result ≡ ((depth == 0) && ends_product (seen_values values.now) (seen_lexeme lexeme.entry) (all_placed behind.now)) }
{
    depth == 0 && ends_product(values, lexeme, behind)
}

// Whether no product has the token there, or too many brackets are open.
fn stops_before(depth: usize, lexeme: Lexeme<'_>) -> bool
    ensures value { result ≡ (not (nat_lt depth 16) || not (is_within (seen_lexeme lexeme.entry))) }
    ensures room { result ≡ false → depth < 16 }
{
    depth >= MOST_OPEN || !is_within(lexeme)
}

/// How many tokens the product at the front has.
#[tactic(auto, using(crate::proofs::Multiplying::product_ends, crate::proofs::Multiplying::product_stops, crate::proofs::Multiplying::product_goes))]
fn product_len(values: &Values<'_>, rest: &[PlacedLexeme<'_>]) -> Option<usize>
    ensures end { result ≡ product_len (seen_values values.now) 0 0 (all_placed rest.now) }
    ensures few { IfSome result (λ k. k ≤ length rest.now) }
{
    let mut depth = 0usize;
    let mut count = 0usize;
    let mut left = rest;
    'tokens: while let [placed, behind @ ..] = left {
        let lexeme = put_word(values, placed.lexeme);
        if ends_before(values, depth, lexeme, behind) {
            return Some(count);
        }
        if stops_before(depth, lexeme) {
            return None;
        }
        depth = open_behind(depth, lexeme);
        count += 1;
        left = behind;
    }
    None
}

/// The expression, if it has so many tokens, and its value.
fn exactly(count: usize, worked: Option<Worked>) -> Option<(usize, u64)>
    ensures { option_map seen_bound result ≡ exactly count (option_map seen_worked worked) }
{
    match worked {
        Some(Worked::Number(tokens, value)) => {
            if tokens == count {
                Some((tokens, value))
            } else {
                None
            }
        }
        Some(Worked::Fault(_, _)) | None => None,
    }
}

/// The product at the front: how many tokens it has, and its value.
#[tactic(auto, using(crate::proofs::Multiplying::product_none, crate::proofs::Multiplying::product_read))]
pub fn product(
    alloc: Global,
    values: &Values<'_>,
    rest: &[PlacedLexeme<'_>],
) -> Result<Option<(usize, u64)>, AllocError>
    ensures { IfOk result (λ b. option_map seen_bound b ≡ product_at (seen_values values.now) (all_placed rest.now)) }
{
    let Some(count) = product_len(values, rest) else {
        return Ok(None);
    };
    let tokens = as_tokens(alloc, 0, &rest[..count])?;
    Ok(exactly(count, expression(alloc, values, false, &tokens)?))
}

/// What a bound is, if it is something, or else the product that it begins with.
pub fn or_product(
    alloc: Global,
    values: &Values<'_>,
    rest: &[PlacedLexeme<'_>],
    bound: Option<(usize, u64)>,
) -> Result<Option<(usize, u64)>, AllocError>
    ensures { IfOk result (λ b. option_map seen_bound b ≡
        or_product (seen_values values.now) (all_placed rest.now) (option_map seen_bound bound)) }
{
    match bound {
        Some(found) => Ok(Some(found)),
        None => product(alloc, values, rest),
    }
}
