//! Declarations of arrays.

ghost use Rattle.std.specs.Prelude.{◌≡◌, false, MatchOption};
ghost use Rattle.std.specs.Option.{option_map};
ghost use Rattle.c_grammar.specs.Constants.{is_mark};
ghost use Rattle.c_grammar.specs.MainArrays.{are_numbers, array_in, array_named, array_typed, behind_length, closes, closes_list, ends_array, has_lengths, is_static, lists_numbers, max_lengths};
ghost use Rattle.c_terminals.specs.Ahead.{ahead};
ghost use Rattle.c_terminals.specs.Seen.{seen};

use c_terminals::{Ahead, Terminal, Token};
use c_tokens::Sign;
use directives::Word;

/// An array has so many lengths at most.
const MAX_LENGTHS: usize = 3;

fn is_sign(token: Option<Token<'_, '_>>, sign: Sign) -> bool
    ensures { MatchOption token.entry (result ≡ false) (λ t. result ≡ is_mark sign (seen t)) }
{
    match token {
        Some(token) => token.terminal.is_sign(sign),
        None => false,
    }
}

/// Whether a brace that is closed comes next.
pub fn closes(start: Ahead<'_, '_, '_>) -> bool
    ensures { result ≡ closes (ahead start.entry) }
{
    let mut ahead = start;
    is_sign(ahead.next(), Sign::CloseBrace)
}

/// Whether a list ends, and the declaration with it.
fn closes_list(start: Ahead<'_, '_, '_>) -> bool
    ensures { result ≡ closes_list (ahead start.entry) }
{
    let mut ahead = start;
    is_sign(ahead.next(), Sign::CloseBrace) && is_sign(ahead.next(), Sign::Semicolon)
}

/// Whether numbers come next, behind the last of which a comma may stand, and the declaration ends behind them.
fn are_numbers(start: Ahead<'_, '_, '_>) -> bool
    ensures { result ≡ are_numbers (ahead start.entry) }
{
    let mut ahead = start;
    'numbers: while let Some(number) = ahead.next() {
        if !number.terminal.is_number() {
            return false;
        }
        if closes_list(ahead) {
            return true;
        }
        if !is_sign(ahead.next(), Sign::Comma) {
            return false;
        }
        if closes_list(ahead) {
            return true;
        }
    }
    false
}

/// Whether numbers in braces come next, and the end.
fn lists_numbers(start: Ahead<'_, '_, '_>) -> bool
    ensures { result ≡ lists_numbers (ahead start.entry) }
{
    let mut ahead = start;
    is_sign(ahead.next(), Sign::OpenBrace) && are_numbers(ahead)
}

/// Whether the declaration ends, or numbers stand behind its lengths.
fn ends_array(start: Ahead<'_, '_, '_>) -> bool
    ensures { result ≡ ends_array (ahead start.entry) }
{
    let mut ahead = start;
    let Some(next) = ahead.next() else {
        return false;
    };
    next.terminal.is_sign(Sign::Semicolon)
        || (next.terminal.is_sign(Sign::Equal) && lists_numbers(ahead))
}

/// What follows `[NUM]`, if that stands at the front.
fn behind_length<'a, 'l, 's>(start: Ahead<'a, 'l, 's>) -> Option<Ahead<'a, 'l, 's>>
    ensures { option_map ahead result ≡ behind_length (ahead start.entry) }
{
    let mut ahead = start;
    if !is_sign(ahead.next(), Sign::OpenBracket) {
        return None;
    }
    let Some(number) = ahead.next() else {
        return None;
    };
    if !number.terminal.is_number() || !is_sign(ahead.next(), Sign::CloseBracket) {
        return None;
    }
    Some(ahead)
}

/// Whether lengths come next, and then the rest of a declaration.
fn has_lengths(start: Ahead<'_, '_, '_>) -> bool
    ensures { result ≡ has_lengths max_lengths (ahead start.entry) }
{
    let mut ahead = start;
    let mut left = MAX_LENGTHS;
    'lengths: while left > 0 {
        let Some(behind) = behind_length(ahead) else {
            return false;
        };
        if ends_array(behind) {
            return true;
        }
        ahead = behind;
        left -= 1;
    }
    false
}

/// The name of an array, whose lengths and the rest of a declaration stand behind it.
fn array_named<'a>(start: Ahead<'a, '_, '_>) -> Option<&'a [u8]>
    ensures { option_map (λ x. x.now) result ≡ array_named (ahead start.entry) }
{
    let mut ahead = start;
    let Some(named) = ahead.next() else {
        return None;
    };
    if !has_lengths(ahead) {
        return None;
    }
    match named.terminal {
        Terminal::Name(name) => Some(name),
        _ => None,
    }
}

/// The same, behind the type.
fn array_typed<'a>(token: Token<'a, '_>, rest: Ahead<'a, '_, '_>) -> Option<&'a [u8]>
    ensures { option_map (λ x. x.now) result ≡ array_typed (seen token.entry) (ahead rest.entry) }
{
    if !token.terminal.is_word(Word::Uint64) {
        return None;
    }
    array_named(rest)
}

/// Whether it is the word `static`.
pub fn is_static(token: Token<'_, '_>) -> bool
    ensures { result ≡ is_static (seen token.entry) }
{
    token.terminal.is_named(b"static".as_slice())
}

/// The name of the array that the token and those behind it declare.
pub fn array_in<'a>(token: Token<'a, '_>, rest: Ahead<'a, '_, '_>) -> Option<&'a [u8]>
    ensures { option_map (λ x. x.now) result ≡ array_in (seen token.entry) (ahead rest.entry) }
{
    let mut ahead = rest;
    let Some(next) = ahead.next() else {
        return None;
    };
    if is_static(token) {
        return array_typed(next, ahead);
    }
    array_typed(token, rest)
}
