//! The bounds of loops that count down.

ghost use Rattle.std.specs.Prelude.{◌≡◌};
ghost use Rattle.c_grammar.specs.Descents.{above_zero, are_int, are_parts, ends, is_bound, is_int, is_operator, is_part, is_positive, opens_round};
ghost use Rattle.c_terminals.specs.Seen.{seen, seen_all, seen_terminal};
ghost use Rattle.c_descents.specs.Blocks.{open_blocks};

use crate::blocks::Blocks;
use c_terminals::{Terminal, Token};
use c_tokens::Sign;

/// Each number of the type `int` is below it.
const SMALL: u64 = 0x8000_0000;

fn is_operator(token: Token<'_, '_>) -> bool
    ensures { result ≡ is_operator (seen token.entry) }
{
    token.terminal.is_sign(Sign::Plus)
        || token.terminal.is_sign(Sign::Minus)
        || token.terminal.is_sign(Sign::Star)
        || token.terminal.is_sign(Sign::Slash)
        || token.terminal.is_sign(Sign::Percent)
}

// Whether a round bracket follows.
fn opens_round(behind: &[Token<'_, '_>]) -> bool
    ensures { result ≡ opens_round (seen_all behind.now) }
{
    match behind {
        [next, ..] => next.terminal.is_sign(Sign::OpenParen),
        [] => false,
    }
}

// An operator, a number, or a name that is another one and is not called.
fn is_part(name: &[u8], token: Token<'_, '_>, behind: &[Token<'_, '_>]) -> bool
    ensures { result ≡ is_part name.now (seen token.entry) (seen_all behind.now) }
{
    is_operator(token)
        || token.terminal.is_number()
        || (token.terminal.is_name() && !token.terminal.is_named(name) && !opens_round(behind))
}

// Whether all tokens are such, or round brackets in pairs.
fn are_parts(name: &[u8], tokens: &[Token<'_, '_>]) -> bool
    ensures { result ≡ are_parts name.now 0 (seen_all tokens.now) }
{
    let mut open = 0usize;
    let mut rest = tokens;
    'tokens: while let [token, behind @ ..] = rest {
        if token.terminal.is_sign(Sign::OpenParen) {
            open += 1;
        } else if token.terminal.is_sign(Sign::CloseParen) {
            if open == 0 {
                return false;
            }
            open -= 1;
        } else if !is_part(name, *token, behind) {
            return false;
        }
        rest = behind;
    }
    open == 0
}

/// Whether the tokens are a bound that the name does not stand in, as far as that is asked here.
pub fn is_bound(name: &[u8], tokens: &[Token<'_, '_>]) -> bool
    ensures { result ≡ is_bound name.now (seen_all tokens.now) }
{
    !tokens.is_empty() && are_parts(name, tokens)
}

fn above_zero(terminal: Terminal<'_, '_>) -> bool
    ensures { result ≡ above_zero (seen_terminal terminal.entry) }
{
    match terminal {
        Terminal::Number(number) => number > 0,
        _ => false,
    }
}

// One number, which is not 0.
fn is_positive(tokens: &[Token<'_, '_>]) -> bool
    ensures { result ≡ is_positive (seen_all tokens.now) }
{
    match tokens {
        [only] => above_zero(only.terminal),
        _ => false,
    }
}

// No number or name that is of another type than `int`.
fn is_int(blocks: &Blocks<'_>, terminal: Terminal<'_, '_>) -> bool
    ensures { result ≡ is_int (open_blocks blocks.now) (seen_terminal terminal.entry) }
{
    match terminal {
        Terminal::Number(number) => number < SMALL,
        Terminal::Name(name) => blocks.is_small(name),
        _ => true,
    }
}

fn are_int(blocks: &Blocks<'_>, tokens: &[Token<'_, '_>]) -> bool
    ensures { result ≡ are_int (open_blocks blocks.now) (seen_all tokens.now) }
{
    let mut rest = tokens;
    'tokens: while let [token, behind @ ..] = rest {
        if !is_int(blocks, token.terminal) {
            return false;
        }
        rest = behind;
    }
    true
}

/// Whether such a loop ends in C.
pub fn ends(
    blocks: &Blocks<'_>,
    small: bool,
    compares: Token<'_, '_>,
    limit: &[Token<'_, '_>],
) -> bool
    ensures { result ≡ ends (open_blocks blocks.now) small (seen compares.entry) (seen_all limit.now) }
{
    if compares.terminal.is_sign(Sign::Greater) {
        return true;
    }
    if !compares.terminal.is_sign(Sign::GreaterEqual) {
        return false;
    }
    if small {
        are_int(blocks, limit)
    } else {
        is_positive(limit)
    }
}
