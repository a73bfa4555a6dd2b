//! What a region uses, without a look at directive lines.

ghost use Rattle.std.specs.Prelude.{◌≡◌};
ghost use Rattle.c_grammar.specs.Blocks.{bare};
ghost use Rattle.c_grammar.specs.Presence.{goes_on, is_declared, uses};
ghost use Rattle.c_terminals.specs.Ahead.{ahead};
ghost use Rattle.c_terminals.specs.Seen.{seen, seen_all};

use crate::presence::opens_part;
use c_terminals::{Ahead, Token};
use c_tokens::Sign;
use directives::Word;

/// Whether the name is declared by a token and the next one.
pub fn is_declared(name: &[u8], token: Token<'_, '_>, rest: Ahead<'_, '_, '_>) -> bool
    ensures { result ≡ is_declared name.now (seen token.entry) (ahead rest.entry) }
{
    let mut ahead = rest;
    match ahead.next() {
        Some(next) => token.terminal.is_word(Word::Uint64) && next.terminal.is_named(name),
        None => false,
    }
}

/// The region goes on behind a brace that closes one of so many parts.
pub fn goes_on(depth: usize, rest: Ahead<'_, '_, '_>) -> bool
    ensures { result ≡ goes_on depth (ahead rest.entry) }
{
    if depth > 1 {
        return true;
    }
    let mut ahead = rest;
    match ahead.next() {
        Some(next) => next.terminal.is_word(Word::Else),
        None => false,
    }
}

/// Whether the statement that begins there uses the name, before it declares it.
pub fn uses(name: &[u8], tokens: &[Token<'_, '_>]) -> bool
    ensures { result ≡ uses name.now 0 (bare (seen_all tokens.now)) }
{
    let mut depth = 0usize;
    let mut ahead = Ahead::new(tokens);
    'tokens: while let Some(token) = ahead.next() {
        if is_declared(name, token, ahead) {
            return false;
        }
        if token.terminal.is_named(name) {
            return true;
        }
        if opens_part(token) {
            depth += 1;
        } else if token.terminal.is_sign(Sign::CloseBrace) {
            if !goes_on(depth, ahead) {
                return false;
            }
            depth = depth.saturating_sub(1);
        } else if token.terminal.is_sign(Sign::CloseParen) {
            depth = depth.saturating_sub(1);
        } else if token.terminal.is_sign(Sign::Semicolon) && depth == 0 {
            return false;
        }
    }
    false
}
