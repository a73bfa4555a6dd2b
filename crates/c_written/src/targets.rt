//! What an assignment changes: a name, or a cell.

ghost use Rattle.std.specs.Prelude.{◌≡◌, ◌<◌, ◌^◌, length, MatchOption, false};
ghost use Rattle.c_grammar.specs.Blocks.{bare};
ghost use Rattle.c_grammar.specs.Changes.{closes_index, is_mark, is_target, is_target_ended};
ghost use Rattle.c_terminals.specs.Ahead.{ahead};
ghost use Rattle.c_terminals.specs.Seen.{seen, seen_all};

use c_terminals::{Ahead, Terminal, Token};
use c_tokens::Sign;

/// Whether the tokens are a name, or one with brackets behind it, of which the last ends them.
pub fn is_target(tokens: &[Token<'_, '_>]) -> bool
    ensures { result ≡ is_target (seen_all tokens.now) }
{
    match tokens {
        [name] => name.terminal.is_name(),
        [name, open, .., close] => {
            name.terminal.is_name()
                && open.terminal.is_sign(Sign::OpenBracket)
                && close.terminal.is_sign(Sign::CloseBracket)
        }
        _ => false,
    }
}

/// Whether a semicolon comes behind the index at the front.
fn closes_index(index: Ahead<'_, '_, '_>) -> bool
    requires { length (ahead index) < 2 ^ 64 }
    ensures { result ≡ closes_index 0 (ahead index.entry) }
{
    let mut ahead = index;
    let mut open: usize = 0;
    'tokens: while let Some(token) = ahead.next() {
        if token.terminal.is_sign(Sign::Semicolon) {
            return false;
        }
        if token.terminal.is_sign(Sign::OpenBracket) {
            open += 1;
            continue;
        }
        if !token.terminal.is_sign(Sign::CloseBracket) {
            continue;
        }
        if open <= 1 {
            return is_sign(ahead.next(), Sign::Semicolon);
        }
        open -= 1;
    }
    false
}

pub fn is_sign(token: Option<Token<'_, '_>>, sign: Sign) -> bool
    ensures { MatchOption token.entry (result ≡ false) (λ t. result ≡ is_mark sign (seen t)) }
{
    match token {
        Some(token) => token.terminal.is_sign(sign),
        None => false,
    }
}

/// Whether a name, or a cell, and a semicolon come next.
pub fn is_target_ended(rest: &[Token<'_, '_>]) -> bool
    ensures { result ≡ is_target_ended (bare (seen_all rest.now)) }
{
    let mut ahead = Ahead::new(rest);
    match ahead.next() {
        Some(name) => {
            let index = ahead;
            name.terminal.is_name()
                && (is_sign(ahead.next(), Sign::Semicolon) || closes_index(index))
        }
        None => false,
    }
}
