//! Whether a name stays what it is up to the end of a block.

ghost use Rattle.std.specs.Prelude.{◌≡◌, IfOk, false};
ghost use Rattle.c_grammar.specs.Counters.{is_set, is_type};
ghost use Rattle.c_temporaries.specs.Temporaries.{inner_depth, max_scope, stays};
ghost use Rattle.c_terminals.specs.Ahead.{ahead};
ghost use Rattle.c_terminals.specs.Seen.{seen, seen_terminal};

use c_terminals::{Ahead, Terminal, Token};
use c_tokens::Sign;
use directives::Word;
use std::alloc::AllocError;

/// So many tokens of a block are looked at.
const MAX_SCOPE: usize = 8192;

fn is_type(terminal: Terminal<'_, '_>) -> bool
    ensures { result ≡ is_type (seen_terminal terminal.entry) }
{
    terminal.is_word(Word::Uint64) || terminal.is_word(Word::Int)
}

fn is_assigned(rest: Ahead<'_, '_, '_>) -> bool
    ensures { result ≡ is_set (ahead rest.entry) }
{
    let mut ahead = rest;
    match ahead.next() {
        None => false,
        Some(token) => token.terminal.is_sign(Sign::Equal),
    }
}

fn inner_depth(token: Token<'_, '_>, depth: usize) -> Result<usize, AllocError>
    ensures { IfOk result (λ d. d ≡ inner_depth (seen token.entry) depth) }
{
    if token.terminal.is_sign(Sign::OpenBrace) {
        depth.checked_add(1).ok_or(AllocError)
    } else {
        Ok(depth)
    }
}

/// Whether nothing assigns or declares the name in these tokens, up to the end of their block. Of a longer block than
/// [`MAX_SCOPE`] that is not said.
pub fn stays(name: &[u8], start: Ahead<'_, '_, '_>) -> Result<bool, AllocError>
    ensures { IfOk result (λ b. b ≡ stays max_scope name.now false 0 (ahead start.entry)) }
{
    let mut left = MAX_SCOPE;
    let mut ahead = start;
    let mut typed = false;
    let mut depth = 0usize;
    'tokens: while left > 0 {
        left -= 1;
        let Some(token) = ahead.next() else {
            return Ok(true);
        };
        if token.terminal.is_sign(Sign::CloseBrace) {
            if depth == 0 {
                return Ok(true);
            }
            depth -= 1;
            typed = false;
        } else if token.terminal.is_named(name) {
            if typed {
                return Ok(false);
            }
            if is_assigned(ahead) {
                return Ok(false);
            }
        } else {
            typed = is_type(token.terminal);
            depth = inner_depth(token, depth)?;
        }
    }
    Ok(false)
}
