//! What a name gets up to the end of a block.

ghost use Rattle.std.specs.Prelude.{◌≡◌, IfOk, false};
ghost use Rattle.c_grammar.specs.Counters.{is_set};
ghost use Rattle.c_ints.specs.Ints.{begins_number, first_declared, inner_depth, is_declared, is_last_brace, is_last_return, is_returned, keeps, max_scope, max_value, stays_small};
ghost use Rattle.c_ints.specs.Parts.{seen_kind};
ghost use Rattle.c_terminals.specs.Ahead.{ahead};
ghost use Rattle.c_terminals.specs.Seen.{seen, seen_terminal};

use crate::truths::is_any_type;
use crate::values::{Kind, MAX_VALUE, ends, is_comparison, is_logical, small_behind, small_from};
use c_terminals::{Ahead, Terminal, Token};
use c_tokens::Sign;
use std::alloc::AllocError;

/// So many tokens of a block are looked at.
const MAX_SCOPE: usize = 8192;

/// Whether the sign `=` is next.
pub fn is_set(rest: Ahead<'_, '_, '_>) -> bool
    ensures { result ≡ is_set (ahead rest.entry) }
{
    let mut ahead = rest;
    match ahead.next() {
        None => false,
        Some(token) => token.terminal.is_sign(Sign::Equal),
    }
}

// Whether what follows the name does not change it, or to a small value.
fn stays_small(kind: Kind, name: &[u8], rest: Ahead<'_, '_, '_>) -> Result<bool, AllocError>
    ensures { IfOk result (λ b. b ≡ stays_small (seen_kind kind) name.now (ahead rest.entry)) }
{
    if !is_set(rest) {
        return Ok(true);
    }
    let mut ahead = rest;
    ahead.next();
    small_behind(kind, name, ahead)
}

fn inner_depth(token: Token<'_, '_>, depth: usize) -> Result<usize, AllocError>
    ensures { IfOk result (λ d. d ≡ inner_depth (seen token.entry) depth) }
{
    if token.terminal.is_sign(Sign::OpenBrace) {
        depth.checked_add(1).ok_or(AllocError)
    } else {
        Ok(depth)
    }
}

// Whether the name gets small values alone in these tokens, up to the end of their block. Of a longer block than
// [`MAX_SCOPE`] that is not said.
fn keeps(kind: Kind, name: &[u8], start: Ahead<'_, '_, '_>) -> Result<bool, AllocError>
    ensures { IfOk result (λ b. b ≡ keeps max_scope (seen_kind kind) name.now false 0 (ahead start.entry)) }
{
    let mut left = MAX_SCOPE;
    let mut ahead = start;
    let mut typed = false;
    let mut depth = 0usize;
    'tokens: while left > 0 {
        left -= 1;
        let Some(token) = ahead.next() else {
            return Ok(true);
        };
        if token.terminal.is_sign(Sign::CloseBrace) {
            if depth == 0 {
                return Ok(true);
            }
            depth -= 1;
            typed = false;
        } else if token.terminal.is_named(name) {
            if typed {
                return Ok(false);
            }
            if !stays_small(kind, name, ahead)? {
                return Ok(false);
            }
        } else {
            typed = is_any_type(token.terminal);
            depth = inner_depth(token, depth)?;
        }
    }
    Ok(false)
}

/// Whether a name is declared with small values, where this follows it.
pub fn is_declared(
    kind: Kind,
    terminal: Terminal<'_, '_>,
    rest: Ahead<'_, '_, '_>,
) -> Result<bool, AllocError>
    ensures { IfOk result (λ b. b ≡ is_declared (seen_kind kind) (seen_terminal terminal.entry) (ahead rest.entry)) }
{
    let Terminal::Name(name) = terminal else {
        return Ok(false);
    };
    let mut ahead = rest;
    let Some(token) = ahead.next() else {
        return Ok(false);
    };
    if token.terminal.is_sign(Sign::Equal) {
        if !small_from(kind, ahead)? {
            return Ok(false);
        }
        return keeps(kind, name, ahead);
    }
    if !ends(token) {
        return Ok(false);
    }
    keeps(kind, name, ahead)
}

/// Whether the name that comes first is.
pub fn first_declared(kind: Kind, start: Ahead<'_, '_, '_>) -> Result<bool, AllocError>
    ensures { IfOk result (λ b. b ≡ first_declared (seen_kind kind) (ahead start.entry)) }
{
    let mut ahead = start;
    match ahead.next() {
        None => Ok(false),
        Some(name) => is_declared(kind, name.terminal, ahead),
    }
}

fn is_returned(token: Token<'_, '_>) -> bool
    ensures { result ≡ is_returned (seen token.entry) }
{
    token.terminal.is_name()
        || token.terminal.is_number()
        || token.terminal.is_sign(Sign::OpenParen)
        || token.terminal.is_sign(Sign::CloseParen)
        || is_comparison(token)
        || is_logical(token)
        || token.terminal.is_sign(Sign::Bang)
}

/// Whether a number is next.
pub fn begins_number(rest: Ahead<'_, '_, '_>) -> bool
    ensures { result ≡ begins_number (ahead rest.entry) }
{
    let mut ahead = rest;
    match ahead.next() {
        None => false,
        Some(token) => token.terminal.is_number(),
    }
}

// Whether a closing brace is next, and the last token.
fn is_last_brace(rest: Ahead<'_, '_, '_>) -> bool
    ensures { result ≡ is_last_brace (ahead rest.entry) }
{
    let mut ahead = rest;
    match ahead.next() {
        None => false,
        Some(brace) => match ahead.next() {
            None => brace.terminal.is_sign(Sign::CloseBrace),
            Some(_) => false,
        },
    }
}

/// Whether these tokens, behind the word `return`, are those of the last statement.
pub fn is_last_return(start: Ahead<'_, '_, '_>) -> bool
    ensures { result ≡ is_last_return max_value false (ahead start.entry) }
{
    let mut left = MAX_VALUE;
    let mut ahead = start;
    let mut named = false;
    'tokens: while left > 0 {
        left -= 1;
        let Some(token) = ahead.next() else {
            return false;
        };
        if token.terminal.is_sign(Sign::Semicolon) {
            return is_last_brace(ahead);
        }
        if !is_returned(token) {
            return false;
        }
        if named && token.terminal.is_sign(Sign::OpenParen) {
            return false;
        }
        named = token.terminal.is_name();
    }
    false
}
