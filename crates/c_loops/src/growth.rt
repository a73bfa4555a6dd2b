//! Whether each turn of a loop makes the scalar larger that its condition bounds.

ghost use Rattle.std.specs.Prelude.{◌≡◌, ◌<◌, ◌≤◌, ◌∷◌, codes, drop, true, false, IfOk};
ghost use Rattle.std.specs.Option.{option_map};
ghost use Rattle.c_grammar.specs.Loops.{adds, bounded, bounded_by, changes, counts, grows, is_amount, is_named, is_sum, is_word, seen_at, step_at, step_len, steps};
ghost use Rattle.c_loops.specs.Limits.{seen_limit};
ghost use Rattle.c_loops.specs.Growing.{goes_on, grows_other, is_shallow, seen_within};
ghost use Rattle.c_terminals.specs.Ahead.{ahead};
ghost use Rattle.c_terminals.specs.Seen.{seen, seen_terminal};

use crate::bounds::{Limit, close_at, limit_in};
use c_choices::{is_boundary, is_setting, next_tokens};
use c_terminals::{Ahead, Terminal, Token};
use c_tokens::Sign;
use std::alloc::{AllocError, Global};

/// So many blocks may be open in one another.
const MAX_OPEN: usize = 16;

fn is_named(limit: Limit<'_>, token: Token<'_, '_>) -> bool
    ensures { result ≡ is_named (seen_limit limit.entry) (seen token.entry) }
{
    token.terminal.is_named(limit.name)
}

// Whether it is an amount by which no sum passes the numbers.
fn is_amount(limit: Limit<'_>, terminal: Terminal<'_, '_>) -> bool
    ensures { result ≡ is_amount (seen_limit limit.entry) (seen_terminal terminal.entry) }
{
    match terminal {
        Terminal::Number(n) => n > 0 && limit.most <= u64::MAX - n + 1,
        _ => false,
    }
}

// `NAME++;` or `++NAME;`.
fn counts(limit: Limit<'_>, first: Token<'_, '_>, rest: Ahead<'_, '_, '_>) -> bool
    ensures { result ≡ counts (seen_limit limit.entry) (seen first.entry ∷ ahead rest.entry) }
{
    let mut ahead = rest;
    let Some(second) = ahead.next() else {
        return false;
    };
    let Some(end) = ahead.next() else {
        return false;
    };
    if !end.terminal.is_sign(Sign::Semicolon) {
        return false;
    }
    (is_named(limit, first) && second.terminal.is_sign(Sign::PlusPlus))
        || (first.terminal.is_sign(Sign::PlusPlus) && is_named(limit, second))
}

// `NAME += NUM;`
fn adds(limit: Limit<'_>, first: Token<'_, '_>, rest: Ahead<'_, '_, '_>) -> bool
    ensures { result ≡ adds (seen_limit limit.entry) (seen first.entry ∷ ahead rest.entry) }
{
    let mut ahead = rest;
    let Some(sign) = ahead.next() else {
        return false;
    };
    let Some(amount) = ahead.next() else {
        return false;
    };
    let Some(end) = ahead.next() else {
        return false;
    };
    is_named(limit, first)
        && sign.terminal.is_sign(Sign::PlusEqual)
        && is_amount(limit, amount.terminal)
        && end.terminal.is_sign(Sign::Semicolon)
}

// `NAME = NAME + NUM;`
fn is_sum(limit: Limit<'_>, first: Token<'_, '_>, rest: Ahead<'_, '_, '_>) -> bool
    ensures { result ≡ is_sum (seen_limit limit.entry) (seen first.entry ∷ ahead rest.entry) }
{
    let mut ahead = rest;
    let Some(equal) = ahead.next() else {
        return false;
    };
    let Some(name) = ahead.next() else {
        return false;
    };
    let Some(plus) = ahead.next() else {
        return false;
    };
    let Some(amount) = ahead.next() else {
        return false;
    };
    let Some(end) = ahead.next() else {
        return false;
    };
    is_named(limit, first)
        && equal.terminal.is_sign(Sign::Equal)
        && is_named(limit, name)
        && plus.terminal.is_sign(Sign::Plus)
        && is_amount(limit, amount.terminal)
        && end.terminal.is_sign(Sign::Semicolon)
}

// How many tokens follow the first of a statement that makes the scalar larger; 0 where there is none.
fn step_len(limit: Limit<'_>, first: Token<'_, '_>, rest: Ahead<'_, '_, '_>) -> usize
    ensures value { result ≡ step_len (seen_limit limit.entry) (seen first.entry ∷ ahead rest.entry) }
    ensures within { result < 6 }
{
    if counts(limit, first, rest) {
        return 2;
    }
    if adds(limit, first, rest) {
        return 3;
    }
    if is_sum(limit, first, rest) { 5 } else { 0 }
}

fn steps(token: Token<'_, '_>) -> bool
    ensures { result ≡ steps (seen token.entry) }
{
    token.terminal.is_sign(Sign::PlusPlus) || token.terminal.is_sign(Sign::MinusMinus)
}

// Whether the scalar is changed at the token.
fn changes(limit: Limit<'_>, token: Token<'_, '_>, rest: Ahead<'_, '_, '_>) -> bool
    ensures { result ≡ changes (seen_limit limit.entry) (seen token.entry) (ahead rest.entry) }
{
    let mut ahead = rest;
    let Some(next) = ahead.next() else {
        return false;
    };
    (is_named(limit, token) && (is_setting(next.terminal) || steps(next)))
        || (steps(token) && is_named(limit, next))
}

/// Where a token of the block stands.
#[derive(Clone, Copy)]
pub struct Within {
    /// How many blocks are open in the block.
    depth: usize,
    /// A statement begins.
    starts: bool,
    /// The scalar was made larger.
    grown: bool,
    /// How many tokens of the statement that does so follow.
    left: usize,
}

// What is known behind a token, or whether the loop is of the kind.
#[derive(Clone, Copy)]
pub enum Growth {
    GoesOn(Within),
    Ends(bool),
}

fn step_at(limit: Limit<'_>, within: Within, token: Token<'_, '_>, rest: Ahead<'_, '_, '_>) -> usize
    ensures value { result ≡ step_at (seen_limit limit.entry) (seen_within within) (seen token.entry ∷ ahead rest.entry) }
    ensures within { result < 6 }
{
    if within.starts && within.depth == 0 {
        step_len(limit, token, rest)
    } else {
        0
    }
}

/// Whether the token is that word.
pub fn is_continue(token: Token<'_, '_>) -> bool
    ensures { result ≡ is_word (codes "continue") (seen token.entry) }
{
    token.terminal.is_named(b"continue".as_slice())
}

// Behind a token that is no brace.
fn behind_other(
    limit: Limit<'_>,
    within: Within,
    token: Token<'_, '_>,
    rest: Ahead<'_, '_, '_>,
) -> Growth
    requires { within.depth ≤ 16 }
    ensures value { goes_on (seen_limit limit.entry) (ahead rest.entry) result ≡
        grows_other (seen_limit limit.entry) (seen_within within) (seen token.entry) (ahead rest.entry) }
    ensures within { is_shallow result }
{
    if is_continue(token) {
        return Growth::Ends(false);
    }
    let left = step_at(limit, within, token, rest);
    if left > 0 {
        if within.grown {
            return Growth::Ends(false);
        }
        return Growth::GoesOn(Within {
            starts: true,
            grown: true,
            left,
            ..within
        });
    }
    if changes(limit, token, rest) {
        return Growth::Ends(false);
    }
    Growth::GoesOn(Within {
        starts: is_boundary(token.terminal),
        left: 0,
        ..within
    })
}

// Behind a token.
fn behind(limit: Limit<'_>, within: Within, token: Token<'_, '_>, rest: Ahead<'_, '_, '_>) -> Growth
    requires { within.depth ≤ 16 }
    ensures value { goes_on (seen_limit limit.entry) (ahead rest.entry) result ≡
        grows (seen_limit limit.entry) (seen_within within) within.left (seen token.entry ∷ ahead rest.entry) }
    ensures within { is_shallow result }
{
    if within.left > 0 {
        return Growth::GoesOn(Within {
            left: within.left - 1,
            ..within
        });
    }
    if token.terminal.is_sign(Sign::CloseBrace) {
        if within.depth == 0 {
            return Growth::Ends(within.grown);
        }
        return Growth::GoesOn(Within {
            depth: within.depth - 1,
            starts: true,
            ..within
        });
    }
    if token.terminal.is_sign(Sign::OpenBrace) {
        if within.depth >= MAX_OPEN {
            return Growth::Ends(false);
        }
        return Growth::GoesOn(Within {
            depth: within.depth + 1,
            starts: true,
            ..within
        });
    }
    behind_other(limit, within, token, rest)
}

/// Whether one statement of the block whose tokens follow its brace makes the scalar larger, and nothing else in it
/// changes it.
pub fn grows(limit: Limit<'_>, start: Ahead<'_, '_, '_>) -> bool
    ensures { result ≡ grows (seen_limit limit.entry) (seen_at 0 true false) 0 (ahead start.entry) }
{
    let mut ahead = start;
    let mut within = Within {
        depth: 0,
        starts: true,
        grown: false,
        left: 0,
    };
    'tokens: while let Some(token) = ahead.next() {
        match behind(limit, within, token, ahead) {
            Growth::GoesOn(next) => within = next,
            Growth::Ends(grows) => return grows,
        }
    }
    false
}

// What follows so many tokens.
fn past<'a, 'l, 's>(start: Ahead<'a, 'l, 's>, count: usize) -> Ahead<'a, 'l, 's>
    ensures { ahead result ≡ drop count (ahead start.entry) }
{
    let mut ahead = start;
    let mut left = count;
    'tokens: while left > 0 {
        let before = ahead;
        let Some(_) = ahead.next() else {
            return before;
        };
        left -= 1;
    }
    ahead
}

// The limit, where a block follows whose turns make its scalar larger.
fn bounded_by<'a>(limit: Option<Limit<'a>>, rest: Ahead<'a, '_, '_>) -> Option<Limit<'a>>
    ensures { option_map seen_limit result ≡ bounded_by (ahead rest.entry) (option_map seen_limit limit.entry) }
{
    let limit = limit?;
    let mut ahead = rest;
    let open = ahead.next()?;
    if open.terminal.is_sign(Sign::OpenBrace) && grows(limit, ahead) {
        Some(limit)
    } else {
        None
    }
}

/// Of a condition in brackets and a block, which follow the word `while`: the scalar that the condition bounds, if each
/// turn makes it larger.
pub fn bounded<'a>(alloc: Global, start: Ahead<'a, '_, '_>) -> Result<Option<Limit<'a>>, AllocError>
    ensures { IfOk result (λ o. option_map seen_limit o ≡ bounded (ahead start.entry)) }
{
    let mut ahead = start;
    let Some(open) = ahead.next() else {
        return Ok(None);
    };
    if !open.terminal.is_sign(Sign::OpenParen) {
        return Ok(None);
    }
    let Some(len) = close_at(ahead) else {
        return Ok(None);
    };
    let condition = next_tokens(alloc, ahead, len)?;
    Ok(bounded_by(limit_in(&condition), past(ahead, len + 1)))
}
