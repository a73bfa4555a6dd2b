//! Scalars that a block declares without a value, which begin as zero.

ghost use Rattle.std.specs.Prelude.{◌≡◌, ◌++◌, IfOk, OnOk};
ghost use Rattle.c_grammar.specs.Unset.{is_unset, zero_for, zeroed};
ghost use Rattle.c_terminals.specs.Ahead.{ahead};
ghost use Rattle.c_written.specs.Counters.{seen_before};
ghost use Rattle.c_terminals.specs.Seen.{seen, seen_all};

use crate::boxes::depth_behind;
use crate::counters::Before;
use c_terminals::{Ahead, Terminal, Token};
use c_tokens::Sign;
use std::alloc::{AllocError, Global};

// Whether a scalar's name ends a declaration that way.
fn is_unset(depth: usize, before: Before, token: Token<'_, '_>, rest: Ahead<'_, '_, '_>) -> bool
    ensures { result ≡ is_unset depth (seen_before before) (seen token.entry) (ahead rest.entry) }
{
    if depth == 0 || !before.is_behind_type() || !token.terminal.is_name() {
        return false;
    }
    let mut ahead = rest;
    match ahead.next() {
        Some(next) => next.terminal.is_sign(Sign::Semicolon),
        None => false,
    }
}

// The value of a scalar that has none.
fn put_zero<'a, 'l>(
    done: &mut Vec<Token<'a, 'l>>,
    depth: usize,
    before: Before,
    token: Token<'a, 'l>,
    rest: Ahead<'a, 'l, '_>,
) -> Result<(), AllocError>
    ensures { OnOk result (seen_all done.new.items ≡
        seen_all done.old.items ++ zero_for depth (seen_before before) (seen token.entry) (ahead rest.entry)) }
{
    if is_unset(depth, before, token, rest) {
        done.push(token.at(Terminal::Sign(Sign::Equal)))?;
        done.push(token.at(Terminal::Number(0)))?;
    }
    Ok(())
}

/// The tokens with these values.
pub fn zeroed<'a, 'l>(
    alloc: Global,
    tokens: &[Token<'a, 'l>],
) -> Result<Vec<Token<'a, 'l>>, AllocError>
    ensures { IfOk result (λ v. seen_all v.items ≡ zeroed (seen_all tokens.now)) }
{
    let mut done = Vec::new(alloc);
    let mut depth = 0usize;
    let mut before = Before::Other;
    let mut rest = tokens;
    'tokens: while let [token, behind @ ..] = rest {
        rest = behind;
        done.push(*token)?;
        if !token.terminal.is_directive() {
            put_zero(&mut done, depth, before, *token, Ahead::new(behind))?;
            depth = depth_behind(*token, depth)?;
            before = before.behind(*token);
        }
    }
    Ok(done)
}
