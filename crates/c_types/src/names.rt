//! Names that are noted once, and what follows them.

ghost use Rattle.std.specs.Prelude.{◌≡◌, OnOk};
ghost use Rattle.c_grammar.specs.Choices.{opens};
ghost use Rattle.c_grammar.specs.Constants.{is_mark};
ghost use Rattle.c_grammar.specs.Lasting.{begins_change};
ghost use Rattle.c_grammar.specs.Types.{ends, fits, name_of, named_behind, next_is, noted};
ghost use Rattle.c_terminals.specs.Ahead.{ahead};
ghost use Rattle.c_terminals.specs.Names.{seen_names};
ghost use Rattle.c_terminals.specs.Seen.{seen, seen_terminal};

use crate::kinds::is_qualifier;
use crate::states::{opens, steps};
use c_choices::is_setting;
use c_terminals::{Ahead, Names, Terminal, Token};
use c_tokens::Sign;
use std::alloc::AllocError;

/// Of each kind so many names are noted.
pub const MOST_NAMES: usize = 1024;

/// With the name, if there is room.
pub fn note<'a>(names: &mut Names<'a>, name: &'a [u8]) -> Result<(), AllocError>
    ensures { OnOk result (seen_names names.new ≡ noted name.now (seen_names names.old)) }
{
    if names.contains(name) || names.len() >= MOST_NAMES {
        return Ok(());
    }
    names.declare(name)
}

/// Whether all names could be noted.
pub fn fits(names: &Names<'_>) -> bool
    ensures { result ≡ fits (seen_names names.now) }
{
    names.len() < MOST_NAMES
}

/// The name that a token is, or none.
pub fn name_of<'a>(terminal: Terminal<'a, '_>) -> &'a [u8]
    ensures { result.now ≡ name_of (seen_terminal terminal.entry) }
{
    match terminal {
        Terminal::Name(name) => name,
        _ => b"".as_slice(),
    }
}

/// Whether the sign is next.
pub fn next_is(rest: Ahead<'_, '_, '_>, sign: Sign) -> bool
    ensures { result ≡ next_is (is_mark sign) (ahead rest.entry) }
{
    let mut ahead = rest;
    match ahead.next() {
        Some(token) => token.terminal.is_sign(sign),
        None => false,
    }
}

/// Whether a bracket opens next.
pub fn next_opens(rest: Ahead<'_, '_, '_>) -> bool
    ensures { result ≡ next_is opens (ahead rest.entry) }
{
    let mut ahead = rest;
    match ahead.next() {
        Some(token) => opens(token),
        None => false,
    }
}

/// Whether a sign follows that changes what stands before it.
pub fn begins_change(rest: Ahead<'_, '_, '_>) -> bool
    ensures { result ≡ begins_change (ahead rest.entry) }
{
    let mut ahead = rest;
    match ahead.next() {
        Some(token) => is_setting(token.terminal) || steps(token),
        None => false,
    }
}

/// Whether a value ends before the token.
pub fn ends(token: Token<'_, '_>) -> bool
    ensures { result ≡ ends (seen token.entry) }
{
    token.terminal.is_sign(Sign::Semicolon) || token.terminal.is_sign(Sign::Comma)
}

/// The name that a type stands before, or none.
pub fn named_behind<'a>(rest: Ahead<'a, '_, '_>) -> &'a [u8]
    ensures { result.now ≡ named_behind (ahead rest.entry) }
{
    let mut ahead = rest;
    'words: while let Some(token) = ahead.next() {
        if !token.terminal.is_sign(Sign::Star) && !is_qualifier(token.terminal) {
            return name_of(token.terminal);
        }
    }
    b"".as_slice()
}
