//! Definitions of structs.

ghost use Rattle.std.specs.Prelude.{◌≡◌, IfOk, map};
ghost use Rattle.std.specs.Option.{option_map};
ghost use Rattle.c_grammar.specs.Structs.{OnType, begins_name, behind_typedef, body, braced, closes, definition_at, renamed, spot_behind, structured, with_own, with_tag, without_own};
ghost use Rattle.c_structs.specs.Definitions.{name_of, seen_body, seen_definition, seen_spot, seen_struct};
ghost use Rattle.c_terminals.specs.Ahead.{ahead};
ghost use Rattle.c_terminals.specs.Seen.{seen, seen_terminal};

use crate::structs::{Struct, is_struct_word, more, struct_of};
use c_terminals::{Ahead, Terminal, Token};
use c_tokens::Sign;
use directives::Word;
use std::alloc::AllocError;

/// In the brackets of a definition: a member's type, its name, or what is behind that.
#[derive(Clone, Copy)]
pub enum Spot {
    OnType,
    OnName,
    Behind,
}

/// What is in the brackets, with the one that closes: how many tokens, and what follows.
#[derive(Clone, Copy)]
struct Body<'a, 'l, 's> {
    len: usize,
    rest: Ahead<'a, 'l, 's>,
}

/// A definition, by the name behind the word `struct`, one of its own, or both.
#[derive(Clone, Copy)]
pub struct Definition<'a, 'l, 's> {
    pub tag: Option<&'a [u8]>,
    pub own: Option<&'a [u8]>,
    /// The tokens behind the bracket.
    pub members: Ahead<'a, 'l, 's>,
    /// How many tokens it has behind its first.
    pub len: usize,
}

fn spot_behind(spot: Spot, terminal: Terminal<'_, '_>) -> Option<Spot>
    ensures { option_map seen_spot result ≡ spot_behind (seen_spot spot) (seen_terminal terminal.entry) }
{
    match spot {
        Spot::OnType => {
            if terminal.is_word(Word::Uint64) {
                return Some(Spot::OnName);
            }
        }
        Spot::OnName => {
            if terminal.is_name() {
                return Some(Spot::Behind);
            }
        }
        Spot::Behind => {
            if terminal.is_sign(Sign::Comma) {
                return Some(Spot::OnName);
            }
            if terminal.is_sign(Sign::Semicolon) {
                return Some(Spot::OnType);
            }
        }
    }
    None
}

// Whether the bracket closes, behind so many tokens.
fn closes(spot: Spot, len: usize, terminal: Terminal<'_, '_>) -> bool
    ensures { result ≡ closes (seen_spot spot) len (seen_terminal terminal.entry) }
{
    match spot {
        Spot::OnType => len > 0 && terminal.is_sign(Sign::CloseBrace),
        Spot::OnName | Spot::Behind => false,
    }
}

fn body_of<'a, 'l, 's>(start: Ahead<'a, 'l, 's>) -> Result<Option<Body<'a, 'l, 's>>, AllocError>
    ensures { IfOk result (λ o. option_map seen_body o ≡ body OnType 0 (ahead start.entry)) }
{
    let mut ahead = start;
    let mut spot = Spot::OnType;
    let mut len = 0usize;
    'tokens: while let Some(token) = ahead.next() {
        let tokens = more(len, 1)?;
        if closes(spot, len, token.terminal) {
            return Ok(Some(Body {
                len: tokens,
                rest: ahead,
            }));
        }
        let Some(next) = spot_behind(spot, token.terminal) else {
            return Ok(None);
        };
        spot = next;
        len = tokens;
    }
    Ok(None)
}

// `NAME ;` behind the brackets.
fn with_own<'a, 'l, 's>(
    tag: Option<&'a [u8]>,
    members: Ahead<'a, 'l, 's>,
    before: usize,
    rest: Ahead<'a, 'l, 's>,
) -> Result<Option<Definition<'a, 'l, 's>>, AllocError>
    ensures { IfOk result (λ o. option_map seen_definition o ≡
        with_own (option_map name_of tag.entry) (ahead members.entry) before (ahead rest.entry)) }
{
    let mut ahead = rest;
    let Some(named) = ahead.next() else {
        return Ok(None);
    };
    let Some(end) = ahead.next() else {
        return Ok(None);
    };
    if !end.terminal.is_sign(Sign::Semicolon) {
        return Ok(None);
    }
    let len = more(before, 2)?;
    match named.terminal {
        Terminal::Name(name) => Ok(Some(Definition {
            tag,
            own: Some(name),
            members,
            len,
        })),
        _ => Ok(None),
    }
}

// `;` behind the brackets.
fn without_own<'a, 'l, 's>(
    tag: Option<&'a [u8]>,
    members: Ahead<'a, 'l, 's>,
    before: usize,
    rest: Ahead<'a, 'l, 's>,
) -> Result<Option<Definition<'a, 'l, 's>>, AllocError>
    ensures { IfOk result (λ o. option_map seen_definition o ≡
        without_own (option_map name_of tag.entry) (ahead members.entry) before (ahead rest.entry)) }
{
    let mut ahead = rest;
    let Some(end) = ahead.next() else {
        return Ok(None);
    };
    if !end.terminal.is_sign(Sign::Semicolon) {
        return Ok(None);
    }
    let len = more(before, 1)?;
    Ok(Some(Definition {
        tag,
        own: None,
        members,
        len,
    }))
}

// Behind the word `struct` and a name, if it has one. So many tokens stand between the first and here.
fn braced<'a, 'l, 's>(
    owns: bool,
    tag: Option<&'a [u8]>,
    before: usize,
    rest: Ahead<'a, 'l, 's>,
) -> Result<Option<Definition<'a, 'l, 's>>, AllocError>
    ensures { IfOk result (λ o. option_map seen_definition o ≡
        braced owns (option_map name_of tag.entry) before (ahead rest.entry)) }
{
    let mut ahead = rest;
    let Some(open) = ahead.next() else {
        return Ok(None);
    };
    if !open.terminal.is_sign(Sign::OpenBrace) {
        return Ok(None);
    }
    let Some(body) = body_of(ahead)? else {
        return Ok(None);
    };
    let len = more(more(before, 1)?, body.len)?;
    if owns {
        return with_own(tag, ahead, len, body.rest);
    }
    without_own(tag, ahead, len, body.rest)
}

// One more name of a struct.
fn renamed<'a, 'l, 's>(
    before: usize,
    rest: Ahead<'a, 'l, 's>,
    of: Option<Struct<'a, 'l, 's>>,
) -> Result<Option<Definition<'a, 'l, 's>>, AllocError>
    ensures { IfOk result (λ o. option_map seen_definition o ≡ renamed before (ahead rest.entry) (option_map seen_struct of.entry)) }
{
    match of {
        Some(of) => with_own(None, of.members, before, rest),
        None => Ok(None),
    }
}

fn begins_name(rest: Ahead<'_, '_, '_>) -> bool
    ensures { result ≡ begins_name (ahead rest.entry) }
{
    let mut ahead = rest;
    match ahead.next() {
        Some(token) => token.terminal.is_name(),
        None => false,
    }
}

// Behind the word `struct` and a name.
fn with_tag<'a, 'l, 's>(
    structs: &[Struct<'a, 'l, 's>],
    owns: bool,
    before: usize,
    name: &'a [u8],
    rest: Ahead<'a, 'l, 's>,
) -> Result<Option<Definition<'a, 'l, 's>>, AllocError>
    ensures { IfOk result (λ o. option_map seen_definition o ≡
        with_tag (map seen_struct structs.now) owns before name.now (ahead rest.entry)) }
{
    if owns && begins_name(rest) {
        return renamed(before, rest, struct_of(structs, true, name));
    }
    braced(owns, Some(name), before, rest)
}

// Behind the word `struct`.
fn structured<'a, 'l, 's>(
    structs: &[Struct<'a, 'l, 's>],
    owns: bool,
    before: usize,
    rest: Ahead<'a, 'l, 's>,
) -> Result<Option<Definition<'a, 'l, 's>>, AllocError>
    ensures { IfOk result (λ o. option_map seen_definition o ≡
        structured (map seen_struct structs.now) owns before (ahead rest.entry)) }
{
    let mut ahead = rest;
    let Some(next) = ahead.next() else {
        return Ok(None);
    };
    if let Terminal::Name(name) = next.terminal {
        return with_tag(structs, owns, more(before, 1)?, name, ahead);
    }
    if owns {
        return braced(true, None, before, rest);
    }
    Ok(None)
}

// Behind the word `typedef`.
fn behind_typedef<'a, 'l, 's>(
    structs: &[Struct<'a, 'l, 's>],
    rest: Ahead<'a, 'l, 's>,
) -> Result<Option<Definition<'a, 'l, 's>>, AllocError>
    ensures { IfOk result (λ o. option_map seen_definition o ≡
        behind_typedef (map seen_struct structs.now) (ahead rest.entry)) }
{
    let mut ahead = rest;
    let Some(next) = ahead.next() else {
        return Ok(None);
    };
    if is_struct_word(next) {
        return structured(structs, true, 1, ahead);
    }
    Ok(None)
}

/// What the token defines, where these structs are known.
pub fn definition_at<'a, 'l, 's>(
    structs: &[Struct<'a, 'l, 's>],
    token: Token<'a, 'l>,
    rest: Ahead<'a, 'l, 's>,
) -> Result<Option<Definition<'a, 'l, 's>>, AllocError>
    ensures { IfOk result (λ o. option_map seen_definition o ≡
        definition_at (map seen_struct structs.now) (seen token.entry) (ahead rest.entry)) }
{
    if is_struct_word(token) {
        return structured(structs, false, 0, rest);
    }
    if token.terminal.is_named(b"typedef") {
        return behind_typedef(structs, rest);
    }
    Ok(None)
}
