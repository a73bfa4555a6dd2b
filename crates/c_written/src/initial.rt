//! Initializers of globals: what they set, a statement for each number.

ghost use Rattle.std.specs.Prelude.{◌≡◌, ◌&&◌, [], IfOk, OnOk, ◌++◌};
ghost use Rattle.std.specs.Option.{option_map};
ghost use Rattle.c_grammar.specs.Blocks.{bare};
ghost use Rattle.c_grammar.specs.Initial.{array_initial, cell_set, ends_list, initial, length_in, list_initial, scalar_initial, scalar_set, value_of};
ghost use Rattle.c_terminals.specs.Ahead.{ahead};
ghost use Rattle.c_written.specs.Globals.{seen_initial};
ghost use Rattle.c_terminals.specs.Seen.{seen, seen_all};

use crate::targets::is_sign;
use c_terminals::{Ahead, Terminal, Token};
use c_tokens::Sign;
use directives::Word;
use std::alloc::{AllocError, Global};

/// What an initializer sets, and how many tokens it has behind `=`.
#[derive(Drop)]
pub struct Initializer<'a, 'l> {
    pub len: usize,
    pub sets: Vec<Token<'a, 'l>>,
}

/// The number that a token is.
pub fn value_of(token: Token<'_, '_>) -> Option<u64>
    ensures { result ≡ value_of (seen token.entry).terminal }
{
    match token.terminal {
        Terminal::Number(value) => Some(value),
        _ => None,
    }
}

/// Adds `name = value;` at a token.
fn set_scalar<'a, 'l>(
    sets: &mut Vec<Token<'a, 'l>>,
    name: &'a [u8],
    token: Token<'a, 'l>,
    value: u64,
) -> Result<(), AllocError>
    ensures { OnOk result (seen_all sets.new.items ≡ seen_all sets.old.items ++ scalar_set name.now (seen token.entry) value) }
{
    sets.push(token.at(Terminal::Name(name)))?;
    sets.push(token.at(Terminal::Sign(Sign::Equal)))?;
    sets.push(token.at(Terminal::Number(value)))?;
    sets.push(token.at(Terminal::Sign(Sign::Semicolon)))?;
    Ok(())
}

/// Adds `name[cell] = value;` at a token.
fn set_cell<'a, 'l>(
    sets: &mut Vec<Token<'a, 'l>>,
    name: &'a [u8],
    cell: u64,
    token: Token<'a, 'l>,
    value: u64,
) -> Result<(), AllocError>
    ensures { OnOk result (seen_all sets.new.items ≡ seen_all sets.old.items ++ cell_set name.now cell (seen token.entry) value) }
{
    sets.push(token.at(Terminal::Name(name)))?;
    sets.push(token.at(Terminal::Sign(Sign::OpenBracket)))?;
    sets.push(token.at(Terminal::Number(cell)))?;
    sets.push(token.at(Terminal::Sign(Sign::CloseBracket)))?;
    sets.push(token.at(Terminal::Sign(Sign::Equal)))?;
    sets.push(token.at(Terminal::Number(value)))?;
    sets.push(token.at(Terminal::Sign(Sign::Semicolon)))?;
    Ok(())
}

/// A number, and the end of the declaration.
fn scalar_initial<'a, 'l>(
    alloc: Global,
    name: &'a [u8],
    start: Ahead<'a, 'l, '_>,
) -> Result<Option<Initializer<'a, 'l>>, AllocError>
    ensures { IfOk result (λ o. option_map seen_initial o ≡ scalar_initial name.now (ahead start.entry)) }
{
    let mut ahead = start;
    let Some(number) = ahead.next() else {
        return Ok(None);
    };
    if !is_sign(ahead.next(), Sign::Semicolon) {
        return Ok(None);
    }
    let Some(value) = value_of(number) else {
        return Ok(None);
    };
    let mut sets = Vec::new(alloc);
    set_scalar(&mut sets, name, number, value)?;
    Ok(Some(Initializer { len: 1, sets }))
}

/// Whether a list of numbers ends with these two tokens, and the declaration with it.
fn ends_list(sign: Token<'_, '_>, next: Token<'_, '_>) -> bool
    ensures { result ≡ ends_list (seen sign.entry) (seen next.entry) }
{
    sign.terminal.is_sign(Sign::CloseBrace) && next.terminal.is_sign(Sign::Semicolon)
}

/// Numbers up to a brace, no more than there are cells.
fn list_initial<'a, 'l>(
    alloc: Global,
    name: &'a [u8],
    length: u64,
    start: Ahead<'a, 'l, '_>,
) -> Result<Option<Initializer<'a, 'l>>, AllocError>
    ensures { IfOk result (λ o. option_map seen_initial o ≡ list_initial name.now length 0 [] (ahead start.entry)) }
{
    let mut ahead = start;
    let mut sets = Vec::new(alloc);
    let mut cell: u64 = 0;
    let mut len: usize = 3;
    'numbers: while let Some(number) = ahead.next() {
        let Some(sign) = ahead.next() else {
            return Ok(None);
        };
        let behind = ahead;
        let Some(next) = ahead.next() else {
            return Ok(None);
        };
        let Some(value) = value_of(number) else {
            return Ok(None);
        };
        if cell >= length {
            return Ok(None);
        }
        set_cell(&mut sets, name, cell, number, value)?;
        if ends_list(sign, next) {
            return Ok(Some(Initializer { len, sets }));
        }
        if !sign.terminal.is_sign(Sign::Comma) {
            return Ok(None);
        }
        cell += 1;
        len = len.checked_add(2).ok_or(AllocError)?;
        ahead = behind;
    }
    Ok(None)
}

/// Numbers in braces, no more than there are cells.
fn array_initial<'a, 'l>(
    alloc: Global,
    name: &'a [u8],
    length: u64,
    start: Ahead<'a, 'l, '_>,
) -> Result<Option<Initializer<'a, 'l>>, AllocError>
    ensures { IfOk result (λ o. option_map seen_initial o ≡ array_initial name.now length (ahead start.entry)) }
{
    let mut ahead = start;
    if is_sign(ahead.next(), Sign::OpenBrace) {
        return list_initial(alloc, name, length, ahead);
    }
    Ok(None)
}

/// The length between two brackets.
fn length_of(left: Token<'_, '_>, length: Token<'_, '_>, right: Token<'_, '_>) -> Option<u64>
    ensures { result ≡ length_in (seen left.entry) (seen length.entry) (seen right.entry) }
{
    if left.terminal.is_sign(Sign::OpenBracket) && right.terminal.is_sign(Sign::CloseBracket) {
        return value_of(length);
    }
    None
}

/// The initializer behind `=`, where a declaration up to there may have one.
pub fn initial<'a, 'l>(
    alloc: Global,
    since: &[Token<'a, 'l>],
    rest: &[Token<'a, 'l>],
) -> Result<Option<Initializer<'a, 'l>>, AllocError>
    ensures { IfOk result (λ o. option_map seen_initial o ≡ initial (seen_all since.now) (bare (seen_all rest.now))) }
{
    match since {
        [word, name] => match (word.terminal.is_word(Word::Uint64), name.terminal) {
            (true, Terminal::Name(name)) => scalar_initial(alloc, name, Ahead::new(rest)),
            _ => Ok(None),
        },
        [word, name, open, length, close] => match (
            word.terminal.is_word(Word::Uint64),
            name.terminal,
        ) {
            (true, Terminal::Name(name)) => match length_of(*open, *length, *close) {
                Some(length) => array_initial(alloc, name, length, Ahead::new(rest)),
                None => Ok(None),
            },
            _ => Ok(None),
        },
        _ => Ok(None),
    }
}
