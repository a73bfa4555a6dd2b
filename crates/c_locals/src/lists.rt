//! Lists of values, as assignments.

ghost use Rattle.std.specs.Prelude.{◌≡◌, ◌++◌, drop, IfOk, OnOk};
ghost use Rattle.std.specs.Option.{option_map};
ghost use Rattle.c_grammar.specs.Locals.{in_settings, list_len, listed_put, next_setting, setting, settings};
ghost use Rattle.c_terminals.specs.Seen.{seen, seen_all};
ghost use Rattle.c_locals.specs.Declarations.{seen_declared};
ghost use Rattle.c_locals.specs.Puts.{seen_put, seen_state};

use crate::declarations::{Declared, is_ended};
use crate::puts::{Put, State, parted};
use c_choices::brackets_behind;
use c_terminals::{Terminal, Token};
use c_tokens::Sign;
use std::alloc::{AllocError, Global};

// How many tokens stand before the brace that closes the list and the semicolon.
fn list_len(tokens: &[Token<'_, '_>]) -> Option<usize>
    ensures { result ≡ list_len 0 (seen_all tokens.now) }
{
    let mut len = 0usize;
    let mut rest = tokens;
    'tokens: while let [token, behind @ ..] = rest {
        if token.terminal.is_sign(Sign::CloseBrace) {
            return if is_ended(behind) { Some(len) } else { None };
        }
        if token.terminal.is_sign(Sign::OpenBrace) || token.terminal.is_sign(Sign::Semicolon) {
            return None;
        }
        len += 1;
        rest = behind;
    }
    None
}

// `NAME[NUM] =`
fn put_setting<'a, 'l>(
    done: &mut Vec<Token<'a, 'l>>,
    token: Token<'a, 'l>,
    name: &'a [u8],
    cell: usize,
) -> Result<(), AllocError>
    ensures { OnOk result (seen_all done.new.items ≡ seen_all done.old.items ++ setting (seen token.entry) name.now cell) }
{
    done.push(token.at(Terminal::Name(name)))?;
    done.push(token.at(Terminal::Sign(Sign::OpenBracket)))?;
    done.push(token.at(Terminal::Number(cell as u64)))?;
    done.push(token.at(Terminal::Sign(Sign::CloseBracket)))?;
    done.push(token.at(Terminal::Sign(Sign::Equal)))?;
    Ok(())
}

// At a comma, which may stand behind the last value.
fn put_next<'a, 'l>(
    done: &mut Vec<Token<'a, 'l>>,
    token: Token<'a, 'l>,
    name: &'a [u8],
    cell: usize,
    behind: &[Token<'_, '_>],
) -> Result<(), AllocError>
    ensures { OnOk result (seen_all done.new.items ≡
        seen_all done.old.items ++ next_setting (seen token.entry) name.now cell (seen_all behind.now)) }
{
    if behind.is_empty() {
        return Ok(());
    }
    done.push(token.at(Terminal::Sign(Sign::Semicolon)))?;
    put_setting(done, token, name, cell)
}

// The values from the first cell on.
fn put_settings<'a, 'l>(
    done: &mut Vec<Token<'a, 'l>>,
    name: &'a [u8],
    tokens: &[Token<'a, 'l>],
) -> Result<(), AllocError>
    ensures { OnOk result (seen_all done.new.items ≡ seen_all done.old.items ++ settings name.now 0 0 (seen_all tokens.now)) }
{
    let mut cell = 0usize;
    let mut brackets = 0usize;
    let mut rest = tokens;
    'tokens: while let [token, behind @ ..] = rest {
        if brackets == 0 && token.terminal.is_sign(Sign::Comma) {
            cell += 1;
            put_next(done, *token, name, cell, behind)?;
        } else {
            done.push(*token)?;
            brackets = brackets_behind(*token, brackets);
        }
        rest = behind;
    }
    Ok(())
}

// `NAME[NUM];` and the assignments.
fn put_list<'a, 'l>(
    done: &mut Vec<Token<'a, 'l>>,
    front: &[Token<'a, 'l>],
    own: Declared<'a, 'l>,
    tokens: &[Token<'a, 'l>],
) -> Result<(), AllocError>
    ensures { OnOk result (seen_all done.new.items ≡
        seen_all done.old.items ++ in_settings (seen_all front.now) (seen_declared own.entry) (seen_all tokens.now)) }
{
    done.extend_from_slice(front)?;
    done.push(own.token.at(Terminal::Sign(Sign::Semicolon)))?;
    put_setting(done, own.token, own.name, 0)?;
    put_settings(done, own.name, tokens)?;
    done.push(own.token.at(Terminal::Sign(Sign::Semicolon)))?;
    Ok(())
}

/// The declaration by a type before these tokens, with its list.
pub fn listed_put<'a, 'l>(
    alloc: Global,
    state: &State<'a>,
    token: Token<'a, 'l>,
    tokens: &[Token<'a, 'l>],
    own: Declared<'a, 'l>,
) -> Result<Option<Put<'a, 'l>>, AllocError>
    ensures { IfOk result (λ o. option_map (seen_put (seen_state state.now)) o ≡
        listed_put (seen_state state.now) (seen token.entry) (seen_all tokens.now) (seen_declared own.entry)
        (list_len 0 (drop 6 (seen_all tokens.now)))) }
{
    let (_, behind) = parted(tokens, 6);
    let Some(len) = list_len(behind) else {
        return Ok(None);
    };
    let (front, _) = parted(tokens, 4);
    let (list, _) = parted(behind, len);
    let mut done = Vec::new(alloc);
    done.push(token)?;
    put_list(&mut done, front, own, list)?;
    let skip = len.checked_add(8).ok_or(AllocError)?;
    Ok(Some(Put {
        tokens: done,
        array: Some(own.array(0)),
        used: state.used,
        skip,
    }))
}
