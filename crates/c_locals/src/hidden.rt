//! Local arrays that have the name of a global.

ghost use Rattle.std.specs.Prelude.{◌≡◌, IfOk, OnOk, []};
ghost use Rattle.c_grammar.specs.Blocks.{bare};
ghost use Rattle.c_grammar.specs.Constants.{depth_behind, with_global};
ghost use Rattle.c_grammar.specs.Locals.{declares_array, hides, is_taken, with_outer};
ghost use Rattle.c_terminals.specs.Ahead.{ahead};
ghost use Rattle.c_terminals.specs.Names.{seen_names};
ghost use Rattle.c_terminals.specs.Seen.{seen, seen_all};

use crate::cells::MAX_CELLS;
use c_terminals::{Ahead, Names, Terminal, Token};
use c_tokens::Sign;
use directives::Word;
use std::alloc::{AllocError, Global};

// How many blocks are open behind a token.
fn depth_behind(token: Token<'_, '_>, depth: usize) -> Result<usize, AllocError>
    ensures { IfOk result (λ d. d ≡ depth_behind (seen token.entry).terminal depth) }
{
    if token.terminal.is_sign(Sign::OpenBrace) {
        return depth.checked_add(1).ok_or(AllocError);
    }
    if token.terminal.is_sign(Sign::CloseBrace) {
        return Ok(depth.saturating_sub(1));
    }
    Ok(depth)
}

// Whether a block declares an array.
fn declares_array(depth: usize, token: Token<'_, '_>, rest: Ahead<'_, '_, '_>) -> bool
    ensures { result ≡ declares_array depth (seen token.entry) (ahead rest.entry) }
{
    let mut ahead = rest;
    let Some(_) = ahead.next() else {
        return false;
    };
    let Some(bracket) = ahead.next() else {
        return false;
    };
    depth != 0
        && token.terminal.is_word(Word::Uint64)
        && bracket.terminal.is_sign(Sign::OpenBracket)
}

// Whether the next token is one of these names.
fn is_taken(names: &Names<'_>, rest: Ahead<'_, '_, '_>) -> bool
    ensures { result ≡ is_taken (seen_names names.now) (ahead rest.entry) }
{
    let mut ahead = rest;
    match ahead.next() {
        Some(token) => match token.terminal {
            Terminal::Name(name) => names.contains(name),
            _ => false,
        },
        None => false,
    }
}

// With the name that is declared behind a type.
fn declare<'a>(
    names: &mut Names<'a>,
    token: Token<'a, '_>,
    rest: Ahead<'a, '_, '_>,
) -> Result<(), AllocError>
    ensures { OnOk result (seen_names names.new ≡ with_global (seen token.entry).terminal (ahead rest.entry) (seen_names names.old)) }
{
    let mut ahead = rest;
    let Some(next) = ahead.next() else {
        return Ok(());
    };
    if let Terminal::Name(name) = next.terminal {
        if token.terminal.is_word(Word::Uint64) {
            names.declare(name)?;
        }
    }
    Ok(())
}

// The same where no block is open.
fn declare_outer<'a>(
    depth: usize,
    names: &mut Names<'a>,
    token: Token<'a, '_>,
    rest: Ahead<'a, '_, '_>,
) -> Result<(), AllocError>
    ensures { OnOk result (seen_names names.new ≡ with_outer depth (seen token.entry) (ahead rest.entry) (seen_names names.old)) }
{
    if depth == 0 {
        declare(names, token, rest)?;
    }
    Ok(())
}

/// Whether one of the first so many arrays of blocks has the name of a global.
pub fn hides(alloc: Global, tokens: &[Token<'_, '_>]) -> Result<bool, AllocError>
    ensures { IfOk result (λ b. b ≡ hides (bare (seen_all tokens.now))) }
{
    let mut ahead = Ahead::new(tokens);
    let mut names = Names::new(alloc);
    let (mut left, mut depth) = (MAX_CELLS, 0_usize);
    'tokens: while let Some(token) = ahead.next() {
        if declares_array(depth, token, ahead) {
            if left == 0 {
                return Ok(false);
            }
            if is_taken(&names, ahead) {
                return Ok(true);
            }
            left -= 1;
        } else {
            declare_outer(depth, &mut names, token, ahead)?;
        }
        depth = depth_behind(token, depth)?;
    }
    Ok(false)
}
