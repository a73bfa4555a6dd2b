//! Arrays in place of the global pointers to which `main` gives what `malloc` answers.

ghost use Rattle.std.specs.Prelude.{◌≡◌, ◌++◌, Some, IfOk};
ghost use Rattle.std.specs.Option.{option_map};
ghost use Rattle.c_grammar.specs.Pointers.{allocation_at, array_put, begin, empty_block, global_put, is_given, is_let_go, pointed, pointed_in, put_at, rest_len, statement_put};
ghost use Rattle.c_grammar.specs.Allocations.{freed};
ghost use Rattle.c_terminals.specs.Ahead.{ahead};
ghost use Rattle.c_terminals.specs.Held.{written_all};
ghost use Rattle.c_terminals.specs.Seen.{seen, seen_all};
ghost use Rattle.c_written.specs.Allocations.{seen_cells};
ghost use Rattle.c_written.specs.Pointers.{seen_found, seen_place, seen_put};

use crate::allocations::{Cells, freed};
use crate::pointers::{Found, Place, allocation_at, is_pointer, scanned};
use crate::presence::guarded;
use c_terminals::{Ahead, Terminal, Token, Written};
use c_tokens::Sign;
use directives::Word;
use std::alloc::{AllocError, Global};

/// What is written for a token, and for so many behind it.
#[derive(Drop)]
struct Put<'a, 'l> {
    tokens: Vec<Token<'a, 'l>>,
    len: usize,
}

/// The tokens so far.
#[derive(Drop)]
struct Arrays<'a, 'l> {
    done: Vec<Token<'a, 'l>>,
    place: Place,
    /// How many tokens are still to be left out.
    left: usize,
}

// The array up to the semicolon.
fn array_put<'a, 'l>(
    alloc: Global,
    token: Token<'a, 'l>,
    named: Token<'a, 'l>,
    name: &'a [u8],
    cells: Cells<'a, 'l>,
) -> Result<Put<'a, 'l>, AllocError>
    ensures { IfOk result (λ p. Some (seen_put p) ≡
        array_put (seen token.entry) (seen named.entry) name.now (Some (seen_cells cells.entry))) }
{
    let mut tokens = Vec::new(alloc);
    tokens.push(token.at(Terminal::Word(Word::Uint64)))?;
    tokens.push(named.at(Terminal::Name(name)))?;
    tokens.push(cells.place.at(Terminal::Sign(Sign::OpenBracket)))?;
    tokens.push(cells.place.at(Terminal::Number(cells.number)))?;
    tokens.push(cells.place.at(Terminal::Sign(Sign::CloseBracket)))?;
    Ok(Put { tokens, len: 2 })
}

fn global_put<'a, 'l>(
    alloc: Global,
    found: &Found<'a, 'l>,
    token: Token<'a, 'l>,
    rest: Ahead<'a, 'l, '_>,
) -> Result<Option<Put<'a, 'l>>, AllocError>
    ensures { IfOk result (λ o. option_map seen_put o ≡
        global_put (seen_found found.now) (seen token.entry) (ahead rest.entry)) }
{
    if !is_pointer(token, rest) {
        return Ok(None);
    }
    let mut ahead = rest;
    if ahead.next().is_none() {
        return Ok(None);
    }
    let Some(named) = ahead.next() else {
        return Ok(None);
    };
    let Terminal::Name(name) = named.terminal else {
        return Ok(None);
    };
    match found.cells_for(name) {
        Some(cells) => Ok(Some(array_put(alloc, token, named, name, cells)?)),
        None => Ok(None),
    }
}

// How many tokens there are up to the semicolon.
fn rest_len(start: Ahead<'_, '_, '_>) -> Result<usize, AllocError>
    ensures { IfOk result (λ n. n ≡ rest_len 0 (ahead start.entry)) }
{
    let mut ahead = start;
    let mut len = 0usize;
    'tokens: while let Some(token) = ahead.next() {
        len = len.checked_add(1).ok_or(AllocError)?;
        if token.terminal.is_sign(Sign::Semicolon) {
            return Ok(len);
        }
    }
    Ok(len)
}

fn empty_block<'a, 'l>(
    alloc: Global,
    token: Token<'a, 'l>,
    rest: Ahead<'a, 'l, '_>,
) -> Result<Put<'a, 'l>, AllocError>
    ensures { IfOk result (λ p. seen_put p ≡ empty_block (seen token.entry) (ahead rest.entry)) }
{
    let mut tokens = Vec::new(alloc);
    tokens.push(token.at(Terminal::Sign(Sign::OpenBrace)))?;
    tokens.push(token.at(Terminal::Sign(Sign::CloseBrace)))?;
    let len = rest_len(rest)?;
    Ok(Put { tokens, len })
}

// Whether the statement gives a pointer its cells.
fn is_given<'a, 'l>(found: &Found<'a, 'l>, token: Token<'a, 'l>, rest: Ahead<'a, 'l, '_>) -> bool
    ensures { result ≡ is_given (seen_found found.now) (allocation_at (seen token.entry) (ahead rest.entry)) }
{
    match allocation_at(token, rest) {
        Some(array) => found.is_array(array.name),
        None => false,
    }
}

// Whether the statement frees them.
fn is_let_go<'a, 'l>(found: &Found<'a, 'l>, token: Token<'a, 'l>, rest: Ahead<'a, 'l, '_>) -> bool
    ensures { result ≡ is_let_go (seen_found found.now) (freed (seen token.entry) (ahead rest.entry)) }
{
    match freed(token, rest) {
        Some(name) => found.is_array(name),
        None => false,
    }
}

fn statement_put<'a, 'l>(
    alloc: Global,
    found: &Found<'a, 'l>,
    token: Token<'a, 'l>,
    rest: Ahead<'a, 'l, '_>,
) -> Result<Option<Put<'a, 'l>>, AllocError>
    ensures { IfOk result (λ o. option_map seen_put o ≡
        statement_put (seen_found found.now) (seen token.entry) (ahead rest.entry)) }
{
    if is_given(found, token, rest) || is_let_go(found, token, rest) {
        return Ok(Some(empty_block(alloc, token, rest)?));
    }
    Ok(None)
}

fn put_at<'a, 'l>(
    alloc: Global,
    found: &Found<'a, 'l>,
    place: Place,
    token: Token<'a, 'l>,
    rest: Ahead<'a, 'l, '_>,
) -> Result<Option<Put<'a, 'l>>, AllocError>
    ensures { IfOk result (λ o. option_map seen_put o ≡
        put_at (seen_found found.now) (seen_place place) (seen token.entry) (ahead rest.entry)) }
{
    if place.at_global() {
        return global_put(alloc, found, token, rest);
    }
    if place.at_statement() {
        return statement_put(alloc, found, token, rest);
    }
    Ok(None)
}

impl<'a, 'l> Arrays<'a, 'l> {
    ghost use Rattle.std.specs.Prelude.{◌≡◌, ◌∷◌, OnOk};
    ghost use Rattle.c_terminals.specs.Seen.{seen, seen_all};
    ghost use Rattle.c_written.specs.Pointers.{seen_found, with_pointed};

    // The next token, before others.
    fn take(
        &mut self,
        alloc: Global,
        found: &Found<'a, 'l>,
        token: Token<'a, 'l>,
        rest: &[Token<'a, 'l>],
    ) -> Result<(), AllocError>
        ensures { OnOk result (with_pointed (seen_found found.now) self.old (seen token.entry ∷ seen_all rest.now) ≡
            with_pointed (seen_found found.now) self.new (seen_all rest.now)) }
    {
        if token.terminal.is_directive() {
            self.done.push(token)?;
            return Ok(());
        }
        if self.left > 0 {
            self.left -= 1;
            return Ok(());
        }
        let ahead = Ahead::new(rest);
        if let Some(put) = put_at(alloc, found, self.place, token, ahead)? {
            self.done.extend_from_slice(&put.tokens)?;
            self.left = put.len;
            return Ok(());
        }
        self.done.push(token)?;
        self.place = self.place.behind(token, ahead)?;
        Ok(())
    }
}

// The tokens with these arrays.
fn with_arrays<'a, 'l>(
    alloc: Global,
    found: &Found<'a, 'l>,
    tokens: &[Token<'a, 'l>],
) -> Result<Vec<Token<'a, 'l>>, AllocError>
    ensures { IfOk result (λ v. seen_all v.items ≡ pointed_in (seen_found found.now) begin 0 (seen_all tokens.now)) }
{
    let mut arrays = Arrays {
        done: Vec::new(alloc),
        place: Place::begin(),
        left: 0,
    };
    let mut rest = tokens;
    'tokens: while let [token, behind @ ..] = rest {
        arrays.take(alloc, found, *token, behind)?;
        rest = behind;
    }
    Ok(arrays.done)
}

/// The tokens with these arrays. Where a target uses one and does not map it, its line says that it is present.
pub fn pointed<'a>(alloc: Global, tokens: &[Token<'a, '_>]) -> Result<Vec<Written<'a>>, AllocError>
    ensures { IfOk result (λ v. written_all v.items ≡ pointed (seen_all tokens.now)) }
{
    let found = scanned(alloc, tokens)?;
    let names = found.arrays(alloc)?;
    let all = with_arrays(alloc, &found, tokens)?;
    guarded(alloc, &names, &all)
}
