//! The pass over all tokens.

ghost use Rattle.std.specs.Prelude.{◌≡◌, ◌++◌, [], IfOk, OnOk, Some};
ghost use Rattle.std.specs.Option.{option_map};
ghost use Rattle.c_grammar.specs.Structs.{arrow_put, count, declared, declared_put, definition_at, definition_put, dot_put, in_rows, index_at, lengths, member_put, name_put, number_of, put_at, put_behind, row_length};
ghost use Rattle.c_structs.specs.Found.{seen_found};
ghost use Rattle.c_structs.specs.Rows.{seen_before, seen_put, seen_state};
ghost use Rattle.c_terminals.specs.Ahead.{ahead};
ghost use Rattle.c_terminals.specs.Seen.{seen, seen_all};

use crate::declarations::{Form, declaration_at};
use crate::definitions::definition_at;
use crate::found::{Found, scanned};
use crate::members::{count, number_of};
use crate::state::{Before, State};
use c_terminals::{Ahead, Terminal, Token};
use c_tokens::Sign;
use directives::Word;
use std::alloc::{AllocError, Global};

/// What is written for a token, and for so many behind it, and what then stands before the next one.
#[derive(Drop)]
struct Put<'a, 'l, 's> {
    tokens: Vec<Token<'a, 'l>>,
    len: usize,
    before: Before<'a, 'l, 's>,
}

/// The tokens so far.
#[derive(Drop)]
struct Rows<'a, 'l, 's> {
    done: Vec<Token<'a, 'l>>,
    state: State<'a, 'l, 's>,
    /// How many tokens are still to be left out.
    left: usize,
}

// The number in brackets.
fn put_index<'a, 'l>(
    done: &mut Vec<Token<'a, 'l>>,
    token: Token<'a, 'l>,
    number: usize,
) -> Result<(), AllocError>
    ensures { OnOk result (seen_all done.new.items ≡ seen_all done.old.items ++ index_at (seen token.entry) number) }
{
    done.push(token.at(Terminal::Sign(Sign::OpenBracket)))?;
    done.push(token.at(Terminal::Number(number as u64)))?;
    done.push(token.at(Terminal::Sign(Sign::CloseBracket)))?;
    Ok(())
}

// The member of one struct, in its only row.
fn only_put<'a, 'l, 's>(
    alloc: Global,
    token: Token<'a, 'l>,
    len: usize,
    number: Option<usize>,
) -> Result<Option<Put<'a, 'l, 's>>, AllocError>
    ensures { IfOk result (λ o. option_map seen_put o ≡
        member_put (seen token.entry) (index_at (seen token.entry) 0) len number) }
{
    let Some(number) = number else {
        return Ok(None);
    };
    let mut tokens = Vec::new(alloc);
    put_index(&mut tokens, token, 0)?;
    put_index(&mut tokens, token, number)?;
    Ok(Some(Put {
        tokens,
        len,
        before: Before::Nothing,
    }))
}

// The member in the row that stands before it.
fn row_put<'a, 'l, 's>(
    alloc: Global,
    token: Token<'a, 'l>,
    number: Option<usize>,
) -> Result<Option<Put<'a, 'l, 's>>, AllocError>
    ensures { IfOk result (λ o. option_map seen_put o ≡ member_put (seen token.entry) [] 1 number) }
{
    let Some(number) = number else {
        return Ok(None);
    };
    let mut tokens = Vec::new(alloc);
    put_index(&mut tokens, token, number)?;
    Ok(Some(Put {
        tokens,
        len: 1,
        before: Before::Nothing,
    }))
}

// At a dot.
fn dot_put<'a, 'l, 's>(
    alloc: Global,
    before: Before<'a, 'l, 's>,
    token: Token<'a, 'l>,
    rest: Ahead<'a, 'l, 's>,
) -> Result<Option<Put<'a, 'l, 's>>, AllocError>
    ensures { IfOk result (λ o. option_map seen_put o ≡
        dot_put (seen_before before.entry) (seen token.entry) (ahead rest.entry)) }
{
    let mut ahead = rest;
    let Some(member) = ahead.next() else {
        return Ok(None);
    };
    match before {
        Before::OfOne(members) => only_put(alloc, token, 1, number_of(members, member.terminal)?),
        Before::OfRow(members) => row_put(alloc, token, number_of(members, member.terminal)?),
        _ => Ok(None),
    }
}

// At a minus sign.
fn arrow_put<'a, 'l, 's>(
    alloc: Global,
    before: Before<'a, 'l, 's>,
    token: Token<'a, 'l>,
    rest: Ahead<'a, 'l, 's>,
) -> Result<Option<Put<'a, 'l, 's>>, AllocError>
    ensures { IfOk result (λ o. option_map seen_put o ≡
        arrow_put (seen_before before.entry) (seen token.entry) (ahead rest.entry)) }
{
    let Before::OfMany(members) = before else {
        return Ok(None);
    };
    let mut ahead = rest;
    let Some(greater) = ahead.next() else {
        return Ok(None);
    };
    let Some(member) = ahead.next() else {
        return Ok(None);
    };
    if greater.terminal.is_sign(Sign::Greater) {
        return only_put(alloc, token, 2, number_of(members, member.terminal)?);
    }
    Ok(None)
}

// What is declared, by its type.
fn declared_put<'a, 'l, 's>(
    alloc: Global,
    found: &Found<'a, 'l, 's>,
    depth: usize,
    token: Token<'a, 'l>,
    rest: Ahead<'a, 'l, 's>,
) -> Result<Option<Put<'a, 'l, 's>>, AllocError>
    ensures { IfOk result (λ o. option_map seen_put o ≡
        declared_put (seen token.entry) (declared depth (seen_found found.now).structs (seen token.entry) (ahead rest.entry))) }
{
    let Some(declared) = declaration_at(depth, &found.structs, token, rest) else {
        return Ok(None);
    };
    let mut tokens = Vec::new(alloc);
    tokens.push(token.at(Terminal::Word(Word::Uint64)))?;
    Ok(Some(Put {
        tokens,
        len: declared.len,
        before: Before::OfType(declared.form, declared.holder.of.members),
    }))
}

fn name_put<'a, 'l, 's>(
    alloc: Global,
    found: &Found<'a, 'l, 's>,
    state: &State<'a, 'l, 's>,
    token: Token<'a, 'l>,
    rest: Ahead<'a, 'l, 's>,
) -> Result<Option<Put<'a, 'l, 's>>, AllocError>
    ensures { IfOk result (λ o. option_map seen_put o ≡
        name_put (seen_found found.now) (seen_state state.now) (seen token.entry) (ahead rest.entry)) }
{
    if state.depth == 0 && !found.spoiled {
        if let Some(definition) = definition_at(&found.structs, token, rest)? {
            return Ok(Some(Put {
                tokens: Vec::new(alloc),
                len: definition.len,
                before: Before::Nothing,
            }));
        }
    }
    declared_put(alloc, found, state.depth, token, rest)
}

fn put_at<'a, 'l, 's>(
    alloc: Global,
    found: &Found<'a, 'l, 's>,
    state: &State<'a, 'l, 's>,
    token: Token<'a, 'l>,
    rest: Ahead<'a, 'l, 's>,
) -> Result<Option<Put<'a, 'l, 's>>, AllocError>
    ensures { IfOk result (λ o. option_map seen_put o ≡
        put_at (seen_found found.now) (seen_state state.now) (seen token.entry) (ahead rest.entry)) }
{
    if token.terminal.is_sign(Sign::Dot) {
        return dot_put(alloc, state.before, token, rest);
    }
    if token.terminal.is_sign(Sign::Minus) {
        return arrow_put(alloc, state.before, token, rest);
    }
    name_put(alloc, found, state, token, rest)
}

// Behind the bracket that closes the length of an array.
fn put_row_length<'a, 'l>(
    done: &mut Vec<Token<'a, 'l>>,
    before: Before<'a, 'l, '_>,
    token: Token<'a, 'l>,
) -> Result<(), AllocError>
    ensures { OnOk result (seen_all done.new.items ≡
        seen_all done.old.items ++ row_length (seen_before before.entry) (seen token.entry)) }
{
    match before {
        Before::OfLength(members) => put_index(done, token, count(members)?),
        _ => Ok(()),
    }
}

// Behind the name in the declaration of one struct, or of a parameter.
fn put_lengths<'a, 'l>(
    done: &mut Vec<Token<'a, 'l>>,
    before: Before<'a, 'l, '_>,
    token: Token<'a, 'l>,
) -> Result<(), AllocError>
    ensures { OnOk result (seen_all done.new.items ≡
        seen_all done.old.items ++ lengths (seen_before before.entry) (seen token.entry)) }
{
    match before {
        Before::OfType(Form::One, members) => {
            put_index(done, token, 1)?;
            put_index(done, token, count(members)?)
        }
        Before::OfType(Form::Pointer, members) => {
            done.push(token.at(Terminal::Sign(Sign::OpenBracket)))?;
            done.push(token.at(Terminal::Sign(Sign::CloseBracket)))?;
            put_index(done, token, count(members)?)
        }
        _ => Ok(()),
    }
}

impl<'a, 'l, 's> Rows<'a, 'l, 's> {
    ghost use Rattle.std.specs.Prelude.{◌≡◌, ◌∷◌, ◌++◌, IfOk, OnOk, if◌then◌else◌};
    ghost use Rattle.c_grammar.specs.Structs.{put_behind};
    ghost use Rattle.c_structs.specs.Found.{seen_found};
    ghost use Rattle.c_structs.specs.Rows.{seen_state, with_rows};
    ghost use Rattle.c_terminals.specs.Seen.{seen, seen_all};

    // What follows a token that stays.
    fn put_behind(&mut self, token: Token<'a, 'l>) -> Result<(), AllocError>
        ensures done { OnOk result (seen_all self.new.done.items ≡
            seen_all self.old.done.items ++ put_behind (seen_state self.old.state) (seen token.entry)) }
        ensures state { OnOk result (seen_state self.new.state ≡ seen_state self.old.state) }
        ensures left { OnOk result (self.new.left ≡ self.old.left) }
    {
        if token.terminal.is_sign(Sign::CloseBracket) {
            return put_row_length(&mut self.done, self.state.innermost(), token);
        }
        put_lengths(&mut self.done, self.state.before, token)
    }

    // The next token, before others. False where nothing is read behind it.
    fn take(
        &mut self,
        alloc: Global,
        found: &Found<'a, 'l, 's>,
        token: Token<'a, 'l>,
        rest: &'s [Token<'a, 'l>],
    ) -> Result<bool, AllocError>
        ensures { IfOk result (λ b. with_rows (seen_found found.now) self.old (seen token.entry ∷ seen_all rest.now) ≡
            (if b then with_rows (seen_found found.now) self.new (seen_all rest.now) else seen_all self.new.done.items)) }
    {
        if token.terminal.is_directive() {
            self.done.push(token)?;
            return Ok(true);
        }
        if self.left > 0 {
            self.left -= 1;
            return Ok(true);
        }
        if let Some(put) = put_at(alloc, found, &self.state, token, Ahead::new(rest))? {
            self.done.extend_from_slice(&put.tokens)?;
            self.state.before = put.before;
            self.left = put.len;
            return Ok(true);
        }
        if token.terminal.is_sign(Sign::Dot) {
            self.done.push(token.at(Terminal::Unknown))?;
            return Ok(false);
        }
        self.done.push(token)?;
        self.put_behind(token)?;
        self.state.pass(found, token)?;
        Ok(true)
    }
}

/// The tokens with structs as rows of cells.
pub fn in_rows<'a, 'l>(
    alloc: Global,
    tokens: &[Token<'a, 'l>],
) -> Result<Vec<Token<'a, 'l>>, AllocError>
    ensures { IfOk result (λ v. seen_all v.items ≡ in_rows (seen_all tokens.now)) }
{
    let found = scanned(alloc, tokens)?;
    let mut rows = Rows {
        done: Vec::new(alloc),
        state: State::begin(alloc),
        left: 0,
    };
    let mut rest = tokens;
    'tokens: while let [token, behind @ ..] = rest {
        if !rows.take(alloc, &found, *token, behind)? {
            return Ok(rows.done);
        }
        rest = behind;
    }
    Ok(rows.done)
}
