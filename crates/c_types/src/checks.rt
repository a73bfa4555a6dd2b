//! Whether each value that a number of the type `int` gets is small.

ghost use Rattle.std.specs.Prelude.{◌≡◌, IfOk, true};
ghost use Rattle.c_grammar.specs.Blocks.{bare};
ghost use Rattle.c_grammar.specs.Types.{all_fine, alone, fine_call, fine_mark, fine_name, function_of, further, has_cells, is_fine};
ghost use Rattle.c_grammar.specs.Types.{is_passed, next_converts, nothing_left, passes, wanted};
ghost use Rattle.c_terminals.specs.Ahead.{ahead};
ghost use Rattle.c_terminals.specs.Seen.{seen, seen_all};
ghost use Rattle.c_types.specs.Found.{all_taken, seen_found, seen_taken};
ghost use Rattle.c_types.specs.Places.{seen_left};

use crate::found::Found;
use crate::functions::Taken;
use crate::names::{name_of, next_is};
use crate::states::{closes, depth_behind, opens};
use crate::values::{is_small_given, is_small_value};
use c_choices::is_setting;
use c_terminals::{Ahead, Terminal, Token};
use c_tokens::Sign;
use directives::Word;
use std::alloc::{AllocError, Global};

/// What stands before a token.
#[derive(Drop)]
struct Left<'a> {
    /// The name, or that of the cell, or none.
    name: &'a [u8],
    /// Whether a cell stands there.
    cell: bool,
    /// The names before brackets that are open, the innermost last.
    outer: Vec<&'a [u8]>,
    /// Whether what is returned has to be small.
    returns: bool,
    /// How many blocks are open.
    depth: usize,
}

// The name that is all of an argument, or none.
fn alone<'a>(rest: Ahead<'a, '_, '_>) -> &'a [u8]
    ensures { result.now ≡ alone (ahead rest.entry) }
{
    let mut ahead = rest;
    let Some(first) = ahead.next() else {
        return b"".as_slice();
    };
    let Some(next) = ahead.next() else {
        return b"".as_slice();
    };
    if next.terminal.is_sign(Sign::Comma) || closes(next) {
        return name_of(first.terminal);
    }
    b"".as_slice()
}

// Whether it is an array or a pointer whose cells are to be `uint64_t`.
fn has_cells(found: &Found<'_>, name: &[u8]) -> bool
    ensures { result ≡ has_cells (seen_found found.now) name.now }
{
    found.converts(name) && !found.scalars.contains(name)
}

// Whether what is passed there is a small number for one, or no cells of another type for such cells.
fn is_passed(
    alloc: Global,
    found: &Found<'_>,
    taken: Taken,
    rest: Ahead<'_, '_, '_>,
) -> Result<bool, AllocError>
    ensures { IfOk result (λ b. b ≡ is_passed (seen_found found.now) (seen_taken taken) (ahead rest.entry)) }
{
    match taken {
        Taken::Number => is_small_value(alloc, found, rest),
        Taken::Cells => Ok(!found.wides.contains(alone(rest))),
        Taken::Any => Ok(!has_cells(found, alone(rest))),
    }
}

// Whether all that is passed is so; these are the tokens behind the bracket of a call.
fn passes(
    alloc: Global,
    found: &Found<'_>,
    takes: &[Taken],
    rest: Ahead<'_, '_, '_>,
) -> Result<bool, AllocError>
    ensures { IfOk result (λ b. b ≡ passes (seen_found found.now) (all_taken takes.now) true 0 (ahead rest.entry)) }
{
    let mut takes = takes;
    let mut begins = true;
    let mut depth = 0_usize;
    let mut ahead = rest;
    'tokens: while true {
        let here = ahead;
        let Some(token) = ahead.next() else {
            return Ok(true);
        };
        if begins && !is_passed(alloc, found, wanted(takes), here)? {
            return Ok(false);
        }
        begins = false;
        if opens(token) {
            depth = depth.checked_add(1).ok_or(AllocError)?;
        } else if closes(token) {
            if depth == 0 {
                return Ok(true);
            }
            depth -= 1;
        } else if token.terminal.is_sign(Sign::Comma) && depth == 0 {
            takes = further(takes);
            begins = true;
        }
    }
    Ok(true)
}

impl<'a> Left<'a> {
    ghost use Rattle.std.specs.Prelude.{◌≡◌, OnOk};
    ghost use Rattle.c_grammar.specs.Types.{assigns, left_behind, nothing_left, returns_by};
    ghost use Rattle.c_terminals.specs.Ahead.{ahead};
    ghost use Rattle.c_terminals.specs.Seen.{seen};
    ghost use Rattle.c_types.specs.Found.{seen_found};
    ghost use Rattle.c_types.specs.Places.{seen_left};

    fn nothing(alloc: Global) -> Left<'a>
        ensures { seen_left result ≡ nothing_left }
    {
        Left {
            name: b"".as_slice(),
            cell: false,
            outer: Vec::new(alloc),
            returns: false,
            depth: 0,
        }
    }

    // Whether a number of the type `int` is assigned there.
    fn assigns(&self, found: &Found<'_>) -> bool
        ensures { result ≡ assigns (seen_found found.now) (seen_left self.now) }
    {
        found.converts(self.name) && (self.cell || !found.pointers.contains(self.name))
    }

    fn returns_behind(
        &self,
        found: &Found<'_>,
        token: Token<'_, '_>,
        rest: Ahead<'_, '_, '_>,
    ) -> bool
        ensures { result ≡
            returns_by (seen_found found.now) (seen_left self.now) (seen token.entry).terminal (ahead rest.entry) }
    {
        if let Terminal::Name(name) = token.terminal {
            if self.depth == 0 && next_is(rest, Sign::OpenParen) {
                return found.converts(name);
            }
            return self.returns;
        }
        !token.terminal.is_word(Word::Main) && self.returns
    }

    // Behind a token, before others.
    fn take(
        &mut self,
        found: &Found<'_>,
        token: Token<'a, '_>,
        rest: Ahead<'_, '_, '_>,
    ) -> Result<(), AllocError>
        ensures { OnOk result (seen_left self.new ≡
            left_behind (seen_found found.now) (seen_left self.old) (seen token.entry) (ahead rest.entry)) }
    {
        self.returns = self.returns_behind(found, token, rest);
        self.depth = depth_behind(self.depth, token)?;
        let name = self.name;
        self.cell = token.terminal.is_sign(Sign::CloseBracket);
        self.name = name_of(token.terminal);
        if token.terminal.is_sign(Sign::OpenBracket) {
            self.outer.push(name)?;
        } else if self.cell {
            self.name = match self.outer.pop() {
                Some(outer) => outer,
                None => b"".as_slice(),
            };
        } else if token.terminal.is_sign(Sign::Semicolon) {
            self.outer.clear();
        }
        Ok(())
    }
}

fn wanted(takes: &[Taken]) -> Taken
    ensures { seen_taken result ≡ wanted (all_taken takes.now) }
{
    match takes {
        [first, ..] => *first,
        [] => Taken::Any,
    }
}

fn further(takes: &[Taken]) -> &[Taken]
    ensures { all_taken result.now ≡ further (all_taken takes.now) }
{
    match takes {
        [_, rest @ ..] => rest,
        [] => takes,
    }
}

fn next_converts(found: &Found<'_>, rest: Ahead<'_, '_, '_>) -> bool
    ensures { result ≡ next_converts (seen_found found.now) (ahead rest.entry) }
{
    let mut ahead = rest;
    match ahead.next() {
        Some(token) => found.converts(name_of(token.terminal)),
        None => false,
    }
}

fn fine_call(
    alloc: Global,
    found: &Found<'_>,
    name: &[u8],
    rest: Ahead<'_, '_, '_>,
) -> Result<bool, AllocError>
    ensures { IfOk result (λ b. b ≡ fine_call (seen_found found.now)
        (function_of (seen_found found.now).functions name.now) (ahead rest.entry)) }
{
    match found.function_of(name) {
        None => Ok(true),
        Some(takes) => {
            let mut ahead = rest;
            match ahead.next() {
                None => Ok(true),
                Some(_) => passes(alloc, found, takes, ahead),
            }
        }
    }
}

fn fine_name(
    alloc: Global,
    found: &Found<'_>,
    left: &Left<'_>,
    name: &[u8],
    rest: Ahead<'_, '_, '_>,
) -> Result<bool, AllocError>
    ensures { IfOk result (λ b. b ≡
        fine_name (seen_found found.now) (seen_left left.now) name.now (ahead rest.entry)) }
{
    if name == b"return".as_slice() {
        if !left.returns {
            return Ok(true);
        }
        return is_small_value(alloc, found, rest);
    }
    if left.depth > 0 && next_is(rest, Sign::OpenParen) {
        return fine_call(alloc, found, name, rest);
    }
    Ok(true)
}

fn fine_mark(
    alloc: Global,
    found: &Found<'_>,
    left: &Left<'_>,
    token: Token<'_, '_>,
    rest: Ahead<'_, '_, '_>,
) -> Result<bool, AllocError>
    ensures { IfOk result (λ b. b ≡
        fine_mark (seen_found found.now) (seen_left left.now) (seen token.entry) (ahead rest.entry)) }
{
    if is_setting(token.terminal) {
        if !left.assigns(found) {
            return Ok(true);
        }
        if token.terminal.is_sign(Sign::MinusEqual) {
            return Ok(false);
        }
        return is_small_given(alloc, found, rest);
    }
    if token.terminal.is_sign(Sign::MinusMinus) {
        return Ok(!left.assigns(found) && !next_converts(found, rest));
    }
    if token.terminal.is_sign(Sign::FormatInt) {
        return is_small_value(alloc, found, rest);
    }
    Ok(true)
}

// Whether a token, before others, gives no number of the type `int` a value that is not small.
fn is_fine(
    alloc: Global,
    found: &Found<'_>,
    left: &Left<'_>,
    token: Token<'_, '_>,
    rest: Ahead<'_, '_, '_>,
) -> Result<bool, AllocError>
    ensures { IfOk result (λ b. b ≡
        is_fine (seen_found found.now) (seen_left left.now) (seen token.entry) (seen token.entry).terminal
        (ahead rest.entry)) }
{
    match token.terminal {
        Terminal::Name(name) => fine_name(alloc, found, left, name, rest),
        _ => fine_mark(alloc, found, left, token, rest),
    }
}

/// Whether none of the tokens does.
pub fn all_fine(
    alloc: Global,
    found: &Found<'_>,
    tokens: &[Token<'_, '_>],
) -> Result<bool, AllocError>
    ensures { IfOk result (λ b. b ≡ all_fine (seen_found found.now) nothing_left (bare (seen_all tokens.now))) }
{
    let mut left = Left::nothing(alloc);
    let mut ahead = Ahead::new(tokens);
    'tokens: while let Some(token) = ahead.next() {
        if !is_fine(alloc, found, &left, token, ahead)? {
            return Ok(false);
        }
        left.take(found, token, ahead)?;
    }
    Ok(true)
}
