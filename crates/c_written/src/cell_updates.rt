//! Updates of cells.

ghost use Rattle.std.specs.Prelude.{◌≡◌, ◌<◌, ◌^◌, length, take};
ghost use Rattle.std.specs.Option.{option_map};
ghost use Rattle.c_grammar.specs.Updates.{again, again_at, changing, commutes, equal, has_update, is_assigned, is_by, place_len, sign_at, sign_of, update};
ghost use Rattle.c_terminals.specs.Ahead.{ahead};
ghost use Rattle.c_written.specs.CellUpdates.{rest_behind};
ghost use Rattle.c_written.specs.Changes.{seen_change};
ghost use Rattle.c_terminals.specs.Seen.{seen_terminal};

use crate::calls::index_len;
use crate::heads::passed;
use crate::operators::Change;
use c_terminals::{Ahead, Terminal};
use c_tokens::Sign;
use directives::sign_number;

/// Whether updates by the operator commute.
pub fn commutes(op: Sign) -> bool
    ensures { result ≡ commutes op }
{
    match op {
        Sign::Plus | Sign::Star | Sign::Ampersand | Sign::Bar | Sign::Caret => true,
        _ => false,
    }
}

// The operator of `op=`, of `++` and of `--`, before these tokens.
fn changing(change: Option<Change>, rest: Ahead<'_, '_, '_>) -> Option<Sign>
    ensures { result ≡ changing (option_map seen_change change) (ahead rest.entry) }
{
    match change? {
        Change::With(op) => Some(op),
        Change::ByNumber(op) => Some(op),
        Change::ByOne(op) => {
            let mut ahead = rest;
            let next = ahead.next()?;
            if next.terminal.is_sign(Sign::Semicolon) {
                Some(op)
            } else {
                None
            }
        }
    }
}

fn sign_of(terminal: Terminal<'_, '_>) -> Option<Sign>
    ensures { result ≡ sign_of (seen_terminal terminal.entry) }
{
    match terminal {
        Terminal::Sign(sign) => Some(sign),
        _ => None,
    }
}

fn sign_at(rest: Ahead<'_, '_, '_>) -> Option<Sign>
    ensures { result ≡ sign_at (ahead rest.entry) }
{
    let mut ahead = rest;
    sign_of(ahead.next()?.terminal)
}

/// Whether the tokens are the same, but for their places.
pub fn equal(left: Terminal<'_, '_>, right: Terminal<'_, '_>) -> bool
    ensures { result ≡ equal (seen_terminal left.entry) (seen_terminal right.entry) }
{
    match (left, right) {
        (Terminal::Number(a), Terminal::Number(b)) => a == b,
        (Terminal::Word(v), Terminal::Word(w)) => v.number() == w.number(),
        (Terminal::Sign(r), Terminal::Sign(s)) => sign_number(r) == sign_number(s),
        (Terminal::Name(x), Terminal::Name(y)) => x == y,
        _ => false,
    }
}

// What stands behind so many tokens of the index, if these come next.
fn behind_same<'a, 'l, 's>(
    index: Ahead<'a, 'l, 's>,
    len: usize,
    start: Ahead<'a, 'l, 's>,
) -> Option<Ahead<'a, 'l, 's>>
    ensures { option_map ahead result ≡ rest_behind (take len (ahead index.entry)) (ahead start.entry) }
{
    let mut index = index;
    let mut ahead = start;
    let mut left = len;
    'tokens: while left > 0 {
        let Some(own) = index.next() else {
            return Some(ahead);
        };
        let Some(next) = ahead.next() else {
            return None;
        };
        if !equal(own.terminal, next.terminal) {
            return None;
        }
        left -= 1;
    }
    Some(ahead)
}

// The sign behind the cell of that name, whose index has so many tokens, if the cell comes next.
fn again<'a, 'l, 's>(
    name: &[u8],
    index: Ahead<'a, 'l, 's>,
    len: usize,
    rest: Ahead<'a, 'l, 's>,
) -> Option<Sign>
    ensures { result ≡ again name.now (take len (ahead index.entry)) (ahead rest.entry) }
{
    let mut ahead = rest;
    let own = ahead.next()?;
    if !own.terminal.is_named(name) {
        return None;
    }
    match behind_same(index, len, ahead) {
        Some(behind) => sign_at(behind),
        None => None,
    }
}

// How many tokens the index of a cell has, and none where a scalar stands.
fn place_len(start: Ahead<'_, '_, '_>) -> Option<usize>
    requires { length (ahead start) < 2 ^ 63 }
    ensures { result ≡ place_len (ahead start.entry) }
{
    let mut ahead = start;
    match ahead.next() {
        Some(next) if next.terminal.is_sign(Sign::OpenBracket) => index_len(start),
        _ => Some(0),
    }
}

/// By which operator the name, or a cell of it, is changed, where these tokens stand behind the name.
pub fn update(name: &[u8], start: Ahead<'_, '_, '_>) -> Option<Sign>
    requires { length (ahead start) < 2 ^ 63 }
    ensures { result ≡ update name.now (ahead start.entry) }
{
    let len = place_len(start)?;
    let mut behind = passed(start, len);
    let first = behind.next()?;
    if first.terminal.is_sign(Sign::Equal) {
        return again(name, start, len, behind);
    }
    changing(Change::of(first.terminal), behind)
}

/// Whether the operator is that one, and its updates commute.
pub fn is_by(op: Sign, other: Option<Sign>) -> bool
    ensures { result ≡ is_by op other }
{
    match other {
        Some(own) => sign_number(op) == sign_number(own) && commutes(op),
        None => false,
    }
}

fn is_assigned(rest: Ahead<'_, '_, '_>) -> bool
    ensures { result ≡ is_assigned (ahead rest.entry) }
{
    let mut ahead = rest;
    match ahead.next() {
        Some(next) => next.terminal.is_sign(Sign::Equal),
        None => false,
    }
}

/// How many tokens there are from a name, before these, to the same name behind the sign `=`, where that follows. There are
/// none elsewhere.
pub fn again_at(start: Ahead<'_, '_, '_>) -> usize
    requires { length (ahead start) < 2 ^ 63 }
    ensures { result ≡ again_at (place_len (ahead start.entry)) (ahead start.entry) }
{
    match place_len(start) {
        Some(len) => {
            if is_assigned(passed(start, len)) {
                len + 2
            } else {
                0
            }
        }
        None => 0,
    }
}

/// Whether an update comes next.
pub fn has_update(start: Ahead<'_, '_, '_>) -> bool
    requires { length (ahead start) < 2 ^ 63 }
    ensures { result ≡ has_update (ahead start.entry) }
{
    let mut ahead = start;
    let Some(first) = ahead.next() else {
        return false;
    };
    match first.terminal {
        Terminal::Name(name) => update(name, ahead).is_some(),
        _ => false,
    }
}
