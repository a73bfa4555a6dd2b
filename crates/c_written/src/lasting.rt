//! Scalars that nothing changes and that stand where a number is wanted, which are constants.

ghost use Rattle.std.specs.Prelude.{◌≡◌, ◌∷◌, ◌++◌, false, IfOk, OnOk};
ghost use Rattle.c_grammar.specs.Lasting.{Elsewhere, allocates, alters, begins_array, begins_change, begins_word, begun, const_for, declares, divided, divides_by, has_value, is_lasting, is_line, is_looked, is_operator, is_part, lasting, lasts, lasts_as, opens};
ghost use Rattle.c_grammar.specs.Loops.{steps};
ghost use Rattle.c_terminals.specs.Ahead.{ahead};
ghost use Rattle.c_terminals.specs.Seen.{seen, seen_all, seen_terminal};
ghost use Rattle.c_written.specs.Lasting.{seen_place, seen_state};

use crate::boxes::depth_behind;
use crate::counters::is_type;
use crate::declarations::is_given;
use crate::shapes::{is_changing, is_divider};
use c_choices::{is_boundary, is_setting};
use c_terminals::{Ahead, Terminal, Token};
use c_tokens::Sign;
use directives::Word;
use std::alloc::{AllocError, Global};

/// So many declarations are looked at.
const MOST_LOOKED: usize = 256;

// Whether it is a line that begins with `#`, which ends no statement.
fn is_line(terminal: Terminal<'_, '_>) -> bool
    ensures { result ≡ is_line (seen_terminal terminal.entry) }
{
    match terminal {
        Terminal::Line(_) => true,
        _ => false,
    }
}

fn steps(token: Token<'_, '_>) -> bool
    ensures { result ≡ steps (seen token.entry) }
{
    token.terminal.is_sign(Sign::PlusPlus) || token.terminal.is_sign(Sign::MinusMinus)
}

fn begins_change(rest: Ahead<'_, '_, '_>) -> bool
    ensures { result ≡ begins_change (ahead rest.entry) }
{
    let mut ahead = rest;
    match ahead.next() {
        Some(token) => is_setting(token.terminal) || steps(token),
        None => false,
    }
}

fn begins_word(name: &[u8], rest: Ahead<'_, '_, '_>) -> bool
    ensures { result ≡ begins_word name.now (ahead rest.entry) }
{
    let mut ahead = rest;
    match ahead.next() {
        Some(token) => token.terminal.is_named(name),
        None => false,
    }
}

// Behind a type: the name, or a star and the name.
fn declares(name: &[u8], rest: Ahead<'_, '_, '_>) -> bool
    ensures { result ≡ declares name.now (ahead rest.entry) }
{
    let mut ahead = rest;
    match ahead.next() {
        Some(token) => {
            token.terminal.is_named(name)
                || (token.terminal.is_sign(Sign::Star) && begins_word(name, ahead))
        }
        None => false,
    }
}

// Whether the scalar is assigned there, or something else of its name is declared.
fn alters(name: &[u8], token: Token<'_, '_>, rest: Ahead<'_, '_, '_>) -> bool
    ensures { result ≡ alters name.now (seen token.entry) (ahead rest.entry) }
{
    (token.terminal.is_named(name) && begins_change(rest))
        || (steps(token) && begins_word(name, rest))
        || (is_type(token.terminal) && declares(name, rest))
}

fn opens(rest: Ahead<'_, '_, '_>) -> bool
    ensures { result ≡ opens (ahead rest.entry) }
{
    let mut ahead = rest;
    match ahead.next() {
        Some(token) => token.terminal.is_sign(Sign::OpenParen),
        None => false,
    }
}

// Behind a type: the name of an array.
fn begins_array(rest: Ahead<'_, '_, '_>) -> bool
    ensures { result ≡ begins_array (ahead rest.entry) }
{
    let mut ahead = rest;
    let Some(name) = ahead.next() else {
        return false;
    };
    let Some(bracket) = ahead.next() else {
        return false;
    };
    name.terminal.is_name() && bracket.terminal.is_sign(Sign::OpenBracket)
}

fn allocates(token: Token<'_, '_>) -> bool
    ensures { result ≡ allocates (seen token.entry) }
{
    token.terminal.is_named(b"malloc") || token.terminal.is_named(b"calloc")
}

fn divides_by(terminal: Terminal<'_, '_>) -> bool
    ensures { result ≡ divides_by (seen_terminal terminal.entry) }
{
    is_divider(terminal) || is_changing(terminal)
}

/// Where a token stands, as far as a number is wanted there.
#[derive(Clone, Copy)]
pub enum Place {
    Elsewhere,
    /// In the head of a loop, which ends where its block begins.
    Heading,
    /// Where an array is declared or memory is allocated.
    Sizing,
    /// In the right operand of a quotient, a remainder or a shift, in so many brackets.
    Dividing(usize),
}

fn begun(token: Token<'_, '_>, rest: Ahead<'_, '_, '_>) -> Place
    ensures { seen_place result ≡ begun (seen token.entry) (ahead rest.entry) }
{
    if divides_by(token.terminal) {
        return Place::Dividing(0);
    }
    if (is_type(token.terminal) && begins_array(rest)) || (allocates(token) && opens(rest)) {
        return Place::Sizing;
    }
    Place::Elsewhere
}

fn divided(
    brackets: usize,
    token: Token<'_, '_>,
    rest: Ahead<'_, '_, '_>,
) -> Result<Place, AllocError>
    ensures { IfOk result (λ p. seen_place p ≡ divided brackets (seen token.entry) (ahead rest.entry)) }
{
    if token.terminal.is_sign(Sign::OpenParen) {
        return Ok(Place::Dividing(brackets.checked_add(1).ok_or(AllocError)?));
    }
    if token.terminal.is_sign(Sign::CloseParen) {
        return Ok(if brackets <= 1 {
            Place::Elsewhere
        } else {
            Place::Dividing(brackets - 1)
        });
    }
    Ok(if brackets == 0 {
        begun(token, rest)
    } else {
        Place::Dividing(brackets)
    })
}

impl Place {
    ghost use Rattle.std.specs.Prelude.{◌≡◌, IfOk};
    ghost use Rattle.c_grammar.specs.Lasting.{moved, next, wants};
    ghost use Rattle.c_terminals.specs.Ahead.{ahead};
    ghost use Rattle.c_terminals.specs.Seen.{seen};
    ghost use Rattle.c_written.specs.Lasting.{seen_place};

    fn wants(self) -> bool
        ensures { result ≡ wants (seen_place self) }
    {
        match self {
            Place::Elsewhere => false,
            _ => true,
        }
    }

    fn moved(self, token: Token<'_, '_>, rest: Ahead<'_, '_, '_>) -> Result<Place, AllocError>
        ensures { IfOk result (λ p. seen_place p ≡ moved (seen_place self) (seen token.entry) (ahead rest.entry)) }
    {
        let terminal = token.terminal;
        Ok(match self {
            Place::Elsewhere => begun(token, rest),
            Place::Heading if terminal.is_sign(Sign::OpenBrace) => Place::Elsewhere,
            Place::Heading => Place::Heading,
            Place::Sizing if terminal.is_sign(Sign::Equal) || terminal.is_sign(Sign::Semicolon) => {
                Place::Elsewhere
            }
            Place::Sizing => Place::Sizing,
            Place::Dividing(brackets) => divided(brackets, token, rest)?,
        })
    }

    // Behind a token.
    fn next(self, token: Token<'_, '_>, rest: Ahead<'_, '_, '_>) -> Result<Place, AllocError>
        ensures { IfOk result (λ p. seen_place p ≡ next (seen_place self) (seen token.entry) (ahead rest.entry)) }
    {
        if token.terminal.is_word(Word::For) {
            return Ok(Place::Heading);
        }
        self.moved(token, rest)
    }
}

// Whether nothing alters the scalar, and it stands where a number is wanted, or need not.
fn lasts(name: &[u8], need_not: bool, start: Ahead<'_, '_, '_>) -> Result<bool, AllocError>
    ensures { IfOk result (λ b. b ≡ lasts name.now Elsewhere need_not (ahead start.entry)) }
{
    let mut ahead = start;
    let (mut place, mut found) = (Place::Elsewhere, need_not);
    'tokens: while let Some(token) = ahead.next() {
        if alters(name, token, ahead) {
            return Ok(false);
        }
        found = found || (place.wants() && token.terminal.is_named(name));
        place = place.next(token, ahead)?;
    }
    Ok(found)
}

fn is_operator(sign: Sign) -> bool
    ensures { result ≡ is_operator sign }
{
    match sign {
        Sign::Plus
        | Sign::Minus
        | Sign::Star
        | Sign::Slash
        | Sign::Percent
        | Sign::ShiftLeft
        | Sign::ShiftRight
        | Sign::OpenParen
        | Sign::CloseParen => true,
        _ => false,
    }
}

fn is_part(terminal: Terminal<'_, '_>) -> bool
    ensures { result ≡ is_part (seen_terminal terminal.entry) }
{
    match terminal {
        Terminal::Number(_) | Terminal::BadNumber | Terminal::Name(_) => true,
        Terminal::Sign(sign) => is_operator(sign),
        _ => false,
    }
}

// Whether there are numbers, names and operators up to a semicolon, and no call.
fn has_value(start: Ahead<'_, '_, '_>) -> bool
    ensures { result ≡ has_value (ahead start.entry) }
{
    let mut ahead = start;
    'tokens: while let Some(token) = ahead.next() {
        if token.terminal.is_sign(Sign::Semicolon) {
            return true;
        }
        if !is_part(token.terminal) || (token.terminal.is_name() && opens(ahead)) {
            return false;
        }
    }
    false
}

fn lasts_as(
    need_not: bool,
    terminal: Terminal<'_, '_>,
    rest: Ahead<'_, '_, '_>,
) -> Result<bool, AllocError>
    ensures { IfOk result (λ b. b ≡ lasts_as need_not (seen_terminal terminal.entry) (ahead rest.entry)) }
{
    match terminal {
        Terminal::Name(name) => lasts(name, need_not, rest),
        _ => Ok(false),
    }
}

// Whether a scalar of this type is a constant.
fn is_lasting(token: Token<'_, '_>, start: Ahead<'_, '_, '_>) -> Result<bool, AllocError>
    ensures { IfOk result (λ b. b ≡ is_lasting (seen token.entry) (ahead start.entry)) }
{
    let mut ahead = start;
    let Some(name) = ahead.next() else {
        return Ok(false);
    };
    let Some(_) = ahead.next() else {
        return Ok(false);
    };
    if !has_value(ahead) {
        return Ok(false);
    }
    lasts_as(token.terminal.is_word(Word::Int), name.terminal, ahead)
}

/// Where a token stands.
#[derive(Clone, Copy)]
pub struct State {
    depth: usize,
    /// Behind the name of `main`.
    main: bool,
    /// A statement begins.
    starts: bool,
    /// How many declarations are still looked at.
    left: usize,
}

impl State {
    ghost use Rattle.std.specs.Prelude.{◌≡◌, IfOk};
    ghost use Rattle.c_grammar.specs.Lasting.{behind, is_looked, may_declare};
    ghost use Rattle.c_terminals.specs.Ahead.{ahead};
    ghost use Rattle.c_terminals.specs.Seen.{seen};
    ghost use Rattle.c_written.specs.Lasting.{seen_state};

    fn may_declare(self) -> bool
        ensures { result ≡ may_declare (seen_state self) }
    {
        self.starts && (self.depth == 0 || (self.main && self.depth == 1))
    }

    // Whether a declaration begins that is looked at.
    fn is_looked(self, token: Token<'_, '_>, rest: Ahead<'_, '_, '_>) -> bool
        ensures { result ≡ is_looked (seen_state self) (seen token.entry) (ahead rest.entry) }
    {
        self.may_declare() && is_type(token.terminal) && self.left != 0 && is_given(rest)
    }

    fn behind(self, token: Token<'_, '_>, rest: Ahead<'_, '_, '_>) -> Result<State, AllocError>
        ensures { IfOk result (λ s. seen_state s ≡ behind (seen_state self) (seen token.entry) (ahead rest.entry)) }
    {
        let looked = self.is_looked(token, rest);
        Ok(State {
            depth: depth_behind(token, self.depth)?,
            main: self.main || token.terminal.is_word(Word::Main),
            starts: is_boundary(token.terminal) || (is_line(token.terminal) && self.starts),
            left: if looked { self.left - 1 } else { self.left },
        })
    }
}

// The word before the type of a scalar that is a constant.
fn put_const<'a, 'l>(
    done: &mut Vec<Token<'a, 'l>>,
    state: State,
    token: Token<'a, 'l>,
    rest: Ahead<'a, 'l, '_>,
) -> Result<(), AllocError>
    ensures { OnOk result (seen_all done.new.items ≡
        seen_all done.old.items ++ const_for (seen_state state) (seen token.entry) (ahead rest.entry)) }
{
    if state.is_looked(token, rest) && is_lasting(token, rest)? {
        done.push(token.at(Terminal::Name(b"const")))?;
    }
    Ok(())
}

/// The tokens with these words.
pub fn lasting<'a, 'l>(
    alloc: Global,
    tokens: &[Token<'a, 'l>],
) -> Result<Vec<Token<'a, 'l>>, AllocError>
    ensures { IfOk result (λ v. seen_all v.items ≡ lasting (seen_all tokens.now)) }
{
    let mut done = Vec::new(alloc);
    let mut state = State {
        depth: 0,
        main: false,
        starts: true,
        left: MOST_LOOKED,
    };
    let mut rest = tokens;
    'tokens: while let [token, behind @ ..] = rest {
        rest = behind;
        if !token.terminal.is_directive() {
            put_const(&mut done, state, *token, Ahead::new(behind))?;
            state = state.behind(*token, Ahead::new(behind))?;
        }
        done.push(*token)?;
    }
    Ok(done)
}
