//! What stands before and behind a call in its statement.

ghost use Rattle.std.specs.Prelude.{◌≡◌, ℕ, IfOk, take};
ghost use Rattle.std.specs.Option.{option_map};
ghost use Rattle.c_grammar.specs.Functions.{before_call, behind_call, ends_here, is_beside, is_strict, opens_call};
ghost use Rattle.c_terminals.specs.Ahead.{ahead};
ghost use Rattle.c_terminals.specs.Seen.{seen, seen_all, seen_terminal};

use c_terminals::{Ahead, Terminal, Token};
use c_tokens::Sign;
use std::alloc::{AllocError, Global};

/// What is assigned, with the sign that assigns it, or nothing where the call is the statement; and tokens of the value.
#[derive(Clone, Copy)]
pub struct Front<'a, 'l, 's> {
    pub left: &'s [Token<'a, 'l>],
    pub value: &'s [Token<'a, 'l>],
}

// Whether an operator has all its operands evaluated, or the sign is a bracket.
fn is_strict(sign: Sign) -> bool
    ensures { result ≡ is_strict sign }
{
    match sign {
        Sign::Plus
        | Sign::Minus
        | Sign::Star
        | Sign::Slash
        | Sign::Percent
        | Sign::ShiftLeft
        | Sign::ShiftRight
        | Sign::Ampersand
        | Sign::Bar
        | Sign::Caret
        | Sign::Tilde
        | Sign::Bang
        | Sign::EqualEqual
        | Sign::NotEqual
        | Sign::Less
        | Sign::LessEqual
        | Sign::Greater
        | Sign::GreaterEqual
        | Sign::OpenParen
        | Sign::CloseParen
        | Sign::OpenBracket
        | Sign::CloseBracket => true,
        _ => false,
    }
}

// Whether it may stand beside a call.
fn is_beside(terminal: Terminal<'_, '_>) -> bool
    ensures { result ≡ is_beside (seen_terminal terminal.entry) }
{
    match terminal {
        Terminal::Number(_) | Terminal::BadNumber | Terminal::Name(_) => true,
        Terminal::Sign(sign) => is_strict(sign),
        _ => false,
    }
}

// Whether a call begins.
fn opens_call(token: Token<'_, '_>, rest: Ahead<'_, '_, '_>) -> bool
    ensures { result ≡ opens_call (seen token.entry) (ahead rest.entry) }
{
    let mut ahead = rest;
    match ahead.next() {
        Some(bracket) => token.terminal.is_name() && bracket.terminal.is_sign(Sign::OpenParen),
        None => false,
    }
}

/// Behind how many tokens a call stands in the value.
pub fn before_call(start: Ahead<'_, '_, '_>) -> Result<Option<usize>, AllocError>
    ensures { IfOk result (λ o. option_map (λ (n : ℕ). n) o ≡ before_call 0 (ahead start.entry)) }
{
    let mut count = 0_usize;
    let mut ahead = start;
    'tokens: while let Some(token) = ahead.next() {
        if opens_call(token, ahead) {
            return Ok(Some(count));
        }
        if !is_beside(token.terminal) {
            return Ok(None);
        }
        count = count.checked_add(1).ok_or(AllocError)?;
    }
    Ok(None)
}

// How many tokens stand between a call and the semicolon, where none of them calls.
fn behind_call(start: Ahead<'_, '_, '_>) -> Result<Option<usize>, AllocError>
    ensures { IfOk result (λ o. option_map (λ (n : ℕ). n) o ≡ behind_call 0 (ahead start.entry)) }
{
    let mut count = 0_usize;
    let mut ahead = start;
    'tokens: while let Some(token) = ahead.next() {
        if token.terminal.is_sign(Sign::Semicolon) {
            return Ok(Some(count));
        }
        if !is_beside(token.terminal) || opens_call(token, ahead) {
            return Ok(None);
        }
        count = count.checked_add(1).ok_or(AllocError)?;
    }
    Ok(None)
}

fn ends_here(start: Ahead<'_, '_, '_>) -> bool
    ensures { result ≡ ends_here (ahead start.entry) }
{
    let mut ahead = start;
    match ahead.next() {
        Some(token) => token.terminal.is_sign(Sign::Semicolon),
        None => false,
    }
}

/// The first so many tokens.
pub fn taken<'a, 'l>(
    alloc: Global,
    start: Ahead<'a, 'l, '_>,
    count: usize,
) -> Result<Vec<Token<'a, 'l>>, AllocError>
    ensures { IfOk result (λ v. seen_all v.items ≡ take count (ahead start.entry)) }
{
    let mut ahead = start;
    let mut left = count;
    let mut done = Vec::new(alloc);
    'tokens: while left > 0 {
        let Some(token) = ahead.next() else {
            return Ok(done);
        };
        done.push(token)?;
        left -= 1;
    }
    Ok(done)
}

impl<'a, 'l, 's> Front<'a, 'l, 's> {
    ghost use Rattle.std.specs.Prelude.{◌≡◌, ℕ, IfOk};
    ghost use Rattle.std.specs.Option.{option_map};
    ghost use Rattle.c_grammar.specs.Functions.{alone, back_len};
    ghost use Rattle.c_terminals.specs.Ahead.{ahead};
    ghost use Rattle.c_written.specs.Functions.{seen_front};

    /// That of a call that is the statement.
    pub fn alone() -> Front<'a, 'l, 's>
        ensures { seen_front result ≡ alone }
    {
        Front {
            left: &[],
            value: &[],
        }
    }

    /// How many tokens stand behind the call.
    pub fn back_len(self, start: Ahead<'_, '_, '_>) -> Result<Option<usize>, AllocError>
        ensures { IfOk result (λ o. option_map (λ (n : ℕ). n) o ≡ back_len (seen_front self.entry) (ahead start.entry)) }
    {
        if !self.left.is_empty() {
            return behind_call(start);
        }
        if ends_here(start) {
            return Ok(Some(0));
        }
        Ok(None)
    }
}
