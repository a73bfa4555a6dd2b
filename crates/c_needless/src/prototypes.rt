//! Declarations of functions without a body.

ghost use Rattle.std.specs.Prelude.{◌≡◌, ℕ, IfOk};
ghost use Rattle.std.specs.Option.{option_map};
ghost use Rattle.c_grammar.specs.FunctionHeads.{is_type};
ghost use Rattle.c_grammar.specs.Needless.{closing, declared, is_specified, named};
ghost use Rattle.c_terminals.specs.Ahead.{ahead};
ghost use Rattle.c_terminals.specs.Seen.{seen, seen_terminal};

use c_choices::is_boundary;
use c_terminals::{Ahead, Terminal, Token};
use c_tokens::Sign;
use directives::Word;
use std::alloc::AllocError;

fn is_type(terminal: Terminal<'_, '_>) -> bool
    ensures { result ≡ is_type (seen_terminal terminal.entry) }
{
    terminal.is_word(Word::Void) || terminal.is_word(Word::Uint64) || terminal.is_word(Word::Int)
}

fn is_specified(terminal: Terminal<'_, '_>) -> bool
    ensures { result ≡ is_specified (seen_terminal terminal.entry) }
{
    terminal.is_named(b"static".as_slice())
        || terminal.is_named(b"inline".as_slice())
        || terminal.is_named(b"extern".as_slice())
}

// How many tokens there are up to the semicolon behind the bracket that closes the one before them, and so many more.
fn closing(more: usize, rest: Ahead<'_, '_, '_>) -> Result<Option<usize>, AllocError>
    ensures { IfOk result (λ o. option_map (λ (n : ℕ). n) o ≡ closing 0 more (ahead rest.entry)) }
{
    let mut ahead = rest;
    let mut depth = 0_usize;
    let mut count = more;
    'tokens: while let Some(token) = ahead.next() {
        if is_boundary(token.terminal) {
            return Ok(None);
        }
        if token.terminal.is_sign(Sign::OpenParen) {
            depth = depth.checked_add(1).ok_or(AllocError)?;
        } else if token.terminal.is_sign(Sign::CloseParen) {
            if depth == 0 {
                let Some(end) = ahead.next() else {
                    return Ok(None);
                };
                if !end.terminal.is_sign(Sign::Semicolon) {
                    return Ok(None);
                }
                return Ok(Some(count.checked_add(2).ok_or(AllocError)?));
            }
            depth -= 1;
        }
        count = count.checked_add(1).ok_or(AllocError)?;
    }
    Ok(None)
}

// The same behind a type.
fn named(
    more: usize,
    token: Token<'_, '_>,
    rest: Ahead<'_, '_, '_>,
) -> Result<Option<usize>, AllocError>
    ensures { IfOk result (λ o. option_map (λ (n : ℕ). n) o ≡ named more (seen token.entry) (ahead rest.entry)) }
{
    let mut ahead = rest;
    let Some(name) = ahead.next() else {
        return Ok(None);
    };
    let Some(bracket) = ahead.next() else {
        return Ok(None);
    };
    if is_type(token.terminal)
        && name.terminal.is_name()
        && bracket.terminal.is_sign(Sign::OpenParen)
    {
        let more = more.checked_add(2).ok_or(AllocError)?;
        return closing(more, ahead);
    }
    Ok(None)
}

/// How many tokens follow the first one, if these declare a function without a body.
pub fn declared(start: Ahead<'_, '_, '_>) -> Result<Option<usize>, AllocError>
    ensures { IfOk result (λ o. option_map (λ (n : ℕ). n) o ≡ declared 0 (ahead start.entry)) }
{
    let mut ahead = start;
    let mut more = 0_usize;
    'words: while let Some(token) = ahead.next() {
        if !is_specified(token.terminal) {
            return named(more, token, ahead);
        }
        more = more.checked_add(1).ok_or(AllocError)?;
    }
    Ok(None)
}
