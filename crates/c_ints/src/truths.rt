//! `true` and `false`, and the types of scalars.

ghost use Rattle.std.specs.Prelude.{◌≡◌, ◌++◌, IfOk, OnOk, true};
ghost use Rattle.c_grammar.specs.Blocks.{bare};
ghost use Rattle.c_ints.specs.Ints.{declares_truth, is_any_type, is_flag_type, is_truth, number_at, numbered};
ghost use Rattle.c_terminals.specs.Ahead.{ahead};
ghost use Rattle.c_terminals.specs.Seen.{seen, seen_all, seen_terminal};

use c_terminals::{Ahead, Terminal, Token};
use directives::Word;
use std::alloc::{AllocError, Global};

fn is_truth(terminal: Terminal<'_, '_>) -> bool
    ensures { result ≡ is_truth (seen_terminal terminal.entry) }
{
    terminal.is_named(b"true") || terminal.is_named(b"false")
}

/// Whether it is `bool` or `_Bool`.
pub fn is_flag_type(terminal: Terminal<'_, '_>) -> bool
    ensures { result ≡ is_flag_type (seen_terminal terminal.entry) }
{
    terminal.is_named(b"bool") || terminal.is_named(b"_Bool")
}

/// Whether it is a type of scalars.
pub fn is_any_type(terminal: Terminal<'_, '_>) -> bool
    ensures { result ≡ is_any_type (seen_terminal terminal.entry) }
{
    terminal.is_word(Word::Uint64) || terminal.is_word(Word::Int) || is_flag_type(terminal)
}

// Whether a token and those behind it declare `true` or `false`.
fn declares_truth(token: Token<'_, '_>, rest: &[Token<'_, '_>]) -> bool
    ensures { result ≡ declares_truth (seen token.entry) (bare (seen_all rest.now)) }
{
    let mut ahead = Ahead::new(rest);
    match ahead.next() {
        None => false,
        Some(name) => is_any_type(token.terminal) && is_truth(name.terminal),
    }
}

// The number that `true` or `false` is.
fn number_at<'a, 'l>(token: Token<'a, 'l>) -> Token<'a, 'l>
    ensures { seen result ≡ number_at (seen token.entry) }
{
    if token.terminal.is_named(b"true") {
        token.at(Terminal::Number(1))
    } else if token.terminal.is_named(b"false") {
        token.at(Terminal::Number(0))
    } else {
        token
    }
}

/// The tokens with numbers for `true` and `false`, where neither is declared.
pub fn numbered<'a, 'l>(
    alloc: Global,
    tokens: &[Token<'a, 'l>],
) -> Result<Vec<Token<'a, 'l>>, AllocError>
    ensures { IfOk result (λ v. seen_all v.items ≡ numbered true (seen_all tokens.now)) }
{
    let mut done = Vec::new(alloc);
    let mut free = true;
    let mut rest = tokens;
    'tokens: while let [token, behind @ ..] = rest {
        if free {
            done.push(number_at(*token))?;
            free = !declares_truth(*token, behind);
        } else {
            done.push(*token)?;
        }
        rest = behind;
    }
    Ok(done)
}
