//! Which statements are put twice: assignments, declarations and calls of `print`.

ghost use Rattle.std.specs.Prelude.{◌≡◌, ◌<◌, ◌≤◌, ◌+◌, ◌^◌, ◌∷◌, [], None, Some, false, length, take, IfOk, IfSome, MatchOption};
ghost use Rattle.c_grammar.specs.Terminal.{Name};
ghost use Rattle.c_grammar.specs.Blocks.{bare};
ghost use Rattle.c_grammar.specs.Choices.{choice_of, is_bracket, is_choice, is_initial, is_set, left_len, mentions, statement_len};
ghost use Rattle.c_terminals.specs.Ahead.{ahead};
ghost use Rattle.c_terminals.specs.Seen.{seen, seen_all};

use crate::kinds::{brackets_behind, is_boundary, is_question, is_setting};
use c_terminals::{Ahead, Terminal, Token};
use c_tokens::Sign;
use directives::Word;
use std::alloc::{AllocError, Global};

/// At most so many tokens stand between the first of a statement and its semicolon.
const MAX_BETWEEN: usize = 510;

// Behind a name: indices, and a sign that assigns.
fn is_set(tokens: &[Token<'_, '_>]) -> bool
    ensures { result ≡ is_set 0 (seen_all tokens.now) }
{
    let mut brackets = 0usize;
    let mut rest = tokens;
    'tokens: while let [token, behind @ ..] = rest {
        if brackets == 0 && !token.terminal.is_sign(Sign::OpenBracket) {
            return is_setting(token.terminal);
        }
        brackets = brackets_behind(*token, brackets);
        rest = behind;
    }
    false
}

/// Behind a name: how many tokens there are up to the sign `=` that assigns a cell, before any question mark.
pub fn left_len(tokens: &[Token<'_, '_>]) -> Option<usize>
    ensures len { result ≡ left_len 0 0 (seen_all tokens.now) }
    ensures within { IfSome result (λ n. n ≤ length tokens.now) }
{
    let mut brackets = 0usize;
    let mut len = 0usize;
    let mut rest = tokens;
    'tokens: while let [token, behind @ ..] = rest {
        if is_question(*token) {
            return None;
        }
        if brackets == 0 && !token.terminal.is_sign(Sign::OpenBracket) {
            if token.terminal.is_sign(Sign::Equal) && len > 0 {
                return Some(len + 1);
            }
            return None;
        }
        len += 1;
        brackets = brackets_behind(*token, brackets);
        rest = behind;
    }
    None
}

fn is_bracket(tokens: &[Token<'_, '_>]) -> bool
    ensures { result ≡ is_bracket (seen_all tokens.now) }
{
    match tokens {
        [token, ..] => token.terminal.is_sign(Sign::OpenParen),
        [] => false,
    }
}

fn mentions(name: &[u8], tokens: &[Token<'_, '_>]) -> bool
    ensures { result ≡ mentions (Name name.now) (seen_all tokens.now) }
{
    let mut rest = tokens;
    'tokens: while let [token, behind @ ..] = rest {
        if token.terminal.is_named(name) {
            return true;
        }
        rest = behind;
    }
    false
}

// `NAME =` and what does not have that name.
fn is_initial(tokens: &[Token<'_, '_>]) -> bool
    ensures { result ≡ is_initial (seen_all tokens.now) }
{
    let [name, equal, value @ ..] = tokens else {
        return false;
    };
    match name.terminal {
        Terminal::Name(text) => equal.terminal.is_sign(Sign::Equal) && !mentions(text, value),
        _ => false,
    }
}

// A token and those behind it up to the end of its statement.
fn is_choice(token: Token<'_, '_>, rest: &[Token<'_, '_>]) -> bool
    ensures { result ≡ is_choice (seen token.entry) (seen_all rest.now) }
{
    if token.terminal.is_word(Word::Uint64) {
        return is_initial(rest);
    }
    if token.terminal.is_word(Word::Print) {
        return is_bracket(rest);
    }
    token.terminal.is_name() && is_set(rest)
}

/// So many tokens follow up to the end of the statement, if one of them is a question mark.
fn statement_len(start: Ahead<'_, '_, '_>) -> Option<usize>
    ensures { result ≡ statement_len false 0 0 (ahead start.entry) }
{
    let mut ahead = start;
    let mut asks = false;
    let mut between = 0usize;
    let mut brackets = 0usize;
    'tokens: while let Some(token) = ahead.next() {
        if is_boundary(token.terminal) {
            if asks && brackets == 0 && token.terminal.is_sign(Sign::Semicolon) {
                return Some(between + 1);
            }
            return None;
        }
        if between >= MAX_BETWEEN {
            return None;
        }
        asks = asks || is_question(token);
        between += 1;
        brackets = brackets_behind(token, brackets);
    }
    None
}

/// The next tokens, so many of them.
pub fn next_tokens<'a, 'l>(
    alloc: Global,
    start: Ahead<'a, 'l, '_>,
    count: usize,
) -> Result<Vec<Token<'a, 'l>>, AllocError>
    ensures { IfOk result (λ v. seen_all v.items ≡ take count (ahead start.entry)) }
{
    let mut ahead = start;
    let mut tokens = Vec::new(alloc);
    let mut left = count;
    'tokens: while left > 0 {
        let Some(token) = ahead.next() else {
            return Ok(tokens);
        };
        tokens.push(token)?;
        left -= 1;
    }
    Ok(tokens)
}

/// Where such a statement begins: the tokens behind its first.
pub fn statement<'a, 'l>(
    alloc: Global,
    token: Token<'a, 'l>,
    start: Ahead<'a, 'l, '_>,
) -> Result<Option<Vec<Token<'a, 'l>>>, AllocError>
    ensures { IfOk result (λ o. MatchOption o
        (choice_of (seen token.entry) (ahead start.entry) (statement_len false 0 0 (ahead start.entry)) ≡ None)
        (λ v. (choice_of (seen token.entry) (ahead start.entry) (statement_len false 0 0 (ahead start.entry)) ≡
        Some (length v.items)) × (seen_all v.items ≡ take (length v.items) (ahead start.entry)))) }
{
    let Some(len) = statement_len(start) else {
        return Ok(None);
    };
    let rest = next_tokens(alloc, start, len)?;
    if is_choice(token, &rest) {
        return Ok(Some(rest));
    }
    Ok(None)
}
