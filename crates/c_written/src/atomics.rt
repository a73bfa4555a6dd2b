//! Lines `atomic` in front of updates.

ghost use Rattle.std.specs.Prelude.{◌≡◌, IfOk, true};
ghost use Rattle.c_grammar.specs.Updates.{atomic_tokens, behind_word, is_atomic, is_compare, mark_at};
ghost use Rattle.directives.specs.Ahead.{seen_line};
ghost use Rattle.directives.specs.Spells.{kinds_of};
ghost use Rattle.c_written.specs.Atomics.{ends_atomic, ends_compare};
ghost use Rattle.c_written.specs.Forms.{all_placed};
ghost use Rattle.c_terminals.specs.Held.{seen_written};
ghost use Rattle.c_terminals.specs.Seen.{seen};
ghost use Rattle.c_written.specs.Spots.{all_kinds};

use crate::line_forms::is_name;
use c_terminals::{Token, Written, WrittenTerminal};
use directives::{Lexeme, LineTokens, PlacedLexeme, same_lexeme};
use std::alloc::{AllocError, Global};

// Whether the line ends behind the word `atomic`, or behind one word `update` more.
fn ends_atomic(tokens: &[PlacedLexeme<'_>]) -> bool
    ensures { result ≡ ends_atomic (all_kinds tokens.now) }
{
    match tokens {
        [end] => same_lexeme(Lexeme::Ended, end.lexeme),
        [update, end] => {
            is_name(update.lexeme, b"update") && same_lexeme(Lexeme::Ended, end.lexeme)
        }
        _ => false,
    }
}

/// Whether the words of a line are `atomic`, or `atomic update`, and nothing else.
pub fn is_atomic(tokens: &[PlacedLexeme<'_>]) -> bool
    ensures { result ≡ is_atomic (all_kinds tokens.now) }
{
    match tokens {
        [_, _, word, behind @ ..] => is_name(word.lexeme, b"atomic") && ends_atomic(behind),
        _ => false,
    }
}

// Whether the line ends behind the word `compare`.
fn ends_compare(tokens: &[PlacedLexeme<'_>]) -> bool
    ensures { result ≡ ends_compare (all_kinds tokens.now) }
{
    match tokens {
        [compare, end] => {
            is_name(compare.lexeme, b"compare") && same_lexeme(Lexeme::Ended, end.lexeme)
        }
        _ => false,
    }
}

/// Whether the words of a line are `atomic compare`, and nothing else.
pub fn is_compare(tokens: &[PlacedLexeme<'_>]) -> bool
    ensures { result ≡ is_compare (all_kinds tokens.now) }
{
    match tokens {
        [_, _, word, behind @ ..] => is_name(word.lexeme, b"atomic") && ends_compare(behind),
        _ => false,
    }
}

// Behind the word `atomic`, without one word more.
fn behind_word<'a, 's>(tokens: &'s [PlacedLexeme<'a>]) -> &'s [PlacedLexeme<'a>]
    ensures { all_placed result.now ≡ behind_word (all_placed tokens.now) }
{
    match tokens {
        [_, _, ..] => &tokens[1..],
        _ => tokens,
    }
}

fn atomic_tokens<'a>(
    alloc: Global,
    updates: bool,
    tokens: &[PlacedLexeme<'a>],
) -> Result<Vec<PlacedLexeme<'a>>, AllocError>
    ensures { IfOk result (λ v. all_placed v.items ≡ atomic_tokens updates (all_placed tokens.now)) }
{
    let [first, second, word, behind @ ..] = tokens else {
        return Vec::from_slice(alloc, tokens);
    };
    let mut put = Vec::from_slice(alloc, &[*first, *second, *word])?;
    if updates {
        put.push(PlacedLexeme {
            lexeme: Lexeme::Name(b"update"),
            column: word.column,
        })?;
    }
    put.extend_from_slice(behind_word(behind))?;
    Ok(put)
}

/// Such a line with the word `update`, or without it.
pub fn atomic_line<'a>(
    alloc: Global,
    updates: bool,
    line: &LineTokens<'a>,
) -> Result<LineTokens<'a>, AllocError>
    requires { is_atomic (kinds_of (seen_line line.now)) ≡ true }
    ensures { IfOk result (λ l. seen_line l ≡ atomic_tokens updates (seen_line line.now)) }
{
    let tokens = atomic_tokens(alloc, updates, line.tokens())?;
    Ok(LineTokens::of(tokens))
}

/// A line `atomic compare` as `atomic update`.
pub fn compare_line<'a>(alloc: Global, line: &LineTokens<'a>) -> Result<LineTokens<'a>, AllocError>
    requires { is_compare (kinds_of (seen_line line.now)) ≡ true }
    ensures { IfOk result (λ l. seen_line l ≡ atomic_tokens true (seen_line line.now)) }
{
    let tokens = atomic_tokens(alloc, true, line.tokens())?;
    Ok(LineTokens::of(tokens))
}

/// The line in front of an update that a reduction gathers.
pub fn mark_at<'a>(alloc: Global, token: Token<'a, '_>) -> Result<Written<'a>, AllocError>
    ensures { IfOk result (λ w. seen_written w ≡ mark_at (seen token.entry)) }
{
    let column = token.column;
    let words = Vec::from_slice(
        alloc,
        &[
            PlacedLexeme {
                lexeme: Lexeme::Name(b"pragma"),
                column,
            },
            PlacedLexeme {
                lexeme: Lexeme::Name(b"omp"),
                column,
            },
            PlacedLexeme {
                lexeme: Lexeme::Name(b"atomic"),
                column,
            },
            PlacedLexeme {
                lexeme: Lexeme::Name(b"update"),
                column,
            },
            PlacedLexeme {
                lexeme: Lexeme::Ended,
                column,
            },
        ],
    )?;
    Ok(Written {
        terminal: WrittenTerminal::Line(LineTokens::of(words)),
        line: token.line,
        column,
    })
}
