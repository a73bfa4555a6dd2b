//! The line that names the boxed scalars, before `main`.

ghost use Rattle.std.specs.Prelude.{◌≡◌, ◌++◌, ◌∷◌, ◌&&◌, not, IfOk, OnOk};
ghost use Rattle.c_grammar.specs.Allocations.{begins_main};
ghost use Rattle.c_grammar.specs.Blocks.{Items, bare, is_directive};
ghost use Rattle.c_grammar.specs.Boxes.{announced, before_main, boxing_at, boxing_lexemes, named_before};
ghost use Rattle.c_grammar.specs.LineForms.{all_at};
ghost use Rattle.directives.specs.Ahead.{seen_line};
ghost use Rattle.c_written.specs.Boxes.{announced_rest, texts};
ghost use Rattle.c_written.specs.Forms.{all_placed};
ghost use Rattle.c_terminals.specs.Held.{seen_written, written_all};
ghost use Rattle.c_terminals.specs.Seen.{seen, seen_all};

use crate::allocated::begins_main;
use crate::boxes::boxes_of;
use c_terminals::{Ahead, Token, Written, WrittenTerminal};
use directives::{Lexeme, LineTokens, PlacedLexeme, Word};
use std::alloc::{AllocError, Global};

// The tokens of the line, at a column.
fn boxing_lexemes<'a>(
    alloc: Global,
    column: usize,
    names: &[&'a [u8]],
) -> Result<Vec<PlacedLexeme<'a>>, AllocError>
    ensures { IfOk result (λ v. all_placed v.items ≡ all_at column (boxing_lexemes (texts names.now))) }
{
    let mut words = Vec::from_slice(
        alloc,
        &[
            PlacedLexeme {
                lexeme: Lexeme::Name(b"pragma"),
                column,
            },
            PlacedLexeme {
                lexeme: Lexeme::Name(b"omp"),
                column,
            },
            PlacedLexeme {
                lexeme: Lexeme::Name(b"0"),
                column,
            },
        ],
    )?;
    let mut rest = names;
    'names: while let [name, behind @ ..] = rest {
        rest = behind;
        words.push(PlacedLexeme {
            lexeme: Lexeme::Name(name),
            column,
        })?;
    }
    words.push(PlacedLexeme {
        lexeme: Lexeme::Ended,
        column,
    })?;
    Ok(words)
}

fn boxing_line<'a>(
    alloc: Global,
    column: usize,
    names: &[&'a [u8]],
) -> Result<LineTokens<'a>, AllocError>
    ensures { IfOk result (λ l. seen_line l ≡ all_at column (boxing_lexemes (texts names.now))) }
{
    let words = boxing_lexemes(alloc, column, names)?;
    Ok(LineTokens::of(words))
}

// The line, at a token.
fn boxing_at<'a>(
    alloc: Global,
    token: Token<'a, '_>,
    names: &[&'a [u8]],
) -> Result<Written<'a>, AllocError>
    ensures { IfOk result (λ w. seen_written w ≡ boxing_at (seen token.entry) (texts names.now)) }
{
    Ok(Written {
        terminal: WrittenTerminal::Line(boxing_line(alloc, token.column, names)?),
        line: token.line,
        column: token.column,
    })
}

// Adds the line before a token, where there is a name.
fn put_line<'a>(
    alloc: Global,
    done: &mut Vec<Written<'a>>,
    token: Token<'a, '_>,
    names: &[&'a [u8]],
) -> Result<(), AllocError>
    ensures { OnOk result ((is : Items) → written_all done.new.items ++ seen token.entry ∷ is
        ≡ written_all done.old.items ++ named_before (texts names.now) (seen token.entry ∷ is)) }
{
    match names {
        [] => Ok(()),
        _ => {
            done.push(boxing_at(alloc, token, names)?)?;
            Ok(())
        }
    }
}

// Whether a token is the first of `main`.
fn is_main(token: Token<'_, '_>, behind: &[Token<'_, '_>]) -> bool
    ensures { result ≡ (begins_main (seen token.entry) (bare (seen_all behind.now)) && not (is_directive (seen token.entry).terminal)) }
{
    begins_main(token, Ahead::new(behind)) && !token.terminal.is_directive()
}

// Adds a token, and the line before it where it stands; whether it stands now.
fn put_token<'a>(
    alloc: Global,
    done: &mut Vec<Written<'a>>,
    put: bool,
    names: &[&'a [u8]],
    token: Token<'a, '_>,
    behind: &[Token<'a, '_>],
) -> Result<bool, AllocError>
    ensures { IfOk result (λ b. written_all done.new.items ++ announced_rest b (texts names.now) (seen_all behind.now)
        ≡ written_all done.old.items ++ announced_rest put (texts names.now) (seen token.entry ∷ seen_all behind.now)) }
{
    if put {
        done.push(Written::of(alloc, token)?)?;
        return Ok(true);
    }
    if !is_main(token, behind) {
        done.push(Written::of(alloc, token)?)?;
        return Ok(false);
    }
    put_line(alloc, done, token, names)?;
    done.push(Written::of(alloc, token)?)?;
    Ok(true)
}

fn before_main<'a>(
    alloc: Global,
    names: &[&'a [u8]],
    tokens: &[Token<'a, '_>],
) -> Result<Vec<Written<'a>>, AllocError>
    ensures { IfOk result (λ v. written_all v.items ≡ before_main (texts names.now) (seen_all tokens.now)) }
{
    let mut done = Vec::new(alloc);
    let mut put = false;
    let mut rest = tokens;
    'tokens: while let [token, behind @ ..] = rest {
        rest = behind;
        put = put_token(alloc, &mut done, put, names, *token, behind)?;
    }
    Ok(done)
}

/// The tokens with the line that names the boxed scalars.
pub fn announced<'a>(
    alloc: Global,
    tokens: &[Token<'a, '_>],
) -> Result<Vec<Written<'a>>, AllocError>
    ensures { IfOk result (λ v. written_all v.items ≡ announced (seen_all tokens.now)) }
{
    let names = boxes_of(alloc, tokens)?;
    before_main(alloc, &names, tokens)
}
