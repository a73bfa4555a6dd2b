//! Directive lines with the sections of boxed scalars, and with clauses for those that a target uses.

ghost use Rattle.std.specs.Prelude.{◌≡◌, ◌++◌, [], IfOk, OnOk};
ghost use Rattle.c_grammar.specs.Blocks.{bare};
ghost use Rattle.c_grammar.specs.Boxes.{at_begin, begins_bounds, boxed, boxed_item, boxed_lines, boxed_tokens, clauses_for, is_box, section, sectioned, to_clause, to_clauses};
ghost use Rattle.directives.specs.Ahead.{seen_line};
ghost use Rattle.directives.specs.Seen.{seen_lexeme};
ghost use Rattle.directives.specs.Spells.{kinds_of};
ghost use Rattle.c_written.specs.Boxes.{texts};
ghost use Rattle.c_written.specs.Forms.{all_placed};
ghost use Rattle.c_terminals.specs.Held.{seen_written, written_all};
ghost use Rattle.c_terminals.specs.Seen.{seen, seen_all};
ghost use Rattle.c_written.specs.Spots.{all_kinds};

use crate::box_lists::{Listing, add_listed};
use crate::boxes::boxes_of;
use crate::line_forms::is_sign;
use crate::presence::{is_target, target_column};
use crate::used::uses;
use c_terminals::{Terminal, Token, Written, WrittenTerminal, is_among};
use c_tokens::Sign;
use directives::{Lexeme, LineTokens, PlacedLexeme};
use std::alloc::{AllocError, Global};

// [0:1] at a column.
fn put_section(tokens: &mut Vec<PlacedLexeme<'_>>, column: usize) -> Result<(), AllocError>
    ensures { OnOk result (all_placed tokens.new.items ≡ all_placed tokens.old.items ++ section column) }
{
    tokens.extend_from_slice(&[
        PlacedLexeme {
            lexeme: Lexeme::Sign(Sign::OpenBracket),
            column,
        },
        PlacedLexeme {
            lexeme: Lexeme::Number(0),
            column,
        },
        PlacedLexeme {
            lexeme: Lexeme::Sign(Sign::Colon),
            column,
        },
        PlacedLexeme {
            lexeme: Lexeme::Number(1),
            column,
        },
        PlacedLexeme {
            lexeme: Lexeme::Sign(Sign::CloseBracket),
            column,
        },
    ])?;
    Ok(())
}

fn begins_bounds(tokens: &[PlacedLexeme<'_>]) -> bool
    ensures { result ≡ begins_bounds (all_placed tokens.now) }
{
    match tokens {
        [next, ..] => is_sign(next.lexeme, Sign::OpenBracket),
        [] => false,
    }
}

fn is_box(names: &[&[u8]], lexeme: Lexeme<'_>) -> bool
    ensures { result ≡ is_box (texts names.now) (seen_lexeme lexeme.entry) }
{
    match lexeme {
        Lexeme::Name(name) => is_among(names, name),
        _ => false,
    }
}

// The tokens of a line with a section behind each boxed scalar that has none.
fn sectioned<'a>(
    alloc: Global,
    names: &[&'a [u8]],
    tokens: &[PlacedLexeme<'a>],
) -> Result<Vec<PlacedLexeme<'a>>, AllocError>
    ensures { IfOk result (λ v. all_placed v.items ≡ sectioned (texts names.now) at_begin (all_placed tokens.now)) }
{
    let mut put = Vec::new(alloc);
    let mut listing = Listing::begin();
    let mut rest = tokens;
    'tokens: while let [token, behind @ ..] = rest {
        rest = behind;
        put.push(*token)?;
        if listing.is_item() && is_box(names, token.lexeme) && !begins_bounds(behind) {
            put_section(&mut put, token.column)?;
        }
        listing = listing.behind(token.lexeme, behind)?;
    }
    Ok(put)
}

// Adds map(to: NAME[0:1]).
fn put_clause<'a>(
    clauses: &mut Vec<PlacedLexeme<'a>>,
    column: usize,
    name: &'a [u8],
) -> Result<(), AllocError>
    ensures { OnOk result (all_placed clauses.new.items ≡ all_placed clauses.old.items ++ to_clause column name.now) }
{
    clauses.extend_from_slice(&[
        PlacedLexeme {
            lexeme: Lexeme::Name(b"map"),
            column,
        },
        PlacedLexeme {
            lexeme: Lexeme::Sign(Sign::OpenParen),
            column,
        },
        PlacedLexeme {
            lexeme: Lexeme::Name(b"to"),
            column,
        },
        PlacedLexeme {
            lexeme: Lexeme::Sign(Sign::Colon),
            column,
        },
        PlacedLexeme {
            lexeme: Lexeme::Name(name),
            column,
        },
    ])?;
    put_section(clauses, column)?;
    clauses.push(PlacedLexeme {
        lexeme: Lexeme::Sign(Sign::CloseParen),
        column,
    })?;
    Ok(())
}

// For the boxed scalars that the region uses and the line does not list.
fn to_clauses<'a>(
    alloc: Global,
    names: &[&'a [u8]],
    column: usize,
    listed: &[&[u8]],
    region: &[Token<'a, '_>],
) -> Result<Vec<PlacedLexeme<'a>>, AllocError>
    ensures { IfOk result (λ v. all_placed v.items ≡
        to_clauses (texts names.now) column (texts listed.now) (bare (seen_all region.now))) }
{
    let mut clauses = Vec::new(alloc);
    let mut rest = names;
    'names: while let [name, behind @ ..] = rest {
        rest = behind;
        if uses(name, region) && !is_among(listed, name) {
            put_clause(&mut clauses, column, name)?;
        }
    }
    Ok(clauses)
}

fn clauses_for<'a>(
    alloc: Global,
    names: &[&'a [u8]],
    tokens: &[PlacedLexeme<'a>],
    region: &[Token<'a, '_>],
) -> Result<Vec<PlacedLexeme<'a>>, AllocError>
    ensures { IfOk result (λ v. all_placed v.items ≡
        clauses_for (texts names.now) (all_kinds tokens.now) (bare (seen_all region.now)) (all_placed tokens.now)) }
{
    if !is_target(tokens) {
        return Ok(Vec::new(alloc));
    }
    let mut listed = Vec::new(alloc);
    add_listed(&mut listed, tokens)?;
    to_clauses(alloc, names, target_column(tokens), &listed, region)
}

// A line with these sections, and with these clauses before its end.
fn boxed_line<'a>(
    alloc: Global,
    names: &[&'a [u8]],
    line: &LineTokens<'a>,
    region: &[Token<'a, '_>],
) -> Result<LineTokens<'a>, AllocError>
    ensures { IfOk result (λ l. seen_line l ≡ boxed_tokens (texts names.now) (kinds_of (seen_line line.now)) (bare (seen_all region.now)) (seen_line line.now)) }
{
    let tokens = line.tokens();
    let mut clauses = clauses_for(alloc, names, tokens, region)?;
    let sectioned = sectioned(alloc, names, tokens)?;
    let mut put = Vec::new(alloc);
    let last = sectioned.len().saturating_sub(1);
    put.extend_from_slice(&sectioned[..last])?;
    put.append(&mut clauses)?;
    put.extend_from_slice(&sectioned[last..])?;
    Ok(LineTokens::of(put))
}

fn boxed_token<'a>(
    alloc: Global,
    names: &[&'a [u8]],
    token: Token<'a, '_>,
    region: &[Token<'a, '_>],
) -> Result<Written<'a>, AllocError>
    ensures { IfOk result (λ w. seen_written w ≡ boxed_item (texts names.now) (seen token.entry) (seen token.entry).terminal (bare (seen_all region.now))) }
{
    if let Terminal::Line(line) = token.terminal {
        if token.terminal.is_directive() {
            return Ok(Written {
                terminal: WrittenTerminal::Line(boxed_line(alloc, names, line, region)?),
                line: token.line,
                column: token.column,
            });
        }
    }
    Written::of(alloc, token)
}

fn boxed_lines<'a>(
    alloc: Global,
    names: &[&'a [u8]],
    tokens: &[Token<'a, '_>],
) -> Result<Vec<Written<'a>>, AllocError>
    ensures { IfOk result (λ v. written_all v.items ≡ boxed_lines (texts names.now) (seen_all tokens.now)) }
{
    let mut done = Vec::new(alloc);
    let mut rest = tokens;
    'tokens: while let [token, behind @ ..] = rest {
        rest = behind;
        done.push(boxed_token(alloc, names, *token, behind)?)?;
    }
    Ok(done)
}

/// The tokens with the sections and the clauses of the boxed scalars.
pub fn boxed<'a>(alloc: Global, tokens: &[Token<'a, '_>]) -> Result<Vec<Written<'a>>, AllocError>
    ensures { IfOk result (λ v. written_all v.items ≡ boxed (seen_all tokens.now)) }
{
    let names = boxes_of(alloc, tokens)?;
    boxed_lines(alloc, &names, tokens)
}
