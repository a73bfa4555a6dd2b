//! Arrays that are pointers in C, where a target uses them: on its line they are said to be present. Where a line orders by such
//! a pointer, it gets a clause that names nothing.

ghost use Rattle.std.specs.Prelude.{◌≡◌, ◌++◌, ◌∷◌, false, if◌then◌else◌, map, [], IfOk, OnOk};
ghost use Rattle.c_grammar.specs.Blocks.{bare};
ghost use Rattle.c_grammar.specs.Presence.{begins_list, begins_section, clauses_for, goes_on, guarded, guarded_item, guarded_tokens, is_else, is_mapped, is_other, is_pointer, is_target, line_clauses, map_clauses, no_clause, opens_part, orders, present_clause, target_column};
ghost use Rattle.directives.specs.Ahead.{seen_line};
ghost use Rattle.directives.specs.Seen.{seen_lexeme, seen_placed};
ghost use Rattle.directives.specs.Spells.{kinds_of};
ghost use Rattle.c_written.specs.Forms.{all_placed};
ghost use Rattle.c_terminals.specs.Held.{seen_written, written_all};
ghost use Rattle.c_terminals.specs.Seen.{seen, seen_all};
ghost use Rattle.c_written.specs.Spots.{all_kinds};

use crate::line_forms::{is_name, is_sign};
use crate::spots::{closes_list, opens_list};
use crate::used::uses;
use c_terminals::{Terminal, Token, Written, WrittenTerminal, is_among};
use c_tokens::Sign;
use directives::{Lexeme, LineTokens, PlacedLexeme, Word};
use std::alloc::{AllocError, Global};

// Behind the word `target`.
fn is_other(lexeme: Lexeme<'_>) -> bool
    ensures { result ≡ is_other (seen_lexeme lexeme.entry) }
{
    is_name(lexeme, b"data")
        || is_name(lexeme, b"enter")
        || is_name(lexeme, b"exit")
        || is_name(lexeme, b"update")
}

/// The line of a region that runs on a device.
pub fn is_target(tokens: &[PlacedLexeme<'_>]) -> bool
    ensures { result ≡ is_target (all_kinds tokens.now) }
{
    match tokens {
        [_, _, word, next, ..] => is_name(word.lexeme, b"target") && !is_other(next.lexeme),
        _ => false,
    }
}

/// Whether the name stands in a map clause.
pub fn is_mapped(name: &[u8], tokens: &[PlacedLexeme<'_>]) -> bool
    ensures { result ≡ is_mapped name.now 0 false (all_kinds tokens.now) }
{
    let mut depth = 0usize;
    let mut map = false;
    let mut rest = tokens;
    'tokens: while let [token, behind @ ..] = rest {
        rest = behind;
        if opens_list(token.lexeme) {
            depth += 1;
        } else if closes_list(token.lexeme) {
            depth = depth.saturating_sub(1);
        } else if depth == 0 {
            map = is_name(token.lexeme, b"map");
        } else if map && is_name(token.lexeme, name) {
            return true;
        }
    }
    false
}

pub fn opens_part(token: Token<'_, '_>) -> bool
    ensures { result ≡ opens_part (seen token.entry) }
{
    token.terminal.is_sign(Sign::OpenBrace) || token.terminal.is_sign(Sign::OpenParen)
}

/// Whether the word `else` stands next.
pub fn is_else(tokens: &[Token<'_, '_>]) -> bool
    ensures { result ≡ is_else (seen_all tokens.now) }
{
    match tokens {
        [next, ..] => next.terminal.is_word(Word::Else),
        [] => false,
    }
}

/// The region goes on behind a brace that closes one of so many parts.
pub fn goes_on(depth: usize, behind: &[Token<'_, '_>]) -> bool
    ensures { result ≡ goes_on depth (seen_all behind.now) }
{
    depth > 1 || is_else(behind)
}

// Adds the clause that an array is present.
fn put_clause<'a>(
    clauses: &mut Vec<PlacedLexeme<'a>>,
    column: usize,
    name: &'a [u8],
) -> Result<(), AllocError>
    ensures { OnOk result (all_placed clauses.new.items ≡ all_placed clauses.old.items ++ present_clause column name.now) }
{
    clauses.extend_from_slice(&[
        PlacedLexeme {
            lexeme: Lexeme::Name(b"map"),
            column,
        },
        PlacedLexeme {
            lexeme: Lexeme::Sign(Sign::OpenParen),
            column,
        },
        PlacedLexeme {
            lexeme: Lexeme::Name(b"present"),
            column,
        },
        PlacedLexeme {
            lexeme: Lexeme::Sign(Sign::Comma),
            column,
        },
        PlacedLexeme {
            lexeme: Lexeme::Name(b"alloc"),
            column,
        },
        PlacedLexeme {
            lexeme: Lexeme::Sign(Sign::Colon),
            column,
        },
        PlacedLexeme {
            lexeme: Lexeme::Name(name),
            column,
        },
        PlacedLexeme {
            lexeme: Lexeme::Sign(Sign::CloseParen),
            column,
        },
    ])?;
    Ok(())
}

fn clauses_for<'a>(
    alloc: Global,
    names: &[&'a [u8]],
    column: usize,
    tokens: &[PlacedLexeme<'a>],
    behind: &[Token<'a, '_>],
) -> Result<Vec<PlacedLexeme<'a>>, AllocError>
    ensures { IfOk result (λ v. all_placed v.items ≡ clauses_for (map (λ x. x.now) names.now) column (all_kinds tokens.now) (bare (seen_all behind.now))) }
{
    let mut clauses = Vec::new(alloc);
    'names: for name in names {
        if uses(name, behind) && !is_mapped(name, tokens) {
            put_clause(&mut clauses, column, name)?;
        }
    }
    Ok(clauses)
}

// The clauses that these arrays are present, if the line is that of a target.
fn map_clauses<'a>(
    alloc: Global,
    names: &[&'a [u8]],
    column: usize,
    tokens: &[PlacedLexeme<'a>],
    behind: &[Token<'a, '_>],
) -> Result<Vec<PlacedLexeme<'a>>, AllocError>
    ensures { IfOk result (λ v. all_placed v.items ≡ map_clauses (map (λ x. x.now) names.now) column (all_kinds tokens.now) (bare (seen_all behind.now))) }
{
    if is_target(tokens) {
        clauses_for(alloc, names, column, tokens, behind)
    } else {
        Ok(Vec::new(alloc))
    }
}

fn begins_section(tokens: &[PlacedLexeme<'_>]) -> bool
    ensures { result ≡ begins_section (all_kinds tokens.now) }
{
    match tokens {
        [next, ..] => is_sign(next.lexeme, Sign::OpenBracket),
        [] => false,
    }
}

// Whether a token is one of these names, without a section behind it.
fn is_pointer(names: &[&[u8]], lexeme: Lexeme<'_>, behind: &[PlacedLexeme<'_>]) -> bool
    ensures { result ≡ is_pointer (map (λ x. x.now) names.now) (seen_lexeme lexeme.entry) (all_kinds behind.now) }
{
    match lexeme {
        Lexeme::Name(name) => is_among(names, name) && !begins_section(behind),
        _ => false,
    }
}

// The sign behind which a clause `depend` lists what it orders.
fn begins_list(depth: usize, lexeme: Lexeme<'_>) -> bool
    ensures { result ≡ begins_list depth (seen_lexeme lexeme.entry) }
{
    depth == 1 && is_sign(lexeme, Sign::Colon)
}

// Whether such a name is listed in a clause `depend`.
fn orders(names: &[&[u8]], tokens: &[PlacedLexeme<'_>]) -> bool
    ensures { result ≡ orders (map (λ x. x.now) names.now) 0 false false (all_kinds tokens.now) }
{
    let mut depth = 0usize;
    let mut depend = false;
    let mut listed = false;
    let mut rest = tokens;
    'tokens: while let [token, behind @ ..] = rest {
        rest = behind;
        if opens_list(token.lexeme) {
            depth += 1;
        } else if closes_list(token.lexeme) {
            depth = depth.saturating_sub(1);
        } else if depth == 0 {
            depend = is_name(token.lexeme, b"depend");
            listed = false;
        } else if listed && (depth == 1 && is_pointer(names, token.lexeme, behind)) {
            return true;
        } else {
            listed = listed || (depend && begins_list(depth, token.lexeme));
        }
    }
    false
}

// Adds a clause that names nothing.
fn put_nothing(clauses: &mut Vec<PlacedLexeme<'_>>, column: usize) -> Result<(), AllocError>
    ensures { OnOk result (all_placed clauses.new.items ≡ all_placed clauses.old.items ++ no_clause column) }
{
    clauses.extend_from_slice(&[
        PlacedLexeme {
            lexeme: Lexeme::Name(b"private"),
            column,
        },
        PlacedLexeme {
            lexeme: Lexeme::Sign(Sign::OpenParen),
            column,
        },
        PlacedLexeme {
            lexeme: Lexeme::Sign(Sign::CloseParen),
            column,
        },
    ])?;
    Ok(())
}

// Adds one where such a name is listed.
fn put_orders(
    clauses: &mut Vec<PlacedLexeme<'_>>,
    names: &[&[u8]],
    column: usize,
    tokens: &[PlacedLexeme<'_>],
) -> Result<(), AllocError>
    ensures { OnOk result (all_placed clauses.new.items ≡ all_placed clauses.old.items ++
        (if orders (map (λ x. x.now) names.now) 0 false false (all_kinds tokens.now) then no_clause column else [])) }
{
    if orders(names, tokens) {
        return put_nothing(clauses, column);
    }
    Ok(())
}

// What is put on a line.
fn line_clauses<'a>(
    alloc: Global,
    names: &[&'a [u8]],
    column: usize,
    tokens: &[PlacedLexeme<'a>],
    behind: &[Token<'a, '_>],
) -> Result<Vec<PlacedLexeme<'a>>, AllocError>
    ensures { IfOk result (λ v. all_placed v.items ≡ line_clauses (map (λ x. x.now) names.now) column (all_kinds tokens.now) (bare (seen_all behind.now))) }
{
    let [_, _, _, clauses @ ..] = tokens else {
        return Ok(Vec::new(alloc));
    };
    let mut put = map_clauses(alloc, names, column, tokens, behind)?;
    put_orders(&mut put, names, column, clauses)?;
    Ok(put)
}

pub fn target_column(tokens: &[PlacedLexeme<'_>]) -> usize
    ensures { result ≡ target_column (all_placed tokens.now) }
{
    match tokens {
        [_, _, word, ..] => word.column,
        _ => 0,
    }
}

// A line with the clauses for these arrays.
fn with_clauses<'a>(
    alloc: Global,
    names: &[&'a [u8]],
    line: &LineTokens<'a>,
    behind: &[Token<'a, '_>],
) -> Result<LineTokens<'a>, AllocError>
    ensures { IfOk result (λ l. seen_line l ≡ guarded_tokens (map (λ x. x.now) names.now) (kinds_of (seen_line line.now)) (bare (seen_all behind.now)) (seen_line line.now)) }
{
    let tokens = line.tokens();
    let column = target_column(tokens);
    let mut clauses = line_clauses(alloc, names, column, tokens, behind)?;
    let mut put = Vec::new(alloc);
    let last = tokens.len().saturating_sub(1);
    put.extend_from_slice(&tokens[..last])?;
    put.append(&mut clauses)?;
    put.extend_from_slice(&tokens[last..])?;
    Ok(LineTokens::of(put))
}

fn guarded_token<'a>(
    alloc: Global,
    names: &[&'a [u8]],
    token: Token<'a, '_>,
    behind: &[Token<'a, '_>],
) -> Result<Written<'a>, AllocError>
    ensures { IfOk result (λ w. seen_written w ≡ guarded_item (map (λ x. x.now) names.now) (seen token.entry) (seen token.entry).terminal (bare (seen_all behind.now))) }
{
    if let Terminal::Line(line) = token.terminal {
        if token.terminal.is_directive() {
            return Ok(Written {
                terminal: WrittenTerminal::Line(with_clauses(alloc, names, line, behind)?),
                line: token.line,
                column: token.column,
            });
        }
    }
    Written::of(alloc, token)
}

/// The tokens with the clauses for these arrays on the lines of targets that use them, and on those that order by one.
pub fn guarded<'a>(
    alloc: Global,
    names: &[&'a [u8]],
    tokens: &[Token<'a, '_>],
) -> Result<Vec<Written<'a>>, AllocError>
    ensures { IfOk result (λ v. written_all v.items ≡ guarded (map (λ x. x.now) names.now) (seen_all tokens.now)) }
{
    let mut done = Vec::new(alloc);
    let mut rest = tokens;
    'tokens: while let [token, behind @ ..] = rest {
        rest = behind;
        done.push(guarded_token(alloc, names, *token, behind)?)?;
    }
    Ok(done)
}
