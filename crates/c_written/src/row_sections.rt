//! Sections of arrays with rows, on directive lines: what is said of rows is said of the cells of an array of one dimension.

ghost use Rattle.std.specs.Prelude.{◌≡◌, ◌∷◌, ◌++◌, IfOk, OnOk, Some};
ghost use Rattle.c_grammar.specs.Grids.{Elsewhere, bound_at, in_rows, is_whole_row, name_at, scaled, term_in_rows};
ghost use Rattle.c_grammar.specs.Lexeme.{Numbered};
ghost use Rattle.directives.specs.Ahead.{seen_line};
ghost use Rattle.directives.specs.Seen.{seen_lexeme, seen_placed};
ghost use Rattle.c_written.specs.Forms.{all_placed};
ghost use Rattle.c_written.specs.RowSections.{next_at, put_at, seen_at};
ghost use Rattle.c_written.specs.Spots.{all_kinds};
ghost use Rattle.c_written.specs.Values.{seen_values};

use crate::line_forms::is_sign;
use crate::values::Values;
use c_tokens::Sign;
use directives::{Lexeme, LineTokens, PlacedLexeme};
use std::alloc::{AllocError, Global};

/// Where a token of a line stands.
#[derive(Clone, Copy)]
enum At {
    Elsewhere,
    /// Behind the name of an array with so many cells in a row.
    Named(u64),
    /// In the brackets behind it, where a term begins or not.
    Within(u64, bool),
    /// Behind these brackets.
    Behind(u64),
    /// Among so many tokens that are left out.
    Left(usize),
}

// A number of rows, in cells.
fn scaled<'a>(columns: u64, number: u64) -> Lexeme<'a>
    ensures { seen_lexeme result ≡ Numbered (scaled columns (Some number)) }
{
    match number.checked_mul(columns) {
        Some(cells) => Lexeme::Number(cells),
        None => Lexeme::BadNumber,
    }
}

// Whether a whole row begins with the bracket, before others.
fn is_whole_row(columns: u64, bracket: Lexeme<'_>, behind: &[PlacedLexeme<'_>]) -> bool
    ensures { result ≡ is_whole_row columns (seen_lexeme bracket.entry ∷ all_kinds behind.now) }
{
    let [first, colon, count, close, ..] = behind else {
        return false;
    };
    let (Lexeme::Number(first), Lexeme::Number(count)) = (first.lexeme, count.lexeme) else {
        return false;
    };
    is_sign(bracket, Sign::OpenBracket)
        && first == 0
        && is_sign(colon.lexeme, Sign::Colon)
        && count == columns
        && is_sign(close.lexeme, Sign::CloseBracket)
}

// Behind a token that belongs to no such array before.
fn name_at(grids: &Values<'_>, lexeme: Lexeme<'_>) -> At
    ensures { seen_at result ≡ name_at (seen_values grids.now) (seen_lexeme lexeme.entry) }
{
    let Lexeme::Name(name) = lexeme else {
        return At::Elsewhere;
    };
    match grids.value(name) {
        Some(columns) => At::Named(columns),
        None => At::Elsewhere,
    }
}

// Behind a token of a bound.
fn bound_at(columns: u64, lexeme: Lexeme<'_>) -> At
    ensures { seen_at result ≡ bound_at columns (seen_lexeme lexeme.entry) }
{
    if is_sign(lexeme, Sign::CloseBracket) {
        return At::Behind(columns);
    }
    let term = is_sign(lexeme, Sign::Colon)
        || is_sign(lexeme, Sign::Plus)
        || is_sign(lexeme, Sign::Minus);
    At::Within(columns, term)
}

// Behind a token, before others.
fn next_at(grids: &Values<'_>, at: At, lexeme: Lexeme<'_>, behind: &[PlacedLexeme<'_>]) -> At
    ensures { seen_at result ≡
        next_at (seen_values grids.now) (seen_at at) (seen_lexeme lexeme.entry) (all_kinds behind.now) }
{
    match at {
        At::Left(count) => {
            if count > 0 {
                return At::Left(count - 1);
            }
        }
        At::Within(columns, _) => return bound_at(columns, lexeme),
        At::Named(columns) => {
            if is_sign(lexeme, Sign::OpenBracket) {
                return At::Within(columns, true);
            }
        }
        At::Behind(columns) => {
            if is_whole_row(columns, lexeme, behind) {
                return At::Left(4);
            }
        }
        At::Elsewhere => {}
    }
    name_at(grids, lexeme)
}

// Puts a token at the beginning of a term, which is taken so many times.
fn put_term<'a>(
    done: &mut Vec<PlacedLexeme<'a>>,
    columns: u64,
    token: PlacedLexeme<'a>,
) -> Result<(), AllocError>
    ensures { OnOk result (all_placed done.new.items ≡
        all_placed done.old.items ++ term_in_rows columns (seen_placed token.entry) (seen_lexeme token.entry.lexeme)) }
{
    let column = token.column;
    match token.lexeme {
        Lexeme::Number(number) => done.push(PlacedLexeme {
            lexeme: scaled(columns, number),
            column,
        })?,
        Lexeme::Name(_) => {
            done.push(PlacedLexeme {
                lexeme: Lexeme::Number(columns),
                column,
            })?;
            done.push(PlacedLexeme {
                lexeme: Lexeme::Sign(Sign::Star),
                column,
            })?;
            done.push(token)?;
        }
        _ => done.push(token)?,
    }
    Ok(())
}

// Puts a token, before others, as it stands there. The bracket of a section that is no whole row stands twice, so that a
// fault is found there.
fn put_token<'a>(
    done: &mut Vec<PlacedLexeme<'a>>,
    at: At,
    token: PlacedLexeme<'a>,
    behind: &[PlacedLexeme<'a>],
) -> Result<(), AllocError>
    ensures { OnOk result (all_placed done.new.items ≡
        all_placed done.old.items ++ put_at (seen_at at) (seen_placed token.entry) (all_kinds behind.now)) }
{
    match at {
        At::Left(count) => {
            if count > 0 {
                return Ok(());
            }
        }
        At::Within(columns, term) => {
            if term {
                return put_term(done, columns, token);
            }
        }
        At::Behind(columns) => {
            if is_whole_row(columns, token.lexeme, behind) {
                return Ok(());
            }
            if is_sign(token.lexeme, Sign::OpenBracket) {
                done.push(token)?;
            }
        }
        _ => {}
    }
    done.push(token)?;
    Ok(())
}

// Puts a token, before others: where the next one stands.
fn put_next<'a>(
    done: &mut Vec<PlacedLexeme<'a>>,
    grids: &Values<'_>,
    at: At,
    token: PlacedLexeme<'a>,
    behind: &[PlacedLexeme<'a>],
) -> Result<At, AllocError>
    ensures { IfOk result (λ n.
        all_placed done.old.items ++ in_rows (seen_values grids.now) (seen_at at) (seen_placed token.entry ∷ all_placed behind.now) ≡
        all_placed done.new.items ++ in_rows (seen_values grids.now) (seen_at n) (all_placed behind.now)) }
{
    put_token(done, at, token, behind)?;
    Ok(next_at(grids, at, token.lexeme, behind))
}

fn in_rows<'a>(
    alloc: Global,
    grids: &Values<'_>,
    tokens: &[PlacedLexeme<'a>],
) -> Result<Vec<PlacedLexeme<'a>>, AllocError>
    ensures { IfOk result (λ v. all_placed v.items ≡ in_rows (seen_values grids.now) Elsewhere (all_placed tokens.now)) }
{
    let mut done = Vec::new(alloc);
    let mut at = At::Elsewhere;
    let mut rest = tokens;
    'tokens: while let [token, behind @ ..] = rest {
        at = put_next(&mut done, grids, at, *token, behind)?;
        rest = behind;
    }
    Ok(done)
}

/// A line on which the sections of these arrays are of cells. Each comes with how many cells its rows have.
pub fn line_in_rows<'a>(
    alloc: Global,
    grids: &Values<'_>,
    line: &LineTokens<'a>,
) -> Result<LineTokens<'a>, AllocError>
    ensures { IfOk result (λ l. seen_line l ≡ in_rows (seen_values grids.now) Elsewhere (seen_line line.now)) }
{
    let tokens = in_rows(alloc, grids, line.tokens())?;
    Ok(LineTokens::of(tokens))
}
