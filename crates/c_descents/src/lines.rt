//! Directive lines, with what stands for the names of loops.

ghost use Rattle.std.specs.Prelude.{◌≡◌, ◌++◌, IfOk, OnOk, Some, false, map};
ghost use Rattle.std.specs.Option.{option_map};
ghost use Rattle.c_grammar.specs.LineForms.{all_at, is_sign};
ghost use Rattle.c_grammar.specs.Descents.{begins_term, depth_behind, ends_term, is_free, lexeme_of, put_lexeme, put_on_line, put_outside, stand_on_line, stands_for};
ghost use Rattle.directives.specs.Ahead.{seen_line};
ghost use Rattle.directives.specs.Seen.{seen_lexeme, seen_placed};
ghost use Rattle.c_descents.specs.Blocks.{open_blocks};
ghost use Rattle.c_descents.specs.Lines.{all_placed};
ghost use Rattle.c_descents.specs.Parts.{all_parts};

use crate::blocks::Blocks;
use crate::parts::Part;
use c_tokens::Sign;
use directives::{Lexeme, LineTokens, PlacedLexeme, same_lexeme};
use std::alloc::{AllocError, Global};

fn is_sign(lexeme: Lexeme<'_>, sign: Sign) -> bool
    ensures { result ≡ is_sign sign (seen_lexeme lexeme.entry) }
{
    same_lexeme(Lexeme::Sign(sign), lexeme)
}

// How many square brackets are open behind the token.
fn depth_behind(depth: usize, lexeme: Lexeme<'_>) -> Result<usize, AllocError>
    ensures { IfOk result (λ n. n ≡ depth_behind depth (seen_lexeme lexeme.entry)) }
{
    if is_sign(lexeme, Sign::OpenBracket) {
        return depth.checked_add(1).ok_or(AllocError);
    }
    if is_sign(lexeme, Sign::CloseBracket) {
        return Ok(depth.saturating_sub(1));
    }
    Ok(depth)
}

// Whether a sum may stand behind the token.
fn begins_term(lexeme: Lexeme<'_>) -> bool
    ensures { result ≡ begins_term (seen_lexeme lexeme.entry) }
{
    is_sign(lexeme, Sign::OpenBracket)
        || is_sign(lexeme, Sign::Colon)
        || is_sign(lexeme, Sign::Plus)
}

// Whether one may before these tokens.
fn ends_term(behind: &[PlacedLexeme<'_>]) -> bool
    ensures { result ≡ ends_term (all_placed behind.now) }
{
    match behind {
        [] => false,
        [next, ..] => {
            is_sign(next.lexeme, Sign::CloseBracket)
                || is_sign(next.lexeme, Sign::Colon)
                || is_sign(next.lexeme, Sign::Plus)
                || is_sign(next.lexeme, Sign::Minus)
        }
    }
}

// What stands for the token.
fn stands_for<'b, 'a>(blocks: &'b Blocks<'a>, lexeme: Lexeme<'_>) -> Option<&'b [Part<'a>]>
    ensures { option_map (λ p. all_parts p.now) result ≡ stands_for (open_blocks blocks.now) (seen_lexeme lexeme.entry) }
{
    match lexeme {
        Lexeme::Name(name) => blocks.stands_in(name),
        _ => None,
    }
}

// The parts at the place of a token.
fn put_parts<'a>(
    done: &mut Vec<PlacedLexeme<'a>>,
    column: usize,
    parts: &[Part<'a>],
) -> Result<(), AllocError>
    ensures { OnOk result (all_placed done.new.items ≡
        all_placed done.old.items ++ all_at column (map lexeme_of (all_parts parts.now))) }
{
    let mut rest = parts;
    'parts: while let [part, behind @ ..] = rest {
        done.push(PlacedLexeme {
            lexeme: part.lexeme(),
            column,
        })?;
        rest = behind;
    }
    Ok(())
}

// A token outside of square brackets, behind the word `device` or not, before others. Before the name of a loop that counts
// down stands a second bracket, so that a fault is found there.
fn put_outside<'a>(
    done: &mut Vec<PlacedLexeme<'a>>,
    blocks: &Blocks<'a>,
    device: bool,
    token: PlacedLexeme<'a>,
    behind: &[PlacedLexeme<'a>],
) -> Result<(), AllocError>
    ensures { OnOk result (all_placed done.new.items ≡ all_placed done.old.items ++
        put_outside (open_blocks blocks.now) device (seen_placed token.entry) (all_placed behind.now)) }
{
    done.push(token)?;
    if !device || !is_sign(token.lexeme, Sign::OpenParen) {
        return Ok(());
    }
    let [next, ..] = behind else {
        return Ok(());
    };
    if stands_for(blocks, next.lexeme).is_some() {
        done.push(PlacedLexeme {
            lexeme: Lexeme::Sign(Sign::OpenParen),
            column: next.column,
        })?;
    }
    Ok(())
}

// What stands for a token. Where no sum may stand it is the token behind a bracket, so that a fault is found there.
fn put_stand<'a>(
    done: &mut Vec<PlacedLexeme<'a>>,
    free: bool,
    token: PlacedLexeme<'a>,
    parts: &[Part<'a>],
) -> Result<(), AllocError>
    ensures { OnOk result (all_placed done.new.items ≡
        all_placed done.old.items ++ stand_on_line free (seen_placed token.entry) (Some (all_parts parts.now))) }
{
    if free {
        return put_parts(done, token.column, parts);
    }
    done.push(PlacedLexeme {
        lexeme: Lexeme::Sign(Sign::OpenParen),
        column: token.column,
    })?;
    done.push(token)?;
    Ok(())
}

// A token, with so many square brackets open, before others.
fn put_lexeme<'a>(
    done: &mut Vec<PlacedLexeme<'a>>,
    blocks: &Blocks<'a>,
    depth: usize,
    free: bool,
    token: PlacedLexeme<'a>,
    behind: &[PlacedLexeme<'a>],
) -> Result<(), AllocError>
    ensures { OnOk result (all_placed done.new.items ≡ all_placed done.old.items ++
        put_lexeme (open_blocks blocks.now) depth free (seen_placed token.entry) (all_placed behind.now)) }
{
    if depth == 0 {
        return put_outside(done, blocks, free, token, behind);
    }
    if let Some(parts) = stands_for(blocks, token.lexeme) {
        return put_stand(done, free && ends_term(behind), token, parts);
    }
    done.push(token)?;
    Ok(())
}

// Whether a sum may stand behind the token, with so many square brackets open there, or the bracket of a device.
fn is_free(depth: usize, lexeme: Lexeme<'_>) -> bool
    ensures { result ≡ is_free depth (seen_lexeme lexeme.entry) }
{
    if depth > 0 {
        return begins_term(lexeme);
    }
    same_lexeme(Lexeme::Name(b"device".as_slice()), lexeme)
}

fn put_on_line<'a>(
    alloc: Global,
    blocks: &Blocks<'a>,
    tokens: &[PlacedLexeme<'a>],
) -> Result<Vec<PlacedLexeme<'a>>, AllocError>
    ensures { IfOk result (λ v. all_placed v.items ≡ put_on_line (open_blocks blocks.now) 0 false (all_placed tokens.now)) }
{
    let mut done = Vec::new(alloc);
    let mut depth = 0usize;
    let mut free = false;
    let mut rest = tokens;
    'tokens: while let [token, behind @ ..] = rest {
        put_lexeme(&mut done, blocks, depth, free, *token, behind)?;
        depth = depth_behind(depth, token.lexeme)?;
        free = is_free(depth, token.lexeme);
        rest = behind;
    }
    Ok(done)
}

/// The line with what stands for names in the bounds of its sections.
pub fn line_with<'a>(
    alloc: Global,
    blocks: &Blocks<'a>,
    line: &LineTokens<'a>,
) -> Result<LineTokens<'a>, AllocError>
    ensures { IfOk result (λ l. seen_line l ≡ put_on_line (open_blocks blocks.now) 0 false (seen_line line.now)) }
{
    let tokens = put_on_line(alloc, blocks, line.tokens())?;
    Ok(LineTokens::of(tokens))
}
