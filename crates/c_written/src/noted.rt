//! Combined constructs whose turns share a scalar that each of them sets: a clause on their line says that one lacks.

ghost use Rattle.std.specs.Prelude.{◌≡◌, ◌&&◌, true, false, IfOk};
ghost use Rattle.c_grammar.specs.Blocks.{bare};
ghost use Rattle.c_grammar.specs.Moves.{Starts};
ghost use Rattle.c_grammar.specs.Privates.{is_private, noted, noted_item, sets, shares};
ghost use Rattle.c_grammar.specs.Updates.{is_combined};
ghost use Rattle.c_terminals.specs.Held.{seen_written, written_all};
ghost use Rattle.c_terminals.specs.Seen.{seen, seen_all};
ghost use Rattle.c_written.specs.Boxes.{texts};
ghost use Rattle.c_written.specs.Spots.{all_kinds};

use crate::lacks::noted_line;
use crate::line_forms::is_name;
use crate::moves::{Before, is_fresh};
use crate::presence::opens_part;
use crate::reductions::is_combined;
use crate::spots::{closes_list, opens_list};
use crate::used::goes_on;
use c_terminals::{Ahead, Terminal, Token, Written, WrittenTerminal};
use c_tokens::Sign;
use directives::PlacedLexeme;
use std::alloc::{AllocError, Global};

// Whether the name stands in a clause `private`.
fn is_private(name: &[u8], tokens: &[PlacedLexeme<'_>]) -> bool
    ensures { result ≡ is_private name.now 0 false (all_kinds tokens.now) }
{
    let mut depth = 0usize;
    let mut private = false;
    let mut rest = tokens;
    'tokens: while let [token, behind @ ..] = rest {
        rest = behind;
        if opens_list(token.lexeme) {
            depth += 1;
        } else if closes_list(token.lexeme) {
            depth = depth.saturating_sub(1);
        } else if depth == 0 {
            private = is_name(token.lexeme, b"private");
        } else if private && is_name(token.lexeme, name) {
            return true;
        }
    }
    false
}

// Whether the statement that begins there assigns the name before all else.
fn sets(name: &[u8], tokens: &[Token<'_, '_>]) -> bool
    ensures { result ≡ sets name.now Starts 0 (bare (seen_all tokens.now)) }
{
    let mut depth = 0usize;
    let mut before = Before::Starts;
    let mut ahead = Ahead::new(tokens);
    'tokens: while let Some(token) = ahead.next() {
        if token.terminal.is_named(name) {
            return before.is_begin() && is_fresh(name, ahead);
        }
        if opens_part(token) {
            depth += 1;
        } else if token.terminal.is_sign(Sign::CloseBrace) {
            if !goes_on(depth, ahead) {
                return false;
            }
            depth = depth.saturating_sub(1);
        } else if token.terminal.is_sign(Sign::CloseParen) {
            depth = depth.saturating_sub(1);
        } else if token.terminal.is_sign(Sign::Semicolon) && depth == 0 {
            return false;
        }
        before = before.behind(name, token);
    }
    false
}

// Whether one of the names is shared by all turns, each of which sets it.
fn shares(names: &[&[u8]], tokens: &[PlacedLexeme<'_>], region: &[Token<'_, '_>]) -> bool
    ensures { result ≡ shares (texts names.now) (all_kinds tokens.now) (bare (seen_all region.now)) }
{
    let mut rest = names;
    'names: while let [name, behind @ ..] = rest {
        rest = behind;
        if sets(name, region) && !is_private(name, tokens) {
            return true;
        }
    }
    false
}

fn noted_token<'a>(
    alloc: Global,
    names: &[&[u8]],
    token: Token<'a, '_>,
    behind: &[Token<'a, '_>],
) -> Result<Written<'a>, AllocError>
    ensures { IfOk result (λ w. seen_written w ≡
        noted_item (texts names.now) (seen token.entry) (seen token.entry).terminal (bare (seen_all behind.now))) }
{
    if let Terminal::Line(line) = token.terminal {
        let tokens = line.tokens();
        if token.terminal.is_directive() && is_combined(tokens) && shares(names, tokens, behind) {
            return Ok(Written {
                terminal: WrittenTerminal::Line(noted_line(alloc, line)?),
                line: token.line,
                column: token.column,
            });
        }
    }
    Written::of(alloc, token)
}

/// The tokens with such a clause on the line of each combined construct that lacks one for one of these names.
pub fn noted<'a>(
    alloc: Global,
    names: &[&[u8]],
    tokens: &[Token<'a, '_>],
) -> Result<Vec<Written<'a>>, AllocError>
    ensures { IfOk result (λ v. written_all v.items ≡ noted (texts names.now) (seen_all tokens.now)) }
{
    let mut done = Vec::new(alloc);
    let mut rest = tokens;
    'tokens: while let [token, behind @ ..] = rest {
        rest = behind;
        done.push(noted_token(alloc, names, *token, behind)?)?;
    }
    Ok(done)
}
