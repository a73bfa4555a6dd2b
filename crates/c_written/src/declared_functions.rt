//! Functions that are declared for the devices: the lines that say so are left out.

ghost use Rattle.std.specs.Prelude.{◌≡◌, false, IfOk};
ghost use Rattle.c_grammar.specs.DeclaredFunctions.{begins_lexemes, begins_part, closes_part, ends_lexemes, ends_part, has_functions, is_called, is_declaration, undeclared};
ghost use Rattle.c_terminals.specs.Seen.{seen, seen_all, seen_terminal};
ghost use Rattle.c_written.specs.Spots.{all_kinds};

use crate::line_forms::is_name;
use crate::presence::opens_part;
use c_terminals::{Terminal, Token};
use c_tokens::Sign;
use directives::{Lexeme, PlacedLexeme, Word, same_lexeme};
use std::alloc::{AllocError, Global};

fn is_declaration(tokens: &[PlacedLexeme<'_>]) -> bool
    ensures { result ≡ is_declaration (all_kinds tokens.now) }
{
    match tokens {
        [declare, target, end, ..] => {
            if !is_name(declare.lexeme, b"declare") {
                return false;
            }
            if !is_name(target.lexeme, b"target") {
                return false;
            }
            same_lexeme(Lexeme::Ended, end.lexeme)
        }
        _ => false,
    }
}

// `declare target`, or `begin declare target`.
fn begins_lexemes(tokens: &[PlacedLexeme<'_>]) -> bool
    ensures { result ≡ begins_lexemes (all_kinds tokens.now) }
{
    match tokens {
        [_, _, first, rest @ ..] => {
            if is_name(first.lexeme, b"begin") {
                return is_declaration(rest);
            }
            is_declaration(&tokens[2..])
        }
        _ => false,
    }
}

// `end declare target`.
fn ends_lexemes(tokens: &[PlacedLexeme<'_>]) -> bool
    ensures { result ≡ ends_lexemes (all_kinds tokens.now) }
{
    match tokens {
        [_, _, first, rest @ ..] => is_name(first.lexeme, b"end") && is_declaration(rest),
        _ => false,
    }
}

fn begins_part(token: Token<'_, '_>) -> bool
    ensures { result ≡ begins_part (seen_terminal token.entry.terminal) }
{
    if !token.terminal.is_directive() {
        return false;
    }
    match token.terminal {
        Terminal::Line(line) => begins_lexemes(line.tokens()),
        _ => false,
    }
}

fn ends_part(token: Token<'_, '_>) -> bool
    ensures { result ≡ ends_part (seen_terminal token.entry.terminal) }
{
    if !token.terminal.is_directive() {
        return false;
    }
    match token.terminal {
        Terminal::Line(line) => ends_lexemes(line.tokens()),
        _ => false,
    }
}

fn closes_part(token: Token<'_, '_>) -> bool
    ensures { result ≡ closes_part (seen token.entry) }
{
    token.terminal.is_sign(Sign::CloseBrace) || token.terminal.is_sign(Sign::CloseParen)
}

// A name with a bracket behind it.
fn is_called(tokens: &[Token<'_, '_>]) -> bool
    ensures { result ≡ is_called (seen_all tokens.now) }
{
    match tokens {
        [_, next, ..] => next.terminal.is_sign(Sign::OpenParen),
        _ => false,
    }
}

// Up to the end of the part no variable is declared outside of brackets.
fn has_functions(tokens: &[Token<'_, '_>]) -> bool
    ensures { result ≡ has_functions 0 (seen_all tokens.now) }
{
    let mut depth = 0usize;
    let mut rest = tokens;
    'tokens: while let [token, behind @ ..] = rest {
        rest = behind;
        if ends_part(*token) {
            return depth == 0;
        }
        if opens_part(*token) {
            depth += 1;
        } else if closes_part(*token) {
            depth = depth.saturating_sub(1);
        } else if token.terminal.is_word(Word::Uint64) && depth == 0 && !is_called(behind) {
            return false;
        }
    }
    false
}

/// The tokens without the lines that declare functions, and nothing else, for the devices.
pub fn undeclared<'a, 'l>(
    alloc: Global,
    tokens: &[Token<'a, 'l>],
) -> Result<Vec<Token<'a, 'l>>, AllocError>
    ensures { IfOk result (λ v. seen_all v.items ≡ undeclared false (seen_all tokens.now)) }
{
    let mut done = Vec::new(alloc);
    let mut inside = false;
    let mut rest = tokens;
    'tokens: while let [token, behind @ ..] = rest {
        rest = behind;
        if inside && ends_part(*token) {
            inside = false;
        } else if !inside && begins_part(*token) && has_functions(behind) {
            inside = true;
        } else {
            done.push(*token)?;
        }
    }
    Ok(done)
}
