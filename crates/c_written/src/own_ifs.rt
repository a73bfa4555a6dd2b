//! Conditions of a target whose line is joined with that of a construct inside: they are for the target alone.

ghost use Rattle.std.specs.Prelude.{◌≡◌, ◌≤◌, ◌++◌, ◌∷◌, [], drop, false, if◌then◌else◌, length, IfOk, OnOk};
ghost use Rattle.c_grammar.specs.Nesting.{begins_with_colon, conditioned, is_modified, opens_condition, target_word, targeted};
ghost use Rattle.directives.specs.Seen.{seen_lexeme, seen_placed};
ghost use Rattle.c_written.specs.Forms.{all_placed};
ghost use Rattle.c_written.specs.Spots.{all_kinds};

use crate::line_forms::is_sign;
use crate::nesting::{has, is_if, name_len};
use crate::spots::{closes_list, opens_list};
use c_tokens::Sign;
use directives::{Lexeme, PlacedLexeme};
use std::alloc::{AllocError, Global};

fn begins_with_colon(tokens: &[PlacedLexeme<'_>]) -> bool
    ensures { result ≡ begins_with_colon (all_kinds tokens.now) }
{
    match tokens {
        [next, ..] => is_sign(next.lexeme, Sign::Colon),
        [] => false,
    }
}

// Whether a word says what a condition is for; behind its bracket.
fn is_modified(tokens: &[PlacedLexeme<'_>]) -> bool
    ensures { result ≡ is_modified (all_kinds tokens.now) }
{
    match tokens {
        [_, behind @ ..] => begins_with_colon(behind),
        [] => false,
    }
}

// Whether the token is the bracket of a condition for which no word says what it is for.
fn opens_condition(conditional: bool, lexeme: Lexeme<'_>, behind: &[PlacedLexeme<'_>]) -> bool
    ensures { result ≡ opens_condition conditional (seen_lexeme lexeme.entry) (all_kinds behind.now) }
{
    conditional && is_sign(lexeme, Sign::OpenParen) && !is_modified(behind)
}

// Adds the word that a condition is for the target, at a column.
fn put_target(put: &mut Vec<PlacedLexeme<'_>>, column: usize) -> Result<(), AllocError>
    ensures { OnOk result (all_placed put.new.items ≡ all_placed put.old.items ++ target_word column) }
{
    put.extend_from_slice(&[
        PlacedLexeme {
            lexeme: Lexeme::Name(b"target"),
            column,
        },
        PlacedLexeme {
            lexeme: Lexeme::Sign(Sign::Colon),
            column,
        },
    ])?;
    Ok(())
}

// Adds a token, with that word behind it where it is the bracket of a condition which has none.
fn put_one<'a>(
    put: &mut Vec<PlacedLexeme<'a>>,
    conditional: bool,
    token: PlacedLexeme<'a>,
    behind: &[PlacedLexeme<'a>],
) -> Result<(), AllocError>
    ensures { OnOk result (all_placed put.new.items ≡ all_placed put.old.items ++ seen_placed token.entry ∷
        (if opens_condition conditional (seen_lexeme token.entry.lexeme) (all_kinds behind.now) then target_word token.entry.column else [])) }
{
    put.push(token)?;
    if opens_condition(conditional, token.lexeme, behind) {
        return put_target(put, token.column);
    }
    Ok(())
}

// Adds the tokens, with that word in each condition which has none.
fn put_targeted<'a>(
    put: &mut Vec<PlacedLexeme<'a>>,
    tokens: &[PlacedLexeme<'a>],
) -> Result<(), AllocError>
    ensures { OnOk result (all_placed put.new.items ≡ all_placed put.old.items ++ targeted false 0 (all_placed tokens.now)) }
{
    let mut conditional = false;
    let mut depth = 0usize;
    let mut rest = tokens;
    'tokens: while let [token, behind @ ..] = rest {
        rest = behind;
        put_one(put, conditional, *token, behind)?;
        conditional = depth == 0 && is_if(token.lexeme);
        if opens_list(token.lexeme) {
            depth += 1;
        } else if closes_list(token.lexeme) {
            depth = depth.saturating_sub(1);
        }
    }
    Ok(())
}

/// The tokens of a target's line, whose conditions are for the target alone, or for the threads of its construct too.
pub fn conditioned<'a>(
    alloc: Global,
    tokens: &[PlacedLexeme<'a>],
) -> Result<Vec<PlacedLexeme<'a>>, AllocError>
    requires { 3 ≤ length tokens.now }
    ensures { IfOk result (λ v. all_placed v.items ≡ conditioned (drop 3 (all_kinds tokens.now)) (all_placed tokens.now)) }
{
    let (name, clauses) = tokens.split_at(3);
    let len = name_len(clauses);
    if has(b"parallel", &clauses[..len]) {
        let all = Vec::from_slice(alloc, tokens)?;
        return Ok(all);
    }
    let mut put = Vec::from_slice(alloc, name)?;
    put_targeted(&mut put, clauses)?;
    Ok(put)
}
