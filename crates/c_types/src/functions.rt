//! Functions, and what their parameters take.

ghost use Rattle.std.specs.Prelude.{◌≡◌, IfOk, false};
ghost use Rattle.c_grammar.specs.Types.{called_of, taken_by, takes};
ghost use Rattle.c_terminals.specs.Ahead.{ahead};
ghost use Rattle.c_types.specs.Found.{all_taken, seen_called, seen_taken};

use c_terminals::Ahead;
use c_tokens::Sign;
use directives::Word;
use std::alloc::{AllocError, Global};

/// What a parameter takes.
#[derive(Clone, Copy)]
pub enum Taken {
    /// A number of the type `int`.
    Number,
    /// Cells of that type.
    Cells,
    Any,
}

/// A function, and what its parameters take.
#[derive(Drop)]
pub struct Called<'a> {
    pub name: &'a [u8],
    pub takes: Vec<Taken>,
}

// What a parameter takes in which the word `int` stands or not, and a star or bracket or not.
fn taken_by(int: bool, star: bool) -> Taken
    ensures { seen_taken result ≡ taken_by int star }
{
    if !int {
        Taken::Any
    } else if star {
        Taken::Cells
    } else {
        Taken::Number
    }
}

// What the parameters of a function take, of which these are the tokens behind the bracket.
fn takes(alloc: Global, rest: Ahead<'_, '_, '_>) -> Result<Vec<Taken>, AllocError>
    ensures { IfOk result (λ v. all_taken v.items ≡ takes false false 0 (ahead rest.entry)) }
{
    let mut done = Vec::new(alloc);
    let (mut int, mut star) = (false, false);
    let mut depth = 0_usize;
    let mut ahead = rest;
    'tokens: while let Some(token) = ahead.next() {
        if token.terminal.is_sign(Sign::CloseParen) {
            if depth == 0 {
                done.push(taken_by(int, star))?;
                return Ok(done);
            }
            depth -= 1;
        } else if token.terminal.is_sign(Sign::OpenParen) {
            star = true;
            depth = depth.checked_add(1).ok_or(AllocError)?;
        } else if token.terminal.is_sign(Sign::Comma) && depth == 0 {
            done.push(taken_by(int, star))?;
            (int, star) = (false, false);
        } else {
            int = int || token.terminal.is_word(Word::Int);
            star = star
                || token.terminal.is_sign(Sign::Star)
                || token.terminal.is_sign(Sign::OpenBracket);
        }
    }
    Ok(done)
}

/// The function of the name, which stands before these tokens.
pub fn called_of<'a>(
    alloc: Global,
    name: &'a [u8],
    rest: Ahead<'a, '_, '_>,
) -> Result<Called<'a>, AllocError>
    ensures { IfOk result (λ c. seen_called c ≡ called_of name.now (ahead rest.entry)) }
{
    let mut ahead = rest;
    let takes = match ahead.next() {
        None => Vec::new(alloc),
        Some(_) => takes(alloc, ahead)?,
    };
    Ok(Called { name, takes })
}
