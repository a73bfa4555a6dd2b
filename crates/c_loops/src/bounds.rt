//! The scalar that a condition bounds.

ghost use Rattle.std.specs.Prelude.{◌≡◌, ◌<◌, IfSome};
ghost use Rattle.std.specs.Option.{option_map};
ghost use Rattle.c_grammar.specs.Loops.{back_limit, close_at, front_limit, is_joined, last_limit, limit_in, limit_of};
ghost use Rattle.c_loops.specs.Limits.{seen_limit};
ghost use Rattle.c_terminals.specs.Ahead.{ahead};
ghost use Rattle.c_terminals.specs.Seen.{seen, seen_all};

use c_choices::{brackets_behind, closes};
use c_terminals::{Ahead, Terminal, Token};
use c_tokens::Sign;

/// At most so many tokens stand in the brackets.
const MAX_BETWEEN: usize = 510;

/// A scalar that is below a number where a condition holds.
#[derive(Clone, Copy)]
pub struct Limit<'a> {
    pub name: &'a [u8],
    pub most: u64,
}

/// Behind how many tokens the brackets close.
pub fn close_at(start: Ahead<'_, '_, '_>) -> Option<usize>
    ensures value { result ≡ close_at 0 0 (ahead start.entry) }
    ensures within { IfSome result (λ n. n < 510) }
{
    let mut ahead = start;
    let mut len = 0usize;
    let mut brackets = 0usize;
    'tokens: while let Some(token) = ahead.next() {
        if len >= MAX_BETWEEN {
            return None;
        }
        if brackets == 0 && closes(token) {
            return Some(len);
        }
        brackets = brackets_behind(token, brackets);
        len += 1;
    }
    None
}

// Whether no `||` and no conditional operator stands outside of brackets.
fn is_joined(tokens: &[Token<'_, '_>]) -> bool
    ensures { result ≡ is_joined 0 (seen_all tokens.now) }
{
    let mut brackets = 0usize;
    let mut rest = tokens;
    'tokens: while let [token, behind @ ..] = rest {
        let parts = token.terminal.is_sign(Sign::OrOr) || token.terminal.is_sign(Sign::Question);
        if brackets == 0 && parts {
            return false;
        }
        brackets = brackets_behind(*token, brackets);
        rest = behind;
    }
    true
}

// `NAME < NUM` or `NAME <= NUM`.
fn limit_of<'a>(
    name: Token<'a, '_>,
    sign: Token<'a, '_>,
    number: Token<'a, '_>,
) -> Option<Limit<'a>>
    ensures { option_map seen_limit result ≡ limit_of (seen name.entry) (seen sign.entry) (seen number.entry) }
{
    let (Terminal::Name(name), Terminal::Number(most)) = (name.terminal, number.terminal) else {
        return None;
    };
    if sign.terminal.is_sign(Sign::Less) {
        return Some(Limit { name, most });
    }
    if sign.terminal.is_sign(Sign::LessEqual) && most < u64::MAX {
        return Some(Limit {
            name,
            most: most + 1,
        });
    }
    None
}

fn front_limit<'a>(tokens: &[Token<'a, '_>]) -> Option<Limit<'a>>
    ensures { option_map seen_limit result ≡ front_limit (seen_all tokens.now) }
{
    match tokens {
        [name, sign, number] => limit_of(*name, *sign, *number),
        [name, sign, number, and, ..] if and.terminal.is_sign(Sign::AndAnd) => {
            limit_of(*name, *sign, *number)
        }
        _ => None,
    }
}

fn last_limit<'a>(tokens: &[Token<'a, '_>]) -> Option<Limit<'a>>
    ensures { option_map seen_limit result ≡ last_limit (seen_all tokens.now) }
{
    match tokens {
        [and, name, sign, number] if and.terminal.is_sign(Sign::AndAnd) => {
            limit_of(*name, *sign, *number)
        }
        _ => None,
    }
}

fn back_limit<'a>(tokens: &[Token<'a, '_>]) -> Option<Limit<'a>>
    ensures { option_map seen_limit result ≡ back_limit (seen_all tokens.now) }
{
    last_limit(&tokens[tokens.len().saturating_sub(4)..])
}

/// The scalar that the condition of these tokens bounds.
pub fn limit_in<'a>(tokens: &[Token<'a, '_>]) -> Option<Limit<'a>>
    ensures { option_map seen_limit result ≡ limit_in (seen_all tokens.now) }
{
    if !is_joined(tokens) {
        return None;
    }
    match front_limit(tokens) {
        Some(limit) => Some(limit),
        None => back_limit(tokens),
    }
}
