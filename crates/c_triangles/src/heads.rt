//! The head of a loop.

ghost use Rattle.std.specs.Prelude.{◌≡◌, ◌<◌, ◌≤◌, length, IfSome};
ghost use Rattle.std.specs.Option.{option_map};
ghost use Rattle.c_grammar.specs.Loops.{is_word};
ghost use Rattle.c_grammar.specs.Triangles.{begins_block, counts, cut, cut_at, name_in, names, semicolon_at, step_by, step_in, sum_step};
ghost use Rattle.c_triangles.specs.Heads.{seen_parts, seen_step};
ghost use Rattle.c_terminals.specs.Seen.{seen, seen_all, seen_terminal};

use crate::steps::Step;
use c_terminals::{Terminal, Token};
use c_tokens::Sign;
use directives::Word;

/// Behind the word `for`, in its parts.
#[derive(Clone, Copy)]
pub struct Parts<'a, 'l, 's> {
    /// `( uint64_t NAME =`
    pub front: &'s [Token<'a, 'l>],
    pub start: &'s [Token<'a, 'l>],
    /// `; NAME`
    pub middle: &'s [Token<'a, 'l>],
    /// `<`, `<=` or `!=`
    pub compares: Token<'a, 'l>,
    pub limit: &'s [Token<'a, 'l>],
    /// `;` and the step, and what follows.
    pub back: &'s [Token<'a, 'l>],
}

/// How many tokens stand before the first semicolon.
fn semicolon_at(tokens: &[Token<'_, '_>]) -> Option<usize>
    ensures value { result ≡ semicolon_at 0 (seen_all tokens.now) }
    ensures within { IfSome result (λ n. n < length tokens.now) }
{
    let mut before = 0usize;
    let mut rest = tokens;
    'tokens: while let [token, behind @ ..] = rest {
        if token.terminal.is_sign(Sign::Semicolon) {
            return Some(before);
        }
        rest = behind;
        before += 1;
    }
    None
}

// At the first semicolon, from which the second tokens go on.
fn cut_at<'a, 'l, 's>(
    before: &'s [Token<'a, 'l>],
    from: &'s [Token<'a, 'l>],
) -> Option<Parts<'a, 'l, 's>>
    requires { 4 ≤ length before.now }
    ensures { option_map seen_parts result ≡ cut_at (seen_all before.now) (seen_all from.now) }
{
    let [_, _, compares, behind @ ..] = from else {
        return None;
    };
    let (front, start) = before.split_at(4);
    let (limit, back) = behind.split_at(semicolon_at(behind)?);
    Some(Parts {
        front,
        start,
        middle: &from[..2],
        compares: *compares,
        limit,
        back,
    })
}

/// The parts of a head that these tokens begin.
pub fn cut<'a, 'l, 's>(tokens: &'s [Token<'a, 'l>]) -> Option<Parts<'a, 'l, 's>>
    ensures { option_map seen_parts result ≡ cut (seen_all tokens.now) }
{
    let first = semicolon_at(tokens)?;
    if first < 4 {
        return None;
    }
    let (before, from) = tokens.split_at(first);
    cut_at(before, from)
}

/// The name in `( uint64_t NAME =`.
pub fn name_in<'a>(front: &[Token<'a, '_>]) -> Option<&'a [u8]>
    ensures { option_map (λ x. x.now) result ≡ name_in (seen_all front.now) }
{
    let [open, kind, name, equal, ..] = front else {
        return None;
    };
    let declares = open.terminal.is_sign(Sign::OpenParen)
        && kind.terminal.is_word(Word::Uint64)
        && equal.terminal.is_sign(Sign::Equal);
    match name.terminal {
        Terminal::Name(name) if declares => Some(name),
        _ => None,
    }
}

/// Whether it is that name that stands in `; NAME`.
pub fn names(name: &[u8], middle: &[Token<'_, '_>]) -> bool
    ensures { result ≡ names name.now (seen_all middle.now) }
{
    match middle {
        [_, own, ..] => own.terminal.is_named(name),
        _ => false,
    }
}

fn begins_block(bracket: Token<'_, '_>, brace: Token<'_, '_>) -> bool
    ensures { result ≡ begins_block (seen bracket.entry) (seen brace.entry) }
{
    bracket.terminal.is_sign(Sign::CloseParen) && brace.terminal.is_sign(Sign::OpenBrace)
}

// `; NAME++) {` or `; ++NAME) {`
fn counts(name: &[u8], back: &[Token<'_, '_>]) -> bool
    ensures { result ≡ counts name.now (seen_all back.now) }
{
    let [_, first, second, close, open, ..] = back else {
        return false;
    };
    begins_block(*close, *open)
        && ((first.terminal.is_named(name) && second.terminal.is_sign(Sign::PlusPlus))
            || (first.terminal.is_sign(Sign::PlusPlus) && second.terminal.is_named(name)))
}

// These tokens say that it grows by such a number.
fn step_by<'a, 'l, 's>(
    amount: Terminal<'a, 'l>,
    tokens: &'s [Token<'a, 'l>],
) -> Option<Step<'a, 'l, 's>>
    ensures { option_map seen_step result ≡ step_by (seen_terminal amount.entry) (seen_all tokens.now) }
{
    match amount {
        Terminal::Number(amount) if amount > 0 => Some(Step { amount, tokens }),
        _ => None,
    }
}

// `; NAME += NUM) {`
fn sum_step<'a, 'l, 's>(name: &[u8], back: &'s [Token<'a, 'l>]) -> Option<Step<'a, 'l, 's>>
    ensures { option_map seen_step result ≡ sum_step name.now (seen_all back.now) }
{
    let [_, own, sign, amount, close, open, ..] = back else {
        return None;
    };
    let adds = own.terminal.is_named(name)
        && sign.terminal.is_sign(Sign::PlusEqual)
        && begins_block(*close, *open);
    if !adds {
        return None;
    }
    step_by(amount.terminal, &back[..6])
}

/// The step of the name, where a block follows.
pub fn step_in<'a, 'l, 's>(name: &[u8], back: &'s [Token<'a, 'l>]) -> Option<Step<'a, 'l, 's>>
    ensures { option_map seen_step result ≡ step_in name.now (seen_all back.now) }
{
    if counts(name, back) {
        return Some(Step {
            amount: 1,
            tokens: &back[..5],
        });
    }
    sum_step(name, back)
}
