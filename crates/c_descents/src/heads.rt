//! The head of a loop.

ghost use Rattle.std.specs.Prelude.{◌≡◌, ◌<◌, ◌≤◌, length, IfSome};
ghost use Rattle.std.specs.Option.{option_map};
ghost use Rattle.c_grammar.specs.Counters.{is_type};
ghost use Rattle.c_grammar.specs.Descents.{counts_down, name_in, small_in};
ghost use Rattle.c_grammar.specs.Triangles.{begins_block, cut, cut_at, names, semicolon_at};
ghost use Rattle.c_descents.specs.Heads.{seen_parts};
ghost use Rattle.c_terminals.specs.Seen.{seen, seen_all, seen_terminal};

use c_terminals::{Terminal, Token};
use c_tokens::Sign;
use directives::Word;

/// Behind the word `for`, in its parts.
#[derive(Clone, Copy)]
pub struct Parts<'a, 'l, 's> {
    /// `( TYPE NAME =`
    pub front: &'s [Token<'a, 'l>],
    pub start: &'s [Token<'a, 'l>],
    /// `; NAME`
    pub middle: &'s [Token<'a, 'l>],
    /// `>` or `>=`
    pub compares: Token<'a, 'l>,
    pub limit: &'s [Token<'a, 'l>],
    /// `;` and the step, and what follows.
    pub back: &'s [Token<'a, 'l>],
}

/// How many tokens stand before the first semicolon.
fn semicolon_at(tokens: &[Token<'_, '_>]) -> Option<usize>
    ensures value { result ≡ semicolon_at 0 (seen_all tokens.now) }
    ensures within { IfSome result (λ n. n < length tokens.now) }
{
    let mut before = 0usize;
    let mut rest = tokens;
    'tokens: while let [token, behind @ ..] = rest {
        if token.terminal.is_sign(Sign::Semicolon) {
            return Some(before);
        }
        rest = behind;
        before += 1;
    }
    None
}

// At the first semicolon, from which the second tokens go on.
fn cut_at<'a, 'l, 's>(
    before: &'s [Token<'a, 'l>],
    from: &'s [Token<'a, 'l>],
) -> Option<Parts<'a, 'l, 's>>
    requires { 4 ≤ length before.now }
    ensures { option_map seen_parts result ≡ cut_at (seen_all before.now) (seen_all from.now) }
{
    let [_, _, compares, behind @ ..] = from else {
        return None;
    };
    let (front, start) = before.split_at(4);
    let (limit, back) = behind.split_at(semicolon_at(behind)?);
    Some(Parts {
        front,
        start,
        middle: &from[..2],
        compares: *compares,
        limit,
        back,
    })
}

/// The parts of a head that these tokens begin.
pub fn cut<'a, 'l, 's>(tokens: &'s [Token<'a, 'l>]) -> Option<Parts<'a, 'l, 's>>
    ensures { option_map seen_parts result ≡ cut (seen_all tokens.now) }
{
    let first = semicolon_at(tokens)?;
    if first < 4 {
        return None;
    }
    let (before, from) = tokens.split_at(first);
    cut_at(before, from)
}

fn is_type(terminal: Terminal<'_, '_>) -> bool
    ensures { result ≡ is_type (seen_terminal terminal.entry) }
{
    terminal.is_word(Word::Uint64) || terminal.is_word(Word::Int)
}

/// The name in `( TYPE NAME =`.
pub fn name_in<'a>(front: &[Token<'a, '_>]) -> Option<&'a [u8]>
    ensures { option_map (λ x. x.now) result ≡ name_in (seen_all front.now) }
{
    let [open, kind, name, equal, ..] = front else {
        return None;
    };
    let declares = open.terminal.is_sign(Sign::OpenParen)
        && is_type(kind.terminal)
        && equal.terminal.is_sign(Sign::Equal);
    match name.terminal {
        Terminal::Name(name) if declares => Some(name),
        _ => None,
    }
}

/// Whether the type is `int`.
pub fn small_in(front: &[Token<'_, '_>]) -> bool
    ensures { result ≡ small_in (seen_all front.now) }
{
    match front {
        [_, kind, ..] => kind.terminal.is_word(Word::Int),
        _ => false,
    }
}

/// Whether it is that name that stands in `; NAME`.
pub fn names(name: &[u8], middle: &[Token<'_, '_>]) -> bool
    ensures { result ≡ names name.now (seen_all middle.now) }
{
    match middle {
        [_, own, ..] => own.terminal.is_named(name),
        _ => false,
    }
}

fn begins_block(close: Token<'_, '_>, open: Token<'_, '_>) -> bool
    ensures { result ≡ begins_block (seen close.entry) (seen open.entry) }
{
    close.terminal.is_sign(Sign::CloseParen) && open.terminal.is_sign(Sign::OpenBrace)
}

/// Whether `; NAME--) {` or `; --NAME) {` comes.
pub fn counts_down(name: &[u8], back: &[Token<'_, '_>]) -> bool
    ensures { result ≡ counts_down name.now (seen_all back.now) }
{
    let [_, first, second, close, open, ..] = back else {
        return false;
    };
    begins_block(*close, *open)
        && ((first.terminal.is_named(name) && second.terminal.is_sign(Sign::MinusMinus))
            || (first.terminal.is_sign(Sign::MinusMinus) && second.terminal.is_named(name)))
}
