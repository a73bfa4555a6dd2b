//! An `if` that stores the greater or the lesser of a cell's number and a value.

ghost use Rattle.std.specs.Prelude.{◌≡◌, ◌<◌, ◌^◌, length, IfOk, IfSome};
ghost use Rattle.std.specs.Option.{option_map};
ghost use Rattle.c_grammar.specs.Lexeme.{Else};
ghost use Rattle.c_grammar.specs.Terminal.{Fixed, same};
ghost use Rattle.c_grammar.specs.Updates.{are_equal, between, cut, depth_behind, either_given, else_given, extreme_at, extreme_by, extreme_of, flat, given_before, greater, is_loose, is_round, is_side, related, relation, sign_in, stored_at};
ghost use Rattle.c_terminals.specs.Seen.{seen_all, seen_terminal};
ghost use Rattle.c_written.specs.Extremes.{all_seen, seen_cut, seen_extreme, seen_given, seen_stored};

use crate::cell_updates::equal;
use crate::changes::is_boundary;
use c_terminals::{Terminal, Token};
use c_tokens::Sign;
use directives::Word;
use std::alloc::{AllocError, Global};

fn is_round(terminal: Terminal<'_, '_>) -> bool
    ensures { result ≡ is_round (seen_terminal terminal.entry) }
{
    terminal.is_sign(Sign::OpenParen) || terminal.is_sign(Sign::CloseParen)
}

// The tokens up to six semicolons and braces, without round brackets.
fn flat<'a, 'l>(
    alloc: Global,
    tokens: &[Token<'a, 'l>],
) -> Result<Vec<Terminal<'a, 'l>>, AllocError>
    ensures { IfOk result (λ v. all_seen v.items ≡ flat 6 (seen_all tokens.now)) }
{
    let mut done = Vec::new(alloc);
    let mut left = 6usize;
    let mut rest = tokens;
    'tokens: while let [token, behind @ ..] = rest {
        rest = behind;
        if left == 0 {
            return Ok(done);
        }
        if is_round(token.terminal) {
            continue;
        }
        done.push(token.terminal)?;
        if is_boundary(token.terminal) {
            left -= 1;
        }
    }
    Ok(done)
}

// How many tokens stand before the first such sign.
fn sign_in(sign: Sign, tokens: &[Terminal<'_, '_>]) -> Option<usize>
    ensures place { result ≡ sign_in sign 0 (all_seen tokens.now) }
    ensures few { IfSome result (λ n. n < length tokens.now) }
{
    let mut len = 0usize;
    let mut rest = tokens;
    'tokens: while let [first, behind @ ..] = rest {
        if first.is_sign(sign) {
            return Some(len);
        }
        rest = behind;
        len += 1;
    }
    None
}

// What stands before the first such sign, and what behind it.
fn cut<'a, 'l, 's>(
    sign: Sign,
    tokens: &'s [Terminal<'a, 'l>],
) -> Option<(&'s [Terminal<'a, 'l>], &'s [Terminal<'a, 'l>])>
    ensures { option_map seen_cut result ≡ cut sign (all_seen tokens.now) }
{
    let len = sign_in(sign, tokens)?;
    Some((&tokens[..len], &tokens[len + 1..]))
}

fn are_equal(left: &[Terminal<'_, '_>], right: &[Terminal<'_, '_>]) -> bool
    ensures { result ≡ are_equal (all_seen left.now) (all_seen right.now) }
{
    let mut ours = left;
    let mut theirs = right;
    'tokens: while let [first, behind @ ..] = ours {
        let [other, rest @ ..] = theirs else {
            return false;
        };
        if !equal(*first, *other) {
            return false;
        }
        ours = behind;
        theirs = rest;
    }
    theirs.is_empty()
}

/// `place = value; }`, and what stands behind that.
#[derive(Clone, Copy)]
struct Stored<'a, 'l, 's> {
    place: &'s [Terminal<'a, 'l>],
    value: &'s [Terminal<'a, 'l>],
    rest: &'s [Terminal<'a, 'l>],
}

fn stored_at<'a, 'l, 's>(tokens: &'s [Terminal<'a, 'l>]) -> Option<Stored<'a, 'l, 's>>
    ensures { option_map seen_stored result ≡ stored_at (all_seen tokens.now) }
{
    let (place, behind) = cut(Sign::Equal, tokens)?;
    let (value, end) = cut(Sign::Semicolon, behind)?;
    match end {
        [brace, rest @ ..] if brace.is_sign(Sign::CloseBrace) => {
            Some(Stored { place, value, rest })
        }
        _ => None,
    }
}

/// The value that the place may get, whether it gets it where the test does not hold, and how often the place stands in
/// the whole.
#[derive(Clone, Copy)]
struct Given<'a, 'l, 's> {
    value: &'s [Terminal<'a, 'l>],
    otherwise: bool,
    mentions: usize,
}

// The other store is one in the same place, and one of the two leaves it its own number.
fn either_given<'a, 'l, 's>(
    stored: Stored<'a, 'l, 's>,
    other: Option<Stored<'a, 'l, 's>>,
) -> Option<Given<'a, 'l, 's>>
    ensures { option_map seen_given result ≡ either_given (seen_stored stored.entry) (option_map seen_stored other.entry) }
{
    let other = other?;
    if !are_equal(stored.place, other.place) {
        return None;
    }
    if are_equal(stored.place, other.value) {
        return Some(Given {
            value: stored.value,
            otherwise: false,
            mentions: 4,
        });
    }
    if are_equal(stored.place, stored.value) {
        return Some(Given {
            value: other.value,
            otherwise: true,
            mentions: 4,
        });
    }
    None
}

fn else_given<'a, 'l, 's>(
    stored: Stored<'a, 'l, 's>,
    tokens: &'s [Terminal<'a, 'l>],
) -> Option<Given<'a, 'l, 's>>
    ensures { option_map seen_given result ≡ else_given (seen_stored stored.entry) (all_seen tokens.now) }
{
    match tokens {
        [brace, rest @ ..] if brace.is_sign(Sign::OpenBrace) => {
            either_given(stored, stored_at(rest))
        }
        _ => None,
    }
}

fn is_else(terminal: Terminal<'_, '_>) -> bool
    ensures { result ≡ same (Fixed Else) (seen_terminal terminal.entry) }
{
    match terminal {
        Terminal::Word(Word::Else) => true,
        _ => false,
    }
}

fn given_before<'a, 'l, 's>(stored: Stored<'a, 'l, 's>) -> Option<Given<'a, 'l, 's>>
    ensures { option_map seen_given result ≡ given_before (seen_stored stored.entry) (seen_stored stored.entry).rest }
{
    match stored.rest {
        [word, behind @ ..] if is_else(*word) => else_given(stored, behind),
        _ => Some(Given {
            value: stored.value,
            otherwise: false,
            mentions: 2,
        }),
    }
}

// Whether the left side is the greater one.
fn relation(terminal: Terminal<'_, '_>) -> Option<bool>
    ensures { result ≡ relation (seen_terminal terminal.entry) }
{
    match terminal {
        Terminal::Sign(Sign::Less) | Terminal::Sign(Sign::LessEqual) => Some(false),
        Terminal::Sign(Sign::Greater) | Terminal::Sign(Sign::GreaterEqual) => Some(true),
        _ => None,
    }
}

fn related(right: &[Terminal<'_, '_>], tokens: &[Terminal<'_, '_>]) -> Option<bool>
    ensures { result ≡ related (all_seen right.now) (all_seen tokens.now) }
{
    match tokens {
        [sign, rest @ ..] if are_equal(right, rest) => relation(*sign),
        _ => None,
    }
}

// How the sides of the test are related, if they are these.
fn between(
    left: &[Terminal<'_, '_>],
    right: &[Terminal<'_, '_>],
    test: &[Terminal<'_, '_>],
) -> Option<bool>
    ensures { result ≡ between (all_seen left.now) (all_seen right.now) (all_seen test.now) }
{
    if left.len() > test.len() {
        return None;
    }
    let (front, rest) = test.split_at(left.len());
    if are_equal(left, front) {
        related(right, rest)
    } else {
        None
    }
}

// Whether the place gets the greater number, where it is tested against the value.
fn greater(
    place: &[Terminal<'_, '_>],
    value: &[Terminal<'_, '_>],
    test: &[Terminal<'_, '_>],
) -> Option<bool>
    ensures { result ≡ greater (all_seen place.now) (all_seen value.now) (all_seen test.now) }
{
    match between(value, place, test) {
        Some(greatest) => Some(greatest),
        None => match between(place, value, test) {
            Some(greatest) => Some(!greatest),
            None => None,
        },
    }
}

// Whether the operator binds less tight than what may stand at a side of such a test.
fn is_loose(terminal: Terminal<'_, '_>) -> bool
    ensures { result ≡ is_loose (seen_terminal terminal.entry) }
{
    let Terminal::Sign(sign) = terminal else {
        return false;
    };
    match sign {
        Sign::Less | Sign::LessEqual | Sign::Greater | Sign::GreaterEqual => true,
        Sign::EqualEqual | Sign::NotEqual | Sign::AndAnd | Sign::OrOr => true,
        Sign::Ampersand | Sign::Caret | Sign::Bar => true,
        _ => false,
    }
}

fn depth_behind(terminal: Terminal<'_, '_>, depth: usize) -> usize
    requires { depth < 2 ^ 63 }
    ensures { result ≡ depth_behind (seen_terminal terminal.entry) depth }
{
    if terminal.is_sign(Sign::OpenBracket) {
        return depth + 1;
    }
    if terminal.is_sign(Sign::CloseBracket) {
        depth.saturating_sub(1)
    } else {
        depth
    }
}

// Whether the name does not stand there, and outside of square brackets no such operator does.
fn is_side(name: &[u8], tokens: &[Terminal<'_, '_>]) -> bool
    ensures { result ≡ is_side name.now 0 (all_seen tokens.now) }
{
    let mut depth = 0usize;
    let mut rest = tokens;
    'tokens: while let [first, behind @ ..] = rest {
        if first.is_named(name) || (depth == 0 && is_loose(*first)) {
            return false;
        }
        depth = depth_behind(*first, depth);
        rest = behind;
    }
    true
}

/// A name, whether it or a cell of it gets the greater number, and how often it stands there.
#[derive(Clone, Copy)]
pub struct Extreme<'a> {
    pub name: &'a [u8],
    pub greatest: bool,
    pub mentions: usize,
}

fn extreme_by<'a>(
    test: &[Terminal<'a, '_>],
    place: &[Terminal<'a, '_>],
    given: Given<'a, '_, '_>,
) -> Option<Extreme<'a>>
    ensures { option_map seen_extreme result ≡ extreme_by (all_seen test.now) (all_seen place.now) (seen_given given.entry) }
{
    let [first, index @ ..] = place else {
        return None;
    };
    let Terminal::Name(name) = *first else {
        return None;
    };
    if !is_side(name, index) || !is_side(name, given.value) {
        return None;
    }
    let greatest = greater(place, given.value, test)?;
    Some(Extreme {
        name,
        greatest: if given.otherwise { !greatest } else { greatest },
        mentions: given.mentions,
    })
}

fn extreme_of<'a>(tokens: &[Terminal<'a, '_>]) -> Option<Extreme<'a>>
    ensures { option_map seen_extreme result ≡ extreme_of (all_seen tokens.now) }
{
    let (test, body) = cut(Sign::OpenBrace, tokens)?;
    let stored = stored_at(body)?;
    let given = given_before(stored)?;
    extreme_by(test, stored.place, given)
}

/// Of an `if`, behind the word, the name that gets the greater or the lesser of its number and another one.
pub fn extreme_at<'a>(
    alloc: Global,
    tokens: &[Token<'a, '_>],
) -> Result<Option<Extreme<'a>>, AllocError>
    ensures { IfOk result (λ o. option_map seen_extreme o ≡ extreme_at (seen_all tokens.now)) }
{
    let terminals = flat(alloc, tokens)?;
    Ok(extreme_of(&terminals))
}
