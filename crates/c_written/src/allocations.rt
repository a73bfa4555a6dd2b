//! Arrays that `main` allocates: the statements, and how many cells are asked for.

ghost use Rattle.std.specs.Prelude.{◌≡◌, map};
ghost use Rattle.std.specs.Option.{option_map};
ghost use Rattle.c_grammar.specs.Terminal.{same};
ghost use Rattle.c_grammar.specs.Blocks.{bare};
ghost use Rattle.c_grammar.specs.Allocations.{allocates, allocation, behind_size, called, cast, counted, ends_call, is_ended, is_named, numbered, or_all, product, skipped, freed, times, told};
ghost use Rattle.c_grammar.specs.Initial.{value_of};
ghost use Rattle.c_terminals.specs.Ahead.{ahead};
ghost use Rattle.c_written.specs.Allocations.{seen_allocation, seen_cells};
ghost use Rattle.c_terminals.specs.Seen.{seen, seen_all, seen_terminal};

use crate::initial::value_of;
use crate::targets::is_sign;
use crate::work::Work;
use c_terminals::{Ahead, Terminal, Token};
use c_tokens::Sign;
use directives::Word;

/// So many cells, which is told at a token.
#[derive(Clone, Copy)]
pub struct Cells<'a, 'l> {
    pub place: Token<'a, 'l>,
    pub number: u64,
}

/// An array that is allocated, with the token of its name.
#[derive(Clone, Copy)]
pub struct Array<'a, 'l> {
    pub name: &'a [u8],
    pub named: Token<'a, 'l>,
    pub cells: Cells<'a, 'l>,
}

/// Whether it is the word, the sign or the name that is expected.
fn is_same(expected: Terminal<'_, '_>, terminal: Terminal<'_, '_>) -> bool
    ensures { result ≡ same (seen_terminal expected.entry) (seen_terminal terminal.entry) }
{
    match expected {
        Terminal::Word(word) => terminal.is_word(word),
        Terminal::Sign(sign) => terminal.is_sign(sign),
        Terminal::Name(name) => terminal.is_named(name),
        _ => false,
    }
}

/// What follows these tokens, if they stand at the front.
fn skipped<'a, 'l, 's>(
    start: Ahead<'a, 'l, 's>,
    tokens: &[Terminal<'_, '_>],
) -> Option<Ahead<'a, 'l, 's>>
    ensures { option_map ahead result ≡ skipped (map seen_terminal tokens.now) (ahead start.entry) }
{
    let mut ahead = start;
    let mut left = tokens;
    'tokens: while let [expected, rest @ ..] = left {
        let Some(token) = ahead.next() else {
            return None;
        };
        if !is_same(*expected, token.terminal) {
            return None;
        }
        left = rest;
    }
    Some(ahead)
}

/// What follows the size of a cell of the array: `sizeof(uint64_t)`, `sizeof(*name)` or `sizeof *name`.
fn behind_size<'a, 'l, 's>(name: &[u8], start: Ahead<'a, 'l, 's>) -> Option<Ahead<'a, 'l, 's>>
    ensures { option_map ahead result ≡ behind_size name.now (ahead start.entry) }
{
    let of_type = [
        Terminal::Name(b"sizeof".as_slice()),
        Terminal::Sign(Sign::OpenParen),
        Terminal::Word(Word::Uint64),
        Terminal::Sign(Sign::CloseParen),
    ];
    if let Some(behind) = skipped(start, &of_type) {
        return Some(behind);
    }
    let of_cell = [
        Terminal::Name(b"sizeof".as_slice()),
        Terminal::Sign(Sign::OpenParen),
        Terminal::Sign(Sign::Star),
        Terminal::Name(name),
        Terminal::Sign(Sign::CloseParen),
    ];
    if let Some(behind) = skipped(start, &of_cell) {
        return Some(behind);
    }
    let open = [
        Terminal::Name(b"sizeof".as_slice()),
        Terminal::Sign(Sign::Star),
        Terminal::Name(name),
    ];
    skipped(start, &open)
}

/// Whether the call ends, and the statement with it.
fn ends_call(start: Ahead<'_, '_, '_>) -> bool
    ensures { result ≡ ends_call (ahead start.entry) }
{
    let mut ahead = start;
    is_sign(ahead.next(), Sign::CloseParen) && is_sign(ahead.next(), Sign::Semicolon)
}

/// Whether the size of a cell stands at the front, and the call ends behind it.
fn ends_with_size(name: &[u8], start: Ahead<'_, '_, '_>) -> bool
    ensures { result ≡ is_ended (behind_size name.now (ahead start.entry)) }
{
    match behind_size(name, start) {
        Some(behind) => ends_call(behind),
        None => false,
    }
}

/// The product with the number that the token is, if it is below 2^64.
fn times(value: u64, token: Token<'_, '_>) -> Option<u64>
    ensures { result ≡ times value (value_of (seen token.entry).terminal) }
{
    match value_of(token) {
        Some(number) => Work::Product.result(value, number),
        None => None,
    }
}

/// The product of the numbers up to the size of a cell, before which the sign `last` stands.
fn counted(name: &[u8], last: Sign, start: Ahead<'_, '_, '_>) -> Option<u64>
    ensures { result ≡ counted name.now last 1 (ahead start.entry) }
{
    let mut ahead = start;
    let mut value: u64 = 1;
    'numbers: while let Some(number) = ahead.next() {
        let Some(sign) = ahead.next() else {
            return None;
        };
        let Some(product) = times(value, number) else {
            return None;
        };
        if sign.terminal.is_sign(last) && ends_with_size(name, ahead) {
            return Some(product);
        }
        if !sign.terminal.is_sign(Sign::Star) {
            return None;
        }
        value = product;
    }
    None
}

/// The product of the numbers behind the size of a cell.
fn numbered(start: Ahead<'_, '_, '_>) -> Option<u64>
    ensures { result ≡ numbered 1 (ahead start.entry) }
{
    let mut ahead = start;
    let mut value: u64 = 1;
    'numbers: while let Some(sign) = ahead.next() {
        let Some(number) = ahead.next() else {
            return None;
        };
        if !sign.terminal.is_sign(Sign::Star) {
            return None;
        }
        let Some(total) = times(value, number) else {
            return None;
        };
        if ends_call(ahead) {
            return Some(total);
        }
        value = total;
    }
    None
}

/// How many cells `malloc` is asked for: the size of one stands last or first.
fn product(name: &[u8], start: Ahead<'_, '_, '_>) -> Option<u64>
    ensures { result ≡ product name.now (ahead start.entry) }
{
    if let Some(number) = counted(name, Sign::Star, start) {
        return Some(number);
    }
    match behind_size(name, start) {
        Some(behind) => numbered(behind),
        None => None,
    }
}

/// A number of cells, at the first token.
fn told<'a, 'l>(start: Ahead<'a, 'l, '_>, number: Option<u64>) -> Option<Cells<'a, 'l>>
    ensures { option_map seen_cells result ≡ told (ahead start.entry) number }
{
    let mut ahead = start;
    let Some(place) = ahead.next() else {
        return None;
    };
    match number {
        Some(number) => Some(Cells { place, number }),
        None => None,
    }
}

/// The cells that a call of `malloc` or `calloc` asks for, with which the statement ends.
fn called<'a, 'l>(name: &[u8], start: Ahead<'a, 'l, '_>) -> Option<Cells<'a, 'l>>
    ensures { option_map seen_cells result ≡ called name.now (ahead start.entry) }
{
    let malloc = [
        Terminal::Name(b"malloc".as_slice()),
        Terminal::Sign(Sign::OpenParen),
    ];
    if let Some(behind) = skipped(start, &malloc) {
        return told(behind, product(name, behind));
    }
    let calloc = [
        Terminal::Name(b"calloc".as_slice()),
        Terminal::Sign(Sign::OpenParen),
    ];
    match skipped(start, &calloc) {
        Some(behind) => told(behind, counted(name, Sign::Comma, behind)),
        None => None,
    }
}

/// What follows `(uint64_t *)`, or all.
fn behind_cast<'a, 'l, 's>(start: Ahead<'a, 'l, 's>) -> Ahead<'a, 'l, 's>
    ensures { ahead result ≡ or_all (skipped cast (ahead start.entry)) (ahead start.entry) }
{
    let cast = [
        Terminal::Sign(Sign::OpenParen),
        Terminal::Word(Word::Uint64),
        Terminal::Sign(Sign::Star),
        Terminal::Sign(Sign::CloseParen),
    ];
    match skipped(start, &cast) {
        Some(behind) => behind,
        None => start,
    }
}

/// The array of that name that a call behind `=` allocates.
pub fn array_named<'a, 'l>(named: Token<'a, 'l>, start: Ahead<'a, 'l, '_>) -> Option<Array<'a, 'l>>
    ensures { option_map seen_allocation result ≡ allocates (seen named.entry) (seen named.entry).terminal (ahead start.entry) }
{
    match named.terminal {
        Terminal::Name(name) => match called(name, behind_cast(start)) {
            Some(cells) => Some(Array { name, named, cells }),
            None => None,
        },
        _ => None,
    }
}

/// The array that a statement allocates: `uint64_t *name =` and a call.
pub fn allocation<'a, 'l>(token: Token<'a, 'l>, rest: &[Token<'a, 'l>]) -> Option<Array<'a, 'l>>
    ensures { option_map seen_allocation result ≡ allocation (seen token.entry) (bare (seen_all rest.now)) }
{
    let mut ahead = Ahead::new(rest);
    if !token.terminal.is_word(Word::Uint64) || !is_sign(ahead.next(), Sign::Star) {
        return None;
    }
    let Some(named) = ahead.next() else {
        return None;
    };
    if !is_sign(ahead.next(), Sign::Equal) {
        return None;
    }
    array_named(named, ahead)
}

/// Whether a name stands among these tokens.
pub fn is_named(name: &[u8], start: Ahead<'_, '_, '_>) -> bool
    ensures { result ≡ is_named name.now (ahead start.entry) }
{
    let mut ahead = start;
    'tokens: while let Some(token) = ahead.next() {
        if token.terminal.is_named(name) {
            return true;
        }
    }
    false
}

/// The name that a statement frees, if it stands nowhere behind it.
pub fn freed<'a>(token: Token<'a, '_>, rest: Ahead<'a, '_, '_>) -> Option<&'a [u8]>
    ensures { option_map (λ x. x.now) result ≡ freed (seen token.entry) (ahead rest.entry) }
{
    let mut ahead = rest;
    if !token.terminal.is_named(b"free".as_slice()) || !is_sign(ahead.next(), Sign::OpenParen) {
        return None;
    }
    let Some(array) = ahead.next() else {
        return None;
    };
    if !is_sign(ahead.next(), Sign::CloseParen) || !is_sign(ahead.next(), Sign::Semicolon) {
        return None;
    }
    let Terminal::Name(name) = array.terminal else {
        return None;
    };
    if is_named(name, ahead) {
        return None;
    }
    Some(name)
}
