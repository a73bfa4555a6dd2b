// Declarations, by their tokens. None is looked for beyond its text: a name that is declared twice is what it is first.

use crate::rows::Sides;
use c_tokens::{Kind, Sign, Token, Tokens};

pub fn text_of<'t>(text: &'t [u8], token: &Token) -> &'t [u8] {
    match text.get(token.first..token.last.saturating_add(1)) {
        None => &[],
        Some(bytes) => bytes,
    }
}

fn is_type(text: &[u8]) -> bool {
    text == b"uint64_t".as_slice() || text == b"size_t".as_slice() || text == b"long".as_slice()
}

/// Whether a name is declared as a pointer somewhere in a text: a type and a star stand before it.
pub fn is_pointer(text: &[u8], name: &[u8]) -> bool {
    let mut behind_type = false;
    let mut behind_star = false;
    'tokens: for token in Tokens::new(text) {
        let word = text_of(text, &token);
        if behind_star && word == name {
            return true;
        }
        behind_star = behind_type && word == b"*".as_slice();
        behind_type = is_type(word);
    }
    false
}

// The number that a token is.
fn number_of(token: &Token) -> Option<u64> {
    match token.kind {
        Kind::Number(n) => Some(n),
        _ => None,
    }
}

// The number that a line `#define NAME NUM` defines.
fn defined_on(line: &[u8], name: &[u8]) -> Option<u64> {
    let inner = line.get(1..)?;
    let mut words = Tokens::new(inner);
    let define = words.next_token()?;
    if text_of(inner, &define) != b"define".as_slice() {
        return None;
    }
    let own = words.next_token()?;
    if text_of(inner, &own) != name {
        return None;
    }
    number_of(&words.next_token()?)
}

// The number of a constant: of a line that defines it, or behind its name and the sign `=`.
fn constant(text: &[u8], name: &[u8]) -> Option<u64> {
    let mut is_named = false;
    let mut is_given = false;
    'tokens: for token in Tokens::new(text) {
        let word = text_of(text, &token);
        if is_given {
            return number_of(&token);
        }
        if matches!(token.kind, Kind::Line) {
            if let Some(n) = defined_on(word, name) {
                return Some(n);
            }
        }
        is_given = is_named && word == b"=".as_slice();
        is_named = matches!(token.kind, Kind::Name) && word == name;
    }
    None
}

// What has been read of the declaration of an array with rows.
#[derive(Clone, Copy)]
enum Read {
    Nothing,
    Type,
    Name,
    Length,
    Lengths,
    Second,
}

// Behind one more token.
fn read_on(read: Read, token: &Token, word: &[u8], name: &[u8]) -> Read {
    let sign = token.kind;
    match read {
        Read::Type if word == name => Read::Name,
        Read::Name if matches!(sign, Kind::Sign(Sign::OpenBracket)) => Read::Length,
        Read::Length if !matches!(sign, Kind::Sign(Sign::CloseBracket)) => Read::Length,
        Read::Length => Read::Lengths,
        Read::Lengths if matches!(sign, Kind::Sign(Sign::OpenBracket)) => Read::Second,
        _ if is_type(word) || matches!(sign, Kind::Sign(Sign::Comma)) => Read::Type,
        _ => Read::Nothing,
    }
}

// Where the second length of an array that is declared with two or more begins, behind its bracket.
fn second_at(text: &[u8], name: &[u8]) -> Option<usize> {
    let mut read = Read::Nothing;
    'tokens: for token in Tokens::new(text) {
        read = read_on(read, &token, text_of(text, &token), name);
        if matches!(read, Read::Second) {
            return Some(token.last.saturating_add(1));
        }
    }
    None
}

// The length in brackets, behind the first of them: a number or the name of a constant of a text. Of that text these are
// the last tokens.
fn length_in(text: &[u8], last: &[u8], tokens: &mut Tokens<'_>) -> Option<u64> {
    let token = tokens.next_token()?;
    let close = tokens.next_token()?;
    if !matches!(close.kind, Kind::Sign(Sign::CloseBracket)) {
        return None;
    }
    number_of(&token).or(constant(text, text_of(last, &token)))
}

/// The lengths of an array that is declared with two or three, but the first one. Each is a number or the name of a
/// constant.
pub fn sides_of(text: &[u8], name: &[u8]) -> Option<Sides> {
    let last = text.get(second_at(text, name)?..)?;
    let mut tokens = Tokens::new(last);
    let second = length_in(text, last, &mut tokens)?;
    let behind = tokens.next_token()?;
    let third = match behind.kind {
        Kind::Sign(Sign::OpenBracket) => Some(length_in(text, last, &mut tokens)?),
        _ => None,
    };
    Some(Sides { second, third })
}
