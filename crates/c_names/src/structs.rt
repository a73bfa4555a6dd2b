// Structs, by their tokens: which one a name is declared by, and how many members it has.

use crate::declared::text_of;
use c_tokens::{Kind, Sign, Token, Tokens};

// The last two tokens before one.
#[derive(Clone, Copy)]
struct Behind<'t> {
    first: &'t [u8],
    last: &'t [u8],
}

// A struct by the word `struct` and a name, or by a name alone.
#[derive(Clone, Copy)]
struct Struct<'t> {
    tagged: bool,
    name: &'t [u8],
}

// What has been read of a definition.
#[derive(Clone, Copy)]
enum Read<'t> {
    Nothing,
    /// Behind the word `struct`.
    Word,
    /// Behind its name.
    Tag(&'t [u8]),
    /// In the brackets: the name, and how many members there are.
    Members(&'t [u8], u64),
    /// Behind them.
    Closed(&'t [u8], u64),
}

fn is_name(kind: Kind) -> bool {
    matches!(kind, Kind::Name)
}

fn is_sign(kind: Kind, sign: Sign) -> bool {
    match kind {
        Kind::Sign(own) => own == sign,
        _ => false,
    }
}

// The type that stands before the name, where a length or the end follows it.
fn struct_of<'t>(text: &'t [u8], name: &[u8]) -> Option<Struct<'t>> {
    let mut behind = Behind {
        first: &[],
        last: &[],
    };
    let mut before = behind;
    'tokens: for token in Tokens::new(text) {
        let ends = is_sign(token.kind, Sign::OpenBracket) || is_sign(token.kind, Sign::Semicolon);
        if ends && behind.last == name {
            return Some(Struct {
                tagged: before.first == b"struct".as_slice(),
                name: before.last,
            });
        }
        before = behind;
        behind = Behind {
            first: behind.last,
            last: text_of(text, &token),
        };
    }
    None
}

// Behind one more token.
fn read_on<'t>(read: Read<'t>, token: &Token, word: &'t [u8]) -> Read<'t> {
    match read {
        Read::Word if is_name(token.kind) => Read::Tag(word),
        Read::Word if is_sign(token.kind, Sign::OpenBrace) => Read::Members(&[], 0),
        Read::Tag(name) if is_sign(token.kind, Sign::OpenBrace) => Read::Members(name, 0),
        Read::Members(name, n) if is_sign(token.kind, Sign::CloseBrace) => Read::Closed(name, n),
        Read::Members(name, n)
            if is_sign(token.kind, Sign::Comma) || is_sign(token.kind, Sign::Semicolon) => {
            Read::Members(name, n.saturating_add(1))
        }
        Read::Members(name, n) => Read::Members(name, n),
        _ if word == b"struct".as_slice() => Read::Word,
        _ => Read::Nothing,
    }
}

// Whether the tokens up to one are the definition of a struct, and how many members it has.
fn defined(read: Read<'_>, word: &[u8], of: Struct<'_>) -> Option<u64> {
    match read {
        Read::Closed(tag, members) if of.tagged && tag == of.name => Some(members),
        Read::Closed(_, members) if !of.tagged && word == of.name => Some(members),
        _ => None,
    }
}

/// How many members a struct has by which a name is declared.
pub fn members_of(text: &[u8], name: &[u8]) -> Option<u64> {
    let of = struct_of(text, name)?;
    let mut read = Read::Nothing;
    'tokens: for token in Tokens::new(text) {
        let word = text_of(text, &token);
        if let Some(members) = defined(read, word, of) {
            return Some(members);
        }
        read = read_on(read, &token, word);
    }
    None
}
