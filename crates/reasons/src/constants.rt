// The constants of a source.

use crate::around::{Around, begins_word, ends_operand};
use crate::source::{is_type, text_of};
use c_tokens::{Kind, Tokens};

// What the names of a declaration are.
#[derive(Clone, Copy)]
enum Declared {
    Other,
    Constant,
    Enumerated,
}

// The name that a line defines, which begins with `#`; nothing where it defines none.
fn defined_by(line: &str) -> &str {
    let bytes = line.as_bytes().get(1..).unwrap_or(&[]);
    let mut is_behind = false;
    'tokens: for token in Tokens::new(bytes) {
        let text = text_of(bytes, &token);
        if is_behind {
            return text;
        }
        if text != "define" {
            return "";
        }
        is_behind = true;
    }
    ""
}

// What the names behind this token are.
fn behind(text: &str, declared: Declared) -> Declared {
    match text {
        "const" => Declared::Constant,
        "enum" => Declared::Enumerated,
        ";" | "}" => Declared::Other,
        _ => declared,
    }
}

// Whether the name of a constant comes behind this token.
fn names_next(text: &str, declared: Declared) -> bool {
    match declared {
        Declared::Other => false,
        Declared::Constant => is_type(text),
        Declared::Enumerated => text == "{" || text == ",",
    }
}

// Whether it is the name of a constant.
fn is_constant(bytes: &[u8], name: &str) -> bool {
    let mut declared = Declared::Other;
    let mut is_named = false;
    'tokens: for token in Tokens::new(bytes) {
        let text = text_of(bytes, &token);
        if matches!(token.kind, Kind::Line) {
            if defined_by(text) == name {
                return true;
            }
        } else {
            if is_named && text == name {
                return true;
            }
            declared = behind(text, declared);
            is_named = names_next(text, declared);
        }
    }
    false
}

/// Of the name of a constant that stands where a name is assigned or declared.
pub fn renamed(bytes: &[u8], around: &Around<'_>) -> Option<&'static str> {
    let is_renamed = around.wants_body || is_type(around.before) || !ends_operand(around.before);
    if is_renamed
        && around.line.is_empty()
        && begins_word(around.word)
        && is_constant(bytes, around.word)
    {
        return Some(
            "a constant stands for its number: it is not assigned, and its name is not declared again",
        );
    }
    None
}
