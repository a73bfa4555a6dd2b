// What stands in a source.

use base::tree::Place;
use c_tokens::{Kind, Token, Tokens};

/// Whether a token stands before a place.
pub fn is_before(token: &Token, place: Place) -> bool {
    token.line < place.line || (token.line == place.line && token.column < place.column)
}

/// The text of a token; none of its bytes where it is no text.
pub fn text_of<'a>(bytes: &'a [u8], token: &Token) -> &'a str {
    let Some(span) = bytes.get(token.first..token.last.saturating_add(1)) else {
        return "";
    };
    str::from_utf8(span).unwrap_or("")
}

// How many bytes of a name or a number stand at the front.
fn word_len(text: &[u8]) -> usize {
    for i in 0..text.len() {
        let byte = text[i];
        if !byte.is_ascii_alphanumeric() && byte != b'_' {
            return i;
        }
    }
    text.len()
}

fn is_in_operators(byte: u8) -> bool {
    b"+-*/%&|^<>=!".contains(&byte)
}

// Whether an operator has two such bytes.
fn is_doubled(byte: u8) -> bool {
    b"+-&|<>=".contains(&byte)
}

// How many bytes of an operator stand at the front, of one of C that is not read too.
fn operator_len(text: &[u8]) -> usize {
    let [first, rest @ ..] = text else {
        return 0;
    };
    if !is_in_operators(*first) {
        return 0;
    }
    match rest {
        [second, b'=', ..] if second == first && matches!(*first, b'<' | b'>') => 3,
        [second, ..] if second == first && is_doubled(*first) => 2,
        [b'=', ..] => 2,
        _ => 1,
    }
}

/// The name, the number, the operator or the byte that stands at a place; nothing at the end of a line.
pub fn word_at(bytes: &[u8], place: Place) -> &str {
    let line = line_of(bytes, place.line);
    let Some(rest) = line.get(place.column.saturating_sub(1)..) else {
        return "";
    };
    if rest.first().is_some_and(|byte| byte.is_ascii_control()) {
        return "this byte";
    }
    let len = word_len(rest).max(operator_len(rest)).max(1);
    match rest.get(..len) {
        None => "",
        Some(word) => str::from_utf8(word).unwrap_or("this byte"),
    }
}

// How many bytes stand up to the last `]` of the brackets that follow one another, and with it; none where there is none.
fn bracket_len(text: &[u8]) -> usize {
    for i in 0..text.len() {
        if text[i] == b']' {
            let behind = text.get(i.saturating_add(1)..).unwrap_or(&[]);
            if behind.trim_ascii_start().first() != Some(&b'[') {
                return i.saturating_add(1);
            }
        }
    }
    0
}

// How many bytes a name has with the subscripts or bounds that stand behind it.
fn with_brackets(text: &[u8], name: usize) -> usize {
    let mut depth = 0usize;
    let mut len = name;
    for i in name..text.len() {
        let byte = text[i];
        if byte == b'[' {
            depth = depth.saturating_add(1);
        } else if byte == b']' && depth > 0 {
            depth = depth.saturating_sub(1);
            if depth == 0 {
                len = i.saturating_add(1);
            }
        } else if depth == 0 && byte != b' ' {
            return len;
        }
    }
    len
}

// How many bytes a directive has, up to the end of its line or to a comment.
fn directive_len(text: &[u8]) -> usize {
    for i in 1..text.len() {
        if text[i - 1] == b'/' && (text[i] == b'/' || text[i] == b'*') {
            return text[..i - 1].trim_ascii_end().len();
        }
    }
    text.trim_ascii_end().len()
}

// How many bytes stand behind the first one that belong to the same character.
fn character_len(text: &[u8]) -> usize {
    for i in 1..text.len() {
        if text[i] & 0xC0 != 0x80 {
            return i;
        }
    }
    text.len()
}

/// The column behind what is written at a place: a directive, a name with the brackets behind it, a number, an operator
/// or a character. At the end of a line it is the place's own.
pub fn end_of(bytes: &[u8], place: Place) -> usize {
    let line = line_of(bytes, place.line);
    let Some(rest) = line.get(place.column.saturating_sub(1)..) else {
        return place.column;
    };
    let word = word_len(rest);
    let len = match rest {
        [b'#', ..] => directive_len(rest),
        [b'0'..=b'9', ..] => word,
        _ if word > 0 => with_brackets(rest, word),
        _ => operator_len(rest).max(character_len(rest)),
    };
    place.column.saturating_add(len)
}

/// The array or the section that is written at a place of a directive.
pub fn section_at(bytes: &[u8], place: Place) -> &str {
    let line = line_of(bytes, place.line);
    let Some(rest) = line.get(place.column.saturating_sub(1)..) else {
        return "";
    };
    let name = word_len(rest);
    let behind = rest.get(name..).unwrap_or(&[]).trim_ascii();
    let len = if behind.first() == Some(&b'[') {
        bracket_len(rest).max(name)
    } else {
        name
    };
    match rest.get(..len) {
        None => "",
        Some(text) => str::from_utf8(text).unwrap_or(""),
    }
}

/// Where the name stands first, which is where a global of that name is declared.
pub fn declaration_of(bytes: &[u8], name: &str) -> Option<Place> {
    'tokens: for token in Tokens::new(bytes) {
        if matches!(token.kind, Kind::Name) && text_of(bytes, &token) == name {
            return Some(Place {
                line: token.line,
                column: token.column,
            });
        }
    }
    None
}

/// What a name is declared as, anywhere in a text.
#[derive(Clone, Copy, PartialEq, Eq)]
pub enum Naming {
    Nothing,
    Array,
    /// An array that a block declares.
    LocalArray,
    Scalar,
    /// The name of loops whose heads declare none.
    LoopName,
}

/// Whether a type ends by this word.
pub fn is_type(word: &str) -> bool {
    word == "uint64_t" || word == "size_t" || word == "long" || word == "int"
}

// Whether a declaration has ended at this token.
fn ends_declaration(text: &str) -> bool {
    text == ";" || text == "{" || text == "}" || text == ")"
}

// How many braces are open behind this token.
fn depth_behind(text: &str, depth: u32) -> u32 {
    match text {
        "{" => depth.saturating_add(1),
        "}" => depth.saturating_sub(1),
        _ => depth,
    }
}

// What a name is whose declaration goes on by this token, in so many blocks.
fn declared_as(text: &str, depth: u32) -> Naming {
    if text != "[" {
        return Naming::Scalar;
    }
    if depth > 0 {
        Naming::LocalArray
    } else {
        Naming::Array
    }
}

// Whether the name has no type in the head of a loop.
fn is_loop_name(bytes: &[u8], name: &str) -> bool {
    let mut behind = 0;
    'tokens: for token in Tokens::new(bytes) {
        let text = text_of(bytes, &token);
        behind = match behind {
            1 if text == "(" => 2,
            2 if text == name => 3,
            3 if text == "=" => return true,
            _ if text == "for" => 1,
            _ => 0,
        };
    }
    false
}

/// What the first declaration of a name declares it as: it stands behind a type, or a comma of a declaration, and an
/// array has a `[` behind it.
pub fn naming_of(bytes: &[u8], name: &str) -> Naming {
    if is_loop_name(bytes, name) {
        return Naming::LoopName;
    }
    let mut in_declaration = false;
    let mut names_next = false;
    let mut is_declared = false;
    let mut depth = 0;
    'tokens: for token in Tokens::new(bytes) {
        let text = text_of(bytes, &token);
        if is_declared {
            return declared_as(text, depth);
        }
        depth = depth_behind(text, depth);
        is_declared = names_next && text == name;
        names_next = is_type(text) || (in_declaration && text == ",");
        in_declaration = is_type(text) || (in_declaration && !ends_declaration(text));
    }
    Naming::Nothing
}

// The operator of a change that commutes.
fn commuting_operator(text: &str) -> Option<&'static str> {
    match text {
        "+=" | "++" => Some("+"),
        "*=" => Some("*"),
        "&=" => Some("&"),
        "|=" => Some("|"),
        "^=" => Some("^"),
        _ => None,
    }
}

/// A change by an operator that commutes, of a cell or of a scalar.
#[derive(Clone, Copy)]
pub struct Update {
    pub operator: &'static str,
    pub is_scalar: bool,
}

/// How the cell or the scalar whose name stands at a place is changed there, if by an operator that commutes.
pub fn update_at(bytes: &[u8], place: Place) -> Option<Update> {
    let mut depth = 0u32;
    let mut is_behind = false;
    let mut is_scalar = true;
    'tokens: for token in Tokens::new(bytes) {
        if is_before(&token, place) {
            continue;
        }
        let text = text_of(bytes, &token);
        if text == "[" {
            is_scalar = false;
            depth = depth.saturating_add(1);
        } else if text == "]" {
            depth = depth.saturating_sub(1);
        } else if depth == 0 && is_behind {
            return commuting_operator(text).map(|operator| Update {
                operator,
                is_scalar,
            });
        }
        is_behind = true;
    }
    None
}

/// Whether the name at a place is that of a scalar, which is assigned there.
pub fn is_scalar_assigned(bytes: &[u8], place: Place) -> bool {
    let mut is_behind = false;
    'tokens: for token in Tokens::new(bytes) {
        if is_before(&token, place) {
            continue;
        }
        if is_behind {
            return text_of(bytes, &token) == "=";
        }
        is_behind = true;
    }
    false
}

/// Whether a word stands in a line.
pub fn has_word(line: &[u8], word: &[u8]) -> bool {
    'words: for part in line.split(|byte| !(byte.is_ascii_alphanumeric() || *byte == b'_')) {
        if part == word {
            return true;
        }
    }
    false
}

/// A line of a source, which counts from 1, without its end.
pub fn line_of(bytes: &[u8], line: usize) -> &[u8] {
    for (number, text) in bytes.split(|byte| *byte == b'\n').enumerate() {
        if number == line.saturating_sub(1) {
            return text;
        }
    }
    &[]
}
