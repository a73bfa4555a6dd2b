// What stands around a place of a text.

use crate::source::{is_before, line_of, text_of, word_at};
use base::tree::Place;
use c_tokens::Tokens;

// What has a body: a loop or a condition.
#[derive(Clone, Copy, PartialEq, Eq)]
enum Head {
    Loop,
    Condition,
}

// The tokens up to a place.
#[derive(Clone, Copy)]
struct Scan<'a> {
    before: &'a str,
    earlier: &'a str,
    braces: u32,
    brackets: u32,
    head: Option<Head>,
    ends_head: bool,
}

/// What stands around a place of a text.
#[derive(Clone, Copy)]
pub struct Around<'a> {
    /// The name, the number or the sign that stands there; nothing at the end of a line.
    pub word: &'a str,
    /// The byte behind it, blanks aside; 0 at the end of the line.
    pub next: u8,
    /// What stands behind it on its line.
    pub rest: &'a [u8],
    /// The byte right before it on its line, 0 where there is none.
    pub last: u8,
    /// The token before it, and the one before that; nothing where there is none.
    pub before: &'a str,
    pub earlier: &'a str,
    /// It stands before `main`, or behind it.
    pub is_outside: bool,
    /// It stands in the head of a loop.
    pub in_head: bool,
    /// A body is to stand there.
    pub wants_body: bool,
    /// What stands before it on a line that begins with `#`; nothing elsewhere.
    pub line: &'a [u8],
}

impl<'a> Scan<'a> {
    fn close(&mut self) {
        self.brackets = self.brackets.saturating_sub(1);
        if self.brackets == 0 && self.head.is_some() {
            self.head = None;
            self.ends_head = true;
        }
    }

    fn open_head(&mut self, head: Head) {
        self.head = Some(head);
        self.brackets = 0;
    }

    fn take(&mut self, text: &'a str) {
        self.earlier = self.before;
        self.before = text;
        self.ends_head = text == "else";
        if text == "for" {
            self.open_head(Head::Loop);
        } else if text == "if" {
            self.open_head(Head::Condition);
        } else if text == "(" {
            self.brackets = self.brackets.saturating_add(1);
        } else if text == ")" {
            self.close();
        } else if text == "{" {
            self.braces = self.braces.saturating_add(1);
        } else if text == "}" {
            self.braces = self.braces.saturating_sub(1);
        }
    }
}

fn tokens_before(bytes: &[u8], place: Place) -> Scan<'_> {
    let mut scan = Scan {
        before: "",
        earlier: "",
        braces: 0,
        brackets: 0,
        head: None,
        ends_head: false,
    };
    'tokens: for token in Tokens::new(bytes) {
        if !is_before(&token, place) {
            break;
        }
        scan.take(text_of(bytes, &token));
    }
    scan
}

/// Whether a name or a number begins so.
pub fn begins_word(word: &str) -> bool {
    match word.as_bytes() {
        [first, ..] => first.is_ascii_alphanumeric() || *first == b'_',
        [] => false,
    }
}

/// Whether an operand may end by this token.
pub fn ends_operand(before: &str) -> bool {
    begins_word(before) || before == ")" || before == "]"
}

// The first byte that is no blank; 0 where there is none.
fn first_of(text: &[u8]) -> u8 {
    for byte in text {
        if *byte != b' ' && *byte != b'\t' && *byte != b'\r' {
            return *byte;
        }
    }
    0
}

// The last byte that is no blank; 0 where there is none.
fn last_of(text: &[u8]) -> u8 {
    let mut last = 0;
    for byte in text {
        if *byte != b' ' && *byte != b'\t' {
            last = *byte;
        }
    }
    last
}

impl Around<'_> {
    /// The byte before it on a directive's line, blanks aside.
    pub fn before_on_line(&self) -> u8 {
        last_of(self.line)
    }

    /// An operand ends before it.
    pub fn is_behind_operand(&self) -> bool {
        if self.line.is_empty() {
            return ends_operand(self.before);
        }
        let last = self.before_on_line();
        last.is_ascii_alphanumeric() || last == b'_' || last == b')'
    }

    /// It stands behind these bytes on a directive's line, blanks aside.
    pub fn is_behind(&self, bytes: &[u8]) -> bool {
        self.line.trim_ascii_end().ends_with(bytes)
    }

    /// It stands between the brackets of a section on a directive's line.
    pub fn is_in_bound(&self) -> bool {
        let mut is_open = false;
        for byte in self.line {
            if *byte == b'[' {
                is_open = true;
            } else if *byte == b']' {
                is_open = false;
            }
        }
        is_open
    }
}

// What stands before a place on its line, if this begins with `#`.
fn on_directive<'a>(line: &'a [u8], place: Place) -> &'a [u8] {
    match line.get(..place.column.saturating_sub(1)) {
        Some(before) if first_of(before) == b'#' => before,
        _ => &[],
    }
}

fn byte_at(line: &[u8], at: usize) -> u8 {
    line.get(at).copied().unwrap_or(0)
}

/// What stands around a place.
pub fn look_around(bytes: &[u8], place: Place) -> Around<'_> {
    let scan = tokens_before(bytes, place);
    let word = word_at(bytes, place);
    let line = line_of(bytes, place.line);
    let at = place.column.saturating_sub(1);
    let behind = line.get(at.saturating_add(word.len())..).unwrap_or(&[]);
    let last = if at == 0 { 0 } else { byte_at(line, at - 1) };
    Around {
        word,
        next: first_of(behind),
        rest: behind,
        last,
        before: scan.before,
        earlier: scan.earlier,
        is_outside: scan.braces == 0,
        in_head: scan.head == Some(Head::Loop),
        wants_body: scan.ends_head,
        line: on_directive(line, place),
    }
}
