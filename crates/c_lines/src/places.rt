//! Where the text with its lines joined stands in the text as it was.

ghost use Rattle.std.specs.Prelude.{◌≤◌, length};

use crate::lines::{is_break, is_hash_line};

// What stands from a line on. Lines are counted from 1.
fn from_line(text: &[u8], line: usize) -> &[u8] {
    let mut rest = text;
    let mut number = 1usize;
    'lines: while let [byte, after @ ..] = rest {
        if number >= line {
            return rest;
        }
        if *byte == b'\n' {
            number = number.saturating_add(1);
        }
        rest = after;
    }
    rest
}

// What follows the next line feed.
fn past_feed(text: &[u8]) -> &[u8]
    ensures { length result.now ≤ length text.now }
{
    for at in 0..text.len() {
        if text[at] == b'\n' {
            return &text[at + 1..];
        }
    }
    &[]
}

/// The line and the column in a text of what stands at these of the text with its lines joined. Both count from 1.
pub fn place_in(text: &[u8], line: usize, column: usize) -> (usize, usize) {
    let mut rest = from_line(text, line);
    if !is_hash_line(rest) {
        return (line, column);
    }
    let (mut number, mut first) = (line, 1usize);
    let mut at = 1usize;
    'bytes: while let [byte, after @ ..] = rest {
        if at >= column || *byte == b'\n' {
            break;
        }
        at = at.saturating_add(1);
        rest = after;
        if is_break(*byte, after) {
            if let [b'\r', ..] = after {
                at = at.saturating_add(1);
            }
            rest = past_feed(after);
            number = number.saturating_add(1);
            first = at;
        }
    }
    (number, column.saturating_sub(first).saturating_add(1))
}
