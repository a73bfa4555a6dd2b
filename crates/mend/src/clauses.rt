// Lines with a clause that is changed or added.

use crate::lines::{cut, indent};
use crate::words::{
    Span, Word, is_clause, is_text, item_at, items, items_first, spliced, word_around, words,
};
use std::alloc::{AllocError, Global};

// A text in the place of some bytes.
#[derive(Clone, Copy)]
struct Patch<'t> {
    span: Span,
    text: &'t [u8],
}

// The line with a text in the place of some bytes, and another in the place of later ones.
fn patched(
    alloc: Global,
    line: &[u8],
    first: Patch<'_>,
    second: Patch<'_>,
) -> Result<Vec<u8>, AllocError> {
    let mut out = Vec::new(alloc);
    out.extend_from_slice(cut(line, 0, first.span.first))?;
    out.extend_from_slice(first.text)?;
    out.extend_from_slice(cut(line, first.span.end, second.span.first))?;
    out.extend_from_slice(second.text)?;
    out.extend_from_slice(cut(line, second.span.end, line.len()))?;
    Ok(out)
}

// The items of a clause but for one, with commas between them.
fn other_items(
    alloc: Global,
    line: &[u8],
    items: &[Span],
    but: Span,
) -> Result<Vec<u8>, AllocError> {
    let mut out = Vec::new(alloc);
    for item in items {
        if item.first != but.first {
            if !out.is_empty() {
                out.extend_from_slice(b", ".as_slice())?;
            }
            out.extend_from_slice(cut(line, item.first, item.end))?;
        }
    }
    Ok(out)
}

// Whether a clause has a type, or what else stands before a colon.
fn has_head(line: &[u8], word: &Word) -> bool {
    items_first(line, word) > word.open
}

// What stands in a clause before its colon, or nothing where it has none.
fn head_of(line: &[u8], word: &Word) -> Span {
    let end = if has_head(line, word) {
        items_first(line, word).saturating_sub(1)
    } else {
        word.open
    };
    Span {
        first: word.open,
        end,
    }
}

// The clause of a name with this before its colon, other than one that begins at a place.
fn clause_with(
    line: &[u8],
    words: &[Word],
    but: Option<usize>,
    name: &[u8],
    head: &[u8],
) -> Option<Word> {
    for word in words {
        let span = head_of(line, word);
        if word.has_brackets()
            && but != Some(word.first)
            && is_text(line, word, name)
            && cut(line, span.first, span.end).trim_ascii() == head
        {
            return Some(*word);
        }
    }
    None
}

// The line with one item of a clause in a clause of its own, behind that one.
fn split(
    alloc: Global,
    line: &[u8],
    word: &Word,
    items: &[Span],
    item: Span,
    head: &str,
) -> Result<Vec<u8>, AllocError> {
    let mut out = Vec::new(alloc);
    out.extend_from_slice(cut(line, 0, items_first(line, word)))?;
    if has_head(line, word) {
        out.push(b' ')?;
    }
    out.extend_from_slice(&other_items(alloc, line, items, item)?)?;
    out.extend_from_slice(b") ".as_slice())?;
    out.extend_from_slice(cut(line, word.first, word.open))?;
    out.extend_from_slice(head.as_bytes())?;
    out.extend_from_slice(b": ".as_slice())?;
    out.extend_from_slice(cut(line, item.first, item.end))?;
    out.extend_from_slice(cut(line, word.close, line.len()))?;
    Ok(out)
}

// A clause with the blanks before it, and the comma before or behind it.
fn with_blanks(line: &[u8], clause: &Word) -> Span {
    let before = cut(line, 0, clause.first).trim_ascii_end();
    let end = clause.whole_end();
    if before.ends_with(b",".as_slice()) {
        let first = cut(line, 0, before.len().saturating_sub(1))
            .trim_ascii_end()
            .len();
        return Span { first, end };
    }
    let first = before.len();
    let blanks = indent(cut(line, end, line.len()));
    let behind = end.saturating_add(blanks);
    if cut(line, behind, behind.saturating_add(1)) == b",".as_slice() {
        return Span {
            first,
            end: behind.saturating_add(1),
        };
    }
    Span { first, end }
}

// What is left of a clause without one of its items: nothing, with the blanks before it, where it is the only one.
fn left_over(
    alloc: Global,
    line: &[u8],
    word: &Word,
    items: &[Span],
    item: Span,
) -> Result<(Span, Vec<u8>), AllocError> {
    if items.len() < 2 {
        return Ok((with_blanks(line, word), Vec::new(alloc)));
    }
    let mut text = Vec::new(alloc);
    if has_head(line, word) {
        text.push(b' ')?;
    }
    text.extend_from_slice(&other_items(alloc, line, items, item)?)?;
    let span = Span {
        first: items_first(line, word),
        end: word.close,
    };
    Ok((span, text))
}

// The line with one item of a clause at the end of another one.
fn moved(
    alloc: Global,
    line: &[u8],
    word: &Word,
    items: &[Span],
    item: Span,
    other: &Word,
) -> Result<Vec<u8>, AllocError> {
    let (span, text) = left_over(alloc, line, word, items, item)?;
    let mut added = Vec::from_slice(alloc, b", ".as_slice())?;
    added.extend_from_slice(cut(line, item.first, item.end))?;
    let here = Patch { span, text: &text };
    let there = Patch {
        span: Span {
            first: other.close,
            end: other.close,
        },
        text: &added,
    };
    if word.first < other.first {
        patched(alloc, line, here, there)
    } else {
        patched(alloc, line, there, here)
    }
}

/// The line with another type, or other modifiers and another type, for the item at a place: in the clause that has
/// them, where there is one, else in a clause of its own.
pub fn with_head(
    alloc: Global,
    line: &[u8],
    place: usize,
    head: &str,
) -> Result<Option<Vec<u8>>, AllocError> {
    let words = words(alloc, line)?;
    let Some(word) = word_around(&words, place) else {
        return Ok(None);
    };
    let items = items(alloc, line, &word)?;
    let Some(item) = item_at(&items, place) else {
        return Ok(None);
    };
    let name = cut(line, word.first, word.end);
    if let Some(other) = clause_with(line, &words, Some(word.first), name, head.as_bytes()) {
        return Ok(Some(moved(alloc, line, &word, &items, item, &other)?));
    }
    if items.len() > 1 {
        return Ok(Some(split(alloc, line, &word, &items, item, head)?));
    }
    let mut text = String::new(alloc);
    text.push_str(head)?;
    if !has_head(line, &word) {
        text.push_str(": ")?;
    }
    Ok(Some(spliced(alloc, line, head_of(line, &word), text.as_str().as_bytes())?))
}

/// Where an item of this text begins in a clause of that name.
pub fn place_of(
    alloc: Global,
    line: &[u8],
    name: &[u8],
    text: &[u8],
) -> Result<Option<usize>, AllocError> {
    for word in words(alloc, line)?.as_slice() {
        if word.has_brackets() && is_text(line, word, name) {
            for item in items(alloc, line, word)?.as_slice() {
                if cut(line, item.first, item.end) == text {
                    return Ok(Some(item.first));
                }
            }
        }
    }
    Ok(None)
}

// Where a clause goes: behind the last one of its name, else behind the words of the directive, or at the end.
fn clause_place(line: &[u8], words: &[Word], name: &[u8], at_end: bool) -> usize {
    let mut directive = 0usize;
    let mut same = 0usize;
    let mut last = 0usize;
    for word in words {
        last = word.whole_end();
        if is_text(line, word, name) {
            same = last;
        }
        if !is_clause(line, word) {
            directive = last;
        }
    }
    if same > 0 {
        same
    } else if at_end {
        last
    } else {
        directive
    }
}

// The line with a text at a place.
fn inserted(alloc: Global, line: &[u8], place: usize, text: &str) -> Result<Vec<u8>, AllocError> {
    let span = Span {
        first: place,
        end: place,
    };
    spliced(alloc, line, span, text.as_bytes())
}

// The line with an item more, in the clause of that name with this before its colon.
fn with_item_more(
    alloc: Global,
    line: &[u8],
    name: &str,
    at_end: bool,
    head: &str,
    item: &str,
) -> Result<Vec<u8>, AllocError> {
    let words = words(alloc, line)?;
    if let Some(clause) = clause_with(line, &words, None, name.as_bytes(), head.as_bytes()) {
        let text = format!(in alloc; ", {item}")?;
        return inserted(alloc, line, clause.close, text.as_str());
    }
    let place = clause_place(line, &words, name.as_bytes(), at_end);
    let text = format!(in alloc; " {name}({head}: {item})")?;
    inserted(alloc, line, place, text.as_str())
}

/// The line with a map item more.
pub fn with_map(alloc: Global, line: &[u8], head: &str, item: &str) -> Result<Vec<u8>, AllocError> {
    with_item_more(alloc, line, "map", false, head, item)
}

/// The line with a depend item more.
pub fn with_depend(
    alloc: Global,
    line: &[u8],
    head: &str,
    item: &str,
) -> Result<Vec<u8>, AllocError> {
    with_item_more(alloc, line, "depend", true, head, item)
}

/// The line with one more that is summed up by an operator.
pub fn with_reduction(
    alloc: Global,
    line: &[u8],
    operator: &str,
    item: &str,
) -> Result<Vec<u8>, AllocError> {
    with_item_more(alloc, line, "reduction", true, operator, item)
}

/// The line without the item at a place, and without its clause where it is the only one there.
pub fn without_item(
    alloc: Global,
    line: &[u8],
    place: usize,
) -> Result<Option<Vec<u8>>, AllocError> {
    let words = words(alloc, line)?;
    let Some(word) = word_around(&words, place) else {
        return Ok(None);
    };
    let items = items(alloc, line, &word)?;
    let Some(item) = item_at(&items, place) else {
        return Ok(None);
    };
    let (span, text) = left_over(alloc, line, &word, &items, item)?;
    Ok(Some(spliced(alloc, line, span, &text)?))
}

/// The line without a clause, the blanks before it, and a comma beside it.
pub fn without_clause(alloc: Global, line: &[u8], clause: &Word) -> Result<Vec<u8>, AllocError> {
    spliced(alloc, line, with_blanks(line, clause), &[])
}

/// The line with another device, as it is written in brackets.
pub fn with_device(alloc: Global, line: &[u8], device: &str) -> Result<Vec<u8>, AllocError> {
    let words = words(alloc, line)?;
    for word in words.as_slice() {
        if is_text(line, word, b"device".as_slice()) && word.has_brackets() {
            let span = Span {
                first: word.open,
                end: word.close,
            };
            return spliced(alloc, line, span, device.as_bytes());
        }
    }
    let place = clause_place(line, &words, b"device".as_slice(), true);
    let text = format!(in alloc; " device({device})")?;
    inserted(alloc, line, place, text.as_str())
}

/// The line with the other direction of the update at a place.
pub fn with_other_direction(
    alloc: Global,
    line: &[u8],
    place: usize,
) -> Result<Option<Vec<u8>>, AllocError> {
    let words = words(alloc, line)?;
    let Some(word) = word_around(&words, place) else {
        return Ok(None);
    };
    let other = if is_text(line, &word, b"to".as_slice()) {
        b"from".as_slice()
    } else if is_text(line, &word, b"from".as_slice()) {
        b"to".as_slice()
    } else {
        return Ok(None);
    };
    let span = Span {
        first: word.first,
        end: word.end,
    };
    Ok(Some(spliced(alloc, line, span, other)?))
}

/// A section as it is written, with another length; none where it has no length, or several dimensions.
pub fn with_length(alloc: Global, text: &str, length: u64) -> Result<Option<String>, AllocError> {
    let bytes = text.as_bytes();
    let mut brackets = 0usize;
    let mut colon = 0usize;
    let mut place = 0usize;
    for byte in bytes {
        place = place.saturating_add(1);
        match *byte {
            b'[' => brackets = brackets.saturating_add(1),
            b':' => colon = place,
            _ => {}
        }
    }
    if brackets != 1 || colon == 0 {
        return Ok(None);
    }
    let Ok(front) = std::str::from_utf8(cut(bytes, 0, colon)) else {
        return Ok(None);
    };
    Ok(Some(format!(in alloc; "{front}{length}]")?))
}
