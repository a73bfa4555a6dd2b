// The words of a directive line, and their items.

use crate::lines::{cut, is_space};
use std::alloc::{AllocError, Global};

/// A word of a directive line, and what stands in brackets behind it.
#[derive(Clone, Copy)]
pub struct Word {
    pub first: usize,
    pub end: usize,
    /// Where the text in the brackets begins and ends; both are `end` where there are none.
    pub open: usize,
    pub close: usize,
}

impl Word {
    pub fn has_brackets(&self) -> bool {
        self.open > self.end
    }

    /// Where it ends with its brackets.
    pub fn whole_end(&self) -> usize {
        if self.has_brackets() {
            self.close.saturating_add(1)
        } else {
            self.end
        }
    }
}

/// Bytes from one place up to another.
#[derive(Clone, Copy)]
pub struct Span {
    pub first: usize,
    pub end: usize,
}

fn is_name_byte(byte: u8) -> bool {
    byte.is_ascii_alphanumeric() || byte == b'_'
}

// What is read of a line.
#[derive(Drop)]
struct Scan {
    words: Vec<Word>,
    word: Option<Word>,
    depth: usize,
}

impl Scan {
    fn close(&mut self, place: usize) {
        self.depth = self.depth.saturating_sub(1);
        if self.depth == 0
            && let Some(word) = self.word
        {
            self.word = Some(Word {
                close: place,
                ..word
            });
        }
    }

    fn open(&mut self, place: usize) {
        if self.depth == 0
            && let Some(word) = self.word
        {
            let inside = place.saturating_add(1);
            self.word = Some(Word {
                open: inside,
                close: inside,
                ..word
            });
        }
        self.depth = self.depth.saturating_add(1);
    }

    fn end_word(&mut self) -> Result<(), AllocError> {
        if let Some(word) = self.word {
            self.words.push(word)?;
        }
        self.word = None;
        Ok(())
    }

    fn name(&mut self, place: usize) -> Result<(), AllocError> {
        let end = place.saturating_add(1);
        if let Some(word) = self.word
            && word.end == place
            && !word.has_brackets()
        {
            self.word = Some(Word {
                end,
                open: end,
                close: end,
                ..word
            });
            return Ok(());
        }
        self.end_word()?;
        self.word = Some(Word {
            first: place,
            end,
            open: end,
            close: end,
        });
        Ok(())
    }

    fn take(&mut self, place: usize, byte: u8) -> Result<(), AllocError> {
        match byte {
            b'(' => self.open(place),
            b')' => self.close(place),
            _ => {
                if self.depth == 0 && is_name_byte(byte) {
                    self.name(place)?;
                }
            }
        }
        Ok(())
    }
}

/// The words that stand in no brackets.
pub fn words(alloc: Global, line: &[u8]) -> Result<Vec<Word>, AllocError> {
    let mut scan = Scan {
        words: Vec::new(alloc),
        word: None,
        depth: 0,
    };
    let mut place = 0usize;
    for byte in line {
        if *byte == b'/' {
            break;
        }
        scan.take(place, *byte)?;
        place = place.saturating_add(1);
    }
    scan.end_word()?;
    Ok(scan.words)
}

/// Whether a word is this text.
pub fn is_text(line: &[u8], word: &Word, text: &[u8]) -> bool {
    cut(line, word.first, word.end) == text
}

/// Whether a word is a clause.
pub fn is_clause(line: &[u8], word: &Word) -> bool {
    word.has_brackets() || is_text(line, word, b"nowait".as_slice())
}

/// The word in whose brackets a place is.
pub fn word_around(words: &[Word], place: usize) -> Option<Word> {
    for word in words {
        if word.has_brackets() && word.open <= place && place < word.close {
            return Some(*word);
        }
    }
    None
}

/// Where the items of a clause begin: behind the colon that stands in no square brackets.
pub fn items_first(line: &[u8], word: &Word) -> usize {
    let mut depth = 0usize;
    let mut place = word.open;
    for byte in cut(line, word.open, word.close) {
        match *byte {
            b'[' => depth = depth.saturating_add(1),
            b']' => depth = depth.saturating_sub(1),
            b':' => {
                if depth == 0 {
                    return place.saturating_add(1);
                }
            }
            _ => {}
        }
        place = place.saturating_add(1);
    }
    word.open
}

// Bytes without the blanks at both ends.
fn trimmed(line: &[u8], span: Span) -> Span {
    let mut first = span.first;
    let mut end = span.first;
    let mut place = span.first;
    for byte in cut(line, span.first, span.end) {
        let next = place.saturating_add(1);
        if !is_space(*byte) {
            if end == span.first {
                first = place;
            }
            end = next;
        }
        place = next;
    }
    if end == span.first {
        return Span { first: end, end };
    }
    Span { first, end }
}

/// The items of a clause.
pub fn items(alloc: Global, line: &[u8], word: &Word) -> Result<Vec<Span>, AllocError> {
    let mut all = Vec::new(alloc);
    let mut depth = 0usize;
    let mut first = items_first(line, word);
    let mut place = first;
    for byte in cut(line, first, word.close) {
        match *byte {
            b'[' => depth = depth.saturating_add(1),
            b']' => depth = depth.saturating_sub(1),
            b',' => {
                if depth == 0 {
                    all.push(trimmed(line, Span { first, end: place }))?;
                    first = place.saturating_add(1);
                }
            }
            _ => {}
        }
        place = place.saturating_add(1);
    }
    all.push(trimmed(
        line,
        Span {
            first,
            end: word.close,
        },
    ))?;
    Ok(all)
}

/// The item at a place.
pub fn item_at(items: &[Span], place: usize) -> Option<Span> {
    for item in items {
        if item.first <= place && place < item.end {
            return Some(*item);
        }
    }
    None
}

/// The item that stands at a place of a line.
pub fn item_around(alloc: Global, line: &[u8], place: usize) -> Result<Option<Span>, AllocError> {
    let words = words(alloc, line)?;
    let Some(word) = word_around(&words, place) else {
        return Ok(None);
    };
    let items = items(alloc, line, &word)?;
    Ok(item_at(&items, place))
}

/// The line with a text in the place of some bytes.
pub fn spliced(alloc: Global, line: &[u8], span: Span, text: &[u8]) -> Result<Vec<u8>, AllocError> {
    let mut out = Vec::new(alloc);
    out.extend_from_slice(cut(line, 0, span.first))?;
    out.extend_from_slice(text)?;
    out.extend_from_slice(cut(line, span.end, line.len()))?;
    Ok(out)
}

/// The line with another text for the item at a place.
pub fn with_item(
    alloc: Global,
    line: &[u8],
    place: usize,
    text: &str,
) -> Result<Option<Vec<u8>>, AllocError> {
    let Some(item) = item_around(alloc, line, place)? else {
        return Ok(None);
    };
    Ok(Some(spliced(alloc, line, item, text.as_bytes())?))
}
