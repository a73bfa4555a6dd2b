//! Sources as people write them, each with a source without new forms that means the same: their trees are compared, but
//! for the places. A pair stands below a line `== ` with its name; a line `--` stands between the two.

use super::rows::expanded;
use super::{are_cuts_refused, reading};
use crate::tally::Tally;
use crate::text::Text;
use std::alloc::{AllocError, Global};
use std::io;

/// Whether a word is a line and a column.
fn is_place(word: &str) -> bool {
    match word.split_once(':') {
        Some((line, column)) => line.parse::<u32>().is_ok() && column.parse::<u32>().is_ok(),
        None => false,
    }
}

/// A word without the places behind its names.
fn add_word(out: &mut Text, word: &str) {
    let mut is_placed = false;
    for c in word.chars() {
        if c == '@' {
            is_placed = true;
        } else if !is_placed || !(c.is_ascii_digit() || c == ':') {
            is_placed = false;
            out.add_shown(c);
        }
    }
}

fn without_places(alloc: Global, tree: &[u8]) -> Result<Vec<u8>, AllocError> {
    let mut out = Text::new(alloc);
    for line in str::from_utf8(tree).unwrap_or("no text").split('\n') {
        for word in line.split(' ') {
            if !is_place(word) {
                add_word(&mut out, word);
                out.add(" ");
            }
        }
        out.add("\n");
    }
    out.end()
}

fn tree_of(alloc: Global, text: &str) -> Result<Vec<u8>, AllocError> {
    without_places(alloc, &reading(alloc, &expanded(alloc, text)?)?)
}

/// Whether a source is refused wherever it is cut off before its end.
fn is_read_as_a_whole(alloc: Global, text: &str) -> Result<bool, AllocError> {
    let source = expanded(alloc, text)?;
    Ok(are_cuts_refused(alloc, source.trim_ascii_end()))
}

/// Compares both trees of each pair, and cuts the first source off after each byte. A pair that differs is named by what it
/// shows.
pub(crate) fn compare_pairs(alloc: Global, tally: &mut Tally, file: &str) -> io::Result<()> {
    for row in file.trim_end_matches('\n').split("\n== ").skip(1) {
        let (name, texts) = row.split_once('\n').unwrap_or((row, ""));
        let (written, plain) = texts.split_once("\n--\n").unwrap_or((texts, ""));
        tally.compare(name, "", &tree_of(alloc, written)?, &tree_of(alloc, plain)?);
        if !is_read_as_a_whole(alloc, written)? {
            tally.compare(name, "", b"a part of it is read", b"");
        }
    }
    Ok(())
}
