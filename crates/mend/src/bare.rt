//! A text without its directive lines.

ghost use Rattle.std.specs.Prelude.{◌≡◌, ◌<◌, ◌≤◌, IfOk, length};
ghost use Rattle.mend.specs.Bare.{behind, gap, start_before, without_directives};

use crate::lines::{cut, is_space};
use c_tokens::{Token, tokens};
use erasure::is_directive;
use std::alloc::{AllocError, Global};

// Where the line of a place begins, where nothing but blanks stands before it.
fn line_start(bytes: &[u8], place: usize) -> Option<usize>
    requires { place ≤ length bytes.now }
    ensures { result ≡ start_before bytes.now place }
{
    let mut start = place;
    'back: while start > 0 {
        let byte = bytes[start - 1];
        if byte == b'\n' {
            return Some(start);
        }
        if !is_space(byte) {
            return None;
        }
        start -= 1;
    }
    Some(0)
}

// The place behind a line that ends before a place, with its line feed.
fn behind(bytes: &[u8], place: usize) -> usize
    ensures { result ≡ behind bytes.now place }
{
    if place < bytes.len() && bytes[place] == b'\n' {
        place + 1
    } else {
        place
    }
}

// From where on and up to where a directive line goes.
fn gap(bytes: &[u8], token: &Token) -> (usize, usize)
    requires ordered { token.now.first ≤ token.now.last }
    requires within { token.now.last < length bytes.now }
    ensures { result ≡ gap bytes.now token.now }
{
    match line_start(bytes, token.first) {
        Some(start) => (start, behind(bytes, token.last + 1)),
        None => (token.first, token.last + 1),
    }
}

/// The text without its directive lines: those whose words are `pragma omp`. Each is deleted with the
/// blanks before its `#` and its line feed. Where something else than blanks stands before the `#` on its line, it is
/// deleted from the `#` on, and the line feed stays. Fails where memory ran out.
pub fn without_directives(alloc: Global, bytes: &[u8]) -> Result<Vec<u8>, AllocError>
    ensures { IfOk result (λ v. v.items ≡ without_directives bytes.now) }
{
    let mut kept = Vec::new(alloc);
    let mut next = 0;
    for token in tokens(bytes) {
        if is_directive(bytes, &token) {
            let (start, end) = gap(bytes, &token);
            kept.extend_from_slice(cut(bytes, next, start))?;
            next = end;
        }
    }
    kept.extend_from_slice(cut(bytes, next, bytes.len()))?;
    Ok(kept)
}
