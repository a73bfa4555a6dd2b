//! Joining lines that go on behind a backslash.

ghost use Rattle.std.specs.Prelude.{◌≡◌, ◌++◌, IfOk, OnOk};
ghost use Rattle.c_lines.specs.Spliced.{KeepsLength, KeepsOthers, begins_feed, behind, bytes_for, ends_line, feeds, feeds_behind, is_break, spliced};

use c_tokens::{is_blank, is_include, space_len};
use std::alloc::{AllocError, Global};

/// Where a byte stands.
#[derive(Clone, Copy)]
pub enum Within {
    /// Nothing but blanks stands before it on its line.
    Start,
    Plain,
    /// In a line that begins with `#` and is no `#include`.
    Hash,
    /// Between the backslash of such a line and the line feed.
    Gap,
}

/// Whether a line begins with `#` and is no `#include`.
pub(crate) fn is_hash_line(text: &[u8]) -> bool {
    let rest = &text[space_len(text)..];
    match rest {
        [b'#', behind @ ..] => !is_include(behind),
        _ => false,
    }
}

fn begins_feed(bytes: &[u8]) -> bool
    ensures { result ≡ begins_feed bytes.now }
{
    match bytes {
        [] => false,
        [byte, ..] => *byte == b'\n',
    }
}

fn ends_line(bytes: &[u8]) -> bool
    ensures { result ≡ ends_line bytes.now }
{
    match bytes {
        [] => false,
        [byte, rest @ ..] => *byte == b'\n' || (*byte == b'\r' && begins_feed(rest)),
    }
}

/// Whether the line goes on behind a byte that others follow.
pub(crate) fn is_break(byte: u8, rest: &[u8]) -> bool
    ensures { result ≡ is_break byte rest.now }
{
    byte == b'\\' && ends_line(rest)
}

/// Where the byte behind one stands.
#[tactic(auto, unfolding(crate::specs::Spliced::behind))]
fn behind(at: Within, byte: u8, rest: &[u8]) -> Within
    ensures { result ≡ behind at byte rest.now }
{
    match at {
        Within::Start => {
            if byte == b'#' {
                if is_include(rest) {
                    Within::Plain
                } else {
                    Within::Hash
                }
            } else if is_blank(byte) {
                Within::Start
            } else {
                Within::Plain
            }
        }
        Within::Plain => {
            if byte == b'\n' {
                Within::Start
            } else {
                Within::Plain
            }
        }
        Within::Hash => {
            if is_break(byte, rest) {
                Within::Gap
            } else if byte == b'\n' {
                Within::Start
            } else {
                Within::Hash
            }
        }
        Within::Gap => {
            if byte == b'\n' {
                Within::Hash
            } else {
                Within::Gap
            }
        }
    }
}

/// Some line feeds.
#[tactic(auto, using(crate::proofs::Feeds::more_feeds), unfolding(crate::specs::Spliced::feeds))]
fn put_feeds(done: &mut Vec<u8>, count: usize) -> Result<(), AllocError>
    ensures { OnOk result (done.new.items ≡ done.old.items ++ feeds count) }
{
    'feeds: for _ in 0..count {
        done.push(b'\n')?;
    }
    Ok(())
}

/// What stands for a byte.
#[tactic(auto, unfolding(crate::specs::Spliced::bytes_for))]
fn put(
    done: &mut Vec<u8>,
    at: Within,
    feeds: usize,
    byte: u8,
    rest: &[u8],
) -> Result<(), AllocError>
    ensures { OnOk result (done.new.items ≡ done.old.items ++ bytes_for at feeds byte rest.now) }
{
    match at {
        Within::Start | Within::Plain => done.push(byte)?,
        Within::Hash => {
            if is_break(byte, rest) {
                done.push(b' ')?;
            } else {
                done.push(byte)?;
                if byte == b'\n' {
                    put_feeds(done, feeds)?;
                }
            }
        }
        Within::Gap => {
            if byte != b'\n' {
                done.push(b' ')?;
            }
        }
    }
    Ok(())
}

/// How many line feeds of the line are still to stand at its end.
#[tactic(auto, unfolding(crate::specs::Spliced::feeds_behind))]
fn feeds_behind(at: Within, feeds: usize, byte: u8) -> Result<usize, AllocError>
    ensures { IfOk result (λ k. k ≡ feeds_behind at feeds byte) }
{
    if byte != b'\n' {
        return Ok(feeds);
    }
    match at {
        Within::Start | Within::Plain => Ok(feeds),
        Within::Hash => Ok(0),
        Within::Gap => feeds.checked_add(1).ok_or(AllocError),
    }
}

/// The text in which each line that begins with `#` and goes on behind a backslash is one, as C reads it (ISO C,
/// 5.1.1.2, phase 2): a blank stands for each backslash, and the line feeds stand behind the line, so that all that
/// follows keeps its place. Lines `#include` are as they were. Fails where memory ran out.
#[tactic(auto, unfolding(crate::specs::Spliced::spliced_from))]
pub fn spliced(alloc: Global, bytes: &[u8]) -> Result<Vec<u8>, AllocError>
    ensures { IfOk result (λ v. v.items ≡ spliced bytes.now) }
{
    let mut done = Vec::new(alloc);
    let mut at = Within::Start;
    let mut feeds = 0usize;
    let mut rest = bytes;
    'bytes: while let [byte, after @ ..] = rest {
        put(&mut done, at, feeds, *byte, after)?;
        feeds = feeds_behind(at, feeds, *byte)?;
        at = behind(at, *byte, after);
        rest = after;
    }
    put_feeds(&mut done, feeds)?;
    Ok(done)
}

/// The text has as many bytes as before.
pub fn keeps_length()
    ensures { KeepsLength }
{}

/// A text without a backslash is as it was.
pub fn keeps_others()
    ensures { KeepsOthers }
{}
