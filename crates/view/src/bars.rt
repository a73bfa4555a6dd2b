// The bars of a table: each is told once, as a background, and shown by its number.

use crate::page::Page;
use std::alloc::AllocError;
use timeline::{Segment, Shade};

// A bar of more segments is shown as one of many pieces.
const MOST_SEGMENTS: usize = 64;

// So many segments of a bar are told in words.
const MOST_WORDS: usize = 5;

fn colour(shade: Shade) -> &'static str {
    match shade {
        Shade::Current => "var(--c) ",
        Shade::Stale => "var(--p) ",
        Shade::Lost => "var(--lost) ",
        Shade::Absent => "transparent ",
    }
}

fn word(shade: Shade) -> &'static str {
    match shade {
        Shade::Current => "current",
        Shade::Stale => "stale",
        Shade::Lost => "current nowhere",
        Shade::Absent => "absent",
    }
}

/// The end of the last segment.
pub fn length_of(bar: &[Segment]) -> u64 {
    match bar.last() {
        None => 0,
        Some(last) => last.end,
    }
}

// The segments of a bar, as a background.
fn add_background(page: &mut Page, bar: &[Segment]) -> Result<(), AllocError> {
    let length = length_of(bar);
    let mut from = 0;
    page.add("linear-gradient(90deg")?;
    'segments: for segment in bar {
        page.add(",")?;
        page.add(colour(segment.shade))?;
        page.add_percent(from, length)?;
        page.add(" ")?;
        page.add_percent(segment.end, length)?;
        from = segment.end;
    }
    page.add(")")
}

/// The rules for all bars that are shown.
pub fn add_rules(page: &mut Page, bars: &[Vec<Segment>], shown: &[bool]) -> Result<(), AllocError> {
    'bars: for (number, bar) in bars.iter().enumerate() {
        if !shown.get(number).copied().unwrap_or(false) || bar.is_empty() {
            continue;
        }
        page.add(".b")?;
        page.add_number(number as u64)?;
        page.add("{background:")?;
        if bar.len() > MOST_SEGMENTS {
            page.add("repeating-linear-gradient(90deg,var(--c) 0 2px,var(--p) 2px 4px)")?;
        } else {
            add_background(page, bar)?;
        }
        page.add("}\n")?;
    }
    Ok(())
}

// The cells of a segment, as a section.
fn add_cells(page: &mut Page, from: u64, end: u64) -> Result<(), AllocError> {
    page.add("[")?;
    page.add_number(from)?;
    page.add(":")?;
    page.add_number(end.saturating_sub(from))?;
    page.add("] ")
}

/// A bar in words.
pub fn add_words(page: &mut Page, bar: &[Segment]) -> Result<(), AllocError> {
    let mut from = 0;
    'segments: for (at, segment) in bar.iter().enumerate() {
        if at > 0 {
            page.add(", ")?;
        }
        if at >= MOST_WORDS {
            return page.add("..");
        }
        add_cells(page, from, segment.end)?;
        page.add(word(segment.shade))?;
        from = segment.end;
    }
    Ok(())
}
