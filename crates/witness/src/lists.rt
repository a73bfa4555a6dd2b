// Lists of choices to try.

use std::alloc::{AllocError, Global};

// One less than a multiple of each number up to 22: of so many events it picks the last.
const LAST: u32 = 232_792_559;

// The longest list that is tried.
const MOST_CHOICES: usize = 4096;

/// A list that picks the last event at each turn: the host first, and later items before earlier ones.
pub fn last_first(alloc: Global, length: usize) -> Result<Vec<u32>, AllocError> {
    let mut list = Vec::new(alloc);
    for _ in 0..length.min(MOST_CHOICES) {
        list.push(LAST)?;
    }
    Ok(list)
}

/// The next state of a linear congruential generator (Knuth, MMIX).
pub fn next_state(state: u64) -> u64 {
    state
        .wrapping_mul(6_364_136_223_846_793_005)
        .wrapping_add(1_442_695_040_888_963_407)
}

// A number below 64 from a state.
fn drawn(state: u64) -> u64 {
    (state / 8_589_934_592) % 64
}

// A choice: that before it, the first, the last, or one of the first few.
fn choice(drawn: u64, before: u32, stay: u64) -> u32 {
    if drawn < stay {
        return before;
    }
    match drawn % 8 {
        0 | 1 => 0,
        2 => LAST,
        3 | 4 => 1,
        5 | 6 => 2,
        _ => 3,
    }
}

/// A list of drawn choices, by a number that says which. Of the lists some keep to a choice for long.
pub fn drawn_list(alloc: Global, which: usize, length: usize) -> Result<Vec<u32>, AllocError> {
    let mut list = Vec::new(alloc);
    let mut state = next_state(which as u64);
    let stay = (which as u64 % 4) * 16;
    let mut before = 0u32;
    for _ in 0..length.min(MOST_CHOICES) {
        state = next_state(state);
        before = choice(drawn(state), before, stay);
        list.push(before)?;
    }
    Ok(list)
}
