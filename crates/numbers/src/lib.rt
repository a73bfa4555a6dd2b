//! Numbers in text: the program's input and lists of choices. Leading zeros are allowed.
#![tactic(auto)]

ghost use Rattle.std.specs.Prelude.{◌≡◌, ◌≤◌, ◌^◌, Some, None, IfOk, IfErr, OnOk, length};
ghost use Rattle.std.specs.List.{prefix_len};
ghost use Rattle.numbers.specs.declared.NumbersFault.TheVariants.{Malformed};
ghost use Rattle.numbers.specs.Numbers.{is_digit, is_blank, number_below, input_of, choices_of, is_no_star, run_in, runs_of, then_run, times_in};

use std::alloc::{AllocError, Global};

/// How many numbers an input may have.
const MAX_INPUT: usize = 1_048_576;

fn is_digit(b: u8) -> bool
    ensures { result ≡ is_digit b }
{
    b >= b'0' && b <= b'9'
}

fn is_blank(b: u8) -> bool
    ensures { result ≡ is_blank b }
{
    b == b' ' || b == b'\t' || b == b'\r' || b == b'\n'
}

/// The number that these digits spell, or none where one is no digit or the number is above `u64::MAX`.
#[tactic(auto, using(crate::proofs::Digits::number_start, crate::proofs::Digits::number_empty, crate::proofs::Digits::number_step, crate::proofs::Digits::number_no_digit, crate::proofs::Digits::number_large, crate::proofs::Digits::number_end))]
fn number_of(digits: &[u8]) -> Option<u64>
    ensures { result ≡ number_below (2 ^ 64) digits.now }
{
    if digits.is_empty() {
        return None;
    }
    let mut value: u64 = 0;
    for d in digits {
        if !is_digit(*d) {
            return None;
        }
        value = value.checked_mul(10)?.checked_add(u64::from(*d % 16))?;
    }
    Some(value)
}

/// Why numbers were not read.
#[derive(Clone, Copy, Debug, PartialEq, Eq)]
pub enum NumbersFault {
    Malformed,
    OutOfMemory,
}

impl From<AllocError> for NumbersFault {
    ghost use Rattle.std.specs.Prelude.{◌≡◌};
    ghost use Rattle.numbers.specs.declared.NumbersFault.TheVariants.{OutOfMemory};

    ghost from_gives = { λ _ e. e ≡ OutOfMemory };

    fn from(_error: AllocError) -> Self {
        NumbersFault::OutOfMemory
    }
}

/// The numbers of an input, separated by blanks.
pub fn input_numbers(alloc: Global, bytes: &[u8]) -> Result<Vec<u64>, NumbersFault>
    ensures numbers { IfOk result (λ ns. input_of bytes.now ≡ Some ns.items) }
    ensures malformed { IfErr result (λ e. e ≡ Malformed → input_of bytes.now ≡ None) }
{
    let mut numbers = Vec::new(alloc);
    for word in bytes.split(|b| is_blank(*b)) {
        if word.is_empty() {
            continue;
        }
        if numbers.len() >= MAX_INPUT {
            return Err(NumbersFault::Malformed);
        }
        let Some(number) = number_of(word) else {
            return Err(NumbersFault::Malformed);
        };
        numbers.push(number).map_err(AllocError::from)?;
    }
    Ok(numbers)
}

/// A list of choices: numbers below 2^32 separated by commas, or nothing.
pub fn choice_list(alloc: Global, text: &str) -> Result<Vec<u32>, NumbersFault>
    ensures choices { IfOk result (λ ns. choices_of text.now ≡ Some ns.items) }
    ensures malformed { IfErr result (λ e. e ≡ Malformed → choices_of text.now ≡ None) }
{
    let mut choices = Vec::new(alloc);
    if text.is_empty() {
        return Ok(choices);
    }
    for word in text.as_bytes().split(|b| *b == b',') {
        let Some(number) = number_of(word) else {
            return Err(NumbersFault::Malformed);
        };
        let Ok(choice) = u32::try_from(number) else {
            return Err(NumbersFault::Malformed);
        };
        choices.push(choice).map_err(AllocError::from)?;
    }
    Ok(choices)
}

/// The most choices that runs stand for.
const MOST_CHOICES: usize = 16_777_216;

// A number below 2^32.
#[tactic(auto, using(crate::proofs::Words::smaller, crate::proofs::Words::not_smaller, crate::proofs::Words::none_smaller))]
fn small_number(word: &[u8]) -> Option<u32>
    ensures { result ≡ number_below (2 ^ 32) word.now }
{
    let number = number_of(word)?;
    if number > u64::from(u32::MAX) {
        return None;
    }
    Some(number as u32)
}

// How often a number is meant, by what stands behind it.
fn times_in(rest: &[u8]) -> Option<u32>
    ensures { result ≡ times_in rest.now }
{
    match rest {
        [] => Some(1),
        [_, digits @ ..] => small_number(digits),
    }
}

// How many bytes stand before the first star.
fn star_at(text: &[u8]) -> usize
    ensures value { result ≡ prefix_len is_no_star text.now }
    ensures within { result ≤ length text.now }
{
    text.iter().take_while(|b| **b != b'*').count()
}

// Adds a run of equal choices.
#[tactic(auto, using(crate::proofs::Runs::run_known, crate::proofs::Runs::no_number, crate::proofs::Runs::no_times, crate::proofs::Runs::too_many, crate::proofs::Runs::enough, crate::proofs::Runs::once_more))]
fn add_run(choices: &mut Vec<u32>, text: &[u8]) -> Result<(), NumbersFault>
    ensures done { OnOk result (then_run choices.old.items (run_in text.now) ≡ Some choices.new.items) }
    ensures malformed { IfErr result (λ e. e ≡ Malformed → then_run choices.old.items (run_in text.now) ≡ None) }
{
    let (digits, behind) = text.split_at(star_at(text));
    let (Some(number), Some(times)) = (small_number(digits), times_in(behind)) else {
        return Err(NumbersFault::Malformed);
    };
    if choices.len().saturating_add(times as usize) > MOST_CHOICES {
        return Err(NumbersFault::Malformed);
    }
    'times: for _ in 0..times {
        choices.push(number).map_err(AllocError::from)?;
    }
    Ok(())
}

/// A list of choices in runs: numbers below 2^32, or such a number, `*` and how often it is meant, separated by commas, or
/// nothing. At most 16,777,216 choices in all.
pub fn run_list(alloc: Global, text: &str) -> Result<Vec<u32>, NumbersFault>
    ensures choices { IfOk result (λ ns. runs_of text.now ≡ Some ns.items) }
    ensures malformed { IfErr result (λ e. e ≡ Malformed → runs_of text.now ≡ None) }
{
    let mut choices = Vec::new(alloc);
    if text.is_empty() {
        return Ok(choices);
    }
    for word in text.as_bytes().split(|byte| *byte == b',') {
        match add_run(&mut choices, word) {
            Ok(()) => {}
            Err(fault) => return Err(fault),
        }
    }
    Ok(choices)
}
