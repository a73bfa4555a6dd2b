// Shorter lists whose run differs too.

ghost use Rattle.std.specs.Prelude.{IfOk};
ghost use Rattle.witness.specs.Witnesses.{IsTrial};

use crate::trial::{Budget, Trials, Witness, try_lists};
use std::alloc::{AllocError, Global};

/// The most runs by which the lists are made shorter.
pub const MOST_CUTS: usize = 512;

// Which list of a witness.
#[derive(Clone, Copy)]
enum Which {
    Choices,
    Turns,
}

// The first numbers of a list.
fn front(alloc: Global, list: &[u32], length: usize) -> Result<Vec<u32>, AllocError> {
    let mut shorter = Vec::new(alloc);
    let mut left = length;
    for number in list {
        if left > 0 {
            shorter.push(*number)?;
            left -= 1;
        }
    }
    Ok(shorter)
}

// The list with one number in the place of those from one place up to another.
fn with_all(
    alloc: Global,
    list: &[u32],
    from: usize,
    to: usize,
    number: u32,
) -> Result<Vec<u32>, AllocError> {
    let mut other = Vec::new(alloc);
    let mut place = 0usize;
    for old in list {
        other.push(if from <= place && place < to {
            number
        } else {
            *old
        })?;
        place = place.saturating_add(1);
    }
    Ok(other)
}

fn list_of(witness: &Witness, which: Which) -> &[u32] {
    match which {
        Which::Choices => &witness.choices,
        Which::Turns => &witness.turns,
    }
}

// The run of a witness with this list in the place of one of its own, where it differs.
fn try_other(
    trials: Trials<'_>,
    witness: &Witness,
    which: Which,
    list: Vec<u32>,
    budget: &mut Budget,
) -> Result<Result<Witness, usize>, AllocError>
    ensures { IfOk result (λ r. IfOk r (IsTrial trials.entry)) }
{
    match which {
        Which::Choices => {
            let turns = Vec::from_slice(trials.alloc, &witness.turns)?;
            try_lists(trials, list, turns, budget)
        }
        Which::Turns => {
            let choices = Vec::from_slice(trials.alloc, &witness.choices)?;
            try_lists(trials, choices, list, budget)
        }
    }
}

// Takes the end of a list off, in pieces of this length, as long as the run differs.
fn drop_tail(
    trials: Trials<'_>,
    budget: &mut Budget,
    witness: Witness,
    which: Which,
    piece: usize,
) -> Result<Witness, AllocError>
    requires { IsTrial trials witness }
    ensures { IfOk result (IsTrial trials.entry) }
{
    let mut kept = witness;
    'cuts: for _ in 0..MOST_CUTS {
        let list = list_of(&kept, which);
        let length = list.len();
        if budget.is_over() || length < piece || piece == 0 {
            return Ok(kept);
        }
        let shorter = front(trials.alloc, list, length - piece)?;
        match try_other(trials, &kept, which, shorter, budget)? {
            Ok(found) => kept = found,
            Err(_) => return Ok(kept),
        }
    }
    Ok(kept)
}

// Whether a number from one place up to another is greater than this one.
fn has_greater(list: &[u32], from: usize, to: usize, number: u32) -> bool {
    let mut place = 0usize;
    for old in list {
        if from <= place && place < to && *old > number {
            return true;
        }
        place = place.saturating_add(1);
    }
    false
}

// Puts a smaller number in the place of those in pieces of this length, wherever the run differs then too.
fn lower(
    trials: Trials<'_>,
    budget: &mut Budget,
    witness: Witness,
    which: Which,
    piece: usize,
    number: u32,
) -> Result<Witness, AllocError>
    requires { IsTrial trials witness }
    ensures { IfOk result (IsTrial trials.entry) }
{
    let mut kept = witness;
    let mut from = 0usize;
    'cuts: for _ in 0..MOST_CUTS {
        let to = from.saturating_add(piece);
        let list = list_of(&kept, which);
        if budget.is_over() || from >= list.len() {
            return Ok(kept);
        }
        if has_greater(list, from, to, number) {
            let other = with_all(trials.alloc, list, from, to, number)?;
            if let Ok(found) = try_other(trials, &kept, which, other, budget)? {
                kept = found;
            }
        }
        from = to;
    }
    Ok(kept)
}

// The witness with one list shorter, and smaller numbers in it.
fn shorten_list(
    trials: Trials<'_>,
    budget: &mut Budget,
    witness: Witness,
    which: Which,
) -> Result<Witness, AllocError>
    requires { IsTrial trials witness }
    ensures { IfOk result (IsTrial trials.entry) }
{
    let mut kept = witness;
    'tails: for piece in [1024usize, 256, 64, 16, 4, 1] {
        kept = drop_tail(trials, budget, kept, which, piece)?;
    }
    'zeros: for piece in [256usize, 64, 16, 4, 1] {
        kept = lower(trials, budget, kept, which, piece, 0)?;
    }
    'numbers: for number in [1u32, 2, 3] {
        kept = lower(trials, budget, kept, which, 1, number)?;
    }
    drop_tail(trials, budget, kept, which, 1)
}

/// The witness with shorter lists, and smaller numbers in them, as far as the tries go.
pub fn shorten(
    trials: Trials<'_>,
    budget: &mut Budget,
    witness: Witness,
) -> Result<Witness, AllocError>
    requires { IsTrial trials witness }
    ensures { IfOk result (IsTrial trials.entry) }
{
    let kept = shorten_list(trials, budget, witness, Which::Choices)?;
    shorten_list(trials, budget, kept, Which::Turns)
}
