// The turns of a nest of loops, by their number.

ghost use Rattle.std.specs.Prelude.{◌≡◌, ◌+◌, ◌*◌, ◌<◌, ◌∷◌, ◌++◌, [], ℕ, List, IfOk, IfSome, Some, length, slice_get};
ghost use Rattle.base.specs.Turns.{turns_at};
ghost use Rattle.actions.specs.Control.{IsOnlyLoop};

use crate::take::turns_of;
use crate::turns::Turns;
use base::tree::{Bounds, Stmt};
use std::alloc::{AllocError, Global};

// The loop that is all of some statements.
fn only_loop<'p>(body: &'p [Stmt]) -> Option<(Bounds, &'p [Stmt])>
    ensures { IsOnlyLoop body.now result }
{
    let [only] = body else {
        return None;
    };
    match only {
        Stmt::Loop(bounds, inner) => Some((*bounds, inner)),
        Stmt::Declare(_, _) | Stmt::Assign(_, _) => None,
        Stmt::Store(_, _, _, _) | Stmt::Combine(_, _, _, _, _) => None,
        Stmt::Print(_) | Stmt::Block(_) | Stmt::If(_, _, _) => None,
    }
}

/// How many turns the `depth` outermost loops of some statements have, if that is a number below 2^64.
pub fn count_of(depth: u8, body: &[Stmt]) -> Option<u64>
    ensures { IfSome result (λ n. (loops : List ℕ) → length (turns_at depth body.now loops) ≡ n) }
{
    if depth == 0 {
        return Some(1);
    }
    let Some((bounds, inner)) = only_loop(body) else {
        return Some(1);
    };
    let each = count_of(depth - 1, inner)?;
    bounds.turns().checked_mul(each)
}

// The values of the loops around, and of one more.
fn deeper(alloc: Global, loops: &[u64], value: u64) -> Result<Vec<u64>, AllocError>
    ensures { IfOk result (λ all. all.items ≡ loops.now ++ value ∷ []) }
{
    let mut all = Vec::from_slice(alloc, loops)?;
    all.push(value)?;
    Ok(all)
}

// The value of a loop's name at one of its turns.
fn value_at(turns: Turns, turn: u64) -> u64
    requires { turn < turns.left }
    ensures { result ≡ turns.next + turn * turns.step }
{
    turns.next + turn * turns.step
}

/// One of the turns of the `depth` outermost loops of some statements: the values of the loops around it, and its
/// statements. The error comes for want of memory.
pub fn turn_at<'p>(
    alloc: Global,
    depth: u8,
    body: &'p [Stmt],
    loops: &[u64],
    number: u64,
) -> Result<(Vec<u64>, &'p [Stmt]), AllocError>
    requires { number < length (turns_at depth body.now loops.now) }
    ensures { IfOk result (λ t. slice_get (turns_at depth body.now loops.now) number
        ≡ Some (record { loops = t.0.items; body = t.1.now })) }
{
    if depth == 0 {
        return Ok((Vec::from_slice(alloc, loops)?, body));
    }
    let Some((bounds, inner)) = only_loop(body) else {
        return Ok((Vec::from_slice(alloc, loops)?, body));
    };
    let Some(each) = count_of(depth - 1, inner) else {
        return Err(AllocError);
    };
    if each == 0 {
        unreachable!()
    }
    let around = deeper(alloc, loops, value_at(turns_of(bounds), number / each))?;
    turn_at(alloc, depth - 1, inner, &around, number % each)
}
