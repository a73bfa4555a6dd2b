// The outermost loops of a region.

ghost use Rattle.std.specs.Prelude.{◌≡◌, ◌<◌, ℕ, List, min, length, IfSome};
ghost use Rattle.base.specs.Turns.{turns_at};
ghost use Rattle.ranges.specs.Meetings as spec;
ghost use Rattle.ranges.specs.Ways.{loop_at, nest_in};

use base::tree::{Bounds, Stmt};

/// A loop with its body.
#[derive(Clone, Copy, Drop)]
pub struct Nest<'r> {
    pub bounds: Bounds,
    pub body: &'r [Stmt],
}

// The loop that a statement is.
fn loop_of(s: &Stmt) -> Option<Nest<'_>>
    ensures { nest_in result ≡ Rattle.base.specs.Turns.loop_of s.now }
{
    match s {
        Stmt::Loop(bounds, body) => Some(Nest {
            bounds: *bounds,
            body,
        }),
        Stmt::Declare(_, _)
        | Stmt::Assign(_, _)
        | Stmt::Store(_, _, _, _)
        | Stmt::Combine(_, _, _, _, _)
        | Stmt::Print(_)
        | Stmt::Block(_)
        | Stmt::If(_, _, _) => None,
    }
}

// The loop that is all of some statements.
fn only_loop(all: &[Stmt]) -> Option<Nest<'_>>
    ensures { nest_in result ≡ Rattle.base.specs.Turns.only_loop all.now }
{
    if all.len() == 1 {
        loop_of(&all[0])
    } else {
        None
    }
}

/// The loop that is all of some statements, where the turns of at least one loop are asked for.
pub fn nest_at(depth: u8, all: &[Stmt]) -> Option<Nest<'_>>
    ensures found { nest_in result ≡ loop_at depth all.now }
    ensures some { IfSome result (λ n. 0 < depth) }
{
    if depth == 0 { None } else { only_loop(all) }
}

/// What each turn of so many outermost loops does.
pub fn turn_body(depth: u8, body: &[Stmt]) -> &[Stmt]
    ensures { result.now ≡ spec.turn_body depth body.now }
{
    match nest_at(depth, body) {
        None => body,
        Some(nest) => turn_body(depth - 1, nest.body),
    }
}

/// How many turns so many outermost loops have, up to two.
pub fn turns_up_to_two(depth: u8, body: &[Stmt]) -> u64
    ensures { (loops : List ℕ) → result ≡ min 2 (length (turns_at depth body.now loops)) }
{
    match nest_at(depth, body) {
        None => 1,
        Some(nest) => {
            let inner = turns_up_to_two(depth - 1, nest.body);
            nest.bounds.turns().saturating_mul(inner).min(2)
        }
    }
}
