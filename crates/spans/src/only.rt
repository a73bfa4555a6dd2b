// The loop that is all of some statements.

ghost use Rattle.std.specs.Prelude.{◌≡◌, Some, IfSome};
ghost use Rattle.base.specs.Turns as spec;

use base::tree::{Bounds, Stmt};

// The bounds and the body of the loop that a statement is.
fn loop_of(s: &Stmt) -> Option<(Bounds, &[Stmt])>
    ensures { IfSome result (λ l. spec.loop_of s.now ≡ Some (l.0, l.1.now)) }
{
    match s {
        Stmt::Loop(bounds, body) => Some((*bounds, body)),
        _ => None,
    }
}

/// The bounds and the body of the loop that is all of these statements, if one is.
#[tactic(auto, using(crate::proofs::Onlies::one_loop))]
pub fn only_loop(all: &[Stmt]) -> Option<(Bounds, &[Stmt])>
    ensures { IfSome result (λ l. spec.only_loop all.now ≡ Some (l.0, l.1.now)) }
{
    if all.len() == 1 {
        loop_of(&all[0])
    } else {
        None
    }
}
