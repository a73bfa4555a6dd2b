// Bodies whose turns may be done in spans.

ghost use Rattle.std.specs.Prelude.{◌≡◌, true};
ghost use Rattle.spans.specs.Spans as spec;
ghost use Rattle.spans.specs.Spans.{IsSelfContained, list_updates};

use crate::scalars::{Asked, some_give};
use base::tree::Stmt;

// Whether a commuting update stands in a statement.
#[tactic(auto, using(crate::proofs::SureLists::updates_Block, crate::proofs::SureLists::updates_Loop, crate::proofs::SureLists::updates_If))]
#[cycle(updates)]
fn updates(s: &Stmt) -> bool
    ensures { result ≡ spec.updates s.now }
{
    match s {
        Stmt::Combine(_, _, _, _, _) => true,
        Stmt::Declare(_, _) | Stmt::Assign(_, _) | Stmt::Store(_, _, _, _) | Stmt::Print(_) =>
            false,
        Stmt::Block(all) => any_update(all),
        Stmt::Loop(_, body) => any_update(body),
        Stmt::If(_, first, second) => any_update(first) || any_update(second),
    }
}

// The same of statements.
#[cycle(updates)]
fn any_update(all: &[Stmt]) -> bool
    ensures { result ≡ list_updates all.now }
{
    for s in all {
        if updates(s) {
            return true;
        }
    }
    false
}

/// Whether it is seen of a loop's body that its turns may be done in spans, where they meet nowhere: each scalar that it
/// assigns it assigns for certain, before it reads it, and it has no commuting update.
pub fn is_self_contained(body: &[Stmt]) -> bool
    ensures { result ≡ true → IsSelfContained body.now }
{
    !any_update(body)
        && !some_give(Asked::Needed, body, body)
        && !some_give(Asked::Loose, body, body)
}
