// How many turns the loops of a region have.

ghost use Rattle.std.specs.Prelude.{◌≡◌, ◌-◌, ◌^◌, min};
ghost use Rattle.base.specs.Footprint.{stmt_turns};
ghost use Rattle.ranges.specs.Seen.{list_turns};

use base::tree::Stmt;

#[tactic(auto, using(crate::proofs::TurnCounts::turns_Block, crate::proofs::TurnCounts::turns_Loop, crate::proofs::TurnCounts::turns_If, crate::proofs::TurnCounts::least_product))]
// The turns of the loops of a statement; a number above `u64::MAX` is kept as that.
#[cycle(turns)]
fn turns_in(s: &Stmt) -> u64
    ensures { result ≡ min (stmt_turns s.now) (2 ^ 64 - 1) }
{
    match s {
        Stmt::Declare(_, _)
        | Stmt::Assign(_, _)
        | Stmt::Store(_, _, _, _)
        | Stmt::Combine(_, _, _, _, _)
        | Stmt::Print(_) => 0,
        Stmt::Block(all) => turns_in_all(all),
        Stmt::Loop(bounds, body) => bounds
            .turns()
            .saturating_mul(turns_in_all(body).saturating_add(1)),
        Stmt::If(_, first, second) => turns_in_all(first).saturating_add(turns_in_all(second)),
    }
}

/// The turns of the loops of some statements; a number above `u64::MAX` is kept as that.
#[cycle(turns)]
pub fn turns_in_all(all: &[Stmt]) -> u64
    ensures { result ≡ min (list_turns all.now) (2 ^ 64 - 1) }
{
    let mut total = 0u64;
    for s in all {
        total = total.saturating_add(turns_in(s));
    }
    total
}
