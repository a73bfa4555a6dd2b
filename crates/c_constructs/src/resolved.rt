//! Directives with their names resolved.

ghost use Rattle.std.specs.Prelude.{◌≡◌, ◌≤◌, ◌∷◌, [], IfOk, None, true, false, map};
ghost use Rattle.c_grammar.specs.LineRules.{IsLine, max_collapse};
ghost use Rattle.c_grammar.specs.Lines.{collapse_in, holds_kind, is_atomic_kind, line_depth};
ghost use Rattle.c_expressions.specs.Scopes.{names_of};
ghost use Rattle.directives.specs.Kinds.{seen_kind};
ghost use Rattle.directives.specs.Names.{names_in};
ghost use Rattle.directives.specs.Reading.{Outcome};
ghost use Rattle.directives.specs.Trees.{clause_of, text_of};
ghost use Rattle.c_constructs.specs.Clauses.{AreRead, HaveTypes};
ghost use Rattle.c_constructs.specs.Directives.{IsAloneAt, IsConstructAt};
ghost use Rattle.c_constructs.specs.Uses.{fault_in};

use crate::clauses::{Clauses, all_clauses};
use crate::map_kind::MapKind;
use base::tree::{self, Data, EnterKind, ExitKind, Place, RegionKind, Target};
use c_expressions::Scope;
use directives::{Amount, Clause, Directive, DirectiveFault, DirectiveKind};

/// A directive that is followed by a block or loop.
#[derive(Drop)]
pub enum Construct {
    /// With the number of nested loops that must follow, whose turns may run in any order.
    Target(Target, u8),
    Data(Data),
}

/// A directive with its names resolved.
#[derive(Drop)]
pub enum Resolved {
    /// It stands alone, at the place of its `#`.
    Alone(Place, tree::Directive),
    /// A block or loop follows it.
    Over(Construct),
    /// An atomic update: a store follows it.
    Atomic,
}

/// What the clauses of a directive on that line of the source mean.
fn clauses_of<K: MapKind>(
    scope: &Scope<'_>,
    line: usize,
    directive: &Directive<'_>,
) -> Result<Clauses<K>, DirectiveFault>
    requires { HaveTypes K.types directive.now.clauses.items }
    ensures told { Outcome result (fault_in scope.now (names_in directive.now)) None }
    ensures means { IfOk result (λ r. AreRead K.seen (names_of scope.now) line directive.now.clauses.items r) }
{
    all_clauses(scope, line, &directive.clauses)
}

/// What a directive that stands alone on that line of the source means.
pub fn alone_at(
    scope: &Scope<'_>,
    line: usize,
    directive: &Directive<'_>,
) -> Result<tree::Directive, DirectiveFault>
    requires line { IsLine (text_of directive.now) }
    requires kind { holds_kind (seen_kind directive.now.kind) ≡ false }
    requires apart { is_atomic_kind (seen_kind directive.now.kind) ≡ false }
    ensures told { Outcome result (fault_in scope.now (names_in directive.now)) None }
    ensures means { IfOk result (λ d. IsAloneAt (names_of scope.now) line directive.now d) }
{
    match directive.kind {
        DirectiveKind::TargetEnterData => {
            clauses_of::<EnterKind>(scope, line, directive).map(|read| tree::Directive::Enter(
                read.maps,
                read.tasking,
            ))
        }
        DirectiveKind::TargetExitData => {
            clauses_of::<ExitKind>(scope, line, directive).map(|read| tree::Directive::Exit(
                read.maps,
                read.tasking,
            ))
        }
        DirectiveKind::TargetUpdate => {
            clauses_of::<RegionKind>(scope, line, directive).map(|read| tree::Directive::Update(
                read.updates,
                read.tasking,
            ))
        }
        DirectiveKind::TaskWait => {
            clauses_of::<RegionKind>(scope, line, directive).map(|read| tree::Directive::Wait(
                read.tasking.depends,
            ))
        }
        _ => unreachable!(),
    }
}

/// How many loops are collapsed, with one clause more.
fn collapsed(clause: &Clause<'_>, depth: u64) -> u64
    ensures { result ≡ collapse_in depth (clause_of clause.now ∷ []) }
{
    match clause {
        Clause::Amount(Amount::Collapse, number) => *number,
        _ => depth,
    }
}

/// How many loops the clauses collapse: one, where none says it.
fn collapse(clauses: &[Clause<'_>]) -> u8
    requires { collapse_in 1 (map clause_of clauses.now) ≤ max_collapse }
    ensures { result ≡ collapse_in 1 (map clause_of clauses.now) }
{
    let mut depth = 1;
    'clauses: for one in clauses {
        depth = collapsed(one, depth);
    }
    depth as u8
}

/// How many nested loops must follow a directive, whose turns may run in any order.
fn unordered_loops(directive: &Directive<'_>) -> u8
    requires { line_depth (text_of directive.now) ≤ max_collapse }
    ensures { result ≡ line_depth (text_of directive.now) }
{
    match directive.kind {
        DirectiveKind::Combined(_) => collapse(&directive.clauses),
        _ => 0,
    }
}

/// What a directive over a block or loop means, whose `#` stands at the place.
pub fn construct_at(
    scope: &Scope<'_>,
    place: Place,
    directive: &Directive<'_>,
) -> Result<Construct, DirectiveFault>
    requires line { IsLine (text_of directive.now) }
    requires kind { holds_kind (seen_kind directive.now.kind) ≡ true }
    requires depth { line_depth (text_of directive.now) ≤ max_collapse }
    ensures told { Outcome result (fault_in scope.now (names_in directive.now)) None }
    ensures means { IfOk result (λ d. IsConstructAt (names_of scope.now) place directive.now d) }
{
    let read: Clauses<RegionKind> = clauses_of(scope, place.line, directive)?;
    if directive.kind == DirectiveKind::TargetData {
        return Ok(Construct::Data(Data {
            place,
            maps: read.maps,
            device: read.tasking.device,
        }));
    }
    let target = Target {
        place,
        maps: read.maps,
        tasking: read.tasking,
    };
    Ok(Construct::Target(target, unordered_loops(directive)))
}
