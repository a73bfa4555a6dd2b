//! The directive that stands next in a source.

ghost use Rattle.std.specs.Prelude.{◌≡◌, ◌<◌, ◌≤◌, Bool, IfOk, IfErr, OnOk, OnErr, None, true, false};
ghost use Rattle.c_grammar.specs.Grammar.{for};
ghost use Rattle.c_grammar.specs.LineRules.{IsLine, max_collapse};
ghost use Rattle.c_grammar.specs.Lines.{holds, holds_kind, is_atomic_kind, line_depth};
ghost use Rattle.c_grammar.specs.Program.{Stack};
ghost use Rattle.c_grammar.specs.Rules.{inside, under_if};
ghost use Rattle.c_grammar.specs.Terminal.{Line};
ghost use Rattle.c_expressions.specs.Cursor.{behind, first_item, items};
ghost use Rattle.c_expressions.specs.Reading.{Failed, Outcome as Came, is_line, run, took};
ghost use Rattle.c_expressions.specs.Scopes.{context_of, names_of};
ghost use Rattle.c_expressions.specs.Seen.{columns_on, kinds_on};
ghost use Rattle.directives.specs.Ahead.{seen_line};
ghost use Rattle.directives.specs.Kinds.{seen_kind};
ghost use Rattle.directives.specs.Names.{names_in};
ghost use Rattle.directives.specs.Reading.{Outcome};
ghost use Rattle.directives.specs.Trees.{text_of};
ghost use Rattle.c_tokens.specs.declared.limits.TheConstants.{MAX_STATEMENTS};
ghost use Rattle.c_constructs.specs.Directives.{IsResolvedAt};
ghost use Rattle.c_constructs.specs.LineMeaning.{IsRead, is_over, is_target, lexemes_on, scope_behind};
ghost use Rattle.c_constructs.specs.Steps.{act_of};
ghost use Rattle.c_constructs.specs.Uses.{fault_in};

use crate::line::{directive_at, refuse_inside, refuse_under, text_fault};
use crate::resolved::{Construct, Resolved, alone_at, construct_at};
use base::tree::Place;
use c_expressions::{Cursor, ReadError, Scope, Terminal};
use c_tokens::limits::MAX_STATEMENTS;
use directives::{Directive, DirectiveFault, DirectiveKind, LineTokens};

/// Whether a block or loop follows a directive of that kind.
fn has_block(kind: DirectiveKind) -> bool
    ensures { result ≡ holds_kind (seen_kind kind) }
{
    match kind {
        DirectiveKind::Target => true,
        DirectiveKind::TargetData => true,
        DirectiveKind::Combined(_) => true,
        _ => false,
    }
}

/// Whether a directive of that kind is an atomic update.
fn is_atomic(kind: DirectiveKind) -> bool
    ensures { result ≡ is_atomic_kind (seen_kind kind) }
{
    matches!(kind, DirectiveKind::AtomicUpdate)
}

/// What a directive means, whose `#` stands at the place.
#[tactic(auto, using(crate::proofs::Atomics::atomic_told, crate::proofs::Atomics::atomic_kind))]
fn resolved_at(
    scope: &Scope<'_>,
    place: Place,
    directive: &Directive<'_>,
) -> Result<Resolved, DirectiveFault>
    requires line { IsLine (text_of directive.now) }
    requires depth { line_depth (text_of directive.now) ≤ max_collapse }
    ensures told { Outcome result (fault_in scope.now (names_in directive.now)) None }
    ensures means { IfOk result (λ r. IsResolvedAt (names_of scope.now) place directive.now r) }
{
    if has_block(directive.kind) {
        return construct_at(scope, place, directive).map(Resolved::Over);
    }
    if is_atomic(directive.kind) {
        return Ok(Resolved::Atomic);
    }
    let alone = alone_at(scope, place.line, directive)?;
    Ok(Resolved::Alone(place, alone))
}

/// The directive of that line, which stands next, outside a target and under no `if`.
fn next_on_line<'a>(
    scope: &Scope<'_>,
    tokens: &Cursor<'a, '_>,
    line: &LineTokens<'a>,
) -> Result<Resolved, ReadError>
    requires line { (first_item tokens.now).terminal ≡ Line (kinds_on (seen_line line.now)) }
    requires columns { (first_item tokens.now).columns ≡ columns_on (seen_line line.now) }
    requires outside { inside (context_of scope.now 0 0) ≡ false }
    requires always { under_if (context_of scope.now 0 0) ≡ false }
    ensures fault { (over : Bool) (s : Stack) → IfErr result (λ e. Failed e
        (took (context_of scope.now 0 0) (for (act_of over)) s (items tokens.now))) }
    ensures few { OnOk result (scope.now.statements < MAX_STATEMENTS) }
    ensures means { IfOk result (λ r. IsRead (names_of scope.now) (first_item tokens.now) (behind tokens.now) r) }
    ensures passes { (s : Stack) → IfOk result (λ r. took (context_of scope.now 0 0) (for (act_of (is_over r))) s
        (items tokens.now) ≡ run (context_of (scope_behind r scope.now) 0 0) s (behind tokens.now)) }
{
    let directive = directive_at(scope, tokens, line)?;
    let place = tokens.place();
    match resolved_at(scope, place, &directive) {
        Ok(resolved) => Ok(resolved),
        Err(fault) => Err(text_fault(fault, place.line)),
    }
}

/// Whether the block or loop behind it is that of a target.
fn is_target(construct: &Construct) -> bool
    ensures { result ≡ is_target construct.now }
{
    match construct {
        Construct::Target(_, _) => true,
        Construct::Data(_) => false,
    }
}

/// Counts the directive as a statement. The next block is that of a target, if it is one.
fn begin(scope: &mut Scope<'_>, resolved: &Resolved)
    requires { scope.old.statements < MAX_STATEMENTS }
    ensures { scope.new ≡ scope_behind resolved.now scope.old }
{
    scope.statements += 1;
    match resolved {
        Resolved::Alone(_, _) => {}
        Resolved::Atomic => {}
        Resolved::Over(construct) => {
            scope.target = is_target(construct);
        }
    }
}

/// The directive of the line that stands next, and goes past the line. Behind it a statement more has begun, and the
/// next block is that of a target if the directive is one.
///
/// The first fault is told: at the `#` the limit of statements, a directive inside a target, one under an `if`; then the
/// line's own; then that of its names, from left to right. Want of memory comes in place of any answer. Neither the scope
/// nor the tokens have then changed.
pub fn directive(scope: &mut Scope<'_>, tokens: &mut Cursor<'_, '_>) -> Result<Resolved, ReadError>
    requires line { is_line (first_item tokens.old).terminal ≡ true }
    ensures read { (s : Stack) → Came result (took (context_of scope.old 0 0)
        (for (act_of (holds (lexemes_on (first_item tokens.old).terminal)))) s (items tokens.old))
        (run (context_of scope.new 0 0) s (items tokens.new)) }
    ensures scope { IfOk result (λ r. scope.new ≡ scope_behind r scope.old) }
    ensures means { IfOk result (λ r. IsRead (names_of scope.old) (first_item tokens.old) (behind tokens.old) r) }
    ensures taken { OnOk result (behind tokens.old ≡ items tokens.new) }
    ensures kept { OnErr result (scope.new ≡ scope.old) }
    ensures few { OnOk result (scope.old.statements < MAX_STATEMENTS) }
    ensures unmoved { OnErr result (tokens.new ≡ tokens.old) }
{
    if scope.is_inside() {
        return Err(ReadError::Fault(refuse_inside(scope, tokens)));
    }
    if scope.is_under_if() {
        return Err(ReadError::Fault(refuse_under(scope, tokens)));
    }
    let Terminal::Line(line) = tokens.peek() else {
        unreachable!()
    };
    let resolved = next_on_line(scope, tokens, line)?;
    begin(scope, &resolved);
    tokens.take();
    Ok(resolved)
}
