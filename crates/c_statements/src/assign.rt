//! Assignments to scalars and stores into arrays.

ghost use Rattle.std.specs.Prelude.{◌≡◌, ◌∷◌, OnOk, IfOk, Some, None, false};
ghost use Rattle.std.specs.Option.{option_map};
ghost use Rattle.c_tokens.specs.declared.kind.Sign.TheVariants as sign;
ghost use Rattle.c_grammar.specs.Terminal.{Mark, Name, same};
ghost use Rattle.c_grammar.specs.Grammar.{Assigned, for};
ghost use Rattle.c_grammar.specs.Rules.{AScalar};
ghost use Rattle.c_grammar.specs.Program.{Stack, AfterName, Value, m};
ghost use Rattle.c_expressions.specs.Cursor.{items, first_item, behind};
ghost use Rattle.c_expressions.specs.Means.{meaning_of};
ghost use Rattle.c_expressions.specs.Reading.{run, took, Outcome};
ghost use Rattle.c_expressions.specs.Scopes.{context_of, names_of, sort_of_meaning};
ghost use Rattle.c_statements.specs.Simple.{assign_code, code_at, env_of, counted, is_over, IsKept, IsAssignRead, IsMarkableRead, IsStoreRead, store_rest};

use crate::right_side::{ended_source, is_inside};
use base::fault::{ReadCode, TextFault};
use base::tree::{Expr, Source, Stmt};
use c_expressions::{Cursor, Meaning, ReadError, Scope};
use c_tokens::Sign;
use c_tokens::limits::{MAX_NAME, MAX_STATEMENTS};

/// The fault of a scalar's name before an equals sign.
fn scalar_fault(local: bool, equal: bool, over: bool, within: bool) -> Option<ReadCode>
    ensures { result ≡ assign_code (Some (AScalar local)) equal false over within }
{
    if over {
        return Some(ReadCode::TooMany);
    }
    if equal && within && !local {
        Some(ReadCode::OuterAssigned)
    } else {
        None
    }
}

/// The fault of a name with which a statement begins, where an equals sign or a bracket follows, a limit is met, or a
/// target is around.
fn assign_fault(
    meaning: Option<Meaning>,
    equal: bool,
    bracket: bool,
    over: bool,
    within: bool,
) -> Option<ReadCode>
    ensures { result ≡ assign_code (option_map sort_of_meaning meaning) equal bracket over within }
{
    match meaning {
        None => Some(ReadCode::Undeclared),
        Some(Meaning::Array(_)) if equal => Some(ReadCode::Undeclared),
        Some(Meaning::Loop(_)) if bracket => Some(ReadCode::Undeclared),
        Some(Meaning::Loop(_)) if equal => Some(ReadCode::LoopNameAssigned),
        Some(Meaning::Scalar(_, _)) if bracket => Some(ReadCode::Undeclared),
        Some(Meaning::Boxed(_, _)) if bracket => Some(ReadCode::Undeclared),
        Some(Meaning::Scalar(_, local)) => scalar_fault(local, equal, over, within),
        _ => { if over { Some(ReadCode::TooMany) } else { None } }
    }
}

/// Whether a limit is met at a name with which a statement begins.
fn is_over(scope: &Scope<'_>, name: &[u8]) -> bool
    ensures { result ≡ is_over scope.now name.now }
{
    if name.len() > MAX_NAME {
        return true;
    }
    scope.statements >= MAX_STATEMENTS
}

/// The fault of a name with which a statement begins, before the token that stands next.
#[tactic(auto, using(crate::proofs::Assigns::kept_of))]
fn name_fault(
    scope: &Scope<'_>,
    next: &Cursor<'_, '_>,
    name: &[u8],
    meaning: Option<Meaning>,
) -> Option<ReadCode>
    ensures code { result ≡ code_at scope.now name.now (option_map sort_of_meaning meaning)
        (first_item next.now).terminal }
    ensures kept { result ≡ None → IsKept meaning (same (Mark sign.Equal) (first_item next.now).terminal)
        (same (Mark sign.OpenBracket) (first_item next.now).terminal) }
{
    let over = is_over(scope, name);
    let within = is_inside(scope);
    let equal = next.at(Sign::Equal);
    let bracket = next.at(Sign::OpenBracket);
    assign_fault(meaning, equal, bracket, over, within)
}

/// Goes past the name that stands next, with which a statement begins. What it means.
#[tactic(auto, using(crate::proofs::Assigns::few_assigned, crate::proofs::Assigns::go_meant))]
fn begin_assigned(
    scope: &mut Scope<'_>,
    tokens: &mut Cursor<'_, '_>,
    name: &[u8],
) -> Result<Option<Meaning>, ReadError>
    requires { (first_item tokens.old).terminal ≡ Name name.now }
    ensures read { (s : Stack) → Outcome result (took (context_of scope.old 0 0) (for Assigned) s
        (items tokens.old)) (run (context_of scope.new 0 0) s (items tokens.new)) }
    ensures scope { OnOk result (scope.new ≡ counted scope.old) }
    ensures meaning { IfOk result (λ o. o ≡ meaning_of (names_of scope.old) name.now) }
    ensures kept { IfOk result (λ o. IsKept o (same (Mark sign.Equal) (first_item tokens.new).terminal)
        (same (Mark sign.OpenBracket) (first_item tokens.new).terminal)) }
    ensures taken { OnOk result (behind tokens.old ≡ items tokens.new) }
{
    let place = tokens.place();
    tokens.take();
    let meant = scope.meaning(name);
    if let Some(code) = name_fault(scope, tokens, name, meant) {
        return Err(ReadError::Fault(TextFault {
            code,
            line: place.line,
            column: place.column,
        }));
    }
    scope.statements += 1;
    Ok(meant)
}

/// The equals sign that must stand next, what is assigned, and the semicolon behind it.
#[tactic(auto, using(c_expressions::proofs::Outcomes::on_from, crate::proofs::Stores::read_assign_rest))]
fn assigned_source(scope: &Scope<'_>, tokens: &mut Cursor<'_, '_>) -> Result<Source, ReadError>
    ensures read { (s : Stack) → Outcome result
        (run (context_of scope.now 0 0) (m sign.Equal ∷ Value ∷ m sign.Semicolon ∷ s) (items tokens.old))
        (run (context_of scope.now 0 0) s (items tokens.new)) }
    ensures tree { IfOk result (λ v. IsAssignRead (env_of scope.now) (items tokens.old) (items tokens.new) v) }
{
    tokens.expect(Sign::Equal)?;
    ended_source(scope, tokens)
}

/// What is stored, behind an array's name: the subscript and the value.
fn element(scope: &Scope<'_>, tokens: &mut Cursor<'_, '_>) -> Result<(Expr, Source), ReadError>
    ensures read { (s : Stack) → Outcome result (run (context_of scope.now 0 0) (store_rest s) (items tokens.old))
        (run (context_of scope.now 0 0) s (items tokens.new)) }
    ensures tree { IfOk result (λ p. IsStoreRead (env_of scope.now) (items tokens.old) (items tokens.new) p.0 p.1) }
{
    tokens.expect(Sign::OpenBracket)?;
    let index = scope.expr(tokens, Sign::CloseBracket)?;
    assigned_source(scope, tokens).map(|value| (index, value))
}

/// The statement that begins with the name that stands next.
pub fn assigned(
    scope: &mut Scope<'_>,
    tokens: &mut Cursor<'_, '_>,
    name: &[u8],
) -> Result<Stmt, ReadError>
    requires { (first_item tokens.old).terminal ≡ Name name.now }
    ensures read { (s : Stack) → Outcome result (took (context_of scope.old 0 0) (for Assigned) (AfterName ∷ s)
        (items tokens.old)) (run (context_of scope.new 0 0) s (items tokens.new)) }
    ensures scope { OnOk result (scope.new ≡ counted scope.old) }
    ensures tree { IfOk result (λ x. IsMarkableRead (env_of scope.old) (env_of scope.new) (items tokens.old)
        (items tokens.new) x) }
{
    let place = tokens.place();
    let meaning = begin_assigned(scope, tokens, name)?;
    match meaning {
        Some(Meaning::Array(array)) => {
            element(scope, tokens).map(|(index, value)| Stmt::Store(array, place, index, value))
        }
        Some(Meaning::Scalar(scalar, _)) => {
            assigned_source(scope, tokens).map(|value| Stmt::Assign(scalar, value))
        }
        Some(Meaning::Boxed(array, _)) => assigned_source(scope, tokens).map(|value| Stmt::Store(
            array,
            place,
            Expr::Number(0),
            value,
        )),
        _ => Err(ReadError::Fault(tokens.refuse())),
    }
}
