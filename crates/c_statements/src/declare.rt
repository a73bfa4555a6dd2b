//! Declarations of scalars in a block.

ghost use Rattle.std.specs.Prelude.{◌≡◌, ◌<◌, ◌+◌, ◌∷◌, OnOk, IfOk, IfErr, Some, true};
ghost use Rattle.c_tokens.specs.declared.kind.Sign.TheVariants as sign;
ghost use Rattle.c_grammar.specs.Lexeme.{Uint64};
ghost use Rattle.c_grammar.specs.Terminal.{Fixed, Mark, Name};
ghost use Rattle.c_grammar.specs.Grammar.{Starts, DeclaresLocal, for};
ghost use Rattle.c_grammar.specs.Rules.{declared, inside};
ghost use Rattle.c_grammar.specs.Program.{Stack, WantName, Value, m};
ghost use Rattle.c_expressions.specs.declared.fault.ReadError.TheVariants.{Memory};
ghost use Rattle.c_expressions.specs.Cursor.{items, first_item, behind};
ghost use Rattle.c_expressions.specs.Reading.{run, took, Outcome};
ghost use Rattle.c_expressions.specs.Scopes.{context_of, names_of, sort_of_meaning};
ghost use Rattle.c_tokens.specs.declared.limits.TheConstants.{MAX_SCALARS};
ghost use Rattle.c_statements.specs.Bodies.{naming, IsSameBlock};
ghost use Rattle.c_statements.specs.Simple.{counted, declaration, env_of, ending, IsStmtRead};
ghost use Rattle.c_statements.specs.Statements.{box_for, scalar_or_box};

use crate::head::is_visible;
use crate::right_side::{is_inside, source};
use base::fault::ReadCode;
use base::tree::{ArrayId, Expr, Place, ScalarId, Source, Stmt};
use c_expressions::{Cursor, Meaning, ReadError, Scope, Terminal};
use c_tokens::Sign;
use c_tokens::limits::{MAX_NAME, MAX_SCALARS, MAX_STATEMENTS};

/// Goes past the word `uint64_t`.
#[tactic(auto, using(crate::proofs::Braces::many_starts, crate::proofs::Braces::go_starts))]
fn begin_declaration(scope: &mut Scope<'_>, tokens: &mut Cursor<'_, '_>) -> Result<(), ReadError>
    requires { (first_item tokens.old).terminal ≡ Fixed Uint64 }
    ensures read { (s : Stack) → Outcome result (took (context_of scope.old 0 0) (for Starts) s (items tokens.old))
        (run (context_of scope.new 0 0) s (items tokens.new)) }
    ensures scope { OnOk result (scope.new ≡ counted scope.old) }
    ensures taken { OnOk result (behind tokens.old ≡ items tokens.new) }
{
    if scope.statements >= MAX_STATEMENTS {
        return Err(ReadError::Fault(tokens.fault(ReadCode::TooMany)));
    }
    tokens.take();
    scope.statements += 1;
    Ok(())
}

/// The name that is declared.
#[tactic(auto, using(crate::proofs::Declares::bad_local, crate::proofs::Declares::long_local, crate::proofs::Declares::many_local, crate::proofs::Declares::go_local, crate::proofs::Declares::stop_local))]
fn local_name<'a>(scope: &mut Scope<'a>, tokens: &mut Cursor<'a, '_>) -> Result<&'a [u8], ReadError>
    ensures read { (s : Stack) → Outcome result (run (context_of scope.old 0 0) (WantName DeclaresLocal ∷ s)
        (items tokens.old)) (run (context_of scope.new 0 0) s (items tokens.new)) }
    ensures scope { IfOk result (λ x. scope.new ≡ naming scope.old x) }
    ensures few { OnOk result (scope.old.scalars < MAX_SCALARS) }
    ensures first { IfOk result (λ x. (first_item tokens.old).terminal ≡ Name x.now) }
    ensures taken { OnOk result (behind tokens.old ≡ items tokens.new) }
{
    match tokens.peek() {
        Terminal::Name(name) => {
            if is_visible(scope, name) {
                return Err(ReadError::Fault(tokens.fault(ReadCode::AlreadyDeclared)));
            }
            if name.len() > MAX_NAME {
                return Err(ReadError::Fault(tokens.fault(ReadCode::TooMany)));
            }
            if scope.scalars >= MAX_SCALARS {
                return Err(ReadError::Fault(tokens.fault(ReadCode::TooMany)));
            }
            tokens.take();
            scope.fresh = Some(name);
            Ok(name)
        }
        _ => Err(ReadError::Fault(tokens.refuse())),
    }
}

/// The array whose cell a scalar of that name is, if it is boxed where it is declared here.
fn box_for(scope: &Scope<'_>, name: &[u8]) -> Option<ArrayId>
    ensures { result ≡ box_for name.now (env_of scope.now) }
{
    if is_inside(scope) || scope.meaning(name).is_some() {
        return None;
    }
    scope.box_of(name)
}

/// What the name of the next scalar means.
fn scalar_or_box(id: ScalarId, inside: bool, boxed: Option<ArrayId>) -> Meaning
    ensures { result ≡ scalar_or_box id inside boxed }
{
    match boxed {
        Some(array) => Meaning::Boxed(array, id),
        None => Meaning::Scalar(id, inside),
    }
}

/// Declares the scalar of that name, which may be the cell of an array. An error is want of memory.
pub fn new_scalar<'a>(
    scope: &mut Scope<'a>,
    name: &'a [u8],
    boxed: Option<ArrayId>,
) -> Result<ScalarId, ReadError>
    requires few { scope.old.scalars < MAX_SCALARS }
    ensures memory { IfErr result (λ e. e ≡ Memory) }
    ensures context { IfOk result (λ id. context_of scope.new 0 0 ≡
        declared (sort_of_meaning (scalar_or_box id (inside (context_of scope.old 0 0)) boxed))
        (record (context_of scope.old 0 0) { fresh = Some name.now; scalars = scope.old.scalars + 1 })) }
    ensures names { IfOk result (λ id. names_of scope.new ≡
        (name.now, scalar_or_box id (inside (context_of scope.old 0 0)) boxed) ∷ names_of scope.old) }
    ensures id { IfOk result (λ id. id.0 ≡ scope.old.scalars) }
    ensures next { OnOk result (scope.new.scalars ≡ scope.old.scalars + 1) }
{
    let id = ScalarId(scope.scalars as u8);
    let scalars = scope.scalars + 1;
    let inside = is_inside(scope);
    scope.declare(name, scalar_or_box(id, inside, boxed))?;
    scope.scalars = scalars;
    Ok(id)
}

/// What the declaration of a scalar does, whose name stands at the place.
fn declaration(id: ScalarId, boxed: Option<ArrayId>, place: Place, value: Source) -> Stmt
    ensures { result ≡ declaration id boxed place value }
{
    match boxed {
        Some(array) => Stmt::Store(array, place, Expr::Number(0), value),
        None => Stmt::Declare(id, value),
    }
}

/// A declaration, whose word stands next.
#[tactic(auto, using(c_expressions::proofs::Outcomes::on_from))]
pub fn declared<'a>(scope: &mut Scope<'a>, tokens: &mut Cursor<'a, '_>) -> Result<Stmt, ReadError>
    requires { (first_item tokens.old).terminal ≡ Fixed Uint64 }
    ensures read { (s : Stack) → Outcome result (took (context_of scope.old 0 0) (for Starts)
        (WantName DeclaresLocal ∷ m sign.Equal ∷ Value ∷ ending true ∷ s) (items tokens.old))
        (run (context_of scope.new 0 0) s (items tokens.new)) }
    ensures scope { OnOk result (IsSameBlock scope.old scope.new) }
    ensures tree { IfOk result (λ x. IsStmtRead (env_of scope.old) (env_of scope.new) (items tokens.old)
        (items tokens.new) x) }
{
    begin_declaration(scope, tokens)?;
    let place = tokens.place();
    let name = local_name(scope, tokens)?;
    tokens.expect(Sign::Equal)?;
    let value = source(scope, tokens)?;
    tokens.take();
    let boxed = box_for(scope, name);
    let id = new_scalar(scope, name, boxed)?;
    Ok(declaration(id, boxed, place, value))
}
