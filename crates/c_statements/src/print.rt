//! Prints.

ghost use Rattle.std.specs.Prelude.{◌≡◌, OnOk, IfOk};
ghost use Rattle.c_grammar.specs.Lexeme.{Print};
ghost use Rattle.c_grammar.specs.Terminal.{Fixed};
ghost use Rattle.c_grammar.specs.Grammar.{Prints, for};
ghost use Rattle.c_grammar.specs.Program.{Stack};
ghost use Rattle.c_expressions.specs.Cursor.{items, first_item, behind};
ghost use Rattle.c_expressions.specs.Reading.{run, took, Outcome};
ghost use Rattle.c_expressions.specs.Scopes.{context_of, names_of};
ghost use Rattle.c_statements.specs.Simple.{env_of, counted, print_rest, IsPrintRead, IsStmtRead};

use crate::right_side::is_inside;
use base::fault::ReadCode;
use base::tree::{Expr, Stmt};
use c_expressions::{Cursor, ReadError, Scope};
use c_tokens::Sign;
use c_tokens::limits::MAX_STATEMENTS;

/// Goes past the word `print`.
#[tactic(auto, using(crate::proofs::Prints::many_prints))]
fn begin_print(scope: &mut Scope<'_>, tokens: &mut Cursor<'_, '_>) -> Result<(), ReadError>
    requires { (first_item tokens.old).terminal ≡ Fixed Print }
    ensures read { (s : Stack) → Outcome result (took (context_of scope.old 0 0) (for Prints) s (items tokens.old))
        (run (context_of scope.new 0 0) s (items tokens.new)) }
    ensures scope { OnOk result (scope.new ≡ counted scope.old) }
    ensures taken { OnOk result (behind tokens.old ≡ items tokens.new) }
{
    if scope.statements >= MAX_STATEMENTS {
        return Err(ReadError::Fault(tokens.fault(ReadCode::TooMany)));
    }
    if is_inside(scope) {
        return Err(ReadError::Fault(tokens.fault(ReadCode::HostOnly)));
    }
    tokens.take();
    scope.statements += 1;
    Ok(())
}

/// What is printed, behind the word.
fn print_value(scope: &Scope<'_>, tokens: &mut Cursor<'_, '_>) -> Result<Expr, ReadError>
    ensures read { (s : Stack) → Outcome result (run (context_of scope.now 0 0) (print_rest s) (items tokens.old))
        (run (context_of scope.now 0 0) s (items tokens.new)) }
    ensures tree { IfOk result (λ e. IsPrintRead (names_of scope.now) (items tokens.old) (items tokens.new) e) }
{
    tokens.expect(Sign::OpenParen)?;
    let value = scope.expr(tokens, Sign::CloseParen)?;
    tokens.expect(Sign::Semicolon)?;
    Ok(value)
}

/// A print, whose word stands next.
pub fn printed(scope: &mut Scope<'_>, tokens: &mut Cursor<'_, '_>) -> Result<Stmt, ReadError>
    requires { (first_item tokens.old).terminal ≡ Fixed Print }
    ensures read { (s : Stack) → Outcome result (took (context_of scope.old 0 0) (for Prints) (print_rest s)
        (items tokens.old)) (run (context_of scope.new 0 0) s (items tokens.new)) }
    ensures scope { OnOk result (scope.new ≡ counted scope.old) }
    ensures tree { IfOk result (λ x. IsStmtRead (env_of scope.old) (env_of scope.new) (items tokens.old)
        (items tokens.new) x) }
{
    begin_print(scope, tokens)?;
    print_value(scope, tokens).map(Stmt::Print)
}
