//! What is assigned.

ghost use Rattle.std.specs.Prelude.{◌≡◌, ◌∷◌, Bool, OnOk, IfOk, IfErr, false};
ghost use Rattle.c_tokens.specs.declared.kind.Sign.TheVariants as sign;
ghost use Rattle.base.specs.declared.tree.Source.TheVariants as from;
ghost use Rattle.c_grammar.specs.Lexeme.{Read};
ghost use Rattle.c_grammar.specs.Terminal.{Fixed, Mark, same};
ghost use Rattle.c_grammar.specs.Rules.{Context, inside};
ghost use Rattle.c_grammar.specs.Program.{Stack, Value, m};
ghost use Rattle.c_expressions.specs.Cursor.{items, first_item, behind};
ghost use Rattle.c_expressions.specs.Reading.{run, Outcome, Failed};
ghost use Rattle.c_expressions.specs.Scopes.{context_of};
ghost use Rattle.c_statements.specs.Simple.{env_of, ending, IsSourceRead, IsSourceBefore};

use base::fault::ReadCode;
use base::tree::{Expr, Source};
use c_expressions::{Cursor, ReadError, Scope, Tally};
use c_tokens::Sign;
use directives::Word;

/// Whether the innermost block is inside a target.
pub fn is_inside(scope: &Scope<'_>) -> bool
    ensures { result ≡ inside (context_of scope.now 0 0) }
{
    scope.is_inside()
}

/// Goes past the word `read`.
fn begin_input(scope: &Scope<'_>, tokens: &mut Cursor<'_, '_>) -> Result<(), ReadError>
    requires { (first_item tokens.old).terminal ≡ Fixed Read }
    ensures read { (s : Stack) → Outcome result (run (context_of scope.now 0 0) (Value ∷ s) (items tokens.old))
        (run (context_of scope.now 0 0) (m sign.OpenParen ∷ m sign.CloseParen ∷ s) (items tokens.new)) }
    ensures taken { OnOk result (behind tokens.old ≡ items tokens.new) }
{
    if is_inside(scope) {
        return Err(ReadError::Fault(tokens.fault(ReadCode::HostOnly)));
    }
    tokens.take();
    Ok(())
}

/// The word `read` that stands next, with its brackets.
#[tactic(auto, using(c_expressions::proofs::Outcomes::on_from, crate::proofs::Sources::read_input))]
fn input(scope: &Scope<'_>, tokens: &mut Cursor<'_, '_>) -> Result<(), ReadError>
    requires { (first_item tokens.old).terminal ≡ Fixed Read }
    ensures read { (s : Stack) → Outcome result (run (context_of scope.now 0 0) (Value ∷ s) (items tokens.old))
        (run (context_of scope.now 0 0) s (items tokens.new)) }
    ensures tree { OnOk result (IsSourceRead (env_of scope.now) (items tokens.old) (items tokens.new) from.Read) }
{
    begin_input(scope, tokens)?;
    tokens.expect(Sign::OpenParen)?;
    tokens.expect(Sign::CloseParen)?;
    Ok(())
}

/// The expression that stands next, before a semicolon.
fn value(scope: &Scope<'_>, tokens: &mut Cursor<'_, '_>) -> Result<Expr, ReadError>
    requires { same (Fixed Read) (first_item tokens.old).terminal ≡ false }
    ensures read { (b : Bool) (s : Stack) → Outcome result (run (context_of scope.now 0 0) (Value ∷ ending b ∷ s)
        (items tokens.old)) (run (context_of scope.now 0 0) (ending b ∷ s) (items tokens.new)) }
    ensures stands { OnOk result ((first_item tokens.new).terminal ≡ Mark sign.Semicolon) }
    ensures tree { IfOk result (λ e. IsSourceRead (env_of scope.now) (items tokens.old) (items tokens.new)
        (from.Value e)) }
{
    let mut tally = Tally::new();
    let value = scope.value(tokens, &mut tally)?;
    if tokens.at(Sign::Semicolon) {
        return Ok(value);
    }
    // A call, since an expression dropped here without one is proved for each kind of expression.
    drop(value);
    Err(ReadError::Fault(tokens.refuse()))
}

/// Whether a semicolon stands next.
#[tactic(auto, using(crate::proofs::Sources::no_end, c_expressions::proofs::Going::was_mark))]
fn ended(tokens: &Cursor<'_, '_>) -> Result<(), ReadError>
    ensures fault { (c : Context) (b : Bool) (s : Stack) → IfErr result
        (λ e. Failed e (run c (ending b ∷ s) (items tokens.now))) }
    ensures stands { OnOk result ((first_item tokens.now).terminal ≡ Mark sign.Semicolon) }
{
    if !tokens.at(Sign::Semicolon) {
        return Err(ReadError::Fault(tokens.refuse()));
    }
    Ok(())
}

/// What is assigned, up to the semicolon behind it, which ends an assignment or a declaration.
#[tactic(auto, using(c_expressions::proofs::Outcomes::on_from, crate::proofs::Sources::was_read))]
pub fn source(scope: &Scope<'_>, tokens: &mut Cursor<'_, '_>) -> Result<Source, ReadError>
    ensures read { (b : Bool) (s : Stack) → Outcome result (run (context_of scope.now 0 0) (Value ∷ ending b ∷ s)
        (items tokens.old)) (run (context_of scope.now 0 0) (ending b ∷ s) (items tokens.new)) }
    ensures stands { OnOk result ((first_item tokens.new).terminal ≡ Mark sign.Semicolon) }
    ensures tree { IfOk result (λ v. IsSourceRead (env_of scope.now) (items tokens.old) (items tokens.new) v) }
{
    if tokens.at_word(Word::Read) {
        input(scope, tokens)?;
        ended(tokens)?;
        return Ok(Source::Read);
    }
    value(scope, tokens).map(Source::Value)
}

/// What is assigned, and the semicolon behind it.
pub fn ended_source(scope: &Scope<'_>, tokens: &mut Cursor<'_, '_>) -> Result<Source, ReadError>
    ensures read { (s : Stack) → Outcome result (run (context_of scope.now 0 0) (Value ∷ m sign.Semicolon ∷ s)
        (items tokens.old)) (run (context_of scope.now 0 0) s (items tokens.new)) }
    ensures tree { IfOk result (λ v. IsSourceBefore (env_of scope.now) (items tokens.old) (items tokens.new) v) }
{
    let source = source(scope, tokens)?;
    tokens.take();
    Ok(source)
}
