//! The words and braces with which blocks begin and end.

ghost use Rattle.std.specs.Prelude.{◌≡◌, ◌<◌, ◌∷◌, ◌++◌, OnOk, None};
ghost use Rattle.c_tokens.specs.declared.kind.Sign.TheVariants as sign;
ghost use Rattle.c_grammar.specs.Lexeme.{For, If, Else};
ghost use Rattle.c_grammar.specs.Terminal.{Fixed, Mark};
ghost use Rattle.c_grammar.specs.Grammar.{Opens, Starts, StartsIf, StartsBlock, for};
ghost use Rattle.c_grammar.specs.Rules.{opened, below};
ghost use Rattle.c_grammar.specs.Program.{Stack, Want, Body, OrElse, body};
ghost use Rattle.c_expressions.specs.Changes.{turn_name, turn_names, names_below};
ghost use Rattle.c_expressions.specs.Cursor.{items, first_item, behind};
ghost use Rattle.c_expressions.specs.Reading.{run, took, Outcome};
ghost use Rattle.c_expressions.specs.Scopes.{context_of, frames_of, names_of};
ghost use Rattle.c_tokens.specs.declared.limits.TheConstants.{MAX_STATEMENTS};
ghost use Rattle.c_statements.specs.Simple.{counted};
ghost use Rattle.c_statements.specs.Blocks.{turned, choosing, under_if};

use base::fault::ReadCode;
use c_expressions::{Cursor, ReadError, Scope, Turn};
use c_tokens::Sign;
use c_tokens::limits::{MAX_BRACES, MAX_STATEMENTS};

/// Goes past the brace with which a body begins, that of a loop with its name.
pub fn open_body<'a>(
    scope: &mut Scope<'a>,
    tokens: &mut Cursor<'a, '_>,
    turn: Option<Turn<'a>>,
) -> Result<(), ReadError>
    ensures read { (s : Stack) → Outcome result (run (turned (turn_name turn.entry) scope.old)
        (Want (Mark sign.OpenBrace) (for Opens) ∷ s) (items tokens.old))
        (run (context_of scope.new 0 0) s (items tokens.new)) }
    ensures opened { OnOk result (context_of scope.new 0 0 ≡ opened (turned (turn_name turn.entry) scope.old)) }
    ensures names { OnOk result (names_of scope.new ≡ turn_names turn.entry ++ names_of scope.old) }
    ensures next { OnOk result (scope.new.scalars ≡ scope.old.scalars) }
    ensures first { OnOk result ((first_item tokens.old).terminal ≡ Mark sign.OpenBrace) }
    ensures taken { OnOk result (behind tokens.old ≡ items tokens.new) }
{
    if !tokens.at(Sign::OpenBrace) {
        return Err(ReadError::Fault(tokens.refuse()));
    }
    if scope.frames.len() > MAX_BRACES {
        return Err(ReadError::Fault(tokens.fault(ReadCode::TooDeep)));
    }
    tokens.take();
    scope.open_frame(turn)?;
    Ok(())
}

/// Goes past the brace that ends a block, which stands next.
pub fn close_body(scope: &mut Scope<'_>, tokens: &mut Cursor<'_, '_>)
    requires { (first_item tokens.old).terminal ≡ Mark sign.CloseBrace }
    ensures read { (s : Stack) → run (context_of scope.old 0 0) (Body ∷ s) (items tokens.old) ≡
        run (context_of scope.new 0 0) s (items tokens.new) }
    ensures closed { context_of scope.new 0 0 ≡ record (context_of scope.old 0 0)
        { frames = below (frames_of scope.old) } }
    ensures names { names_of scope.new ≡ names_below scope.old }
    ensures next { scope.new.scalars ≡ scope.old.scalars }
    ensures taken { behind tokens.old ≡ items tokens.new }
{
    tokens.take();
    scope.close_frame();
}

/// Goes past the word `for`.
#[tactic(auto, using(crate::proofs::Braces::many_starts, crate::proofs::Braces::go_starts))]
pub fn begin_loop(scope: &mut Scope<'_>, tokens: &mut Cursor<'_, '_>) -> Result<(), ReadError>
    requires { (first_item tokens.old).terminal ≡ Fixed For }
    ensures read { (s : Stack) → Outcome result (took (context_of scope.old 0 0) (for Starts) s (items tokens.old))
        (run (context_of scope.new 0 0) s (items tokens.new)) }
    ensures scope { OnOk result (scope.new ≡ counted scope.old) }
    ensures few { OnOk result (scope.old.statements < MAX_STATEMENTS) }
    ensures taken { OnOk result (behind tokens.old ≡ items tokens.new) }
{
    if scope.statements >= MAX_STATEMENTS {
        return Err(ReadError::Fault(tokens.fault(ReadCode::TooMany)));
    }
    tokens.take();
    scope.statements += 1;
    Ok(())
}

/// Goes past the word `if`.
#[tactic(auto, using(crate::proofs::Braces::many_ifs, crate::proofs::Braces::go_ifs))]
pub fn begin_choice(scope: &mut Scope<'_>, tokens: &mut Cursor<'_, '_>) -> Result<(), ReadError>
    requires { (first_item tokens.old).terminal ≡ Fixed If }
    ensures read { (s : Stack) → Outcome result (took (context_of scope.old 0 0) (for StartsIf) s
        (items tokens.old)) (run (context_of scope.new 0 0) s (items tokens.new)) }
    ensures scope { OnOk result (scope.new ≡ choosing scope.old) }
    ensures taken { OnOk result (behind tokens.old ≡ items tokens.new) }
{
    if scope.statements >= MAX_STATEMENTS {
        return Err(ReadError::Fault(tokens.fault(ReadCode::TooMany)));
    }
    tokens.take();
    scope.statements += 1;
    scope.choice = true;
    Ok(())
}

/// Goes past the brace with which a statement begins.
#[tactic(auto, using(crate::proofs::Braces::deep_block, crate::proofs::Braces::many_block))]
pub fn begin_block(scope: &mut Scope<'_>, tokens: &mut Cursor<'_, '_>) -> Result<(), ReadError>
    requires { (first_item tokens.old).terminal ≡ Mark sign.OpenBrace }
    ensures read { (s : Stack) → Outcome result (took (context_of scope.old 0 0) (for StartsBlock) s
        (items tokens.old)) (run (context_of scope.new 0 0) s (items tokens.new)) }
    ensures opened { OnOk result (context_of scope.new 0 0 ≡ opened (turned None (counted scope.old))) }
    ensures names { OnOk result (names_of scope.new ≡ names_of scope.old) }
    ensures next { OnOk result (scope.new.scalars ≡ scope.old.scalars) }
    ensures taken { OnOk result (behind tokens.old ≡ items tokens.new) }
{
    if scope.frames.len() > MAX_BRACES {
        return Err(ReadError::Fault(tokens.fault(ReadCode::TooDeep)));
    }
    if scope.statements >= MAX_STATEMENTS {
        return Err(ReadError::Fault(tokens.fault(ReadCode::TooMany)));
    }
    tokens.take();
    scope.statements += 1;
    scope.open_frame(None)?;
    Ok(())
}

/// Goes past the word `else`.
#[tactic(auto, using(crate::proofs::Braces::go_else))]
pub fn otherwise(scope: &mut Scope<'_>, tokens: &mut Cursor<'_, '_>)
    requires { (first_item tokens.old).terminal ≡ Fixed Else }
    ensures read { (s : Stack) → run (context_of scope.old 0 0) (OrElse ∷ s) (items tokens.old) ≡
        run (context_of scope.new 0 0) (body s) (items tokens.new) }
    ensures scope { scope.new ≡ under_if scope.old }
    ensures taken { behind tokens.old ≡ items tokens.new }
{
    tokens.take();
    scope.choice = true;
}
