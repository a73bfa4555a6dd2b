//! Nested loops whose turns may run in any order.

ghost use Rattle.std.specs.Prelude.{◌≡◌, ◌≤◌, ◌+◌, ◌∷◌, ◌||◌, OnOk, IfOk, Some, true, false};
ghost use Rattle.c_tokens.specs.declared.kind.Sign.TheVariants as sign;
ghost use Rattle.c_grammar.specs.Lexeme.{For};
ghost use Rattle.c_grammar.specs.Terminal.{Fixed, Mark};
ghost use Rattle.c_grammar.specs.Grammar.{Closes, for};
ghost use Rattle.c_grammar.specs.Rules.{inside};
ghost use Rattle.c_grammar.specs.Program.{Stack, Nested, Want, loop, loop_body};
ghost use Rattle.c_expressions.specs.Cursor.{items, first_item, behind};
ghost use Rattle.c_expressions.specs.Reading.{run, Outcome};
ghost use Rattle.c_expressions.specs.Scopes.{context_of, names_of};
ghost use Rattle.c_expressions.specs.declared.cursor.Cursor.{Cursor as Tokens};
ghost use Rattle.c_statements.specs.Blocks.{turned};
ghost use Rattle.c_statements.specs.Bodies.{inner_env, IsLeft, IsReady, IsSameBlock};
ghost use Rattle.c_statements.specs.Simple.{env_of, loops_in};
ghost use Rattle.c_read.specs.Parts.{in_target};
ghost use Rattle.c_read.specs.Read.{AreNestRead, HasBegun, IsNestBodyRead, IsNestRead};

use base::fault::ReadCode;
use base::tree::Stmt;
use c_expressions::{Cursor, ReadError, Scope, Turn};
use c_statements::{begin_loop, body, bounds, close_body, head_name, loops_around, open_body};
use c_tokens::Sign;
use directives::Word;

/// A loop of a target behind its word, with a nest of so many loops in it.
#[cycle(nest)]
#[tactic(auto, using(c_expressions::proofs::Outcomes::on_from))]
pub fn nest<'a>(
    scope: &mut Scope<'a>,
    tokens: &mut Cursor<'a, '_>,
    depth: u8,
) -> Result<Stmt, ReadError>
    requires begun { HasBegun scope.old }
    requires within { (inside (context_of scope.old 0 0) || scope.old.target) ≡ true }
    ensures read { (s : Stack) → Outcome result (run (context_of scope.old 0 0) (loop depth s) (items tokens.old))
        (run (context_of scope.new 0 0) s (items tokens.new)) }
    ensures scope { OnOk result (IsSameBlock scope.old scope.new) }
    ensures target { OnOk result (scope.new.target ≡ false) }
    ensures tree { (t : Tokens) → (first_item t).terminal ≡ Fixed For → behind t ≡ items tokens.old →
        IfOk result (λ x. IsNestRead depth (in_target (env_of scope.old)) (in_target (env_of scope.new))
        (items t) (items tokens.new) x) }
{
    let name = head_name(scope, tokens)?;
    let bounds = bounds(scope, tokens, name)?;
    let level = loops_around(scope);
    let body = nest_body(scope, tokens, Turn { name, level }, depth)?;
    Ok(Stmt::Loop(bounds, body))
}

/// The body of such a loop.
#[cycle(nest)]
#[tactic(auto, using(c_expressions::proofs::Outcomes::on_from))]
fn nest_body<'a>(
    scope: &mut Scope<'a>,
    tokens: &mut Cursor<'a, '_>,
    turn: Turn<'a>,
    depth: u8,
) -> Result<Vec<Stmt>, ReadError>
    requires loops { loops_in (names_of scope.old) + 1 ≤ scope.old.statements }
    requires within { (inside (context_of scope.old 0 0) || scope.old.target) ≡ true }
    ensures read { (s : Stack) → Outcome result (run (turned (Some turn.entry.name.now) scope.old) (loop_body depth s)
        (items tokens.old)) (run (context_of scope.new 0 0) s (items tokens.new)) }
    ensures scope { OnOk result (IsSameBlock scope.old scope.new) }
    ensures target { OnOk result (scope.new.target ≡ false) }
    ensures tree { IfOk result (λ v. IsNestBodyRead depth (env_of scope.old) (inner_env (Some turn.entry) scope.old)
        (env_of scope.new) (items tokens.old) (items tokens.new) v.items) }
{
    if depth == 0 {
        return body(scope, tokens, Some(turn));
    }
    open_body(scope, tokens, Some(turn))?;
    let body = nested(scope, tokens, depth - 1)?;
    Ok(body)
}

/// Behind the brace of a loop's body: the next loop of the nest, with so many in it, and the brace that ends the body.
#[cycle(nest)]
#[tactic(auto, using(c_expressions::proofs::Outcomes::on_from))]
fn nested<'a>(
    scope: &mut Scope<'a>,
    tokens: &mut Cursor<'a, '_>,
    depth: u8,
) -> Result<Vec<Stmt>, ReadError>
    requires ready { IsReady scope.old }
    requires within { inside (context_of scope.old 0 0) ≡ true }
    ensures read { (s : Stack) → Outcome result (run (context_of scope.old 0 0)
        (Nested depth ∷ Want (Mark sign.CloseBrace) (for Closes) ∷ s) (items tokens.old))
        (run (context_of scope.new 0 0) s (items tokens.new)) }
    ensures scope { OnOk result (IsLeft scope.old scope.new) }
    ensures tree { IfOk result (λ v. AreNestRead depth (env_of scope.old) scope.new.scalars (items tokens.old)
        (items tokens.new) v.items) }
{
    let mut body = Vec::new(scope.alloc);
    let turns = next_loop(scope, tokens, depth)?;
    body.push(turns)?;
    if !tokens.at(Sign::CloseBrace) {
        return Err(ReadError::Fault(tokens.refuse()));
    }
    close_body(scope, tokens);
    Ok(body)
}

/// The next loop of a nest, with so many in it.
#[cycle(nest)]
#[tactic(auto, using(c_expressions::proofs::Outcomes::on_from, crate::proofs::Nests::nested_begins, crate::proofs::Nests::stop_nested))]
fn next_loop<'a>(
    scope: &mut Scope<'a>,
    tokens: &mut Cursor<'a, '_>,
    depth: u8,
) -> Result<Stmt, ReadError>
    requires ready { IsReady scope.old }
    requires within { inside (context_of scope.old 0 0) ≡ true }
    ensures read { (s : Stack) → Outcome result (run (context_of scope.old 0 0) (Nested depth ∷ s) (items tokens.old))
        (run (context_of scope.new 0 0) s (items tokens.new)) }
    ensures scope { OnOk result (IsSameBlock scope.old scope.new) }
    ensures target { OnOk result (scope.new.target ≡ false) }
    ensures tree { IfOk result (λ x. IsNestRead depth (env_of scope.old) (env_of scope.new) (items tokens.old)
        (items tokens.new) x) }
{
    if !tokens.at_word(Word::For) {
        return Err(ReadError::Fault(tokens.misfit(ReadCode::NoBody)));
    }
    begin_loop(scope, tokens)?;
    let turns = nest(scope, tokens, depth)?;
    Ok(turns)
}
