//! Statements where no directive but that of an atomic update may stand: inside a target or under an `if`.

ghost use Rattle.std.specs.Prelude.{◌≡◌, ◌≤◌, ◌∷◌, ◌++◌, ◌||◌, OnOk, IfOk, false, true};
ghost use Rattle.c_tokens.specs.declared.kind.Sign.TheVariants as sign;
ghost use Rattle.c_grammar.specs.Lexeme.{For, If};
ghost use Rattle.c_grammar.specs.Terminal.{Fixed, Mark, same};
ghost use Rattle.c_grammar.specs.Grammar.{Starts, StartsIf, StartsBlock, for};
ghost use Rattle.c_grammar.specs.Rules.{inside, under_if};
ghost use Rattle.c_grammar.specs.Program.{Stack, AfterMark, Atom, Tail, Body, OrElse, m, body, loop};
ghost use Rattle.c_expressions.specs.Changes.{turn_name, turn_names};
ghost use Rattle.c_expressions.specs.Cursor.{items, first_item};
ghost use Rattle.c_expressions.specs.Reading.{run, took, Outcome};
ghost use Rattle.c_expressions.specs.Scopes.{context_of, names_of};
ghost use Rattle.c_statements.specs.Blocks.{turned};
ghost use Rattle.c_statements.specs.Bodies.{inner_env, IsReady, IsSameBlock, IsLeft, AreStmtsRead, IsBodyRead};
ghost use Rattle.c_statements.specs.Simple.{env_of, is_atomic_line, loops_in, IsMarkableRead, IsStmtRead};

use crate::assign::assigned;
use crate::atomic::{at_atomic, begin_atomic};
use crate::block::{begin_block, begin_choice, begin_loop, close_body, open_body, otherwise};
use crate::declare::declared;
use crate::directive::line_fault;
use crate::head::{bounds, head_name};
use crate::if_head::condition;
use crate::level::loops_around;
use crate::print::printed;
use crate::update::as_update;
use base::tree::Stmt;
use c_expressions::{Cursor, ReadError, Scope, Terminal, Turn};
use c_tokens::Sign;
use directives::Word;

/// The statement that stands next.
#[cycle(statement)]
#[tactic(auto, using(c_expressions::proofs::Outcomes::on_from, crate::proofs::Begins::at_declaration, crate::proofs::Begins::at_loop, crate::proofs::Begins::at_choice, crate::proofs::Begins::at_print, crate::proofs::Begins::at_block, crate::proofs::Begins::at_name, crate::proofs::Begins::stop_stmt, crate::proofs::Levels::same_counted))]
pub fn statement<'a>(scope: &mut Scope<'a>, tokens: &mut Cursor<'a, '_>) -> Result<Stmt, ReadError>
    requires ready { IsReady scope.old }
    requires within { (inside (context_of scope.old 0 0) || under_if (context_of scope.old 0 0)) ≡ true }
    requires goes_on { same (Mark sign.CloseBrace) (first_item tokens.old).terminal ≡ false }
    ensures read { (s : Stack) → Outcome result (run (context_of scope.old 0 0) (Body ∷ s) (items tokens.old))
        (run (context_of scope.new 0 0) (Body ∷ s) (items tokens.new)) }
    ensures scope { OnOk result (IsSameBlock scope.old scope.new) }
    ensures tree { IfOk result (λ x. IsStmtRead (env_of scope.old) (env_of scope.new) (items tokens.old)
        (items tokens.new) x) }
{
    if at_atomic(tokens) {
        return atomic_update(scope, tokens);
    }
    if tokens.at_directive() {
        return Err(ReadError::Fault(line_fault(scope, tokens)));
    }
    match tokens.peek() {
        Terminal::Word(Word::Uint64) => declared(scope, tokens),
        Terminal::Word(Word::For) => looped(scope, tokens),
        Terminal::Word(Word::If) => choice(scope, tokens),
        Terminal::Word(Word::Print) => printed(scope, tokens),
        Terminal::Sign(Sign::OpenBrace) => blocked(scope, tokens),
        Terminal::Name(name) => assigned(scope, tokens, name),
        _ => Err(ReadError::Fault(tokens.refuse())),
    }
}

/// The assignment or `if` behind the line of an atomic update.
#[cycle(statement)]
#[tactic(auto, using(crate::proofs::Levels::same_counted))]
fn marked<'a>(scope: &mut Scope<'a>, tokens: &mut Cursor<'a, '_>) -> Result<Stmt, ReadError>
    requires { IsReady scope.old }
    ensures read { (s : Stack) → Outcome result
        (run (context_of scope.old 0 0) (AfterMark ∷ Body ∷ s) (items tokens.old))
        (run (context_of scope.new 0 0) (Body ∷ s) (items tokens.new)) }
    ensures scope { OnOk result (IsSameBlock scope.old scope.new) }
    ensures tree { IfOk result (λ x. IsMarkableRead (env_of scope.old) (env_of scope.new) (items tokens.old)
        (items tokens.new) x) }
{
    match tokens.peek() {
        Terminal::Word(Word::If) => choice(scope, tokens),
        Terminal::Name(name) => assigned(scope, tokens, name),
        _ => Err(ReadError::Fault(tokens.refuse())),
    }
}

/// The atomic update whose line stands next.
#[cycle(statement)]
#[tactic(auto, using(c_expressions::proofs::Outcomes::on_from))]
pub fn atomic_update<'a>(
    scope: &mut Scope<'a>,
    tokens: &mut Cursor<'a, '_>,
) -> Result<Stmt, ReadError>
    requires ready { IsReady scope.old }
    requires line { is_atomic_line (first_item tokens.old).terminal ≡ true }
    ensures read { (s : Stack) → Outcome result (run (context_of scope.old 0 0) (Body ∷ s) (items tokens.old))
        (run (context_of scope.new 0 0) (Body ∷ s) (items tokens.new)) }
    ensures scope { OnOk result (IsSameBlock scope.old scope.new) }
    ensures tree { IfOk result (λ x. IsStmtRead (env_of scope.old) (env_of scope.new) (items tokens.old)
        (items tokens.new) x) }
{
    begin_atomic(scope, tokens)?;
    let statement = marked(scope, tokens)?;
    Ok(as_update(statement))
}

/// The loop whose word stands next.
#[cycle(statement)]
fn looped<'a>(scope: &mut Scope<'a>, tokens: &mut Cursor<'a, '_>) -> Result<Stmt, ReadError>
    requires ready { IsReady scope.old }
    requires within { (inside (context_of scope.old 0 0) || under_if (context_of scope.old 0 0)) ≡ true }
    requires word { (first_item tokens.old).terminal ≡ Fixed For }
    ensures read { (s : Stack) → Outcome result (took (context_of scope.old 0 0) (for Starts) (loop 0 s)
        (items tokens.old)) (run (context_of scope.new 0 0) s (items tokens.new)) }
    ensures scope { OnOk result (IsSameBlock scope.old scope.new) }
    ensures tree { IfOk result (λ x. IsStmtRead (env_of scope.old) (env_of scope.new) (items tokens.old)
        (items tokens.new) x) }
{
    begin_loop(scope, tokens)?;
    let name = head_name(scope, tokens)?;
    let bounds = bounds(scope, tokens, name)?;
    let level = loops_around(scope);
    let body = body(scope, tokens, Some(Turn { name, level }))?;
    Ok(Stmt::Loop(bounds, body))
}

/// The `if` whose word stands next, with its `else` if it has one.
#[cycle(statement)]
#[tactic(auto, using(c_expressions::proofs::Outcomes::on_from))]
pub fn choice<'a>(scope: &mut Scope<'a>, tokens: &mut Cursor<'a, '_>) -> Result<Stmt, ReadError>
    requires ready { IsReady scope.old }
    requires word { (first_item tokens.old).terminal ≡ Fixed If }
    ensures read { (s : Stack) → Outcome result (took (context_of scope.old 0 0) (for StartsIf)
        (m sign.OpenParen ∷ Atom ∷ Tail 9 ∷ m sign.CloseParen ∷ body (OrElse ∷ Body ∷ s)) (items tokens.old))
        (run (context_of scope.new 0 0) (Body ∷ s) (items tokens.new)) }
    ensures scope { OnOk result (IsSameBlock scope.old scope.new) }
    ensures tree { IfOk result (λ x. IsMarkableRead (env_of scope.old) (env_of scope.new) (items tokens.old)
        (items tokens.new) x) }
{
    begin_choice(scope, tokens)?;
    let test = condition(scope, tokens)?;
    let first = body(scope, tokens, None)?;
    if !tokens.at_word(Word::Else) {
        return Ok(Stmt::If(test, first, Vec::new(scope.alloc)));
    }
    otherwise(scope, tokens);
    let second = body(scope, tokens, None)?;
    Ok(Stmt::If(test, first, second))
}

/// The block whose brace stands next.
#[cycle(statement)]
#[tactic(auto, using(c_expressions::proofs::Outcomes::on_from))]
fn blocked<'a>(scope: &mut Scope<'a>, tokens: &mut Cursor<'a, '_>) -> Result<Stmt, ReadError>
    requires ready { IsReady scope.old }
    requires within { (inside (context_of scope.old 0 0) || under_if (context_of scope.old 0 0)) ≡ true }
    requires opening { (first_item tokens.old).terminal ≡ Mark sign.OpenBrace }
    ensures read { (s : Stack) → Outcome result (took (context_of scope.old 0 0) (for StartsBlock) (Body ∷ s)
        (items tokens.old)) (run (context_of scope.new 0 0) s (items tokens.new)) }
    ensures scope { OnOk result (IsSameBlock scope.old scope.new) }
    ensures tree { IfOk result (λ x. IsStmtRead (env_of scope.old) (env_of scope.new) (items tokens.old)
        (items tokens.new) x) }
{
    begin_block(scope, tokens)?;
    let statements = statements(scope, tokens)?;
    Ok(Stmt::Block(statements))
}

/// Statements in braces, in which no directive may stand: those of a loop with its name.
#[cycle(statement)]
#[tactic(auto, using(c_expressions::proofs::Outcomes::on_from))]
pub fn body<'a>(
    scope: &mut Scope<'a>,
    tokens: &mut Cursor<'a, '_>,
    turn: Option<Turn<'a>>,
) -> Result<Vec<Stmt>, ReadError>
    requires loops { loops_in (turn_names turn ++ names_of scope.old) ≤ scope.old.statements }
    requires within { ((inside (context_of scope.old 0 0) || scope.old.target) ||
        (under_if (context_of scope.old 0 0) || scope.old.choice)) ≡ true }
    ensures read { (s : Stack) → Outcome result (run (turned (turn_name turn.entry) scope.old) (body s)
        (items tokens.old)) (run (context_of scope.new 0 0) s (items tokens.new)) }
    ensures scope { OnOk result (IsSameBlock scope.old scope.new) }
    ensures target { OnOk result (scope.new.target ≡ false) }
    ensures waiting { OnOk result (scope.new.choice ≡ false) }
    ensures tree { IfOk result (λ v. IsBodyRead (env_of scope.old) (inner_env turn.entry scope.old)
        (env_of scope.new) (items tokens.old) (items tokens.new) v.items) }
{
    open_body(scope, tokens, turn)?;
    let body = statements(scope, tokens)?;
    Ok(body)
}

/// The statements of a block in which no directive may stand, and the brace that ends it.
#[cycle(statement)]
#[tactic(auto, using(c_expressions::proofs::Outcomes::on_from))]
pub fn statements<'a>(
    scope: &mut Scope<'a>,
    tokens: &mut Cursor<'a, '_>,
) -> Result<Vec<Stmt>, ReadError>
    requires ready { IsReady scope.old }
    requires within { (inside (context_of scope.old 0 0) || under_if (context_of scope.old 0 0)) ≡ true }
    ensures read { (s : Stack) → Outcome result (run (context_of scope.old 0 0) (Body ∷ s) (items tokens.old))
        (run (context_of scope.new 0 0) s (items tokens.new)) }
    ensures scope { OnOk result (IsLeft scope.old scope.new) }
    ensures tree { IfOk result (λ v. AreStmtsRead (env_of scope.old) scope.new.scalars (items tokens.old)
        (items tokens.new) v.items) }
{
    let mut statements = Vec::new(scope.alloc);
    'statements: while !tokens.at(Sign::CloseBrace) {
        let next = statement(scope, tokens)?;
        statements.push(next)?;
    }
    close_body(scope, tokens);
    Ok(statements)
}
