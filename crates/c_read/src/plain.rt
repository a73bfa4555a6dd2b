//! Statements outside targets that are no blocks, loops and directives.

ghost use Rattle.std.specs.Prelude.{◌≡◌, ◌∷◌, OnOk, IfOk, false};
ghost use Rattle.c_tokens.specs.declared.kind.Sign.TheVariants as sign;
ghost use Rattle.c_grammar.specs.Lexeme.{For};
ghost use Rattle.c_grammar.specs.Terminal.{Fixed, Mark, same};
ghost use Rattle.c_grammar.specs.Program.{Stack, Body};
ghost use Rattle.c_expressions.specs.Cursor.{items, first_item};
ghost use Rattle.c_expressions.specs.Reading.{run, is_directive, Outcome};
ghost use Rattle.c_expressions.specs.Scopes.{context_of};
ghost use Rattle.c_statements.specs.Bodies.{IsReady, IsSameBlock};
ghost use Rattle.c_statements.specs.Simple.{env_of, IsStmtRead};

use base::tree::Stmt;
use c_expressions::{Cursor, ReadError, Scope, Terminal};
use c_statements::{assigned, choice, declared, printed};
use directives::Word;

/// A declaration, an `if`, a print, an assignment or a store.
#[tactic(auto, using(c_expressions::proofs::Outcomes::on_from, c_statements::proofs::Begins::at_declaration, c_statements::proofs::Begins::at_choice, c_statements::proofs::Begins::at_print, c_statements::proofs::Begins::at_name, c_statements::proofs::Begins::stop_stmt, c_statements::proofs::Levels::same_counted))]
pub fn plain<'a>(scope: &mut Scope<'a>, tokens: &mut Cursor<'a, '_>) -> Result<Stmt, ReadError>
    requires ready { IsReady scope.old }
    requires goes_on { same (Mark sign.CloseBrace) (first_item tokens.old).terminal ≡ false }
    requires no_loop { same (Fixed For) (first_item tokens.old).terminal ≡ false }
    requires no_block { same (Mark sign.OpenBrace) (first_item tokens.old).terminal ≡ false }
    requires no_line { is_directive (first_item tokens.old).terminal ≡ false }
    ensures read { (s : Stack) → Outcome result (run (context_of scope.old 0 0) (Body ∷ s) (items tokens.old))
        (run (context_of scope.new 0 0) (Body ∷ s) (items tokens.new)) }
    ensures scope { OnOk result (IsSameBlock scope.old scope.new) }
    ensures tree { IfOk result (λ x. IsStmtRead (env_of scope.old) (env_of scope.new) (items tokens.old)
        (items tokens.new) x) }
{
    match tokens.peek() {
        Terminal::Word(Word::Uint64) => declared(scope, tokens),
        Terminal::Word(Word::If) => choice(scope, tokens),
        Terminal::Word(Word::Print) => printed(scope, tokens),
        Terminal::Name(name) => assigned(scope, tokens, name),
        _ => Err(ReadError::Fault(tokens.refuse())),
    }
}
