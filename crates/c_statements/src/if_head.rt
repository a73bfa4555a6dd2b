//! What an `if` tests.

ghost use Rattle.std.specs.Prelude.{◌≡◌, ◌∷◌, IfOk};
ghost use Rattle.c_tokens.specs.declared.kind.Sign.TheVariants as sign;
ghost use Rattle.c_grammar.specs.Program.{Stack, Atom, Tail, m};
ghost use Rattle.c_expressions.specs.Cursor.{items};
ghost use Rattle.c_expressions.specs.Reading.{run, Outcome};
ghost use Rattle.c_expressions.specs.Scopes.{context_of, names_of};
ghost use Rattle.c_statements.specs.Blocks.{IsConditionRead};

use base::tree::Expr;
use c_expressions::{Cursor, ReadError, Scope};
use c_tokens::Sign;

/// The condition of an `if`, behind the word.
#[tactic(auto, using(c_expressions::proofs::Outcomes::on_from, crate::proofs::Conditions::read_condition))]
pub fn condition(scope: &Scope<'_>, tokens: &mut Cursor<'_, '_>) -> Result<Expr, ReadError>
    ensures read { (s : Stack) → Outcome result (run (context_of scope.now 0 0)
        (m sign.OpenParen ∷ Atom ∷ Tail 9 ∷ m sign.CloseParen ∷ s) (items tokens.old))
        (run (context_of scope.now 0 0) s (items tokens.new)) }
    ensures tree { IfOk result (λ e. IsConditionRead (names_of scope.now) (items tokens.old) (items tokens.new) e) }
{
    tokens.expect(Sign::OpenParen)?;
    scope.expr(tokens, Sign::CloseParen)
}
