//! Directives where none may stand.

ghost use Rattle.std.specs.Prelude.{◌≡◌, ◌∷◌, ◌||◌, Some, true, false, nat_le};
ghost use Rattle.c_grammar.specs.Rules.{inside, under_if, max_statements};
ghost use Rattle.c_grammar.specs.Program.{Stack, Body};
ghost use Rattle.c_expressions.specs.Cursor.{items, first_item};
ghost use Rattle.c_expressions.specs.Reading.{run, is_directive};
ghost use Rattle.c_expressions.specs.Scopes.{context_of};
ghost use Rattle.c_statements.specs.Blocks.{line_code};
ghost use Rattle.c_statements.specs.Simple.{is_atomic_line};

use crate::right_side::is_inside;
use base::fault::{ReadCode, TextFault};
use c_expressions::{Cursor, Scope};
use c_tokens::limits::MAX_STATEMENTS;

/// The code of the fault of a directive inside a target or under an `if`.
fn line_code(scope: &Scope<'_>) -> ReadCode
    ensures { result ≡ line_code (nat_le max_statements scope.now.statements) (inside (context_of scope.now 0 0)) }
{
    if scope.statements >= MAX_STATEMENTS {
        return ReadCode::TooMany;
    }
    let within = is_inside(scope);
    if within {
        ReadCode::DirectiveInTarget
    } else {
        ReadCode::DirectiveUnderIf
    }
}

/// The fault of the directive that stands next, inside a target or under an `if`: an atomic update alone may stand
/// there.
#[tactic(auto, using(crate::proofs::Directives::stop_line))]
pub fn line_fault(scope: &Scope<'_>, tokens: &Cursor<'_, '_>) -> TextFault
    requires within { (inside (context_of scope.now 0 0) || under_if (context_of scope.now 0 0)) ≡ true }
    requires line { is_directive (first_item tokens.now).terminal ≡ true }
    requires apart { is_atomic_line (first_item tokens.now).terminal ≡ false }
    ensures { (s : Stack) → run (context_of scope.now 0 0) (Body ∷ s) (items tokens.now) ≡ Some result }
{
    tokens.fault(line_code(scope))
}
