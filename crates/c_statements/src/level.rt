//! How many loops stand around.

ghost use Rattle.std.specs.Prelude.{◌≡◌, ◌≤◌, ◌+◌};
ghost use Rattle.c_expressions.specs.Scopes.{names_in, names_of};
ghost use Rattle.c_tokens.specs.declared.limits.TheConstants.{MAX_STATEMENTS};
ghost use Rattle.c_statements.specs.Simple.{loops_in};

use c_expressions::{Frame, Meaning, Scope};

/// So many and the loops whose names are declared in the block.
#[tactic(auto, using(crate::proofs::Loops::loop_here, crate::proofs::Loops::other_here, crate::proofs::Loops::loops_least))]
fn with_loops_of(frame: &Frame<'_>, before: u32) -> u32
    requires { before + loops_in (names_in frame.now) ≤ MAX_STATEMENTS }
    ensures { result ≡ before + loops_in (names_in frame.now) }
{
    let mut count = before;
    'names: for name in &frame.names {
        match name.meaning {
            Meaning::Loop(_) => count += 1,
            Meaning::Array(_) | Meaning::Scalar(_, _) | Meaning::Boxed(_, _) => {}
        }
    }
    count
}

/// How many loops stand around.
pub fn loops_around(scope: &Scope<'_>) -> u32
    requires { loops_in (names_of scope.now) ≤ MAX_STATEMENTS }
    ensures { result ≡ loops_in (names_of scope.now) }
{
    let mut count = 0;
    'frames: for frame in &scope.frames {
        count = with_loops_of(frame, count);
    }
    count
}
