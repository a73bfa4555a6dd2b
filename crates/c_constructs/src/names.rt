//! The names of a line.

ghost use Rattle.std.specs.Prelude.{◌≡◌, ◌∷◌, IfOk, Some};
ghost use Rattle.c_grammar.specs.Lines.{OfArray, OfLoop};
ghost use Rattle.c_expressions.specs.declared.scope.Meaning.TheVariants as meaning;
ghost use Rattle.c_expressions.specs.Means.{MeansArray, meaning_of};
ghost use Rattle.c_expressions.specs.Scopes.{names_of};
ghost use Rattle.directives.specs.Names.{Uses};
ghost use Rattle.directives.specs.Reading.{Outcome};
ghost use Rattle.c_constructs.specs.Uses.{fault_in};

use base::fault::ReadCode;
use base::tree::ArrayId;
use c_expressions::{Meaning, Scope};
use directives::{DirectiveFault, LineFault, Name};

/// The array of that name, or of the boxed scalar of that name. Any other name is `Undeclared`.
#[tactic(auto, using(crate::proofs::Known::array_none))]
pub fn array(scope: &Scope<'_>, name: &Name<'_>) -> Result<ArrayId, DirectiveFault>
    ensures told { (us : Uses) → Outcome result (fault_in scope.now
        ((name.now.column, OfArray name.now.text.now) ∷ us)) (fault_in scope.now us) }
    ensures means { IfOk result (λ a. MeansArray (meaning_of (names_of scope.now) name.now.text.now) a) }
{
    let undeclared = LineFault {
        code: ReadCode::Undeclared,
        column: name.column,
    };
    match scope.meaning(name.text) {
        Some(Meaning::Array(array)) => Ok(array),
        Some(Meaning::Boxed(array, _)) => Ok(array),
        Some(Meaning::Scalar(_, _)) => Err(DirectiveFault::Line(undeclared)),
        Some(Meaning::Loop(_)) => Err(DirectiveFault::Line(undeclared)),
        None => Err(DirectiveFault::Line(undeclared)),
    }
}

/// How many loops stand around the loop of that name. Another scalar is a `BadBound`, any other name `Undeclared`.
#[tactic(auto, using(crate::proofs::Known::loop_none))]
pub fn loop_level(scope: &Scope<'_>, name: &Name<'_>) -> Result<u32, DirectiveFault>
    ensures told { (us : Uses) → Outcome result (fault_in scope.now
        ((name.now.column, OfLoop name.now.text.now) ∷ us)) (fault_in scope.now us) }
    ensures means { IfOk result (λ n. meaning_of (names_of scope.now) name.now.text.now ≡ Some (meaning.Loop n)) }
{
    let undeclared = LineFault {
        code: ReadCode::Undeclared,
        column: name.column,
    };
    let bad_bound = LineFault {
        code: ReadCode::BadBound,
        column: name.column,
    };
    match scope.meaning(name.text) {
        Some(Meaning::Loop(level)) => Ok(level),
        Some(Meaning::Scalar(_, _)) => Err(DirectiveFault::Line(bad_bound)),
        Some(Meaning::Boxed(_, _)) => Err(DirectiveFault::Line(bad_bound)),
        Some(Meaning::Array(_)) => Err(DirectiveFault::Line(undeclared)),
        None => Err(DirectiveFault::Line(undeclared)),
    }
}
