//! The sections of a line.

ghost use Rattle.std.specs.Prelude.{◌≡◌, ◌++◌, IfOk};
ghost use Rattle.c_expressions.specs.Scopes.{names_of};
ghost use Rattle.directives.specs.Names.{Uses, bounds_names, section_names};
ghost use Rattle.directives.specs.Reading.{Outcome};
ghost use Rattle.directives.specs.Trees.{bounds_of};
ghost use Rattle.c_constructs.specs.Sections.{IsSectionAt};
ghost use Rattle.c_constructs.specs.Uses.{fault_in};
ghost use Rattle.c_constructs.specs.Written.{AreBounds};

use crate::bounds::bound;
use crate::names::array;
use base::tree::{self, Place, SectionText};
use c_expressions::Scope;
use directives::{Bound, DirectiveFault, Section};

/// What the bounds of a section mean.
#[tactic(auto, using(directives::proofs::Outcomes::on_from, crate::proofs::NameSteps::two_names))]
pub fn bounds(
    scope: &Scope<'_>,
    bounds: &Option<(Bound<'_>, Bound<'_>)>,
) -> Result<Option<(tree::Bound, tree::Bound)>, DirectiveFault>
    ensures told { (us : Uses) → Outcome result (fault_in scope.now (bounds_names bounds.now ++ us))
        (fault_in scope.now us) }
    ensures means { IfOk result (λ b. AreBounds (names_of scope.now) (bounds_of bounds.now) b) }
{
    match bounds {
        None => Ok(None),
        Some((first, length)) => {
            let first = bound(scope, first)?;
            bound(scope, length).map(|length| Some((first, length)))
        }
    }
}

/// What a section on that line of the source means.
#[tactic(auto, using(directives::proofs::Outcomes::on_from))]
pub fn section(
    scope: &Scope<'_>,
    line: usize,
    section: &Section<'_>,
) -> Result<SectionText, DirectiveFault>
    ensures told { (us : Uses) → Outcome result (fault_in scope.now (section_names section.now ++ us))
        (fault_in scope.now us) }
    ensures means { IfOk result (λ t. IsSectionAt (names_of scope.now) line section.now t) }
{
    let array = array(scope, &section.array)?;
    let bounds = bounds(scope, &section.bounds)?;
    Ok(SectionText {
        array,
        bounds,
        place: Place {
            line,
            column: section.array.column,
        },
    })
}
