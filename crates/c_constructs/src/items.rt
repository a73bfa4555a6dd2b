//! The items of clauses.

ghost use Rattle.std.specs.Prelude.{◌≡◌, ◌++◌, ◌∷◌, [], OnOk};
ghost use Rattle.c_expressions.specs.Scopes.{names_of};
ghost use Rattle.directives.specs.Names.{Uses, section_names, sections_names};
ghost use Rattle.directives.specs.Reading.{Outcome};
ghost use Rattle.c_constructs.specs.Sections.{Grows, IsMapAt, IsUpdateAt, IsDependAt, given, given_one};
ghost use Rattle.c_constructs.specs.Uses.{fault_in};
ghost use Rattle.c_constructs.specs.Written.{seen_update, seen_depend as depend_seen};

use crate::map_kind::MapKind;
use crate::sections::section;
use base::tree::{DependKind, DependText, MapText, UpdateKind, UpdateText};
use c_expressions::Scope;
use directives::{DirectiveFault, Section, Sections};
use smallvec::SmallVec;

/// One more map item.
fn map_item<K: MapKind>(
    scope: &Scope<'_>,
    line: usize,
    kind: K,
    always: bool,
    present: bool,
    one: &Section<'_>,
    maps: &mut SmallVec<MapText<K>, 2>,
) -> Result<(), DirectiveFault>
    ensures told { (us : Uses) → Outcome result (fault_in scope.now (section_names one.now ++ us))
        (fault_in scope.now us) }
    ensures means { OnOk result (Grows (IsMapAt K.seen (names_of scope.now) line)
        (given_one (always, present, K.seen kind) one.now ∷ []) maps.old.items maps.new.items) }
{
    let section = section(scope, line, one)?;
    maps.push(MapText {
        kind,
        always,
        present,
        section,
    })?;
    Ok(())
}

/// The map items of a clause.
pub fn map_items<K: MapKind>(
    scope: &Scope<'_>,
    line: usize,
    kind: K,
    always: bool,
    present: bool,
    sections: &Sections<'_>,
    maps: &mut SmallVec<MapText<K>, 2>,
) -> Result<(), DirectiveFault>
    ensures told { (us : Uses) → Outcome result (fault_in scope.now (sections_names sections.now ++ us))
        (fault_in scope.now us) }
    ensures means { OnOk result (Grows (IsMapAt K.seen (names_of scope.now) line)
        (given (always, present, K.seen kind) sections.now) maps.old.items maps.new.items) }
{
    map_item(scope, line, kind, always, present, &sections.first, maps)?;
    'sections: for one in &sections.more {
        map_item(scope, line, kind, always, present, one, maps)?;
    }
    Ok(())
}

/// One more update.
#[tactic(auto, using(directives::proofs::Outcomes::on_from, crate::proofs::Growing::grows_update))]
fn update_item(
    scope: &Scope<'_>,
    line: usize,
    kind: UpdateKind,
    present: bool,
    one: &Section<'_>,
    updates: &mut SmallVec<UpdateText, 2>,
) -> Result<(), DirectiveFault>
    ensures told { (us : Uses) → Outcome result (fault_in scope.now (section_names one.now ++ us))
        (fault_in scope.now us) }
    ensures means { OnOk result (Grows (IsUpdateAt (names_of scope.now) line)
        (given_one (present, seen_update kind) one.now ∷ []) updates.old.items updates.new.items) }
{
    let section = section(scope, line, one)?;
    updates.push(UpdateText {
        kind,
        present,
        section,
    })?;
    Ok(())
}

/// The sections of a clause of an update.
pub fn update_items(
    scope: &Scope<'_>,
    line: usize,
    kind: UpdateKind,
    present: bool,
    sections: &Sections<'_>,
    updates: &mut SmallVec<UpdateText, 2>,
) -> Result<(), DirectiveFault>
    ensures told { (us : Uses) → Outcome result (fault_in scope.now (sections_names sections.now ++ us))
        (fault_in scope.now us) }
    ensures means { OnOk result (Grows (IsUpdateAt (names_of scope.now) line)
        (given (present, seen_update kind) sections.now) updates.old.items updates.new.items) }
{
    update_item(scope, line, kind, present, &sections.first, updates)?;
    'sections: for one in &sections.more {
        update_item(scope, line, kind, present, one, updates)?;
    }
    Ok(())
}

/// One more depend item.
#[tactic(auto, using(directives::proofs::Outcomes::on_from, crate::proofs::Growing::grows_depend))]
fn depend_item(
    scope: &Scope<'_>,
    line: usize,
    kind: DependKind,
    one: &Section<'_>,
    depends: &mut SmallVec<DependText, 2>,
) -> Result<(), DirectiveFault>
    ensures told { (us : Uses) → Outcome result (fault_in scope.now (section_names one.now ++ us))
        (fault_in scope.now us) }
    ensures means { OnOk result (Grows (IsDependAt (names_of scope.now) line)
        (given_one (depend_seen kind) one.now ∷ []) depends.old.items depends.new.items) }
{
    let section = section(scope, line, one)?;
    depends.push(DependText { kind, section })?;
    Ok(())
}

/// The depend items of a clause.
pub fn depend_items(
    scope: &Scope<'_>,
    line: usize,
    kind: DependKind,
    sections: &Sections<'_>,
    depends: &mut SmallVec<DependText, 2>,
) -> Result<(), DirectiveFault>
    ensures told { (us : Uses) → Outcome result (fault_in scope.now (sections_names sections.now ++ us))
        (fault_in scope.now us) }
    ensures means { OnOk result (Grows (IsDependAt (names_of scope.now) line)
        (given (depend_seen kind) sections.now) depends.old.items depends.new.items) }
{
    depend_item(scope, line, kind, &sections.first, depends)?;
    'sections: for one in &sections.more {
        depend_item(scope, line, kind, one, depends)?;
    }
    Ok(())
}
