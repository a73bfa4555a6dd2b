//! The clauses of a directive.

ghost use Rattle.std.specs.Prelude.{◌≡◌, ◌++◌, ◌∷◌, [], IfOk, OnOk};
ghost use Rattle.std.specs.List.{list_any};
ghost use Rattle.c_expressions.specs.Scopes.{names_of};
ghost use Rattle.directives.specs.Names.{Uses, clause_names, device_names, each_names, sections_names};
ghost use Rattle.directives.specs.Reading.{Outcome};
ghost use Rattle.directives.specs.Trees.{device_of};
ghost use Rattle.c_grammar.specs.LineRules.{IsAmong};
ghost use Rattle.c_constructs.specs.Sections.{Grows, IsMapAt, map_given};
ghost use Rattle.c_constructs.specs.Clauses.{AreRead, HasType, HaveTypes, Reads};
ghost use Rattle.c_constructs.specs.Uses.{fault_in};
ghost use Rattle.c_constructs.specs.Written.{IsDevice, is_always, is_present, seen_update, seen_depend as given_depend};
ghost use Rattle.directives.specs.Kinds.{seen_depend, seen_map, seen_modifier, seen_motion};

use crate::items::{depend_items, map_items, update_items};
use crate::map_kind::MapKind;
use crate::names::loop_level;
use base::tree::{DependKind, DeviceId, DeviceText, MapText, Tasking, UpdateKind, UpdateText};
use c_expressions::Scope;
use directives::{
    Clause, DependType, DeviceClause, DirectiveFault, MapClause, Modifier, MotionType,
};
use smallvec::SmallVec;

/// What the clauses of a directive mean.
#[derive(Drop)]
pub struct Clauses<K> {
    pub maps: SmallVec<MapText<K>, 2>,
    pub updates: SmallVec<UpdateText, 2>,
    pub tasking: Tasking,
}

/// Whether `always` is one of its modifiers.
fn is_always(clause: &MapClause<'_>) -> bool
    ensures { result ≡ list_any (λ m. is_always (seen_modifier m)) clause.now.modifiers.items }
{
    clause
        .modifiers
        .iter()
        .any(|one| matches!(one, Modifier::Always))
}

/// Whether `present` is one of its modifiers.
fn is_present(clause: &MapClause<'_>) -> bool
    ensures { result ≡ list_any (λ m. is_present (seen_modifier m)) clause.now.modifiers.items }
{
    clause
        .modifiers
        .iter()
        .any(|one| matches!(one, Modifier::Present))
}

fn depend_kind(depend_type: DependType) -> DependKind
    ensures { given_depend result ≡ seen_depend depend_type }
{
    match depend_type {
        DependType::In => DependKind::In,
        DependType::Out => DependKind::Out,
        DependType::InOut => DependKind::InOut,
    }
}

fn update_kind(motion_type: MotionType) -> UpdateKind
    ensures { seen_update result ≡ seen_motion motion_type }
{
    match motion_type {
        MotionType::To => UpdateKind::To,
        MotionType::From => UpdateKind::From,
    }
}

/// The map items of a clause.
#[tactic(auto, using(directives::proofs::Outcomes::on_from))]
fn map_clause<K: MapKind>(
    scope: &Scope<'_>,
    line: usize,
    clause: &MapClause<'_>,
    maps: &mut SmallVec<MapText<K>, 2>,
) -> Result<(), DirectiveFault>
    requires { IsAmong (seen_map clause.now.map_type) K.types }
    ensures told { (us : Uses) → Outcome result (fault_in scope.now (sections_names clause.now.sections ++ us))
        (fault_in scope.now us) }
    ensures means { OnOk result (Grows (IsMapAt K.seen (names_of scope.now) line) (map_given (Clause.Map clause.now))
        maps.old.items maps.new.items) }
{
    let kind = K::of(clause.map_type);
    let always = is_always(clause);
    let present = is_present(clause);
    map_items(scope, line, kind, always, present, &clause.sections, maps)?;
    Ok(())
}

/// The device of a clause.
#[tactic(auto, using(directives::proofs::Outcomes::on_from))]
fn device_text(scope: &Scope<'_>, device: &DeviceClause<'_>) -> Result<DeviceText, DirectiveFault>
    ensures told { (us : Uses) → Outcome result (fault_in scope.now (device_names device.now ++ us))
        (fault_in scope.now us) }
    ensures means { IfOk result (λ t. IsDevice (names_of scope.now) (device_of device.now) t) }
{
    match device {
        DeviceClause::Fixed(number) => Ok(DeviceText::Fixed(*number)),
        DeviceClause::Looped(name) => {
            loop_level(scope, name).map(|level| DeviceText::LoopName(level))
        }
    }
}

/// One more clause.
#[tactic(auto, using(directives::proofs::Outcomes::on_from))]
fn clause<K: MapKind>(
    scope: &Scope<'_>,
    line: usize,
    clause: &Clause<'_>,
    read: &mut Clauses<K>,
) -> Result<(), DirectiveFault>
    requires { HasType K.types clause.now }
    ensures told { (us : Uses) → Outcome result (fault_in scope.now (clause_names clause.now ++ us))
        (fault_in scope.now us) }
    ensures means { OnOk result (Reads K.seen (names_of scope.now) line (clause.now ∷ []) read.old read.new) }
{
    match clause {
        Clause::Map(map) => map_clause(scope, line, map, &mut read.maps)?,
        Clause::Depend(depend) => {
            let kind = depend_kind(depend.depend_type);
            depend_items(
                scope,
                line,
                kind,
                &depend.sections,
                &mut read.tasking.depends,
            )?;
        }
        Clause::Motion(motion) => {
            let kind = update_kind(motion.motion_type);
            update_items(
                scope,
                line,
                kind,
                motion.present,
                &motion.sections,
                &mut read.updates,
            )?;
        }
        Clause::NoWait => {
            read.tasking.nowait = true;
        }
        Clause::Device(device) => {
            read.tasking.device = device_text(scope, device)?;
        }
        Clause::Amount(_, _) => {}
        Clause::Schedule(_, _) => {}
    }
    Ok(())
}

/// The clauses of a directive on that line of the source.
pub fn all_clauses<K: MapKind>(
    scope: &Scope<'_>,
    line: usize,
    clauses: &[Clause<'_>],
) -> Result<Clauses<K>, DirectiveFault>
    requires { HaveTypes K.types clauses.now }
    ensures told { (us : Uses) → Outcome result (fault_in scope.now (each_names clause_names clauses.now ++ us))
        (fault_in scope.now us) }
    ensures means { IfOk result (λ r. AreRead K.seen (names_of scope.now) line clauses.now r) }
{
    let mut read = Clauses {
        maps: SmallVec::new(scope.alloc),
        updates: SmallVec::new(scope.alloc),
        tasking: Tasking {
            nowait: false,
            depends: SmallVec::new(scope.alloc),
            device: DeviceText::Fixed(DeviceId::default()),
        },
    };
    'clauses: for one in clauses {
        clause(scope, line, one, &mut read)?;
    }
    Ok(read)
}
