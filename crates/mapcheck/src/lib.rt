//! Which programs are accepted: the three passes of the checker, and its answer.
#![tactic(auto)]

ghost use Rattle.std.specs.Prelude.{◌≡◌, IfOk, IfErr};
ghost use Rattle.base.specs.Accepted.{IsAccepted};
ghost use Rattle.base.specs.Items.{plan};
ghost use Rattle.mapcheck.specs.Accepting.{FaultlessIsAccepted};
ghost use Rattle.mapcheck.specs.Refusals.{IsRefusalOf};
ghost use Rattle.mapcheck.specs.Passes.{IsCheckFault};
ghost use Rattle.mapcheck.specs.Reaches.{AreReaches};
ghost use Rattle.mapcheck.specs.Third.{AreMarked, AreOrdered};

use crate::passes::first_passes;
use crate::reaches::reaches;
use crate::third::third_pass;
use base::fault::CheckFault;
use base::item::Section;
use base::tree::ArrayId;
use mapwalk::{Walked, repeats, walk};
use outline::Outlined;
use std::alloc::{AllocError, Global};
use std::marker::Model;

pub mod accesses;
pub mod conflict;
mod items;
mod kept;
mod noted;
pub mod passes;
mod reaches;
mod rows;
mod segments;
mod third;
pub mod unordered;

pub use crate::kept::{Passed, Refused};

/// An accepted program: no fault of range, no two depend items that overlap without being identical, no item that is
/// refused, and of each two items that conflict the earlier is before the later.
#[derive(Drop)]
pub struct Accepted<'a> {
    outlined: &'a Outlined<'a>,
    current: Vec<ArrayId>,
    // Of each item.
    reaches: Vec<Vec<Section>>,
}

impl<'a> Model for Accepted<'a> {
    ghost use Rattle.base.specs.declared.tree.Program.{Program};
    ghost use Rattle.base.specs.contracts.tree.Program as code;
    ghost use Rattle.base.specs.Items.{plan};
    ghost use Rattle.mapcheck.specs.Reaches.{IsKnown};

    ghost Value = { Program };

    ghost coded = { code.the_row.coded };

    ghost view = { λ a. a.outlined.now };

    ghost invariant = { λ a. IsKnown (plan a.outlined.now) a.current.items a.reaches.items };
}

impl<'a> Accepted<'a> {
    /// The program with its regions and its items.
    pub fn outlined(&self) -> &'a Outlined<'a>
        ensures { result.now ≡ self.now }
    {
        self.outlined
    }

    /// The arrays marked current, in ascending order: each of their cells is current on the host at the end.
    pub fn current(&self) -> &[ArrayId]
        ensures { AreMarked (plan self.now) result.now }
    {
        &self.current
    }

    /// For each item and each array the least run of cells that has all which the item's region may touch, of length 0
    /// where it touches none.
    pub fn reaches(&self) -> &[Vec<Section>]
        ensures { AreReaches (plan self.now) result.now }
    {
        &self.reaches
    }

    /// The program is accepted.
    pub fn is_accepted(&self)
        ensures accepted { IsAccepted (plan self.now) }
        ensures ordered { AreOrdered (plan self.now) }
    {
        let _ = &self.outlined;
    }
}

/// Decides in three passes whether a program is accepted. The fault is the first one: of the first pass the range fault
/// of the least item (E302, E303, E301); of the second the least pair of depend items that overlap in part (E505); of
/// the third the refusal of the least item, by its code, its cell and the other item (E501 to E503, E509, E504, E506 to
/// E508). What the passes found is kept for who tells of a refusal by the third. `OutOfMemory` is answered where an
/// allocation fails.
///
/// It takes time for each turn of a region that is walked for its footprint, once for all of its items that have the same
/// values of those loops around it that it names in a subscript or in a condition; for each cell that an item's region
/// touches, and for what earlier items do with the cells that an item touches, as `first_conflict` says; and memory for
/// the cells that each footprint has.
pub fn checked<'a>(alloc: Global, outlined: &'a Outlined<'a>) -> Result<Accepted<'a>, Refused<'a>>
    ensures accepted { IfOk result (λ a. a ≡ outlined.now) }
    ensures refused { IfErr result (IsRefusalOf outlined.now) }
{
    let Ok(repeats) = repeats(alloc, outlined) else {
        return Err(Refused::Early(CheckFault::OutOfMemory));
    };
    let (found, order) = match first_passes(alloc, outlined, &repeats) {
        Ok(passed) => passed,
        Err(fault) => return Err(Refused::Early(fault)),
    };
    let Ok(walked) = walk(alloc, outlined, &found) else {
        return Err(Refused::Early(CheckFault::OutOfMemory));
    };
    match third_pass(alloc, outlined, &found, &order, &walked) {
        Err(_) => Err(Refused::Early(CheckFault::OutOfMemory)),
        Ok(Some(refusal)) => Err(Refused::Walked(
            refusal,
            Passed::new(outlined, found, order, walked),
        )),
        Ok(None) => match reaches(alloc, outlined, &repeats, &found) {
            Err(_) => Err(Refused::Early(CheckFault::OutOfMemory)),
            Ok(reaches) => {
                let Walked { current, .. } = walked;
                Ok(Accepted {
                    outlined,
                    current,
                    reaches,
                })
            }
        },
    }
}

/// Decides whether a program is accepted, as `checked` does, and answers of a refusal the fault alone.
pub fn check<'a>(alloc: Global, outlined: &'a Outlined<'a>) -> Result<Accepted<'a>, CheckFault>
    ensures accepted { IfOk result (λ a. a ≡ outlined.now) }
    ensures fault { IfErr result (IsCheckFault (plan outlined.now)) }
{
    match checked(alloc, outlined) {
        Ok(accepted) => Ok(accepted),
        Err(refused) => Err(refused.fault()),
    }
}

/// The arrays all of whose cells are current on the host at the end, in ascending order. The error comes where an
/// allocation fails.
pub fn current_at_end(alloc: Global, accepted: &Accepted<'_>) -> Result<Vec<ArrayId>, AllocError>
    ensures { IfOk result (λ arrays. AreMarked (plan accepted.now) arrays.items) }
{
    Vec::from_slice(alloc, accepted.current())
}

/// A program with no fault of any of the three passes is accepted: of each two items that conflict, the earlier is before
/// the later.
pub fn faultless_is_accepted()
    ensures { FaultlessIsAccepted }
{}
