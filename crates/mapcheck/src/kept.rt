//! What the passes found of a program that is refused.

ghost use Rattle.std.specs.Prelude.{◌≡◌};
ghost use Rattle.base.specs.Items.{plan};
ghost use Rattle.mapcheck.specs.Refusals.{IsFaultOf};
ghost use Rattle.mapwalk.specs.Footprints.{AreFootprints};
ghost use Rattle.mapwalk.specs.Found.{all_found};
ghost use Rattle.mapwalk.specs.Walk.{AreActs, AreCurrent, HasNoRangeFault, IsFirstRefusal, IsSound};
ghost use Rattle.order.specs.Built.{HasNoClash};

use base::fault::{CheckFault, Refusal};
use mapwalk::{Footprints, Walked};
use order::Order;
use outline::Outlined;
use std::marker::Model;

/// What the passes found of a program in which the first two find no fault: the footprint of each item, the order of the
/// items, and what they do one after the other.
#[derive(Drop)]
pub struct Passed<'a> {
    outlined: &'a Outlined<'a>,
    found: Footprints,
    order: Order<'a>,
    walked: Walked,
}

impl<'a> Model for Passed<'a> {
    ghost use Rattle.base.specs.declared.tree.Program.{Program};
    ghost use Rattle.base.specs.contracts.tree.Program as code;
    ghost use Rattle.base.specs.Items.{plan};
    ghost use Rattle.mapwalk.specs.Found.{all_found};
    ghost use Rattle.mapcheck.specs.Kept.{AreKept};

    ghost Value = { Program };

    ghost coded = { code.the_row.coded };

    ghost view = { λ p. p.outlined.now };

    ghost invariant = { λ p. AreKept p.outlined.now p.order (all_found p.found) p.walked };
}

impl<'a> Passed<'a> {
    pub(crate) fn new(
        outlined: &'a Outlined<'a>,
        found: Footprints,
        order: Order<'a>,
        walked: Walked,
    ) -> Passed<'a>
        requires order { order ≡ outlined.now }
        requires fine { HasNoRangeFault (plan outlined.now) }
        requires clashes { HasNoClash (plan outlined.now) }
        requires found { AreFootprints (plan outlined.now) (all_found found) }
        requires acts { AreActs (plan outlined.now) walked }
        requires first { IsFirstRefusal (plan outlined.now) walked.fault }
        requires sound { IsSound (plan outlined.now) walked.fault }
        requires current { AreCurrent (plan outlined.now) walked }
        ensures { result ≡ outlined.now }
    {
        Passed {
            outlined,
            found,
            order,
            walked,
        }
    }

    /// The program with its regions and its items.
    pub fn outlined(&self) -> &'a Outlined<'a>
        ensures { result.now ≡ self.now }
    {
        self.outlined
    }

    /// The footprint of each item's region.
    pub fn found(&self) -> &Footprints
        ensures fine { HasNoRangeFault (plan self.now) }
        ensures found { AreFootprints (plan self.now) (all_found result.now) }
    {
        &self.found
    }

    /// Which item is before which.
    pub fn order(&self) -> &Order<'a>
        ensures clashes { HasNoClash (plan self.now) }
        ensures order { result.now ≡ self.now }
    {
        &self.order
    }

    /// What the items do, one after the other, up to the first that is refused by itself.
    pub fn walked(&self) -> &Walked
        ensures acts { AreActs (plan self.now) result.now }
        ensures first { IsFirstRefusal (plan self.now) result.now.fault }
        ensures sound { IsSound (plan self.now) result.now.fault }
        ensures current { AreCurrent (plan self.now) result.now }
    {
        &self.walked
    }
}

/// A program that is refused.
#[derive(Drop)]
pub enum Refused<'a> {
    /// By one of the first two passes, or for want of memory.
    Early(CheckFault),
    /// By the third pass, with what the passes found.
    Walked(Refusal, Passed<'a>),
}

impl Refused<'_> {
    /// The first fault of the program.
    pub fn fault(&self) -> CheckFault
        ensures { IsFaultOf self.now result }
    {
        match self {
            Refused::Early(fault) => *fault,
            Refused::Walked(refusal, _) => CheckFault::Refused(*refusal),
        }
    }
}
