//! Which item of a program is before which.
#![tactic(auto)]

ghost use Rattle.std.specs.Prelude.{◌≡◌, ◌↔◌, IsTrue, IfOk, IfErr, OnOk};
ghost use Rattle.base.specs.Items.{plan};
ghost use Rattle.base.specs.Accepted.{SectionsFit};
ghost use Rattle.base.specs.Order.{Before, IsAfterAll};
ghost use Rattle.order.specs.Built.{HasNoClash, IsBuildFault};

use crate::clash::first_clash;
use crate::rows::{Row, rows_of};
use base::fault::OrderFault;
use base::tree::Program;
use outline::Outlined;
use std::alloc::{AllocError, Global};
use std::marker::Model;
use thiserror::Error;

mod apart;
mod clash;
mod rows;
mod touches;

/// Why a program has no order.
#[derive(Clone, Copy, Debug, Error)]
pub enum OrderBuildFault {
    #[error(transparent)]
    Clash(OrderFault),
    #[error("F1")]
    OutOfMemory,
}

impl From<AllocError> for OrderBuildFault {
    ghost use Rattle.std.specs.Prelude.{◌≡◌};
    ghost use Rattle.order.specs.declared.OrderBuildFault.TheVariants.{OutOfMemory};

    ghost from_gives = { λ _ e. e ≡ OutOfMemory };

    fn from(_error: AllocError) -> OrderBuildFault {
        OrderBuildFault::OutOfMemory
    }
}

/// Which item of a program is before which: an item that is not deferred is before all later ones, and a predecessor is
/// before its successor (OpenMP API 5.2, sections 15.5 and 15.9.5).
#[derive(Drop)]
pub struct Order<'p> {
    program: &'p Program,
    // For each item those that it is before.
    rows: Vec<Row>,
}

impl<'p> Model for Order<'p> {
    ghost use Rattle.base.specs.declared.tree.Program.{Program};
    ghost use Rattle.base.specs.contracts.tree.Program as code;
    ghost use Rattle.base.specs.Items.{plan};
    ghost use Rattle.order.specs.Rows.{IsOrder};

    ghost Value = { Program };

    ghost coded = { code.the_row.coded };

    ghost view = { λ o. o.program.now };

    ghost invariant = { λ o. IsOrder (plan o.program.now) o.rows.items };
}

impl<'p> Order<'p> {
    /// The order of a program's items. The error is `Clash` (E505) where depend items of two items overlap without being
    /// identical: at the least later item, then the least earlier one, then the least cell of such an overlap, by array
    /// and then by index. It is `OutOfMemory` where an allocation fails.
    ///
    /// It sorts the sections of the depend items, and takes memory for each. Of a depend item of a deferred item it asks
    /// the later items with the same section, up to the first that writes it. A deferred item with a `depend` clause takes
    /// besides a bit for each later item up to the last that it is before, where others stand between them that it is not
    /// before. Only where two sections overlap without being identical does it take time for each pair of items of which
    /// one has a `depend` clause.
    pub fn build(alloc: Global, outlined: &Outlined<'p>) -> Result<Order<'p>, OrderBuildFault>
        requires { SectionsFit (plan outlined.now) }
        ensures program { IfOk result (λ o. o ≡ outlined.now) }
        ensures fine { OnOk result (HasNoClash (plan outlined.now)) }
        ensures fault { IfErr result (IsBuildFault (plan outlined.now)) }
    {
        let items = outlined.items();
        if let Some(fault) = first_clash(alloc, items)? {
            return Err(OrderBuildFault::Clash(fault));
        }
        Ok(Order {
            program: outlined.program(),
            rows: rows_of(alloc, items)?,
        })
    }

    /// Whether item `i` is before item `j`; a number past the last item is before none, and none is before it. It takes
    /// a few steps, however many items there are.
    pub fn before(&self, i: u32, j: u32) -> bool
        ensures { IsTrue result ↔ Before (plan self.now) i j }
    {
        match self.rows.get(i as usize) {
            None => false,
            Some(row) => (j as usize) < self.rows.len() && row.has(j as usize),
        }
    }

    /// The least place from which on every item follows item `i`; the number of items where `i` is past the last. It
    /// takes no memory, and a few steps.
    pub fn after_all(&self, i: u32) -> u32
        ensures { IsAfterAll (plan self.now) i result }
    {
        match self.rows.get(i as usize) {
            None => self.rows.len() as u32,
            Some(row) => row.place as u32,
        }
    }
}
