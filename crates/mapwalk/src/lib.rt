//! The walk over the items of a program in program order: what each map item does on the present table (OpenMP API 5.2,
//! sections 5.8.3 and 1.2.6), which cells are current, and the first item that is refused by itself.
#![tactic(auto)]

ghost use Rattle.std.specs.Prelude.{◌≡◌, [], IfOk};
ghost use Rattle.base.specs.Items.{plan};
ghost use Rattle.mapwalk.specs.Causes.{refusal_of};
ghost use Rattle.mapwalk.specs.Footprints.{AreFootprints};
ghost use Rattle.mapwalk.specs.Found.{all_found};
ghost use Rattle.mapwalk.specs.Laws.{ActsAreActions, StagesAreSpelled, TargetsKeepBlocks};
ghost use Rattle.mapwalk.specs.Walk.{AreActs, AreCurrent, HasNoRangeFault, IsFirstRefusal, IsSound};

pub use crate::alike::repeats;
use crate::causes::Cause;
pub use crate::footprints::{footprint_of, next_footprint};
pub use crate::found::{Footprints, Next};
use crate::heads::{Heads, copy_rows};
pub use crate::rows::Acts;
use crate::state::State;
use crate::steps::Step;
use base::fault::Refusal;
use base::tree::ArrayId;
use outline::Outlined;
use std::alloc::{AllocError, Global};

mod alike;
mod blocks;
mod causes;
mod current;
mod footprints;
mod found;
mod heads;
mod likeness;
mod marking;
mod marks;
mod numbered;
mod ordered;
mod region;
mod rows;
mod seen;
mod snapshot;
mod spots;
mod state;
mod steps;
mod table;

/// What the walk finds.
#[derive(Drop)]
pub struct Walked {
    /// A row for each item before the one that is refused, or for each item: what each of its map items does, in order.
    pub acts: Vec<Vec<Acts>>,
    /// Where no item is refused, the arrays of which each cell is current on the host at the end, in ascending order.
    pub current: Vec<ArrayId>,
    /// The first refusal of an item by itself, which is no conflict. Its item counts from 0.
    pub fault: Option<Refusal>,
}

/// Does the items of a program one after the other on an abstract present table, with the footprint of each item's region.
/// Where blocks, counts and current cells before a turn of a loop of directives are those before the turn just before, and
/// the loop's name decides nothing in it, the rest of the turns are not walked: they repeat that one. The error comes where
/// an allocation fails.
pub fn walk(
    alloc: Global,
    outlined: &Outlined<'_>,
    found: &Footprints,
) -> Result<Walked, AllocError>
    requires fine { HasNoRangeFault (plan outlined.now) }
    requires found { AreFootprints (plan outlined.now) (all_found found.now) }
    ensures acts { IfOk result (λ w. AreActs (plan outlined.now) w) }
    ensures fault { IfOk result (λ w. IsFirstRefusal (plan outlined.now) w.fault) }
    ensures sound { IfOk result (λ w. IsSound (plan outlined.now) w.fault) }
    ensures current { IfOk result (λ w. AreCurrent (plan outlined.now) w) }
{
    let items = outlined.items();
    let mut state = State::new(alloc, outlined)?;
    let mut heads = Heads::new(alloc);
    let mut acts = Vec::new(alloc);
    'items: for number in 0..items.len() {
        let earlier = heads.note(&items[number], found, number)?;
        if number < acts.len() {
            // It repeats an item whose row was copied.
            continue;
        }
        heads.look(items, found, number, earlier, &state)?;
        if let Some(period) = heads.turn(items, found, number) {
            copy_rows(alloc, &mut acts, period)?;
            continue;
        }
        match state.step(&items[number], found.get(number))? {
            Step::Done(row) => acts.push(row)?,
            Step::Refused(cause) => {
                let fault = refusal(cause, number as u32);
                return Ok(Walked {
                    acts,
                    current: Vec::new(alloc),
                    fault: Some(fault),
                });
            }
        }
    }
    let current = state.current()?;
    Ok(Walked {
        acts,
        current,
        fault: None,
    })
}

// The refusal of an item by itself.
fn refusal(cause: Cause, item: u32) -> Refusal
    ensures { result ≡ refusal_of cause item }
{
    Refusal {
        code: cause.code,
        item,
        cell: cause.cell,
        other: None,
    }
}

/// What an item does is spelled out by the row of its map items, where none of these meets a block in part, or is absent
/// and to be present.
pub fn acts_are_actions()
    ensures { ActsAreActions }
{}

/// A target's exits are of the blocks of its entries, where none of these meets a block in part, or is absent and to be
/// present.
pub fn targets_keep_blocks()
    ensures { TargetsKeepBlocks }
{}

/// What an item of a program without a fault of range does is spelled out by the row of its map items, where it is refused
/// neither with E501 nor with E509.
pub fn stages_are_spelled()
    ensures { StagesAreSpelled }
{}
