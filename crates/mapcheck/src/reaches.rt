// The cells that the region of each item may touch, as runs of cells of the arrays.

ghost use Rattle.std.specs.Prelude.{◌≡◌, ◌<◌, IfOk, Some, length, slice_get};
ghost use Rattle.base.specs.Items.{Work, plan};
ghost use Rattle.base.specs.Meaning.{lengths_of};
ghost use Rattle.mapcheck.specs.Reaches.{AreFirstReaches, AreReaches, IsReach};
ghost use Rattle.mapwalk.specs.Footprints.{AreFootprints};
ghost use Rattle.mapwalk.specs.Found.{all_found};
ghost use Rattle.mapwalk.specs.Regions.{IsFootprintOf};
ghost use Rattle.mapwalk.specs.Repeats.{AreRepeats};

use base::item::Section;
use mapwalk::Footprints;
use outline::Outlined;
use ranges::{Footprint, no_reach, reach};
use std::alloc::{AllocError, Global};

// Of an item with this footprint.
fn item_reach(
    alloc: Global,
    outlined: &Outlined<'_>,
    found: &Option<Footprint>,
) -> Result<Vec<Section>, AllocError>
    ensures { (w : Work) → IsFootprintOf w found.now → IfOk result (λ runs. IsReach (lengths_of outlined.now) w runs.items) }
{
    match found {
        None => no_reach(alloc, outlined.lengths()),
        Some(footprint) => reach(alloc, outlined.lengths(), footprint),
    }
}

// Of the first item without runs, where these are the runs of the items before. They are copied where the item repeats
// an earlier one.
fn next_reach(
    alloc: Global,
    outlined: &Outlined<'_>,
    repeats: &[Option<usize>],
    found: &Footprints,
    before: &[Vec<Section>],
) -> Result<Vec<Section>, AllocError>
    requires repeats { AreRepeats (plan outlined.now) repeats.now }
    requires found { AreFootprints (plan outlined.now) (all_found found.now) }
    requires before { AreFirstReaches (plan outlined.now) (length before.now) before.now }
    requires inside { length before.now < length (plan outlined.now).items }
    ensures { (w : Work) → slice_get (plan outlined.now).items (length before.now) ≡ Some w → IfOk result (λ runs. IsReach (lengths_of outlined.now) w runs.items) }
{
    let number = before.len();
    match repeats[number] {
        Some(earlier) => Vec::from_slice(alloc, &before[earlier]),
        None => item_reach(alloc, outlined, found.get(number)),
    }
}

/// Of each item, from the footprints of their regions.
pub fn reaches(
    alloc: Global,
    outlined: &Outlined<'_>,
    repeats: &[Option<usize>],
    found: &Footprints,
) -> Result<Vec<Vec<Section>>, AllocError>
    requires repeats { AreRepeats (plan outlined.now) repeats.now }
    requires found { AreFootprints (plan outlined.now) (all_found found.now) }
    ensures { IfOk result (λ all. AreReaches (plan outlined.now) all.items) }
{
    let mut all: Vec<Vec<Section>> = Vec::new(alloc);
    'items: for _ in 0..outlined.items().len() {
        all.push(next_reach(alloc, outlined, repeats, found, &all)?)?;
    }
    Ok(all)
}
