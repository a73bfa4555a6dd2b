// The footprints of the regions of a program's items.

ghost use Rattle.std.specs.Prelude.{◌≡◌, ◌<◌, ℕ, [], Ok, Some, IfOk, IfErr, OnOk, length, slice_get};
ghost use Rattle.base.specs.Accepted.{region_faults};
ghost use Rattle.base.specs.Items.{Work, plan};
ghost use Rattle.base.specs.Meaning.{lengths_of};
ghost use Rattle.mapwalk.specs.Footprints.{AreFirstFootprints};
ghost use Rattle.mapwalk.specs.Found.{all_found, told};
ghost use Rattle.mapwalk.specs.Regions.{IsFoundFor};
ghost use Rattle.mapwalk.specs.Repeats.{AreRepeats};
ghost use Rattle.outline.specs.Regions.{entries_of};
ghost use Rattle.outline.specs.Shown.{shown};
ghost use Rattle.ranges.specs.Found.{IsFootprintFault};

use crate::found::{Footprints, Next};
use base::item::Item;
use outline::Outlined;
use ranges::{Footprint, FootprintFault, footprint};
use std::alloc::Global;

/// The cells that the region of an item touches, or none where it has no region. The error is the region's fault of
/// range, or `OutOfMemory` where an allocation fails.
pub fn footprint_of(
    alloc: Global,
    outlined: &Outlined<'_>,
    item: &Item,
) -> Result<Option<Footprint>, FootprintFault>
    ensures found { (w : Work) → shown (entries_of outlined.now) item.now ≡ Some w → IfOk result (IsFoundFor (lengths_of outlined.now) w) }
    ensures fine { (w : Work) → shown (entries_of outlined.now) item.now ≡ Some w → OnOk result (region_faults (lengths_of outlined.now) w.loops w.region ≡ []) }
    ensures fault { (w : Work) → shown (entries_of outlined.now) item.now ≡ Some w → IfErr result (IsFootprintFault (region_faults (lengths_of outlined.now) w.loops w.region)) }
{
    let Some(number) = item.region else {
        return Ok(None);
    };
    let Some(entry) = outlined.regions().get(number as usize) else {
        return Ok(None);
    };
    match footprint(alloc, outlined.program(), entry.region, &item.loops) {
        Ok(found) => Ok(Some(found)),
        Err(fault) => Err(fault),
    }
}

/// The footprint of the region of the first item without one, where these are the footprints of the items before. It is
/// the one of an earlier item where the item repeats that. The error is the region's fault of range, or `OutOfMemory` where
/// an allocation fails.
pub fn next_footprint(
    alloc: Global,
    outlined: &Outlined<'_>,
    repeats: &[Option<usize>],
    found: &Footprints,
) -> Result<Next, FootprintFault>
    requires repeats { AreRepeats (plan outlined.now) repeats.now }
    requires before { AreFirstFootprints (plan outlined.now) (length (all_found found.now)) (all_found found.now) }
    requires inside { length (all_found found.now) < length (plan outlined.now).items }
    ensures inside { (earlier : ℕ) → result ≡ Ok (Next.Shared earlier) → earlier < length (all_found found.now) }
    ensures found { (w : Work) → slice_get (plan outlined.now).items (length (all_found found.now)) ≡ Some w → IfOk result (λ next. IsFoundFor (lengths_of outlined.now) w (told (all_found found.now) next)) }
    ensures fine { (w : Work) → slice_get (plan outlined.now).items (length (all_found found.now)) ≡ Some w → OnOk result (region_faults (lengths_of outlined.now) w.loops w.region ≡ []) }
    ensures fault { (w : Work) → slice_get (plan outlined.now).items (length (all_found found.now)) ≡ Some w → IfErr result (IsFootprintFault (region_faults (lengths_of outlined.now) w.loops w.region)) }
{
    let number = found.len();
    match repeats[number] {
        Some(earlier) => Ok(Next::Shared(earlier)),
        None => match footprint_of(alloc, outlined, &outlined.items()[number]) {
            Ok(own) => Ok(Next::Own(own)),
            Err(fault) => Err(fault),
        },
    }
}
