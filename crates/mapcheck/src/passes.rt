// The passes, one after the other.

ghost use Rattle.std.specs.Prelude.{◌≡◌, ◌<◌, ℕ, [], Ok, Some, IfOk, OnOk, IfErr, length, slice_get};
ghost use Rattle.base.specs.Accepted.{range_faults};
ghost use Rattle.base.specs.Items.{Work, plan};
ghost use Rattle.base.specs.Meaning.{lengths_of};
ghost use Rattle.mapcheck.specs.Passes.{IsCheckFault};
ghost use Rattle.mapwalk.specs.Footprints.{AreFirstFootprints, AreFootprints};
ghost use Rattle.mapwalk.specs.Found.{all_found, told};
ghost use Rattle.mapwalk.specs.Regions.{IsFoundFor};
ghost use Rattle.mapwalk.specs.Repeats.{AreRepeats};
ghost use Rattle.mapwalk.specs.Walk.{HasNoRangeFault};
ghost use Rattle.order.specs.Built.{HasNoClash};
ghost use Rattle.ranges.specs.Found.{IsFootprintFault};

use base::fault::CheckFault;
use mapwalk::{Footprints, Next, next_footprint};
use order::{Order, OrderBuildFault};
use outline::Outlined;
use ranges::{FootprintFault, sections};
use std::alloc::Global;

// The footprint of the region of the first item without one, or the item's first fault of range.
fn item_footprint(
    alloc: Global,
    outlined: &Outlined<'_>,
    repeats: &[Option<usize>],
    found: &Footprints,
) -> Result<Next, FootprintFault>
    requires repeats { AreRepeats (plan outlined.now) repeats.now }
    requires before { AreFirstFootprints (plan outlined.now) (length (all_found found.now)) (all_found found.now) }
    requires inside { length (all_found found.now) < length (plan outlined.now).items }
    ensures inside { (earlier : ℕ) → result ≡ Ok (Next.Shared earlier) → earlier < length (all_found found.now) }
    ensures found { (w : Work) → slice_get (plan outlined.now).items (length (all_found found.now)) ≡ Some w → IfOk result (λ next. IsFoundFor (lengths_of outlined.now) w (told (all_found found.now) next)) }
    ensures fine { (w : Work) → slice_get (plan outlined.now).items (length (all_found found.now)) ≡ Some w → OnOk result (range_faults (lengths_of outlined.now) w ≡ []) }
    ensures fault { (w : Work) → slice_get (plan outlined.now).items (length (all_found found.now)) ≡ Some w → IfErr result (IsFootprintFault (range_faults (lengths_of outlined.now) w)) }
{
    let item = &outlined.items()[found.len()];
    match sections(outlined.program(), item) {
        Err(fault) => Err(FootprintFault::Range(fault)),
        Ok(()) => next_footprint(alloc, outlined, repeats, found),
    }
}

// Why an item has no footprint.
fn range_fault(item: u32, fault: FootprintFault) -> CheckFault
    ensures { result ≡ Rattle.mapcheck.specs.Passes.range_fault item fault }
{
    match fault {
        FootprintFault::Range(fault) => CheckFault::Range { item, fault },
        FootprintFault::OutOfMemory => CheckFault::OutOfMemory,
    }
}

/// The first pass: the footprint of each item's region, where these are the items that repeat earlier ones. The error is
/// the first fault of range: of the least item that has one, E302, E303 or E301 at its least place; or `OutOfMemory`
/// where an allocation fails.
pub fn footprints_of(
    alloc: Global,
    outlined: &Outlined<'_>,
    repeats: &[Option<usize>],
) -> Result<Footprints, CheckFault>
    requires { AreRepeats (plan outlined.now) repeats.now }
    ensures found { IfOk result (λ found. AreFootprints (plan outlined.now) (all_found found)) }
    ensures fine { OnOk result (HasNoRangeFault (plan outlined.now)) }
    ensures fault { IfErr result (IsCheckFault (plan outlined.now)) }
{
    let mut found = Footprints::new(alloc);
    'items: for number in 0..outlined.items().len() {
        match item_footprint(alloc, outlined, repeats, &found) {
            Err(fault) => return Err(range_fault(number as u32, fault)),
            Ok(next) => {
                let Ok(()) = found.push(next) else {
                    return Err(CheckFault::OutOfMemory);
                };
            }
        }
    }
    Ok(found)
}

/// The second pass: the order. The error is the first pair of depend items that overlap without being identical (E505);
/// or `OutOfMemory` where an allocation fails.
pub fn order_of<'p>(alloc: Global, outlined: &Outlined<'p>) -> Result<Order<'p>, CheckFault>
    requires { HasNoRangeFault (plan outlined.now) }
    ensures program { IfOk result (λ o. o ≡ outlined.now) }
    ensures clashes { OnOk result (HasNoClash (plan outlined.now)) }
    ensures fault { IfErr result (IsCheckFault (plan outlined.now)) }
{
    match Order::build(alloc, outlined) {
        Ok(order) => Ok(order),
        Err(OrderBuildFault::Clash(fault)) => Err(CheckFault::Order(fault)),
        Err(OrderBuildFault::OutOfMemory) => Err(CheckFault::OutOfMemory),
    }
}

/// The first two passes: the footprint of each item's region, and the order. The error is the first fault of the first of
/// them that finds one.
pub fn first_passes<'p>(
    alloc: Global,
    outlined: &Outlined<'p>,
    repeats: &[Option<usize>],
) -> Result<(Footprints, Order<'p>), CheckFault>
    requires { AreRepeats (plan outlined.now) repeats.now }
    ensures found { IfOk result (λ passed. AreFootprints (plan outlined.now) (all_found passed.0)) }
    ensures fine { OnOk result (HasNoRangeFault (plan outlined.now)) }
    ensures program { IfOk result (λ passed. passed.1 ≡ outlined.now) }
    ensures clashes { OnOk result (HasNoClash (plan outlined.now)) }
    ensures fault { IfErr result (IsCheckFault (plan outlined.now)) }
{
    let found = footprints_of(alloc, outlined, repeats)?;
    let order = order_of(alloc, outlined)?;
    Ok((found, order))
}
