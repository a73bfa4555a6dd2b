// What the region of an item needs and does.

ghost use Rattle.std.specs.Prelude.{◌≡◌, ◌<◌, ◌^◌, List, Some, length, IfNone, IfSome};
ghost use Rattle.base.specs.Items.{Work};
ghost use Rattle.base.specs.Current.{Current, after_actions};
ghost use Rattle.outline.specs.Regions.{Entry};
ghost use Rattle.outline.specs.Shown.{shown};
ghost use Rattle.mapwalk.specs.Causes.{IsFirstOf, region_causes};
ghost use Rattle.mapwalk.specs.Current.{marks_in, row_lengths};
ghost use Rattle.mapwalk.specs.Regions.{AreTouches, IsFootprintOf, IsWithin, region_actions};
ghost use Rattle.mapwalk.specs.Sides.{shown_by};

use crate::causes::{Cause, least_stale, least_unmapped};
use crate::current::run_on;
use crate::marks::Marks;
use base::fault::RefusalCode;
use base::item::{Item, ItemKind, MapItem};
use ranges::Footprint;

// Why a region on the host is refused.
fn host_cause(f: &Footprint, host: &[Marks]) -> Option<Cause>
    requires few { length host.now < 2 ^ 32 }
    requires inside { IsWithin (row_lengths host.now) f.now }
    ensures { (w : Work) (k : Current) → w.kind ≡ ItemKind.Host → k.host ≡ marks_in host.now → AreTouches w f.now → IsFirstOf (region_causes w k) result }
{
    match least_stale(&f.exposed, host) {
        None => None,
        Some(cell) => Some(Cause {
            code: RefusalCode::HostNotCurrent,
            cell,
        }),
    }
}

// Why a kernel is refused.
fn kernel_cause(f: &Footprint, maps: &[MapItem], device: &[Marks]) -> Option<Cause>
    requires few { length device.now < 2 ^ 32 }
    requires inside { IsWithin (row_lengths device.now) f.now }
    ensures { (w : Work) (k : Current) → w.kind ≡ ItemKind.Target → k.device ≡ marks_in device.now → w.maps ≡ maps.now → AreTouches w f.now → IsFirstOf (region_causes w k) result }
{
    if let Some(cell) = least_unmapped(f, maps, device.len()) {
        return Some(Cause {
            code: RefusalCode::Unmapped,
            cell,
        });
    }
    if let Some(cell) = least_stale(&f.exposed, device) {
        return Some(Cause {
            code: RefusalCode::DeviceNotCurrent,
            cell,
        });
    }
    match f.meeting {
        None => None,
        Some(cell) => Some(Cause {
            code: RefusalCode::TurnsMeet,
            cell,
        }),
    }
}

/// What the region of an item on the host does, or why it is refused.
pub fn run_host(
    found: &Option<Footprint>,
    item: &Item,
    host: &mut [Marks],
    device: &mut [Marks],
) -> Option<Cause>
    requires kind { item.now.kind ≡ ItemKind.Host }
    requires few { length host.old < 2 ^ 32 }
    requires same { row_lengths host.old ≡ row_lengths device.old }
    requires within { IfSome found.now (IsWithin (row_lengths host.old)) }
    ensures cause { (entries : List Entry) (w : Work) → shown entries item.now ≡ Some w → IsFootprintOf w found.now → IsFirstOf (region_causes w (shown_by host.old device.old)) result }
    ensures current { (entries : List Entry) (w : Work) → shown entries item.now ≡ Some w → IsFootprintOf w found.now → IfNone result (shown_by host.new device.new ≡ after_actions (region_actions w) (shown_by host.old device.old)) }
    ensures host { row_lengths host.new ≡ row_lengths host.old }
    ensures device { row_lengths device.new ≡ row_lengths device.old }
{
    let Some(found) = found else {
        return None;
    };
    let cause = host_cause(found, host);
    if cause.is_none() {
        run_on(host, device, &found.sure, &found.write);
    }
    cause
}

/// What the region of a target does, or why it is refused.
pub fn run_kernel(
    found: &Option<Footprint>,
    item: &Item,
    host: &mut [Marks],
    device: &mut [Marks],
) -> Option<Cause>
    requires kind { item.now.kind ≡ ItemKind.Target }
    requires few { length host.old < 2 ^ 32 }
    requires same { row_lengths host.old ≡ row_lengths device.old }
    requires within { IfSome found.now (IsWithin (row_lengths host.old)) }
    ensures cause { (entries : List Entry) (w : Work) → shown entries item.now ≡ Some w → IsFootprintOf w found.now → IsFirstOf (region_causes w (shown_by host.old device.old)) result }
    ensures current { (entries : List Entry) (w : Work) → shown entries item.now ≡ Some w → IsFootprintOf w found.now → IfNone result (shown_by host.new device.new ≡ after_actions (region_actions w) (shown_by host.old device.old)) }
    ensures host { row_lengths host.new ≡ row_lengths host.old }
    ensures device { row_lengths device.new ≡ row_lengths device.old }
{
    let Some(found) = found else {
        return None;
    };
    let cause = kernel_cause(found, &item.maps, device);
    if cause.is_none() {
        run_on(device, host, &found.sure, &found.write);
    }
    cause
}
