// Items that do the same from the same state.

ghost use Rattle.std.specs.Prelude.{◌≡◌, ◌+◌, ◌-◌, ◌<◌, ◌≤◌, ℕ, length, true};
ghost use Rattle.mapwalk.specs.Found.{all_found};
ghost use Rattle.mapwalk.specs.Heads.{AreAlikeAt, IsLike, IsNextTurn};

use crate::found::Footprints;
use base::item::{Item, ItemKind, MapItem, MapKind};

fn is_same_kind(left: ItemKind, right: ItemKind) -> bool
    ensures { result ≡ true → left ≡ right }
{
    match (left, right) {
        (ItemKind::Host, ItemKind::Host)
        | (ItemKind::Target, ItemKind::Target)
        | (ItemKind::Begin, ItemKind::Begin)
        | (ItemKind::End, ItemKind::End)
        | (ItemKind::Enter, ItemKind::Enter)
        | (ItemKind::Exit, ItemKind::Exit)
        | (ItemKind::Update, ItemKind::Update)
        | (ItemKind::Wait, ItemKind::Wait) => true,
        _ => false,
    }
}

fn is_same_map_kind(left: MapKind, right: MapKind) -> bool
    ensures { result ≡ true → left ≡ right }
{
    match (left, right) {
        (MapKind::To, MapKind::To)
        | (MapKind::From, MapKind::From)
        | (MapKind::ToFrom, MapKind::ToFrom)
        | (MapKind::Alloc, MapKind::Alloc)
        | (MapKind::Release, MapKind::Release)
        | (MapKind::Delete, MapKind::Delete) => true,
        _ => false,
    }
}

fn is_same_map(left: &MapItem, right: &MapItem) -> bool
    ensures { result ≡ true → left.now ≡ right.now }
{
    left.section == right.section
        && is_same_map_kind(left.kind, right.kind)
        && left.always == right.always
        && left.present == right.present
        && left.line == right.line
        && left.column == right.column
}

fn are_same_maps(left: &[MapItem], right: &[MapItem]) -> bool
    ensures { result ≡ true → left.now ≡ right.now }
{
    if left.len() != right.len() {
        return false;
    }
    'each: for i in 0..left.len() {
        if !is_same_map(&left[i], &right[i]) {
            return false;
        }
    }
    true
}

fn is_like(earlier: &Item, item: &Item) -> bool
    ensures { result ≡ true → IsLike earlier.now item.now }
{
    is_same_kind(item.kind, earlier.kind)
        && item.device.number == earlier.device.number
        && are_same_maps(&item.maps, &earlier.maps)
}

/// Whether two items of a program are known to do the same from the same state: they have the same kind, device and map
/// items, and one footprint.
pub fn are_alike(items: &[Item], found: &Footprints, earlier: usize, number: usize) -> bool
    ensures { result ≡ true → AreAlikeAt items.now (all_found found.now) earlier number }
{
    let (Some(left), Some(right)) = (items.get(earlier), items.get(number)) else {
        return false;
    };
    is_like(left, right) && found.is_shared(earlier, number)
}

/// Whether the next so many items, which are at least one, are alike to those before item `number`, one by one.
pub fn is_next_turn(items: &[Item], found: &Footprints, number: usize, period: usize) -> bool
    requires { number ≤ length items.now }
    ensures { result ≡ true → IsNextTurn items.now (all_found found.now) number period }
{
    if period == 0 || number < period || items.len() - number < period {
        return false;
    }
    let first = number - period;
    'each: for j in 0..period {
        if !are_alike(items, found, first + j, number + j) {
            return false;
        }
    }
    true
}
