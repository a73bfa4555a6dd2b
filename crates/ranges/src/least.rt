// The least of the places at which something fails.

ghost use Rattle.std.specs.Prelude.{◌≡◌};
ghost use Rattle.ranges.specs.Faults.{with_place};

use base::tree::Place;

fn is_before(a: Place, b: Place) -> bool
    ensures { result ≡ Rattle.ranges.specs.Faults.is_before a b }
{
    a.line < b.line || (a.line == b.line && a.column <= b.column)
}

/// Keeps the least place, by line and then by column, where `fails` says that there is a fault.
pub fn note_place(fails: bool, place: Place, least: &mut Option<Place>)
    ensures { least.new ≡ with_place fails place least.old }
{
    if !fails {
        return;
    }
    match *least {
        Some(found) if is_before(found, place) => {}
        _ => *least = Some(place),
    }
}
