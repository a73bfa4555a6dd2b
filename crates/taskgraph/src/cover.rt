// Which task stands for a later one: whatever matches the later one's depend items, matches its own.

ghost use Rattle.std.specs.Prelude.{◌≡◌};
ghost use Rattle.std.specs.List.{list_all, list_any};
ghost use Rattle.base.specs.Memory.{is_inside};
ghost use Rattle.taskgraph.specs.Cover.{covers, stands_for};

use base::item::{Depend, Section};

fn is_inside(inner: &Section, outer: &Section) -> bool
    ensures { result ≡ is_inside inner.now outer.now }
{
    let (first, start) = (u128::from(inner.first), u128::from(outer.first));
    inner.array == outer.array
        && start <= first
        && first + u128::from(inner.length) <= start + u128::from(outer.length)
}

fn stands_for(earlier: &Depend, later: &Depend) -> bool
    ensures { result ≡ stands_for earlier.now later.now }
{
    is_inside(&later.section, &earlier.section)
        && (earlier.kind.is_written() || !later.kind.is_written())
}

// Whether one of them stands for it.
fn is_covered(depend: &Depend, others: &[Depend]) -> bool
    ensures { result ≡ list_any (λ e. stands_for e depend.now) others.now }
{
    'others: for other in others {
        if stands_for(other, depend) {
            return true;
        }
    }
    false
}

/// Whether for each of the later depend items there is an earlier one that has all its cells, and is `out` or `inout`
/// where it is.
pub fn covers(earlier: &[Depend], later: &[Depend]) -> bool
    ensures { result ≡ covers earlier.now later.now }
{
    'later: for depend in later {
        if !is_covered(depend, earlier) {
            return false;
        }
    }
    true
}
