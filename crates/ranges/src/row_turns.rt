// The cells of one array whose indices are the values of a loop's name in its turns.

ghost use Rattle.std.specs.Prelude.{◌≡◌, ◌≤◌, ◌<◌, ◌^◌, ◌&&◌, ◌||◌, ℕ, not, IfSome, OnOk, OnErr};
ghost use Rattle.bits.specs.Sets.{has};
ghost use Rattle.ranges.specs.Slides.{IsWhole, is_turn};

use crate::row::Row;
use base::fault::Interval;
use base::tree::Bounds;
use bits::BitSet;
use std::alloc::AllocError;

/// The same cells as an interval, where each is next to the one before it.
pub fn whole(cells: Bounds) -> Option<Interval>
    requires { cells.end ≤ 2 ^ 32 }
    ensures { IfSome result (IsWhole cells) }
{
    if cells.step != 1 || cells.first >= cells.end {
        return None;
    }
    Some(Interval {
        lo: cells.first,
        hi: cells.end - 1,
    })
}

// Adds such cells.
fn mark_turns(row: &mut BitSet, cells: Bounds) -> Result<(), AllocError>
    requires { cells.end ≤ 2 ^ 32 }
    ensures ok { OnOk result (has row.new ≡ (λ i. has row.old i || is_turn cells i)) }
    ensures err { OnErr result (has row.new ≡ has row.old) }
{
    row.make_room(cells.first as usize, cells.end as usize)?;
    let mut i = cells.first;
    while i < cells.end {
        row.insert(i as usize);
        i += cells.step;
    }
    Ok(())
}

// Adds such cells that are not excluded.
fn mark_turns_unless(row: &mut BitSet, cells: Bounds, excluded: &BitSet) -> Result<(), AllocError>
    requires { cells.end ≤ 2 ^ 32 }
    ensures ok { OnOk result (has row.new ≡ (λ i. has row.old i || (is_turn cells i && not (has excluded.now i)))) }
    ensures err { OnErr result (has row.new ≡ has row.old) }
{
    row.make_room(cells.first as usize, cells.end as usize)?;
    let mut i = cells.first;
    while i < cells.end {
        if !excluded.contains(i as usize) {
            row.insert(i as usize);
        }
        i += cells.step;
    }
    Ok(())
}

impl Row {
    /// Adds such cells, and keeps the run as it is.
    pub fn add_turns(&mut self, cells: Bounds) -> Result<(), AllocError>
        requires { cells.end ≤ 2 ^ 32 }
        ensures ok { OnOk result (has self.new.cells ≡ (λ i. has self.old.cells i || is_turn cells i)) }
        ensures err { OnErr result (has self.new.cells ≡ has self.old.cells) }
    {
        mark_turns(&mut self.cells, cells)
    }

    /// Adds such cells that are not excluded.
    pub fn add_turns_unless(&mut self, cells: Bounds, excluded: &BitSet) -> Result<(), AllocError>
        requires { cells.end ≤ 2 ^ 32 }
        ensures ok { OnOk result (has self.new.cells ≡ (λ i. has self.old.cells i || (is_turn cells i && not (has excluded.now i)))) }
        ensures err { OnErr result (has self.new.cells ≡ has self.old.cells) }
    {
        mark_turns_unless(&mut self.cells, cells, excluded)
    }
}
