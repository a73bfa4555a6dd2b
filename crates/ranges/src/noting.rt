// What turns have touched that may run in any order, and where two of them meet.

ghost use Rattle.std.specs.Prelude.{◌≡◌, ◌<◌, ◌^◌, ◌&&◌, IfOk, OnOk, option_map};
ghost use Rattle.bits.specs.Sets.{IsFirstAt, has as has_number};
ghost use Rattle.ranges.specs.Rows.{is_within};
ghost use Rattle.ranges.specs.Ways.{after_use, cell_in, first_opposed, noted_in, nothing_noted, number_of, touched_in};

use crate::cells::CellSet;
use crate::met::Meetings;
use crate::walk::leaves;
use crate::way::{WAYS, Way, opposes};
use base::fault::Interval;
use base::item::Cell;
use base::least::lesser;
use base::tree::ArrayId;
use bits::BitSet;
use std::alloc::{AllocError, Global};

// The first number of an interval that is in a set.
pub(crate) fn first_within(row: &BitSet, cells: Interval) -> Option<usize>
    requires { cells.hi < 2 ^ 32 }
    ensures { IsFirstAt (λ i. is_within cells i && has_number row.now i) result }
{
    match row.first_from(cells.lo as usize) {
        Some(i) if i as u64 <= cells.hi => Some(i),
        _ => None,
    }
}

// The lesser of two numbers, either of which may be missing.
fn lesser_number(a: Option<usize>, b: Option<usize>) -> Option<usize>
    ensures { result ≡ Rattle.ranges.specs.Ways.lesser_number a b }
{
    match (a, b) {
        (Some(a), Some(b)) => Some(a.min(b)),
        (Some(a), None) => Some(a),
        (None, b) => b,
    }
}

fn cell_at(array: ArrayId, index: Option<usize>) -> Option<Cell>
    ensures { result ≡ option_map (cell_in array) index }
{
    match index {
        None => None,
        Some(index) => Some(Cell {
            array,
            index: index as u64,
        }),
    }
}

impl Meetings {
    /// Before the first turn.
    pub fn new(alloc: Global) -> Result<Meetings, AllocError>
        ensures { IfOk result (λ m. noted_in m ≡ nothing_noted) }
    {
        let mut touched = Vec::new(alloc);
        'sets: while touched.len() < WAYS {
            touched.push(CellSet::new(alloc))?;
        }
        Ok(Meetings {
            touched,
            least: None,
        })
    }

    // The first of these cells of an array that was touched in a way which opposes this one.
    fn first_opposed(&self, way: usize, array: ArrayId, cells: Interval) -> Option<usize>
        requires { cells.hi < 2 ^ 32 }
        ensures { result ≡ first_opposed way array cells (touched_in self.now.touched.items) }
    {
        let mut first = None;
        for earlier in 0..WAYS {
            if opposes(earlier, way) {
                first = lesser_number(first, first_within(self.touched[earlier].row(array), cells));
            }
        }
        first
    }

    // Cells of an array are touched in this way.
    fn add(&mut self, way: usize, array: ArrayId, cells: Interval) -> Result<(), AllocError>
        requires way { way < 9 }
        requires fits { cells.hi < 2 ^ 32 }
        ensures touched { OnOk result (noted_in self.new ≡ Rattle.ranges.specs.Ways.added way array cells (noted_in self.old)) }
    {
        self.touched[way].add(array, cells)
    }

    // Cells of an array are tested against those that the turns before have touched.
    fn test(&mut self, way: usize, array: ArrayId, cells: Interval)
        requires { cells.hi < 2 ^ 32 }
        ensures { noted_in self.new ≡ Rattle.ranges.specs.Ways.tested way array cells (noted_in self.old) }
    {
        let first = self.first_opposed(way, array, cells);
        self.least = lesser(self.least, cell_at(array, first));
    }

    /// Cells of an array are touched: they are added, or tested against those that the turns before have touched. Those
    /// that leave the array are passed over.
    pub fn note(
        &mut self,
        adds: bool,
        lengths: &[u32],
        way: Way,
        array: ArrayId,
        cells: Interval,
    ) -> Result<(), AllocError>
        ensures { OnOk result (noted_in self.new ≡ after_use lengths.now adds (number_of way) array cells (noted_in self.old)) }
    {
        if leaves(lengths, array, cells) {
            return Ok(());
        }
        if adds {
            return self.add(way.number(), array, cells);
        }
        self.test(way.number(), array, cells);
        Ok(())
    }
}
