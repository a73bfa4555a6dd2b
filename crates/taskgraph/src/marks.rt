// Which of so many items are marked, with a count for each row of them.

ghost use Rattle.std.specs.Prelude.{◌≡◌, ◌-◌, ◌≤◌, length, slice_get};
ghost use Rattle.taskgraph.specs.Marks.{is_marked, those_from};

use std::alloc::{AllocError, Global};
use std::marker::Model;

/// Items below a fixed number, each marked or not. A row of 256 items in which none is looked for takes one step, and all
/// rows take one where none is marked.
#[derive(Drop)]
pub struct Marks {
    marks: Vec<bool>,
    /// How many items of each row are marked.
    counts: Vec<usize>,
    /// How many items are.
    len: usize,
}

impl Model for Marks {
    ghost use Rattle.std.specs.Prelude.{Bool, List};
    ghost use Rattle.taskgraph.specs.Marks.{AreCounted};

    ghost Value = { List Bool };

    ghost view = { λ m. m.marks.items };

    ghost invariant = { λ m. AreCounted m.marks.items m.counts.items m.len };
}

// Of the items from one on up to an end, the marked one at a place.
fn marked_at(marks: &[bool], start: usize, end: usize, place: usize) -> Option<usize>
    requires order { start ≤ end }
    requires inside { end ≤ length marks.now }
    ensures { result ≡ slice_get (those_from (is_marked marks.now) start (end - start)) place }
{
    let mut left = place;
    for item in start..end {
        if marks[item] {
            if left == 0 {
                return Some(item);
            }
            left -= 1;
        }
    }
    None
}

impl Marks {
    ghost use Rattle.std.specs.Prelude.{◌≡◌, ◌+◌, ◌*◌, ◌/◌, ◌<◌, ◌≤◌, IfOk, false, true, length, min, replicate, slice_get};
    ghost use Rattle.std.specs.List.{slice_set};
    ghost use Rattle.taskgraph.specs.Marks.{IsNext, all_marked, is_marked};

    /// None of so many items is marked.
    pub fn new(alloc: Global, count: usize) -> Result<Marks, AllocError>
        ensures { IfOk result (λ marks. marks ≡ replicate count false) }
    {
        Ok(Marks {
            marks: vec![in alloc; false; count]?,
            counts: vec![in alloc; 0; count.div_ceil(256)]?,
            len: 0,
        })
    }

    /// Marks an item.
    pub fn insert(&mut self, item: usize)
        requires inside { item < length self.old }
        requires fresh { is_marked self.old item ≡ false }
        ensures { self.new ≡ slice_set self.old item true }
    {
        self.marks[item] = true;
        self.counts[item / 256] += 1;
        self.len += 1;
    }

    /// Takes a mark away.
    pub fn remove(&mut self, item: usize)
        requires { is_marked self.old item ≡ true }
        ensures { self.new ≡ slice_set self.old item false }
    {
        self.marks[item] = false;
        self.counts[item / 256] -= 1;
        self.len -= 1;
    }

    /// Marks an item where that holds.
    pub fn insert_if(&mut self, item: usize, holds: bool)
        requires inside { item < length self.old }
        requires fresh { is_marked self.old item ≡ false }
        ensures { self.new ≡ slice_set self.old item holds }
    {
        if holds {
            self.insert(item);
        }
    }

    /// Takes a mark away where there is one.
    pub fn remove_if(&mut self, item: usize, holds: bool)
        requires { is_marked self.old item ≡ holds }
        ensures { self.new ≡ slice_set self.old item false }
    {
        if holds {
            self.remove(item);
        }
    }

    /// How many items are marked.
    pub fn len(&self) -> usize
        ensures { result ≡ length (all_marked self.now) }
    {
        self.len
    }

    // Past the last item of a row.
    fn end_of(&self, row: usize) -> usize
        requires { 256 * row ≤ length self.now }
        ensures { result ≡ min (256 * row + 256) (length self.now) }
    {
        let count = self.marks.len();
        (256 * row + 256).min(count)
    }

    /// The marked item at a place, ascending.
    pub fn nth(&self, place: usize) -> Option<usize>
        ensures { result ≡ slice_get (all_marked self.now) place }
    {
        let mut left = place;
        for row in 0..self.counts.len() {
            let count = self.counts[row];
            if left < count {
                return marked_at(&self.marks, 256 * row, self.end_of(row), left);
            }
            left -= count;
        }
        None
    }

    /// The least marked item from one on.
    pub fn next(&self, from: usize) -> Option<usize>
        ensures { IsNext self.now from result }
    {
        if self.len == 0 {
            return None;
        }
        if from >= self.marks.len() {
            return None;
        }
        let row = from / 256;
        let here = marked_at(&self.marks, from, self.end_of(row), 0);
        if here.is_some() {
            return here;
        }
        for later in row + 1..self.counts.len() {
            if self.counts[later] > 0 {
                return marked_at(&self.marks, 256 * later, self.end_of(later), 0);
            }
        }
        None
    }
}
