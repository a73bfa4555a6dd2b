// The items that read or write the cells of one array at one location.

ghost use Rattle.std.specs.Prelude.{◌≡◌, ◌<◌, ◌&&◌, ℕ, true, false, Some, IfOk, OnOk};
ghost use Rattle.base.specs.Items.{plan};
ghost use Rattle.mapcheck.specs.Rows.{AreSeen, IsClearAt, width};
ghost use Rattle.mapcheck.specs.Segments.{has, is_from};

use crate::segments::Tree;
use order::Order;
use std::alloc::{AllocError, Global};

// The number of places.
const WIDTH: u64 = 65536;

/// Of each place the items that read it, and those that write it, as far as a later item can conflict with them.
#[derive(Drop)]
pub struct Row {
    reads: Tree,
    writes: Tree,
}

impl Row {
    /// Nothing.
    pub fn new() -> Row
        ensures reads { (p m : ℕ) → has result.reads width p m ≡ false }
        ensures writes { (p m : ℕ) → has result.writes width p m ≡ false }
    {
        Row {
            reads: Tree::Empty,
            writes: Tree::Empty,
        }
    }

    // Whether an item that reads, or writes, the places from the first up to the end comes after all others that it
    // conflicts with there.
    fn is_clear(&self, order: &Order<'_>, item: u32, writes: bool, first: u64, end: u64) -> bool
        ensures { result ≡ true → (p : ℕ) → is_from first end p ≡ true → IsClearAt (plan order.now) (Some self.now) item writes p }
    {
        self.writes.are_before(order, WIDTH, first, end, item)
            && (!writes || self.reads.are_before(order, WIDTH, first, end, item))
    }

    // Notes an item that writes these places. Where it comes after all others there, it takes their place: behind it
    // they do not matter.
    fn write(
        &mut self,
        alloc: Global,
        clear: bool,
        item: u32,
        first: u64,
        end: u64,
    ) -> Result<(), AllocError>
        ensures reads { OnOk result ((p m : ℕ) → p < width → (clear && is_from first end p) ≡ false → has self.old.reads width p m ≡ true → has self.new.reads width p m ≡ true) }
        ensures writes { OnOk result ((p m : ℕ) → p < width → (clear && is_from first end p) ≡ false → has self.old.writes width p m ≡ true → has self.new.writes width p m ≡ true) }
        ensures added { OnOk result ((p : ℕ) → p < width → is_from first end p ≡ true → has self.new.writes width p item ≡ true) }
    {
        if clear {
            self.reads.clear(WIDTH, first, end);
            self.writes.replace(alloc, WIDTH, first, end, item)
        } else {
            self.writes.add(alloc, WIDTH, first, end, item)
        }
    }

    /// Notes an item that reads, or writes, the places from the first up to the end. The answer is true only if it
    /// comes after all others that were noted there, or were before noted ones, and that it conflicts with. It goes
    /// down each of the two trees at most twice, a step for each halving from the row down to these places: 12 for 16
    /// places that begin at a multiple of 16, and at most 16 at either end.
    pub fn note(
        &mut self,
        alloc: Global,
        order: &Order<'_>,
        item: u32,
        writes: bool,
        first: u64,
        end: u64,
    ) -> Result<bool, AllocError>
        ensures { IfOk result (AreSeen (plan order.now) (Some self.old) (Some self.new) item writes (is_from first end)) }
    {
        let clear = self.is_clear(order, item, writes, first, end);
        if !writes {
            self.reads.add(alloc, WIDTH, first, end, item)?;
            return Ok(clear);
        }
        self.write(alloc, clear, item, first, end)?;
        Ok(clear)
    }
}
