// A segment tree: numbers of items, each at some places.

ghost use Rattle.std.specs.Prelude.{◌≡◌, ◌≢◌, ◌<◌, ℕ, true, false, OnOk};
ghost use Rattle.base.specs.Items.{plan};
ghost use Rattle.base.specs.Order.{Before};
ghost use Rattle.mapcheck.specs.Segments.{has, is_from, is_node, is_one_of};

use order::Order;
use std::alloc::{AllocError, Global};

/// For each place of the first ones, so many as it is for, the numbers of some items. What a node has is at each of its
/// places; the left tree is for the first half of these, and the right tree for the others.
#[cycle(segments)]
#[derive(Drop)]
pub enum Tree {
    Empty,
    Fork(Box<Node>),
}

#[cycle(segments)]
#[derive(Drop)]
pub struct Node {
    pub items: Vec<u32>,
    pub left: Tree,
    pub right: Tree,
}

// Whether these items, but for one, are before this one.
fn all_before(order: &Order<'_>, items: &[u32], item: u32) -> bool
    ensures { result ≡ true → (m : ℕ) → is_one_of m items.now ≡ true → m ≢ item → Before (plan order.now) m item }
{
    'items: for other in items {
        if *other != item && !order.before(*other, item) {
            return false;
        }
    }
    true
}

impl Tree {
    /// Whether the items at the places from the first up to the end, but for one, are before this one.
    pub fn are_before(&self, order: &Order<'_>, size: u64, first: u64, end: u64, item: u32) -> bool
        ensures { result ≡ true → (p m : ℕ) → is_from first end p ≡ true → has self.now size p m ≡ true → m ≢ item → Before (plan order.now) m item }
    {
        match self {
            Tree::Empty => true,
            Tree::Fork(node) => {
                if end <= first {
                    return true;
                }
                let half = size / 2;
                all_before(order, &node.items, item)
                    && node
                        .left
                        .are_before(order, half, first, end.min(half), item)
                    && node.right.are_before(
                        order,
                        size - half,
                        first.saturating_sub(half),
                        end.saturating_sub(half),
                        item,
                    )
            }
        }
    }

    // Makes a node where there is none.
    fn make_node(&mut self, alloc: Global) -> Result<(), AllocError>
        ensures same { OnOk result ((size p m : ℕ) → has self.new size p m ≡ has self.old size p m) }
        ensures made { OnOk result (is_node self.new ≡ true) }
    {
        if let Tree::Empty = self {
            let node = Node {
                items: Vec::new(alloc),
                left: Tree::Empty,
                right: Tree::Empty,
            };
            *self = Tree::Fork(Box::new(alloc, node)?);
        }
        Ok(())
    }

    /// Adds an item at the places from the first up to the end.
    pub fn add(
        &mut self,
        alloc: Global,
        size: u64,
        first: u64,
        end: u64,
        item: u32,
    ) -> Result<(), AllocError>
        ensures kept { OnOk result ((p m : ℕ) → has self.old size p m ≡ true → has self.new size p m ≡ true) }
        ensures added { OnOk result ((p : ℕ) → p < size → is_from first end p ≡ true → has self.new size p item ≡ true) }
    {
        if end <= first || size <= first {
            return Ok(());
        }
        self.make_node(alloc)?;
        if let Tree::Fork(node) = self {
            if first == 0 && size <= end {
                node.items.push(item)?;
                return Ok(());
            }
            let half = size / 2;
            node.left.add(alloc, half, first, end.min(half), item)?;
            node.right.add(
                alloc,
                size - half,
                first.saturating_sub(half),
                end.saturating_sub(half),
                item,
            )?;
        }
        Ok(())
    }

    /// Adds an item at the places from the first up to the end. As far as these are all places of a node it stands in
    /// place of the others there.
    pub fn replace(
        &mut self,
        alloc: Global,
        size: u64,
        first: u64,
        end: u64,
        item: u32,
    ) -> Result<(), AllocError>
        ensures kept { OnOk result ((p m : ℕ) → p < size → is_from first end p ≡ false → has self.old size p m ≡ true → has self.new size p m ≡ true) }
        ensures added { OnOk result ((p : ℕ) → p < size → is_from first end p ≡ true → has self.new size p item ≡ true) }
    {
        if end <= first || size <= first {
            return Ok(());
        }
        self.make_node(alloc)?;
        if let Tree::Fork(node) = self {
            if first == 0 && size <= end {
                node.left = Tree::Empty;
                node.right = Tree::Empty;
                node.items.clear();
                node.items.push(item)?;
                return Ok(());
            }
            let half = size / 2;
            node.left.replace(alloc, half, first, end.min(half), item)?;
            node.right.replace(
                alloc,
                size - half,
                first.saturating_sub(half),
                end.saturating_sub(half),
                item,
            )?;
        }
        Ok(())
    }

    /// Removes the items at the places from the first up to the end, as far as these are all places of a node.
    pub fn clear(&mut self, size: u64, first: u64, end: u64)
        ensures { (p m : ℕ) → p < size → is_from first end p ≡ false → has self.old size p m ≡ true → has self.new size p m ≡ true }
    {
        if end <= first || size <= first {
            return;
        }
        if first == 0 && size <= end {
            *self = Tree::Empty;
            return;
        }
        if let Tree::Fork(node) = self {
            let half = size / 2;
            node.left.clear(half, first, end.min(half));
            node.right.clear(
                size - half,
                first.saturating_sub(half),
                end.saturating_sub(half),
            );
        }
    }
}
