// Items by the sections of their depend items.

ghost use Rattle.std.specs.Prelude.{◌≡◌, ◌<◌, ◌≤◌, ◌||◌, ℕ, true, false, not, length, Contains, IfOk, IfSome, IsTrue, OnOk};
ghost use Rattle.std.specs.List.{All, AllWithin};
ghost use Rattle.base.specs.Machine.{writes_to};
ghost use Rattle.order.specs.declared.touches.Touch.{Touch};
ghost use Rattle.order.specs.Touches.{AreInTurn, AreTouches, AreSome, HasTouches, HasTouchesOf, is_in_turn, is_later};

use crate::apart::is_same_or_behind;
use base::item::{Depend, Item, Section};
use std::alloc::{AllocError, Global};

/// A section of a depend item, and the item.
#[derive(Clone, Copy)]
pub struct Touch {
    pub section: Section,
    pub item: usize,
}

/// The sections of all depend items, and of those that write, each with its item and in order.
#[derive(Drop)]
pub struct Touches {
    pub all: Vec<Touch>,
    pub written: Vec<Touch>,
}

// Adds a depend item's section, where all are asked for or it writes.
fn add_touch(
    touches: &mut Vec<Touch>,
    depend: &Depend,
    item: usize,
    written: bool,
) -> Result<(), AllocError>
    ensures kept { OnOk result ((t : Touch) → Contains touches.old.items t → Contains touches.new.items t) }
    ensures added { OnOk result ((not written || writes_to depend.now.kind) ≡ true →
        Contains touches.new.items (record { section = depend.now.section; item = item })) }
    ensures inside { OnOk result ((n : ℕ) → item < n → All (λ t. t.item < n) touches.old.items →
        All (λ t. t.item < n) touches.new.items) }
{
    if written && !depend.kind.is_written() {
        return Ok(());
    }
    touches.push(Touch {
        section: depend.section,
        item,
    })?;
    Ok(())
}

// Adds the sections of an item's depend items, or of those that write.
fn add_touches(
    touches: &mut Vec<Touch>,
    depends: &[Depend],
    item: usize,
    written: bool,
) -> Result<(), AllocError>
    ensures kept { OnOk result ((t : Touch) → Contains touches.old.items t → Contains touches.new.items t) }
    ensures added { OnOk result (HasTouchesOf written depends.now item touches.new.items) }
    ensures inside { OnOk result ((n : ℕ) → item < n → All (λ t. t.item < n) touches.old.items →
        All (λ t. t.item < n) touches.new.items) }
{
    for depend in depends {
        add_touch(touches, depend, item, written)?;
    }
    Ok(())
}

// The sections of the depend items of some items, or of those that write.
fn unordered(alloc: Global, items: &[Item], written: bool) -> Result<Vec<Touch>, AllocError>
    ensures { IfOk result (λ touches. AreSome items.now written (length items.now) touches.items) }
{
    let mut touches = Vec::new(alloc);
    for item in 0..items.len() {
        add_touches(&mut touches, &items[item].depends, item, written)?;
    }
    Ok(touches)
}

// Whether the second is of a section behind the first one's, or of the same at no lesser item.
fn is_in_turn(left: &Touch, right: &Touch) -> bool
    ensures { result ≡ is_in_turn left.now right.now }
{
    is_same_or_behind(&left.section, &right.section)
        && (left.section != right.section || left.item <= right.item)
}

fn are_in_turn(touches: &[Touch]) -> bool
    ensures { IsTrue result → AreInTurn touches.now }
{
    touches.is_sorted_by(is_in_turn)
}

// The sections in order, if they are pairwise disjoint or identical.
fn ordered(alloc: Global, items: &[Item], written: bool) -> Result<Option<Vec<Touch>>, AllocError>
    ensures { IfOk result (λ found. IfSome found (λ touches. AreTouches items.now written touches.items)) }
{
    let mut touches = unordered(alloc, items, written)?;
    touches.sort_unstable_by_key(|touch| (touch.section.array, touch.section.first, touch.item));
    if !are_in_turn(&touches) {
        return Ok(None);
    }
    Ok(Some(touches))
}

/// The sections of the depend items of some items, if they are pairwise disjoint or identical.
pub fn touches_of(alloc: Global, items: &[Item]) -> Result<Option<Touches>, AllocError>
    ensures { IfOk result (λ found. IfSome found (HasTouches items.now)) }
{
    let Some(all) = ordered(alloc, items, false)? else {
        return Ok(None);
    };
    let Some(written) = ordered(alloc, items, true)? else {
        return Ok(None);
    };
    Ok(Some(Touches { all, written }))
}

// Whether it is of a section behind that one, or of the same at a later item.
fn is_later(touch: &Touch, section: &Section, item: usize) -> bool
    ensures { result ≡ is_later section.now item touch.now }
{
    is_same_or_behind(section, &touch.section) && (touch.section != *section || item < touch.item)
}

/// The first place at which a section stands at a later item than that one, or a section behind it.
pub fn first_later(touches: &[Touch], section: &Section, item: usize) -> usize
    requires { AreInTurn touches.now }
    ensures bound { result ≤ length touches.now }
    ensures earlier { AllWithin (λ t. is_later section.now item t ≡ false) touches.now 0 result }
    ensures later { AllWithin (λ t. is_later section.now item t ≡ true) touches.now result (length touches.now) }
{
    touches.partition_point(|touch| !is_later(touch, section, item))
}
