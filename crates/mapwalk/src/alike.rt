// Items whose regions touch what the region of an earlier item touches.

ghost use Rattle.std.specs.Prelude.{◌≡◌, ◌<◌, IfOk, IfSome, IsTrue, Some, length};
ghost use Rattle.base.specs.Items.{Work, plan};
ghost use Rattle.base.specs.Meaning.{lengths_of};
ghost use Rattle.mapwalk.specs.Repeats.{AreRepeats, IsRepeat, TouchAlike};
ghost use Rattle.outline.specs.Regions.{entries_of};
ghost use Rattle.outline.specs.Shown.{shown};

use base::item::Item;
use outline::Outlined;
use regions::{agree_where_deciding, deciding_loops, marked_values};
use std::alloc::{AllocError, Global};
use std::collections::BTreeMap;

// Whether two items are known to touch alike: their regions are one, under as many loops, of which those that decide
// what it touches have the same values.
fn touch_alike(outlined: &Outlined<'_>, earlier: &Item, item: &Item) -> bool
    ensures { (v w : Work) → shown (entries_of outlined.now) earlier.now ≡ Some v → shown (entries_of outlined.now) item.now ≡ Some w → IsTrue result → TouchAlike (lengths_of outlined.now) v w }
{
    let Some(number) = item.region else {
        return false;
    };
    let Some(entry) = outlined.regions().get(number as usize) else {
        return false;
    };
    if earlier.region != Some(number) {
        return false;
    }
    agree_where_deciding(entry.region, &item.loops.values, &earlier.loops.values)
}

// This earlier item, where it and an item are known to touch alike.
fn if_alike(outlined: &Outlined<'_>, earlier: Option<usize>, number: usize) -> Option<usize>
    requires { number < length (plan outlined.now).items }
    ensures { IfSome result (IsRepeat (plan outlined.now) number) }
{
    let Some(earlier) = earlier else {
        return None;
    };
    let items = outlined.items();
    if earlier < number && touch_alike(outlined, &items[earlier], &items[number]) {
        Some(earlier)
    } else {
        None
    }
}

// For each region that nothing is kept of it yet.
fn no_marks(alloc: Global, outlined: &Outlined<'_>) -> Result<Vec<Vec<bool>>, AllocError> {
    let mut marks = Vec::new(alloc);
    for _ in outlined.regions() {
        marks.push(Vec::new(alloc))?;
    }
    Ok(marks)
}

// What two items have in common that are likely to touch alike: the region, and the values of the loops that decide what
// it touches. Which loops decide is kept for each region. Nothing rests on it, since two items are tested again.
fn key_of(
    alloc: Global,
    outlined: &Outlined<'_>,
    marks: &mut Vec<Vec<bool>>,
    item: &Item,
) -> Result<Option<Vec<u64>>, AllocError> {
    let Some(number) = item.region else {
        return Ok(None);
    };
    let Some(entry) = outlined.regions().get(number as usize) else {
        return Ok(None);
    };
    let Some(known) = marks.get_mut(number as usize) else {
        return Ok(None);
    };
    let loops = item.loops.values.as_slice();
    if known.len() != loops.len() {
        *known = deciding_loops(alloc, loops.len(), entry.region)?;
    }
    let mut key = marked_values(alloc, known, loops)?;
    key.push(u64::from(number))?;
    Ok(Some(key))
}

/// For each item an earlier one whose region touches the same cells and has the same faults of range, or none where
/// that is not known. It is known where an earlier item has the same region and the same values of those loops around
/// it that the region names in a subscript or a condition.
pub fn repeats(alloc: Global, outlined: &Outlined<'_>) -> Result<Vec<Option<usize>>, AllocError>
    ensures { IfOk result (λ all. AreRepeats (plan outlined.now) all.items) }
{
    let mut marks = no_marks(alloc, outlined)?;
    // The last item so far with each key.
    let mut last = BTreeMap::new(alloc);
    let items = outlined.items();
    let mut all = Vec::new(alloc);
    'items: for number in 0..items.len() {
        let earlier = match key_of(alloc, outlined, &mut marks, &items[number])? {
            Some(key) => last.insert(key, number)?,
            None => None,
        };
        all.push(if_alike(outlined, earlier, number))?;
    }
    Ok(all)
}
