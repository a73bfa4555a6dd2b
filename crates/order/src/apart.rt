// Items none of whose sections overlap without being identical.

ghost use Rattle.std.specs.Prelude.{◌≡◌, ◌≤◌, IfOk, IsTrue, None, length};
ghost use Rattle.order.specs.Apart.{AreApart, is_same_or_behind, sections_of};
ghost use Rattle.order.specs.Clashes.{IsFirstFound, NoClashBelow};

use base::item::{Item, Section};
use std::alloc::{AllocError, Global};

// The sections of the depend items of some items.
fn sections_of(alloc: Global, items: &[Item]) -> Result<Vec<Section>, AllocError>
    ensures { IfOk result (λ sections. sections.items ≡ sections_of items.now) }
{
    let mut sections = Vec::new(alloc);
    for item in items {
        sections.extend(item.depends.iter().map(|depend| depend.section))?;
    }
    Ok(sections)
}

/// Whether the second of two sections is the first, or lies behind it.
pub fn is_same_or_behind(left: &Section, right: &Section) -> bool
    ensures { result ≡ is_same_or_behind left.now right.now }
{
    left == right
        || left.array < right.array
        || (left.array == right.array
            && u128::from(left.first) + u128::from(left.length) <= u128::from(right.first))
}

// Whether each of some sections is the next one, or lies before it.
fn are_apart(sections: &[Section]) -> bool
    ensures { IsTrue result → AreApart sections.now }
{
    sections.is_sorted_by(is_same_or_behind)
}

// Whether the items' sections are pairwise disjoint or identical.
fn is_clear(alloc: Global, items: &[Item]) -> Result<bool, AllocError>
    ensures { IfOk result (λ clear. IsTrue clear → IsFirstFound items.now None) }
{
    let mut sections = sections_of(alloc, items)?;
    sections.sort_unstable_by_key(|section| (section.array, section.first));
    Ok(are_apart(&sections))
}

/// Some items from the first on of which no two clash: all where the sections are pairwise disjoint or identical, and
/// else those before the first item with which they are not.
pub fn clear_items(alloc: Global, items: &[Item]) -> Result<usize, AllocError>
    ensures none { IfOk result (λ count. NoClashBelow items.now count) }
    ensures inside { IfOk result (λ count. count ≤ length items.now) }
{
    if is_clear(alloc, items)? {
        return Ok(items.len());
    }
    let (mut clear, mut unclear) = (0, items.len());
    while clear + 1 < unclear {
        let middle = clear + (unclear - clear) / 2;
        if is_clear(alloc, &items[..middle])? {
            clear = middle;
        } else {
            unclear = middle;
        }
    }
    Ok(clear)
}
