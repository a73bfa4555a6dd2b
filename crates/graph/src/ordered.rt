// Which item follows which with none between.

ghost use Rattle.std.specs.Prelude.{◌≡◌, ◌↔◌, ◌≤◌, IfOk, IfSome, IsTrue, length};
ghost use Rattle.base.specs.Accepted.{SectionsFit};
ghost use Rattle.base.specs.Items.{plan};
ghost use Rattle.graph.specs.Nexts.{AreNexts, IsBehindSome};

use order::{Order, OrderBuildFault};
use outline::Outlined;
use ranges::sections;
use std::alloc::{AllocError, Global};

// Whether no section of any item is empty or leaves its array.
fn do_sections_fit(outlined: &Outlined<'_>) -> bool
    ensures { IsTrue result → SectionsFit (plan outlined.now) }
{
    'items: for item in outlined.items() {
        if sections(outlined.program(), item).is_err() {
            return false;
        }
    }
    true
}

/// The order of a program's items. There is none where a section is empty or leaves its array, and where depend items
/// of two items overlap without being identical. The error comes where an allocation fails.
pub fn order_of<'p>(alloc: Global, outlined: &Outlined<'p>) -> Result<Option<Order<'p>>, AllocError>
    ensures { IfOk result (λ found. IfSome found (λ order. order ≡ outlined.now)) }
{
    if !do_sections_fit(outlined) {
        return Ok(None);
    }
    match Order::build(alloc, outlined) {
        Ok(order) => Ok(Some(order)),
        Err(OrderBuildFault::Clash(_)) => Ok(None),
        Err(OrderBuildFault::OutOfMemory) => Err(AllocError),
    }
}

// Whether one of some items is before an item.
fn is_behind_some(order: &Order<'_>, items: &[u32], item: u32) -> bool
    ensures { IsTrue result ↔ IsBehindSome (plan order.now) items.now item }
{
    'items: for one in items {
        if order.before(*one, item) {
            return true;
        }
    }
    false
}

/// The items below a place that follow an item with none between, in ascending order: the item is before each of them,
/// and before no other that is before it. Where every item from a place on follows one that was found, none is asked
/// from there on. The error comes where an allocation fails.
pub fn nexts(alloc: Global, order: &Order<'_>, item: u32, end: u32) -> Result<Vec<u32>, AllocError>
    requires { item ≤ end }
    ensures { IfOk result (λ found. AreNexts (plan order.now) item end found.items) }
{
    let mut found = Vec::new(alloc);
    for next in item..end {
        if order.before(item, next) && !is_behind_some(order, &found, next) {
            found.push(next)?;
            if order.after_all(next) <= next + 1 {
                return Ok(found);
            }
        }
    }
    Ok(found)
}
