// The order of many tasks, and the first clash of their sections.

use base::fault::{CheckFault, OrderFault};
use base::item::Cell;
use base::tree::ArrayId;
use c_read::read_program;
use mapcheck::passes::{footprints_of, order_of};
use mapwalk::repeats;
use order::Order;
use outline::{Outlined, outline};
use std::alloc::Global;
use std::test::Fail;

const LONG_CHAIN: &str = "\
uint64_t A[8];
int main(void) {
for (uint64_t i = 0; i < 4200; i += 1) {
#pragma omp target nowait depend(inout: A[0:1])
{ }
}
}
";

// Whether an item comes behind those before it, and not behind itself.
fn is_in_turn(order: &Order<'_>, item: u32) -> bool {
    (item == 0 || order.before(0, item))
        && (item == 4199 || order.before(item, 4199))
        && !order.before(item, item)
        && !order.before(4199, item)
        && !order.before(item, 4200)
        && !order.before(4200, item)
        && item.checked_add(1) == Some(order.after_all(item))
}

fn is_chain(order: &Order<'_>) -> bool {
    for item in 0..4200 {
        if !is_in_turn(order, item) {
            return false;
        }
    }
    true
}

fn is_ordered(alloc: Global, outlined: &Outlined<'_>) -> Result<bool, Fail> {
    footprints_of(alloc, outlined, &repeats(alloc, outlined)?)?;
    Ok(outlined.items().len() == 4200 && is_chain(&order_of(alloc, outlined)?))
}

// Each task waits for the one before it.
#[test]
fn a_long_chain_is_ordered(rt: HostRuntime) -> Result<(), Fail> {
    let program = read_program(rt.alloc(), LONG_CHAIN.as_bytes())?;
    let outlined = outline(rt.alloc(), &program)?;
    assert!(rt; is_ordered(rt.alloc(), &outlined)?);
    Ok(())
}

// The last task's section overlaps the first one's, and no other.
const FAR_CLASH: &str = "\
uint64_t A[8192];
int main(void) {
#pragma omp target nowait depend(inout: A[0:4])
{ }
for (uint64_t i = 1; i < 2000; i += 1) {
#pragma omp target nowait depend(inout: A[4*i:4])
{ }
}
#pragma omp target nowait depend(in: A[3:1])
{ }
}
";

// Two sections of the first task overlap, and the last task's overlaps one of them and those between.
const OWN_OVERLAP: &str = "\
uint64_t A[16];
int main(void) {
#pragma omp target nowait depend(in: A[0:8]) depend(out: A[2:2])
{ }
for (uint64_t i = 1; i < 10; i += 1) {
#pragma omp target nowait depend(inout: A[8:4])
{ }
}
#pragma omp target nowait depend(in: A[7:2])
{ }
}
";

// The same without the last task.
const OWN_OVERLAP_ALONE: &str = "\
uint64_t A[16];
int main(void) {
#pragma omp target nowait depend(in: A[0:8]) depend(out: A[2:2])
{ }
for (uint64_t i = 1; i < 10; i += 1) {
#pragma omp target nowait depend(inout: A[8:4])
{ }
}
}
";

// The first clash of a source.
fn first_clash(alloc: Global, source: &str) -> Result<Option<OrderFault>, Fail> {
    let program = read_program(alloc, source.as_bytes())?;
    let outlined = outline(alloc, &program)?;
    footprints_of(alloc, &outlined, &repeats(alloc, &outlined)?)?;
    let order = order_of(alloc, &outlined);
    if let Err(CheckFault::Order(fault)) = &order {
        return Ok(Some(*fault));
    }
    order?;
    Ok(None)
}

// Whether it is the clash of these items at a cell of the first array.
fn is_at(clash: Option<OrderFault>, item: u32, other: u32, index: u64) -> bool {
    let cell = Cell {
        array: ArrayId(0),
        index,
    };
    clash.is_some_and(|c| c.item == item && c.other == other && c.cell == cell)
}

#[test]
fn a_clash_is_found_far_behind(rt: HostRuntime) -> Result<(), Fail> {
    assert!(rt; is_at(first_clash(rt.alloc(), FAR_CLASH)?, 2000, 0, 3));
    Ok(())
}

#[test]
fn sections_of_one_task_may_overlap(rt: HostRuntime) -> Result<(), Fail> {
    assert!(rt; first_clash(rt.alloc(), OWN_OVERLAP_ALONE)?.is_none());
    assert!(rt; is_at(first_clash(rt.alloc(), OWN_OVERLAP)?, 10, 0, 7));
    Ok(())
}
