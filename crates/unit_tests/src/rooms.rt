//! Runs action by action on devices of every size up to what they need.

use base::fault::{RunFault, SourceFault};
use base::item::{Answer, Event};
use pipeline::run_source_fine;
use std::alloc::Global;

// Two targets on each of two devices, which no order keeps apart.
const FOUR: &str =
    "uint64_t A[4];\nuint64_t B[3];\nuint64_t C[2];\nuint64_t D[5];\nuint64_t E[1];\nint main(void) {\n#pragma omp target map(tofrom: A) nowait\n{ A[0] = 7; }\n#pragma omp target map(tofrom: B) map(to: C) nowait\n{ B[1] = C[0] + 5; }\n#pragma omp target map(tofrom: D) nowait device(1)\n{ D[2] = 9; }\n#pragma omp target map(to: C) map(tofrom: E) nowait device(1)\n{ E[0] = C[1] + 1; }\n#pragma omp taskwait\nprint(A[0]); print(B[1]); print(D[2]); print(E[0]);\n}\n";

const LINES: &str = "7\n5\n9\n1\n";

// All blocks of the first device together.
const NEED: u64 = 9;

// By an action of an item, counted from 0, a block of so many cells gets or loses its storage.
#[derive(Clone, Copy)]
struct Change {
    item: u32,
    action: u64,
    device: u32,
    creates: bool,
    cells: u64,
}

const fn created(item: u32, action: u64, device: u32, cells: u64) -> Change {
    Change {
        item,
        action,
        device,
        creates: true,
        cells,
    }
}

const fn removed(item: u32, action: u64, device: u32, cells: u64) -> Change {
    Change {
        item,
        action,
        device,
        creates: false,
        cells,
    }
}

// Counted by hand: an entry and its copies, the loads and stores of the region, an exit's count, its copies and its removal.
fn changes() -> [Change; 12] {
    [
        created(0, 0, 0, 4),
        removed(0, 11, 0, 4),
        created(1, 0, 0, 3),
        created(1, 4, 0, 2),
        removed(1, 13, 0, 3),
        removed(1, 15, 0, 2),
        created(2, 0, 1, 5),
        removed(2, 13, 1, 5),
        created(3, 0, 1, 2),
        created(3, 3, 1, 1),
        removed(3, 8, 1, 2),
        removed(3, 11, 1, 1),
    ]
}

// How many cells of a device are in use after an action.
fn used_after(used: u64, device: u32, item: u32, action: u64) -> u64 {
    for change in &changes() {
        if change.device == device && change.item == item && change.action == action {
            return if change.creates {
                used.saturating_add(change.cells)
            } else {
                used.saturating_sub(change.cells)
            };
        }
    }
    used
}

// The most cells of a device that are in use at once.
fn most_used(history: &[Event], device: u32) -> u64 {
    let mut actions = [0u64; 4];
    let mut used = 0;
    let mut most = 0;
    for event in history {
        if let Event::Step(item) = event {
            if let Some(action) = actions.get_mut(*item as usize) {
                used = used_after(used, device, *item, *action);
                *action = action.saturating_add(1);
            }
        }
        if used > most {
            most = used;
        }
    }
    most
}

// Choices from 0 to 2, four of them again and again.
fn choices_of(number: u32) -> [u32; 48] {
    let mut choices = [0; 48];
    let mut rest = number;
    for choice in &mut choices {
        *choice = rest % 3;
        rest = if rest < 3 { number } else { rest / 3 };
    }
    choices
}

// Whether the run on devices of this size is the whole one, or is cut off where that one goes beyond the size.
fn is_cut(alloc: Global, choices: &[u32], whole: &Answer, capacity: u64) -> bool {
    let fits = most_used(&whole.history, 0) <= capacity && most_used(&whole.history, 1) <= capacity;
    match run_source_fine(alloc, FOUR.as_bytes(), &[], choices, &[], capacity) {
        Ok(answer) => {
            fits && answer.out.as_slice() == LINES.as_bytes()
                && answer.history.as_slice() == whole.history.as_slice()
        }
        Err(SourceFault::Run(RunFault::DeviceFull)) => !fits,
        Err(_) => false,
    }
}

// Whether it is so on devices of each size.
fn is_cut_at_each(alloc: Global, number: u32) -> bool {
    let choices = choices_of(number);
    let whole = match run_source_fine(alloc, FOUR.as_bytes(), &[], &choices, &[], NEED) {
        Ok(whole) => whole,
        Err(_) => return false,
    };
    for capacity in 0..NEED {
        if !is_cut(alloc, &choices, &whole, capacity) {
            return false;
        }
    }
    whole.out.as_slice() == LINES.as_bytes()
}

// The smallest size of the devices on which the run by these choices is whole.
fn size_of(alloc: Global, number: u32) -> u64 {
    match run_source_fine(alloc, FOUR.as_bytes(), &[], &choices_of(number), &[], NEED) {
        Ok(whole) => most_used(&whole.history, 0).max(most_used(&whole.history, 1)),
        Err(_) => 0,
    }
}

// How many of the lists of choices need devices of this size.
fn number_of(alloc: Global, size: u64) -> u32 {
    let mut count = 0u32;
    for number in 0..81 {
        if size_of(alloc, number) == size {
            count = count.saturating_add(1);
        }
    }
    count
}

#[test]
fn a_run_is_cut_off_where_a_device_is_full(rt: HostRuntime) {
    for number in 0..81 {
        assert!(rt; is_cut_at_each(rt.alloc(), number), "{number}");
    }
}

// Item by item the devices need no more than five cells, side by side up to nine.
#[test]
fn orders_need_more_room_or_less(rt: HostRuntime) {
    assert!(rt; size_of(rt.alloc(), 0) == 5);
    for size in 5..=NEED {
        assert!(rt; number_of(rt.alloc(), size) > 0, "{size}");
    }
}
