// Turns and cells that are left.

ghost use Rattle.std.specs.Prelude.{◌+◌, ◌*◌, ◌<◌, ◌≤◌, ◌≡◌, ◌^◌};
ghost use Rattle.present.specs.Blocks.{IsSection};

use base::item::Section;
use base::tree::ArrayId;

/// The turns of a loop that are left: how many, the value of its name at the next one, and its step.
#[derive(Clone, Copy)]
pub struct Turns {
    pub left: u64,
    pub next: u64,
    pub step: u64,
    ghost fits: { next + left * step < 2 ^ 64 },
}

/// Cells that are left to be copied, in ascending order.
#[derive(Clone, Copy)]
pub struct Cells {
    pub array: ArrayId,
    pub first: u64,
    pub count: u64,
    ghost fits: { first + count ≤ 65536 },
}

/// The cells of a section.
pub fn cells_of(section: &Section) -> Cells
    requires { IsSection section.now }
    ensures array { result.array ≡ section.now.array }
    ensures first { result.first ≡ section.now.first }
    ensures count { result.count ≡ section.now.length }
{
    Cells {
        array: section.array,
        first: section.first,
        count: section.length,
    }
}
