// What the walk over a program's parts knows of the program.

ghost use Rattle.std.specs.Prelude.{◌≡◌, ◌<◌, ◌^◌, length};

use crate::RegionEntry;
use crate::entries::NameCounts;
use std::alloc::Global;

/// The lengths of a program's arrays, its regions, and how many names it has.
#[derive(Drop)]
pub struct Known<'k, 'p> {
    pub alloc: Global,
    pub lengths: &'k [u32],
    pub regions: &'k [RegionEntry<'p>],
    pub counts: NameCounts,
    ghost arrays_counted: { counts.arrays ≡ length lengths.now },
    ghost few_regions: { length regions.now < 2 ^ 32 },
}
