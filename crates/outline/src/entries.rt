// The regions of a program, in order of the text.

ghost use Rattle.std.specs.Prelude.{◌≡◌, ◌≤◌, ◌++◌, ◌∷◌, [], IfOk, OnOk, length, map};
ghost use Rattle.outline.specs.Regions.{entry, entry_of, list_entries, part_entries};

use crate::RegionEntry;
use crate::captures::scalars_in;
use crate::uses::arrays_in;
use base::tree::{Part, Region};
use std::alloc::{AllocError, Global};

/// How many scalars and arrays a program has.
#[derive(Clone, Copy)]
pub struct NameCounts {
    pub scalars: usize,
    pub arrays: u32,
    ghost few: { scalars ≤ 256 },
}

fn entry<'p>(
    alloc: Global,
    region: &'p Region,
    is_kernel: bool,
    counts: NameCounts,
) -> Result<RegionEntry<'p>, AllocError>
    ensures { IfOk result (λ e. entry_of e ≡ entry counts.scalars counts.arrays is_kernel region.now) }
{
    Ok(RegionEntry {
        region,
        is_kernel,
        captures: scalars_in(alloc, region, counts.scalars)?,
        arrays: arrays_in(alloc, region, counts.arrays)?,
    })
}

fn add_region<'p>(
    alloc: Global,
    region: &'p Region,
    is_kernel: bool,
    counts: NameCounts,
    regions: &mut Vec<RegionEntry<'p>>,
) -> Result<(), AllocError>
    ensures { OnOk result (map entry_of regions.new.items ≡ map entry_of regions.old.items ++ entry counts.scalars counts.arrays is_kernel region.now ∷ []) }
{
    regions.push(entry(alloc, region, is_kernel, counts)?)?;
    Ok(())
}

#[tactic(auto, using(crate::proofs::Trees::entries_Block))]
/// Adds the regions of a part.
#[cycle(entries)]
fn add_part<'p>(
    alloc: Global,
    part: &'p Part,
    counts: NameCounts,
    regions: &mut Vec<RegionEntry<'p>>,
) -> Result<(), AllocError>
    ensures { OnOk result (map entry_of regions.new.items ≡ map entry_of regions.old.items ++ part_entries counts.scalars counts.arrays part.now) }
{
    match part {
        Part::Host(region) => add_region(alloc, region, false, counts, regions),
        Part::Target(_, region) => add_region(alloc, region, true, counts, regions),
        Part::Block(all) => add_all(alloc, all, counts, regions),
        Part::Loop(_, body) => add_all(alloc, body, counts, regions),
        Part::Data(_, body) => add_all(alloc, body, counts, regions),
        Part::Alone(_, _) => Ok(()),
    }
}

#[cycle(entries)]
fn add_all<'p>(
    alloc: Global,
    parts: &'p [Part],
    counts: NameCounts,
    regions: &mut Vec<RegionEntry<'p>>,
) -> Result<(), AllocError>
    ensures { OnOk result (map entry_of regions.new.items ≡ map entry_of regions.old.items ++ list_entries counts.scalars counts.arrays parts.now) }
{
    'parts: for part in parts {
        add_part(alloc, part, counts, regions)?;
    }
    Ok(())
}

/// The regions of some parts, in order of the text.
pub fn entries<'p>(
    alloc: Global,
    parts: &'p [Part],
    counts: NameCounts,
) -> Result<Vec<RegionEntry<'p>>, AllocError>
    ensures { IfOk result (λ regions. map entry_of regions.items ≡ list_entries counts.scalars counts.arrays parts.now) }
{
    let mut regions = Vec::new(alloc);
    add_all(alloc, parts, counts, &mut regions)?;
    Ok(regions)
}
