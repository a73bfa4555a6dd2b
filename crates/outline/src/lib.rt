//! Turns `main` into its list of items.
#![tactic(auto)]

ghost use Rattle.std.specs.Prelude.{◌≡◌, ◌≤◌, ◌<◌, ◌^◌, ◌↔◌, [], length, map, IfOk, IfErr, OnOk};
ghost use Rattle.base.specs.Meaning.{lengths_of};
ghost use Rattle.base.specs.Items.{plan};
ghost use Rattle.base.specs.Limits.{most_items};
ghost use Rattle.outline.specs.Regions.{entries_of, entry_of, list_entries};
ghost use Rattle.outline.specs.Parts.{parts_items};
ghost use Rattle.outline.specs.Shown.{all_shown, as_shown};
ghost use Rattle.outline.specs.Walk.{PartsAreAt, entries_in};

use crate::count::count_all;
use crate::entries::{NameCounts, entries};
use crate::known::Known;
use crate::walk::add_all;
use base::fault::OutlineFault;
use base::item::Item;
use base::tree::{ArrayId, Part, Place, Program, Region, ScalarId};
use std::alloc::{AllocError, Global};
use std::marker::Model;

mod bounds;
mod captures;
mod count;
mod entries;
mod items;
mod known;
mod maps;
mod uses;
mod walk;

// The longest list of items.
const MOST_ITEMS: u64 = 65_536;

/// A region of a program, and what it names.
#[derive(Drop)]
pub struct RegionEntry<'p> {
    pub region: &'p Region,
    /// Whether it is that of a `target`.
    pub is_kernel: bool,
    /// The scalars that it reads and that are declared outside it, in ascending order.
    pub captures: Vec<ScalarId>,
    /// The arrays that it uses, in ascending order.
    pub arrays: Vec<ArrayId>,
}

/// A program with its regions and its items.
#[derive(Drop)]
pub struct Outlined<'p> {
    program: &'p Program,
    lengths: Vec<u32>,
    regions: Vec<RegionEntry<'p>>,
    items: Vec<Item>,
    no_region: Region,
}

impl<'p> Model for Outlined<'p> {
    ghost use Rattle.base.specs.declared.tree.Program.{Program};
    ghost use Rattle.base.specs.contracts.tree.Program as code;
    ghost use Rattle.outline.specs.Outline.{IsOutline};

    ghost Value = { Program };

    ghost coded = { code.the_row.coded };

    ghost view = { λ o. o.program.now };

    ghost invariant = { λ o. IsOutline o.program.now o.lengths.items o.regions.items o.items.items o.no_region };
}

impl<'p> Outlined<'p> {
    /// The program itself.
    pub fn program(&self) -> &'p Program
        ensures { result.now ≡ self.now }
    {
        self.program
    }

    /// Each array's length, in order of declaration; fewer than 2^32.
    pub fn lengths(&self) -> &[u32]
        ensures lengths { result.now ≡ lengths_of self.now }
        ensures few { length result.now < 2 ^ 32 }
    {
        &self.lengths
    }

    /// The regions, in order of the text. An item names its region by the place in this list.
    pub fn regions(&self) -> &[RegionEntry<'p>]
        ensures { map entry_of result.now ≡ entries_of self.now }
    {
        &self.regions
    }

    /// The items, in program order; at most 65,536.
    pub fn items(&self) -> &[Item]
        ensures shown { all_shown (entries_of self.now) result.now ≡ as_shown (plan self.now).items }
        ensures few { length result.now ≤ most_items }
    {
        &self.items
    }

    /// A region without statements, for the items that have none of their own.
    pub fn no_region(&self) -> &Region
        ensures { result.now.body.items ≡ [] }
    {
        &self.no_region
    }
}

/// Turns `main` into its items. `TooManyItems` is answered exactly where there are more than 65,536, at once, whatever
/// the loops' turns. `OutOfMemory` is answered where an allocation fails, and where there are 2^32 regions or arrays.
pub fn outline<'p>(alloc: Global, program: &'p Program) -> Result<Outlined<'p>, OutlineFault>
    ensures outlined { IfOk result (λ o. o ≡ program.now) }
    ensures few { OnOk result (length (plan program.now).items ≤ most_items) }
    ensures many { IfErr result (λ f. (f ≡ OutlineFault.TooManyItems) ↔ (most_items < length (plan program.now).items)) }
{
    if count_all(&program.body) > MOST_ITEMS {
        return Err(OutlineFault::TooManyItems);
    }
    match build(alloc, program) {
        Ok(outlined) => Ok(outlined),
        Err(_) => Err(OutlineFault::OutOfMemory),
    }
}

// The outline of a program with few items.
fn build<'p>(alloc: Global, program: &'p Program) -> Result<Outlined<'p>, AllocError>
    requires { length (plan program.now).items ≤ most_items }
    ensures { IfOk result (λ o. o ≡ program.now) }
{
    let lengths = lengths_of(alloc, program)?;
    let counts = NameCounts {
        scalars: program.scalars.min(256) as usize,
        arrays: lengths.len() as u32,
    };
    let regions = regions_of(alloc, &program.body, counts)?;
    let known = Known {
        alloc,
        lengths: &lengths,
        regions: &regions,
        counts,
    };
    let items = items_of(&known, &program.body)?;
    Ok(Outlined {
        program,
        lengths,
        regions,
        items,
        no_region: Region {
            place: Place::default(),
            body: Vec::new(alloc),
            depth: 0,
        },
    })
}

// Each array's length, in order of declaration.
fn lengths_of(alloc: Global, program: &Program) -> Result<Vec<u32>, AllocError>
    ensures lengths { IfOk result (λ lengths. lengths.items ≡ lengths_of program.now) }
    ensures few { IfOk result (λ lengths. length lengths.items < 2 ^ 32) }
{
    let lengths: Vec<u32> = program.arrays.values().map(|a| a.length).collect(alloc)?;
    if lengths.len() > u32::MAX as usize {
        return Err(AllocError);
    }
    Ok(lengths)
}

// The regions, fewer than 2^32.
fn regions_of<'p>(
    alloc: Global,
    parts: &'p [Part],
    counts: NameCounts,
) -> Result<Vec<RegionEntry<'p>>, AllocError>
    ensures regions { IfOk result (λ regions. map entry_of regions.items ≡ list_entries counts.scalars counts.arrays parts.now) }
    ensures few { IfOk result (λ regions. length regions.items < 2 ^ 32) }
{
    let regions = entries(alloc, parts, counts)?;
    if regions.len() > u32::MAX as usize {
        return Err(AllocError);
    }
    Ok(regions)
}

// The items of parts under no loop.
fn items_of(known: &Known<'_, '_>, parts: &[Part]) -> Result<Vec<Item>, AllocError>
    requires { PartsAreAt known.now 0 parts.now }
    ensures { IfOk result (λ items. all_shown (entries_in known.now) items.items ≡ as_shown (parts_items parts.now known.now.lengths.now [])) }
{
    let mut loops = Vec::new(known.alloc);
    let mut items = Vec::new(known.alloc);
    add_all(known, parts, 0, &mut loops, &mut items)?;
    Ok(items)
}
