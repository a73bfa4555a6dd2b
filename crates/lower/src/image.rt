// The image of an accepted program.

ghost use Rattle.std.specs.Prelude.{◌≡◌, ◌<◌, ◌≤◌, ◌^◌, IfOk, Some, length, map, slice_get};
ghost use Rattle.base.specs.Accepted.{IsAccepted};
ghost use Rattle.base.specs.Items.{Work, plan};
ghost use Rattle.base.specs.Meaning.{lengths_of};
ghost use Rattle.base.specs.Limits.{most_items};
ghost use Rattle.lower.specs.Image.{AreReaches, IsReach, IsRegionOf, region_of};
ghost use Rattle.mapcheck.specs.Reaches;
ghost use Rattle.mapcheck.specs.Third.{AreMarked};
ghost use Rattle.outline.specs.Regions.{entries_of};
ghost use Rattle.outline.specs.Shown.{all_shown, as_shown};

use base::item::{Item, Section};
use base::tree::{ArrayId, Program};
use kernel::{Code, compile};
use outline::Outlined;
use std::alloc::{AllocError, Global};
use std::marker::Model;

/// An accepted program with the code of its regions, the cells that each item's region may touch, and the arrays that are
/// marked current. Its value is the program.
#[derive(Drop)]
pub struct Image<'a> {
    outlined: &'a Outlined<'a>,
    no_code: Code<'a>,
    // Of each region.
    codes: Vec<Code<'a>>,
    marked: Vec<ArrayId>,
    // Of each item.
    reaches: &'a [Vec<Section>],
}

impl<'a> Model for Image<'a> {
    ghost use Rattle.base.specs.declared.tree.Program.{Program};
    ghost use Rattle.base.specs.contracts.tree.Program as code;
    ghost use Rattle.lower.specs.Image.{IsImage};

    ghost Value = { Program };

    ghost coded = { code.the_row.coded };

    ghost view = { λ i. i.outlined.now };

    ghost invariant = { λ i. IsImage i.outlined.now i.no_code i.codes.items i.marked.items i.reaches.now };
}

impl<'a> Image<'a> {
    /// The program itself.
    pub fn program(&self) -> &'a Program
        ensures { result.now ≡ self.now }
    {
        self.outlined.program()
    }

    /// The program is accepted.
    pub fn is_accepted(&self)
        ensures { IsAccepted (plan self.now) }
    {
        let _marked = &self.marked;
    }

    /// The items, in program order; at most 65,536.
    pub fn items(&self) -> &'a [Item]
        ensures shown { all_shown (entries_of self.now) result.now ≡ as_shown (plan self.now).items }
        ensures few { length result.now ≤ most_items }
    {
        self.outlined.items()
    }

    /// Each array's length, in order of declaration; fewer than 2^32.
    pub fn lengths(&self) -> &'a [u32]
        ensures lengths { result.now ≡ lengths_of self.now }
        ensures few { length result.now < 2 ^ 32 }
    {
        self.outlined.lengths()
    }

    /// The arrays that are marked current, in ascending order.
    pub fn marked(&self) -> &[ArrayId]
        ensures { AreMarked (plan self.now) result.now }
    {
        &self.marked
    }

    /// The code of an item's region; where the item has none, of a region without statements.
    pub fn code(&self, item: usize) -> &Code<'a>
        requires { item < length (plan self.now).items }
        ensures { (w : Work) → slice_get (plan self.now).items item ≡ Some w → IsRegionOf w.region result.now }
    {
        let of_item = &self.items()[item];
        match of_item.region {
            None => &self.no_code,
            Some(number) => &self.codes[number as usize],
        }
    }

    fn reaches(&self) -> &'a [Vec<Section>]
        ensures count { length result.now ≡ length (plan self.now).items }
        ensures each { AreReaches (lengths_of self.now) (plan self.now).items result.now }
    {
        self.reaches
    }

    /// For each array a run of its cells; together they have each cell that the item's region may touch.
    pub fn reach(&self, item: usize) -> &[Section]
        requires { item < length (plan self.now).items }
        ensures { (w : Work) → slice_get (plan self.now).items item ≡ Some w → IsReach (lengths_of self.now) w result.now }
    {
        &self.reaches()[item]
    }
}

// The code of each region.
fn codes<'a>(alloc: Global, outlined: &'a Outlined<'a>) -> Result<Vec<Code<'a>>, AllocError>
    ensures { IfOk result (λ codes. codes.items ≡ map region_of (entries_of outlined.now)) }
{
    let mut codes = Vec::new(alloc);
    'entries: for entry in outlined.regions() {
        codes.push(compile(alloc, entry.region)?)?;
    }
    Ok(codes)
}

// The image of an accepted program, of which these arrays are marked current and whose items reach these cells. The error
// comes for want of memory.
pub(crate) fn build<'a>(
    alloc: Global,
    outlined: &'a Outlined<'a>,
    marked: Vec<ArrayId>,
    reaches: &'a [Vec<Section>],
) -> Result<Image<'a>, AllocError>
    requires accepted { IsAccepted (plan outlined.now) }
    requires marked { AreMarked (plan outlined.now) marked.items }
    requires reaches { Reaches.AreReaches (plan outlined.now) reaches.now }
    ensures { IfOk result (λ image. image ≡ outlined.now) }
{
    let no_code = compile(alloc, outlined.no_region())?;
    let codes = codes(alloc, outlined)?;
    Ok(Image {
        outlined,
        no_code,
        codes,
        marked,
        reaches,
    })
}
