// Where an item is opened.

ghost use Rattle.std.specs.Prelude.{◌≡◌, [], IfOk, OnOk, List, ℕ, Option, Some};
ghost use Rattle.base.specs.Map.{copies_from, copies_to};
ghost use Rattle.fine_machine.specs.Left as left;
ghost use Rattle.fine_machine.specs.Machine.{input_of};
ghost use Rattle.present.specs.Blocks.{IsSection};
ghost use Rattle.present.specs.Table.{AreSections};
ghost use Rattle.actions.specs.Control.{left_of};
ghost use Rattle.actions.specs.Rest.{frames_of};
ghost use Rattle.actions.specs.declared.control.Control.{Control};
ghost use Rattle.base.specs.declared.tree.Region.{Region};
ghost use Rattle.actions.specs.Opening.{InArrays, IsBegun, IsKernel, IsOpened, IsPut, IsRegion, PutsMaps, Puts, StaysInside, UpdatesAll, UpdatesOne, is_host};

use crate::control::Control;
use crate::frame::Frame;
use crate::maps::Maps;
use crate::scalars::Scalars;
use crate::stack::Frames;
use crate::strand::Strand;
use crate::turns::cells_of;
use crate::unordered::Unordered;
use base::item::{Item, ItemKind, MapItem, MapKind, Section};
use base::tree::Region;
use present::Table;
use present::presence::Presence;
use std::alloc::{AllocError, Global};
use std::collections::VecDeque;

// Whether an item works on the host.
fn is_host(kind: ItemKind) -> bool
    ensures { result ≡ is_host kind }
{
    match kind {
        ItemKind::Host => true,
        ItemKind::Target | ItemKind::Begin | ItemKind::End => false,
        ItemKind::Enter | ItemKind::Exit | ItemKind::Update | ItemKind::Wait => false,
    }
}

// Whether an update copies to the device.
fn copies_to(kind: MapKind) -> bool
    ensures { result ≡ copies_to kind }
{
    match kind {
        MapKind::To | MapKind::ToFrom => true,
        MapKind::From | MapKind::Alloc | MapKind::Release | MapKind::Delete => false,
    }
}

// Whether an update copies to the host.
fn copies_from(kind: MapKind) -> bool
    ensures { result ≡ copies_from kind }
{
    match kind {
        MapKind::From | MapKind::ToFrom => true,
        MapKind::To | MapKind::Alloc | MapKind::Release | MapKind::Delete => false,
    }
}

// The cells of a section are copied to the device, if so told, before the others.
fn put_in(frames: &mut Frames<'_>, copies: bool, section: &Section) -> Result<(), AllocError>
    requires { IsSection section.now }
    ensures { OnOk result (PutsMaps (left.left_if copies (left.section_left left.CopyIn section.now))
        (frames_of frames.old) (frames_of frames.new)) }
{
    if copies {
        frames.push(Frame::CopyIn(cells_of(section)))?;
    }
    Ok(())
}

// The cells of a section are copied to the host, if so told, before the others.
fn put_out(frames: &mut Frames<'_>, copies: bool, section: &Section) -> Result<(), AllocError>
    requires { IsSection section.now }
    ensures { OnOk result (PutsMaps (left.left_if copies (left.section_left left.CopyOut section.now))
        (frames_of frames.old) (frames_of frames.new)) }
{
    if copies {
        frames.push(Frame::CopyOut(cells_of(section)))?;
    }
    Ok(())
}

// The copies of a section of an update, which has storage, come before the others.
fn put_copies(frames: &mut Frames<'_>, item: &MapItem) -> Result<(), AllocError>
    requires { IsSection item.now.section }
    ensures { OnOk result (PutsMaps (left.update_left item.now) (frames_of frames.old) (frames_of frames.new)) }
{
    put_out(frames, copies_from(item.kind), &item.section)?;
    put_in(frames, copies_to(item.kind), &item.section)
}

// A section of an update comes before those after it. The answer is false where the update fails.
fn put_update(frames: &mut Frames<'_>, table: &Table, item: &MapItem) -> Result<bool, AllocError>
    requires { IsSection item.now.section }
    ensures { IfOk result (λ done. UpdatesOne table.now item.now done
        (frames_of frames.old) (frames_of frames.new)) }
{
    match table.presence(&item.section) {
        Presence::Absent => Ok(!item.present),
        Presence::Inside => {
            put_copies(frames, item)?;
            Ok(true)
        }
        Presence::InPart => Ok(false),
    }
}

// The sections of an update come before the others. The answer is false where the update fails.
fn put_updates(frames: &mut Frames<'_>, table: &Table, maps: &[MapItem]) -> Result<bool, AllocError>
    requires { AreSections maps.now }
    ensures { IfOk result (λ done. UpdatesAll table.now maps.now done
        (frames_of frames.old) (frames_of frames.new)) }
{
    let mut first = maps.len();
    'sections: while first > 0 {
        first -= 1;
        if !put_update(frames, table, &maps[first])? {
            return Ok(false);
        }
    }
    Ok(true)
}

// The kernel of an item of which the turns may run in any order, if it has one.
fn kernel_of<'p>(it: &'p Item, region: Option<&'p Region>) -> Option<Unordered<'p>>
    requires { AreSections it.now.maps.items }
    ensures { (r : Option Region) → IsRegion region.entry r → IsKernel it.now r result }
{
    let Some(region) = region else {
        return None;
    };
    match it.kind {
        ItemKind::Target => {}
        ItemKind::Host | ItemKind::Begin | ItemKind::End => return None,
        ItemKind::Enter | ItemKind::Exit | ItemKind::Update | ItemKind::Wait => return None,
    }
    if region.depth == 0 {
        return None;
    }
    Some(Unordered {
        depth: region.depth,
        body: &region.body,
        loops: &it.loops.values,
        next: 0,
        exits: Maps { items: &it.maps },
    })
}

// The statements of a region, if there is one, come before the others.
fn put_region<'p>(frames: &mut Frames<'p>, region: Option<&'p Region>) -> Result<(), AllocError>
    ensures { (r : Option Region) → IsRegion region.entry r →
        OnOk result (Puts (left.region_left r) (frames_of frames.old) (frames_of frames.new)) }
{
    match region {
        None => Ok(()),
        Some(region) => frames.push(Frame::Rest(&region.body)),
    }
}

// The parts of an item, of which there are none yet, up to its kernel if the turns may run in any order. The answer is
// false where an update fails.
fn put_parts<'p>(
    frames: &mut Frames<'p>,
    it: &'p Item,
    region: Option<&'p Region>,
    kernel: Option<Unordered<'p>>,
    table: &Table,
) -> Result<bool, AllocError>
    requires sections { AreSections it.now.maps.items }
    requires none { frames_of frames.old ≡ [] }
    ensures { (r : Option Region) (order : List ℕ) → IsRegion region.entry r → IsKernel it.now r kernel.entry →
        IfOk result (λ done. IsPut it.now r order kernel.entry table.now done (frames_of frames.new)) }
{
    let maps = Maps { items: &it.maps };
    if let Some(_) = kernel {
        frames.push(Frame::Entries(maps))?;
        return Ok(true);
    }
    match it.kind {
        ItemKind::Host => put_region(frames, region)?,
        ItemKind::Target => {
            frames.push(Frame::Exits(maps))?;
            put_region(frames, region)?;
            frames.push(Frame::Entries(maps))?;
        }
        ItemKind::Begin => frames.push(Frame::Entries(maps))?,
        ItemKind::Enter => frames.push(Frame::Entries(maps))?,
        ItemKind::End => frames.push(Frame::Exits(maps))?,
        ItemKind::Exit => frames.push(Frame::Exits(maps))?,
        ItemKind::Update => return put_updates(frames, table, &it.maps),
        ItemKind::Wait => {}
    }
    Ok(true)
}

// The input of an item: a host item has that of the run, another none.
fn input_of<'p>(kind: ItemKind, input: &'p [u64]) -> &'p [u64]
    ensures { result.now ≡ input_of kind input.now }
{
    if is_host(kind) { input } else { &[] }
}

// An item with these parts, as it begins.
fn begun<'p>(
    alloc: Global,
    it: &Item,
    frames: Frames<'p>,
    scalars: &[u64; 256],
    input: &'p [u64],
) -> Result<Strand<'p>, AllocError>
    ensures { IfOk result (IsBegun it.now scalars.now input.now (frames_of frames.entry)) }
{
    Ok(Strand {
        on_host: is_host(it.kind),
        frames,
        loops: Vec::from_slice(alloc, &it.loops.values)?,
        number: 0,
        scalars: Scalars::new(alloc, scalars)?,
        input: input_of(it.kind, input),
        printed: Vec::new(alloc),
    })
}

/// What is left of an item that is opened, up to its first action; none where an update's section overlaps a block of
/// its device in part, or is to be present and is absent. `order` picks among the turns of its kernel, if they may
/// run in any order, and `table` is that of its device. The error comes for want of memory.
pub fn open<'p>(
    alloc: Global,
    it: &'p Item,
    region: Option<&'p Region>,
    order: &'p [u32],
    scalars: &[u64; 256],
    input: &'p [u64],
    table: &Table,
) -> Result<Option<Control<'p>>, AllocError>
    requires { AreSections it.now.maps.items }
    ensures opened { (r : Option Region) → IsRegion region.entry r →
        IfOk result (IsOpened it.now r order.now scalars.now input.now table.now) }
    ensures inside { IfOk result (λ o. (c : Control) (lengths : List ℕ) → o ≡ Some c →
        InArrays lengths it.now.maps.items → StaysInside lengths (left_of c)) }
{
    let kernel = kernel_of(it, region);
    let mut frames = Frames::new(alloc);
    if !put_parts(&mut frames, it, region, kernel, table)? {
        return Ok(None);
    }
    let mut control = Control {
        alloc,
        turns: VecDeque::new(alloc),
        order,
        strand: begun(alloc, it, frames, scalars, input)?,
        kernel,
    };
    control.begin()?;
    Ok(Some(control))
}
