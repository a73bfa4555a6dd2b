// The frame of an item.

ghost use Rattle.std.specs.Prelude.{◌≡◌, ◌<◌, false, IfOk, length};
ghost use Rattle.base.specs.Accepted.{is_host, is_target};
ghost use Rattle.host_memory.specs.Arrays.{lengths_of};
ghost use Rattle.base.specs.Items.{plan};
ghost use Rattle.device.specs.Framing.{Captures, FramesWell};
ghost use Rattle.device.specs.Opening.{IsEmpty};

use crate::standing::{Held, Standing};
use base::item::{Item, ItemKind, Section};
use frames::{host_frame, kernel_frame};
use kernel::{Frame, Scalars};
use lower::Image;
use std::alloc::{AllocError, Global};

/// The frame of an item before its entries are done: that of a kernel has room for the cells in reach, and none of them
/// yet.
#[derive(Drop)]
pub struct Unfilled<'r, 'a> {
    pub frame: Frame<'a>,
    pub reach: &'r [Section],
}

impl<'a> Standing<'a> {
    // The scalars that an item has captured, or those of now where it is not deferred.
    fn captured(&self, deferred: bool, item: u32) -> &Scalars
        requires { item < length self.now.held.items }
        ensures { Captures self.now deferred item result.now }
    {
        if !deferred {
            return &self.scalars;
        }
        match &self.held[item as usize] {
            Held::Captured(scalars) => scalars,
            Held::Nothing => &self.scalars,
            Held::Issued(_) => &self.scalars,
        }
    }

    // The frame of a host item.
    fn frame_of_host<'r>(
        &self,
        alloc: Global,
        image: &'r Image<'a>,
        it: &'a Item,
        item: u32,
    ) -> Result<Unfilled<'r, 'a>, AllocError>
        requires inside { item < length self.now.held.items }
        requires same { length self.now.held.items ≡ length (plan image.now).items }
        requires lengths { lengths_of self.now.host ≡ (plan image.now).lengths }
        requires kind { it.now.kind ≡ ItemKind.Host }
        ensures serves { IfOk result (FramesWell image.now self.now item it.now) }
    {
        let held = self.captured(it.deferred, item);
        let scalars = held.copy(alloc)?;
        let reach = image.reach(item as usize);
        let frame = host_frame(
            alloc, item, &it.loops, scalars, self.input, reach, &self.host,
        )?;
        Ok(Unfilled { frame, reach })
    }

    // The frame of a target, with room for its cells.
    fn frame_of_target<'r>(
        &self,
        alloc: Global,
        image: &'r Image<'a>,
        it: &'a Item,
        item: u32,
    ) -> Result<Unfilled<'r, 'a>, AllocError>
        requires inside { item < length self.now.held.items }
        requires same { length self.now.held.items ≡ length (plan image.now).items }
        requires kind { it.now.kind ≡ ItemKind.Target }
        ensures empty { IfOk result IsEmpty }
        ensures serves { IfOk result (FramesWell image.now self.now item it.now) }
    {
        let held = self.captured(it.deferred, item);
        let scalars = held.copy(alloc)?;
        let reach = image.reach(item as usize);
        let frame = kernel_frame(alloc, item, &it.loops, scalars, reach)?;
        Ok(Unfilled { frame, reach })
    }

    // The frame of an item without a region.
    fn frame_of_none<'r>(
        &self,
        alloc: Global,
        image: &'r Image<'a>,
        it: &'a Item,
        item: u32,
    ) -> Result<Unfilled<'r, 'a>, AllocError>
        requires inside { item < length self.now.held.items }
        requires same { length self.now.held.items ≡ length (plan image.now).items }
        requires host { is_host it.now.kind ≡ false }
        requires target { is_target it.now.kind ≡ false }
        ensures serves { IfOk result (FramesWell image.now self.now item it.now) }
    {
        let held = self.captured(it.deferred, item);
        let scalars = held.copy(alloc)?;
        let reach = image.reach(item as usize);
        let frame = Frame {
            item,
            loops: &it.loops,
            scalars,
            rows: Vec::new(alloc),
            input: &[],
        };
        Ok(Unfilled { frame, reach })
    }

    /// The frame of an item that may be opened, before its entries are done.
    pub fn frame<'r>(
        &self,
        alloc: Global,
        image: &'r Image<'a>,
        it: &'a Item,
        item: u32,
    ) -> Result<Unfilled<'r, 'a>, AllocError>
        requires inside { item < length self.now.held.items }
        requires same { length self.now.held.items ≡ length (plan image.now).items }
        requires lengths { lengths_of self.now.host ≡ (plan image.now).lengths }
        ensures empty { IfOk result (λ u. it.now.kind ≡ ItemKind.Target → IsEmpty u) }
        ensures serves { IfOk result (FramesWell image.now self.now item it.now) }
    {
        match it.kind {
            ItemKind::Host => self.frame_of_host(alloc, image, it, item),
            ItemKind::Target => self.frame_of_target(alloc, image, it, item),
            ItemKind::Begin => self.frame_of_none(alloc, image, it, item),
            ItemKind::End => self.frame_of_none(alloc, image, it, item),
            ItemKind::Enter => self.frame_of_none(alloc, image, it, item),
            ItemKind::Exit => self.frame_of_none(alloc, image, it, item),
            ItemKind::Update => self.frame_of_none(alloc, image, it, item),
            ItemKind::Wait => self.frame_of_none(alloc, image, it, item),
        }
    }
}
