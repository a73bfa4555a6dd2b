// Where an item is opened.

ghost use Rattle.std.specs.Prelude.{◌≡◌, ◌<◌, true, false, map, length, IfErr, IfOk, IfSome, OnErr, OnOk, Some, is_some, slice_get};
ghost use Rattle.base.specs.declared.item.Event.TheVariants as event;
ghost use Rattle.present.specs.Table.{AreSections, AreWithin, HasRoom, IsUnchanged};
ghost use Rattle.taskgraph.specs.Board.{allows};
ghost use Rattle.frames.specs.Rows.{FitIn};
ghost use Rattle.device.specs.Blank.{IsBlank, IsBlankOf};
ghost use Rattle.device.specs.Devices.{AreKept, LooksTheSame, OnTable};
ghost use Rattle.device.specs.Moves.{AreCounted, IsMapsFault, enters};
ghost use Rattle.device.specs.Opening.{FollowsOpen, GoesIn, IsEmpty, IsFilled, IsSame, Issues};
ghost use Rattle.device.specs.Standing.{frame_parts, issue_of};

use crate::devices::Devices;
use crate::frame::Unfilled;
use crate::shared_frame::SharedFrame;
use crate::standing::{Held, Standing};
use base::fault::RunFault;
use base::item::{Item, ItemKind};
use base::tree::DeviceId;
use frames::load_rows;
use kernel::Frame;
use present::Table;
use std::alloc::Global;

// The frame of a kernel gets its cells, with the numbers of its device. It takes no memory.
fn fill<'a>(
    alloc: Global,
    kind: ItemKind,
    unfilled: Unfilled<'_, 'a>,
    table: &mut Table,
) -> Frame<'a>
    requires { kind ≡ ItemKind.Target → IsEmpty unfilled }
    ensures filled { IsFilled kind unfilled.entry table.new result }
    ensures unchanged { IsUnchanged table.old table.new }
    ensures fits { FitIn unfilled.entry.frame.rows.items result.rows.items }
{
    let Unfilled { mut frame, reach } = unfilled;
    match kind {
        ItemKind::Target => load_rows(alloc, &mut frame.rows, reach, table),
        ItemKind::Host => {}
        ItemKind::Begin => {}
        ItemKind::End => {}
        ItemKind::Enter => {}
        ItemKind::Exit => {}
        ItemKind::Update => {}
        ItemKind::Wait => {}
    }
    frame
}

impl Devices {
    // The frame of a kernel gets its cells, with the numbers of its device, whose table looks the same.
    fn fill<'a>(
        &mut self,
        alloc: Global,
        device: DeviceId,
        kind: ItemKind,
        unfilled: Unfilled<'_, 'a>,
    ) -> Frame<'a>
        requires { kind ≡ ItemKind.Target → IsEmpty unfilled }
        ensures filled { OnTable self.new device.number (λ t. IsFilled kind unfilled.entry t result) }
        ensures same { LooksTheSame device.number self.old self.new }
        ensures fits { FitIn unfilled.entry.frame.rows.items result.rows.items }
    {
        fill(
            alloc,
            kind,
            unfilled,
            &mut self.tables[device.number as usize],
        )
    }
}

// The owners of a filled frame: the run, and the job for which there is a blank one.
fn owners<'a>(
    alloc: Global,
    frame: Frame<'a>,
    blank: Option<Frame<'a>>,
) -> (SharedFrame<'a>, Option<SharedFrame<'a>>)
    requires { IfSome blank (IsBlank (frame_parts frame)) }
    ensures kept { result.0 ≡ frame.entry }
    ensures wanted { is_some result.1 ≡ is_some blank.entry }
    ensures job { IfSome result.1 (λ f. frame_parts f ≡ frame_parts frame.entry) }
{
    match blank {
        None => (SharedFrame::new(frame), None),
        Some(blank) => {
            let (kept, job) = SharedFrame::pair(alloc, frame, blank);
            (kept, Some(job))
        }
    }
}

impl<'a> Standing<'a> {
    /// An item is opened: its entries, exits or updates are done on its device, and its frame is filled and kept. It is
    /// answered too where there is a blank one for the answer. The error is `DeviceFull` where its entries together would
    /// create more cells than the device has room for, or `OutOfMemory`.
    pub fn open(
        &mut self,
        alloc: Global,
        it: &Item,
        item: u32,
        unfilled: Unfilled<'_, 'a>,
        blank: Option<Frame<'a>>,
    ) -> Result<Option<SharedFrame<'a>>, RunFault>
        requires here { allows self.old.graph (event.Open item) ≡ true }
        requires inside { item < length self.old.held.items }
        requires going { self.old.ended ≡ false }
        requires empty { it.now.kind ≡ ItemKind.Target → IsEmpty unfilled }
        requires blank { IfSome blank (IsBlankOf unfilled.frame) }
        requires sections { AreSections it.now.maps.items }
        requires within { AreWithin self.old.host it.now.maps.items }
        requires counted { OnTable self.old.devices it.now.device.number (λ t. AreCounted t self.old.entered) }
        requires goes { GoesIn self.old it.now }
        ensures opened { OnOk result (FollowsOpen self.old item it.now unfilled.entry self.new) }
        ensures issued { OnOk result (Issues item self.old self.new) }
        ensures wanted { IfOk result (λ job. is_some job ≡ is_some blank.entry) }
        ensures job { IfOk result (λ job. IfSome job (λ f. slice_get (map issue_of self.new.held.items) item ≡ Some (Some (frame_parts f)))) }
        ensures room { OnOk result (enters it.now.kind ≡ true → OnTable self.old.devices it.now.device.number (λ t. HasRoom t it.now.maps.items)) }
        ensures fault { IfErr result (λ f. OnTable self.old.devices it.now.device.number (λ t. IsMapsFault t it.now.kind it.now.maps.items f)) }
        ensures unchanged { OnErr result (IsSame it.now.device.number self.old self.new) }
        ensures kept { AreKept self.old.devices self.new.devices }
    {
        match self.devices.open(
            it.device,
            &mut self.host,
            &mut self.entered,
            it.kind,
            &it.maps,
        ) {
            Err(fault) => Err(fault),
            Ok(()) => {
                let frame = self.devices.fill(alloc, it.device, it.kind, unfilled);
                let (kept, job) = owners(alloc, frame, blank);
                self.held[item as usize] = Held::Issued(kept);
                self.graph.opened(item as usize);
                Ok(job)
            }
        }
    }
}
