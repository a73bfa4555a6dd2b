// Where a run stands, and the events that take no frames.

ghost use Rattle.std.specs.Prelude.{◌≡◌, ◌<◌, ◌≤◌, ◌^◌, true, false, [], IfOk, None, OnOk, OnErr, length, map, replicate};
ghost use Rattle.std.specs.List.{slice_set};
ghost use Rattle.base.specs.Items.{plan};
ghost use Rattle.base.specs.Machine.{start};
ghost use Rattle.base.specs.declared.item.Event.TheVariants as event;
ghost use Rattle.outline.specs.Regions.{entries_of};
ghost use Rattle.taskgraph.specs.Board.{allows};
ghost use Rattle.device.specs.Devices.{HaveRoom, fresh_of};
ghost use Rattle.device.specs.Standing.{IsAt, Follows, Stays, issue_of};

use crate::devices::Devices;
use crate::output::Output;
use crate::shared_frame::SharedFrame;
use host_memory::Memory;
use kernel::Scalars;
use lower::Image;
use std::alloc::{AllocError, Global};
use taskgraph::Graph;

/// What is kept for an item: nothing, the scalars that it captured, or the frame that its opening issued.
#[derive(Drop)]
pub enum Held<'a> {
    Nothing,
    Captured(Scalars),
    Issued(SharedFrame<'a>),
}

/// Where a run stands: the host memory and the storage of each device, the order of the items, the scalars, the input
/// that is left, the numbers that were printed, what is kept for each item, and how many map items were entered.
#[derive(Drop)]
pub struct Standing<'a> {
    pub host: Memory,
    pub devices: Devices,
    pub graph: Graph,
    pub ended: bool,
    pub scalars: Scalars,
    pub input: &'a [u64],
    pub output: Output,
    pub held: Vec<Held<'a>>,
    pub entered: u64,
}

/// Nothing, for each item.
fn nothing_held<'a>(alloc: Global, count: usize) -> Result<Vec<Held<'a>>, AllocError>
    ensures { IfOk result (λ held. held.items ≡ replicate count Held.Nothing) }
{
    let mut held = Vec::new(alloc);
    for _ in 0..count {
        held.push(Held::Nothing)?;
    }
    Ok(held)
}

impl<'a> Standing<'a> {
    /// The start of a run, on zeros and empty devices, each with room for `capacity` cells.
    pub fn new(
        alloc: Global,
        image: &Image<'_>,
        input: &'a [u64],
        capacity: u64,
    ) -> Result<Standing<'a>, AllocError>
        ensures start { IfOk result (λ now. IsAt (plan image.now) now (start input.now)) }
        ensures capacity { IfOk result (λ now. HaveRoom now.devices capacity) }
        ensures number { IfOk result (λ now. fresh_of now.devices < 2 ^ 64) }
        ensures held { IfOk result (λ now. map issue_of now.held.items ≡ replicate (length (plan image.now).items) None) }
        ensures entered { IfOk result (λ now. now.entered ≡ 0) }
    {
        let items = image.items();
        let host = Memory::new(alloc, image.lengths())?;
        let graph = Graph::new(alloc, items)?;
        let held = nothing_held(alloc, items.len())?;
        let devices = Devices::new(alloc, capacity);
        Ok(Standing {
            host,
            devices,
            graph,
            ended: false,
            scalars: Scalars::zeros(alloc),
            input,
            output: Output::new(alloc),
            held,
            entered: 0,
        })
    }

    /// The host generates the item at which it stands: the scalars are captured, and the host moves on.
    pub fn generate(&mut self, alloc: Global, item: u32) -> Result<(), AllocError>
        requires here { allows self.old.graph (event.Gen item) ≡ true }
        requires inside { item < length self.old.held.items }
        requires going { self.old.ended ≡ false }
        ensures generated { OnOk result (Follows self.old (event.Gen item) self.new) }
        ensures unchanged { OnErr result (self.new ≡ self.old) }
        ensures issued { OnOk result (map issue_of self.new.held.items ≡ slice_set (map issue_of self.old.held.items) item None) }
        ensures devices { self.new.devices ≡ self.old.devices }
    {
        let captured = self.scalars.copy(alloc)?;
        self.held[item as usize] = Held::Captured(captured);
        self.graph.generate(item as usize);
        Ok(())
    }

    /// The host passes the wait at which it stands.
    pub fn pass(&mut self, item: u32)
        requires here { allows self.old.graph (event.Wait item) ≡ true }
        requires going { self.old.ended ≡ false }
        ensures passed { Follows self.old (event.Wait item) self.new }
        ensures held { self.new.held ≡ self.old.held }
        ensures devices { self.new.devices ≡ self.old.devices }
    {
        self.graph.waited(item as usize);
    }

    /// The host comes to the end.
    pub fn end(&mut self)
        requires { self.old.ended ≡ false }
        ensures ended { Follows self.old event.End self.new }
        ensures held { self.new.held ≡ self.old.held }
        ensures devices { self.new.devices ≡ self.old.devices }
    {
        self.ended = true;
    }
}
