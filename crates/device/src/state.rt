// The state of a run.

ghost use Rattle.std.specs.Prelude.{◌≡◌, ◌++◌, ◌∷◌, [], true, IsTrue, IfErr, IfOk, is_ok, OnOk, OnErr, None, length, map, option_map, replicate, List};
ghost use Rattle.base.specs.declared.item.Event.{Event};
ghost use Rattle.host_memory.specs.Arrays.{memory_of};
ghost use Rattle.base.specs.Items.{plan};
ghost use Rattle.base.specs.Meaning.{output_of};
ghost use Rattle.base.specs.Headline.{AreNumbers};
ghost use Rattle.base.specs.Machine.{enabled};
ghost use Rattle.base.specs.declared.item.Event.TheVariants as event;
ghost use Rattle.base.specs.Blocks.{holder};
ghost use Rattle.device.specs.Room.{HasStayed};
ghost use Rattle.device.specs.Run.{IsStart, after, state_of};
ghost use Rattle.device.specs.Running.{IsReached};

use crate::standing::Standing;
use base::fault::RunFault;
use base::item::{Cell, Event, Section};
use base::tree::{DeviceId, Program};
use host_memory::Memory;
use lower::Image;
use std::alloc::{AllocError, Global};
use std::marker::Model;

/// A run of an accepted program on a host memory and the storage of each device, between two of its events.
#[derive(Drop)]
pub struct RunState<'a> {
    pub(crate) alloc: Global,
    pub(crate) image: &'a Image<'a>,
    pub(crate) capacity: u64,
    pub(crate) whole: &'a [u64],
    pub(crate) standing: Standing<'a>,
    pub(crate) history: Vec<Event>,
}

impl<'a> Model for RunState<'a> {
    ghost use Rattle.device.specs.Run.{Run, run_code};

    ghost Value = { Run };

    ghost coded = { run_code };

    ghost use Rattle.device.specs.Running.{run_of, Shows};

    ghost view = { run_of };

    ghost invariant = { Shows };
}

impl<'a> RunState<'a> {
    /// A run that has done nothing, on devices each with room for `capacity` cells. `input` holds the numbers that `read`
    /// takes in turn. The error comes for want of memory.
    pub fn new(
        alloc: Global,
        image: &'a Image<'a>,
        input: &'a [u64],
        capacity: u64,
    ) -> Result<RunState<'a>, AllocError>
        ensures start { IfOk result (IsStart image.now input.now capacity) }
    {
        are_numbers(input);
        image.is_accepted();
        let standing = Standing::new(alloc, image, input, capacity)?;
        Ok(RunState {
            alloc,
            image,
            capacity,
            whole: input,
            standing,
            history: Vec::new(alloc),
        })
    }

    /// The program that is run.
    pub fn program(&self) -> &'a Program
        ensures { result.now ≡ self.now.program }
    {
        self.image.program()
    }

    /// The events so far are a run of the machine, which has kept to the room of each device.
    pub fn is_reached(&self)
        ensures reached { IsReached self.now }
        ensures stayed { HasStayed self.now }
    {
        let _whole = &self.whole;
    }

    /// The events so far.
    pub fn history(&self) -> &[Event]
        ensures { result.now ≡ self.now.history }
    {
        &self.history
    }

    /// How many cells each device has room for.
    pub fn capacity(&self) -> u64
        ensures { result ≡ self.now.capacity }
    {
        self.capacity
    }

    /// What was printed so far: each number in decimal, in a line of its own.
    pub fn output(&self) -> &[u8]
        ensures { result.now ≡ output_of (state_of self.now).output }
    {
        self.standing.output.text()
    }

    /// The number that a cell has on the host; 0 for a cell that is not in its array.
    pub fn host_cell(&self, cell: Cell) -> u64
        ensures { result ≡ (state_of self.now).memories.host cell }
    {
        number_of(&self.standing.host, cell)
    }

    /// How often the device's block that has a cell was entered and not yet left, if there is one.
    pub fn count(&self, device: DeviceId, cell: Cell) -> Option<u64>
        ensures { result ≡ option_map (λ b. b.count) (holder ((state_of self.now).memories.devices device.number).blocks cell) }
    {
        match self.standing.devices.table(device).lookup(cell) {
            None => None,
            Some((_, count)) => Some(count),
        }
    }

    /// The number that a cell has on a device, if it has storage there.
    pub fn device_cell(&self, device: DeviceId, cell: Cell) -> Option<u64>
        ensures { result ≡ ((state_of self.now).memories.devices device.number).cells cell }
    {
        self.standing.devices.table(device).load(cell)
    }

    /// The host generates the item at which it stands. The error comes for want of memory.
    pub fn generate(&mut self, item: u32) -> Result<(), AllocError>
        requires { IsTrue (enabled (plan self.old.program) (state_of self.old) (event.Gen item)) }
        ensures generated { OnOk result (self.new ≡ after self.old (event.Gen item)) }
        ensures unchanged { OnErr result (self.new ≡ self.old) }
    {
        note(&mut self.history, Event::Gen(item))?;
        match self.standing.generate(self.alloc, item) {
            Ok(()) => Ok(()),
            Err(error) => {
                self.history.pop();
                Err(error)
            }
        }
    }

    /// The host passes the wait at which it stands. The error comes for want of memory.
    pub fn wait(&mut self, item: u32) -> Result<(), AllocError>
        requires { IsTrue (enabled (plan self.old.program) (state_of self.old) (event.Wait item)) }
        ensures passed { OnOk result (self.new ≡ after self.old (event.Wait item)) }
        ensures unchanged { OnErr result (self.new ≡ self.old) }
    {
        note(&mut self.history, Event::Wait(item))?;
        self.standing.pass(item);
        Ok(())
    }

    /// The host comes to the end. The error comes for want of memory.
    pub fn end(&mut self) -> Result<(), AllocError>
        requires { IsTrue (enabled (plan self.old.program) (state_of self.old) event.End) }
        ensures ended { OnOk result (self.new ≡ after self.old event.End) }
        ensures unchanged { OnErr result (self.new ≡ self.old) }
    {
        note(&mut self.history, Event::End)?;
        self.standing.end();
        Ok(())
    }
}

/// What every slice of numbers is.
pub fn are_numbers(input: &[u64])
    ensures { AreNumbers input.now }
{
    let _input = input;
}

// The number of a cell, 0 where the memory does not have it.
fn number_of(host: &Memory, cell: Cell) -> u64
    ensures { result ≡ memory_of host.now cell }
{
    if cell.index >= host.length(cell.array) {
        return 0;
    }
    let one = Section {
        array: cell.array,
        first: cell.index,
        length: 1,
    };
    host.section(&one)[0]
}

// One more event in the history.
pub(crate) fn note(history: &mut Vec<Event>, event: Event) -> Result<(), AllocError>
    ensures noted { OnOk result (history.new.items ≡ history.old.items ++ event ∷ []) }
    ensures unchanged { OnErr result (history.new.items ≡ history.old.items) }
{
    history.push(event)?;
    Ok(())
}

// The outcome of what fails for want of memory alone.
pub(crate) fn or_out_of_memory(outcome: Result<(), AllocError>) -> Result<(), RunFault>
    ensures same { is_ok result ≡ is_ok outcome }
    ensures fault { IfErr result (λ fault. fault ≡ RunFault.OutOfMemory) }
{
    match outcome {
        Ok(()) => Ok(()),
        Err(_) => Err(RunFault::OutOfMemory),
    }
}

// The last event is taken back.
pub(crate) fn forget(history: &mut Vec<Event>)
    ensures { (before : List Event) (last : Event) → history.old.items ≡ before ++ last ∷ [] → history.new.items ≡ before }
{
    history.pop();
}
