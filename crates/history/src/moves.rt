// What single moves do to the history of a cell.

ghost use Rattle.std.specs.Prelude.{◌≡◌, ◌<◌, ◌+◌, ℕ, IfOk, IfSome, OnOk, None, false, true};
ghost use Rattle.base.specs.Current.{at_start};
ghost use Rattle.ranges.specs.Cells.{has};
ghost use Rattle.history.specs.Places.{IsSide, Places, at_cell, is_current, place_of, shown, with_place};
ghost use Rattle.history.specs.Since.{AreSince, IsKept, IsLast};
ghost use Rattle.history.specs.Moves.{IsDeed, IsSet, place_if, ran, spoiled_below, spoiled_if};

use crate::{DEVICES, Event, History, How, Side, State};
use base::item::Cell;
use ranges::Footprint;
use std::alloc::{AllocError, Global};

impl History {
    /// Current on the host alone.
    pub(crate) fn new(alloc: Global, cell: Cell) -> Result<History, AllocError>
        ensures cell { IfOk result (λ h. h.cell ≡ cell) }
        ensures shown { IfOk result (λ h. shown h ≡ at_cell cell at_start) }
        ensures since { IfOk result (λ h. (past : ℕ → Places) → past 0 ≡ at_cell cell at_start → AreSince past 0 h) }
    {
        let mut devices = Vec::new(alloc);
        let mut events = Vec::new(alloc);
        'devices: for device in 0..DEVICES {
            events.push(Event {
                item: 0,
                side: Side::Device(device as u8),
                how: How::Never,
            })?;
            devices.push(State::Stale(device))?;
        }
        Ok(History {
            cell,
            host: State::Current,
            devices,
            events,
        })
    }

    /// Whether the cell is current on a side.
    pub fn state(&self, side: Side) -> State
        ensures shown { IsSide side → is_current result ≡ place_of side (shown self.now) }
        ensures kept { IsSide side → IsKept side result self.now }
    {
        match side {
            Side::Host => self.host,
            Side::Device(device) => {
                self.devices
                    .get(device as usize)
                    .copied()
                    .unwrap_or(State::Current)
            }
        }
    }

    /// The event that made the cell stale last on a side, where it is.
    pub fn event(&self, side: Side) -> Option<Event>
        ensures last { IsSide side → (past : ℕ → Places) (n : ℕ) → AreSince past n self.now → IfSome result (IsLast (λ k. place_of side (past k)) n) }
        ensures none { IsSide side → (past : ℕ → Places) (n : ℕ) → AreSince past n self.now → result ≡ None → place_of side (shown self.now) ≡ true }
    {
        match self.state(side) {
            State::Current => None,
            State::Stale(number) => self.events.get(number).copied(),
        }
    }

    fn set(&mut self, side: Side, state: State)
        requires { IsSide side }
        ensures set { IsSet side state self.old.host self.old.devices.items self.new }
        ensures events { self.new.events ≡ self.old.events }
        ensures cell { self.new.cell ≡ self.old.cell }
    {
        match side {
            Side::Host => self.host = state,
            Side::Device(device) => self.devices[device as usize] = state,
        }
    }

    /// An item makes the cell stale on a side.
    pub(crate) fn spoil(&mut self, item: u32, side: Side, how: How) -> Result<(), AllocError>
        requires side { IsSide side }
        requires deed { IsDeed how }
        ensures shown { OnOk result (shown self.new ≡ with_place side false (shown self.old)) }
        ensures since { OnOk result ((past : ℕ → Places) → AreSince past item self.old → AreSince past item self.new) }
        ensures cell { self.new.cell ≡ self.old.cell }
    {
        let number = self.events.len();
        self.events.push(Event { item, side, how })?;
        self.set(side, State::Stale(number));
        Ok(())
    }

    /// A map item copies the cell from one side to another.
    pub(crate) fn copy(
        &mut self,
        item: u32,
        map: usize,
        from: Side,
        to: Side,
    ) -> Result<(), AllocError>
        requires from { IsSide from }
        requires to { IsSide to }
        ensures shown { OnOk result (shown self.new ≡ with_place to (place_of from (shown self.old)) (shown self.old)) }
        ensures since { OnOk result ((past : ℕ → Places) → AreSince past item self.old → AreSince past item self.new) }
        ensures cell { self.new.cell ≡ self.old.cell }
    {
        match self.state(from) {
            State::Current => {
                self.set(to, State::Current);
                Ok(())
            }
            State::Stale(number) => self.spoil(item, to, How::Copied(map, from, Some(number))),
        }
    }

    pub(crate) fn spoil_if(
        &mut self,
        holds: bool,
        item: u32,
        side: Side,
        how: How,
    ) -> Result<(), AllocError>
        requires side { IsSide side }
        requires deed { IsDeed how }
        ensures shown { OnOk result (shown self.new ≡ place_if holds side false (shown self.old)) }
        ensures since { OnOk result ((past : ℕ → Places) → AreSince past item self.old → AreSince past item self.new) }
        ensures cell { self.new.cell ≡ self.old.cell }
    {
        if holds {
            self.spoil(item, side, how)
        } else {
            Ok(())
        }
    }

    pub(crate) fn copy_if(
        &mut self,
        holds: bool,
        item: u32,
        map: usize,
        from: Side,
        to: Side,
    ) -> Result<(), AllocError>
        requires from { IsSide from }
        requires to { IsSide to }
        ensures shown { OnOk result (shown self.new ≡ place_if holds to (place_of from (shown self.old)) (shown self.old)) }
        ensures since { OnOk result ((past : ℕ → Places) → AreSince past item self.old → AreSince past item self.new) }
        ensures cell { self.new.cell ≡ self.old.cell }
    {
        if holds {
            self.copy(item, map, from, to)
        } else {
            Ok(())
        }
    }

    // Devices but one are stale, since a region on a side may have written the cell.
    fn spoil_others(&mut self, item: u32, own: u8, side: Side) -> Result<(), AllocError>
        ensures shown { OnOk result (shown self.new ≡ spoiled_below 4 (Side.Device own) (shown self.old)) }
        ensures since { OnOk result ((past : ℕ → Places) → AreSince past item self.old → AreSince past item self.new) }
        ensures cell { self.new.cell ≡ self.old.cell }
    {
        'devices: for device in 0..DEVICES as u8 {
            if device != own {
                self.spoil(item, Side::Device(device), How::Written(side))?;
            }
        }
        Ok(())
    }

    /// A region on a side may write the cell: the devices but one are then stale.
    pub(crate) fn spoil_others_if(
        &mut self,
        holds: bool,
        item: u32,
        own: u8,
        side: Side,
    ) -> Result<(), AllocError>
        ensures shown { OnOk result (shown self.new ≡ spoiled_if holds own (shown self.old)) }
        ensures since { OnOk result ((past : ℕ → Places) → AreSince past item self.old → AreSince past item self.new) }
        ensures cell { self.new.cell ≡ self.old.cell }
    {
        if holds {
            self.spoil_others(item, own, side)
        } else {
            Ok(())
        }
    }

    fn settle_if(&mut self, holds: bool, side: Side)
        requires { IsSide side }
        ensures shown { shown self.new ≡ place_if holds side true (shown self.old) }
        ensures since { (past : ℕ → Places) (n : ℕ) → AreSince past n self.old → AreSince past n self.new }
        ensures cell { self.new.cell ≡ self.old.cell }
    {
        if holds {
            self.set(side, State::Current);
        }
    }

    /// A region runs on the host or on a device, and is seen on the host and that device.
    pub(crate) fn run(
        &mut self,
        item: u32,
        side: Side,
        device: u8,
        found: &Footprint,
    ) -> Result<(), AllocError>
        requires { device < 4 }
        ensures shown { OnOk result (shown self.new ≡ ran side device (has found.now.write self.old.cell) (has found.now.sure self.old.cell) (shown self.old)) }
        ensures since { OnOk result ((past : ℕ → Places) → AreSince past item self.old → AreSince past item self.new) }
        ensures cell { self.new.cell ≡ self.old.cell }
    {
        let (writes, sure) = (
            found.write.contains(self.cell),
            found.sure.contains(self.cell),
        );
        match side {
            Side::Host => {
                self.spoil_if(writes, item, Side::Device(device), How::Written(side))?;
                self.settle_if(sure, Side::Host);
                Ok(())
            }
            Side::Device(_) => {
                self.spoil_if(writes, item, Side::Host, How::Written(side))?;
                self.settle_if(sure, Side::Device(device));
                Ok(())
            }
        }
    }
}
