// What `main` is turned into: items, and the events that they have.

use crate::tree::{ArrayId, DependKind, DeviceId, Place};
use smallvec::SmallVec;

/// A cell of an array.
#[derive(Clone, Copy, PartialEq, Eq, PartialOrd, Ord, Debug)]
pub struct Cell {
    pub array: ArrayId,
    pub index: u64,
}

/// The cells `first` to `first + length - 1` of an array.
#[derive(Clone, Copy, PartialEq, Eq, Debug, Default)]
pub struct Section {
    pub array: ArrayId,
    pub first: u64,
    pub length: u64,
}

/// What a map item or an update does with a section.
#[derive(Clone, Copy, Default)]
pub enum MapKind {
    #[default]
    To,
    From,
    ToFrom,
    Alloc,
    Release,
    Delete,
}

#[derive(Clone, Copy, Default)]
pub struct MapItem {
    pub kind: MapKind,
    pub always: bool,
    pub present: bool,
    pub section: Section,
    pub line: usize,
    pub column: usize,
}

#[derive(Clone, Copy, Default)]
pub struct Depend {
    pub kind: DependKind,
    pub section: Section,
    pub line: usize,
    pub column: usize,
}

#[derive(Clone, Copy)]
pub enum ItemKind {
    Host,
    Target,
    Begin,
    End,
    Enter,
    Exit,
    Update,
    Wait,
}

/// The value of each loop name around, the outermost first.
#[derive(Drop)]
pub struct LoopValues {
    pub values: SmallVec<u64, 4>,
}

#[derive(Drop)]
pub struct Item {
    pub kind: ItemKind,
    /// Where its directive begins; of a host item, where its first statement does.
    pub place: Place,
    pub deferred: bool,
    pub device: DeviceId,
    pub maps: SmallVec<MapItem, 2>,
    pub depends: SmallVec<Depend, 2>,
    pub region: Option<u32>,
    pub loops: LoopValues,
}

/// What happens in a run. Steps are of the fine-grained machine alone: a load, a store, a copied cell or an action on a
/// table, of an open item.
#[derive(Clone, Copy, PartialEq, Eq, Debug)]
pub enum Event {
    Gen(u32),
    Open(u32),
    Step(u32),
    Close(u32),
    Wait(u32),
    End,
}

/// Where an item touches a cell: on the host, on a device, or its block's entry of that device's table.
#[derive(Clone, Copy)]
pub enum Loc {
    Host,
    Dev(u8),
    Tab(u8),
}

/// What a run ends with.
#[derive(Drop)]
pub struct Answer {
    pub out: Vec<u8>,
    pub finals: Vec<(ArrayId, Vec<u64>)>,
    pub history: Vec<Event>,
}
