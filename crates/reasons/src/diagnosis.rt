// What is told of a program that is refused.

use base::item::{Cell, Loc};
use base::tree::Place;
use history::{Event, Side};

/// What a note adds.
#[derive(Clone, Copy, Debug, PartialEq, Eq)]
pub enum Weight {
    /// A fact: what another place of the source has to do with it.
    Note,
    /// What could be written.
    Help,
}

impl Weight {
    /// The word that stands before a note.
    pub fn as_str(self) -> &'static str {
        match self {
            Weight::Note => "note",
            Weight::Help => "help",
        }
    }
}

/// A place of the source, and what is said of it.
#[derive(Drop)]
pub struct Note {
    pub weight: Weight,
    pub place: Place,
    pub message: String,
    /// The loops around the place, the outermost first, where the note is of one turn of them; else none.
    pub loops: Vec<Turn>,
}

/// The value that a loop's name has.
#[derive(Drop)]
pub struct Turn {
    pub name: String,
    pub value: u64,
}

/// A cell, and the name of its array.
#[derive(Drop)]
pub struct NamedCell {
    pub cell: Cell,
    pub array: String,
}

/// Since what event the cell that is read is not current, and the side on which it is read.
#[derive(Clone, Copy)]
pub struct Since {
    pub side: Side,
    pub event: Event,
}

/// That an item reads or writes a cell at a location.
#[derive(Clone, Copy)]
pub struct Touch {
    pub item: u32,
    pub loc: Loc,
    pub writes: bool,
}

/// What two items do to a cell, of which neither is before the other.
#[derive(Clone, Copy)]
pub struct Conflict {
    pub first: Touch,
    pub second: Touch,
}

/// Why a program is refused.
#[derive(Drop)]
pub struct Diagnosis {
    pub code: &'static str,
    /// What the code stands for, in one sentence.
    pub rule: &'static str,
    pub place: Place,
    pub message: String,
    pub item: Option<u32>,
    pub cell: Option<NamedCell>,
    /// Of a cell that is read and not current.
    pub since: Option<Since>,
    /// Of two items with no order between them.
    pub conflict: Option<Conflict>,
    /// The loops around the place, the outermost first.
    pub loops: Vec<Turn>,
    pub notes: Vec<Note>,
}
