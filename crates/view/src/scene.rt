// A program with what is known of it.

use base::item::{Item, ItemKind, Loc};
use base::tree::{ArrayId, Place, Region};
use history::Side;
use outline::Outlined;
use reasons::{Diagnosis, loops_around};
use rendering::Told;
use std::alloc::{AllocError, Global};
use std::collections::BTreeMap;
use timeline::{Timeline, Turns};

/// The names of the loops around places.
#[derive(Drop)]
pub struct LoopNames {
    by_place: BTreeMap<(usize, usize), Vec<String>>,
}

// The names of the loops around a place.
fn names_at(alloc: Global, bytes: &[u8], place: Place) -> Result<Vec<String>, AllocError> {
    let mut names = Vec::new(alloc);
    'names: for name in loops_around(alloc, bytes, place)? {
        names.push(String::from_str(alloc, name)?)?;
    }
    Ok(names)
}

impl LoopNames {
    /// The names of the loops around items.
    pub fn new(alloc: Global, bytes: &[u8], items: &[Item]) -> Result<LoopNames, AllocError> {
        let mut by_place = BTreeMap::new(alloc);
        'items: for item in items {
            let place = (item.place.line, item.place.column);
            if !item.loops.values.as_slice().is_empty() && !by_place.contains_key(&place) {
                by_place.insert(place, names_at(alloc, bytes, item.place)?)?;
            }
        }
        Ok(LoopNames { by_place })
    }
}

/// A program, what is told of it, and its table.
#[derive(Clone, Copy)]
pub struct Scene<'a> {
    /// The text as it stands.
    pub text: &'a [u8],
    /// The text with its lines joined.
    pub bytes: &'a [u8],
    pub outlined: &'a Outlined<'a>,
    pub timeline: &'a Timeline,
    pub told: &'a Told,
    pub names: &'a LoopNames,
    /// The arrays that have columns, in ascending order.
    pub arrays: &'a [ArrayId],
    /// The items that are shown whatever is folded.
    pub kept: &'a [usize],
}

/// The items that are shown whatever is folded: those that are refused, and those that conflict with them.
pub fn kept_of(alloc: Global, told: &Told) -> Result<Vec<usize>, AllocError> {
    let mut kept = Vec::new(alloc);
    'told: for diagnosis in &told.diagnoses {
        if let Some(item) = diagnosis.item {
            kept.push(item as usize)?;
        }
        if let Some(conflict) = diagnosis.conflict {
            kept.push(conflict.first.item as usize)?;
        }
    }
    Ok(kept)
}

// So many arrays have columns at most, besides those in which a fault is found.
const MOST_ARRAYS: usize = 40;

fn mark(marks: &mut [bool], array: ArrayId) {
    if let Some(mark) = marks.get_mut(array.0 as usize) {
        *mark = true;
    }
}

// For each array a mark, which it has.
fn marks_of(
    alloc: Global,
    outlined: &Outlined<'_>,
    is_marked: bool,
) -> Result<Vec<bool>, AllocError> {
    let mut marks = Vec::new(alloc);
    'arrays: for _ in outlined.lengths() {
        marks.push(is_marked)?;
    }
    Ok(marks)
}

/// The arrays that have columns, in ascending order: those that items touch, or all where it is not known what they do,
/// but no more than so many, and those in which a fault is found.
pub fn arrays_of(
    alloc: Global,
    outlined: &Outlined<'_>,
    timeline: &Timeline,
    told: &Told,
) -> Result<Vec<ArrayId>, AllocError> {
    let mut used = marks_of(alloc, outlined, timeline.start.is_none())?;
    let mut blamed = marks_of(alloc, outlined, false)?;
    'rows: for row in &timeline.rows {
        'deeds: for deed in &row.deeds {
            mark(&mut used, deed.array);
        }
    }
    'told: for diagnosis in &told.diagnoses {
        if let Some(named) = &diagnosis.cell {
            mark(&mut blamed, named.cell.array);
        }
    }
    let mut arrays = Vec::new(alloc);
    let mut array = 0u32;
    'arrays: for (is_used, is_blamed) in used.iter().zip(blamed.iter()) {
        if *is_blamed || (*is_used && arrays.len() < MOST_ARRAYS) {
            arrays.push(ArrayId(array))?;
        }
        array = array.saturating_add(1);
    }
    Ok(arrays)
}

/// What is wrong with an item.
#[derive(Clone, Copy, PartialEq, Eq)]
pub enum Blame {
    Nothing,
    /// It is refused.
    Refused,
    /// It is the other item of a conflict.
    Other,
}

fn side_number(side: Side) -> usize {
    match side {
        Side::Host => 0,
        Side::Device(device) => (device as usize).saturating_add(1),
    }
}

fn loc_number(loc: Loc) -> usize {
    match loc {
        Loc::Host => 0,
        Loc::Dev(device) | Loc::Tab(device) => (device as usize).saturating_add(1),
    }
}

fn is_item(number: Option<u32>, item: usize) -> bool {
    match number {
        None => false,
        Some(number) => number as usize == item,
    }
}

/// Whether a diagnosis is of an item.
pub fn is_of(diagnosis: &Diagnosis, item: usize) -> bool {
    is_item(diagnosis.item, item)
}

impl<'a> Scene<'a> {
    pub fn item(&self, number: usize) -> Option<&'a Item> {
        self.outlined.items().get(number)
    }

    /// The region of an item.
    pub fn region_of(&self, item: &Item) -> Option<&'a Region> {
        match self.outlined.regions().get(item.region? as usize) {
            None => None,
            Some(entry) => Some(entry.region),
        }
    }

    /// The name of an array.
    pub fn name_of(&self, array: ArrayId) -> &'a str {
        match self.outlined.program().arrays.get_index(array.0 as usize) {
            None => "",
            Some((name, _)) => name.as_str(),
        }
    }

    /// How many cells an array has.
    pub fn length_of(&self, array: ArrayId) -> u64 {
        match self.outlined.lengths().get(array.0 as usize) {
            None => 0,
            Some(length) => u64::from(*length),
        }
    }

    pub fn blame(&self, item: usize) -> Blame {
        let mut blame = Blame::Nothing;
        'told: for diagnosis in &self.told.diagnoses {
            if is_of(diagnosis, item) {
                return Blame::Refused;
            }
            if let Some(conflict) = diagnosis.conflict {
                if conflict.first.item as usize == item {
                    blame = Blame::Other;
                }
            }
        }
        blame
    }

    /// The side on which a diagnosis tells of a cell.
    pub fn side_of(&self, diagnosis: &Diagnosis) -> usize {
        if let Some(since) = diagnosis.since {
            return side_number(since.side);
        }
        if let Some(conflict) = diagnosis.conflict {
            return loc_number(conflict.second.loc);
        }
        match self.item(diagnosis.item.unwrap_or(0) as usize) {
            None => 0,
            Some(item) => match item.kind {
                ItemKind::Host | ItemKind::Wait => 0,
                ItemKind::Target
                | ItemKind::Begin
                | ItemKind::End
                | ItemKind::Enter
                | ItemKind::Exit
                | ItemKind::Update => (item.device.number as usize).saturating_add(1),
            },
        }
    }

    /// The name of the loop of a level around an item. Those around the calls of its function have no name at its place.
    pub fn loop_name(&self, item: &Item, level: usize) -> &'a str {
        let place = item.place;
        let Some(names) = self.names.by_place.get(&(place.line, place.column)) else {
            return "a loop";
        };
        let around = item.loops.values.as_slice().len();
        match level.checked_sub(around.saturating_sub(names.len())) {
            Some(inside) => match names.get(inside) {
                Some(name) => name.as_str(),
                None => "a loop",
            },
            None => "a loop around the call",
        }
    }

    /// The value of a loop around an item.
    pub fn loop_value(&self, item: usize, level: usize) -> u64 {
        match self.item(item) {
            None => 0,
            Some(item) => {
                item.loops
                    .values
                    .as_slice()
                    .get(level)
                    .copied()
                    .unwrap_or(0)
            }
        }
    }

    /// The name of the loop that has these turns.
    pub fn loop_of(&self, turns: &Turns) -> &'a str {
        match self.item(turns.first) {
            None => "a loop",
            Some(item) => self.loop_name(item, turns.level),
        }
    }
}
