// Two items that touch a cell with no order between them (E508), and depend items that overlap in part (E505).

ghost use Rattle.std.specs.Prelude.{◌≡◌, IfOk, IfSome, Some};
ghost use Rattle.base.specs.Items.{plan};
ghost use Rattle.reasons.specs.Conflicting.{Meet, TellsConflict};

use crate::diagnosis::{Conflict, Diagnosis, Note, Touch, Weight};
use crate::past::Past;
use crate::rules::{ORDER_CODE, ORDER_RULE, refusal_rule};
use crate::runs::hull;
use crate::scene::{Scene, has_cell, is_same, overlap, place_of};
use crate::search::Wanted;
use crate::touching::is_same_loc;
use crate::words::{add, construct};
use base::fault::{OrderFault, Refusal};
use base::item::{Cell, Depend, Item, ItemKind, Loc, MapItem};
use base::tree::Place;
use mapwalk::Acts;
use std::alloc::AllocError;

/// What a part of an item does to a cell.
#[derive(Clone, Copy)]
enum Deed {
    ReadsInRegion,
    WritesInRegion,
    /// By the map item of that place.
    CopiesIn(usize),
    CopiesOut(usize),
    Creates(usize),
    Removes(usize),
    /// Changes the count in the table, or only looks at it.
    Counts(usize),
    Looks(usize),
}

/// That a part of an item reads or writes a cell at a location.
#[derive(Clone, Copy)]
struct Part {
    deed: Deed,
    loc: Loc,
    writes: bool,
}

fn push(
    parts: &mut Vec<Part>,
    holds: bool,
    deed: Deed,
    loc: Loc,
    writes: bool,
) -> Result<(), AllocError> {
    if holds {
        parts.push(Part { deed, loc, writes })?;
    }
    Ok(())
}

// What two items do to a cell, and by which of their parts.
#[derive(Clone, Copy)]
struct Clash {
    earlier: Deed,
    later: Deed,
    conflict: Conflict,
}

fn touch_of(item: u32, part: &Part) -> Touch
    ensures { result.item ≡ item }
{
    Touch {
        item,
        loc: part.loc,
        writes: part.writes,
    }
}

// What a map item copies of a cell.
fn add_copies(
    parts: &mut Vec<Part>,
    device: u8,
    place: usize,
    acts: &Acts,
) -> Result<(), AllocError> {
    let (host, dev) = (Loc::Host, Loc::Dev(device));
    let (copies_in, copies_out) = (Deed::CopiesIn(place), Deed::CopiesOut(place));
    push(parts, acts.copies_in, copies_in, host, false)?;
    push(parts, acts.copies_in, copies_in, dev, true)?;
    push(parts, acts.copies_out, copies_out, dev, false)?;
    push(parts, acts.copies_out, copies_out, host, true)
}

// What a map item does to the block of a cell.
fn add_block(
    parts: &mut Vec<Part>,
    device: u8,
    place: usize,
    acts: &Acts,
) -> Result<(), AllocError> {
    let (dev, table) = (Loc::Dev(device), Loc::Tab(device));
    push(parts, acts.creates, Deed::Creates(place), dev, true)?;
    push(parts, acts.removes, Deed::Removes(place), dev, true)?;
    push(parts, acts.rests, Deed::Looks(place), table, false)?;
    push(parts, !acts.rests, Deed::Counts(place), table, true)
}

// What a map item does to a cell.
fn add_map(
    parts: &mut Vec<Part>,
    device: u8,
    cell: Cell,
    map: (usize, &MapItem),
    acts: &Acts,
) -> Result<(), AllocError> {
    let (place, map) = map;
    if has_cell(&map.section, cell) {
        add_copies(parts, device, place, acts)?;
    }
    if has_cell(&acts.block, cell) {
        add_block(parts, device, place, acts)?;
    }
    Ok(())
}

// Where a part of an item stands, what it does, and in which turn of the loops around its place.
#[derive(Drop)]
struct Told {
    place: Place,
    verb: String,
    turn: Vec<u64>,
}

// The first two parts of two items that touch a cell at one location, where one writes.
fn first_pair(left: &[Part], right: &[Part]) -> Option<(Part, Part)> {
    'left: for one in left {
        'right: for other in right {
            if is_same_loc(one.loc, other.loc) && (one.writes || other.writes) {
                return Some((*one, *other));
            }
        }
    }
    None
}

// Depend items of two items that overlap in a cell without being identical.
fn clashing<'a>(
    earlier: &'a Item,
    later: &'a Item,
    cell: Cell,
) -> Option<(&'a Depend, &'a Depend)> {
    let (left, right): (&'a [Depend], &'a [Depend]) = (
        earlier.depends.as_slice(),
        later.depends.as_slice(),
    );
    'earlier: for one in left {
        'later: for other in right {
            if has_cell(&one.section, cell)
                && has_cell(&other.section, cell)
                && overlap(&one.section, &other.section)
                && !is_same(&one.section, &other.section)
            {
                return Some((one, other));
            }
        }
    }
    None
}

fn depend_place(depend: &Depend) -> Place {
    Place {
        line: depend.line,
        column: depend.column,
    }
}

impl Scene<'_> {
    // What an item does to a cell, what tells most first.
    fn parts(&self, number: u32, item: &Item, cell: Cell) -> Result<Vec<Part>, AllocError> {
        let mut parts = Vec::new(self.alloc);
        let device = item.device.number;
        let loc = match item.kind {
            ItemKind::Target => Loc::Dev(device),
            _ => Loc::Host,
        };
        if let Some(found) = self.footprint(number as usize) {
            push(
                &mut parts,
                found.write.contains(cell),
                Deed::WritesInRegion,
                loc,
                true,
            )?;
            push(
                &mut parts,
                found.read.contains(cell),
                Deed::ReadsInRegion,
                loc,
                false,
            )?;
        }
        let Some(row) = self.row(number as usize) else {
            return Ok(parts);
        };
        'maps: for (place, map) in item.maps.as_slice().iter().enumerate() {
            if let Some(acts) = row.get(place) {
                add_map(&mut parts, device, cell, (place, map), acts)?;
            }
        }
        Ok(parts)
    }

    // What a map item of an item on a device does to a cell.
    fn deed_verb(&self, deed: Deed, cell: Cell, device: u8) -> Result<String, AllocError> {
        let name = self.cell_text(cell)?;
        let (verb, other) = match deed {
            Deed::CopiesIn(_) => return self.copy_in_text(&name, device),
            Deed::CopiesOut(_) => return self.copy_out_text(&name, device),
            Deed::Creates(_) => ("creates", " on"),
            Deed::Removes(_) => ("removes", " from"),
            Deed::Counts(_) => ("enters or leaves", " in the table of"),
            Deed::Looks(_) | Deed::ReadsInRegion | Deed::WritesInRegion => {
                ("looks for", " in the table of")
            }
        };
        format!(in self.alloc; "{verb} {name}{other} device {device}")
    }

    fn copy_in_text(&self, name: &str, device: u8) -> Result<String, AllocError> {
        format!(in self.alloc; "copies {name} from the host to device {device}")
    }

    fn copy_out_text(&self, name: &str, device: u8) -> Result<String, AllocError> {
        format!(in self.alloc; "copies {name} from device {device} to the host")
    }

    // Where a part of an item stands, what it does, and in which turn.
    fn told(&self, item: &Item, deed: Deed, cell: Cell) -> Result<Told, AllocError> {
        let map = match deed {
            Deed::ReadsInRegion => return self.told_access(item, Wanted::Read(cell), "reads", cell),
            Deed::WritesInRegion => {
                return self.told_access(item, Wanted::Write(cell), "writes", cell);
            }
            Deed::CopiesIn(map)
            | Deed::CopiesOut(map)
            | Deed::Creates(map)
            | Deed::Removes(map)
            | Deed::Counts(map)
            | Deed::Looks(map) => map,
        };
        Ok(Told {
            place: item.maps.as_slice().get(map).map_or(item.place, place_of),
            verb: self.deed_verb(deed, cell, item.device.number)?,
            turn: Vec::new(self.alloc),
        })
    }

    fn access_verb(&self, item: &Item, verb: &str, cell: Cell) -> Result<String, AllocError> {
        let name = self.cell_text(cell)?;
        match item.kind {
            ItemKind::Target => {
                format!(in self.alloc; "{verb} {name} on device {}", item.device.number)
            }
            _ => format!(in self.alloc; "{verb} {name} on the host"),
        }
    }

    // Where the region of an item touches a cell.
    fn told_access(
        &self,
        item: &Item,
        wanted: Wanted,
        verb: &str,
        cell: Cell,
    ) -> Result<Told, AllocError> {
        let verb = self.access_verb(item, verb, cell)?;
        let (place, turn) = match self.access(item, wanted)? {
            None => (item.place, Vec::new(self.alloc)),
            Some(access) => (access.place, access.loops),
        };
        Ok(Told { place, verb, turn })
    }

    // What two items do to a cell, of which neither is before the other, in their first parts that conflict.
    fn clashing_parts(
        &self,
        past: &Past<'_>,
        refusal: &Refusal,
        other: u32,
        earlier: &Item,
        later: &Item,
    ) -> Result<Option<Clash>, AllocError>
        ensures meet { IfOk result (λ o. IfSome o (λ x. Meet (plan past.now) refusal.now.cell x.conflict)) }
        ensures earlier { IfOk result (λ o. IfSome o (λ x. x.conflict.first.item ≡ other)) }
        ensures later { IfOk result (λ o. IfSome o (λ x. x.conflict.second.item ≡ refusal.now.item)) }
    {
        let left = self.parts(other, earlier, refusal.cell)?;
        let right = self.parts(refusal.item, later, refusal.cell)?;
        let Some((one, two)) = first_pair(&left, &right) else {
            return Ok(None);
        };
        let conflict = Conflict {
            first: touch_of(other, &one),
            second: touch_of(refusal.item, &two),
        };
        if !past.meet(self.alloc, &conflict, refusal.cell)? {
            return Ok(None);
        }
        Ok(Some(Clash {
            earlier: one.deed,
            later: two.deed,
            conflict,
        }))
    }

    fn conflict_text(
        &self,
        what: &str,
        which: &str,
        first: &Told,
        second: &Told,
    ) -> Result<String, AllocError> {
        let turn = self.turn_at(second.place, &second.turn)?;
        format!(in self.alloc;
            "{what} {}, and {which} {}, with no order between them{turn}",
            second.verb, first.verb
        )
    }

    fn note_first(
        &self,
        which: &str,
        first: &Told,
        notes: &mut Vec<Note>,
    ) -> Result<(), AllocError> {
        let turn = self.turn_at(first.place, &first.turn)?;
        let message = format!(in self.alloc; "{which} {} here{turn}", first.verb)?;
        self.add_in_turn(notes, first.place, message, &first.turn)
    }

    // Of these parts of two items.
    fn conflict_of(
        &self,
        refusal: &Refusal,
        other: u32,
        earlier: &Item,
        later: &Item,
        clash: &Clash,
    ) -> Result<Diagnosis, AllocError>
        ensures item { IfOk result (λ d. d.item ≡ Some refusal.now.item) }
        ensures conflict { IfOk result (λ d. d.conflict ≡ Some clash.now.conflict) }
    {
        let first = self.told(earlier, clash.earlier, refusal.cell)?;
        let second = self.told(later, clash.later, refusal.cell)?;
        let (what, which) = (self.placed_text(later)?, self.doer_text(earlier)?);
        let message = self.conflict_text(&what, &which, &first, &second)?;
        let mut notes = Vec::new(self.alloc);
        self.note_first(construct(earlier.kind), &first, &mut notes)?;
        self.note_order(refusal, other, earlier, later, &mut notes)?;
        self.help_order(refusal, &clash.conflict, earlier, later, &mut notes)?;
        Ok(Diagnosis {
            code: refusal.code.as_str(),
            rule: refusal_rule(refusal.code),
            place: second.place,
            message,
            item: Some(refusal.item),
            cell: Some(self.named(refusal.cell)?),
            since: None,
            conflict: Some(clash.conflict),
            loops: self.turns(later.place, &later.loops.values)?,
            notes,
        })
    }

    /// Of two items that conflict on a cell.
    pub fn conflict(
        &self,
        past: &Past<'_>,
        refusal: &Refusal,
    ) -> Result<Option<Diagnosis>, AllocError>
        ensures { IfOk result (λ o. IfSome o (TellsConflict (plan past.now) refusal.now)) }
    {
        let Some(other) = refusal.other else {
            return Ok(None);
        };
        let (Some(earlier), Some(later)) = (self.item(other), self.item(refusal.item)) else {
            return Ok(None);
        };
        match self.clashing_parts(past, refusal, other, earlier, later)? {
            None => Ok(None),
            Some(clash) => Ok(Some(self.conflict_of(refusal, other, earlier, later, &clash)?)),
        }
    }

    fn clash_text(
        &self,
        fault: &OrderFault,
        first: &str,
        second: &Depend,
    ) -> Result<String, AllocError> {
        let (second, name) = (self.depend_text(second)?, self.cell_text(fault.cell)?);
        let what = self.item_text(fault.other)?;
        format!(in self.alloc;
            "{second} overlaps {first} of {what} in {name}, and is not the same section"
        )
    }

    fn note_clash(
        &self,
        first: &str,
        place: Place,
        notes: &mut Vec<Note>,
    ) -> Result<(), AllocError> {
        let told = format!(in self.alloc; "{first} stands here")?;
        add(notes, Weight::Note, place, told)
    }

    fn help_clash(
        &self,
        one: &Depend,
        two: &Depend,
        notes: &mut Vec<Note>,
    ) -> Result<(), AllocError> {
        let section = self.short_text(&hull(&one.section, &two.section))?;
        let help = format!(in self.alloc;
            "name the same section in both, as {section}: tasks are ordered by equal sections alone"
        )?;
        add(notes, Weight::Help, depend_place(two), help)
    }

    // Of these depend items.
    fn clash_of(
        &self,
        fault: &OrderFault,
        later: &Item,
        one: &Depend,
        two: &Depend,
    ) -> Result<Diagnosis, AllocError> {
        let (first, place) = (self.depend_text(one)?, depend_place(two));
        let message = self.clash_text(fault, &first, two)?;
        let mut notes = Vec::new(self.alloc);
        self.note_clash(&first, depend_place(one), &mut notes)?;
        self.help_clash(one, two, &mut notes)?;
        Ok(Diagnosis {
            code: ORDER_CODE,
            rule: ORDER_RULE,
            place,
            message,
            item: Some(fault.item),
            cell: Some(self.named(fault.cell)?),
            since: None,
            conflict: None,
            loops: self.turns(place, &later.loops.values)?,
            notes,
        })
    }

    /// Of depend items of two items that overlap without being identical.
    pub fn clash(&self, fault: &OrderFault) -> Result<Option<Diagnosis>, AllocError> {
        let (Some(earlier), Some(later)) = (self.item(fault.other), self.item(fault.item)) else {
            return Ok(None);
        };
        match clashing(earlier, later, fault.cell) {
            None => Ok(None),
            Some((one, two)) => Ok(Some(self.clash_of(fault, later, one, two)?)),
        }
    }
}
