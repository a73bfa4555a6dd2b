// What the check says of a text.

ghost use Rattle.std.specs.Prelude.{IfOk};
ghost use Rattle.mend.specs.Mends.{IsPlanVerdict, IsVerdict, IsVerdictOn};

use crate::bare::without_directives;
use crate::blocks::block_end;
use crate::lines::is_space;
use base::fault::{CheckFault, RefusalCode};
use base::item::{Cell, Item, ItemKind};
use c_read::read_program;
use mapcheck::check;
use outline::{Outlined, outline};
use std::alloc::{AllocError, Global};

/// Where the first fault is. Places are counted from the end, so that inserted lines leave them as they are.
#[derive(Clone, Copy)]
pub struct Rank {
    pass: u8,
    /// How many items follow that no inserted line makes.
    items_left: usize,
    /// How many lines follow that begin with no `#`; of a directive, behind the one that it stands before.
    lines_left: usize,
    code: u8,
    /// How many lines follow that begin with one, up to the first of those.
    hashes_left: usize,
    array: u32,
    index: u64,
    other_left: usize,
    fault: Located,
}

/// The code of a fault, and its line.
#[derive(Clone, Copy)]
pub struct Located {
    pub code: &'static str,
    pub line: usize,
}

/// What comes of a text.
#[derive(Clone, Copy)]
pub enum Verdict {
    /// Its program is accepted, and it has the same text without directives.
    Accepted,
    /// It has this text, and its program is refused.
    Refused(Rank),
    Unfit,
}

impl Rank {
    /// The fault itself.
    pub fn fault(&self) -> Located {
        self.fault
    }

    /// Whether it is later than another.
    pub fn is_later(&self, other: &Rank) -> bool {
        if self.is_beyond(other) || other.is_beyond(self) {
            return self.is_beyond(other);
        }
        self.other_left < other.other_left
    }

    /// Whether it is later than another, whatever the earlier items are.
    pub fn is_beyond(&self, other: &Rank) -> bool {
        let (a, b) = (self, other);
        if a.pass != b.pass {
            return a.pass > b.pass;
        }
        if a.items_left != b.items_left {
            return a.items_left < b.items_left;
        }
        if a.lines_left != b.lines_left {
            return a.lines_left < b.lines_left;
        }
        if a.code != b.code {
            return a.code > b.code;
        }
        if a.hashes_left != b.hashes_left {
            return a.hashes_left < b.hashes_left;
        }
        if a.array != b.array {
            return a.array > b.array;
        }
        a.index > b.index
    }
}

fn code_rank(code: RefusalCode) -> u8 {
    match code {
        RefusalCode::OverlapsInPart => 1,
        RefusalCode::ExitOfAbsent => 2,
        RefusalCode::UpdateOfAbsent => 3,
        RefusalCode::NotPresent => 4,
        RefusalCode::Unmapped => 5,
        RefusalCode::HostNotCurrent => 6,
        RefusalCode::DeviceNotCurrent => 7,
        RefusalCode::TurnsMeet => 8,
        RefusalCode::Conflict => 9,
    }
}

fn is_kept(item: &Item) -> bool {
    matches!(
        item.kind,
        ItemKind::Target | ItemKind::Begin | ItemKind::End | ItemKind::Exit
    )
}

// How many items from one on are such that no inserted line makes them.
fn items_from(items: &[Item], first: usize) -> usize {
    let mut count = 0usize;
    let mut number = 0usize;
    for item in items {
        if number >= first && is_kept(item) {
            count = count.saturating_add(1);
        }
        number = number.saturating_add(1);
    }
    count
}

// The line of an item; of the end of a region of data that of its brace.
fn line_of(text: &[u8], items: &[Item], number: usize) -> usize {
    let Some(item) = items.get(number) else {
        return 0;
    };
    match item.kind {
        ItemKind::End => block_end(text, item.place.line).unwrap_or(item.place.line),
        _ => item.place.line,
    }
}

// What is counted of the lines behind one.
#[derive(Clone, Copy)]
struct Following {
    lines: usize,
    hashes: usize,
}

// The lines behind one, which is counted from 1.
fn lines_behind(text: &[u8], line: usize) -> Following {
    let mut found = Following {
        lines: 0,
        hashes: 0,
    };
    let mut number = 1usize;
    let mut begins = true;
    let mut is_hash = false;
    for byte in text {
        if *byte == b'\n' {
            number = number.saturating_add(1);
            begins = true;
        } else if begins && !is_space(*byte) {
            begins = false;
            if number == line {
                is_hash = *byte == b'#';
            } else if number > line && *byte != b'#' {
                found.lines = found.lines.saturating_add(1);
            } else if number > line && found.lines == 0 {
                found.hashes = found.hashes.saturating_add(1);
            }
        }
    }
    if is_hash {
        found.lines = found.lines.saturating_sub(1);
    }
    found
}

// A code, in which pass it comes, and its place among those of the pass.
#[derive(Clone, Copy)]
struct Code {
    pass: u8,
    rank: u8,
    text: &'static str,
}

// The item of a fault, its cell, or its column in the place of one, and the other item that it names.
#[derive(Clone, Copy)]
struct Spot {
    item: u32,
    array: u32,
    index: u64,
    other: Option<u32>,
}

impl Spot {
    fn of_cell(item: u32, cell: Cell, other: Option<u32>) -> Spot {
        Spot {
            item,
            array: cell.array.0,
            index: cell.index,
            other,
        }
    }

    fn of(fault: &CheckFault) -> Option<Spot> {
        match fault {
            CheckFault::Range { item, fault } => Some(Spot {
                item: *item,
                array: 0,
                index: fault.column as u64,
                other: None,
            }),
            CheckFault::Order(f) => Some(Spot::of_cell(f.item, f.cell, Some(f.other))),
            CheckFault::Refused(r) => Some(Spot::of_cell(r.item, r.cell, r.other)),
            CheckFault::OutOfMemory => None,
        }
    }
}

fn rank_at(text: &[u8], items: &[Item], code: Code, spot: Spot) -> Rank {
    let line = line_of(text, items, spot.item as usize);
    let following = lines_behind(text, line);
    Rank {
        pass: code.pass,
        items_left: items_from(items, spot.item as usize),
        lines_left: following.lines,
        code: code.rank,
        hashes_left: following.hashes,
        array: spot.array,
        index: spot.index,
        other_left: match spot.other {
            Some(other) => items_from(items, other as usize),
            None => 0,
        },
        fault: Located {
            code: code.text,
            line,
        },
    }
}

fn code_of(fault: &CheckFault) -> Code {
    let (pass, rank, text) = match fault {
        CheckFault::Range { fault, .. } => (1, 0, fault.code.as_str()),
        CheckFault::Order(_) => (2, 0, "E505"),
        CheckFault::Refused(refusal) => (3, code_rank(refusal.code), refusal.code.as_str()),
        CheckFault::OutOfMemory => (4, 0, "F1"),
    };
    Code { pass, rank, text }
}

/// Where a fault is; nowhere for want of memory.
pub fn rank_of(text: &[u8], outlined: &Outlined<'_>, fault: &CheckFault) -> Option<Rank> {
    let spot = Spot::of(fault)?;
    Some(rank_at(text, outlined.items(), code_of(fault), spot))
}

// Checks a program, whatever the borrows that are in it outlive.
fn check_outlined(
    alloc: Global,
    text: &[u8],
    outlined: &Outlined<'_>,
) -> Result<Verdict, AllocError>
    ensures { IfOk result (IsPlanVerdict outlined.now) }
{
    match check(alloc, outlined) {
        Ok(accepted) => {
            accepted.is_accepted();
            Ok(Verdict::Accepted)
        }
        Err(fault) => match rank_of(text, outlined, &fault) {
            Some(rank) => Ok(Verdict::Refused(rank)),
            None => Err(AllocError),
        },
    }
}

// Checks a text.
#[tactic(auto, using(crate::proofs::Verdicts::on_text))]
fn check_text(alloc: Global, text: &[u8]) -> Result<Verdict, AllocError>
    ensures { IfOk result (IsVerdictOn text.now) }
{
    let program = match read_program(alloc, text) {
        Ok(program) => program,
        Err(_) => return Ok(Verdict::Unfit),
    };
    let outlined = match outline(alloc, &program) {
        Ok(outlined) => outlined,
        Err(_) => return Ok(Verdict::Unfit),
    };
    check_outlined(alloc, text, &outlined)
}

/// What comes of a text, which is fit only where it has that text without directives.
#[tactic(auto, using(crate::proofs::Verdicts::of_same))]
pub fn judge(alloc: Global, bare: &[u8], text: &[u8]) -> Result<Verdict, AllocError>
    ensures { IfOk result (IsVerdict bare.now text.now) }
{
    let own = without_directives(alloc, text)?;
    if own.as_slice() != bare {
        return Ok(Verdict::Unfit);
    }
    check_text(alloc, text)
}
