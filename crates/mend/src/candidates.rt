// The changes that are tried on a program that is refused.

use crate::combined::turns_meet;
use crate::currency::{device_stale, host_stale};
use crate::lines::Change;
use crate::ordering::{conflict, overlap};
use crate::pointers::known_alone;
use crate::presence::{absent, in_part, past_the_array, unmapped};
use crate::view::View;
use base::fault::{CheckFault, RangeCode, RangeFault, Refusal, RefusalCode};
use std::alloc::{AllocError, Global};

/// Changes of lines that are made together.
#[derive(Drop)]
pub struct Candidate {
    pub changes: Vec<Change>,
}

/// The candidates, in the order in which they are tried.
#[derive(Drop)]
pub struct Candidates {
    alloc: Global,
    pub all: Vec<Candidate>,
}

impl Candidates {
    pub fn new(alloc: Global) -> Candidates {
        Candidates {
            alloc,
            all: Vec::new(alloc),
        }
    }

    /// One change.
    pub fn one(&mut self, change: Change) -> Result<(), AllocError> {
        let mut changes = Vec::new(self.alloc);
        changes.push(change)?;
        self.all.push(Candidate { changes })?;
        Ok(())
    }

    /// Two changes, of different lines, or of which the first stands before the line of the other.
    pub fn two(&mut self, first: Change, second: Change) -> Result<(), AllocError> {
        let mut changes = Vec::new(self.alloc);
        changes.push(first)?;
        changes.push(second)?;
        self.all.push(Candidate { changes })?;
        Ok(())
    }

    /// Several changes, where there are any.
    pub fn many(&mut self, changes: Vec<Change>) -> Result<(), AllocError> {
        if !changes.is_empty() {
            self.all.push(Candidate { changes })?;
        }
        Ok(())
    }

    /// Another text for a line, where there is one.
    pub fn replace(&mut self, line: usize, text: Option<Vec<u8>>) -> Result<(), AllocError> {
        match text {
            Some(text) => self.one(Change::Replaced(line, text)),
            None => Ok(()),
        }
    }
}

fn of_refusal(view: &View<'_>, refusal: &Refusal, out: &mut Candidates) -> Result<(), AllocError> {
    let at = refusal.item as usize;
    let cell = refusal.cell;
    match refusal.code {
        RefusalCode::OverlapsInPart => in_part(view, at, cell, out),
        RefusalCode::ExitOfAbsent | RefusalCode::UpdateOfAbsent | RefusalCode::NotPresent => {
            absent(view, at, cell, out)
        }
        RefusalCode::Unmapped => unmapped(view, at, cell, out),
        RefusalCode::HostNotCurrent => host_stale(view, at, cell, out),
        RefusalCode::DeviceNotCurrent => device_stale(view, at, cell, out),
        RefusalCode::TurnsMeet => turns_meet(view, at, out),
        RefusalCode::Conflict => match refusal.other {
            Some(other) => conflict(view, at, other as usize, cell, out),
            None => Ok(()),
        },
    }
}

fn of_range(
    view: &View<'_>,
    item: u32,
    fault: &RangeFault,
    out: &mut Candidates,
) -> Result<(), AllocError> {
    match fault.code {
        RangeCode::SectionOutside => {
            past_the_array(view, item as usize, fault.line, fault.column, out)
        }
        RangeCode::TooManyTurns | RangeCode::SubscriptOutside => Ok(()),
    }
}

/// The changes to try, by the first fault.
pub fn candidates_for(view: &View<'_>, fault: &CheckFault) -> Result<Candidates, AllocError> {
    let mut out = Candidates::new(view.alloc);
    match fault {
        CheckFault::Range { item, fault } => of_range(view, *item, fault, &mut out)?,
        CheckFault::Order(f) => {
            overlap(view, f.item as usize, f.other as usize, f.cell, &mut out)?;
        }
        CheckFault::Refused(refusal) => of_refusal(view, refusal, &mut out)?,
        CheckFault::OutOfMemory => return Err(AllocError),
    }
    known_alone(view, out)
}
