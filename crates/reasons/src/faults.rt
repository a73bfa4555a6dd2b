// From faults to their diagnoses.

use crate::diagnosis::Diagnosis;
use crate::further::{Further, clashes_behind, ranges_behind};
use crate::past::Past;
use crate::rules::{ORDER_CODE, ORDER_RULE, range_rule, refusal_rule};
use crate::scene::Scene;
use base::fault::{CheckFault, RangeFault, Refusal, RefusalCode};
use mapcheck::{Passed, Refused};
use order::Order;
use outline::Outlined;
use std::alloc::{AllocError, Global};

/// The faults that are told, the first one first, and how many more were found.
#[derive(Drop)]
pub struct Faults {
    pub diagnoses: Vec<Diagnosis>,
    pub more: u64,
}

// Why a fault has no diagnosis of its own: its code and its place are still told.
fn bare(
    scene: &Scene<'_>,
    code: &'static str,
    rule: &'static str,
    item: u32,
) -> Result<Diagnosis, AllocError> {
    Ok(Diagnosis {
        code,
        rule,
        place: scene.place_of_item(item),
        message: String::from_str(scene.alloc, rule)?,
        item: Some(item),
        cell: None,
        since: None,
        conflict: None,
        loops: Vec::new(scene.alloc),
        notes: Vec::new(scene.alloc),
    })
}

impl Scene<'_> {
    fn refused(&self, refusal: &Refusal) -> Result<Diagnosis, AllocError> {
        let told = match refusal.code {
            RefusalCode::OverlapsInPart => self.in_part(refusal)?,
            RefusalCode::ExitOfAbsent | RefusalCode::UpdateOfAbsent | RefusalCode::NotPresent => {
                self.absent(refusal)?
            }
            RefusalCode::Unmapped => self.unmapped(refusal)?,
            RefusalCode::TurnsMeet => self.meeting(refusal)?,
            RefusalCode::HostNotCurrent | RefusalCode::DeviceNotCurrent => {
                match &self.past {
                    None => None,
                    Some(past) => self.stale(past, refusal)?,
                }
            }
            RefusalCode::Conflict => match &self.past {
                None => None,
                Some(past) => self.conflict(past, refusal)?,
            },
        };
        match told {
            Some(diagnosis) => Ok(diagnosis),
            None => bare(
                self,
                refusal.code.as_str(),
                refusal_rule(refusal.code),
                refusal.item,
            ),
        }
    }

    fn ranged(&self, item: u32, fault: &RangeFault) -> Result<Diagnosis, AllocError> {
        match self.out_of_range(item, fault)? {
            Some(diagnosis) => Ok(diagnosis),
            None => bare(self, fault.code.as_str(), range_rule(fault.code), item),
        }
    }

    // Of one fault.
    fn diagnosis(&self, fault: &CheckFault) -> Result<Diagnosis, AllocError> {
        match fault {
            CheckFault::Range { item, fault } => self.ranged(*item, fault),
            CheckFault::Order(fault) => match self.clash(fault)? {
                Some(diagnosis) => Ok(diagnosis),
                None => bare(self, ORDER_CODE, ORDER_RULE, fault.item),
            },
            CheckFault::Refused(refusal) => self.refused(refusal),
            CheckFault::OutOfMemory => Err(AllocError),
        }
    }

    // Of the first fault and of those found besides.
    fn report(&self, first: &CheckFault, further: &Further) -> Result<Faults, AllocError> {
        let mut diagnoses = Vec::new(self.alloc);
        diagnoses.push(self.diagnosis(first)?)?;
        'faults: for fault in &further.faults {
            diagnoses.push(self.diagnosis(fault)?)?;
        }
        Ok(Faults {
            diagnoses,
            more: further.more,
        })
    }
}

// The faults behind a conflict.
fn behind_conflict(
    scene: &Scene<'_>,
    order: &Order<'_>,
    refusal: &Refusal,
    alone: Option<Refusal>,
) -> Result<Further, AllocError> {
    let mut further = Further::new(scene.alloc, scene.place_of_item(refusal.item))?;
    if let RefusalCode::Conflict = refusal.code {
        scene.conflicts_behind(order, refusal.item, &mut further)?;
        scene.refusal_behind(alone, &mut further)?;
    }
    Ok(further)
}

// Of a refusal in the third pass, from what the passes found. Behind a conflict the pass goes on.
fn of_walked(
    alloc: Global,
    bytes: &[u8],
    refusal: &Refusal,
    passed: &Passed<'_>,
) -> Result<Faults, AllocError> {
    let outlined = passed.outlined();
    let walked = passed.walked();
    let scene = Scene {
        alloc,
        bytes,
        outlined,
        past: Some(Past::new(outlined, passed.found(), walked)),
    };
    let further = behind_conflict(&scene, passed.order(), refusal, walked.fault)?;
    scene.report(&CheckFault::Refused(*refusal), &further)
}

// Of a fault that is found before the walk.
fn of_earlier<'x>(
    alloc: Global,
    bytes: &'x [u8],
    outlined: &'x Outlined<'x>,
    fault: &CheckFault,
) -> Result<Faults, AllocError> {
    let scene = Scene {
        alloc,
        bytes,
        outlined,
        past: None,
    };
    let first = match fault {
        CheckFault::Range { item, .. } => *item,
        CheckFault::Order(clash) => clash.item,
        CheckFault::Refused(_) | CheckFault::OutOfMemory => return Err(AllocError),
    };
    let mut further = Further::new(alloc, scene.place_of_item(first))?;
    match fault {
        CheckFault::Range { .. } => ranges_behind(alloc, outlined, first, &mut further)?,
        _ => clashes_behind(outlined, first, &mut further)?,
    }
    scene.report(fault, &further)
}

/// Why the checker refuses a program, whose text these bytes are, from what it found. The error comes where an
/// allocation fails.
pub fn faults_of(
    alloc: Global,
    bytes: &[u8],
    outlined: &Outlined<'_>,
    refused: &Refused<'_>,
) -> Result<Faults, AllocError> {
    match refused {
        Refused::Early(fault) => of_earlier(alloc, bytes, outlined, fault),
        Refused::Walked(refusal, passed) => of_walked(alloc, bytes, refusal, passed),
    }
}
