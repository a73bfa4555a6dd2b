// What is told of a program that is refused.

ghost use Rattle.std.specs.Prelude.{IfOk};
ghost use Rattle.explain.specs.Explained.{IsRemedy};

use crate::calls::calls_in;
use crate::remedy::seek;
use mapcheck::Refused;
use outline::Outlined;
use reasons::{Diagnosis, Faults, Note, Weight, faults_of};
use rendering::{Remedy, Told};
use std::alloc::{AllocError, Global};

// Says what to run where no change was looked for.
fn note_unsought(
    alloc: Global,
    remedy: &Remedy,
    diagnoses: &mut Vec<Diagnosis>,
) -> Result<(), AllocError> {
    if let Remedy::Unsought = remedy {
        if let Some(first) = diagnoses.first_mut() {
            let place = first.place;
            let help = String::from_str(alloc, "run `ompc fix` to look for a change")?;
            first.notes.push(Note {
                weight: Weight::Help,
                place,
                message: help,
                loops: Vec::new(alloc),
            })?;
        }
    }
    Ok(())
}

// Says by which calls the faults were reached.
fn note_calls(
    alloc: Global,
    bytes: &[u8],
    diagnoses: &mut Vec<Diagnosis>,
) -> Result<(), AllocError> {
    let calls = calls_in(alloc, bytes)?;
    'faults: for diagnosis in diagnoses.iter_mut() {
        calls.note(alloc, diagnosis)?;
    }
    Ok(())
}

/// Why the checker refuses a program, whose text these bytes are, from what it found. The error comes where an
/// allocation fails.
pub fn all_told(
    alloc: Global,
    bytes: &[u8],
    outlined: &Outlined<'_>,
    refused: &Refused<'_>,
) -> Result<Told, AllocError>
    ensures { IfOk result (λ told. IsRemedy bytes.now told.remedy) }
{
    let Faults {
        mut diagnoses,
        more,
    } = faults_of(alloc, bytes, outlined, refused)?;
    let remedy = seek(alloc, bytes, outlined, &refused.fault())?;
    note_unsought(alloc, &remedy, &mut diagnoses)?;
    note_calls(alloc, bytes, &mut diagnoses)?;
    Ok(Told {
        diagnoses,
        more,
        remedy,
        warnings: Vec::new(alloc),
    })
}
