// What is told of a text with its lines joined, told of the text as it stands.

use base::tree::Place;
use c_lines::place_in;
use mend::{edits_of, split_as};
use reasons::Diagnosis;
use rendering::{Remedy, Told};
use std::alloc::{AllocError, Global};

fn place_on(source: &[u8], place: Place) -> Place {
    let (line, column) = place_in(source, place.line, place.column);
    Place { line, column }
}

fn place_all(source: &[u8], diagnoses: &mut Vec<Diagnosis>) {
    'diagnoses: for diagnosis in diagnoses.iter_mut() {
        diagnosis.place = place_on(source, diagnosis.place);
        'notes: for note in diagnosis.notes.iter_mut() {
            note.place = place_on(source, note.place);
        }
    }
}

/// Tells of the source what is told of the text in which its lines that go on behind a backslash are joined: the places
/// are those of the source, and so are the lines of a change, which are broken where those of the source are. The error
/// comes where an allocation fails.
pub fn place_told(
    alloc: Global,
    source: &[u8],
    joined: &[u8],
    told: &mut Told,
) -> Result<(), AllocError> {
    if source == joined {
        return Ok(());
    }
    place_all(source, &mut told.diagnoses);
    place_all(source, &mut told.warnings);
    if let Remedy::Found(mended) = &mut told.remedy {
        let text = split_as(alloc, source, joined, &mended.text)?;
        mended.edits = edits_of(alloc, source, &text)?;
    }
    Ok(())
}
