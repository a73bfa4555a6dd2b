// A diagnosis as an object of JSON.

use crate::told::{ACCEPTED, Remedy, Told};
use mend::{Edit, Located, Mended};
use reasons::{Diagnosis, NamedCell, Note, Turn, end_of};
use serde_json::{Value, json, push};
use std::alloc::{AllocError, Global};

// The version of the form of these objects.
const FORM: u64 = 1;

fn turn_object(alloc: Global, turn: &Turn) -> Result<Value, AllocError> {
    json!(in alloc; {"name": &turn.name, "value": turn.value})
}

/// The loops around a place, with their values.
pub fn turn_objects(alloc: Global, turns: &[Turn]) -> Result<Value, AllocError> {
    let mut list = Vec::new(alloc);
    'turns: for turn in turns {
        push(&mut list, turn_object(alloc, turn)?)?;
    }
    Ok(Value::Array(list))
}

fn note_object(alloc: Global, bytes: &[u8], note: &Note) -> Result<Value, AllocError> {
    let (line, column) = (note.place.line, note.place.column);
    let end = end_of(bytes, note.place);
    let loops = turn_objects(alloc, &note.loops)?;
    json!(in alloc; {
        "kind": note.weight.as_str(),
        "line": line,
        "column": column,
        "end_line": line,
        "end_column": end,
        "message": &note.message,
        "loops": loops
    })
}

fn note_objects(alloc: Global, bytes: &[u8], notes: &[Note]) -> Result<Value, AllocError> {
    let mut list = Vec::new(alloc);
    'notes: for note in notes {
        push(&mut list, note_object(alloc, bytes, note)?)?;
    }
    Ok(Value::Array(list))
}

fn array_value(alloc: Global, cell: &Option<NamedCell>) -> Result<Value, AllocError> {
    match cell {
        None => Ok(Value::Null),
        Some(named) => Value::try_from_str(alloc, &named.array),
    }
}

fn index_value(cell: &Option<NamedCell>) -> Value {
    match cell {
        None => Value::Null,
        Some(named) => Value::from(named.cell.index),
    }
}

fn diagnosis_object(
    alloc: Global,
    bytes: &[u8],
    diagnosis: &Diagnosis,
) -> Result<Value, AllocError> {
    let loops = turn_objects(alloc, &diagnosis.loops)?;
    let notes = note_objects(alloc, bytes, &diagnosis.notes)?;
    let array = array_value(alloc, &diagnosis.cell)?;
    let cell = index_value(&diagnosis.cell);
    let (line, column) = (diagnosis.place.line, diagnosis.place.column);
    let end = end_of(bytes, diagnosis.place);
    json!(in alloc; {
        "code": diagnosis.code,
        "rule": diagnosis.rule,
        "message": &diagnosis.message,
        "line": line,
        "column": column,
        "end_line": line,
        "end_column": end,
        "item": diagnosis.item,
        "array": array,
        "cell": cell,
        "loops": loops,
        "notes": notes
    })
}

fn diagnosis_objects(
    alloc: Global,
    bytes: &[u8],
    diagnoses: &[Diagnosis],
) -> Result<Value, AllocError> {
    let mut list = Vec::new(alloc);
    'diagnoses: for diagnosis in diagnoses {
        push(&mut list, diagnosis_object(alloc, bytes, diagnosis)?)?;
    }
    Ok(Value::Array(list))
}

// The text of a line that is changed or inserted, which is UTF-8.
fn line_text(line: &[u8]) -> &str {
    str::from_utf8(line).unwrap_or("")
}

// The bytes that go, by the places where they begin and end, and the text that comes.
fn edit_object(alloc: Global, edit: &Edit) -> Result<Value, AllocError> {
    let (line, new) = (edit.line, line_text(&edit.new));
    match &edit.old {
        Some(_) if edit.count == 0 => {
            let next = line.saturating_add(1);
            json!(in alloc; {"line": line, "column": 1, "end_line": next, "end_column": 1, "text": ""})
        }
        Some(old) => {
            let end = old.len().saturating_add(1);
            json!(in alloc; {"line": line, "column": 1, "end_line": line, "end_column": end, "text": new})
        }
        None => {
            let text = format!(in alloc; "{new}\n")?;
            json!(in alloc; {"line": line, "column": 1, "end_line": line, "end_column": 1, "text": &text})
        }
    }
}

fn fix_object(alloc: Global, mended: &Mended) -> Result<Value, AllocError> {
    let mut list = Vec::new(alloc);
    'edits: for edit in &mended.edits {
        push(&mut list, edit_object(alloc, edit)?)?;
    }
    let edits = Value::Array(list);
    json!(in alloc; {"message": ACCEPTED, "edits": edits})
}

fn fix_objects(alloc: Global, remedy: &Remedy) -> Result<Value, AllocError> {
    let mut list = Vec::new(alloc);
    if let Remedy::Found(mended) = remedy {
        push(&mut list, fix_object(alloc, mended)?)?;
    }
    Ok(Value::Array(list))
}

fn latest_object(alloc: Global, latest: Option<Located>) -> Result<Value, AllocError> {
    match latest {
        Some(Located { code, line }) => json!(in alloc; {"code": code, "line": line}),
        None => Ok(Value::Null),
    }
}

// How much was tried where no change was found.
fn tried_object(alloc: Global, remedy: &Remedy) -> Result<Value, AllocError> {
    match remedy {
        Remedy::Missing(tried) => {
            let latest = latest_object(alloc, tried.latest)?;
            json!(in alloc; {"steps": tried.steps, "checks": tried.checks, "latest": latest})
        }
        _ => Ok(Value::Null),
    }
}

/// What is told of a file whose bytes these are, as one object.
pub fn as_json(alloc: Global, file: &str, bytes: &[u8], told: &Told) -> Result<String, AllocError> {
    let accepted = told.diagnoses.is_empty();
    let all = diagnosis_objects(alloc, bytes, &told.diagnoses)?;
    let warnings = diagnosis_objects(alloc, bytes, &told.warnings)?;
    let fixes = fix_objects(alloc, &told.remedy)?;
    let tried = tried_object(alloc, &told.remedy)?;
    let report = json!(in alloc; {
        "version": FORM,
        "file": file,
        "accepted": accepted,
        "diagnostics": all,
        "more": told.more,
        "warnings": warnings,
        "fixes": fixes,
        "tried": tried
    })?;
    report.to_string_pretty(alloc)
}
