// A diagnosis in the Static Analysis Results Interchange Format (SARIF), version 2.1.0.

use crate::objects::turn_objects;
use crate::sarif_fixes::fix_values;
use crate::told::Told;
use base::tree::Place;
use percent_encoding::{AsciiSet, CONTROLS, ascii_set, utf8_percent_encode};
use reasons::{Diagnosis, Note, end_of, line_of};
use serde_json::{Value, json, push};
use std::alloc::{AllocError, Global};

const SARIF_VERSION: &str = "2.1.0";

const SCHEMA: &str =
    "https://docs.oasis-open.org/sarif/sarif/v2.1.0/errata01/os/schemas/sarif-schema-2.1.0.json";

const TOOL: &str = "ompc";

const TOOL_VERSION: &str = "0.1.0";

// A file by its address, and its bytes.
#[derive(Clone, Copy)]
struct File<'a> {
    uri: &'a str,
    bytes: &'a [u8],
}

impl File<'_> {
    // How many characters of a line stand up to a column, and one more. What is no text counts as it is shown.
    fn characters_to(&self, place: Place, column: usize) -> usize {
        let line = line_of(self.bytes, place.line);
        let before = line.get(..column.saturating_sub(1)).unwrap_or(line);
        let inner = before.iter().filter(|byte| **byte & 0xC0 == 0x80).count();
        column.saturating_sub(inner)
    }
}

fn physical(alloc: Global, file: File<'_>, place: Place) -> Result<Value, AllocError> {
    let column = file.characters_to(place, place.column);
    let end = file.characters_to(place, end_of(file.bytes, place));
    json!(in alloc; {
        "artifactLocation": {"uri": file.uri},
        "region": {
            "startLine": place.line,
            "startColumn": column,
            "endLine": place.line,
            "endColumn": end
        }
    })
}

fn location(alloc: Global, file: File<'_>, place: Place) -> Result<Value, AllocError> {
    let physical = physical(alloc, file, place)?;
    json!(in alloc; {"physicalLocation": physical})
}

fn related(alloc: Global, file: File<'_>, id: usize, note: &Note) -> Result<Value, AllocError> {
    let physical = physical(alloc, file, note.place)?;
    let text = format!(in alloc; "{}: {}", note.weight.as_str(), note.message)?;
    let loops = turn_objects(alloc, &note.loops)?;
    json!(in alloc; {
        "id": id,
        "physicalLocation": physical,
        "message": {"text": text},
        "properties": {"loops": loops}
    })
}

fn all_related(alloc: Global, file: File<'_>, notes: &[Note]) -> Result<Value, AllocError> {
    let mut list = Vec::new(alloc);
    'notes: for (id, note) in notes.iter().enumerate() {
        push(&mut list, related(alloc, file, id, note)?)?;
    }
    Ok(Value::Array(list))
}

// What the text and the object have besides: the item, the cell and the turn.
fn properties(alloc: Global, diagnosis: &Diagnosis) -> Result<Value, AllocError> {
    let loops = turn_objects(alloc, &diagnosis.loops)?;
    match &diagnosis.cell {
        None => json!(in alloc; {"item": diagnosis.item, "loops": loops}),
        Some(named) => json!(in alloc; {
            "item": diagnosis.item,
            "array": &named.array,
            "cell": named.cell.index,
            "loops": loops
        }),
    }
}

// A fault with the changes that mend the file, or a warning.
fn result(
    alloc: Global,
    file: File<'_>,
    level: &str,
    diagnosis: &Diagnosis,
    fixes: Value,
) -> Result<Value, AllocError> {
    let location = location(alloc, file, diagnosis.place)?;
    let related = all_related(alloc, file, &diagnosis.notes)?;
    let properties = properties(alloc, diagnosis)?;
    json!(in alloc; {
        "ruleId": diagnosis.code,
        "level": level,
        "message": {"text": &diagnosis.message},
        "locations": [location],
        "relatedLocations": related,
        "properties": properties,
        "fixes": fixes
    })
}

fn rule(alloc: Global, diagnosis: &Diagnosis) -> Result<Value, AllocError> {
    json!(in alloc; {"id": diagnosis.code, "shortDescription": {"text": diagnosis.rule}})
}

// Whether an earlier diagnosis has the same code.
fn is_told(diagnoses: &[Diagnosis], code: &str) -> bool {
    'diagnoses: for diagnosis in diagnoses {
        if diagnosis.code == code {
            return true;
        }
    }
    false
}

// The rules of faults, or of warnings. No code is one of both.
fn add_rules(
    alloc: Global,
    diagnoses: &[Diagnosis],
    list: &mut Vec<Value>,
) -> Result<(), AllocError> {
    'diagnoses: for (number, diagnosis) in diagnoses.iter().enumerate() {
        if !is_told(&diagnoses[..number], diagnosis.code) {
            push(list, rule(alloc, diagnosis)?)?;
        }
    }
    Ok(())
}

fn rules(alloc: Global, told: &Told) -> Result<Value, AllocError> {
    let mut list = Vec::new(alloc);
    add_rules(alloc, &told.diagnoses, &mut list)?;
    add_rules(alloc, &told.warnings, &mut list)?;
    Ok(Value::Array(list))
}

fn add_warnings(
    alloc: Global,
    file: File<'_>,
    warnings: &[Diagnosis],
    list: &mut Vec<Value>,
) -> Result<(), AllocError> {
    'warnings: for warning in warnings {
        let none = Value::Array(Vec::new(alloc));
        push(list, result(alloc, file, "warning", warning, none)?)?;
    }
    Ok(())
}

// The faults, the first of which has the change that was found, and the warnings.
fn results(alloc: Global, file: File<'_>, told: &Told) -> Result<Value, AllocError> {
    let mut list = Vec::new(alloc);
    'diagnoses: for (number, diagnosis) in told.diagnoses.iter().enumerate() {
        let fixes = if number == 0 {
            fix_values(alloc, file.uri, &told.remedy)?
        } else {
            Value::Array(Vec::new(alloc))
        };
        push(&mut list, result(alloc, file, "error", diagnosis, fixes)?)?;
    }
    add_warnings(alloc, file, &told.warnings, &mut list)?;
    Ok(Value::Array(list))
}

// What stands in an address as `%` and two digits: what ends a path, or could be read as a scheme.
const ESCAPED: AsciiSet = ascii_set!(
    CONTROLS
        .add(b' ')
        .add(b'"')
        .add(b'#')
        .add(b'%')
        .add(b':')
        .add(b'<')
        .add(b'>')
        .add(b'?')
        .add(b'[')
        .add(b'\\')
        .add(b']')
        .add(b'^')
        .add(b'`')
        .add(b'{')
        .add(b'|')
        .add(b'}')
);

/// What is told of a file whose bytes these are, as one log with one run. Columns count characters.
pub fn as_sarif(
    alloc: Global,
    file: &str,
    bytes: &[u8],
    told: &Told,
) -> Result<String, AllocError> {
    let mut uri = String::new(alloc);
    utf8_percent_encode(file, ESCAPED).append_to(&mut uri)?;
    let file = File { uri: &uri, bytes };
    let rules = rules(alloc, told)?;
    let results = results(alloc, file, told)?;
    let driver = json!(in alloc; {"name": TOOL, "version": TOOL_VERSION, "rules": rules})?;
    let log = json!(in alloc; {
        "version": SARIF_VERSION,
        "$schema": SCHEMA,
        "runs": [{
            "tool": {"driver": driver},
            "columnKind": "unicodeCodePoints",
            "results": results,
            "properties": {"more": told.more}
        }]
    })?;
    log.to_string_pretty(alloc)
}
