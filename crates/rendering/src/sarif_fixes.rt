// A change in the Static Analysis Results Interchange Format (SARIF), version 2.1.0.

use crate::told::{ACCEPTED, Remedy};
use mend::{Edit, Mended};
use serde_json::{Value, json, push};
use std::alloc::{AllocError, Global};

// A region with no end of its own ends with its line, before the line feed.
fn replacement(alloc: Global, edit: &Edit) -> Result<Value, AllocError> {
    let (line, new) = (edit.line, str::from_utf8(&edit.new).unwrap_or(""));
    match &edit.old {
        Some(_) if edit.count == 0 => {
            let next = line.saturating_add(1);
            json!(in alloc; {
                "deletedRegion": {"startLine": line, "startColumn": 1, "endLine": next, "endColumn": 1},
                "insertedContent": {"text": ""}
            })
        }
        Some(_) => json!(in alloc; {
            "deletedRegion": {"startLine": line, "startColumn": 1},
            "insertedContent": {"text": new}
        }),
        None => {
            let text = format!(in alloc; "{new}\n")?;
            json!(in alloc; {
                "deletedRegion": {"startLine": line, "startColumn": 1, "endColumn": 1},
                "insertedContent": {"text": &text}
            })
        }
    }
}

fn fix_value(alloc: Global, file: &str, mended: &Mended) -> Result<Value, AllocError> {
    let mut list = Vec::new(alloc);
    'edits: for edit in &mended.edits {
        push(&mut list, replacement(alloc, edit)?)?;
    }
    let replacements = Value::Array(list);
    let change = json!(in alloc; {
        "artifactLocation": {"uri": file},
        "replacements": replacements
    })?;
    json!(in alloc; {"description": {"text": ACCEPTED}, "artifactChanges": [change]})
}

/// The change that was found, as a list of at most one.
pub fn fix_values(alloc: Global, file: &str, remedy: &Remedy) -> Result<Value, AllocError> {
    let mut list = Vec::new(alloc);
    if let Remedy::Found(mended) = remedy {
        push(&mut list, fix_value(alloc, file, mended)?)?;
    }
    Ok(Value::Array(list))
}
