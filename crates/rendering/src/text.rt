// A diagnosis as compilers print one.

use crate::excerpt::excerpt_of;
use crate::told::{ACCEPTED, Remedy, Told, Tried};
use base::tree::Place;
use mend::{Edit, Mended};
use reasons::{Diagnosis, end_of, line_of};
use std::alloc::{AllocError, Global};

// Where the texts go, and what they are of.
#[derive(Drop)]
struct Page<'a> {
    alloc: Global,
    file: &'a str,
    bytes: &'a [u8],
    colours: bool,
    text: Vec<u8>,
}

// Colours of a terminal, as ECMA-48 selects them.
const PLAIN: &str = "\x1b[0m";

const BOLD: &str = "\x1b[1m";

const RED: &str = "\x1b[31m";

const BOLD_RED: &str = "\x1b[1;31m";

const GREEN: &str = "\x1b[32m";

const BOLD_GREEN: &str = "\x1b[1;32m";

const BOLD_MAGENTA: &str = "\x1b[1;35m";

const BOLD_CYAN: &str = "\x1b[1;36m";

fn colour_of(word: &str) -> &'static str {
    match word {
        "error" => BOLD_RED,
        "warning" => BOLD_MAGENTA,
        "note" => BOLD_CYAN,
        _ => BOLD_GREEN,
    }
}

fn is_same(left: Place, right: Place) -> bool {
    left.line == right.line && left.column == right.column
}

// A line without a carriage return at its end.
fn without_return(line: &[u8]) -> &[u8] {
    match line {
        [front @ .., b'\r'] => front,
        _ => line,
    }
}

// Whether a name stands in a diff as it is.
fn is_plain(byte: u8) -> bool {
    byte > b' ' && byte != b'"' && byte != b'\\' && byte != 127
}

// A name as the program `patch` reads it: one with blanks ends with a tabulator, and one with quotation marks,
// backslashes or control characters is quoted.
fn name_in_diff(alloc: Global, file: &str) -> Result<String, AllocError> {
    let mut name = String::new(alloc);
    let is_quoted = file.bytes().any(|byte| byte != b' ' && !is_plain(byte));
    if !is_quoted {
        name.push_str(file)?;
        if file.contains(' ') {
            name.push('\t')?;
        }
        return Ok(name);
    }
    name.push('"')?;
    'characters: for c in file.chars() {
        match c {
            '\n' => name.push_str("\\n")?,
            '\t' => name.push_str("\\t")?,
            '"' | '\\' => {
                name.push('\\')?;
                name.push(c)?;
            }
            _ => name.push(c)?,
        }
    }
    name.push('"')?;
    Ok(name)
}

impl Page<'_> {
    fn add(&mut self, text: &str) -> Result<(), AllocError> {
        self.text.extend_from_slice(text.as_bytes())
    }

    // Selects a colour for what follows.
    fn paint(&mut self, colour: &'static str) -> Result<(), AllocError> {
        if self.colours {
            return self.add(colour);
        }
        Ok(())
    }

    // A place with what is said of it.
    fn add_place(&mut self, place: Place, word: &str, message: &str) -> Result<(), AllocError> {
        self.paint(BOLD)?;
        let head = format!(in self.alloc; "{}:{}:{}: ", self.file, place.line, place.column)?;
        self.add(&head)?;
        self.paint(colour_of(word))?;
        self.add(word)?;
        self.add(": ")?;
        self.paint(PLAIN)?;
        self.add(message)?;
        self.add("\n")
    }

    // The line of a place behind its number, and marks under what is written there.
    fn add_line(&mut self, place: Place) -> Result<(), AllocError> {
        let bytes = self.bytes;
        let line = without_return(line_of(bytes, place.line));
        if line.is_empty() {
            return Ok(());
        }
        let at = place.column.saturating_sub(1);
        let end = end_of(bytes, place).saturating_sub(1);
        let excerpt = excerpt_of(self.alloc, line, at, end)?;
        let number = format!(in self.alloc; "{:5} | ", place.line)?;
        self.add(&number)?;
        self.text.extend_from_slice(&excerpt.text)?;
        self.add("\n")?;
        for _ in 3..number.len() {
            self.text.push(b' ')?;
        }
        self.add(" | ")?;
        self.paint(BOLD_GREEN)?;
        self.text.extend_from_slice(&excerpt.marks)?;
        self.paint(PLAIN)?;
        self.add("\n")
    }

    // A line that was shown just before is not shown again.
    fn add_diagnosis(&mut self, diagnosis: &Diagnosis, word: &str) -> Result<(), AllocError> {
        let message = format!(in self.alloc; "{} [{}]", diagnosis.message, diagnosis.code)?;
        self.add_place(diagnosis.place, word, &message)?;
        self.add_line(diagnosis.place)?;
        let mut shown = diagnosis.place;
        'notes: for note in &diagnosis.notes {
            self.add_place(note.place, note.weight.as_str(), &note.message)?;
            if !is_same(shown, note.place) {
                self.add_line(note.place)?;
            }
            shown = note.place;
        }
        Ok(())
    }

    // Lines of a change, each behind the sign that says whether it goes or comes.
    fn add_side(&mut self, sign: u8, lines: &[u8]) -> Result<(), AllocError> {
        self.paint(if sign == b'-' { RED } else { GREEN })?;
        self.text.push(sign)?;
        'bytes: for byte in lines {
            self.text.push(*byte)?;
            if *byte == b'\n' {
                self.text.push(sign)?;
            }
        }
        self.paint(PLAIN)?;
        self.add("\n")
    }

    // The numbers of new lines in a unified diff, of which the first would be this one. Where there is none, the line
    // before is named.
    fn new_lines(&self, edit: &Edit, first: usize) -> Result<String, AllocError> {
        match edit.count {
            0 => format!(in self.alloc; "{},0", first.saturating_sub(1)),
            1 => format!(in self.alloc; "{first}"),
            count => format!(in self.alloc; "{first},{count}"),
        }
    }

    // Lines that are changed, inserted or removed, of which the first has this number in the new text.
    fn add_edit(&mut self, edit: &Edit, first: usize) -> Result<(), AllocError> {
        let new = self.new_lines(edit, first)?;
        match &edit.old {
            Some(old) => {
                let head = format!(in self.alloc; "@@ -{} +{new} @@\n", edit.line)?;
                self.add(&head)?;
                self.add_side(b'-', old)?;
            }
            None => {
                let before = edit.line.saturating_sub(1);
                let head = format!(in self.alloc; "@@ -{before},0 +{new} @@\n")?;
                self.add(&head)?;
            }
        }
        if edit.count == 0 {
            return Ok(());
        }
        self.add_side(b'+', &edit.new)
    }

    // A change, as the program `patch` reads it.
    fn add_fix(&mut self, mended: &Mended) -> Result<(), AllocError> {
        let Some(first) = mended.edits.first() else {
            return Ok(());
        };
        let place = Place {
            line: first.line,
            column: 1,
        };
        self.add_place(place, "help", ACCEPTED)?;
        let name = name_in_diff(self.alloc, self.file)?;
        let head = format!(in self.alloc; "--- {name}\n+++ {name}\n")?;
        self.add(&head)?;
        let (mut come, mut gone) = (0usize, 0usize);
        'edits: for edit in &mended.edits {
            self.add_edit(edit, edit.line.saturating_add(come).saturating_sub(gone))?;
            come = come.saturating_add(edit.count);
            if edit.old.is_some() {
                gone = gone.saturating_add(1);
            }
        }
        Ok(())
    }

    // How much was tried where no change was found.
    fn add_tried(&mut self, tried: &Tried) -> Result<(), AllocError> {
        let (steps, checks) = (tried.steps, tried.checks);
        let line = match tried.latest {
            None => format!(in self.alloc;
                "{}: no change found: steps {steps}, checks {checks}\n",
                self.file
            )?,
            Some(latest) => format!(in self.alloc;
                "{}: no change found: steps {steps}, checks {checks}; the best one came to {} at line {}\n",
                self.file, latest.code, latest.line
            )?,
        };
        self.add(&line)
    }

    // How many more faults were found.
    fn add_more(&mut self, more: u64) -> Result<(), AllocError> {
        let line = match more {
            0 => return Ok(()),
            1 => format!(in self.alloc; "{}: 1 more fault was found\n", self.file)?,
            _ => format!(in self.alloc; "{}: {more} more faults were found\n", self.file)?,
        };
        self.add(&line)
    }
}

/// What is told of a file whose bytes these are, in the colours of a terminal or in none; where it has no faults, that
/// its program is accepted.
pub fn as_text(
    alloc: Global,
    file: &str,
    bytes: &[u8],
    told: &Told,
    colours: bool,
) -> Result<Vec<u8>, AllocError> {
    let mut page = Page {
        alloc,
        file,
        bytes,
        colours,
        text: Vec::new(alloc),
    };
    if told.diagnoses.is_empty() {
        let line = format!(in alloc; "{file}: accepted\n")?;
        page.add(&line)?;
    }
    'diagnoses: for diagnosis in &told.diagnoses {
        page.add_diagnosis(diagnosis, "error")?;
    }
    page.add_more(told.more)?;
    match &told.remedy {
        Remedy::Found(mended) => page.add_fix(mended)?,
        Remedy::Missing(tried) => page.add_tried(tried)?,
        Remedy::Unsought | Remedy::Untried => {}
    }
    'warnings: for warning in &told.warnings {
        page.add_diagnosis(warning, "warning")?;
    }
    let Page { text, .. } = page;
    Ok(text)
}
