//! Small sources in one file. Each stands below a line `== ` with what is wanted of it, and ends before the line feed in
//! front of the next such line. In a source a line `@9 TEXT` stands for TEXT nine times, with no line feed behind it;
//! in TEXT `?` stands for the number of the time, from 0, and `$` for a line feed.

use crate::tally::Tally;
use crate::text::Text;
use base::fault::ReadFault;
use base::tree::Program;
use c_read::read_program;
use std::alloc::{AllocError, Global};
use std::io;

fn add_times(out: &mut Text, count: u32, text: &str) {
    for n in 0..count {
        for c in text.chars() {
            match c {
                '?' => out.add_shown(n),
                '$' => out.add("\n"),
                c => out.add_shown(c),
            }
        }
    }
}

fn add_expanded(out: &mut Text, line: &str) {
    match line.strip_prefix('@').and_then(|it| it.split_once(' ')) {
        None => out.add(line),
        Some((count, text)) => {
            let count = count.parse::<u32>().unwrap_or(0);
            add_times(out, count, text.trim_end_matches('\n'));
        }
    }
}

/// The source that a row stands for.
pub(crate) fn expanded(alloc: Global, row: &str) -> Result<Vec<u8>, AllocError> {
    let mut out = Text::new(alloc);
    for line in row.split_inclusive('\n') {
        add_expanded(&mut out, line);
    }
    out.end()
}

fn add_read(out: &mut Text, program: &Program) {
    out.add_with("read: ", program.arrays.len());
    out.add_with(" arrays, ", program.scalars);
    out.add_with(" scalars, ", program.body.len());
    out.add(" parts");
}

/// The refusal, or how much was read.
fn summary(alloc: Global, outcome: &Result<Program, ReadFault>) -> Result<Vec<u8>, AllocError> {
    let mut out = Text::new(alloc);
    match outcome {
        Ok(program) => add_read(&mut out, program),
        Err(fault) => out.add_shown(*fault),
    }
    out.end()
}

fn summary_of(alloc: Global, source: &[u8]) -> Result<Vec<u8>, AllocError> {
    summary(alloc, &read_program(alloc, source))
}

/// A row: what is wanted of it, its text, and the source that this stands for.
#[derive(Drop)]
pub(crate) struct Row<'t> {
    wanted: &'t str,
    pub(crate) text: &'t str,
    pub(crate) source: Vec<u8>,
}

/// The rows of a file.
pub(crate) fn rows_of(alloc: Global, file: &str) -> Result<Vec<Row<'_>>, AllocError> {
    let mut rows = Vec::new(alloc);
    for row in file.trim_end_matches('\n').split("\n== ").skip(1) {
        let (wanted, text) = row.split_once('\n').unwrap_or((row, ""));
        rows.push(Row {
            wanted,
            text,
            source: expanded(alloc, text)?,
        })?;
    }
    Ok(rows)
}

/// Compares what the reader makes of each row. A row that differs is named by its source.
pub(crate) fn compare_rows(alloc: Global, tally: &mut Tally, file: &str) -> io::Result<()> {
    for row in &rows_of(alloc, file)? {
        let found = summary_of(alloc, &row.source)?;
        tally.compare(row.text, "", &found, row.wanted.as_bytes());
    }
    Ok(())
}
