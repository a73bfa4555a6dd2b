//! Reads the sources in `sources`, and prints how many are read as the files beside them say, and those that are not with
//! what came of them.
//!
//! What is wanted of NAME.c stands in NAME.txt: its tree, or why it is refused. Where there is a NAME.erased.c, it is the
//! text of NAME.c without its directives. NAME.rows has small sources, each below what is wanted of it, and NAME.pairs two
//! that have one tree. Of each source
//! that is read, a part that ends before its last brace must be refused. For a new NAME.c, run this program in its
//! folder `data`: it prints what would stand in NAME.txt.

mod pairs;
mod printed;
mod rows;

use self::pairs::compare_pairs;
use self::printed::add_program;
use self::rows::compare_rows;
pub(crate) use self::rows::rows_of;
use crate::tally::Tally;
use crate::text::Text;
use base::fault::ReadFault;
use base::tree::Program;
use c_read::read_program;
use erased_meaning::read_erased;
use erasure::erase;
use std::alloc::{AllocError, Global};
use std::io::Write;
use std::{fs, io};

fn outcome_text(
    alloc: Global,
    outcome: &Result<Program, ReadFault>,
) -> Result<Vec<u8>, AllocError> {
    let mut out = Text::new(alloc);
    match outcome {
        Ok(program) => add_program(&mut out, program),
        Err(fault) => out.add_line(*fault),
    }
    out.end()
}

/// What is read of a source.
fn reading(alloc: Global, source: &[u8]) -> Result<Vec<u8>, AllocError> {
    outcome_text(alloc, &read_program(alloc, source))
}

/// What is read of the text of a source without its directives.
fn erased_reading(alloc: Global, source: &[u8]) -> Result<Vec<u8>, AllocError> {
    outcome_text(alloc, &read_erased(alloc, source))
}

/// The file of that name with that ending.
fn file_bytes(rt: &HostRuntime, name: &str, ending: &str) -> io::Result<Vec<u8>> {
    let path = format!(in rt.alloc(); "sources/{name}{ending}")?;
    fs::read(rt, &path)
}

/// Whether a program that ends before its last brace is refused, wherever it ends. Of what is no program nothing is asked.
fn are_cuts_refused(alloc: Global, text: &[u8]) -> bool {
    read_program(alloc, text).is_err()
        || (0..text.len()).all(|n| read_program(alloc, &text[..n]).is_err())
}

/// A source with what is wanted of it.
#[derive(Drop)]
struct Case {
    source: Vec<u8>,
    wanted: Vec<u8>,
}

/// Compares what is left of a source without its directives with the text of the case, and what that means.
fn compare_erased(rt: &HostRuntime, tally: &mut Tally, name: &str, case: &Case) -> io::Result<()> {
    let source = file_bytes(rt, name, ".c")?;
    tally.compare(
        name,
        ".erased.c",
        &erase(rt.alloc(), &source)?,
        &case.source,
    );
    let text = erased_reading(rt.alloc(), &source)?;
    tally.compare(name, ".erased.txt", &text, &case.wanted);
    Ok(())
}

/// Compares what is read of a source. Where nothing says what is wanted of it, that is an empty text.
fn compare_source(rt: &HostRuntime, tally: &mut Tally, name: &str) -> io::Result<()> {
    let alloc = rt.alloc();
    let source = file_bytes(rt, name, ".c")?;
    let wanted = file_bytes(rt, name, ".txt").unwrap_or(Vec::new(alloc));
    tally.compare(name, ".txt", &reading(alloc, &source)?, &wanted);
    if !are_cuts_refused(alloc, source.trim_ascii_end()) {
        tally.compare(name, ".c", b"a part of it is read", b"");
    }
    match name.strip_suffix(".erased") {
        None => Ok(()),
        Some(whole) => compare_erased(rt, tally, whole, &Case { source, wanted }),
    }
}

fn compare_file(rt: &HostRuntime, tally: &mut Tally, file: &str) -> io::Result<()> {
    if let Some(name) = file.strip_suffix(".c") {
        return compare_source(rt, tally, name);
    }
    if file.ends_with(".rows") {
        let path = format!(in rt.alloc(); "sources/{file}")?;
        return compare_rows(rt.alloc(), tally, &fs::read_to_string(rt, &path)?);
    }
    if file.ends_with(".pairs") {
        let path = format!(in rt.alloc(); "sources/{file}")?;
        return compare_pairs(rt.alloc(), tally, &fs::read_to_string(rt, &path)?);
    }
    Ok(())
}

fn compare_files(rt: &HostRuntime) -> io::Result<Tally> {
    let mut tally = Tally::new(rt.alloc());
    for entry in fs::read_dir(rt, "sources")? {
        compare_file(rt, &mut tally, entry?.file_name())?;
    }
    Ok(tally)
}

/// Compares all sources of the folder, and answers whether all are as wanted.
pub(crate) fn compare<W: Write>(rt: &HostRuntime, out: &mut W) -> io::Result<bool> {
    compare_files(rt)?.tell("readings", out)
}
