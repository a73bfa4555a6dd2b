//! Compares what the layers of the check say of the sources in `layers` with the file NAME.txt beside each NAME.c. For a new
//! NAME.c, run this program in its folder `data`: it prints what would stand in NAME.txt.

mod said;

use self::said::said;
use crate::tally::Tally;
use std::io::Write;
use std::{fs, io};

/// Compares what is said of a source. Where nothing says what is wanted of it, that is an empty text.
fn compare_source(rt: &HostRuntime, tally: &mut Tally, name: &str) -> io::Result<()> {
    let alloc = rt.alloc();
    let source = fs::read(rt, &format!(in alloc; "layers/{name}.c")?)?;
    let wanted = fs::read(rt, &format!(in alloc; "layers/{name}.txt")?);
    let found = said(alloc, &source)?;
    tally.compare(name, ".txt", &found, &wanted.unwrap_or(Vec::new(alloc)));
    Ok(())
}

fn compare_sources(rt: &HostRuntime) -> io::Result<Tally> {
    let mut tally = Tally::new(rt.alloc());
    for entry in fs::read_dir(rt, "layers")? {
        let entry = entry?;
        if let Some(name) = entry.file_name().strip_suffix(".c") {
            compare_source(rt, &mut tally, name)?;
        }
    }
    Ok(tally)
}

/// Compares all sources of the folder, and answers whether all are as wanted.
pub(crate) fn compare<W: Write>(rt: &HostRuntime, out: &mut W) -> io::Result<bool> {
    compare_sources(rt)?.tell("checks", out)
}
