//! Compares what the regions of the sources in `sources`, `layers` and `commands` touch with what a plain walk finds,
//! of the same turns in short loops, and where its turns meet with what a walk of each pair of them finds: that of each
//! region with the loop values of the first item that has it, and with those of the last one, where they differ. Of a
//! source that is not read, or has too many items, there is nothing to compare.

mod cut;
mod meet;
mod touched;

use self::touched::{found, wanted};
use crate::tally::Tally;
use crate::trees::rows_of;
use base::item::{Item, LoopValues};
use c_read::read_program;
use outline::{Outlined, RegionEntry, outline};
use std::alloc::{AllocError, Global};
use std::io::Write;
use std::{fs, io};

/// The folders of the sources.
const FOLDERS: [&str; 3] = ["sources", "layers", "commands"];

/// Compares what a region touches with these values of the loops around it.
fn compare_region(
    alloc: Global,
    tally: &mut Tally,
    name: &str,
    outlined: &Outlined<'_>,
    entry: &RegionEntry<'_>,
    loops: &LoopValues,
) -> Result<(), AllocError> {
    let (program, region) = (outlined.program(), entry.region);
    let place = region.place;
    let ending = format!(in alloc; " region at {}:{}", place.line, place.column)?;
    let found = found(alloc, program, region, loops)?;
    tally.compare(
        name,
        &ending,
        &found,
        &wanted(alloc, program, region, loops)?,
    );
    Ok(())
}

/// The first item that has a region, and the last one.
fn first_and_last(items: &[Item], region: usize) -> Option<(&Item, &Item)> {
    let mut ends = None;
    for item in items {
        if item.region.is_some_and(|number| number as usize == region) {
            ends = Some(match ends {
                None => (item, item),
                Some((first, _)) => (first, item),
            });
        }
    }
    ends
}

fn compare_outlined(
    alloc: Global,
    tally: &mut Tally,
    name: &str,
    outlined: &Outlined<'_>,
) -> Result<(), AllocError> {
    for (number, entry) in outlined.regions().iter().enumerate() {
        if let Some((first, last)) = first_and_last(outlined.items(), number) {
            compare_region(alloc, tally, name, outlined, entry, &first.loops)?;
            if first.loops.values.as_slice() != last.loops.values.as_slice() {
                compare_region(alloc, tally, name, outlined, entry, &last.loops)?;
            }
        }
    }
    Ok(())
}

fn compare_source(
    alloc: Global,
    tally: &mut Tally,
    name: &str,
    source: &[u8],
) -> Result<(), AllocError> {
    let Ok(program) = read_program(alloc, source) else {
        return Ok(());
    };
    let Ok(outlined) = outline(alloc, &program) else {
        return Ok(());
    };
    compare_outlined(alloc, tally, name, &outlined)
}

fn compare_file(rt: &HostRuntime, tally: &mut Tally, folder: &str, file: &str) -> io::Result<()> {
    let alloc = rt.alloc();
    let path = format!(in alloc; "{folder}/{file}")?;
    if file.ends_with(".c") {
        compare_source(alloc, tally, &path, &fs::read(rt, &path)?)?;
    }
    if file.ends_with(".rows") {
        for row in &rows_of(alloc, &fs::read_to_string(rt, &path)?)? {
            compare_source(alloc, tally, row.text, &row.source)?;
        }
    }
    Ok(())
}

fn compare_folders(rt: &HostRuntime) -> io::Result<Tally> {
    let mut tally = Tally::new(rt.alloc());
    for folder in FOLDERS {
        for entry in fs::read_dir(rt, folder)? {
            compare_file(rt, &mut tally, folder, entry?.file_name())?;
        }
    }
    Ok(tally)
}

/// Compares the regions of all sources of the folders, and answers whether what they touch is as wanted.
pub(crate) fn compare<W: Write>(rt: &HostRuntime, out: &mut W) -> io::Result<bool> {
    compare_folders(rt)?.tell("footprints", out)
}
