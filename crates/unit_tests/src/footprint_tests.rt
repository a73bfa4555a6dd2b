// Footprints of a long loop, not all of whose turns are walked, beside those of the same turns in short ones, which are.

use base::item::Cell;
use base::tree::ArrayId;
use c_read::read_program;
use mapcheck::passes::footprints_of;
use mapwalk::{Footprints, repeats};
use outline::{Outlined, outline};
use ranges::{CellSet, Footprint, Part, Run};
use std::alloc::{AllocError, Global};
use std::test::Fail;

const BODIES: [&str; 23] = [
    "A[i] = A[i] + B[i];",
    "A[i] = A[i - 1];",
    "A[i] = A[i + 1];",
    "A[i + 2] = A[i + 1]; A[i] = A[i + 2];",
    "A[i] = 1; B[i] = A[i];",
    "B[i] = A[i]; A[i] = 1;",
    "A[i + 16 * k] = A[16 * k + i + 1] + B[i - k];",
    "A[i - 2] = B[2 + i]; B[i + 3] = A[i - 1] + A[i - 2];",
    "A[i] = A[3];",
    "A[2 * i - i] = A[i] + 1;",
    "A[i] = A[i - k] + k;",
    "A[i + k * k - k] = A[i + 1 - k]; A[i + k] = A[i] + A[i + k];",
    "A[5] = A[5] + B[i];",
    "A[i % 8] = A[i % 8] + B[i];",
    "A[B[i] & 7] = A[B[i] & 7] + 1;",
    "A[i & 3] = B[i]; B[2 * i] = A[i & 7] + A[1];",
    "A[i >> 2] = B[(i << 1) & 31]; B[i & k] = A[i >> 3];",
    "if (i % 3 == 0) { A[i / 3] = i; } B[i % 4] = A[i / 4];",
    "if (B[0]) { A[1] = 2; } else { A[i & 3] = A[2]; }",
    "if (i < 16) { A[0] = 1; } B[0] = A[0]; A[20 - i % 4] = A[63 - i];",
    "if (k) { A[i % 5] = 1; } B[i % 3] = A[i % 4];",
    "for (uint64_t j = 0; j < 4; j += 1) { A[4 * j + i % 4] = A[4 * j + 1] + B[i]; }",
    "for (uint64_t j = 1; j < 5; j += 2) { if (i > j + 9) { A[j] = B[i]; } B[j + 40] = A[i % 5]; }",
];

// Two targets, in which these turns stand in one loop or in several.
fn source(alloc: Global, body: &str, heads: &[&str]) -> Result<Vec<u8>, AllocError> {
    let mut text = Vec::new(alloc);
    text.extend_from_slice(b"uint64_t A[64];\nuint64_t B[64];\nint main(void) {\n")?;
    text.extend_from_slice(b"for (uint64_t k = 0; k < 2; k += 1) {\n")?;
    text.extend_from_slice(b"#pragma omp target map(tofrom: A) map(tofrom: B)\n{\n")?;
    for head in heads {
        text.extend_from_slice(head.as_bytes())?;
        text.extend_from_slice(body.as_bytes())?;
        text.extend_from_slice(b"}\n")?;
    }
    text.extend_from_slice(b"}\n}\n}\n")?;
    Ok(text)
}

const LONG: [&str; 1] = ["for (uint64_t i = 2; i < 32; i += 1) {"];

const SHORT: [&str; 5] = [
    "for (uint64_t i = 2; i < 8; i += 1) {",
    "for (uint64_t i = 8; i < 14; i += 1) {",
    "for (uint64_t i = 14; i < 20; i += 1) {",
    "for (uint64_t i = 20; i < 26; i += 1) {",
    "for (uint64_t i = 26; i < 32; i += 1) {",
];

// For each cell whether the set has it.
fn add_cells(set: &CellSet, cells: &mut Vec<bool>) -> Result<(), AllocError> {
    for array in 0..2 {
        for index in 0..64 {
            cells.push(set.contains(Cell {
                array: ArrayId(array),
                index,
            }))?;
        }
    }
    Ok(())
}

fn add_footprint(found: &Option<Footprint>, cells: &mut Vec<bool>) -> Result<(), AllocError> {
    if let Some(footprint) = found {
        add_cells(&footprint.exposed, cells)?;
        add_cells(&footprint.read, cells)?;
        add_cells(&footprint.write, cells)?;
        add_cells(&footprint.sure, cells)?;
    }
    Ok(())
}

fn cells_of(alloc: Global, found: &Footprints) -> Result<Vec<bool>, AllocError> {
    let mut cells = Vec::new(alloc);
    for item in 0..found.len() {
        add_footprint(found.get(item), &mut cells)?;
    }
    Ok(cells)
}

fn all_cells(alloc: Global, outlined: &Outlined<'_>) -> Result<Vec<bool>, Fail> {
    let found = footprints_of(alloc, outlined, &repeats(alloc, outlined)?)?;
    Ok(cells_of(alloc, &found)?)
}

fn touched(alloc: Global, text: &[u8]) -> Result<Vec<bool>, Fail> {
    let program = read_program(alloc, text)?;
    let outlined = outline(alloc, &program)?;
    all_cells(alloc, &outlined)
}

// Whether the turns of one loop, in which this is the body, touch what they do in short loops.
fn are_alike(alloc: Global, body: &str, one: &[&str], several: &[&str]) -> Result<bool, Fail> {
    let long = touched(alloc, &source(alloc, body, one)?)?;
    let short = touched(alloc, &source(alloc, body, several)?)?;
    Ok(long.len() == 1024 && long == short)
}

#[test]
fn turns_need_not_be_walked(rt: HostRuntime) -> Result<(), Fail> {
    for body in BODIES {
        assert!(rt; are_alike(rt.alloc(), body, &LONG, &SHORT)?);
    }
    Ok(())
}

// Bodies with conditions that are alike in all turns, in every second or third one, or not known, and some without.
const CASES: [&str; 14] = [
    "A[i] = A[i + 1] + B[i];",
    "A[i + 1] = A[i]; B[i + 2] = A[i + 3];",
    "A[i + 3] = A[i]; A[i] = A[i + 3];",
    "A[i + 2] = B[i]; B[i + 1] = A[i]; A[i] = A[i + 2];",
    "if (i % 3 == 0) { A[i + k] = B[i]; } else { B[i + 1] = A[i + k] + 1; }",
    "if (i % 2) { A[i] = 1; } B[i] = A[i + 1];",
    "if (i % 2 == k) { A[i] = A[i + 2]; } else { A[i + 1] = B[i]; }",
    "if (A[i] < 3) { A[i] = A[i] + 1; } else { B[i] = A[i + 1]; }",
    "if (i % 3 != 1) { if (i % 2 == 0) { A[i] = 1; } B[i] = A[i]; }",
    "if (B[i] && i % 3 == 2) { A[i] = B[i]; } B[i + 1] = A[i];",
    "if (k) { A[i + 1] = 2; } B[i] = A[i + 1];",
    "B[i] = 1; if (i % 3) { A[i] = B[i]; B[i + 1] = A[i + 2]; }",
    "if ((i + k) % 3 == 1) { A[i] = 1; } if (i % 3 == 2) { A[i + 1] = A[i]; A[i] = 2; }",
    "if (i % 3 == 0) { A[i + 2] = 1; } else { if (i % 3 == 1) { B[i] = A[i + 1]; } else { A[i] = A[i + 3]; } }",
];

const EACH: [&str; 1] = ["for (uint64_t i = 0; i < 60; i += 1) {"];

const EACH_IN_PARTS: [&str; 5] = [
    "for (uint64_t i = 0; i < 12; i += 1) {",
    "for (uint64_t i = 12; i < 24; i += 1) {",
    "for (uint64_t i = 24; i < 36; i += 1) {",
    "for (uint64_t i = 36; i < 48; i += 1) {",
    "for (uint64_t i = 48; i < 60; i += 1) {",
];

const THIRDS: [&str; 1] = ["for (uint64_t i = 1; i < 61; i += 3) {"];

const THIRDS_IN_PARTS: [&str; 5] = [
    "for (uint64_t i = 1; i < 13; i += 3) {",
    "for (uint64_t i = 13; i < 25; i += 3) {",
    "for (uint64_t i = 25; i < 37; i += 3) {",
    "for (uint64_t i = 37; i < 49; i += 3) {",
    "for (uint64_t i = 49; i < 61; i += 3) {",
];

#[test]
fn conditions_are_alike_after_some_turns(rt: HostRuntime) -> Result<(), Fail> {
    for body in CASES {
        assert!(rt; are_alike(rt.alloc(), body, &EACH, &EACH_IN_PARTS)?);
    }
    Ok(())
}

#[test]
fn steps_need_not_be_of_one(rt: HostRuntime) -> Result<(), Fail> {
    for body in CASES {
        assert!(rt; are_alike(rt.alloc(), body, &THIRDS, &THIRDS_IN_PARTS)?);
    }
    Ok(())
}

// Bodies whose cells move on by several with the loop's name: as many for each array, more for one access than for another,
// up to the last cell, and by a product that wraps.
const STRIDES: [&str; 15] = [
    "A[3 * i + 2] = B[i + 1] + A[3 * i];",
    "A[3 * i] = A[3 * i + 3]; A[i * 3 + 6] = 1;",
    "A[(i + 1) * 3] = A[3 * i] + B[i]; B[63 - 3 * k] = A[2];",
    "A[2 * i + i] = B[2 * i]; B[(i + k) * 2 + 1] = A[3 * i + 1];",
    "A[2 * i] = A[3 * i]; B[i] = A[2 * i + 1];",
    "A[i * (2 + k)] = A[(2 + k) * i + k];",
    "A[3 * (i + 1) - i] = A[2 * i + 1] + B[3 * i - 2 * i];",
    "A[i * 6148914691236517206 * 3] = B[i]; B[2 * i] = A[2 * i];",
    "A[6148914691236517206 * (3 * i) + 3] = A[2 * i + 1] + B[3 * i];",
    "A[3 * i] = B[3 * i]; A[3 * i + 3] = B[3 * i + 1]; B[3 * i + 4] = A[3 * i];",
    "A[2 * i + 4] = A[2 * i]; A[2 * i + 1] = A[2 * i + 4];",
    "A[7] = A[7] + B[3 * i]; B[3 * i + 1] = A[2 * i];",
    "if (B[2 * i] < 3) { A[3 * i] = 1; } else { B[2 * i + 1] = A[3 * i + 3]; }",
    "if (k) { A[3 * i + 3] = 2; } B[2 * i + 1] = A[3 * i];",
    "if (A[i]) { A[2 * i] = 2; } A[2 * i + 2] = A[i + 1];",
];

const STRIDED: [&str; 1] = ["for (uint64_t i = 0; i < 20; i += 1) {"];

const STRIDED_IN_PARTS: [&str; 4] = [
    "for (uint64_t i = 0; i < 5; i += 1) {",
    "for (uint64_t i = 5; i < 10; i += 1) {",
    "for (uint64_t i = 10; i < 15; i += 1) {",
    "for (uint64_t i = 15; i < 20; i += 1) {",
];

const ODD: [&str; 1] = ["for (uint64_t i = 1; i < 20; i += 2) {"];

const ODD_IN_PARTS: [&str; 3] = [
    "for (uint64_t i = 1; i < 7; i += 2) {",
    "for (uint64_t i = 7; i < 13; i += 2) {",
    "for (uint64_t i = 13; i < 20; i += 2) {",
];

#[test]
fn cells_move_on_by_several(rt: HostRuntime) -> Result<(), Fail> {
    for body in STRIDES {
        assert!(rt; are_alike(rt.alloc(), body, &STRIDED, &STRIDED_IN_PARTS)?);
        assert!(rt; are_alike(rt.alloc(), body, &ODD, &ODD_IN_PARTS)?);
    }
    Ok(())
}

const HALVES: [&str; 1] = ["for (uint64_t i = 0; i < 32; i += 1) {"];

const HALVES_IN_PARTS: [&str; 4] = [
    "for (uint64_t i = 0; i < 8; i += 1) {",
    "for (uint64_t i = 8; i < 16; i += 1) {",
    "for (uint64_t i = 16; i < 24; i += 1) {",
    "for (uint64_t i = 24; i < 32; i += 1) {",
];

#[test]
fn conditions_are_alike_where_cells_move_on_by_two(rt: HostRuntime) -> Result<(), Fail> {
    let body = "if (i % 2) { A[2 * i] = 1; } else { B[i] = A[2 * i + 1]; }";
    assert!(rt; are_alike(rt.alloc(), body, &HALVES, &HALVES_IN_PARTS)?);
    Ok(())
}

fn has_footprints(alloc: Global, outlined: &Outlined<'_>) -> Result<bool, Fail> {
    let repeated = repeats(alloc, outlined)?;
    Ok(footprints_of(alloc, outlined, &repeated).is_ok())
}

// Whether no subscript of the strided loop, in which this is the body, can leave its array.
fn stays(alloc: Global, body: &str) -> Result<bool, Fail> {
    let text = source(alloc, body, &STRIDED)?;
    let program = read_program(alloc, &text)?;
    let outlined = outline(alloc, &program)?;
    has_footprints(alloc, &outlined)
}

#[test]
fn last_cell_is_the_last_of_its_array(rt: HostRuntime) -> Result<(), Fail> {
    assert!(rt; stays(rt.alloc(), "A[3 * i + 6] = 1;")?);
    assert!(rt; !stays(rt.alloc(), "A[3 * i + 7] = 1;")?);
    Ok(())
}

const EACH_FROM_THE_LAST: &str = "\
uint64_t A[65536];
int main(void) {
for (uint64_t i = 1; i < 65536; i += 1) { A[i] = A[i - 1]; }
}
";

// Whether the set has these cells of the array and no others.
fn is_run(set: &CellSet, first: u64, end: u64) -> bool {
    for index in 0..65536 {
        let cell = Cell {
            array: ArrayId(0),
            index,
        };
        if set.contains(cell) != (first <= index && index < end) {
            return false;
        }
    }
    true
}

fn is_known(found: &Option<Footprint>) -> bool {
    match found {
        None => false,
        Some(footprint) => {
            is_run(&footprint.exposed, 0, 1)
                && is_run(&footprint.read, 0, 65535)
                && is_run(&footprint.write, 1, 65536)
                && is_run(&footprint.sure, 1, 65536)
        }
    }
}

fn first_is_known(alloc: Global, outlined: &Outlined<'_>) -> Result<bool, Fail> {
    let found = footprints_of(alloc, outlined, &repeats(alloc, outlined)?)?;
    Ok(found.len() > 0 && is_known(found.get(0)))
}

#[test]
fn one_cell_is_exposed(rt: HostRuntime) -> Result<(), Fail> {
    let program = read_program(rt.alloc(), EACH_FROM_THE_LAST.as_bytes())?;
    let outlined = outline(rt.alloc(), &program)?;
    assert!(rt; first_is_known(rt.alloc(), &outlined)?);
    Ok(())
}

const PARTS: [(Part, u64, u64); 4] = [
    (Part::Exposed, 0, 1),
    (Part::Read, 0, 65535),
    (Part::Write, 1, 65535),
    (Part::Sure, 1, 65535),
];

// Whether each part is one run of the array.
fn are_known_runs(alloc: Global, found: &Option<Footprint>) -> Result<bool, AllocError> {
    let Some(footprint) = found else {
        return Ok(false);
    };
    for (part, first, length) in PARTS {
        let run = Run {
            array: ArrayId(0),
            first,
            length,
        };
        if footprint.runs(alloc, part)?[..] != [run] {
            return Ok(false);
        }
    }
    Ok(true)
}

fn runs_are_known(alloc: Global, outlined: &Outlined<'_>) -> Result<bool, Fail> {
    let found = footprints_of(alloc, outlined, &repeats(alloc, outlined)?)?;
    Ok(found.len() > 0 && are_known_runs(alloc, found.get(0))?)
}

#[test]
fn one_run_is_read(rt: HostRuntime) -> Result<(), Fail> {
    let program = read_program(rt.alloc(), EACH_FROM_THE_LAST.as_bytes())?;
    let outlined = outline(rt.alloc(), &program)?;
    assert!(rt; runs_are_known(rt.alloc(), &outlined)?);
    Ok(())
}
