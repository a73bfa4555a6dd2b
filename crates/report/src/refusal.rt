// The texts of refusals.

ghost use Rattle.std.specs.Prelude.{◌≡◌, IfOk, OnOk, string_bytes};
ghost use Rattle.std.specs.Io.KnownBytes.{Appends};
ghost use Rattle.report.specs.Refusals.{cell_line, cell_text, check_line, other_text, place_text, range_line};

use crate::listing::name_of;
use base::fault::{CheckFault, RangeFault};
use base::item::Cell;
use base::tree::Program;
use std::alloc::{AllocError, Global};
use std::io;
use std::io::Write;

fn cell_text(alloc: Global, program: &Program, cell: Cell) -> Result<String, AllocError>
    ensures { IfOk result (λ text. string_bytes text ≡ cell_text program.now cell) }
{
    format!(in alloc; " {}[{}]", name_of(program, cell.array), cell.index)
}

fn other_text(alloc: Global, other: Option<u32>) -> Result<String, AllocError>
    ensures { IfOk result (λ text. string_bytes text ≡ other_text other) }
{
    match other {
        None => Ok(String::new(alloc)),
        Some(item) => format!(in alloc; " with item {}", item),
    }
}

// The line of a refusal that names a cell.
fn cell_line(
    alloc: Global,
    program: &Program,
    word: &str,
    item: u32,
    cell: Cell,
    other: Option<u32>,
) -> Result<String, AllocError>
    ensures { IfOk result (λ text. string_bytes text ≡ cell_line program.now word.now item cell other) }
{
    let (at, with) = (cell_text(alloc, program, cell)?, other_text(alloc, other)?);
    format!(in alloc; "{} item {}{}{}\n", word, item, at, with)
}

fn place_text(alloc: Global, line: usize, column: usize) -> Result<String, AllocError>
    ensures { IfOk result (λ text. string_bytes text ≡ place_text line column) }
{
    format!(in alloc; " line {} column {}", line, column)
}

// The line of a fault of range.
fn range_line(alloc: Global, item: u32, fault: RangeFault) -> Result<String, AllocError>
    ensures { IfOk result (λ text. string_bytes text ≡ range_line item fault) }
{
    let place = place_text(alloc, fault.line, fault.column)?;
    format!(in alloc; "{} item {}{}\n", fault.code.as_str(), item, place)
}

fn check_line(alloc: Global, program: &Program, fault: &CheckFault) -> Result<String, AllocError>
    ensures { IfOk result (λ text. string_bytes text ≡ check_line program.now fault.now) }
{
    match fault {
        CheckFault::Range { item, fault } => range_line(alloc, *item, *fault),
        CheckFault::Order(f) => cell_line(alloc, program, "E505", f.item, f.cell, Some(f.other)),
        CheckFault::Refused(r) => {
            cell_line(alloc, program, r.code.as_str(), r.item, r.cell, r.other)
        }
        CheckFault::OutOfMemory => format!(in alloc; "F1\n"),
    }
}

/// Writes why a program is not accepted, in one line: the code, the item, and the place in the source or the cell; of
/// two items that overlap or conflict the earlier one too. An error of the writer is answered; so is want of memory, as
/// an error of that kind.
pub fn refusal_text<W: Write>(
    alloc: Global,
    program: &Program,
    fault: &CheckFault,
    out: &mut W,
) -> io::Result<()>
    ensures { OnOk result (Appends (W.contents out.old) (W.contents out.new) (check_line program.now fault.now)) }
{
    let line = check_line(alloc, program, fault)?;
    out.write_all(line.as_bytes())
}
