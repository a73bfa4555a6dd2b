// What is written of an accepted program.

ghost use Rattle.std.specs.Prelude.{◌≡◌, flat_map, IfOk, OnOk, string_bytes};
ghost use Rattle.std.specs.Io.KnownBytes.{Appends};
ghost use Rattle.report.specs.Checked.{accepted_bytes, current_line};

use crate::listing::name_of;
use base::tree::{ArrayId, Program};
use std::alloc::{AllocError, Global};
use std::io;
use std::io::Write;

fn current_line(alloc: Global, program: &Program, array: ArrayId) -> Result<String, AllocError>
    ensures { IfOk result (λ text. string_bytes text ≡ current_line program.now array) }
{
    format!(in alloc; "current {}\n", name_of(program, array))
}

// The lines of the arrays.
fn current_lines(alloc: Global, program: &Program, arrays: &[ArrayId]) -> Result<String, AllocError>
    ensures { IfOk result (λ text. string_bytes text ≡ flat_map (current_line program.now) arrays.now) }
{
    let mut text = String::new(alloc);
    'arrays: for array in arrays {
        text.push_str(&current_line(alloc, program, *array)?)?;
    }
    Ok(text)
}

fn accepted_lines(
    alloc: Global,
    program: &Program,
    arrays: &[ArrayId],
) -> Result<String, AllocError>
    ensures { IfOk result (λ text. string_bytes text ≡ accepted_bytes program.now arrays.now) }
{
    let lines = current_lines(alloc, program, arrays)?;
    format!(in alloc; "accepted\n{}", lines)
}

/// Writes that a program is accepted, and a line for each array that is marked current. An error of the writer is
/// answered; so is want of memory, as an error of that kind, and then nothing is written.
pub fn accepted_text<W: Write>(
    alloc: Global,
    program: &Program,
    arrays: &[ArrayId],
    out: &mut W,
) -> io::Result<()>
    ensures { OnOk result (Appends (W.contents out.old) (W.contents out.new) (accepted_bytes program.now arrays.now)) }
{
    let lines = accepted_lines(alloc, program, arrays)?;
    out.write_all(lines.as_bytes())
}
