// The texts of faults that name no cell, and of commands that cannot be done.

ghost use Rattle.std.specs.Prelude.{◌≡◌, OnOk};
ghost use Rattle.std.specs.Io.KnownBytes.{Appends};
ghost use Rattle.report.specs.Faults.{code_line, fault_line, misuse_line, no_change_line, outline_line, read_line, run_line};

use base::fault::{CheckFault, OutlineFault, ReadFault, RunFault, SourceFault};
use std::io;
use std::io::Write;

/// Why a command cannot be done as it was given.
#[derive(Clone, Copy)]
pub enum Misuse<'a> {
    /// The choices are no list of numbers.
    Choices,
    /// The order of turns is no list of numbers.
    Turns,
    /// There is no such format.
    Format,
    /// The source of this name cannot be read.
    Source(&'a str),
    /// The input is no list of numbers.
    Input,
}

fn read_text<W: Write>(fault: ReadFault, out: &mut W) -> io::Result<()>
    ensures { OnOk result (Appends (W.contents out.old) (W.contents out.new) (read_line fault)) }
{
    match fault {
        ReadFault::Text(f) => {
            writeln!(
                out,
                "{} line {} column {}",
                f.code.as_str(),
                f.line,
                f.column
            )
        }
        ReadFault::OutOfMemory => writeln!(out, "F1"),
    }
}

fn outline_text<W: Write>(fault: OutlineFault, out: &mut W) -> io::Result<()>
    ensures { OnOk result (Appends (W.contents out.old) (W.contents out.new) (outline_line fault)) }
{
    match fault {
        OutlineFault::TooManyItems => writeln!(out, "E401"),
        OutlineFault::OutOfMemory => writeln!(out, "F1"),
    }
}

fn code_text<W: Write>(fault: CheckFault, out: &mut W) -> io::Result<()>
    ensures { OnOk result (Appends (W.contents out.old) (W.contents out.new) (code_line fault)) }
{
    match fault {
        CheckFault::Range { item: _, fault } => writeln!(out, "{}", fault.code.as_str()),
        CheckFault::Order(_) => writeln!(out, "E505"),
        CheckFault::Refused(refusal) => writeln!(out, "{}", refusal.code.as_str()),
        CheckFault::OutOfMemory => writeln!(out, "F1"),
    }
}

fn run_text<W: Write>(fault: RunFault, out: &mut W) -> io::Result<()>
    ensures { OnOk result (Appends (W.contents out.old) (W.contents out.new) (run_line fault)) }
{
    match fault {
        RunFault::OutOfMemory => writeln!(out, "F1"),
        RunFault::DeviceFull => writeln!(out, "F2"),
        RunFault::Stranger => writeln!(out, "F3"),
        RunFault::Absent => writeln!(out, "F4"),
        RunFault::ThreadNotStarted => writeln!(out, "F5"),
        RunFault::OtherState => writeln!(out, "F6"),
        RunFault::RangeRefused => writeln!(out, "F7"),
    }
}

/// Writes why a source has no answer, in one line, without want of memory: the code, and of a text the place. Of what
/// the check refuses this is the code alone; `refusal_text` writes its whole line. An error of the writer is answered.
pub fn fault_text<W: Write>(fault: SourceFault, out: &mut W) -> io::Result<()>
    ensures { OnOk result (Appends (W.contents out.old) (W.contents out.new) (fault_line fault)) }
{
    match fault {
        SourceFault::Read(fault) => read_text(fault, out),
        SourceFault::Outline(fault) => outline_text(fault, out),
        SourceFault::Check(fault) => code_text(fault, out),
        SourceFault::Run(fault) => run_text(fault, out),
    }
}

/// Writes why a command cannot be done as it was given, in one line. An error of the writer is answered.
pub fn misuse_text<W: Write>(misuse: Misuse<'_>, out: &mut W) -> io::Result<()>
    ensures { OnOk result (Appends (W.contents out.old) (W.contents out.new) (misuse_line misuse.entry)) }
{
    match misuse {
        Misuse::Choices => writeln!(out, "bad choices"),
        Misuse::Turns => writeln!(out, "bad turns"),
        Misuse::Format => writeln!(out, "bad format"),
        Misuse::Source(name) => writeln!(out, "cannot read {name}"),
        Misuse::Input => writeln!(out, "bad input"),
    }
}

/// Writes, in one line, that no change of a source was found, and how much was tried. An error of the writer is answered.
pub fn no_change_text<W: Write>(steps: usize, checks: usize, out: &mut W) -> io::Result<()>
    ensures { OnOk result (Appends (W.contents out.old) (W.contents out.new) (no_change_line steps checks)) }
{
    writeln!(out, "no change found: steps {steps}, checks {checks}")
}
