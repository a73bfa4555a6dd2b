//! Why a command does not do what was asked, its status, and its line.

ghost use Rattle.std.specs.Prelude.{◌≡◌, ◌≤◌, OnOk};
ghost use Rattle.std.specs.Io.KnownBytes.{Appends};
ghost use Rattle.driver.specs.Statuses.{ending_of, source_status, status_of, told_of};

use base::fault::{CheckFault, OutlineFault, ReadFault, RunFault, SourceFault};
use report::{Misuse, fault_text, misuse_text};
use std::io;
use std::io::Write;

/// The command did what was asked.
pub(crate) const DONE: u8 = 0;

/// The program is refused.
const REFUSED: u8 = 1;

/// The command cannot be done as it was given.
pub(crate) const MISUSED: u8 = 2;

/// The run stopped before its end, or memory ran out.
pub(crate) const FAILED: u8 = 3;

/// Why a command of well-formed words prints nothing to standard output.
#[derive(Clone, Copy)]
pub(crate) enum Ending<'a> {
    BadChoices,
    BadTurns,
    BadFormat,
    BadColor,
    /// What the directives did on the tables is asked for where each action on a table is an event.
    BadMaps,
    Unreadable(&'a str),
    Source(SourceFault),
    /// The program is refused, and what says why is written.
    Refused,
    BadInput,
    OutOfMemory,
}

impl Ending<'_> {
    ghost use Rattle.std.specs.Prelude.{◌≡◌, ◌≤◌, OnOk};
    ghost use Rattle.std.specs.Io.KnownBytes.{Appends};
    ghost use Rattle.driver.specs.Statuses.{ending_line, status_of};

    pub(crate) fn status(&self) -> u8
        ensures within { (1 ≤ result) × (result ≤ 3) }
        ensures status { result ≡ status_of self.now }
    {
        match self {
            Ending::BadChoices
            | Ending::BadTurns
            | Ending::BadFormat
            | Ending::BadColor
            | Ending::BadMaps
            | Ending::Unreadable(_)
            | Ending::BadInput => MISUSED,
            Ending::Source(fault) => status_of(*fault),
            Ending::Refused => REFUSED,
            Ending::OutOfMemory => FAILED,
        }
    }

    pub(crate) fn write<E: Write>(&self, err: &mut E) -> io::Result<()>
        ensures { OnOk result (Appends (E.contents err.old) (E.contents err.new) (ending_line self.now)) }
    {
        match self {
            Ending::BadChoices => misuse_text(Misuse::Choices, err),
            Ending::BadTurns => misuse_text(Misuse::Turns, err),
            Ending::BadFormat => misuse_text(Misuse::Format, err),
            Ending::BadColor => writeln!(err, "bad color"),
            Ending::BadMaps => writeln!(err, "no maps with --fine"),
            Ending::Unreadable(name) => misuse_text(Misuse::Source(name), err),
            Ending::Source(fault) => fault_text(*fault, err),
            Ending::Refused => Ok(()),
            Ending::BadInput => misuse_text(Misuse::Input, err),
            Ending::OutOfMemory => fault_text(SourceFault::Run(RunFault::OutOfMemory), err),
        }
    }
}

pub(crate) fn status_of(fault: SourceFault) -> u8
    ensures within { (1 ≤ result) × (result ≤ 3) }
    ensures status { result ≡ source_status fault }
{
    match fault {
        SourceFault::Read(ReadFault::OutOfMemory)
        | SourceFault::Outline(OutlineFault::OutOfMemory)
        | SourceFault::Check(CheckFault::OutOfMemory)
        | SourceFault::Run(_) => FAILED,
        SourceFault::Read(_) | SourceFault::Outline(_) | SourceFault::Check(_) => REFUSED,
    }
}

/// What a fault of a source that is checked ends with: of the checker only want of memory is still to be said.
pub(crate) fn ending_of<'a>(fault: SourceFault) -> Ending<'a>
    ensures { result ≡ ending_of fault }
{
    match fault {
        SourceFault::Check(CheckFault::OutOfMemory) => Ending::OutOfMemory,
        SourceFault::Check(_) => Ending::Refused,
        SourceFault::Read(_) | SourceFault::Outline(_) | SourceFault::Run(_) => Ending::Source(
            fault,
        ),
    }
}

/// The same where why the program is refused is printed already, wherever its fault was found.
pub(crate) fn told_of<'a>(fault: SourceFault) -> Ending<'a>
    ensures { result ≡ told_of fault }
{
    match status_of(fault) {
        REFUSED => Ending::Refused,
        _ => ending_of(fault),
    }
}
