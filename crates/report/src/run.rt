// What is written of a run.

ghost use Rattle.std.specs.Prelude.{◌≡◌, flat_map, IfOk, OnOk, codes, string_bytes};
ghost use Rattle.std.specs.Io.KnownBytes.{Appends};
ghost use Rattle.report.specs.Runs.{event_line, final_line, finals_bytes, log_bytes, spaced};

use crate::listing::name_of;
use base::item::Event;
use base::tree::{ArrayId, Program};
use std::io;
use std::io::Write;

fn event_text<W: Write>(event: Event, out: &mut W) -> io::Result<()>
    ensures { OnOk result (Appends (W.contents out.old) (W.contents out.new) (event_line event)) }
{
    match event {
        Event::Gen(item) => writeln!(out, "gen {item}"),
        Event::Open(item) => writeln!(out, "open {item}"),
        Event::Step(item) => writeln!(out, "step {item}"),
        Event::Close(item) => writeln!(out, "close {item}"),
        Event::Wait(item) => writeln!(out, "wait {item}"),
        Event::End => writeln!(out, "end"),
    }
}

/// Writes the events of a run, a line each. An error of the writer is answered, and ends the text.
#[tactic(auto, using(crate::proofs::Pieces::wrote_next, crate::proofs::Pieces::wrote_all))]
pub fn log_text<W: Write>(history: &[Event], out: &mut W) -> io::Result<()>
    ensures { OnOk result (Appends (W.contents out.old) (W.contents out.new) (log_bytes history.now)) }
{
    'events: for event in history {
        event_text(*event, out)?;
    }
    Ok(())
}

// Each number behind a space.
#[tactic(auto, using(crate::proofs::Pieces::wrote_next, crate::proofs::Pieces::wrote_all))]
fn numbers_text<W: Write>(numbers: &[u64], out: &mut W) -> io::Result<()>
    ensures { OnOk result (Appends (W.contents out.old) (W.contents out.new) (flat_map spaced numbers.now)) }
{
    'numbers: for number in numbers {
        write!(out, " {number}")?;
    }
    Ok(())
}

fn final_text<W: Write>(
    program: &Program,
    array: ArrayId,
    numbers: &Vec<u64>,
    out: &mut W,
) -> io::Result<()>
    ensures { OnOk result (Appends (W.contents out.old) (W.contents out.new) (final_line program.now (array, numbers.now))) }
{
    write!(out, "{}:", name_of(program, array))?;
    numbers_text(numbers, out)?;
    writeln!(out)
}

/// Writes the values of arrays, a line each: the array's name, a colon and its numbers. An error of the writer is
/// answered, and ends the text.
#[tactic(auto, using(crate::proofs::Pieces::wrote_next, crate::proofs::Pieces::wrote_all))]
pub fn finals_text<W: Write>(
    program: &Program,
    finals: &[(ArrayId, Vec<u64>)],
    out: &mut W,
) -> io::Result<()>
    ensures { OnOk result (Appends (W.contents out.old) (W.contents out.new) (finals_bytes program.now finals.now)) }
{
    'arrays: for (array, numbers) in finals {
        final_text(program, *array, numbers, out)?;
    }
    Ok(())
}
