// A witness as text.

ghost use Rattle.std.specs.Prelude.{◌≡◌, ◌≤◌, ◌++◌, ◌∷◌, [], List, MatchOption, OnOk, codes, if◌then◌else◌, length, true, ℕ};
ghost use Rattle.std.specs.List.{prefix_len};
ghost use Rattle.std.specs.Io.KnownBytes.{Appends};
ghost use Rattle.witness.specs.Texts.{accepted_line, action_text, cell_text, comma_list, command_line, difference_bytes, difference_from, difference_line, end_bytes, is_no_feed, front_line, list_option, named, none_line, options, order_line, prefixed, run_bytes, runs_from, runs_list, runs_option, section_text, side_text, stop_line, told_line, turns_line, witness_bytes};

use crate::search::MOST_TRIES;
use crate::shell::{is_dashed, word_text};
use crate::stopped::Stopped;
use crate::trial::{Ended, Witness};
use actions::Action;
use base::item::{Answer, Cell, Section};
use base::tree::DeviceId;
use std::io;
use std::io::Write;
use stepper::Stop;

// The numbers with commas between them, and a blank before the first.
fn list_text<W: Write>(list: &[u32], out: &mut W) -> io::Result<()>
    ensures { OnOk result (Appends (W.contents out.old) (W.contents out.new) (comma_list (codes " ") list.now)) }
{
    let mut before = " ";
    'numbers: for number in list {
        write!(out, "{before}{number}")?;
        before = ",";
    }
    Ok(())
}

// A number, and how often it stands where that is more than once.
fn run_text<W: Write>(number: u32, times: usize, out: &mut W) -> io::Result<()>
    ensures { OnOk result (Appends (W.contents out.old) (W.contents out.new) (run_bytes number times)) }
{
    write!(out, "{number}")?;
    if times != 1 {
        write!(out, "*{times}")?;
    }
    Ok(())
}

fn first_of(list: &[u32]) -> Option<(u32, &[u32])>
    ensures { MatchOption result (list.now ≡ []) (λ t. list.now ≡ t.0 ∷ t.1.now) }
{
    match list {
        [] => None,
        [first, behind @ ..] => Some((*first, behind)),
    }
}

// Numbers with commas between them, of which equal ones that follow each other are written once.
fn runs_from<W: Write>(first: u32, behind: &[u32], out: &mut W) -> io::Result<()>
    ensures { OnOk result (Appends (W.contents out.old) (W.contents out.new) (runs_from first 1 behind.now)) }
{
    let (mut number, mut times) = (first, 1usize);
    let mut rest = behind;
    'numbers: while let Some((next, more)) = first_of(rest) {
        if next == number {
            times += 1;
        } else {
            run_text(number, times, out)?;
            write!(out, ",")?;
            (number, times) = (next, 1);
        }
        rest = more;
    }
    run_text(number, times, out)
}

// The same, and a blank before the first.
fn runs_text<W: Write>(list: &[u32], out: &mut W) -> io::Result<()>
    ensures { OnOk result (Appends (W.contents out.old) (W.contents out.new) (runs_list list.now)) }
{
    let Some((first, behind)) = first_of(list) else {
        return Ok(());
    };
    write!(out, " ")?;
    runs_from(first, behind, out)
}

// An option that gives such a list, behind its word and a quotation mark; nothing where the list is empty.
fn runs_option<W: Write>(word: &str, list: &[u32], out: &mut W) -> io::Result<()>
    ensures { OnOk result (Appends (W.contents out.old) (W.contents out.new) (runs_option word.now list.now)) }
{
    let Some((first, behind)) = first_of(list) else {
        return Ok(());
    };
    write!(out, "{word}")?;
    runs_from(first, behind, out)?;
    write!(out, "'")
}

// That the run by no choices differs.
fn order_line<W: Write>(choices: &[u32], turns: &[u32], out: &mut W) -> io::Result<()>
    ensures { OnOk result (Appends (W.contents out.old) (W.contents out.new) (order_line choices.now turns.now)) }
{
    match (choices, turns) {
        ([], []) => writeln!(out, "in program order"),
        _ => Ok(()),
    }
}

// How many bytes stand before the first line feed.
fn feed_at(text: &[u8]) -> usize
    ensures value { result ≡ prefix_len is_no_feed text.now }
    ensures within { result ≤ length text.now }
{
    text.iter().take_while(|b| **b != b'\n').count()
}

// The line at the front.
fn line_text<W: Write>(text: &[u8], out: &mut W) -> io::Result<()>
    ensures { OnOk result (Appends (W.contents out.old) (W.contents out.new) (front_line text.now)) }
{
    if text.is_empty() {
        return out.write_all(b"nothing".as_slice());
    }
    let (line, _) = text.split_at(feed_at(text));
    out.write_all(line)
}

// The lines at the front of both, of this number.
fn difference_text<W: Write>(line: usize, own: &[u8], other: &[u8], out: &mut W) -> io::Result<()>
    ensures { OnOk result (Appends (W.contents out.old) (W.contents out.new) (difference_bytes line own.now other.now)) }
{
    write!(out, "first difference line {line}: ")?;
    line_text(own, out)?;
    write!(out, ", erased ")?;
    line_text(other, out)?;
    writeln!(out)
}

// The byte that both begin with, and what follows it in each; nothing where they begin with no such byte.
fn both_next<'l, 'r>(left: &'l [u8], right: &'r [u8]) -> Option<(u8, &'l [u8], &'r [u8])>
    ensures { MatchOption result ((n : ℕ) (own other : List ℕ) → difference_from n own other left.now right.now ≡ difference_bytes n own other) (λ t. (left.now ≡ t.0 ∷ t.1.now) × (right.now ≡ t.0 ∷ t.2.now)) }
{
    match left {
        [] => None,
        [a, more @ ..] => match right {
            [] => None,
            [b, others @ ..] => {
                if *a == *b {
                    Some((*a, more, others))
                } else {
                    None
                }
            }
        },
    }
}

// The first lines that differ.
fn first_difference<W: Write>(own: &[u8], other: &[u8], out: &mut W) -> io::Result<()>
    ensures { OnOk result (Appends (W.contents out.old) (W.contents out.new) (difference_from 1 own.now other.now own.now other.now)) }
{
    let (mut line, mut here, mut there) = (1usize, own, other);
    let (mut left, mut right) = (own, other);
    'bytes: while let Some((byte, more, others)) = both_next(left, right) {
        (left, right) = (more, others);
        if byte == b'\n' {
            (line, here, there) = (line + 1, more, others);
        }
    }
    difference_text(line, here, there, out)
}

fn difference_line<W: Write>(end: &Ended, plain: &[u8], out: &mut W) -> io::Result<()>
    ensures { OnOk result (Appends (W.contents out.old) (W.contents out.new) (difference_line end.now plain.now)) }
{
    match end {
        Ended::Done(answer) => first_difference(&answer.out, plain, out),
        Ended::Absent => Ok(()),
    }
}

// A byte, with a word before it where a line begins.
fn byte_text<W: Write>(word: &[u8], begins: bool, byte: u8, out: &mut W) -> io::Result<()>
    ensures { OnOk result (Appends (W.contents out.old) (W.contents out.new) ((if begins then word.now else []) ++ byte ∷ [])) }
{
    if begins {
        out.write_all(word)?;
    }
    out.write_all([byte].as_slice())
}

// Each line with a word before it.
fn lines_text<W: Write>(word: &[u8], lines: &[u8], out: &mut W) -> io::Result<()>
    ensures { OnOk result (Appends (W.contents out.old) (W.contents out.new) (prefixed word.now true lines.now)) }
{
    let mut begins = true;
    'bytes: for byte in lines {
        byte_text(word, begins, *byte, out)?;
        begins = *byte == b'\n';
    }
    Ok(())
}

fn end_text<W: Write>(end: &Ended, out: &mut W) -> io::Result<()>
    ensures { OnOk result (Appends (W.contents out.old) (W.contents out.new) (end_bytes end.now)) }
{
    match end {
        Ended::Done(answer) => lines_text(b"output ".as_slice(), &answer.out, out),
        Ended::Absent => writeln!(out, "stopped F4"),
    }
}

// A word, and a cell of an array with this name.
fn cell_text<W: Write>(word: &str, array: &str, cell: &Cell, out: &mut W) -> io::Result<()>
    ensures { OnOk result (Appends (W.contents out.old) (W.contents out.new) (word.now ++ cell_text array.now cell.now)) }
{
    let index = cell.index;
    write!(out, "{word}{array}[{index}]")
}

// A word, and a section of an array with this name.
fn section_text<W: Write>(word: &str, array: &str, section: &Section, out: &mut W) -> io::Result<()>
    ensures { OnOk result (Appends (W.contents out.old) (W.contents out.new) (word.now ++ section_text array.now section.now)) }
{
    let (first, length) = (section.first, section.length);
    write!(out, "{word}{array}[{first}:{length}]")
}

// What an action does, and with what part of an array with this name.
fn action_text<W: Write>(array: &str, action: &Action, out: &mut W) -> io::Result<()>
    ensures { OnOk result (Appends (W.contents out.old) (W.contents out.new) (action_text array.now action.now)) }
{
    match action {
        Action::Load(cell) => cell_text("load of ", array, cell, out),
        Action::Store(cell, _) => cell_text("store to ", array, cell, out),
        Action::Combine(_, cell, _) => cell_text("update of ", array, cell, out),
        Action::Enter(item) => section_text("entry of ", array, &item.section, out),
        Action::Leave(item) => section_text("exit of ", array, &item.section, out),
        Action::Remove(section) => section_text("removal of ", array, section, out),
        Action::CopyIn(cell) => cell_text("copy to ", array, cell, out),
        Action::CopyOut(cell) => cell_text("copy from ", array, cell, out),
    }
}

// Where an action is done, at the end of a line.
fn side_text<W: Write>(on_host: bool, device: DeviceId, out: &mut W) -> io::Result<()>
    ensures { OnOk result (Appends (W.contents out.old) (W.contents out.new) (side_text on_host device.number)) }
{
    if on_host {
        return writeln!(out, " on the host");
    }
    let number = device.number;
    writeln!(out, " on device {number}")
}

// The line with an action on an array of this name.
fn told_line<W: Write>(array: &str, stop: &Stop, out: &mut W) -> io::Result<()>
    ensures { OnOk result (Appends (W.contents out.old) (W.contents out.new) (told_line array.now stop.now)) }
{
    let line = stop.place.line;
    write!(out, "stopped at line {line}: ")?;
    action_text(array, &stop.action, out)?;
    side_text(stop.on_host, stop.device, out)
}

// The line with the action at which a run fails; nothing where it is not told.
fn stop_line<W: Write>(stop: &Option<Stopped>, out: &mut W) -> io::Result<()>
    ensures { OnOk result (Appends (W.contents out.old) (W.contents out.new) (stop_line stop.now)) }
{
    match stop {
        None => Ok(()),
        Some(at) => told_line(&at.array, &at.stop, out),
    }
}

// An option that gives a list; nothing where that is empty.
fn list_option<W: Write>(word: &str, list: &[u32], out: &mut W) -> io::Result<()>
    ensures { OnOk result (Appends (W.contents out.old) (W.contents out.new) (list_option word.now list.now)) }
{
    if list.is_empty() {
        return Ok(());
    }
    write!(out, "{word}")?;
    list_text(list, out)
}

// The line with an order of turns; nothing where that is empty.
fn turns_line<W: Write>(turns: &[u32], out: &mut W) -> io::Result<()>
    ensures { OnOk result (Appends (W.contents out.old) (W.contents out.new) (turns_line turns.now)) }
{
    if turns.is_empty() {
        return Ok(());
    }
    write!(out, "turns")?;
    list_text(turns, out)?;
    writeln!(out)
}

fn options<W: Write>(choices: &[u32], turns: &[u32], out: &mut W) -> io::Result<()>
    ensures { OnOk result (Appends (W.contents out.old) (W.contents out.new) (options choices.now turns.now)) }
{
    runs_option(" --choice-runs '", choices, out)?;
    list_option(" --turns", turns, out)
}

// The name of a source and the options: behind them where it could be taken for one.
fn named<W: Write>(name: &[u8], choices: &[u32], turns: &[u32], out: &mut W) -> io::Result<()>
    ensures { OnOk result (Appends (W.contents out.old) (W.contents out.new) (named name.now (options choices.now turns.now))) }
{
    if is_dashed(name) {
        options(choices, turns, out)?;
        write!(out, " -- ")?;
        return word_text(name, out);
    }
    write!(out, " ")?;
    word_text(name, out)?;
    options(choices, turns, out)
}

// The command that makes a run again.
fn command_line<W: Write>(
    name: &[u8],
    choices: &[u32],
    turns: &[u32],
    out: &mut W,
) -> io::Result<()>
    ensures { OnOk result (Appends (W.contents out.old) (W.contents out.new) (command_line name.now choices.now turns.now)) }
{
    write!(out, "ompc step --fine")?;
    named(name, choices, turns, out)?;
    writeln!(out)
}

/// Writes a witness: whether it is the run in program order, the choices and the order of turns, what their run prints or
/// the action at which it fails, what the source prints without its directives, the first line that differs, and a
/// command that makes the run of the source of that name again. An error of the writer is answered, and ends the text.
pub fn witness_text<W: Write>(
    name: &str,
    witness: &Witness,
    plain: &Answer,
    out: &mut W,
) -> io::Result<()>
    ensures { OnOk result (Appends (W.contents out.old) (W.contents out.new) (witness_bytes name.now witness.now plain.now)) }
{
    order_line(&witness.choices, &witness.turns, out)?;
    write!(out, "choices")?;
    runs_text(&witness.choices, out)?;
    writeln!(out)?;
    turns_line(&witness.turns, out)?;
    end_text(&witness.end, out)?;
    stop_line(&witness.stop, out)?;
    lines_text(b"erased output ".as_slice(), &plain.out, out)?;
    difference_line(&witness.end, &plain.out, out)?;
    command_line(name.as_bytes(), &witness.choices, &witness.turns, out)
}

/// Writes, in one line, that a program is accepted, so that no run differs. An error of the writer is answered.
pub fn accepted_text<W: Write>(out: &mut W) -> io::Result<()>
    ensures { OnOk result (Appends (W.contents out.old) (W.contents out.new) accepted_line) }
{
    writeln!(out, "accepted: no schedule differs")
}

/// Writes, in one line, that no witness was found, and in how many tries. An error of the writer is answered.
pub fn none_text<W: Write>(out: &mut W) -> io::Result<()>
    ensures { OnOk result (Appends (W.contents out.old) (W.contents out.new) none_line) }
{
    writeln!(out, "no schedule found in {MOST_TRIES} tries")
}
