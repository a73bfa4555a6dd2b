//! Does the commands of the transcripts in `commands` again, and compares what they print with what the transcripts say.
//!
//! A transcript has lines that begin with `$ ompc`, each a command as a shell takes it: its words, and behind ` < ` the
//! file of its standard input. Below it stands what the command prints, a line of standard error behind `! `, and the
//! status in brackets where it is not 0. Empty lines and those that begin with `#` and a blank are remarks; a directive
//! that a command prints is none.

use crate::tally::Tally;
use crate::text::Text;
use driver::{SourceError, Sources, drive};
use std::alloc::{Alloc, AllocError, Global};
use std::fs::Files;
use std::io::Write;
use std::sync::Wait;
use std::thread::Threads;
use std::{fs, io};

fn path_of(alloc: Global, name: &str) -> Result<String, AllocError> {
    format!(in alloc; "commands/{name}")
}

/// The files in the folder of the transcripts.
#[derive(Drop)]
struct Folder<'a, R: Files> {
    rt: &'a R,
}

impl<R: Files + Alloc<A = Global>> Sources for Folder<'_, R> {
    fn source(&mut self, name: &str) -> Result<Vec<u8>, SourceError> {
        let Ok(path) = path_of(self.rt.alloc(), name) else {
            return Err(SourceError::OutOfMemory);
        };
        fs::read(self.rt, &path).map_err(|_| SourceError::Unreadable)
    }
}

// Adds each line of a text, with something before it. Where the last line has no end, it gets one.
fn add_lines(told: &mut Text, before: &str, text: &[u8]) {
    let mut begins = true;
    for byte in text {
        if begins {
            told.add(before);
        }
        told.add_bytes(&[*byte]);
        begins = *byte == b'\n';
    }
    if !begins {
        told.add("\n");
    }
}

// What a command wrote, and its status.
fn add_outcome(told: &mut Text, out: &[u8], err: &[u8], status: u8) {
    add_lines(told, "", out);
    add_lines(told, "! ", err);
    if status != 0 {
        told.add("[");
        told.add_shown(status);
        told.add("]\n");
    }
}

// Runs a command on an input, and adds what it prints and its status.
fn tell_outcome<R: Threads + Wait + Sync + Files + Alloc<A = Global>>(
    rt: &R,
    words: &[&str],
    input: &[u8],
    told: &mut Text,
) {
    let alloc = rt.alloc();
    let mut reader = input;
    let mut out = Vec::new(alloc);
    let mut err = Vec::new(alloc);
    let status = drive(
        rt,
        alloc,
        false,
        words,
        &mut Folder { rt },
        &mut reader,
        &mut out,
        &mut err,
    );
    add_outcome(told, &out, &err, status);
}

// Runs the command of a line.
fn tell_command<R: Threads + Wait + Sync + Files + Alloc<A = Global>>(
    rt: &R,
    line: &str,
    told: &mut Text,
) -> io::Result<()> {
    let alloc = rt.alloc();
    let (command, input) = match line.split_once(" < ") {
        Some((command, name)) => (command, fs::read(rt, &path_of(alloc, name)?)?),
        None => (line, Vec::new(alloc)),
    };
    let words: Vec<&str> = command.split(' ').skip(2).collect(alloc)?;
    tell_outcome(rt, &words, &input, told);
    Ok(())
}

// A line of a transcript, and where it is a command, what that prints now. What it printed is left out.
fn tell_line<R: Threads + Wait + Sync + Files + Alloc<A = Global>>(
    rt: &R,
    line: &str,
    told: &mut Text,
) -> io::Result<()> {
    if line.starts_with("$ ompc") {
        told.add_line(line);
        return tell_command(rt, line, told);
    }
    if line.is_empty() || line.starts_with("# ") {
        told.add_line(line);
    }
    Ok(())
}

// The transcript, with what its commands print now.
fn told_again<R: Threads + Wait + Sync + Files + Alloc<A = Global>>(
    rt: &R,
    transcript: &str,
) -> io::Result<Vec<u8>> {
    let mut told = Text::new(rt.alloc());
    for line in transcript.lines() {
        tell_line(rt, line, &mut told)?;
    }
    Ok(told.end()?)
}

fn compare_transcript<R: Threads + Wait + Sync + Files + Alloc<A = Global>>(
    rt: &R,
    tally: &mut Tally,
    name: &str,
) -> io::Result<()> {
    let transcript = fs::read_to_string(rt, &path_of(rt.alloc(), name)?)?;
    tally.compare(
        name,
        "",
        &told_again(rt, &transcript)?,
        transcript.as_bytes(),
    );
    Ok(())
}

fn compare_transcripts<R: Threads + Wait + Sync + Files + Alloc<A = Global> + Clone>(
    rt: &R,
) -> io::Result<Tally> {
    let mut tally = Tally::new(rt.alloc());
    for entry in fs::read_dir(rt, "commands")? {
        let entry = entry?;
        if entry.file_name().ends_with(".t") {
            compare_transcript(rt, &mut tally, entry.file_name())?;
        }
    }
    Ok(tally)
}

/// Compares all transcripts of the folder, and answers whether all are as wanted.
pub(crate) fn compare<R: Threads + Wait + Sync + Files + Alloc<A = Global> + Clone, W: Write>(
    rt: &R,
    out: &mut W,
) -> io::Result<bool> {
    compare_transcripts(rt)?.tell("transcripts", out)
}
