//! The program `ompc`.
#![tactic(auto)]

use c_tokens::limits::MAX_SOURCE;
use driver::{SourceError, Sources, drive};
use std::alloc::Global;
use std::env::VarError;
use std::fs::File;
use std::io;
use std::io::{BufWriter, IsTerminal, Read, Write};
use std::process::ExitCode;

/// The files of the machine.
#[derive(Drop)]
struct Disk<'a> {
    rt: &'a HostRuntime,
}

/// So many bytes are read at once.
const PART: usize = 65_536;

/// The bytes of a file; of one that is longer than a source may be, one byte too many and no more.
fn read_source(rt: &HostRuntime, name: &str) -> io::Result<Vec<u8>> {
    let mut file = File::open(rt, name)?;
    let mut bytes = Vec::new(rt.alloc());
    let mut part = Vec::from_elem(rt.alloc(), 0u8, PART)?;
    for _ in 0..=MAX_SOURCE {
        let left = MAX_SOURCE.saturating_add(1).saturating_sub(bytes.len());
        let room = left.min(part.len());
        let count = file.read(&mut part[..room])?;
        if count == 0 {
            return Ok(bytes);
        }
        bytes.extend_from_slice(part.get(..count).unwrap_or(&[]))?;
    }
    Ok(bytes)
}

impl Sources for Disk<'_> {
    fn source(&mut self, name: &str) -> Result<Vec<u8>, SourceError> {
        read_source(self.rt, name).map_err(|error| match error.kind() {
            io::ErrorKind::OutOfMemory => SourceError::OutOfMemory,
            _ => SourceError::Unreadable,
        })
    }
}

/// Memory ran out before the command was known, or the output cannot be written.
const FAILED: u8 = 3;

/// The words of the command line cannot be read.
const MISUSED: u8 = 2;

/// How many numbers the largest block has that the C library (glibc) manages itself: 32 MiB less a page or two.
const LARGEST: usize = (1 << 22) - 1024;

/// Has the C library keep freed memory for the next frames. Once so large a block was freed, it asks the system for no
/// block of that size or less by itself, and gives none back: else each kernel would have all pages of its frame made anew,
/// which takes several times what filling them takes. The block is never written, so it has no pages.
fn keep_freed_memory(alloc: Global) {
    let _ = Vec::<u64>::with_capacity(alloc, LARGEST);
}

/// The words behind the program's name.
fn words_of(rt: &HostRuntime) -> io::Result<Vec<String>> {
    let words = std::env::args(rt)?.skip(1).collect(rt.alloc())?;
    Ok(words)
}

fn texts(alloc: Global, words: &[String]) -> io::Result<Vec<&str>> {
    let texts = words.iter().map(|word| word.as_str()).collect(alloc)?;
    Ok(texts)
}

/// The status of a command that could not begin, with its text.
fn no_words<E: Write>(error: &io::Error, err: &mut E) -> u8 {
    match error.kind() {
        io::ErrorKind::OutOfMemory => {
            let _ = writeln!(err, "F1");
            FAILED
        }
        _ => {
            let _ = writeln!(err, "an argument is not UTF-8");
            MISUSED
        }
    }
}

/// A writer, and whether it failed.
#[derive(Drop)]
struct Noted<W> {
    out: W,
    failed: bool,
}

impl<W> Noted<W> {
    fn note<T>(&mut self, done: &io::Result<T>) {
        if let Err(error) = done {
            self.failed = self.failed || error.kind() != io::ErrorKind::Interrupted;
        }
    }
}

impl<W: Write> Write for Noted<W> {
    fn write(&mut self, buf: &[u8]) -> io::Result<usize> {
        let done = self.out.write(buf);
        self.note(&done);
        done
    }

    fn flush(&mut self) -> io::Result<()> {
        let done = self.out.flush();
        self.note(&done);
        done
    }
}

/// The status of a command, once all that it printed is written.
fn flushed<W: Write, E: Write>(status: u8, out: &mut Noted<W>, err: &mut E) -> u8 {
    let _ = out.flush();
    if out.failed {
        let _ = writeln!(err, "cannot write standard output");
        return FAILED;
    }
    status
}

/// Whether what is printed is shown by a terminal, and colours are not forbidden there (https://no-color.org).
fn has_colours(rt: &HostRuntime) -> bool {
    rt.stdout().is_terminal() && matches!(std::env::var(rt, "NO_COLOR"), Err(VarError::NotPresent))
}

fn main(rt: HostRuntime) -> ExitCode {
    keep_freed_memory(rt.alloc());
    let words = match words_of(&rt) {
        Ok(words) => words,
        Err(error) => return ExitCode::from(no_words(&error, &mut rt.stderr())),
    };
    let words = match texts(rt.alloc(), &words) {
        Ok(words) => words,
        Err(error) => return ExitCode::from(no_words(&error, &mut rt.stderr())),
    };
    let out = match BufWriter::new(rt.alloc(), io::writer(&rt)) {
        Ok(out) => out,
        Err(error) => return ExitCode::from(no_words(&error, &mut rt.stderr())),
    };
    let mut out = Noted { out, failed: false };
    let status = drive(
        &rt,
        rt.alloc(),
        has_colours(&rt),
        words.as_slice(),
        &mut Disk { rt: &rt },
        &mut rt.reader(),
        &mut out,
        &mut rt.stderr(),
    );
    ExitCode::from(flushed(status, &mut out, &mut rt.stderr()))
}
