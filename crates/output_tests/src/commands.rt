//! Commands whose output cannot be written, or whose input has no end.

use driver::{SourceError, Sources, drive};
use std::alloc::Global;
use std::io;
use std::io::{Read, Write};
use std::sync::Wait;
use std::thread::Threads;

const PRINTS: &str = "int main(void) { print(1); print(2); print(3); }";

// Its mend has four bytes more, and is 95 long.
const FORGETS: &str = "\
uint64_t A[4];
int main(void) {
#pragma omp target map(to: A)
{ A[0] = 1; }
print(A[0]);
}
";

// Commands, the source, how many bytes they print, and their status.
const COMMANDS: [(&str, &str, usize, u8); 5] = [
    ("step", PRINTS, 25, 0),
    ("run", PRINTS, 6, 0),
    ("check", PRINTS, 9, 0),
    ("list", PRINTS, 7, 0),
    ("fix", FORGETS, 95, 0),
];

/// One source, whatever its name.
#[derive(Drop)]
struct One<'a> {
    alloc: Global,
    text: &'a str,
}

impl Sources for One<'_> {
    fn source(&mut self, _name: &str) -> Result<Vec<u8>, SourceError> {
        Vec::from_slice(self.alloc, self.text.as_bytes()).map_err(|_| SourceError::OutOfMemory)
    }
}

/// A writer with room for some bytes.
#[derive(Drop)]
struct Narrow {
    room: usize,
}

impl Write for Narrow {
    fn write(&mut self, buf: &[u8]) -> io::Result<usize> {
        if self.room == 0 {
            return Err(io::Error::from(io::ErrorKind::StorageFull));
        }
        let n = buf.len().min(self.room);
        self.room -= n;
        Ok(n)
    }

    fn flush(&mut self) -> io::Result<()> {
        Ok(())
    }
}

/// A reader of ones that has no end.
#[derive(Drop)]
struct Endless;

impl Read for Endless {
    fn read(&mut self, buf: &mut [u8]) -> io::Result<usize> {
        buf.fill(b'1');
        Ok(buf.len())
    }
}

// The status of a command on a source whose output has room for so many bytes.
fn status_of<R: Threads + Wait + Sync>(
    rt: &R,
    alloc: Global,
    command: &str,
    text: &str,
    room: usize,
) -> u8 {
    let mut input: &[u8] = &[];
    let mut err = Vec::new(alloc);
    drive(
        rt,
        alloc,
        false,
        &[command, "a.c"],
        &mut One { alloc, text },
        &mut input,
        &mut Narrow { room },
        &mut err,
    )
}

#[test]
fn output_that_cannot_be_written_is_a_fault(rt: HostRuntime) {
    for (command, text, length, done) in COMMANDS {
        for room in 0..=length {
            let status = status_of(&rt, rt.alloc(), command, text, room);
            let wanted = if room < length { 3 } else { done };
            assert_eq!(rt; status, wanted, "{command} {room}");
        }
    }
}

#[test]
fn an_input_without_an_end_is_bad(rt: HostRuntime) {
    let alloc = rt.alloc();
    let mut out = Vec::new(alloc);
    let mut err = Vec::new(alloc);
    let status = drive(
        &rt,
        alloc,
        false,
        &["run", "a.c"],
        &mut One {
            alloc,
            text: PRINTS,
        },
        &mut Endless,
        &mut out,
        &mut err,
    );
    assert_eq!(rt; status, 2);
    assert_eq!(rt; err.as_slice(), b"bad input\n".as_slice());
}
