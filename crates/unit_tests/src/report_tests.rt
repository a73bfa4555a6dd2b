// Lines of refusals that no source of the others has, and writers that fail.

use base::fault::{CheckFault, OrderFault, Refusal, RefusalCode};
use base::item::{Cell, Event};
use base::tree::{ArrayId, Program};
use c_read::read_program;
use outline::{Outlined, outline};
use report::{list_text, log_text, refusal_text};
use std::alloc::Global;
use std::io;
use std::io::Write;
use std::test::Fail;

const SOURCE: &str = "\
uint64_t A[8];
int main(void) {
#pragma omp target enter data map(always, to: A)
#pragma omp target map(tofrom: A[0:4]) nowait depend(inout: A[0:2])
{ }
#pragma omp taskwait depend(in: A[0:2])
}
";

const LIST: &str = "\
0 enter always to A[0:8]
1 target nowait tofrom A[0:4] dep-inout A[0:2]
2 wait dep-in A[0:2]
";

/// A writer with room for some bytes, which keeps what it took.
#[derive(Drop)]
struct Narrow {
    room: usize,
    taken: Vec<u8>,
}

impl Write for Narrow {
    fn write(&mut self, buf: &[u8]) -> io::Result<usize> {
        if self.room == 0 {
            return Err(io::Error::from(io::ErrorKind::StorageFull));
        }
        let n = buf.len().min(self.room);
        self.taken.extend_from_slice(&buf[..n])?;
        self.room -= n;
        Ok(n)
    }

    fn flush(&mut self) -> io::Result<()> {
        Ok(())
    }
}

fn is_full(written: io::Result<()>) -> bool {
    matches!(written, Err(error) if error.kind() == io::ErrorKind::StorageFull)
}

// Whether the listing ends where there is no more room, and what was written till then is its beginning.
fn ends_at(alloc: Global, outlined: &Outlined<'_>, room: usize) -> bool {
    let mut out = Narrow {
        room,
        taken: Vec::new(alloc),
    };
    is_full(list_text(alloc, outlined, &mut out))
        && out.taken.len() == room
        && LIST.as_bytes().starts_with(&out.taken)
}

#[test]
fn a_failing_writer_ends_the_listing(rt: HostRuntime) -> Result<(), Fail> {
    let alloc = rt.alloc();
    let program = read_program(alloc, SOURCE.as_bytes())?;
    let outlined = outline(alloc, &program)?;
    for room in [0, 1, 24, 25, 26, 90] {
        assert!(rt; ends_at(alloc, &outlined, room), "{room}");
    }
    Ok(())
}

#[test]
fn a_failing_writer_ends_the_log(rt: HostRuntime) {
    let mut out = Narrow {
        room: 7,
        taken: Vec::new(rt.alloc()),
    };
    assert!(rt; is_full(log_text(&[Event::Open(0), Event::Close(0)], &mut out)));
    assert!(rt; out.taken.as_slice() == b"open 0\n".as_slice());
}

const FAR: CheckFault = CheckFault::Refused(Refusal {
    code: RefusalCode::HostNotCurrent,
    item: 3,
    cell: Cell {
        array: ArrayId(0),
        index: 65_535,
    },
    other: None,
});

const MEETING: CheckFault = CheckFault::Refused(Refusal {
    code: RefusalCode::TurnsMeet,
    item: 3,
    cell: Cell {
        array: ArrayId(0),
        index: 5,
    },
    other: None,
});

const OVERLAP: CheckFault = CheckFault::Order(OrderFault {
    item: 12,
    cell: Cell {
        array: ArrayId(0),
        index: 7,
    },
    other: 10,
});

fn is_line(alloc: Global, program: &Program, fault: &CheckFault, line: &str) -> bool {
    let mut out = Vec::new(alloc);
    refusal_text(alloc, program, fault, &mut out).is_ok() && out.as_slice() == line.as_bytes()
}

// Whether a line that ends for want of room is written as far as there is room.
fn is_cut(alloc: Global, program: &Program, fault: &CheckFault, line: &str) -> bool {
    let mut out = Narrow {
        room: line.len(),
        taken: Vec::new(alloc),
    };
    is_full(refusal_text(alloc, program, fault, &mut out))
        && out.taken.as_slice() == line.as_bytes()
}

#[test]
fn lines_of_refusals(rt: HostRuntime) -> Result<(), Fail> {
    let alloc = rt.alloc();
    let program = read_program(alloc, SOURCE.as_bytes())?;
    for (fault, line) in [
        (FAR, "E506 item 3 A[65535]\n"),
        (MEETING, "E510 item 3 A[5]\n"),
        (OVERLAP, "E505 item 12 A[7] with item 10\n"),
        (CheckFault::OutOfMemory, "F1\n"),
    ] {
        assert!(rt; is_line(alloc, &program, &fault, line), "{line}");
    }
    assert!(rt; is_cut(alloc, &program, &OVERLAP, "E505 item"));
    Ok(())
}
