// Graphs of programs that are made by hand.

use base::fault::{CheckFault, OrderFault, RangeCode, RangeFault, Refusal, RefusalCode};
use base::item::Cell;
use base::tree::{
    ArrayId, ArrayInfo, Bound, Bounds, DependKind, DependText, DeviceId, DeviceText, Directive,
    EnterKind, MapText, Part, Place, Program, SectionText, Tasking, Term,
};
use graph::{graph_text, message_graph};
use indexmap::IndexMap;
use outline::outline;
use smallvec::SmallVec;
use std::alloc::{AllocError, Global};
use std::test::Fail;

// A `target enter data` of the only array, which begins at a line, and has a `depend` clause where it gives a kind.
fn enter(
    alloc: Global,
    line: usize,
    nowait: bool,
    depend: Option<DependKind>,
) -> Result<Part, AllocError> {
    let mut maps = SmallVec::new(alloc);
    maps.push(MapText {
        kind: EnterKind::To,
        ..MapText::default()
    })?;
    let mut depends = SmallVec::new(alloc);
    if let Some(kind) = depend {
        depends.push(DependText {
            kind,
            section: SectionText::default(),
        })?;
    }
    let tasking = Tasking {
        nowait,
        depends,
        device: DeviceText::Fixed(DeviceId::default()),
    };
    let place = Place { line, column: 1 };
    Ok(Part::Alone(place, Directive::Enter(maps, tasking)))
}

// A program with an array of this name.
fn program_of(alloc: Global, name: &str, body: Vec<Part>) -> Result<Program, AllocError> {
    let mut arrays = IndexMap::new(alloc);
    arrays.insert(String::from_str(alloc, name)?, ArrayInfo { length: 128 })?;
    Ok(Program {
        arrays,
        scalars: 0,
        body,
    })
}

// So many deferred items, each in a line of its own.
fn deferred(
    alloc: Global,
    count: usize,
    depend: Option<DependKind>,
) -> Result<Vec<Part>, AllocError> {
    let mut body = Vec::new(alloc);
    for line in 0..count {
        body.push(enter(alloc, line.saturating_add(1), true, depend)?)?;
    }
    Ok(body)
}

// The graph of a program with this array and these parts.
fn graph(
    alloc: Global,
    name: &str,
    bytes: &[u8],
    body: Vec<Part>,
    fault: Option<&CheckFault>,
) -> Result<Vec<u8>, Fail> {
    let program = program_of(alloc, name, body)?;
    let outlined = outline(alloc, &program)?;
    Ok(graph_text(alloc, "f.c", bytes, &outlined, fault)?)
}

fn has(text: &[u8], part: &str) -> bool {
    match str::from_utf8(text) {
        Ok(text) => text.contains(part),
        Err(_) => false,
    }
}

const CONFLICT: CheckFault = CheckFault::Refused(Refusal {
    code: RefusalCode::Conflict,
    item: 1,
    cell: Cell {
        array: ArrayId(0),
        index: 3,
    },
    other: Some(0),
});

// What stands outside the strings of a text, or nothing where a string has no end.
fn outside(alloc: Global, text: &[u8]) -> Result<Vec<u8>, AllocError> {
    let mut out = Vec::new(alloc);
    let mut is_string = false;
    let mut is_escape = false;
    'bytes: for byte in text {
        if !is_string {
            out.push(*byte)?;
            is_string = *byte == b'"';
        } else if is_escape {
            is_escape = false;
        } else if *byte == b'"' {
            is_string = false;
        } else {
            is_escape = *byte == b'\\';
        }
    }
    if is_string {
        return Ok(Vec::new(alloc));
    }
    Ok(out)
}

// Two items of an array of that name, in lines of that text.
fn shown(alloc: Global, name: &str, line: &[u8]) -> Result<Vec<u8>, Fail> {
    let mut bytes = Vec::from_slice(alloc, line)?;
    bytes.push(b'\n')?;
    bytes.extend_from_slice(line)?;
    graph(
        alloc,
        name,
        &bytes,
        deferred(alloc, 2, None)?,
        Some(&CONFLICT),
    )
}

// each byte that a comment may hold, in a line and as a character of a name, alone and with all before
#[test]
fn texts_stay_in_their_strings(rt: HostRuntime) -> Result<(), Fail> {
    let alloc = rt.alloc();
    let wanted = outside(alloc, &shown(alloc, "A", b"x")?)?;
    assert!(rt; !wanted.is_empty());
    let mut name = String::new(alloc);
    let mut line = Vec::new(alloc);
    for byte in 0..=255u8 {
        let mut own = String::new(alloc);
        own.push(byte as char)?;
        let text = shown(alloc, &own, &[byte])?;
        assert!(rt; str::from_utf8(&text).is_ok());
        assert_eq!(rt; outside(alloc, &text)?, wanted);
        name.push(byte as char)?;
        if byte != b'\n' {
            line.push(byte)?;
        }
        let text = shown(alloc, &name, &line)?;
        assert!(rt; str::from_utf8(&text).is_ok());
        assert_eq!(rt; outside(alloc, &text)?, wanted);
    }
    Ok(())
}

// a name, a message and a source that would end the string, the statement or the graph
#[test]
fn texts_end_nothing(rt: HostRuntime) -> Result<(), Fail> {
    let alloc = rt.alloc();
    let wanted = outside(alloc, &shown(alloc, "A", b"x")?)?;
    let evil = "\\\"]; } digraph { a [label=<<b>&quot;</b>>]; \\";
    let text = shown(alloc, evil, evil.as_bytes())?;
    assert_eq!(rt; outside(alloc, &text)?, wanted);
    assert!(rt;
        has(
            &text,
            "tooltip=\"\\\\\\\"]; } digraph { a [label=<<b>&amp;quot;</b>>]; \\\\\","
        )
    );
    let text = message_graph(alloc, evil, Some(("E102", evil)))?;
    let plain = message_graph(alloc, "f.c", None)?;
    assert_eq!(rt; outside(alloc, &text)?, outside(alloc, &plain)?);
    assert!(rt; has(&plain, "  label=\"f.c: accepted\";\n}\n"));
    Ok(())
}

// the first item is before the third because it is before the second
#[test]
fn a_chain_has_no_shortcut(rt: HostRuntime) -> Result<(), Fail> {
    let body = deferred(rt.alloc(), 3, Some(DependKind::InOut))?;
    let text = graph(rt.alloc(), "A", b"one\ntwo\n  three\r\n", body, None)?;
    assert!(rt;
        has(
            &text,
            "  i0 [label=\"0 target enter data nowait\\nline 1\", tooltip=\"one\","
        )
    );
    assert!(rt;
        has(
            &text,
            "\\nline 3\", tooltip=\"three\", fillcolor=\"#fbecd4\", style=\"rounded,filled\"];\n"
        )
    );
    assert!(rt; has(&text, "];\n  i0 -> i1;\n  i1 -> i2;\n}\n"));
    Ok(())
}

// deferred items that wait for none
#[test]
fn items_with_no_order_have_no_edge(rt: HostRuntime) -> Result<(), Fail> {
    let body = deferred(rt.alloc(), 2, None)?;
    let text = graph(rt.alloc(), "A", b"", body, None)?;
    assert!(rt; has(&text, "label=\"f.c: accepted\";\n  i0 ["));
    assert!(rt; !has(&text, "->"));
    assert!(rt; has(&text, "];\n  rankdir=LR;\n}\n"));
    Ok(())
}

// both items of a conflict are red, and so is what joins them
#[test]
fn a_conflict_joins_its_items(rt: HostRuntime) -> Result<(), Fail> {
    let mut body = deferred(rt.alloc(), 2, None)?;
    body.push(enter(rt.alloc(), 3, false, None)?)?;
    let text = graph(rt.alloc(), "A", b"", body, Some(&CONFLICT))?;
    assert!(rt; has(&text, "label=\"f.c: refused, E508\";\n"));
    assert!(rt;
        has(
            &text,
            "line 1\", tooltip=\"\", fillcolor=\"#fbecd4\", style=\"rounded,filled\", color=red"
        )
    );
    assert!(rt;
        has(
            &text,
            "line 2\", tooltip=\"\", fillcolor=\"#fbecd4\", style=\"rounded,filled\", color=red"
        )
    );
    assert!(rt; has(&text, "line 3\", tooltip=\"\", fillcolor=\"#fbecd4\"];\n"));
    assert!(rt; has(&text, "  i0 -> i1 [dir=none, style=dashed, color=red,"));
    assert!(rt; has(&text, "label=\"E508 A[3]\"];\n}\n"));
    Ok(())
}

// the item of another refusal has its code
#[test]
fn a_refused_item_has_its_code(rt: HostRuntime) -> Result<(), Fail> {
    let fault = CheckFault::Range {
        item: 1,
        fault: RangeFault {
            code: RangeCode::SubscriptOutside,
            line: 2,
            column: 5,
        },
    };
    let body = deferred(rt.alloc(), 2, None)?;
    let text = graph(rt.alloc(), "A", b"", body, Some(&fault))?;
    assert!(rt;
        has(
            &text,
            "1 target enter data nowait\\nline 2\\nE301\", tooltip=\"\""
        )
    );
    assert!(rt; !has(&text, "dashed"));
    Ok(())
}

// where depend items overlap in part there is no order
#[test]
fn an_overlap_has_no_order(rt: HostRuntime) -> Result<(), Fail> {
    let fault = CheckFault::Order(OrderFault {
        item: 1,
        cell: Cell {
            array: ArrayId(0),
            index: 0,
        },
        other: 0,
    });
    let body = deferred(rt.alloc(), 2, None)?;
    let text = graph(rt.alloc(), "A", b"", body, Some(&fault))?;
    assert!(rt; has(&text, "label=\"E505 A[0]\"];\n}\n"));
    Ok(())
}

// So many turns of a loop with one item.
fn turns(alloc: Global, count: u64) -> Result<Vec<Part>, AllocError> {
    let mut inner = Vec::new(alloc);
    inner.push(enter(alloc, 1, false, None)?)?;
    let bounds = Bounds {
        first: 0,
        end: count.min(65_536),
        step: 1,
    };
    let mut body = Vec::new(alloc);
    body.push(Part::Loop(bounds, inner))?;
    Ok(body)
}

// what is left out is told, and the items of a refusal are there
#[test]
fn many_items_are_cut(rt: HostRuntime) -> Result<(), Fail> {
    let alloc = rt.alloc();
    let fault = CheckFault::Refused(Refusal {
        code: RefusalCode::UpdateOfAbsent,
        item: 5_000,
        cell: Cell {
            array: ArrayId(0),
            index: 0,
        },
        other: None,
    });
    let text = graph(alloc, "A", b"", turns(alloc, 5_112)?, Some(&fault))?;
    assert!(rt; has(&text, "\\nline 1, turn 7\""));
    assert!(rt; has(&text, "  i1998 -> i1999;\n}\n"));
    assert!(rt; has(&text, "more [label=\"… 3,112 more items\", shape=plaintext"));
    assert!(rt;
        has(
            &text,
            "  i5000 [label=\"5000 target enter data\\nline 1, turn 5000\\nE503 A[0]\""
        )
    );
    assert!(rt; !has(&text, "i2000 "));
    let text = graph(alloc, "A", b"", turns(alloc, 2_000)?, None)?;
    assert!(rt; !has(&text, "more"));
    Ok(())
}

fn bound(alloc: Global, number: u64) -> Result<Bound, AllocError> {
    let mut terms = SmallVec::new(alloc);
    terms.push(Term::Literal(number))?;
    Ok(Bound {
        terms,
        less: SmallVec::new(alloc),
    })
}

// An item that is deferred, with a depend item for each of these cells.
fn depending(alloc: Global, kind: DependKind, first: u64, end: u64) -> Result<Part, AllocError> {
    let mut depends = SmallVec::new(alloc);
    for cell in first..end {
        depends.push(DependText {
            kind,
            section: SectionText {
                bounds: Some((bound(alloc, cell)?, bound(alloc, 1)?)),
                ..SectionText::default()
            },
        })?;
    }
    let tasking = Tasking {
        nowait: true,
        depends,
        device: DeviceText::Fixed(DeviceId::default()),
    };
    let maps = SmallVec::new(alloc);
    Ok(Part::Alone(Place::default(), Directive::Enter(maps, tasking)))
}

// each of 90 items is before each of 90 others, with none between
#[test]
fn many_edges_are_cut(rt: HostRuntime) -> Result<(), Fail> {
    let alloc = rt.alloc();
    let mut body = Vec::new(alloc);
    for cell in 0..90 {
        body.push(depending(alloc, DependKind::Out, cell, cell + 1)?)?;
    }
    for _ in 0..90 {
        body.push(depending(alloc, DependKind::In, 0, 90)?)?;
    }
    let text = graph(alloc, "A", b"", body, None)?;
    assert!(rt; has(&text, "  i0 -> i90;\n"));
    assert!(rt; has(&text, "  i88 -> i169;\n"));
    assert!(rt; !has(&text, "i89 -> i90;"));
    assert!(rt;
        has(
            &text,
            "\"… only the first 8,000 edges are drawn\", shape=plaintext"
        )
    );
    Ok(())
}

// a long line is cut, and not inside a character
#[test]
fn a_long_line_is_cut(rt: HostRuntime) -> Result<(), Fail> {
    let alloc = rt.alloc();
    let mut line = Vec::new(alloc);
    for _ in 0..199 {
        line.push(b'a')?;
    }
    line.extend_from_slice("\u{e9}z".as_bytes())?;
    let text = graph(alloc, "A", &line, deferred(alloc, 1, None)?, None)?;
    assert!(rt; has(&text, "aaa ...\", fillcolor"));
    assert!(rt; !has(&text, "\u{fffd}"));
    Ok(())
}
