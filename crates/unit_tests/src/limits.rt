//! Each limit of a source at its value, and one above it.

use base::fault::{ReadCode, ReadFault};
use c_read::read_program;
use std::alloc::{AllocError, Global};
use std::test::Fail;

/// Sources with as many of something as is asked for.
trait Many {
    fn text(&self, alloc: Global, count: usize) -> Result<String, AllocError>;
}

// A text again and again.
fn times(alloc: Global, count: usize, part: &str) -> Result<String, AllocError> {
    let mut text = String::new(alloc);
    for _ in 0..count {
        text.push_str(part)?;
    }
    Ok(text)
}

struct Arrays;

impl Many for Arrays {
    fn text(&self, alloc: Global, count: usize) -> Result<String, AllocError> {
        let mut text = String::new(alloc);
        for i in 0..count {
            text.push_str(&format!(in alloc; "uint64_t A{i}[1];\n")?)?;
        }
        text.push_str("int main(void) {}\n")?;
        Ok(text)
    }
}

struct Cells;

impl Many for Cells {
    fn text(&self, alloc: Global, count: usize) -> Result<String, AllocError> {
        format!(in alloc; "uint64_t A[{count}];\nint main(void) {{}}\n")
    }
}

struct Scalars;

impl Many for Scalars {
    fn text(&self, alloc: Global, count: usize) -> Result<String, AllocError> {
        let mut text = String::new(alloc);
        for i in 0..count {
            text.push_str(&format!(in alloc; "uint64_t x{i};\n")?)?;
        }
        text.push_str("int main(void) {}\n")?;
        Ok(text)
    }
}

/// Loops of one name.
struct Loops;

impl Many for Loops {
    fn text(&self, alloc: Global, count: usize) -> Result<String, AllocError> {
        let loops = times(alloc, count, "for (uint64_t i = 0; i < 1; i += 1) {}")?;
        format!(in alloc; "int main(void) {{{loops}}}\n")
    }
}

/// The bytes of a name.
struct Name;

impl Many for Name {
    fn text(&self, alloc: Global, count: usize) -> Result<String, AllocError> {
        let name = times(alloc, count, "a")?;
        format!(in alloc; "uint64_t {name};\nint main(void) {{}}\n")
    }
}

struct Statements;

impl Many for Statements {
    fn text(&self, alloc: Global, count: usize) -> Result<String, AllocError> {
        let statements = times(alloc, count, "print(1);")?;
        format!(in alloc; "int main(void) {{{statements}}}\n")
    }
}

struct Braces;

impl Many for Braces {
    fn text(&self, alloc: Global, count: usize) -> Result<String, AllocError> {
        let open = times(alloc, count, "{")?;
        let shut = times(alloc, count, "}")?;
        format!(in alloc; "int main(void) {open}{shut}\n")
    }
}

struct Parentheses;

impl Many for Parentheses {
    fn text(&self, alloc: Global, count: usize) -> Result<String, AllocError> {
        let open = times(alloc, count, "(")?;
        let shut = times(alloc, count, ")")?;
        format!(in alloc; "uint64_t x;\nint main(void) {{ x = {open}1{shut}; }}\n")
    }
}

/// The tokens of an expression.
struct Tokens;

impl Many for Tokens {
    fn text(&self, alloc: Global, count: usize) -> Result<String, AllocError> {
        let signs = times(alloc, count.saturating_sub(1), "~")?;
        format!(in alloc; "uint64_t x;\nint main(void) {{ x = {signs}1; }}\n")
    }
}

struct Depends;

impl Many for Depends {
    fn text(&self, alloc: Global, count: usize) -> Result<String, AllocError> {
        let others = times(alloc, count.saturating_sub(1), ", A[0:1]")?;
        format!(in alloc;
            "uint64_t A[1];\nint main(void) {{\n#pragma omp taskwait depend(in: A[0:1]{others})\n}}\n"
        )
    }
}

/// The terms of a bound.
struct Terms;

impl Many for Terms {
    fn text(&self, alloc: Global, count: usize) -> Result<String, AllocError> {
        let others = times(alloc, count.saturating_sub(1), "+0")?;
        format!(in alloc;
            "uint64_t A[1];\nint main(void) {{\n#pragma omp taskwait depend(in: A[0{others}:1])\n}}\n"
        )
    }
}

/// The bytes of a source.
struct Bytes;

impl Many for Bytes {
    fn text(&self, alloc: Global, count: usize) -> Result<String, AllocError> {
        let blanks = times(alloc, count.saturating_sub(17), " ")?;
        format!(in alloc; "int main(void) {{}}{blanks}")
    }
}

fn is_read(alloc: Global, text: &str) -> bool {
    read_program(alloc, text.as_bytes()).is_ok()
}

fn is_refused(alloc: Global, text: &[u8], code: ReadCode) -> bool {
    matches!(read_program(alloc, text), Err(ReadFault::Text(fault)) if fault.code == code)
}

// Whether a source with as many is read, and one with one more is refused by this code.
fn is_limit<M: Many>(
    alloc: Global,
    source: &M,
    most: usize,
    code: ReadCode,
) -> Result<bool, AllocError> {
    let whole = source.text(alloc, most)?;
    let over = source.text(alloc, most.saturating_add(1))?;
    Ok(is_read(alloc, &whole) && is_refused(alloc, over.as_bytes(), code))
}

#[test]
fn limits_are_met_and_no_more(rt: HostRuntime) -> Result<(), Fail> {
    let alloc = rt.alloc();
    assert!(rt; is_limit(alloc, &Arrays, 64, ReadCode::TooMany)?);
    assert!(rt; is_limit(alloc, &Cells, 65_536, ReadCode::BadLength)?);
    assert!(rt; is_limit(alloc, &Scalars, 256, ReadCode::TooMany)?);
    assert!(rt; is_limit(alloc, &Name, 64, ReadCode::TooMany)?);
    assert!(rt; is_limit(alloc, &Statements, 16_384, ReadCode::TooMany)?);
    assert!(rt; is_limit(alloc, &Braces, 16, ReadCode::TooDeep)?);
    assert!(rt; is_limit(alloc, &Parentheses, 16, ReadCode::TooDeep)?);
    assert!(rt; is_limit(alloc, &Tokens, 256, ReadCode::TooMany)?);
    assert!(rt; is_limit(alloc, &Depends, 64, ReadCode::TooMany)?);
    assert!(rt; is_limit(alloc, &Terms, 8, ReadCode::TooMany)?);
    assert!(rt; is_limit(alloc, &Bytes, 1_048_576, ReadCode::TooMany)?);
    Ok(())
}

#[test]
fn names_of_loops_are_no_scalars(rt: HostRuntime) -> Result<(), Fail> {
    let alloc = rt.alloc();
    assert!(rt; is_read(alloc, &Loops.text(alloc, 300)?));
    Ok(())
}
