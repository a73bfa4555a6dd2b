// From a source to why its program is refused.

ghost use Rattle.std.specs.Prelude.{◌≡◌, IfErr, IfOk, OnOk};
ghost use Rattle.base.specs.Accepted.{IsAccepted};
ghost use Rattle.base.specs.Items.{plan};
ghost use Rattle.explain.specs.Explained.{SpellsAccepted};
ghost use Rattle.pipeline.specs.Checking.{IsRefused, IsUnaccepted};

use crate::lines::place_told;
use crate::telling::all_told;
use crate::values::text_told;
use crate::warnings::warnings_of;
use base::fault::{CheckFault, OutlineFault, ReadFault, SourceFault};
use base::tree::Program;
use c_read::read_program;
use graph::{graph_text, message_graph};
use mapcheck::{Refused, checked};
use outline::{Outlined, outline};
use reasons::{Diagnosis, too_many};
use rendering::{Told, as_json, as_sarif, as_text};
use std::alloc::{AllocError, Global};
use std::io;
use std::io::Write;

/// In which form a report is printed.
#[derive(Clone, Copy, Debug, PartialEq, Eq)]
pub enum Form {
    Text,
    /// Text in the colours of a terminal.
    Coloured,
    Json,
    Sarif,
    /// A graph in the language DOT.
    Dot,
}

/// The name of a file, its text, the same with its lines joined, and the form of the report.
#[derive(Clone, Copy)]
struct Report<'a> {
    alloc: Global,
    file: &'a str,
    source: &'a [u8],
    bytes: &'a [u8],
    form: Form,
}

fn with_end(text: String) -> Result<Vec<u8>, AllocError> {
    let mut bytes = text.into_bytes();
    bytes.push(b'\n')?;
    Ok(bytes)
}

impl Report<'_> {
    fn text(&self, told: &Told) -> Result<Vec<u8>, AllocError> {
        match self.form {
            Form::Text => as_text(self.alloc, self.file, self.source, told, false),
            Form::Coloured => as_text(self.alloc, self.file, self.source, told, true),
            Form::Json => with_end(as_json(self.alloc, self.file, self.source, told)?),
            Form::Sarif => with_end(as_sarif(self.alloc, self.file, self.source, told)?),
            Form::Dot => self.message(told),
        }
    }

    // The graph of a text without items.
    fn message(&self, told: &Told) -> Result<Vec<u8>, AllocError> {
        match told.diagnoses.first() {
            None => message_graph(self.alloc, self.file, None),
            Some(first) => message_graph(self.alloc, self.file, Some((first.code, &first.message))),
        }
    }

    fn write<W: Write>(&self, told: Told, out: &mut W) -> io::Result<()> {
        let mut told = told;
        place_told(self.alloc, self.source, self.bytes, &mut told)?;
        let text = self.text(&told)?;
        out.write_all(&text)
    }

    // What is told of a program that is read, and its warnings.
    fn write_told<W: Write>(
        &self,
        program: &Program,
        told: Result<Told, AllocError>,
        out: &mut W,
    ) -> io::Result<()> {
        let mut told = told?;
        told.warnings = warnings_of(self.alloc, self.bytes, program)?;
        self.write(told, out)
    }

    // A program as a graph.
    fn write_graph<W: Write>(
        &self,
        outlined: &Outlined<'_>,
        fault: Option<&CheckFault>,
        out: &mut W,
    ) -> io::Result<()> {
        let text = graph_text(self.alloc, self.file, self.bytes, outlined, fault)?;
        out.write_all(&text)
    }

    // That the program is accepted.
    fn write_accepted<W: Write>(&self, outlined: &Outlined<'_>, out: &mut W) -> io::Result<()> {
        if self.form == Form::Dot {
            return self.write_graph(outlined, None, out);
        }
        self.write_told(outlined.program(), Ok(Told::new(self.alloc)), out)
    }

    // Why the program is refused.
    fn write_refused<W: Write>(
        &self,
        outlined: &Outlined<'_>,
        refused: &Refused<'_>,
        out: &mut W,
    ) -> io::Result<()> {
        if self.form == Form::Dot {
            return self.write_graph(outlined, Some(&refused.fault()), out);
        }
        let told = all_told(self.alloc, self.bytes, outlined, refused);
        self.write_told(outlined.program(), told, out)
    }

    fn write_one<W: Write>(
        &self,
        diagnosis: Result<Diagnosis, AllocError>,
        out: &mut W,
    ) -> io::Result<()> {
        let mut told = Told::new(self.alloc);
        told.diagnoses.push(diagnosis?)?;
        self.write(told, out)
    }
}

// Checks a program, and tells why it is refused.
fn explain_outlined<W: Write>(
    report: &Report<'_>,
    outlined: &Outlined<'_>,
    out: &mut W,
) -> Result<io::Result<()>, SourceFault>
    ensures accepted { IfOk result (λ w. OnOk w (IsAccepted (plan outlined.now))) }
    ensures fault { IfErr result (IsUnaccepted outlined.now) }
{
    let refused = match checked(report.alloc, outlined) {
        Ok(accepted) => {
            accepted.is_accepted();
            return Ok(report.write_accepted(outlined, out));
        }
        Err(refused) => refused,
    };
    let fault = refused.fault();
    if matches!(fault, CheckFault::OutOfMemory) {
        return Err(SourceFault::Check(fault));
    }
    match report.write_refused(outlined, &refused, out) {
        Ok(()) => Err(SourceFault::Check(fault)),
        Err(error) => Ok(Err(error)),
    }
}

// Why a text is not read.
fn explain_text<W: Write>(
    report: &Report<'_>,
    fault: ReadFault,
    out: &mut W,
) -> Result<io::Result<()>, SourceFault>
    ensures err { IfErr result (λ f. f ≡ SourceFault.Read fault) }
    ensures ok { IfOk result (λ w. OnOk w ⊥) }
{
    let ReadFault::Text(text) = fault else {
        return Err(SourceFault::Read(fault));
    };
    let told = text_told(report.alloc, report.bytes, &text);
    match report.write_one(told, out) {
        Ok(()) => Err(SourceFault::Read(fault)),
        Err(error) => Ok(Err(error)),
    }
}

// Why a program has no items.
fn explain_items<W: Write>(
    report: &Report<'_>,
    program: &Program,
    fault: OutlineFault,
    out: &mut W,
) -> Result<io::Result<()>, SourceFault>
    ensures err { IfErr result (λ f. f ≡ SourceFault.Outline fault) }
    ensures ok { IfOk result (λ w. OnOk w ⊥) }
{
    let OutlineFault::TooManyItems = fault else {
        return Err(SourceFault::Outline(fault));
    };
    let told = too_many(report.alloc, report.bytes, program);
    match report.write_one(told, out) {
        Ok(()) => Err(SourceFault::Outline(fault)),
        Err(error) => Ok(Err(error)),
    }
}

/// Reads a source, checks its program, and writes why it is refused, or that it is accepted. The fault is the one that
/// `check_source` answers, and what is written tells of it. Where what is to be told cannot be written, or there is no
/// memory for it, that is answered. The bytes are those of the source with its lines joined that go on behind a
/// backslash; what is written shows the source.
pub fn explain_source<W: Write>(
    alloc: Global,
    file: &str,
    source: &[u8],
    bytes: &[u8],
    form: Form,
    out: &mut W,
) -> Result<io::Result<()>, SourceFault>
    ensures accepted { IfOk result (λ w. OnOk w (SpellsAccepted bytes.now)) }
    ensures fault { IfErr result (λ f. IsRefused bytes.now f) }
{
    let report = Report {
        alloc,
        file,
        source,
        bytes,
        form,
    };
    let program = match read_program(alloc, bytes) {
        Ok(program) => program,
        Err(fault) => return explain_text(&report, fault, out),
    };
    let outlined = match outline(alloc, &program) {
        Ok(outlined) => outlined,
        Err(fault) => return explain_items(&report, &program, fault, out),
    };
    explain_outlined(&report, &outlined, out)
}
