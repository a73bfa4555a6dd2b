// From a source to its page.

ghost use Rattle.std.specs.Prelude.{◌≡◌, IfErr, IfOk, OnOk};
ghost use Rattle.base.specs.Accepted.{IsAccepted};
ghost use Rattle.base.specs.Items.{plan};
ghost use Rattle.explain.specs.Explained.{SpellsAccepted};
ghost use Rattle.pipeline.specs.Checking.{IsRefused, IsSilent, IsUnaccepted};

use crate::document::{program_page, source_page};
use crate::scene::{LoopNames, Scene, arrays_of, kept_of};
use base::fault::{CheckFault, OutlineFault, ReadFault, SourceFault};
use base::tree::Program;
use c_read::read_program;
use explain::{all_told, place_told, text_told, warnings_of};
use mapcheck::checked;
use outline::{Outlined, outline};
use pipeline::tell;
use reasons::{Diagnosis, too_many};
use rendering::Told;
use std::alloc::{AllocError, Global};
use std::io;
use std::io::Write;
use timeline::timeline_of;

/// The name of a file, its text, and the same with its lines joined.
#[derive(Clone, Copy)]
struct Source<'a> {
    alloc: Global,
    file: &'a str,
    text: &'a [u8],
    bytes: &'a [u8],
}

impl Source<'_> {
    // The page of a program, of which this is told.
    fn page(&self, outlined: &Outlined<'_>, told: &Told) -> Result<Vec<u8>, AllocError> {
        let timeline = timeline_of(self.alloc, outlined)?;
        let names = LoopNames::new(self.alloc, self.bytes, outlined.items())?;
        let kept = kept_of(self.alloc, told)?;
        let arrays = arrays_of(self.alloc, outlined, &timeline, told)?;
        let scene = Scene {
            text: self.text,
            bytes: self.bytes,
            outlined,
            timeline: &timeline,
            told,
            names: &names,
            arrays: &arrays,
            kept: &kept,
        };
        program_page(self.alloc, self.file, &scene)
    }

    fn write_told<W: Write>(
        &self,
        outlined: &Outlined<'_>,
        told: Result<Told, AllocError>,
        out: &mut W,
    ) -> io::Result<()> {
        let mut told = told?;
        told.warnings = warnings_of(self.alloc, self.bytes, outlined.program())?;
        place_told(self.alloc, self.text, self.bytes, &mut told)?;
        let page = self.page(outlined, &told)?;
        out.write_all(&page)
    }

    fn write_accepted<W: Write>(&self, outlined: &Outlined<'_>, out: &mut W) -> io::Result<()> {
        self.write_told(outlined, Ok(Told::new(self.alloc)), out)
    }

    fn write_one<W: Write>(
        &self,
        diagnosis: Result<Diagnosis, AllocError>,
        out: &mut W,
    ) -> io::Result<()> {
        let mut told = Told::new(self.alloc);
        told.diagnoses.push(diagnosis?)?;
        place_told(self.alloc, self.text, self.bytes, &mut told)?;
        let page = source_page(self.alloc, self.file, self.text, &told)?;
        out.write_all(&page)
    }
}

// Checks a program, and writes its page.
fn view_outlined<W: Write>(
    source: &Source<'_>,
    outlined: &Outlined<'_>,
    out: &mut W,
) -> Result<io::Result<()>, SourceFault>
    ensures accepted { IfOk result (λ w. OnOk w (IsAccepted (plan outlined.now))) }
    ensures fault { IfErr result (IsUnaccepted outlined.now) }
{
    let refused = match checked(source.alloc, outlined) {
        Ok(accepted) => {
            accepted.is_accepted();
            return Ok(source.write_accepted(outlined, out));
        }
        Err(refused) => refused,
    };
    let fault = refused.fault();
    if matches!(fault, CheckFault::OutOfMemory) {
        return Err(SourceFault::Check(fault));
    }
    let told = all_told(source.alloc, source.bytes, outlined, &refused);
    match source.write_told(outlined, told, out) {
        Ok(()) => Err(SourceFault::Check(fault)),
        Err(error) => Ok(Err(error)),
    }
}

// The page of a text that is not read.
fn view_text<W: Write>(
    source: &Source<'_>,
    fault: ReadFault,
    out: &mut W,
) -> Result<io::Result<()>, SourceFault>
    ensures err { IfErr result (λ f. f ≡ SourceFault.Read fault) }
    ensures ok { IfOk result (λ w. OnOk w ⊥) }
{
    let ReadFault::Text(text) = fault else {
        return Err(SourceFault::Read(fault));
    };
    let told = text_told(source.alloc, source.bytes, &text);
    match source.write_one(told, out) {
        Ok(()) => Err(SourceFault::Read(fault)),
        Err(error) => Ok(Err(error)),
    }
}

// The page of a program that has no items.
fn view_items<W: Write>(
    source: &Source<'_>,
    program: &Program,
    fault: OutlineFault,
    out: &mut W,
) -> Result<io::Result<()>, SourceFault>
    ensures err { IfErr result (λ f. f ≡ SourceFault.Outline fault) }
    ensures ok { IfOk result (λ w. OnOk w ⊥) }
{
    let OutlineFault::TooManyItems = fault else {
        return Err(SourceFault::Outline(fault));
    };
    let told = too_many(source.alloc, source.bytes, program);
    match source.write_one(told, out) {
        Ok(()) => Err(SourceFault::Outline(fault)),
        Err(error) => Ok(Err(error)),
    }
}

/// Reads a source, checks its program, and writes its page. The fault is the one that `check_source` answers, and the
/// page tells of it. Where the page cannot be written, or there is no memory for it, that is answered. The bytes are
/// those of the text with its lines joined that go on behind a backslash; the page shows the text.
pub fn view_source<W: Write>(
    alloc: Global,
    file: &str,
    text: &[u8],
    bytes: &[u8],
    out: &mut W,
) -> Result<io::Result<()>, SourceFault>
    ensures accepted { IfOk result (λ w. OnOk w (SpellsAccepted bytes.now)) }
    ensures fault { IfErr result (λ f. IsRefused bytes.now f) }
{
    let source = Source {
        alloc,
        file,
        text,
        bytes,
    };
    let program = match read_program(alloc, bytes) {
        Ok(program) => program,
        Err(fault) => return view_text(&source, fault, out),
    };
    let outlined = match outline(alloc, &program) {
        Ok(outlined) => outlined,
        Err(fault) => return view_items(&source, &program, fault, out),
    };
    view_outlined(&source, &outlined, out)
}
