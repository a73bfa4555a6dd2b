//! From a source to its program, and from that to its items.

ghost use Rattle.std.specs.Prelude.{◌≡◌, ◌≤◌, IfErr, IfOk, OnOk, length};
ghost use Rattle.base.specs.Items.{plan};
ghost use Rattle.base.specs.Limits.{most_items};
ghost use Rattle.c_read.specs.Spells.{Spells};
ghost use Rattle.pipeline.specs.Checking.{IsUnlisted, IsUnread};

use base::fault::SourceFault;
use base::tree::Program;
use c_read::read_program;
use outline::{Outlined, outline};
use std::alloc::Global;

/// The program that a source spells. A fault is the first of the text; want of memory may come in place of any answer.
pub fn read(alloc: Global, bytes: &[u8]) -> Result<Program, SourceFault>
    ensures spelled { IfOk result (λ p. Spells bytes.now p) }
    ensures fault { IfErr result (IsUnread bytes.now) }
{
    match read_program(alloc, bytes) {
        Ok(program) => Ok(program),
        Err(fault) => Err(SourceFault::Read(fault)),
    }
}

/// The items of a program. A fault says that there are too many of them, or that memory ran out.
#[tactic(auto, using(crate::proofs::Texts::unlisted))]
pub fn items<'p>(alloc: Global, program: &'p Program) -> Result<Outlined<'p>, SourceFault>
    ensures outlined { IfOk result (λ o. o ≡ program.now) }
    ensures few { OnOk result (length (plan program.now).items ≤ most_items) }
    ensures fault { IfErr result (IsUnlisted program.now) }
{
    match outline(alloc, program) {
        Ok(outlined) => Ok(outlined),
        Err(fault) => Err(SourceFault::Outline(fault)),
    }
}
