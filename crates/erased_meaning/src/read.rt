// Reading a source without its directive lines.

ghost use Rattle.std.specs.Prelude.{◌≡◌, IfOk, IfErr};
ghost use Rattle.base.specs.declared.tree.Program.{Program};
ghost use Rattle.c_source.specs.Source.{IsFirstFault};
ghost use Rattle.c_read.specs.Spells.{OnText, Spells};
ghost use Rattle.erased_meaning.specs.Laws.{IsErased};
ghost use Rattle.erasure.specs.Erased.{erased_text};

use base::fault::ReadFault;
use base::tree::Program;
use c_read::read_program;
use erasure::erase;
use std::alloc::Global;

/// The program of a source's text without its directive lines. Where the source spells a program so does that text, and
/// the only error is then want of memory; else the error is the first fault of the text without those lines.
pub fn read_erased(alloc: Global, bytes: &[u8]) -> Result<Program, ReadFault>
    ensures found { IfOk result (λ q. Spells (erased_text bytes.now) q) }
    ensures erased { (p : Program) → Spells bytes.now p → IfOk result (λ q. IsErased p q) }
    ensures memory { (p : Program) → Spells bytes.now p → IfErr result (λ f. f ≡ ReadFault.OutOfMemory) }
    ensures fault { IfErr result (OnText (λ f. IsFirstFault (erased_text bytes.now) f)) }
{
    let Ok(text) = erase(alloc, bytes) else {
        return Err(ReadFault::OutOfMemory);
    };
    let erased: &[u8] = &text;
    read_program(alloc, erased)
}
