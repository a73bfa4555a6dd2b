//! The tokens that the program of a source is read from.

ghost use Rattle.std.specs.Prelude.{◌≡◌, IfOk, map};
ghost use Rattle.c_grammar.specs.Source.{item_of};
ghost use Rattle.c_source.specs.Source.{written_out};
ghost use Rattle.c_terminals.specs.Held.{written_all};
ghost use Rattle.c_tokens.specs.Text.{tokens_of};

use c_ints::widened;
use c_temporaries::in_place;
use c_terminals::{Written, borrowed, owned};
use c_written::written;
use std::alloc::{AllocError, Global};

/// The tokens of a source that is written out, with the values of temporaries in their places, and with `uint64_t` for the
/// types of scalars whose values are small. The error comes where an allocation fails.
pub fn source_written<'a>(alloc: Global, bytes: &'a [u8]) -> Result<Vec<Written<'a>>, AllocError>
    ensures { IfOk result (λ v. written_all v.items ≡ written_out (map (item_of bytes.now) (tokens_of bytes.now))) }
{
    let written = written(alloc, bytes)?;
    let tokens = borrowed(alloc, &written)?;
    let tokens = in_place(alloc, &tokens)?;
    let tokens = widened(alloc, &tokens)?;
    owned(alloc, &tokens)
}
