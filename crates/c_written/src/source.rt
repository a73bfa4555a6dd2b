//! The written tokens of a source.

ghost use Rattle.std.specs.Prelude.{◌≡◌, ◌≤◌, ◌^◌, IfOk, [], false, map, true};
ghost use Rattle.c_tokens.specs.Text.{tokens_of};
ghost use Rattle.c_grammar.specs.Allocations.{allocated};
ghost use Rattle.c_grammar.specs.Blocks.{in_blocks, nothing_read, typed};
ghost use Rattle.c_grammar.specs.Boxes.{announced, boxed};
ghost use Rattle.c_grammar.specs.Changes.{begin, in_full};
ghost use Rattle.c_grammar.specs.Choices.{chosen};
ghost use Rattle.c_grammar.specs.Conditions.{decided};
ghost use Rattle.c_grammar.specs.Constants.{undefined, worked};
ghost use Rattle.c_grammar.specs.Counters.{counted};
ghost use Rattle.c_grammar.specs.Declarations.{Other, settled};
ghost use Rattle.c_grammar.specs.DeclaredFunctions.{undeclared};
ghost use Rattle.c_grammar.specs.Descents.{upward};
ghost use Rattle.c_grammar.specs.Functions.{expanded};
ghost use Rattle.c_grammar.specs.Grids.{flat};
ghost use Rattle.c_grammar.specs.Initial.{initialized, no_globals};
ghost use Rattle.c_grammar.specs.Locals.{in_scalars};
ghost use Rattle.c_grammar.specs.Loops.{looped};
ghost use Rattle.c_grammar.specs.Macros.{replaced};
ghost use Rattle.c_grammar.specs.MainArrays.{lifted};
ghost use Rattle.c_grammar.specs.Needless.{needed};
ghost use Rattle.c_grammar.specs.Nesting.{nested};
ghost use Rattle.c_grammar.specs.Pointers.{pointed};
ghost use Rattle.c_grammar.specs.Prints.{printed};
ghost use Rattle.c_grammar.specs.Privates.{owned};
ghost use Rattle.c_grammar.specs.Sequences.{in_parts};
ghost use Rattle.c_grammar.specs.Shared.{apart, awaited, unshared};
ghost use Rattle.c_grammar.specs.Source.{item_of, text_of, written_out};
ghost use Rattle.c_grammar.specs.Structs.{in_rows};
ghost use Rattle.c_grammar.specs.Triangles.{rectangular};
ghost use Rattle.c_grammar.specs.Types.{of_one_type};
ghost use Rattle.c_grammar.specs.Lasting.{lasting};
ghost use Rattle.c_grammar.specs.Unset.{zeroed};
ghost use Rattle.c_grammar.specs.Updates.{Outside, commuting};
ghost use Rattle.c_terminals.specs.Held.{columns_held, seen_held, written_all};

use crate::allocated::allocated;
use crate::announced::announced;
use crate::blocks::in_blocks;
use crate::boxed::boxed;
use crate::changes::in_full;
use crate::constants::worked;
use crate::counted::counted;
use crate::decided::decided;
use crate::declarations::settled;
use crate::declared_functions::undeclared;
use crate::definitions::undefined;
use crate::functions::expanded;
use crate::globals::initialized;
use crate::grids::flat;
use crate::lasting::lasting;
use crate::nesting::nested;
use crate::pointed::pointed;
use crate::prints::printed;
use crate::privates::owned;
use crate::sequences::in_parts;
use crate::shared::{apart, awaited, unshared};
use crate::types::typed;
use crate::unset::zeroed;
use crate::updates::commuting;
use c_arrays::lifted;
use c_choices::chosen;
use c_descents::upward;
use c_devices::on_devices;
use c_locals::in_scalars;
use c_loops::looped;
use c_macros::replaced;
use c_needless::needed;
use c_structs::in_rows;
use c_terminals::{Written, WrittenTerminal, borrowed};
use c_tokens::{Kind, Token, tokens};
use c_triangles::rectangular;
use c_types::of_one_type;
use directives::{LineTokens, word_of};
use std::alloc::{AllocError, Global};

fn text_of<'a>(bytes: &'a [u8], token: Token) -> &'a [u8]
    ensures { result.now ≡ text_of bytes.now token }
{
    let start = token.first.min(bytes.len());
    let rest = &bytes[start..];
    let len = token.last.saturating_sub(token.first);
    if rest.len() <= len {
        return rest;
    }
    &rest[..len + 1]
}

fn terminal_of<'a>(
    alloc: Global,
    bytes: &'a [u8],
    token: Token,
) -> Result<WrittenTerminal<'a>, AllocError>
    requires { token.column ≤ 2 ^ 63 }
    ensures terminal { IfOk result (λ t. seen_held t ≡ (item_of bytes.now token).terminal) }
    ensures columns { IfOk result (λ t. columns_held t ≡ (item_of bytes.now token).columns) }
{
    let text = text_of(bytes, token);
    Ok(match token.kind {
        Kind::Name => match word_of(text) {
            Some(word) => WrittenTerminal::Word(word),
            None => WrittenTerminal::Name(text),
        },
        Kind::Number(n) => WrittenTerminal::Number(n),
        Kind::BadNumber => WrittenTerminal::BadNumber,
        Kind::Sign(sign) => WrittenTerminal::Sign(sign),
        Kind::Line => WrittenTerminal::Line(LineTokens::new(alloc, text, token.column)?),
        Kind::Unknown => WrittenTerminal::Unknown,
    })
}

/// The tokens of a source as they stand.
fn raw<'a>(alloc: Global, bytes: &'a [u8]) -> Result<Vec<Written<'a>>, AllocError>
    ensures { IfOk result (λ v. written_all v.items ≡ map (item_of bytes.now) (tokens_of bytes.now)) }
{
    let mut written = Vec::new(alloc);
    let mut stream = tokens(bytes);
    'tokens: while let Some(token) = stream.next_token() {
        written.push(Written {
            terminal: terminal_of(alloc, bytes, token)?,
            line: token.line,
            column: token.column,
        })?;
    }
    Ok(written)
}

/// The tokens with targets taken apart, with their combined constructs, calls of `printf`, types, structs as rows, numbers of
/// the type `int`, blocks, declarations, names of loops and constants, with loops that count up in the place of those that count
/// down, without what says nothing, the lines that declare functions and the clauses `private`.
fn with_constants<'a>(alloc: Global, raw: &[Written<'a>]) -> Result<Vec<Written<'a>>, AllocError>
    ensures { IfOk result (λ v. written_all v.items ≡
        worked [] [] 0 (settled Other (zeroed (lasting (owned (upward (counted (unshared (in_blocks nothing_read (of_one_type (undeclared false (in_rows (needed (typed 0 (printed 0 (nested (in_parts (replaced (written_all raw.now))))))))))))))))))) }
{
    let tokens = borrowed(alloc, raw)?;
    let tokens = replaced(alloc, &tokens)?;
    let tokens = in_parts(alloc, &tokens)?;
    let tokens = borrowed(alloc, &tokens)?;
    let tokens = nested(alloc, &tokens)?;
    let tokens = borrowed(alloc, &tokens)?;
    let tokens = printed(alloc, &tokens)?;
    let tokens = typed(alloc, &tokens)?;
    let tokens = needed(alloc, &tokens)?;
    let tokens = in_rows(alloc, &tokens)?;
    let tokens = undeclared(alloc, &tokens)?;
    let tokens = of_one_type(alloc, &tokens)?;
    let tokens = in_blocks(alloc, &tokens)?;
    let tokens = unshared(alloc, &tokens)?;
    let tokens = borrowed(alloc, &tokens)?;
    let tokens = counted(alloc, &tokens)?;
    let tokens = upward(alloc, &tokens)?;
    let tokens = borrowed(alloc, &tokens)?;
    let tokens = owned(alloc, &tokens)?;
    let tokens = borrowed(alloc, &tokens)?;
    let tokens = lasting(alloc, &tokens)?;
    let tokens = zeroed(alloc, &tokens)?;
    let tokens = settled(alloc, &tokens)?;
    worked(alloc, &tokens)
}

/// The tokens without clauses `if`, loops that end by a condition, loops whose bounds name others, arrays that `main`
/// declares, local arrays, conditional operators, definitions and arrays of several dimensions.
fn with_rows<'a>(alloc: Global, called: &[Written<'a>]) -> Result<Vec<Written<'a>>, AllocError>
    ensures { IfOk result (λ v. written_all v.items ≡
        flat false [] [] [] 0 (flat true [] [] [] 0 (undefined [] 0 0
        (chosen (in_scalars (awaited (lifted (rectangular (looped (decided (written_all called.now))))))))))) }
{
    let tokens = borrowed(alloc, called)?;
    let tokens = decided(alloc, &tokens)?;
    let tokens = borrowed(alloc, &tokens)?;
    let tokens = looped(alloc, &tokens)?;
    let tokens = rectangular(alloc, &tokens)?;
    let tokens = lifted(alloc, &tokens)?;
    let tokens = awaited(alloc, &tokens)?;
    let tokens = borrowed(alloc, &tokens)?;
    let tokens = in_scalars(alloc, &tokens)?;
    let tokens = borrowed(alloc, &tokens)?;
    let tokens = chosen(alloc, &tokens)?;
    let tokens = undefined(alloc, &tokens)?;
    let tokens = flat(alloc, true, &tokens)?;
    let tokens = borrowed(alloc, &tokens)?;
    flat(alloc, false, &tokens)
}

/// The tokens without allocations and initializers, with the boxed scalars, the updates that commute, and with their changes
/// in full.
fn with_changes<'a>(alloc: Global, rows: &[Written<'a>]) -> Result<Vec<Written<'a>>, AllocError>
    ensures { IfOk result (λ v. written_all v.items ≡
        announced (in_full begin 0 (initialized no_globals 0
        (allocated (commuting Outside (boxed (apart (written_all rows.now)))))))) }
{
    let tokens = borrowed(alloc, rows)?;
    let tokens = apart(alloc, &tokens)?;
    let tokens = borrowed(alloc, &tokens)?;
    let tokens = boxed(alloc, &tokens)?;
    let tokens = borrowed(alloc, &tokens)?;
    let tokens = commuting(alloc, &tokens)?;
    let tokens = borrowed(alloc, &tokens)?;
    let tokens = allocated(alloc, &tokens)?;
    let tokens = borrowed(alloc, &tokens)?;
    let tokens = initialized(alloc, &tokens)?;
    let tokens = in_full(alloc, &tokens)?;
    announced(alloc, &tokens)
}

/// The tokens with the arrays of global pointers, and with functions expanded.
fn with_calls<'a>(alloc: Global, worked: &[Written<'a>]) -> Result<Vec<Written<'a>>, AllocError>
    ensures { IfOk result (λ v. written_all v.items ≡ expanded (pointed (written_all worked.now))) }
{
    let tokens = borrowed(alloc, worked)?;
    let tokens = pointed(alloc, &tokens)?;
    let tokens = borrowed(alloc, &tokens)?;
    expanded(alloc, &tokens)
}

/// The tokens of a source, with what C lets be left out. Each has the place of a token of the source. Fails where memory
/// ran out.
pub fn written<'a>(alloc: Global, bytes: &'a [u8]) -> Result<Vec<Written<'a>>, AllocError>
    ensures { IfOk result (λ v. written_all v.items ≡ written_out (map (item_of bytes.now) (tokens_of bytes.now))) }
{
    let raw = raw(alloc, bytes)?;
    let worked = with_constants(alloc, &raw)?;
    let called = with_calls(alloc, &worked)?;
    let rows = with_rows(alloc, &called)?;
    let changed = with_changes(alloc, &rows)?;
    let tokens = borrowed(alloc, &changed)?;
    on_devices(alloc, &tokens)
}
