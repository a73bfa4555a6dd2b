//! The line that names the boxed scalars, and their arrays.

ghost use Rattle.std.specs.Prelude.{◌≡◌, ◌<◌, ◌∷◌, [], map, OnOk, IfOk, IfErr, false};
ghost use Rattle.std.specs.Str.{IsAscii};
ghost use Rattle.c_grammar.specs.Lexeme.{Int, Uint64};
ghost use Rattle.c_grammar.specs.Lines.{boxed_names, is_ascii, is_boxing, worded};
ghost use Rattle.c_grammar.specs.Program.{Stack, Globals, main_rest, w};
ghost use Rattle.c_grammar.specs.Rules.{names_on};
ghost use Rattle.c_grammar.specs.Terminal.{Fixed, same};
ghost use Rattle.c_expressions.specs.declared.fault.ReadError.TheVariants.{Memory};
ghost use Rattle.c_expressions.specs.Cursor.{items, first_item};
ghost use Rattle.c_expressions.specs.Reading.{run, Outcome};
ghost use Rattle.c_expressions.specs.Scopes.{box_numbers, context_of, names_of};
ghost use Rattle.directives.specs.Ahead.{seen_line};
ghost use Rattle.directives.specs.Seen.{seen_placed};
ghost use Rattle.directives.specs.Spells.{kinds_of};
ghost use Rattle.c_read.specs.Boxes.{AreAsciiNames, AreBoxed, AreBoxesRead, HasNoEntry, IsBoxed, boxed_in, is_boxes_line, is_taken, texts};
ghost use Rattle.c_read.specs.Globals.{AreKnown, entry_of};

use base::tree::{ArrayId, ArrayInfo};
use c_expressions::{BoxedName, Cursor, ReadError, Scope, Terminal};
use c_tokens::limits::MAX_ARRAYS;
use directives::{Lexeme, LineTokens, PlacedLexeme, is_directive, same_lexeme};
use indexmap::IndexMap;
use std::alloc::{AllocError, Global};

/// Whether the line is that of the boxed scalars.
fn is_boxing(line: &LineTokens<'_>) -> bool
    ensures { result ≡ is_boxing (kinds_of (seen_line line.now)) }
{
    match line.tokens() {
        [_, _, word, ..] => is_directive(line) && same_lexeme(Lexeme::Name(b"0"), word.lexeme),
        _ => false,
    }
}

/// Whether that line stands next.
fn at_boxes(tokens: &Cursor<'_, '_>) -> bool
    ensures { result ≡ is_boxes_line (first_item tokens.now).terminal }
{
    match tokens.peek() {
        Terminal::Line(line) => is_boxing(line),
        _ => false,
    }
}

fn is_ascii(name: &[u8]) -> bool
    ensures { result ≡ is_ascii name.now }
{
    let mut rest = name;
    'bytes: while let [byte, behind @ ..] = rest {
        rest = behind;
        if *byte >= 128 {
            return false;
        }
    }
    true
}

/// The names behind the word of that line.
fn worded<'a>(alloc: Global, tokens: &[PlacedLexeme<'a>]) -> Result<Vec<&'a [u8]>, AllocError>
    ensures { IfOk result (λ v. texts v.items ≡ worded (kinds_of (map seen_placed tokens.now))) }
{
    let mut names = Vec::new(alloc);
    let mut rest = tokens;
    'tokens: while let [token, behind @ ..] = rest {
        rest = behind;
        if let Lexeme::Name(name) = token.lexeme {
            if is_ascii(name) {
                names.push(name)?;
            }
        }
    }
    Ok(names)
}

/// The names on that line.
fn boxed_names<'a>(alloc: Global, line: &LineTokens<'a>) -> Result<Vec<&'a [u8]>, AllocError>
    ensures { IfOk result (λ v. texts v.items ≡ boxed_names (kinds_of (seen_line line.now))) }
{
    match line.tokens() {
        [_, _, _, names @ ..] => worded(alloc, names),
        _ => Ok(Vec::new(alloc)),
    }
}

/// The names on the line that stands next.
fn names_on<'a>(alloc: Global, tokens: &Cursor<'a, '_>) -> Result<Vec<&'a [u8]>, AllocError>
    ensures { IfOk result (λ v. texts v.items ≡ names_on (first_item tokens.now).terminal) }
{
    match tokens.peek() {
        Terminal::Line(line) => boxed_names(alloc, line),
        _ => Ok(Vec::new(alloc)),
    }
}

/// Adds the array of a scalar of that name, and its entry. An error is want of memory.
fn add_box<'a>(
    scope: &mut Scope<'a>,
    name: &'a [u8],
    arrays: &mut IndexMap<String, ArrayInfo>,
) -> Result<(), ReadError>
    requires few { scope.old.arrays < 64 }
    requires ascii { IsAscii name.now }
    requires fresh { HasNoEntry name.now (map entry_of arrays.old.entries) }
    ensures memory { IfErr result (λ e. e ≡ Memory) }
    ensures boxed { OnOk result (IsBoxed name.now scope.old scope.new arrays.old.entries arrays.new.entries) }
{
    let text = String::from_utf8_lossy(scope.alloc, name)?;
    arrays.insert(text, ArrayInfo { length: 1 })?;
    scope.boxes.push(BoxedName {
        name,
        array: ArrayId(scope.arrays),
    })?;
    scope.arrays += 1;
    Ok(())
}

/// Whether a scalar of that name cannot be boxed: it is visible, or boxed already.
fn is_taken(scope: &Scope<'_>, name: &[u8]) -> bool
    ensures { result ≡ is_taken (names_of scope.now) (boxed_in scope.now) name.now }
{
    scope.meaning(name).is_some() || scope.box_of(name).is_some()
}

/// Adds the arrays of scalars of these names, as far as there is room: of none that is declared, and of each once. An
/// error is want of memory.
fn add_boxes<'a>(
    scope: &mut Scope<'a>,
    names: &[&'a [u8]],
    arrays: &mut IndexMap<String, ArrayInfo>,
) -> Result<(), ReadError>
    requires none { box_numbers scope.old ≡ [] }
    requires known { AreKnown (names_of scope.old) arrays.old.entries }
    requires ascii { AreAsciiNames (texts names.now) }
    ensures memory { IfErr result (λ e. e ≡ Memory) }
    ensures boxed { OnOk result (AreBoxed (texts names.now) scope.old scope.new arrays.old.entries arrays.new.entries) }
{
    let mut rest = names;
    'names: while let [name, behind @ ..] = rest {
        rest = behind;
        if scope.arrays >= MAX_ARRAYS {
            return Ok(());
        }
        if !is_taken(scope, name) {
            add_box(scope, name, arrays)?;
        }
    }
    Ok(())
}

/// The line of the boxed scalars, if it stands next.
pub fn boxes<'a>(
    scope: &mut Scope<'a>,
    tokens: &mut Cursor<'a, '_>,
    arrays: &mut IndexMap<String, ArrayInfo>,
) -> Result<(), ReadError>
    requires no_global { same (Fixed Uint64) (first_item tokens.old).terminal ≡ false }
    requires none { box_numbers scope.old ≡ [] }
    requires known { AreKnown (names_of scope.old) arrays.old.entries }
    ensures read { (s : Stack) → Outcome result (run (context_of scope.old 0 0) (Globals ∷ s) (items tokens.old))
        (run (context_of scope.new 0 0) (w Int ∷ main_rest s) (items tokens.new)) }
    ensures tree { OnOk result (AreBoxesRead scope.old scope.new arrays.old.entries arrays.new.entries
        (items tokens.old) (items tokens.new)) }
    ensures names { OnOk result (names_of scope.new ≡ names_of scope.old) }
    ensures next { OnOk result (scope.new.scalars ≡ scope.old.scalars) }
{
    if !at_boxes(tokens) {
        return Ok(());
    }
    let names = names_on(scope.alloc, tokens)?;
    tokens.take();
    add_boxes(scope, &names, arrays)?;
    Ok(())
}
