//! The globals of a source.

ghost use Rattle.std.specs.Prelude.{◌≡◌, ◌<◌, [], ◌∷◌, length, OnOk, IfOk, Some, None, false};
ghost use Rattle.std.specs.Str.{IsAscii};
ghost use Rattle.c_tokens.specs.declared.kind.Sign.TheVariants as sign;
ghost use Rattle.c_grammar.specs.AsciiNames.{AreAscii};
ghost use Rattle.c_grammar.specs.Lexeme.{Uint64};
ghost use Rattle.c_grammar.specs.Terminal.{Fixed, Mark, same};
ghost use Rattle.c_grammar.specs.Program.{Stack, AfterGlobal, Globals};
ghost use Rattle.c_expressions.specs.Means.{meaning_of};
ghost use Rattle.c_expressions.specs.Cursor.{items, first_item};
ghost use Rattle.c_expressions.specs.Reading.{run, terminals, Outcome, OutcomeBy};
ghost use Rattle.c_expressions.specs.Scopes.{box_numbers, context_of, names_of};
ghost use Rattle.c_read.specs.Globals.{global_code, naming, AreGlobalsRead, AreKnown, IsArrayRead, IsNamedAt};

use crate::array::{array, global_name, scalar};
use base::tree::ArrayInfo;
use c_expressions::{Cursor, ReadError, Scope};
use c_tokens::Sign;
use directives::Word;
use indexmap::IndexMap;

/// The word and the name with which a global begins.
#[tactic(auto, using(c_expressions::proofs::Outcomes::on_from_by, crate::proofs::Declared::go_word, crate::proofs::Declared::named_at))]
fn begin_global<'a>(scope: &Scope<'a>, tokens: &mut Cursor<'a, '_>) -> Result<&'a [u8], ReadError>
    requires { (first_item tokens.old).terminal ≡ Fixed Uint64 }
    ensures read { (s : Stack) → OutcomeBy result
        (run (context_of scope.now 0 0) (Globals ∷ s) (items tokens.old))
        (λ x. run (naming x.now (context_of scope.now 0 0)) (AfterGlobal ∷ Globals ∷ s) (items tokens.new)) }
    ensures code { IfOk result (λ x. global_code scope.now x.now (first_item tokens.new).terminal ≡ None) }
    ensures fresh { IfOk result (λ x. meaning_of (names_of scope.now) x.now ≡ None) }
    ensures named { IfOk result (λ x. IsNamedAt x.now (items tokens.old) (items tokens.new)) }
{
    tokens.take();
    let name = global_name(scope, tokens)?;
    Ok(name)
}

/// The array of that name, behind the name, with its entry.
#[tactic(auto, using(crate::proofs::Declared::array_added))]
fn array_entry<'a>(
    scope: &mut Scope<'a>,
    tokens: &mut Cursor<'a, '_>,
    name: &'a [u8],
    arrays: &mut IndexMap<String, ArrayInfo>,
) -> Result<(), ReadError>
    requires few { scope.old.arrays < 64 }
    requires first { (first_item tokens.old).terminal ≡ Mark sign.OpenBracket }
    requires ascii { IsAscii name.now }
    requires fresh { meaning_of (names_of scope.old) name.now ≡ None }
    requires known { AreKnown (names_of scope.old) arrays.old.entries }
    ensures read { (s : Stack) → Outcome result
        (run (naming name.now (context_of scope.old 0 0)) (AfterGlobal ∷ s) (items tokens.old))
        (run (context_of scope.new 0 0) s (items tokens.new)) }
    ensures tree { OnOk result (IsArrayRead name.now scope.old scope.new arrays.old.entries arrays.new.entries
        (items tokens.old) (items tokens.new)) }
{
    let length = array(scope, tokens, name)?;
    let text = String::from_utf8_lossy(scope.alloc, name)?;
    arrays.insert(text, ArrayInfo { length })?;
    Ok(())
}

/// The global whose word stands next.
#[tactic(auto, using(c_expressions::proofs::Outcomes::on_from, crate::proofs::Declared::read_array, crate::proofs::Declared::read_scalar, crate::proofs::Declared::few_arrays, crate::proofs::Declared::few_scalars, crate::proofs::Declared::name_ascii, crate::proofs::Declared::stop_global, crate::proofs::Declared::fewer_array, crate::proofs::Declared::fewer_scalar))]
fn global<'a>(
    scope: &mut Scope<'a>,
    tokens: &mut Cursor<'a, '_>,
    arrays: &mut IndexMap<String, ArrayInfo>,
) -> Result<(), ReadError>
    requires word { (first_item tokens.old).terminal ≡ Fixed Uint64 }
    requires text { AreAscii (terminals (items tokens.old)) }
    requires known { AreKnown (names_of scope.old) arrays.old.entries }
    requires none { box_numbers scope.old ≡ [] }
    ensures read { (s : Stack) → Outcome result (run (context_of scope.old 0 0) (Globals ∷ s) (items tokens.old))
        (run (context_of scope.new 0 0) (Globals ∷ s) (items tokens.new)) }
    ensures tree { OnOk result (AreGlobalsRead scope.old scope.new arrays.old.entries arrays.new.entries
        (items tokens.old) (items tokens.new)) }
    ensures none { OnOk result (box_numbers scope.new ≡ []) }
    ensures fewer { OnOk result (length (items tokens.new) < length (items tokens.old)) }
{
    let name = begin_global(scope, tokens)?;
    if tokens.at(Sign::OpenBracket) {
        return array_entry(scope, tokens, name, arrays);
    }
    if tokens.at(Sign::Semicolon) {
        return scalar(scope, tokens, name);
    }
    Err(ReadError::Fault(tokens.refuse()))
}

/// The globals of a source, with the entries of the arrays.
#[tactic(auto, using(c_expressions::proofs::Outcomes::on_from, crate::proofs::Fronts::no_globals, crate::proofs::Fronts::globals_then, crate::proofs::Fronts::ascii_behind, crate::proofs::Fronts::known_so_far))]
pub fn globals<'a>(
    scope: &mut Scope<'a>,
    tokens: &mut Cursor<'a, '_>,
) -> Result<IndexMap<String, ArrayInfo>, ReadError>
    requires text { AreAscii (terminals (items tokens.old)) }
    requires none { box_numbers scope.old ≡ [] }
    ensures read { (s : Stack) → Outcome result (run (context_of scope.old 0 0) (Globals ∷ s) (items tokens.old))
        (run (context_of scope.new 0 0) (Globals ∷ s) (items tokens.new)) }
    ensures tree { IfOk result (λ m. AreGlobalsRead scope.old scope.new [] m.entries (items tokens.old)
        (items tokens.new)) }
    ensures none { OnOk result (box_numbers scope.new ≡ []) }
    ensures last { OnOk result (same (Fixed Uint64) (first_item tokens.new).terminal ≡ false) }
{
    let mut arrays = IndexMap::new(scope.alloc);
    'globals: while tokens.at_word(Word::Uint64) {
        global(scope, tokens, &mut arrays)?;
    }
    Ok(arrays)
}
