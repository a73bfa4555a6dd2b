//! One global: an array or a scalar.

ghost use Rattle.std.specs.Prelude.{◌≡◌, ◌≤◌, ◌<◌, ◌∷◌, [], length, OnOk, IfOk, Some, None, false};
ghost use Rattle.base.specs.declared.fault.ReadCode.{ReadCode};
ghost use Rattle.c_tokens.specs.declared.kind.Sign.TheVariants as sign;
ghost use Rattle.c_grammar.specs.Terminal.{Mark, Name, Num};
ghost use Rattle.c_grammar.specs.Grammar.{DeclaresGlobal, Length, for};
ghost use Rattle.c_grammar.specs.Program.{Stack, AfterGlobal, WantName, WantNum, m};
ghost use Rattle.c_grammar.specs.Rules.{inside, is_visible, sort_of};
ghost use Rattle.c_expressions.specs.Cursor.{items, first_item, behind};
ghost use Rattle.c_expressions.specs.Reading.{run, terminals, Outcome, OutcomeBy};
ghost use Rattle.c_expressions.specs.Scopes.{box_numbers, context_of};
ghost use Rattle.c_expressions.specs.Means.{meaning_of};
ghost use Rattle.c_expressions.specs.Scopes.{names_of};
ghost use Rattle.c_statements.specs.Loops.{IsGone};
ghost use Rattle.c_read.specs.Globals.{global_code, is_over, naming, with_cells, IsArrayNamed, IsScalarNamed};

use base::fault::{ReadCode, TextFault};
use base::tree::ArrayId;
use c_expressions::{Cursor, Meaning, ReadError, Scope, Terminal};
use c_statements::new_scalar;
use c_tokens::Sign;
use c_tokens::limits::{MAX_ARRAYS, MAX_CELLS, MAX_NAME, MAX_SCALARS};

/// Whether a limit is met at the name of a global, before the sign that stands next.
fn is_over(scope: &Scope<'_>, next: &Cursor<'_, '_>, name: &[u8]) -> bool
    ensures { result ≡ is_over scope.now name.now (first_item next.now).terminal }
{
    if name.len() > MAX_NAME {
        return true;
    }
    if next.at(Sign::OpenBracket) && scope.arrays >= MAX_ARRAYS {
        return true;
    }
    next.at(Sign::Semicolon) && scope.scalars >= MAX_SCALARS
}

/// The fault of the name of a global, before the sign that stands next.
fn global_fault(scope: &Scope<'_>, next: &Cursor<'_, '_>, name: &[u8]) -> Option<ReadCode>
    ensures code { result ≡ global_code scope.now name.now (first_item next.now).terminal }
    ensures fresh { result ≡ None → meaning_of (names_of scope.now) name.now ≡ None }
{
    let meant = scope.meaning(name);
    if meant.is_some() {
        return Some(ReadCode::AlreadyDeclared);
    }
    if is_over(scope, next, name) {
        return Some(ReadCode::TooMany);
    }
    None
}

/// The name of a global, where it is declared.
#[tactic(auto, using(crate::proofs::Names::stop_name, crate::proofs::Names::bad_name, crate::proofs::Names::go_name))]
pub fn global_name<'a>(
    scope: &Scope<'a>,
    tokens: &mut Cursor<'a, '_>,
) -> Result<&'a [u8], ReadError>
    ensures read { (s : Stack) → OutcomeBy result
        (run (context_of scope.now 0 0) (WantName DeclaresGlobal ∷ AfterGlobal ∷ s) (items tokens.old))
        (λ x. run (naming x.now (context_of scope.now 0 0)) (AfterGlobal ∷ s) (items tokens.new)) }
    ensures code { IfOk result (λ x. global_code scope.now x.now (first_item tokens.new).terminal ≡ None) }
    ensures fresh { IfOk result (λ x. meaning_of (names_of scope.now) x.now ≡ None) }
    ensures first { IfOk result (λ x. (first_item tokens.old).terminal ≡ Name x.now) }
    ensures taken { OnOk result (behind tokens.old ≡ items tokens.new) }
{
    match tokens.peek() {
        Terminal::Name(name) => {
            let place = tokens.place();
            tokens.take();
            if let Some(code) = global_fault(scope, tokens, name) {
                return Err(ReadError::Fault(TextFault {
                    code,
                    line: place.line,
                    column: place.column,
                }));
            }
            Ok(name)
        }
        _ => Err(ReadError::Fault(tokens.refuse())),
    }
}

/// The length of an array.
#[tactic(auto, using(crate::proofs::Lengths::go_length, crate::proofs::Lengths::zero_length, crate::proofs::Lengths::large_length))]
fn array_length(scope: &mut Scope<'_>, tokens: &mut Cursor<'_, '_>) -> Result<u32, ReadError>
    ensures read { (s : Stack) → Outcome result
        (run (context_of scope.old 0 0) (WantNum Length ∷ s) (items tokens.old))
        (run (context_of scope.new 0 0) s (items tokens.new)) }
    ensures scope { IfOk result (λ n. scope.new ≡ with_cells scope.old n) }
    ensures first { IfOk result (λ n. (first_item tokens.old).terminal ≡ Num (Some n)) }
    ensures range { IfOk result (λ n. (1 ≤ n) × (n ≤ 65536)) }
    ensures taken { OnOk result (behind tokens.old ≡ items tokens.new) }
{
    let cells = tokens.literal()?;
    if cells == 0 || cells > MAX_CELLS {
        return Err(ReadError::Fault(tokens.fault(ReadCode::BadLength)));
    }
    tokens.take();
    scope.cells = cells;
    Ok(cells as u32)
}

/// The bracket behind the name of an array.
#[tactic(auto, using(crate::proofs::Naming::begun_array, crate::proofs::Naming::array_named))]
fn begin_array<'a>(
    scope: &mut Scope<'a>,
    tokens: &mut Cursor<'a, '_>,
    name: &'a [u8],
) -> Result<(), ReadError>
    requires few { scope.old.arrays < 64 }
    requires first { (first_item tokens.old).terminal ≡ Mark sign.OpenBracket }
    ensures read { (s : Stack) → Outcome result
        (run (naming name.now (context_of scope.old 0 0)) (AfterGlobal ∷ s) (items tokens.old))
        (run (context_of scope.new 0 0) (WantNum Length ∷ m sign.CloseBracket ∷ m sign.Semicolon ∷ s)
        (items tokens.new)) }
    ensures scope { OnOk result (IsArrayNamed name.now scope.old scope.new) }
    ensures taken { OnOk result (behind tokens.old ≡ items tokens.new) }
{
    let array = ArrayId(scope.arrays);
    let arrays = scope.arrays + 1;
    tokens.take();
    scope.declare(name, Meaning::Array(array))?;
    scope.arrays = arrays;
    Ok(())
}

/// The array of that name, behind the name: its length and the signs of its declaration.
#[tactic(auto, using(c_expressions::proofs::Outcomes::on_from, crate::proofs::Naming::array_with_cells, crate::proofs::Naming::gone_array))]
pub fn array<'a>(
    scope: &mut Scope<'a>,
    tokens: &mut Cursor<'a, '_>,
    name: &'a [u8],
) -> Result<u32, ReadError>
    requires few { scope.old.arrays < 64 }
    requires first { (first_item tokens.old).terminal ≡ Mark sign.OpenBracket }
    ensures read { (s : Stack) → Outcome result
        (run (naming name.now (context_of scope.old 0 0)) (AfterGlobal ∷ s) (items tokens.old))
        (run (context_of scope.new 0 0) s (items tokens.new)) }
    ensures scope { OnOk result (IsArrayNamed name.now scope.old scope.new) }
    ensures gone { IfOk result (λ n. IsGone
        (Mark sign.OpenBracket ∷ Num (Some n) ∷ Mark sign.CloseBracket ∷ Mark sign.Semicolon ∷ [])
        (items tokens.old) (items tokens.new)) }
    ensures range { IfOk result (λ n. (1 ≤ n) × (n ≤ 65536)) }
{
    begin_array(scope, tokens, name)?;
    let cells = array_length(scope, tokens)?;
    tokens.expect(Sign::CloseBracket)?;
    tokens.expect(Sign::Semicolon)?;
    Ok(cells)
}

/// The semicolon behind the name of a scalar.
#[tactic(auto, using(crate::proofs::Naming::begun_scalar, crate::proofs::Naming::scalar_named))]
pub fn scalar<'a>(
    scope: &mut Scope<'a>,
    tokens: &mut Cursor<'a, '_>,
    name: &'a [u8],
) -> Result<(), ReadError>
    requires few { scope.old.scalars < 256 }
    requires none { box_numbers scope.old ≡ [] }
    requires first { (first_item tokens.old).terminal ≡ Mark sign.Semicolon }
    ensures read { (s : Stack) → Outcome result
        (run (naming name.now (context_of scope.old 0 0)) (AfterGlobal ∷ s) (items tokens.old))
        (run (context_of scope.new 0 0) s (items tokens.new)) }
    ensures scope { OnOk result (IsScalarNamed name.now scope.old scope.new) }
    ensures taken { OnOk result (behind tokens.old ≡ items tokens.new) }
{
    tokens.take();
    new_scalar(scope, name, None)?;
    Ok(())
}
