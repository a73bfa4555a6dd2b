//! Lines of atomic updates.

ghost use Rattle.std.specs.Prelude.{◌≡◌, ◌<◌, OnOk, true};
ghost use Rattle.c_grammar.specs.Grammar.{Marks, for};
ghost use Rattle.c_grammar.specs.Program.{Stack};
ghost use Rattle.c_grammar.specs.Terminal.{Line};
ghost use Rattle.c_expressions.specs.Cursor.{items, first_item, behind};
ghost use Rattle.c_expressions.specs.Reading.{Outcome, run, took};
ghost use Rattle.c_expressions.specs.Scopes.{context_of};
ghost use Rattle.c_expressions.specs.Seen.{columns_on, kinds_on};
ghost use Rattle.c_tokens.specs.declared.limits.TheConstants.{MAX_STATEMENTS};
ghost use Rattle.directives.specs.Ahead.{seen_line};
ghost use Rattle.c_statements.specs.Simple.{counted, is_atomic_line, seen_error};

use base::fault::{ReadCode, TextFault};
use c_expressions::{Cursor, ReadError, Scope, Terminal};
use c_tokens::limits::MAX_STATEMENTS;
use directives::{DirectiveFault, LineTokens, is_atomic, is_directive, read_directive_in};

/// Whether the line of an atomic update stands next.
pub fn at_atomic(tokens: &Cursor<'_, '_>) -> bool
    ensures { result ≡ is_atomic_line (first_item tokens.now).terminal }
{
    match tokens.peek() {
        Terminal::Line(line) => is_directive(line) && is_atomic(line),
        _ => false,
    }
}

/// A fault of a line of the source.
fn text_fault(fault: DirectiveFault, line: usize) -> ReadError
    ensures { result ≡ seen_error line fault }
{
    match fault {
        DirectiveFault::OutOfMemory => ReadError::Memory,
        DirectiveFault::Line(fault) => ReadError::Fault(TextFault {
            code: fault.code,
            line,
            column: fault.column,
        }),
    }
}

/// Whether the line of an atomic update, which stands next, has no fault: first the limit of statements, then its own.
#[tactic(auto, using(crate::proofs::Marking::many_marks, crate::proofs::Marking::bad_marks, crate::proofs::Marking::go_marks))]
fn sound_line<'a>(
    scope: &Scope<'_>,
    tokens: &Cursor<'a, '_>,
    line: &LineTokens<'a>,
) -> Result<(), ReadError>
    requires line { (first_item tokens.now).terminal ≡ Line (kinds_on (seen_line line.now)) }
    requires columns { (first_item tokens.now).columns ≡ columns_on (seen_line line.now) }
    requires atomic { is_atomic_line (first_item tokens.now).terminal ≡ true }
    ensures read { (s : Stack) → Outcome result (took (context_of scope.now 0 0) (for Marks) s (items tokens.now))
        (run (context_of (counted scope.now) 0 0) s (behind tokens.now)) }
    ensures few { OnOk result (scope.now.statements < MAX_STATEMENTS) }
{
    if scope.statements >= MAX_STATEMENTS {
        return Err(ReadError::Fault(tokens.fault(ReadCode::TooMany)));
    }
    match read_directive_in(scope.alloc, line) {
        Ok(directive) => {
            drop(directive);
            Ok(())
        }
        Err(fault) => Err(text_fault(fault, tokens.place().line)),
    }
}

/// Goes past the line of an atomic update, which stands next.
pub fn begin_atomic(scope: &mut Scope<'_>, tokens: &mut Cursor<'_, '_>) -> Result<(), ReadError>
    requires { is_atomic_line (first_item tokens.old).terminal ≡ true }
    ensures read { (s : Stack) → Outcome result (took (context_of scope.old 0 0) (for Marks) s (items tokens.old))
        (run (context_of scope.new 0 0) s (items tokens.new)) }
    ensures scope { OnOk result (scope.new ≡ counted scope.old) }
    ensures taken { OnOk result (behind tokens.old ≡ items tokens.new) }
{
    let Terminal::Line(line) = tokens.peek() else {
        unreachable!()
    };
    sound_line(scope, tokens, line)?;
    tokens.take();
    scope.statements += 1;
    Ok(())
}
