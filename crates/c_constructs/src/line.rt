//! The line of a directive.

ghost use Rattle.std.specs.Prelude.{◌≡◌, ◌<◌, ◌≤◌, Bool, IfOk, IfErr, OnOk, Some, None, true, false};
ghost use Rattle.c_grammar.specs.Grammar.{for};
ghost use Rattle.c_grammar.specs.LineRules.{max_collapse};
ghost use Rattle.c_grammar.specs.Lines.{line_depth};
ghost use Rattle.c_grammar.specs.Program.{Stack};
ghost use Rattle.c_grammar.specs.Rules.{inside, under_if};
ghost use Rattle.c_grammar.specs.Terminal.{Line};
ghost use Rattle.c_expressions.specs.Cursor.{first_item, items};
ghost use Rattle.c_expressions.specs.Reading.{Failed, is_line, took};
ghost use Rattle.c_expressions.specs.Scopes.{context_of};
ghost use Rattle.c_expressions.specs.Seen.{columns_on, kinds_on};
ghost use Rattle.directives.specs.Ahead.{seen_line};
ghost use Rattle.directives.specs.Names.{IsInSource};
ghost use Rattle.directives.specs.Spells.{SpellsLine, line_answer};
ghost use Rattle.directives.specs.Trees.{text_of};
ghost use Rattle.c_tokens.specs.declared.limits.TheConstants.{MAX_STATEMENTS};
ghost use Rattle.c_constructs.specs.Steps.{act_of, seen_error};

use base::fault::{ReadCode, TextFault};
use c_expressions::{Cursor, ReadError, Scope};
use c_tokens::limits::MAX_STATEMENTS;
use directives::{Directive, DirectiveFault, LineTokens, read_directive_in};

/// A fault of a line of the source.
pub fn text_fault(fault: DirectiveFault, line: usize) -> ReadError
    ensures { result ≡ seen_error line fault }
{
    match fault {
        DirectiveFault::OutOfMemory => ReadError::Memory,
        DirectiveFault::Line(fault) => ReadError::Fault(TextFault {
            code: fault.code,
            line,
            column: fault.column,
        }),
    }
}

/// The directive of the line that stands next, outside a target and under no `if`: first the limit of statements, then
/// the line's own fault.
#[tactic(auto, using(crate::proofs::Taken::many_line, crate::proofs::Taken::bad_line))]
pub fn directive_at<'a>(
    scope: &Scope<'_>,
    tokens: &Cursor<'a, '_>,
    line: &LineTokens<'a>,
) -> Result<Directive<'a>, ReadError>
    requires line { (first_item tokens.now).terminal ≡ Line (kinds_on (seen_line line.now)) }
    requires columns { (first_item tokens.now).columns ≡ columns_on (seen_line line.now) }
    requires outside { inside (context_of scope.now 0 0) ≡ false }
    requires always { under_if (context_of scope.now 0 0) ≡ false }
    ensures read { (over : Bool) (s : Stack) → IfErr result (λ e. Failed e
        (took (context_of scope.now 0 0) (for (act_of over)) s (items tokens.now))) }
    ensures few { OnOk result (scope.now.statements < MAX_STATEMENTS) }
    ensures found { IfOk result (λ d. SpellsLine (seen_line line.now) d) }
    ensures sound { OnOk result (line_answer (seen_line line.now) ≡ None) }
    ensures source { IfOk result (λ d. IsInSource (seen_line line.now) d) }
    ensures depth { IfOk result (λ d. line_depth (text_of d) ≤ max_collapse) }
{
    if scope.statements >= MAX_STATEMENTS {
        return Err(ReadError::Fault(tokens.fault(ReadCode::TooMany)));
    }
    match read_directive_in(scope.alloc, line) {
        Ok(directive) => Ok(directive),
        Err(fault) => Err(text_fault(fault, tokens.place().line)),
    }
}

/// The fault of a directive inside a target: the limit of statements comes first.
#[tactic(auto, using(crate::proofs::Taken::many_any, crate::proofs::Taken::inside_any))]
pub fn refuse_inside(scope: &Scope<'_>, tokens: &Cursor<'_, '_>) -> TextFault
    requires line { is_line (first_item tokens.now).terminal ≡ true }
    requires inside { inside (context_of scope.now 0 0) ≡ true }
    ensures { (over : Bool) (s : Stack) → took (context_of scope.now 0 0) (for (act_of over)) s (items tokens.now) ≡
        Some result }
{
    if scope.statements >= MAX_STATEMENTS {
        return tokens.fault(ReadCode::TooMany);
    }
    tokens.fault(ReadCode::DirectiveInTarget)
}

/// The fault of a directive under an `if`, outside a target: the limit of statements comes first.
#[tactic(auto, using(crate::proofs::Taken::many_any, crate::proofs::Taken::under_any))]
pub fn refuse_under(scope: &Scope<'_>, tokens: &Cursor<'_, '_>) -> TextFault
    requires line { is_line (first_item tokens.now).terminal ≡ true }
    requires outside { inside (context_of scope.now 0 0) ≡ false }
    requires under { under_if (context_of scope.now 0 0) ≡ true }
    ensures { (over : Bool) (s : Stack) → took (context_of scope.now 0 0) (for (act_of over)) s (items tokens.now) ≡
        Some result }
{
    if scope.statements >= MAX_STATEMENTS {
        return tokens.fault(ReadCode::TooMany);
    }
    tokens.fault(ReadCode::DirectiveUnderIf)
}
