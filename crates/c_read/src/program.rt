//! Whole programs.

ghost use Rattle.std.specs.Prelude.{◌≡◌, [], ◌∷◌, map, OnOk, IfOk, IfErr, None, false};
ghost use Rattle.base.specs.declared.tree.Program.{Program};
ghost use Rattle.c_grammar.specs.AsciiNames.{AreAscii};
ghost use Rattle.c_grammar.specs.Grammar.{Plain, for};
ghost use Rattle.c_grammar.specs.Lexeme.{Int};
ghost use Rattle.c_grammar.specs.Program.{Stack, Body, Want, main_rest, start, w};
ghost use Rattle.c_grammar.specs.Rules.{begin};
ghost use Rattle.c_grammar.specs.Grammar.{Text};
ghost use Rattle.c_grammar.specs.Source.{item_of};
ghost use Rattle.c_source.specs.Source.{items_of, written_out, IsFirstFault, Spells as SpellsText};
ghost use Rattle.c_tokens.specs.Text.{tokens_of};
ghost use Rattle.c_terminals.specs.Held.{written_all};
ghost use Rattle.c_grammar.specs.Terminal.{End};
ghost use Rattle.c_expressions.specs.Cursor.{items};
ghost use Rattle.c_expressions.specs.Reading.{run, terminals, Outcome};
ghost use Rattle.c_expressions.specs.Scopes.{context_of, names_of};
ghost use Rattle.c_statements.specs.Blocks.{turned};
ghost use Rattle.c_statements.specs.Loops.{IsGone};
ghost use Rattle.c_statements.specs.Simple.{env_of};
ghost use Rattle.c_grammar.specs.Rules.{opened};
ghost use Rattle.c_read.specs.Parts.{pieces_of, AreLongest};
ghost use Rattle.c_read.specs.Read.{AreInnerRead, IsOutside};
ghost use Rattle.c_read.specs.Spells.{main_tokens, IsTextRead, Spells, OnText};
ghost use Rattle.c_read.specs.Starts.{IsStart};

use crate::boxes::boxes;
use crate::globals::globals;
use crate::parts::gather;
use crate::written::source_written;
use base::fault::{ReadCode, ReadFault, TextFault};
use base::tree::{Part, Program};
use c_expressions::{Cursor, Frame, ReadError, Scope};
use c_statements::open_body;
use c_terminals::Written;
use c_tokens::Sign;
use c_tokens::limits::MAX_SOURCE;
use directives::Word;
use std::alloc::{AllocError, Global};

/// The words of `main`, up to its brace.
#[tactic(auto, using(c_expressions::proofs::Outcomes::on_from, crate::proofs::Programs::gone_six))]
fn main_head<'a>(scope: &mut Scope<'a>, tokens: &mut Cursor<'a, '_>) -> Result<(), ReadError>
    ensures read { (s : Stack) → Outcome result (run (context_of scope.old 0 0) (w Int ∷ main_rest s) (items tokens.old))
        (run (context_of scope.new 0 0) (Body ∷ Want End (for Plain) ∷ s) (items tokens.new)) }
    ensures opened { OnOk result (context_of scope.new 0 0 ≡ opened (turned None scope.old)) }
    ensures names { OnOk result (names_of scope.new ≡ names_of scope.old) }
    ensures next { OnOk result (scope.new.scalars ≡ scope.old.scalars) }
    ensures gone { OnOk result (IsGone main_tokens (items tokens.old) (items tokens.new)) }
{
    tokens.expect_word(Word::Int)?;
    tokens.expect_word(Word::Main)?;
    tokens.expect(Sign::OpenParen)?;
    tokens.expect_word(Word::Void)?;
    tokens.expect(Sign::CloseParen)?;
    open_body(scope, tokens, None)?;
    Ok(())
}

/// The parts of `main` behind its brace, and the end of the source.
#[tactic(auto, using(c_expressions::proofs::Outcomes::on_from))]
fn main_parts<'a>(
    scope: &mut Scope<'a>,
    tokens: &mut Cursor<'a, '_>,
) -> Result<Vec<Part>, ReadError>
    requires { IsOutside scope.old }
    ensures read { Outcome result (run (context_of scope.old 0 0) (Body ∷ Want End (for Plain) ∷ [])
        (items tokens.old)) None }
    ensures tree { IfOk result (λ v. AreInnerRead (env_of scope.old) scope.new.scalars (items tokens.old)
        (items tokens.new) (pieces_of v.items)) }
    ensures longest { IfOk result (λ v. AreLongest false v.items) }
    ensures over { OnOk result (terminals (items tokens.new) ≡ End ∷ []) }
{
    let gathered = gather(scope, tokens)?;
    tokens.end()?;
    let parts = gathered.parts()?;
    Ok(parts)
}

/// The whole source.
#[tactic(auto, using(c_expressions::proofs::Outcomes::on_from, crate::proofs::Programs::main_outside, crate::proofs::Programs::read_text))]
fn program<'a>(scope: &mut Scope<'a>, tokens: &mut Cursor<'a, '_>) -> Result<Program, ReadError>
    requires fresh { IsStart scope.old }
    requires text { AreAscii (terminals (items tokens.old)) }
    ensures read { Outcome result (run begin start (items tokens.old)) None }
    ensures tree { IfOk result (λ p. IsTextRead (items tokens.old) p) }
{
    let mut arrays = globals(scope, tokens)?;
    boxes(scope, tokens, &mut arrays)?;
    main_head(scope, tokens)?;
    let body = main_parts(scope, tokens)?;
    Ok(Program {
        arrays,
        scalars: scope.scalars,
        body,
    })
}

/// What is known before the first token.
#[tactic(auto, using(crate::proofs::Programs::start_is))]
fn new_scope<'a>(alloc: Global) -> Result<Scope<'a>, AllocError>
    ensures { IfOk result (λ s. IsStart s) }
{
    let mut frames = Vec::new(alloc);
    frames.push(Frame {
        names: Vec::new(alloc),
        inside: false,
        choice: false,
    })?;
    Ok(Scope {
        alloc,
        frames,
        boxes: Vec::new(alloc),
        fresh: None,
        target: false,
        choice: false,
        limit: 0,
        cells: 0,
        arrays: 0,
        scalars: 0,
        statements: 0,
    })
}

/// The tokens of a source, which are written out.
fn source_tokens<'a, 'l>(bytes: &[u8], written: &'l [Written<'a>]) -> Cursor<'a, 'l>
    requires { written_all written.now ≡ written_out (map (item_of bytes.now) (tokens_of bytes.now)) }
    ensures { items result ≡ items_of bytes.now }
{
    Cursor::new(bytes, written)
}

/// The program of a source that is not too long.
#[tactic(auto, using(c_source::proofs::Written::names_are_ascii))]
fn read_short(alloc: Global, bytes: &[u8]) -> Result<Program, ReadError>
    ensures read { Outcome result (run begin start (items_of bytes.now)) None }
    ensures tree { IfOk result (λ p. IsTextRead (items_of bytes.now) p) }
{
    let written = source_written(alloc, bytes)?;
    let mut tokens = source_tokens(bytes, &written);
    let mut scope = new_scope(alloc)?;
    let program = program(&mut scope, &mut tokens)?;
    Ok(program)
}

/// Reads a source of the language. Places count bytes from 1. A fault is the first in the source, the lowest code at
/// its token; a source of more than 1,048,576 bytes has `TooMany` at its first byte. Want of memory comes in place of
/// any answer. No array of the program has more than 65,536 cells.
#[tactic(auto, using(crate::proofs::Answered::spells, crate::proofs::Answered::is_first, crate::proofs::Answered::is_none, crate::proofs::Answered::no_text, crate::proofs::Answered::too_long_first, crate::proofs::Answered::too_long_none, crate::proofs::Answered::too_long_no_text))]
pub fn read_program(alloc: Global, bytes: &[u8]) -> Result<Program, ReadFault>
    ensures found { IfOk result (λ p. Spells bytes.now p) }
    ensures fault { IfErr result (OnText (λ f. IsFirstFault bytes.now f)) }
    ensures refused { IfErr result (OnText (λ _. (p : Program) → Spells bytes.now p → ⊥)) }
    ensures unspelled { IfErr result (OnText (λ _. (t : Text) → SpellsText bytes.now t → ⊥)) }
{
    if bytes.len() > MAX_SOURCE {
        return Err(ReadFault::Text(TextFault {
            code: ReadCode::TooMany,
            line: 1,
            column: 1,
        }));
    }
    match read_short(alloc, bytes) {
        Ok(program) => Ok(program),
        Err(ReadError::Memory) => Err(ReadFault::OutOfMemory),
        Err(ReadError::Fault(fault)) => Err(ReadFault::Text(fault)),
    }
}
