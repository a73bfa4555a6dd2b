//! The region of a target.

ghost use Rattle.std.specs.Prelude.{◌≡◌, ◌∷◌, ◌==◌, ◌&&◌, OnOk, IfOk, false};
ghost use Rattle.c_tokens.specs.declared.kind.Sign.TheVariants as sign;
ghost use Rattle.c_grammar.specs.Lexeme.{For};
ghost use Rattle.c_grammar.specs.Terminal.{Fixed, Mark, same};
ghost use Rattle.c_grammar.specs.Grammar.{deeper};
ghost use Rattle.c_grammar.specs.Program.{Stack, Under, loop};
ghost use Rattle.c_expressions.specs.Cursor.{items, first_item, behind};
ghost use Rattle.c_expressions.specs.Means.{place_of};
ghost use Rattle.c_expressions.specs.Reading.{run, Outcome};
ghost use Rattle.c_expressions.specs.Scopes.{context_of};
ghost use Rattle.c_statements.specs.Bodies.{IsSameBlock};
ghost use Rattle.c_statements.specs.Simple.{env_of};
ghost use Rattle.c_read.specs.Parts.{in_target};
ghost use Rattle.c_read.specs.Read.{IsNestRead, IsRegionRead, IsTargetNext};

use crate::nest::nest;
use base::fault::ReadCode;
use base::tree::{Region, Stmt};
use c_expressions::{Cursor, ReadError, Scope};
use c_statements::body;
use c_tokens::Sign;
use directives::Word;

/// Whether the brace of a block stands next, where no nest of loops must come.
fn at_block(tokens: &Cursor<'_, '_>, depth: u8) -> bool
    ensures { result ≡ ((depth == 0) && same (Mark sign.OpenBrace) (first_item tokens.now).terminal) }
{
    depth == 0 && tokens.at(Sign::OpenBrace)
}

/// How many of the loops of a nest stand in its outermost one.
#[tactic(auto, using(crate::proofs::Nests::less_deep, crate::proofs::Nests::not_deep))]
fn deeper(depth: u8) -> u8
    ensures { result ≡ deeper depth }
{
    if depth == 0 {
        return 0;
    }
    depth - 1
}

/// The loop of a target, whose word stands next, with a nest of so many loops in it.
fn target_loop<'a>(
    scope: &mut Scope<'a>,
    tokens: &mut Cursor<'a, '_>,
    depth: u8,
) -> Result<Stmt, ReadError>
    requires target { IsTargetNext scope.old }
    requires word { (first_item tokens.old).terminal ≡ Fixed For }
    ensures read { (s : Stack) → Outcome result (run (context_of scope.old 0 0) (loop depth s) (behind tokens.old))
        (run (context_of scope.new 0 0) s (items tokens.new)) }
    ensures scope { OnOk result (IsSameBlock scope.old scope.new) }
    ensures target { OnOk result (scope.new.target ≡ false) }
    ensures tree { IfOk result (λ x. IsNestRead depth (in_target (env_of scope.old)) (in_target (env_of scope.new))
        (items tokens.old) (items tokens.new) x) }
{
    tokens.take();
    let turns = nest(scope, tokens, depth)?;
    Ok(turns)
}

/// The block or loop that must follow the line of a target, or the nest of so many loops, whose turns may run in any
/// order.
#[tactic(auto, using(c_expressions::proofs::Outcomes::on_from, crate::proofs::Unders::block_under, crate::proofs::Unders::nest_under, crate::proofs::Unders::stop_nest, crate::proofs::Regions::region_block, crate::proofs::Regions::region_loop))]
pub fn region<'a>(
    scope: &mut Scope<'a>,
    tokens: &mut Cursor<'a, '_>,
    depth: u8,
) -> Result<Region, ReadError>
    requires { IsTargetNext scope.old }
    ensures read { (s : Stack) → Outcome result (run (context_of scope.old 0 0) (Under depth ∷ s) (items tokens.old))
        (run (context_of scope.new 0 0) s (items tokens.new)) }
    ensures scope { OnOk result (IsSameBlock scope.old scope.new) }
    ensures target { OnOk result (scope.new.target ≡ false) }
    ensures place { IfOk result (λ r. r.place ≡ place_of (items tokens.old)) }
    ensures depth { IfOk result (λ r. r.depth ≡ depth) }
    ensures tree { IfOk result (λ r. IsRegionRead depth (env_of scope.old) (env_of scope.new) (items tokens.old)
        (items tokens.new) r.body.items) }
{
    let place = tokens.place();
    if at_block(tokens, depth) {
        return body(scope, tokens, None).map(|body| Region { place, body, depth });
    }
    if tokens.at_word(Word::For) {
        let turns = target_loop(scope, tokens, deeper(depth))?;
        let mut body = Vec::new(scope.alloc);
        body.push(turns)?;
        return Ok(Region { place, body, depth });
    }
    Err(ReadError::Fault(tokens.misfit(ReadCode::NoBody)))
}
