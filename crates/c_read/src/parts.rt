//! What stands in `main`: statements, blocks, loops and directives, outside targets and ifs.

ghost use Rattle.std.specs.Prelude.{◌≡◌, ◌∷◌, ◌||◌, OnOk, IfOk, true, false};
ghost use Rattle.c_tokens.specs.declared.kind.Sign.TheVariants as sign;
ghost use Rattle.c_grammar.specs.Lexeme.{For};
ghost use Rattle.c_grammar.specs.Terminal.{Fixed, Mark, same};
ghost use Rattle.c_grammar.specs.Grammar.{Starts, StartsBlock, for};
ghost use Rattle.c_grammar.specs.Program.{Stack, Body, Under, loop};
ghost use Rattle.c_expressions.specs.Cursor.{items, first_item};
ghost use Rattle.c_expressions.specs.Reading.{run, took, is_directive, Outcome};
ghost use Rattle.c_expressions.specs.Scopes.{context_of};
ghost use Rattle.c_statements.specs.Bodies.{IsSameBlock, IsLeft};
ghost use Rattle.c_constructs.specs.LineMeaning.{depth_over};
ghost use Rattle.c_statements.specs.Simple.{env_of, is_atomic_line};
ghost use Rattle.c_read.specs.Gathering.{so_far, IsGathered, IsNoHost};
ghost use Rattle.c_read.specs.Parts.{AreLongest};
ghost use Rattle.c_read.specs.declared.piece.Piece.TheVariants as piece;
ghost use Rattle.c_read.specs.Read.{AreDataRead, AreInnerRead, HasBegun, IsLoopRead, IsOutside, IsOverNext, IsOverRead, IsPieceRead};

use crate::gathered::Gathered;
use crate::piece::Piece;
use crate::plain::plain;
use crate::region::region;
use crate::wrap::{alone, block_of, loop_of};
use base::fault::ReadCode;
use base::tree::Part;
use c_constructs::{Construct, Resolved, directive};
use c_expressions::{Cursor, ReadError, Scope, Turn};
use c_statements::{
    at_atomic, atomic_update, begin_block, begin_loop, bounds, close_body, head_name, loops_around,
    open_body,
};
use c_tokens::Sign;
use directives::Word;

/// The statement or part that stands next.
#[cycle(piece)]
#[tactic(auto, using(c_expressions::proofs::Outcomes::on_from, c_statements::proofs::Begins::at_loop, c_statements::proofs::Begins::at_block, crate::proofs::Pieces::read_statement))]
fn piece<'a>(scope: &mut Scope<'a>, tokens: &mut Cursor<'a, '_>) -> Result<Piece, ReadError>
    requires outside { IsOutside scope.old }
    requires goes_on { same (Mark sign.CloseBrace) (first_item tokens.old).terminal ≡ false }
    ensures read { (s : Stack) → Outcome result (run (context_of scope.old 0 0) (Body ∷ s) (items tokens.old))
        (run (context_of scope.new 0 0) (Body ∷ s) (items tokens.new)) }
    ensures scope { OnOk result (IsSameBlock scope.old scope.new) }
    ensures tree { IfOk result (λ p. IsPieceRead (env_of scope.old) (env_of scope.new) (items tokens.old)
        (items tokens.new) p) }
    ensures mixed { IfOk result IsNoHost }
{
    if at_atomic(tokens) {
        return atomic_update(scope, tokens).map(Piece::Statement);
    }
    if tokens.at_directive() {
        return directed(scope, tokens).map(Piece::Part);
    }
    if tokens.at_word(Word::For) {
        return looped(scope, tokens);
    }
    if tokens.at(Sign::OpenBrace) {
        return blocked(scope, tokens);
    }
    plain(scope, tokens).map(Piece::Statement)
}

/// The loop whose word stands next.
#[cycle(piece)]
#[tactic(auto, using(c_expressions::proofs::Outcomes::on_from))]
fn looped<'a>(scope: &mut Scope<'a>, tokens: &mut Cursor<'a, '_>) -> Result<Piece, ReadError>
    requires outside { IsOutside scope.old }
    requires word { (first_item tokens.old).terminal ≡ Fixed For }
    ensures read { (s : Stack) → Outcome result (took (context_of scope.old 0 0) (for Starts) (loop 0 s)
        (items tokens.old)) (run (context_of scope.new 0 0) s (items tokens.new)) }
    ensures scope { OnOk result (IsSameBlock scope.old scope.new) }
    ensures tree { IfOk result (λ p. IsPieceRead (env_of scope.old) (env_of scope.new) (items tokens.old)
        (items tokens.new) p) }
    ensures mixed { IfOk result IsNoHost }
{
    begin_loop(scope, tokens)?;
    let turns = turns(scope, tokens)?;
    Ok(turns)
}

/// A loop behind its word.
#[cycle(piece)]
#[tactic(auto, using(c_expressions::proofs::Outcomes::on_from))]
fn turns<'a>(scope: &mut Scope<'a>, tokens: &mut Cursor<'a, '_>) -> Result<Piece, ReadError>
    requires outside { IsOutside scope.old }
    requires begun { HasBegun scope.old }
    ensures read { (s : Stack) → Outcome result (run (context_of scope.old 0 0) (loop 0 s) (items tokens.old))
        (run (context_of scope.new 0 0) s (items tokens.new)) }
    ensures scope { OnOk result (IsSameBlock scope.old scope.new) }
    ensures tree { IfOk result (λ p. IsLoopRead (env_of scope.old) (env_of scope.new) (items tokens.old)
        (items tokens.new) p) }
    ensures mixed { IfOk result IsNoHost }
{
    let name = head_name(scope, tokens)?;
    let bounds = bounds(scope, tokens, name)?;
    let level = loops_around(scope);
    open_body(scope, tokens, Some(Turn { name, level }))?;
    let gathered = gather(scope, tokens)?;
    let turns = loop_of(bounds, gathered)?;
    Ok(turns)
}

/// The block whose brace stands next.
#[cycle(piece)]
#[tactic(auto, using(c_expressions::proofs::Outcomes::on_from))]
fn blocked<'a>(scope: &mut Scope<'a>, tokens: &mut Cursor<'a, '_>) -> Result<Piece, ReadError>
    requires outside { IsOutside scope.old }
    requires opening { (first_item tokens.old).terminal ≡ Mark sign.OpenBrace }
    ensures read { (s : Stack) → Outcome result (took (context_of scope.old 0 0) (for StartsBlock) (Body ∷ s)
        (items tokens.old)) (run (context_of scope.new 0 0) s (items tokens.new)) }
    ensures scope { OnOk result (IsSameBlock scope.old scope.new) }
    ensures tree { IfOk result (λ p. IsPieceRead (env_of scope.old) (env_of scope.new) (items tokens.old)
        (items tokens.new) p) }
    ensures mixed { IfOk result IsNoHost }
{
    begin_block(scope, tokens)?;
    let gathered = gather(scope, tokens)?;
    let block = block_of(gathered)?;
    Ok(block)
}

/// The part of the directive whose line stands next, which is no atomic update.
#[cycle(piece)]
#[tactic(auto, using(c_expressions::proofs::Outcomes::on_from, crate::proofs::Directed::directive_comes, crate::proofs::Directed::no_update))]
fn directed<'a>(scope: &mut Scope<'a>, tokens: &mut Cursor<'a, '_>) -> Result<Part, ReadError>
    requires outside { IsOutside scope.old }
    requires line { is_directive (first_item tokens.old).terminal ≡ true }
    requires apart { is_atomic_line (first_item tokens.old).terminal ≡ false }
    ensures read { (s : Stack) → Outcome result (run (context_of scope.old 0 0) (Body ∷ s) (items tokens.old))
        (run (context_of scope.new 0 0) (Body ∷ s) (items tokens.new)) }
    ensures scope { OnOk result (IsSameBlock scope.old scope.new) }
    ensures tree { IfOk result (λ p. IsPieceRead (env_of scope.old) (env_of scope.new) (items tokens.old)
        (items tokens.new) (piece.Part p)) }
    ensures mixed { IfOk result (λ p. IsNoHost (piece.Part p)) }
{
    let resolved = directive(scope, tokens)?;
    match resolved {
        Resolved::Alone(place, directive) => Ok(Part::Alone(place, directive)),
        Resolved::Over(construct) => {
            let part = over(scope, tokens, construct)?;
            Ok(part)
        }
        Resolved::Atomic => unreachable!(),
    }
}

/// The part of a directive behind its line, which a block or loop must follow.
#[cycle(piece)]
#[tactic(auto, using(c_expressions::proofs::Outcomes::on_from))]
fn over<'a>(
    scope: &mut Scope<'a>,
    tokens: &mut Cursor<'a, '_>,
    construct: Construct,
) -> Result<Part, ReadError>
    requires { IsOverNext construct scope.old }
    ensures read { (s : Stack) → Outcome result (run (context_of scope.old 0 0) (Under (depth_over construct) ∷ s)
        (items tokens.old)) (run (context_of scope.new 0 0) s (items tokens.new)) }
    ensures scope { OnOk result (IsSameBlock scope.old scope.new) }
    ensures target { OnOk result (scope.new.target ≡ false) }
    ensures tree { IfOk result (λ p. IsOverRead (env_of scope.old) (env_of scope.new) construct (items tokens.old)
        (items tokens.new) p) }
{
    match construct {
        Construct::Target(target, depth) => {
            let region = region(scope, tokens, depth)?;
            Ok(Part::Target(target, region))
        }
        Construct::Data(data) => {
            let parts = data_parts(scope, tokens)?;
            Ok(Part::Data(data, parts))
        }
    }
}

/// The block or loop that must follow the line of a `target data`.
#[cycle(piece)]
#[tactic(auto, using(c_expressions::proofs::Outcomes::on_from, crate::proofs::Unders::under_brace, crate::proofs::Unders::under_loop, crate::proofs::Unders::stop_under))]
fn data_parts<'a>(
    scope: &mut Scope<'a>,
    tokens: &mut Cursor<'a, '_>,
) -> Result<Vec<Part>, ReadError>
    requires outside { IsOutside scope.old }
    requires begun { HasBegun scope.old }
    ensures read { (s : Stack) → Outcome result (run (context_of scope.old 0 0) (Under 0 ∷ s) (items tokens.old))
        (run (context_of scope.new 0 0) s (items tokens.new)) }
    ensures scope { OnOk result (IsSameBlock scope.old scope.new) }
    ensures tree { IfOk result (λ v. AreDataRead (env_of scope.old) (env_of scope.new) (items tokens.old)
        (items tokens.new) v.items) }
    ensures longest { IfOk result (λ v. AreLongest false v.items) }
    ensures target { OnOk result (scope.new.target ≡ false) }
{
    if tokens.at(Sign::OpenBrace) {
        open_body(scope, tokens, None)?;
        let gathered = gather(scope, tokens)?;
        let parts = gathered.parts()?;
        return Ok(parts);
    }
    if tokens.at_word(Word::For) {
        let place = tokens.place();
        tokens.take();
        let turns = turns(scope, tokens)?;
        let parts = alone(scope.alloc, place, turns)?;
        return Ok(parts);
    }
    Err(ReadError::Fault(tokens.misfit(ReadCode::NoBody)))
}

/// The statements and parts of a block, and the brace that ends it.
#[cycle(piece)]
#[tactic(auto, using(c_expressions::proofs::Outcomes::on_from))]
pub fn gather<'a>(scope: &mut Scope<'a>, tokens: &mut Cursor<'a, '_>) -> Result<Gathered, ReadError>
    requires { IsOutside scope.old }
    ensures read { (s : Stack) → Outcome result (run (context_of scope.old 0 0) (Body ∷ s) (items tokens.old))
        (run (context_of scope.new 0 0) s (items tokens.new)) }
    ensures scope { OnOk result (IsLeft scope.old scope.new) }
    ensures tree { IfOk result (λ g. AreInnerRead (env_of scope.old) scope.new.scalars (items tokens.old)
        (items tokens.new) (so_far g)) }
    ensures sound { IfOk result IsGathered }
{
    let mut gathered = Gathered::new(scope.alloc);
    'pieces: while !tokens.at(Sign::CloseBrace) {
        let place = tokens.place();
        let next = piece(scope, tokens)?;
        gathered.add(place, next)?;
    }
    close_body(scope, tokens);
    Ok(gathered)
}
