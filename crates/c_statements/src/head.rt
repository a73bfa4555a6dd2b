//! The heads of loops.

ghost use Rattle.std.specs.Prelude.{ℕ, ◌≡◌, ◌≤◌, ◌+◌, ◌^◌, ◌∷◌, [], length, IfOk, Some, None};
ghost use Rattle.c_tokens.specs.declared.kind.Sign.TheVariants as sign;
ghost use Rattle.c_grammar.specs.Lexeme.{Uint64};
ghost use Rattle.c_grammar.specs.Terminal.{Fixed, Mark, Name, Num};
ghost use Rattle.c_grammar.specs.Grammar.{Plain, Limit, Step, Opens, for};
ghost use Rattle.c_grammar.specs.Rules.{Context, out, is_visible, sort_of};
ghost use Rattle.c_grammar.specs.Program.{Stack, Want, WantNum, Turn, m, head_of, loop, loop_body};
ghost use Rattle.c_expressions.specs.Cursor.{items};
ghost use Rattle.c_expressions.specs.Reading.{run, Outcome, OutcomeBy};
ghost use Rattle.c_expressions.specs.Scopes.{context_of, limited};
ghost use Rattle.c_tokens.specs.declared.limits.TheConstants.{MAX_NAME};
ghost use Rattle.c_statements.specs.Loops.{waiting, with_limit, IsGone, bounds_tokens};

use base::fault::ReadCode;
use base::tree::Bounds;
use c_expressions::{Cursor, ReadError, Scope, Terminal};
use c_tokens::Sign;
use c_tokens::limits::MAX_NAME;
use directives::Word;

/// Whether a name is declared.
pub fn is_visible(scope: &Scope<'_>, name: &[u8]) -> bool
    ensures { result ≡ is_visible (sort_of (context_of scope.now 0 0) name.now) }
{
    let meant = scope.meaning(name);
    meant.is_some()
}

/// The name of a loop, where it is declared.
#[tactic(auto, using(crate::proofs::Heads::bad_turn, crate::proofs::Heads::long_turn, crate::proofs::Heads::go_turn, crate::proofs::Heads::stop_turn, crate::proofs::Heads::gone_one))]
fn turn_name<'a>(scope: &Scope<'_>, tokens: &mut Cursor<'a, '_>) -> Result<&'a [u8], ReadError>
    ensures read { (d : ℕ) (s : Stack) → OutcomeBy result (run (context_of scope.now 0 0) (Turn d ∷ s) (items tokens.old))
        (λ x. run (waiting x.now (context_of scope.now 0 0)) (head_of x.now (loop_body d s)) (items tokens.new)) }
    ensures short { IfOk result (λ x. length x.now ≤ MAX_NAME) }
    ensures gone { IfOk result (λ x. IsGone (Name x.now ∷ []) (items tokens.old) (items tokens.new)) }
{
    match tokens.peek() {
        Terminal::Name(name) => {
            if is_visible(scope, name) {
                return Err(ReadError::Fault(tokens.fault(ReadCode::AlreadyDeclared)));
            }
            if name.len() > MAX_NAME {
                return Err(ReadError::Fault(tokens.fault(ReadCode::TooMany)));
            }
            tokens.take();
            Ok(name)
        }
        _ => Err(ReadError::Fault(tokens.refuse())),
    }
}

/// The first value of a loop.
#[tactic(auto, using(c_expressions::proofs::Outcomes::on_from, crate::proofs::Heads::gone_three))]
fn initial(tokens: &mut Cursor<'_, '_>) -> Result<u64, ReadError>
    ensures read { (c : Context) (s : Stack) → Outcome result
        (run c (m sign.Equal ∷ WantNum Plain ∷ m sign.Semicolon ∷ s) (items tokens.old))
        (run (out c) s (items tokens.new)) }
    ensures gone { IfOk result (λ n. IsGone (Mark sign.Equal ∷ Num (Some n) ∷ Mark sign.Semicolon ∷ [])
        (items tokens.old) (items tokens.new)) }
{
    tokens.expect(Sign::Equal)?;
    let first = tokens.number()?;
    tokens.expect(Sign::Semicolon)?;
    Ok(first)
}

/// The value at which the loop of that name ends.
#[tactic(auto, using(c_expressions::proofs::Outcomes::on_from_by, crate::proofs::Heads::gone_four))]
fn limit(tokens: &mut Cursor<'_, '_>, name: &[u8]) -> Result<u64, ReadError>
    requires { length name.now ≤ MAX_NAME }
    ensures read { (c : Context) (s : Stack) → OutcomeBy result
        (run c (Want (Name name.now) (for Plain) ∷ m sign.Less ∷ WantNum Limit ∷ m sign.Semicolon ∷ s)
        (items tokens.old)) (λ n. run (limited n c) s (items tokens.new)) }
    ensures gone { IfOk result (λ n. IsGone (Name name.now ∷ Mark sign.Less ∷ Num (Some n) ∷ Mark sign.Semicolon ∷
        []) (items tokens.old) (items tokens.new)) }
{
    tokens.expect_name(name)?;
    tokens.expect(Sign::Less)?;
    let limit = tokens.limit()?;
    tokens.expect(Sign::Semicolon)?;
    Ok(limit)
}

/// The step of the loop of that name and limit.
#[tactic(auto, using(c_expressions::proofs::Outcomes::on_from, crate::proofs::Heads::gone_four))]
fn stride(tokens: &mut Cursor<'_, '_>, name: &[u8], limit: u64) -> Result<u64, ReadError>
    requires { length name.now ≤ MAX_NAME }
    ensures read { (c : Context) (s : Stack) → Outcome result
        (run (limited limit c) (Want (Name name.now) (for Plain) ∷ m sign.PlusEqual ∷ WantNum Step ∷
        m sign.CloseParen ∷ s) (items tokens.old)) (run (limited limit c) s (items tokens.new)) }
    ensures sound { IfOk result (λ n. (1 ≤ n) × (limit + n ≤ 2 ^ 64)) }
    ensures gone { IfOk result (λ n. IsGone (Name name.now ∷ Mark sign.PlusEqual ∷ Num (Some n) ∷
        Mark sign.CloseParen ∷ []) (items tokens.old) (items tokens.new)) }
{
    tokens.expect_name(name)?;
    tokens.expect(Sign::PlusEqual)?;
    let step = tokens.step(limit)?;
    tokens.expect(Sign::CloseParen)?;
    Ok(step)
}

/// The head of a loop behind its name's first place.
#[tactic(auto, using(c_expressions::proofs::Outcomes::on_from, c_expressions::proofs::Outcomes::on_from_by, crate::proofs::Heads::gone_bounds))]
pub fn bounds(
    scope: &mut Scope<'_>,
    tokens: &mut Cursor<'_, '_>,
    name: &[u8],
) -> Result<Bounds, ReadError>
    requires { length name.now ≤ MAX_NAME }
    ensures read { (s : Stack) → Outcome result (run (waiting name.now (context_of scope.old 0 0))
        (head_of name.now s) (items tokens.old)) (run (waiting name.now (context_of scope.new 0 0)) s
        (items tokens.new)) }
    ensures scope { IfOk result (λ b. scope.new ≡ with_limit scope.old b.end) }
    ensures gone { IfOk result (λ b. IsGone (bounds_tokens name.now b) (items tokens.old) (items tokens.new)) }
{
    let first = initial(tokens)?;
    let end = limit(tokens, name)?;
    let step = stride(tokens, name, end)?;
    scope.limit = end;
    Ok(Bounds { first, end, step })
}

/// The head of a loop behind its word, up to its name.
#[tactic(auto, using(c_expressions::proofs::Outcomes::on_from_by, crate::proofs::Heads::gone_head))]
pub fn head_name<'a>(scope: &Scope<'_>, tokens: &mut Cursor<'a, '_>) -> Result<&'a [u8], ReadError>
    ensures read { (d : ℕ) (s : Stack) → OutcomeBy result (run (context_of scope.now 0 0) (loop d s) (items tokens.old))
        (λ x. run (waiting x.now (context_of scope.now 0 0)) (head_of x.now (loop_body d s)) (items tokens.new)) }
    ensures short { IfOk result (λ x. length x.now ≤ MAX_NAME) }
    ensures gone { IfOk result (λ x. IsGone (Mark sign.OpenParen ∷ Fixed Uint64 ∷ Name x.now ∷ [])
        (items tokens.old) (items tokens.new)) }
{
    tokens.expect(Sign::OpenParen)?;
    tokens.expect_word(Word::Uint64)?;
    turn_name(scope, tokens)
}
