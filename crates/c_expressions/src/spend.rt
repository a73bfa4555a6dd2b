//! The tokens of an expression, one by one.

use crate::cursor::Cursor;
use crate::fault::ReadError;
use crate::scope::{Meaning, Scope};
use base::fault::ReadCode;
use base::tree::{Divisor, ShiftCount};
use c_tokens::Sign;
use c_tokens::limits::{MAX_BRACKETS, MAX_NAME, MAX_TOKENS};

/// By how many bits a number is shifted at most.
const MAX_SHIFT: u64 = 63;

/// How far an expression is read.
#[derive(Clone, Copy)]
pub struct Tally {
    /// Its tokens so far.
    pub tokens: u32,
    /// How tight an operator that stands next may bind.
    pub top: u8,
}

impl Tally {
    ghost use Rattle.std.specs.Prelude.{◌≡◌};

    /// Before the first token.
    pub fn new() -> Tally
        ensures { result.tokens ≡ 0 }
    {
        Tally { tokens: 0, top: 9 }
    }
}

impl Scope<'_> {
    ghost use Rattle.std.specs.Prelude.{◌≡◌, ◌<◌, ◌≤◌, ◌+◌, ◌∷◌, ℕ, OnOk, IfOk, IfSome, IsSome, is_some, Some, None};
    ghost use Rattle.base.specs.declared.tree.ShiftOp.{ShiftOp};
    ghost use Rattle.base.specs.declared.tree.DivideOp.{DivideOp};
    ghost use Rattle.c_tokens.specs.declared.kind.Sign.TheVariants as sign;
    ghost use Rattle.c_grammar.specs.Terminal.{Mark, Name, Num, same};
    ghost use Rattle.c_grammar.specs.Grammar.{Inner, Operand, OpensBracket, ClosesBracket, for};
    ghost use Rattle.c_grammar.specs.Rules.{sort_of};
    ghost use Rattle.c_grammar.specs.Program.{Stack, Want, Fractional};
    ghost use Rattle.c_tokens.specs.declared.limits.TheConstants.{MAX_BRACKETS, MAX_TOKENS};
    ghost use Rattle.c_expressions.specs.Means.{meaning_of, shift_of, divide_of};
    ghost use Rattle.c_expressions.specs.Cursor.{items, first_item, behind};
    ghost use Rattle.c_expressions.specs.Reading.{run, took, Outcome, IsSound};
    ghost use Rattle.c_expressions.specs.Scopes.{context_of, names_of, is_operand, is_array_meaning};
    ghost use Rattle.c_expressions.specs.Trees.{IsOneMore};

    /// Goes past a number or a sign of an expression.
    #[tactic(auto, using(crate::proofs::Spending::many_inner, crate::proofs::Spending::go_inner))]
    pub fn spend(&self, tokens: &mut Cursor<'_, '_>, tally: &mut Tally) -> Result<(), ReadError>
        requires { IsSound (first_item tokens.old).terminal }
        ensures read { (d : ℕ) (s : Stack) → Outcome result
            (took (context_of self.now d tally.old.tokens) (for Inner) s (items tokens.old))
            (run (context_of self.now d tally.new.tokens) s (items tokens.new)) }
        ensures taken { OnOk result (behind tokens.old ≡ items tokens.new) }
        ensures tally { OnOk result (IsOneMore tally.old tally.new) }
    {
        if tally.tokens >= MAX_TOKENS {
            return Err(ReadError::Fault(tokens.fault(ReadCode::TooMany)));
        }
        tokens.take();
        tally.tokens += 1;
        Ok(())
    }

    /// Goes past a divisor.
    pub fn divisor(
        &self,
        tokens: &mut Cursor<'_, '_>,
        tally: &mut Tally,
    ) -> Result<Divisor, ReadError>
        ensures read { (d : ℕ) (o : DivideOp) (s : Stack) →
            Outcome result (run (context_of self.now d tally.old.tokens) (Fractional (divide_of o) ∷ s)
            (items tokens.old)) (run (context_of self.now d tally.new.tokens) s (items tokens.new)) }
        ensures first { IfOk result (λ n. (first_item tokens.old).terminal ≡ Num (Some n.value)) }
        ensures taken { OnOk result (behind tokens.old ≡ items tokens.new) }
        ensures tally { OnOk result (IsOneMore tally.old tally.new) }
    {
        let value = tokens.right_number()?;
        if value == 0 {
            return Err(ReadError::Fault(tokens.fault(ReadCode::BadOperand)));
        }
        if tally.tokens >= MAX_TOKENS {
            return Err(ReadError::Fault(tokens.fault(ReadCode::TooMany)));
        }
        tokens.take();
        tally.tokens += 1;
        Ok(Divisor { value })
    }

    /// Goes past a shift count.
    #[tactic(auto, using(crate::proofs::Fractions::large_count, crate::proofs::Fractions::many_count, crate::proofs::Fractions::go_count))]
    pub fn shift_count(
        &self,
        tokens: &mut Cursor<'_, '_>,
        tally: &mut Tally,
    ) -> Result<ShiftCount, ReadError>
        ensures read { (d : ℕ) (o : ShiftOp) (s : Stack) →
            Outcome result (run (context_of self.now d tally.old.tokens) (Fractional (shift_of o) ∷ s)
            (items tokens.old)) (run (context_of self.now d tally.new.tokens) s (items tokens.new)) }
        ensures first { IfOk result (λ n. (first_item tokens.old).terminal ≡ Num (Some n.count)) }
        ensures taken { OnOk result (behind tokens.old ≡ items tokens.new) }
        ensures tally { OnOk result (IsOneMore tally.old tally.new) }
    {
        let count = tokens.right_number()?;
        if count > MAX_SHIFT {
            return Err(ReadError::Fault(tokens.fault(ReadCode::BadOperand)));
        }
        if tally.tokens >= MAX_TOKENS {
            return Err(ReadError::Fault(tokens.fault(ReadCode::TooMany)));
        }
        tokens.take();
        tally.tokens += 1;
        Ok(ShiftCount { count: count as u8 })
    }

    /// Goes past the bracket that stands next.
    #[tactic(auto, using(crate::proofs::Spending::too_deep, crate::proofs::Spending::many_open, crate::proofs::Spending::go_open))]
    pub fn open_bracket(
        &self,
        tokens: &mut Cursor<'_, '_>,
        tally: &mut Tally,
        depth: u32,
        opening: Sign,
    ) -> Result<(), ReadError>
        requires { (first_item tokens.old).terminal ≡ Mark opening }
        ensures read { (s : Stack) → Outcome result (took (context_of self.now depth tally.old.tokens)
            (for OpensBracket) s (items tokens.old)) (run (context_of self.now (depth + 1) tally.new.tokens) s
            (items tokens.new)) }
        ensures deep { OnOk result (depth < MAX_BRACKETS) }
        ensures taken { OnOk result (behind tokens.old ≡ items tokens.new) }
        ensures tally { OnOk result (IsOneMore tally.old tally.new) }
    {
        if depth >= MAX_BRACKETS {
            return Err(ReadError::Fault(tokens.fault(ReadCode::TooDeep)));
        }
        if tally.tokens >= MAX_TOKENS {
            return Err(ReadError::Fault(tokens.fault(ReadCode::TooMany)));
        }
        tokens.take();
        tally.tokens += 1;
        Ok(())
    }

    /// Goes past that sign, which ends a bracket. Any operator may follow it.
    #[tactic(auto, using(crate::proofs::Going::stop_want, crate::proofs::Spending::many_close, crate::proofs::Spending::go_close, crate::proofs::Going::was_mark))]
    pub fn close_bracket(
        &self,
        tokens: &mut Cursor<'_, '_>,
        tally: &mut Tally,
        closing: Sign,
    ) -> Result<(), ReadError>
        ensures read { (d : ℕ) (s : Stack) → Outcome result
            (run (context_of self.now (d + 1) tally.old.tokens) (Want (Mark closing) (for ClosesBracket) ∷ s)
            (items tokens.old)) (run (context_of self.now d tally.new.tokens) s (items tokens.new)) }
        ensures first { OnOk result ((first_item tokens.old).terminal ≡ Mark closing) }
        ensures taken { OnOk result (behind tokens.old ≡ items tokens.new) }
        ensures tally { OnOk result (IsOneMore tally.old tally.new) }
    {
        if !tokens.at(closing) {
            return Err(ReadError::Fault(tokens.refuse()));
        }
        if tally.tokens >= MAX_TOKENS {
            return Err(ReadError::Fault(tokens.fault(ReadCode::TooMany)));
        }
        tokens.take();
        tally.tokens += 1;
        Ok(())
    }

    /// What a name means that may be an operand: that of an array where a bracket follows, else that of a scalar
    /// or loop.
    fn operand_meaning(&self, name: &[u8], is_cell: bool) -> Option<Meaning>
        ensures sort { (d n : ℕ) → is_operand is_cell (sort_of (context_of self.now d n) name.now) ≡ is_some result }
        ensures means { IfSome result (λ m. (meaning_of (names_of self.now) name.now ≡ Some m) ×
            (is_array_meaning m ≡ is_cell)) }
    {
        let meaning = self.meaning(name)?;
        let is_array = match meaning {
            Meaning::Array(_) => true,
            Meaning::Scalar(_, _) | Meaning::Boxed(_, _) | Meaning::Loop(_) => false,
        };
        if is_array == is_cell {
            Some(meaning)
        } else {
            None
        }
    }

    /// Goes past the name that stands next: that of an array where a bracket follows, else that of a scalar or loop.
    pub fn operand_name(
        &self,
        tokens: &mut Cursor<'_, '_>,
        tally: &mut Tally,
        name: &[u8],
    ) -> Result<Meaning, ReadError>
        requires { (first_item tokens.old).terminal ≡ Name name.now }
        ensures read { (d : ℕ) (s : Stack) → Outcome result
            (took (context_of self.now d tally.old.tokens) (for Operand) s (items tokens.old))
            (run (context_of self.now d tally.new.tokens) s (items tokens.new)) }
        ensures next { IfOk result (λ m. same (Mark sign.OpenBracket) (first_item tokens.new).terminal ≡
            is_array_meaning m) }
        ensures named { IfOk result (λ m. meaning_of (names_of self.now) name.now ≡ Some m) }
        ensures taken { OnOk result (behind tokens.old ≡ items tokens.new) }
        ensures tally { OnOk result (IsOneMore tally.old tally.new) }
    {
        let undeclared = tokens.fault(ReadCode::Undeclared);
        let too_many = tokens.fault(ReadCode::TooMany);
        tokens.take();
        let is_cell = tokens.at(Sign::OpenBracket);
        let Some(meaning) = self.operand_meaning(name, is_cell) else {
            return Err(ReadError::Fault(undeclared));
        };
        if name.len() > MAX_NAME {
            return Err(ReadError::Fault(too_many));
        }
        if tally.tokens >= MAX_TOKENS {
            return Err(ReadError::Fault(too_many));
        }
        tally.tokens += 1;
        Ok(meaning)
    }
}
