//! Numbers.

use crate::cursor::Cursor;
use crate::fault::ReadError;
use crate::terminal::Terminal;
use base::fault::ReadCode;

impl Cursor<'_, '_> {
    ghost use Rattle.std.specs.Prelude.{◌≡◌, ◌≤◌, ◌+◌, ◌^◌, ◌∷◌, OnOk, IfOk, IfErr, Some};
    ghost use Rattle.c_grammar.specs.Terminal.{Num};
    ghost use Rattle.c_grammar.specs.Grammar.{Plain, Limit, Step, Fraction};
    ghost use Rattle.c_grammar.specs.Rules.{Context, out};
    ghost use Rattle.c_grammar.specs.Program.{Stack, WantNum, Fractional};
    ghost use Rattle.c_expressions.specs.Cursor.{items, first_item, behind};
    ghost use Rattle.c_expressions.specs.Scopes.{limited};
    ghost use Rattle.c_expressions.specs.Reading.{run, Outcome, OutcomeBy, Failed};

    /// Goes past a number.
    #[tactic(auto, using(crate::proofs::Numbers::go_number))]
    pub fn number(&mut self) -> Result<u64, ReadError>
        ensures read { (c : Context) (s : Stack) → Outcome result (run c (WantNum Plain ∷ s) (items self.old))
            (run (out c) s (items self.new)) }
        ensures first { IfOk result (λ n. (first_item self.old).terminal ≡ Num (Some n)) }
        ensures taken { OnOk result (behind self.old ≡ items self.new) }
    {
        let number = self.literal()?;
        self.take();
        Ok(number)
    }

    /// Goes past the limit of a loop.
    #[tactic(auto, using(crate::proofs::Numbers::go_limit))]
    pub fn limit(&mut self) -> Result<u64, ReadError>
        ensures read { (c : Context) (s : Stack) → OutcomeBy result (run c (WantNum Limit ∷ s) (items self.old))
            (λ n. run (limited n c) s (items self.new)) }
        ensures first { IfOk result (λ n. (first_item self.old).terminal ≡ Num (Some n)) }
        ensures taken { OnOk result (behind self.old ≡ items self.new) }
    {
        let limit = self.literal()?;
        self.take();
        Ok(limit)
    }

    /// Goes past the step of a loop with that limit.
    pub fn step(&mut self, limit: u64) -> Result<u64, ReadError>
        ensures read { (c : Context) (s : Stack) → Outcome result
            (run (limited limit c) (WantNum Step ∷ s) (items self.old)) (run (limited limit c) s (items self.new)) }
        ensures sound { IfOk result (λ n. (1 ≤ n) × (limit + n ≤ 2 ^ 64)) }
        ensures first { IfOk result (λ n. (first_item self.old).terminal ≡ Num (Some n)) }
        ensures taken { OnOk result (behind self.old ≡ items self.new) }
    {
        let step = self.literal()?;
        if step == 0 {
            return Err(ReadError::Fault(self.fault(ReadCode::BadOperand)));
        }
        if limit > u64::MAX - (step - 1) {
            return Err(ReadError::Fault(self.fault(ReadCode::BadOperand)));
        }
        self.take();
        Ok(step)
    }

    /// The number that stands next, behind an operator that takes no other operand.
    #[tactic(auto, using(crate::proofs::Fractions::bad_right_number, crate::proofs::Fractions::stop_right_number))]
    pub fn right_number(&self) -> Result<u64, ReadError>
        ensures number { IfOk result (λ n. (first_item self.now).terminal ≡ Num (Some n)) }
        ensures fault { (op : Fraction) (c : Context) (s : Stack) →
            IfErr result (λ e. Failed e (run c (Fractional op ∷ s) (items self.now))) }
    {
        match self.peek() {
            Terminal::Number(n) => Ok(n),
            Terminal::BadNumber => Err(ReadError::Fault(self.fault(ReadCode::BadNumber))),
            _ => Err(ReadError::Fault(self.misfit(ReadCode::BadOperand))),
        }
    }
}
