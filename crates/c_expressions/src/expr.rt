//! Expressions.

ghost use Rattle.std.specs.Prelude.{◌≡◌, IfOk, IfErr};
ghost use Rattle.c_expressions.specs.declared.fault.ReadError.TheVariants.{Memory};
ghost use Rattle.c_expressions.specs.Signs.{seen_operator};
ghost use Rattle.c_expressions.specs.Trees.{IsUnaryOf, IsCellOf, IsJoinOf, IsShiftOf, IsDivisionOf};

use crate::cursor::Cursor;
use crate::fault::ReadError;
use crate::operators::{Fraction, Infix, Operator};
use crate::scope::{Meaning, Scope};
use crate::spend::Tally;
use crate::terminal::Terminal;
use base::fault::ReadCode;
use base::tree::{ArrayId, DivideOp, Divisor, Expr, Place, ShiftCount, ShiftOp, UnaryOp};
use c_tokens::Sign;

fn unary(scope: &Scope<'_>, op: UnaryOp, inner: Expr) -> Result<Expr, ReadError>
    ensures memory { IfErr result (λ e. e ≡ Memory) }
    ensures made { IfOk result (λ e. IsUnaryOf op inner e) }
{
    Ok(Expr::Unary(op, Box::new(scope.alloc, inner)?))
}

fn cell(scope: &Scope<'_>, array: ArrayId, place: Place, index: Expr) -> Result<Expr, ReadError>
    ensures memory { IfErr result (λ e. e ≡ Memory) }
    ensures made { IfOk result (λ e. IsCellOf array place index e) }
{
    Ok(Expr::Cell(array, place, Box::new(scope.alloc, index)?))
}

fn join(scope: &Scope<'_>, op: Operator, left: Expr, right: Expr) -> Result<Expr, ReadError>
    ensures memory { IfErr result (λ e. e ≡ Memory) }
    ensures made { IfOk result (λ e. IsJoinOf (seen_operator op) left right e) }
{
    let left = Box::new(scope.alloc, left)?;
    let right = Box::new(scope.alloc, right)?;
    Ok(match op {
        Operator::Or => Expr::Or(left, right),
        Operator::And => Expr::And(left, right),
        Operator::Binary(op) => Expr::Binary(op, left, right),
    })
}

fn shift(scope: &Scope<'_>, op: ShiftOp, left: Expr, count: ShiftCount) -> Result<Expr, ReadError>
    ensures memory { IfErr result (λ e. e ≡ Memory) }
    ensures made { IfOk result (λ e. IsShiftOf op left count e) }
{
    Ok(Expr::Shift(op, Box::new(scope.alloc, left)?, count))
}

fn division(
    scope: &Scope<'_>,
    op: DivideOp,
    left: Expr,
    divisor: Divisor,
) -> Result<Expr, ReadError>
    ensures memory { IfErr result (λ e. e ≡ Memory) }
    ensures made { IfOk result (λ e. IsDivisionOf op left divisor e) }
{
    Ok(Expr::Divide(op, Box::new(scope.alloc, left)?, divisor))
}

impl Scope<'_> {
    ghost use Rattle.std.specs.Prelude.{◌≡◌, ◌≢◌, ◌<◌, ◌≤◌, ◌+◌, ◌∷◌, ℕ, Some, None, OnOk, IfOk};
    ghost use Rattle.c_tokens.specs.declared.kind.Sign.{Sign};
    ghost use Rattle.c_tokens.specs.declared.kind.Sign.TheVariants as sign;
    ghost use Rattle.c_grammar.specs.Terminal.{Mark, Name, Num, same};
    ghost use Rattle.c_grammar.specs.Grammar.{Act, OpensBracket, ClosesBracket, for, operator_sign, fraction_sign, prefix_sign, level, fraction_level};
    ghost use Rattle.c_grammar.specs.Program.{Stack, Want, Atom, Tail, m};
    ghost use Rattle.c_tokens.specs.declared.limits.TheConstants.{MAX_BRACKETS, MAX_TOKENS};
    ghost use Rattle.c_expressions.specs.Means.{Items, prefix_of, shift_of, divide_of};
    ghost use Rattle.c_expressions.specs.Cursor.{items, first_item, behind};
    ghost use Rattle.c_expressions.specs.Reading.{run, took, Outcome};
    ghost use Rattle.c_expressions.specs.Scopes.{context_of, names_of};
    ghost use Rattle.c_expressions.specs.Signs.{Stops, infix_level, infix_sign, seen_operator};
    ghost use Rattle.c_expressions.specs.Trees.{IsRead, IsReadBefore, IsTermRead, IsIndexRead, IsFurther};

    /// Operands joined by operators of at least that level.
    #[cycle(expr)]
    #[tactic(auto, using(crate::proofs::Outcomes::on_from))]
    fn chain(
        &self,
        tokens: &mut Cursor<'_, '_>,
        tally: &mut Tally,
        depth: u32,
        least: u8,
    ) -> Result<Expr, ReadError>
        requires depth { depth ≤ MAX_BRACKETS }
        requires level { least ≤ 10 }
        ensures read { (s : Stack) → Outcome result (run (context_of self.now depth tally.old.tokens)
            (Atom ∷ Tail 9 ∷ s) (items tokens.old)) (run (context_of self.now depth tally.new.tokens)
            (Tail tally.new.top ∷ s) (items tokens.new)) }
        ensures tree { IfOk result (λ e. IsRead (names_of self.now) least tally.new.top (items tokens.old)
            (items tokens.new) e) }
        ensures stops { OnOk result (Stops least tally.new.top (first_item tokens.new).terminal) }
        ensures tally { OnOk result (IsFurther tally.old tally.new) }
    {
        let mut left = self.operand(tokens, tally, depth)?;
        tally.top = 9;
        'operators: while let Some(op) = tokens.infix(least, tally.top) {
            left = self.extended(tokens, tally, depth, op, left)?;
        }
        Ok(left)
    }

    /// What is read with the operator that stands next and the operand behind it.
    #[cycle(expr)]
    #[tactic(auto, using(crate::proofs::Outcomes::on_from))]
    fn extended(
        &self,
        tokens: &mut Cursor<'_, '_>,
        tally: &mut Tally,
        depth: u32,
        op: Infix,
        left: Expr,
    ) -> Result<Expr, ReadError>
        requires depth { depth ≤ MAX_BRACKETS }
        requires sign { (first_item tokens.old).terminal ≡ Mark (infix_sign op) }
        requires top { infix_level op ≤ tally.old.top }
        ensures read { (s : Stack) → Outcome result (run (context_of self.now depth tally.old.tokens)
            (Tail tally.old.top ∷ s) (items tokens.old))
            (run (context_of self.now depth tally.new.tokens) (Tail tally.new.top ∷ s) (items tokens.new)) }
        ensures tree { (least : ℕ) (before : Items) → least ≤ infix_level op →
            IsRead (names_of self.now) least tally.old.top before (items tokens.old) left →
            IfOk result (λ e. IsRead (names_of self.now) least tally.new.top before (items tokens.new) e) }
        ensures tally { OnOk result (IsFurther tally.old tally.new) }
    {
        match op {
            Infix::Operator(op) => self.joined(tokens, tally, depth, op, left),
            Infix::Fraction(Fraction::Shift(op)) => self.shifted(tokens, tally, op, left),
            Infix::Fraction(Fraction::Divide(op)) => self.divided(tokens, tally, op, left),
        }
    }

    /// What is read joined by the operator that stands next with the operand behind it.
    #[cycle(expr)]
    fn joined(
        &self,
        tokens: &mut Cursor<'_, '_>,
        tally: &mut Tally,
        depth: u32,
        op: Operator,
        left: Expr,
    ) -> Result<Expr, ReadError>
        requires depth { depth ≤ MAX_BRACKETS }
        requires sign { (first_item tokens.old).terminal ≡ Mark (operator_sign (seen_operator op)) }
        requires top { level (seen_operator op) ≤ tally.old.top }
        ensures read { (s : Stack) → Outcome result (run (context_of self.now depth tally.old.tokens)
            (Tail tally.old.top ∷ s) (items tokens.old))
            (run (context_of self.now depth tally.new.tokens) (Tail tally.new.top ∷ s) (items tokens.new)) }
        ensures tree { (least : ℕ) (before : Items) → least ≤ level (seen_operator op) →
            IsRead (names_of self.now) least tally.old.top before (items tokens.old) left →
            IfOk result (λ e. IsRead (names_of self.now) least tally.new.top before (items tokens.new) e) }
        ensures tally { OnOk result (IsFurther tally.old tally.new) }
    {
        self.spend(tokens, tally)?;
        let right = self.chain(tokens, tally, depth, op.level() + 1)?;
        join(self, op, left, right)
    }

    /// What is read shifted by the number behind the operator that stands next.
    #[tactic(auto, using(crate::proofs::Outcomes::on_from, crate::proofs::Terms::go_shift, crate::proofs::Terms::sign_sound))]
    fn shifted(
        &self,
        tokens: &mut Cursor<'_, '_>,
        tally: &mut Tally,
        op: ShiftOp,
        left: Expr,
    ) -> Result<Expr, ReadError>
        requires sign { (first_item tokens.old).terminal ≡ Mark (fraction_sign (shift_of op)) }
        requires top { fraction_level (shift_of op) ≤ tally.old.top }
        ensures read { (d : ℕ) (s : Stack) → Outcome result
            (run (context_of self.now d tally.old.tokens) (Tail tally.old.top ∷ s) (items tokens.old))
            (run (context_of self.now d tally.new.tokens) (Tail tally.new.top ∷ s) (items tokens.new)) }
        ensures tree { (least : ℕ) (before : Items) → least ≤ fraction_level (shift_of op) →
            IsRead (names_of self.now) least tally.old.top before (items tokens.old) left →
            IfOk result (λ e. IsRead (names_of self.now) least tally.new.top before (items tokens.new) e) }
        ensures tally { OnOk result (IsFurther tally.old tally.new) }
    {
        self.spend(tokens, tally)?;
        let count = self.shift_count(tokens, tally)?;
        tally.top = 7;
        shift(self, op, left, count)
    }

    /// What is read divided by the number behind the operator that stands next.
    #[tactic(auto, using(crate::proofs::Outcomes::on_from, crate::proofs::Terms::go_division, crate::proofs::Terms::sign_sound))]
    fn divided(
        &self,
        tokens: &mut Cursor<'_, '_>,
        tally: &mut Tally,
        op: DivideOp,
        left: Expr,
    ) -> Result<Expr, ReadError>
        requires sign { (first_item tokens.old).terminal ≡ Mark (fraction_sign (divide_of op)) }
        requires top { fraction_level (divide_of op) ≤ tally.old.top }
        ensures read { (d : ℕ) (s : Stack) → Outcome result
            (run (context_of self.now d tally.old.tokens) (Tail tally.old.top ∷ s) (items tokens.old))
            (run (context_of self.now d tally.new.tokens) (Tail tally.new.top ∷ s) (items tokens.new)) }
        ensures tree { (least : ℕ) (before : Items) → least ≤ fraction_level (divide_of op) →
            IsRead (names_of self.now) least tally.old.top before (items tokens.old) left →
            IfOk result (λ e. IsRead (names_of self.now) least tally.new.top before (items tokens.new) e) }
        ensures tally { OnOk result (IsFurther tally.old tally.new) }
    {
        self.spend(tokens, tally)?;
        let divisor = self.divisor(tokens, tally)?;
        tally.top = 9;
        division(self, op, left, divisor)
    }

    /// A number, a name, a cell, a group, or a prefix and an operand.
    #[cycle(expr)]
    #[tactic(auto, using(crate::proofs::Outcomes::on_from, crate::proofs::Terms::number_operand, crate::proofs::Terms::number_sound, crate::proofs::Terms::bad_operand_number, crate::proofs::Terms::stop_operand, crate::proofs::Expressions::read_number))]
    fn operand(
        &self,
        tokens: &mut Cursor<'_, '_>,
        tally: &mut Tally,
        depth: u32,
    ) -> Result<Expr, ReadError>
        requires { depth ≤ MAX_BRACKETS }
        ensures read { (s : Stack) → Outcome result (run (context_of self.now depth tally.old.tokens)
            (Atom ∷ Tail 9 ∷ s) (items tokens.old)) (run (context_of self.now depth tally.new.tokens) (Tail 9 ∷ s)
            (items tokens.new)) }
        ensures tree { IfOk result (λ e. IsRead (names_of self.now) 10 9 (items tokens.old) (items tokens.new) e) }
        ensures tally { OnOk result (IsFurther tally.old tally.new) }
    {
        match tokens.peek() {
            Terminal::Number(n) => {
                self.spend(tokens, tally)?;
                Ok(Expr::Number(n))
            }
            Terminal::BadNumber => Err(ReadError::Fault(tokens.fault(ReadCode::BadNumber))),
            Terminal::Name(name) => self.named(tokens, tally, depth, name),
            Terminal::Sign(Sign::OpenParen) => self.group(tokens, tally, depth),
            Terminal::Sign(Sign::Bang) => self.prefixed(tokens, tally, depth, UnaryOp::Not),
            Terminal::Sign(Sign::Tilde) => self.prefixed(tokens, tally, depth, UnaryOp::Complement),
            _ => Err(ReadError::Fault(tokens.refuse())),
        }
    }

    /// The operator that stands next and its operand.
    #[cycle(expr)]
    fn prefixed(
        &self,
        tokens: &mut Cursor<'_, '_>,
        tally: &mut Tally,
        depth: u32,
        op: UnaryOp,
    ) -> Result<Expr, ReadError>
        requires depth { depth ≤ MAX_BRACKETS }
        requires sign { (first_item tokens.old).terminal ≡ Mark (prefix_sign (prefix_of op)) }
        ensures read { (s : Stack) → Outcome result (run (context_of self.now depth tally.old.tokens)
            (Atom ∷ Tail 9 ∷ s) (items tokens.old)) (run (context_of self.now depth tally.new.tokens) (Tail 9 ∷ s)
            (items tokens.new)) }
        ensures tree { IfOk result (λ e. IsRead (names_of self.now) 10 9 (items tokens.old) (items tokens.new) e) }
        ensures tally { OnOk result (IsFurther tally.old tally.new) }
    {
        self.spend(tokens, tally)?;
        let inner = self.operand(tokens, tally, depth)?;
        unary(self, op, inner)
    }

    /// The name that stands next, or a cell of the array of that name.
    #[cycle(expr)]
    #[tactic(auto, using(crate::proofs::Outcomes::on_from, crate::proofs::Terms::name_operand, crate::proofs::Terms::behind_cell, crate::proofs::Terms::behind_name, crate::proofs::Expressions::read_scalar, crate::proofs::Expressions::read_boxed, crate::proofs::Expressions::read_loop, crate::proofs::Expressions::read_cell))]
    fn named(
        &self,
        tokens: &mut Cursor<'_, '_>,
        tally: &mut Tally,
        depth: u32,
        name: &[u8],
    ) -> Result<Expr, ReadError>
        requires depth { depth ≤ MAX_BRACKETS }
        requires name { (first_item tokens.old).terminal ≡ Name name.now }
        ensures read { (s : Stack) → Outcome result (run (context_of self.now depth tally.old.tokens)
            (Atom ∷ Tail 9 ∷ s) (items tokens.old)) (run (context_of self.now depth tally.new.tokens) (Tail 9 ∷ s)
            (items tokens.new)) }
        ensures tree { IfOk result (λ e. IsRead (names_of self.now) 10 9 (items tokens.old) (items tokens.new) e) }
        ensures tally { OnOk result (IsFurther tally.old tally.new) }
    {
        let place = tokens.place();
        let meaning = self.operand_name(tokens, tally, name)?;
        match meaning {
            Meaning::Array(array) => {
                let index = self.index(tokens, tally, depth)?;
                cell(self, array, place, index)
            }
            Meaning::Scalar(scalar, _) => Ok(Expr::Scalar(scalar)),
            Meaning::Boxed(array, _) => cell(self, array, place, Expr::Number(0)),
            Meaning::Loop(level) => Ok(Expr::LoopName(level)),
        }
    }

    /// The subscript in the brackets that stand next.
    #[cycle(expr)]
    #[tactic(auto, using(crate::proofs::Outcomes::on_from, crate::proofs::Terms::skip_tail, crate::proofs::Expressions::read_index))]
    fn index(
        &self,
        tokens: &mut Cursor<'_, '_>,
        tally: &mut Tally,
        depth: u32,
    ) -> Result<Expr, ReadError>
        requires depth { depth ≤ MAX_BRACKETS }
        requires opening { (first_item tokens.old).terminal ≡ Mark sign.OpenBracket }
        ensures read { (s : Stack) → Outcome result (took (context_of self.now depth tally.old.tokens)
            (for OpensBracket) (Atom ∷ Tail 9 ∷ Want (Mark sign.CloseBracket) (for ClosesBracket) ∷ s)
            (items tokens.old)) (run (context_of self.now depth tally.new.tokens) s (items tokens.new)) }
        ensures tree { IfOk result (λ e. IsIndexRead (names_of self.now) (items tokens.old) (items tokens.new) e) }
        ensures tally { OnOk result (IsFurther tally.old tally.new) }
    {
        self.open_bracket(tokens, tally, depth, Sign::OpenBracket)?;
        let index = self.chain(tokens, tally, depth + 1, 0)?;
        self.close_bracket(tokens, tally, Sign::CloseBracket)?;
        Ok(index)
    }

    /// The expression in the brackets that stand next.
    #[cycle(expr)]
    #[tactic(auto, using(crate::proofs::Outcomes::on_from, crate::proofs::Terms::group_operand, crate::proofs::Terms::skip_tail, crate::proofs::Expressions::read_group))]
    fn group(
        &self,
        tokens: &mut Cursor<'_, '_>,
        tally: &mut Tally,
        depth: u32,
    ) -> Result<Expr, ReadError>
        requires depth { depth ≤ MAX_BRACKETS }
        requires opening { (first_item tokens.old).terminal ≡ Mark sign.OpenParen }
        ensures read { (s : Stack) → Outcome result (run (context_of self.now depth tally.old.tokens)
            (Atom ∷ Tail 9 ∷ s) (items tokens.old)) (run (context_of self.now depth tally.new.tokens) (Tail 9 ∷ s)
            (items tokens.new)) }
        ensures tree { IfOk result (λ e. IsRead (names_of self.now) 10 9 (items tokens.old) (items tokens.new) e) }
        ensures tally { OnOk result (IsFurther tally.old tally.new) }
    {
        self.open_bracket(tokens, tally, depth, Sign::OpenParen)?;
        let inner = self.chain(tokens, tally, depth + 1, 0)?;
        self.close_bracket(tokens, tally, Sign::CloseParen)?;
        Ok(inner)
    }

    /// An expression before the sign that ends it, which is left.
    pub fn value(&self, tokens: &mut Cursor<'_, '_>, tally: &mut Tally) -> Result<Expr, ReadError>
        ensures read { (x : Sign) (act : Act) (s : Stack) → Outcome result
            (run (context_of self.now 0 tally.old.tokens) (Atom ∷ Tail 9 ∷ Want (Mark x) (for act) ∷ s)
            (items tokens.old))
            (run (context_of self.now 0 tally.new.tokens) (Want (Mark x) (for act) ∷ s) (items tokens.new)) }
        ensures tree { IfOk result (λ e. IsTermRead (names_of self.now) (items tokens.old) (items tokens.new) e) }
    {
        self.chain(tokens, tally, 0, 0)
    }

    /// An expression and the sign behind it.
    pub fn expr(&self, tokens: &mut Cursor<'_, '_>, closing: Sign) -> Result<Expr, ReadError>
        ensures read { (s : Stack) → Outcome result
            (run (context_of self.now 0 0) (Atom ∷ Tail 9 ∷ m closing ∷ s) (items tokens.old))
            (run (context_of self.now 0 0) s (items tokens.new)) }
        ensures tree { IfOk result (λ e. IsReadBefore (names_of self.now) closing (items tokens.old)
            (items tokens.new) e) }
    {
        let value = self.value(tokens, &mut Tally::new())?;
        tokens.expect(closing)?;
        Ok(value)
    }
}
