//! Subscripts that are numbers.

ghost use Rattle.std.specs.Prelude.{◌≡◌, IfOk, Some};
ghost use Rattle.std.specs.Option.{option_map};
ghost use Rattle.c_grammar.specs.Blocks.{bare};
ghost use Rattle.c_grammar.specs.Locals.{Replace, index_in, named_put, number_of, product_of, used_put};
ghost use Rattle.c_terminals.specs.Seen.{seen, seen_all, seen_terminal};
ghost use Rattle.c_locals.specs.Blocks.{seen_cells};
ghost use Rattle.c_locals.specs.Indices.{seen_factor, seen_index};
ghost use Rattle.c_locals.specs.Puts.{seen_put, seen_state};

use crate::blocks::Cells;
use crate::cells::cell_name;
use crate::puts::{Put, State};
use c_choices::next_tokens;
use c_terminals::{Ahead, Terminal, Token};
use c_tokens::Sign;
use std::alloc::{AllocError, Global};

/// At most so many tokens stand in a subscript, with its brackets.
const MAX_INDEX: usize = 64;

/// What has been read: a sum, and a product that is added to it or taken away.
#[derive(Clone, Copy)]
struct Sum {
    before: u64,
    minus: bool,
    product: u64,
}

/// An operator between factors.
#[derive(Clone, Copy)]
enum Work {
    Product,
    Quotient,
    Rest,
}

/// A product with the operator behind it.
#[derive(Clone, Copy)]
struct Factor {
    product: u64,
    work: Work,
}

/// What an operand is taken for: a term that is added to a sum or taken away, or a factor of one.
#[derive(Clone, Copy)]
struct Join {
    before: u64,
    minus: bool,
    factor: Option<Factor>,
}

/// An operand comes next, or an operator.
#[derive(Clone, Copy)]
enum Last {
    Wants(Join),
    Has(Sum),
}

/// How it goes on at a token.
#[derive(Clone, Copy)]
enum Going {
    On,
    /// It ends with its value.
    Ends(u64),
    Stops,
}

/// A subscript, of so many tokens, with its value.
#[derive(Clone, Copy)]
struct Index {
    len: usize,
    value: u64,
}

fn number_of(terminal: Terminal<'_, '_>) -> Option<u64>
    ensures { result ≡ number_of (seen_terminal terminal.entry) }
{
    match terminal {
        Terminal::Number(number) => Some(number),
        _ => None,
    }
}

impl Work {
    ghost use Rattle.std.specs.Prelude.{◌≡◌};
    ghost use Rattle.std.specs.Option.{option_map};
    ghost use Rattle.c_grammar.specs.Expressions.{result as value_of_work};
    ghost use Rattle.c_grammar.specs.Locals.{factor_work};
    ghost use Rattle.c_terminals.specs.Seen.{seen};
    ghost use Rattle.c_locals.specs.Indices.{seen_work};

    fn of(operator: Token<'_, '_>) -> Option<Work>
        ensures { option_map seen_work result ≡ factor_work (seen operator.entry) }
    {
        if operator.terminal.is_sign(Sign::Star) {
            return Some(Work::Product);
        }
        if operator.terminal.is_sign(Sign::Slash) {
            return Some(Work::Quotient);
        }
        if operator.terminal.is_sign(Sign::Percent) {
            return Some(Work::Rest);
        }
        None
    }

    fn result(self, a: u64, b: u64) -> Option<u64>
        ensures { result ≡ value_of_work (seen_work self) a b }
    {
        match self {
            Work::Product => a.checked_mul(b),
            Work::Quotient => a.checked_div(b),
            Work::Rest => a.checked_rem(b),
        }
    }
}

// The product with an operand.
fn product_of(factor: Option<Factor>, number: u64) -> Option<u64>
    ensures { result ≡ product_of (option_map seen_factor factor) number }
{
    match factor {
        Some(factor) => factor.work.result(factor.product, number),
        None => Some(number),
    }
}

impl Join {
    ghost use Rattle.std.specs.Prelude.{◌≡◌};
    ghost use Rattle.std.specs.Option.{option_map};
    ghost use Rattle.c_grammar.specs.Locals.{first_join, joined};
    ghost use Rattle.c_locals.specs.Indices.{seen_join, seen_sum};

    fn first() -> Join
        ensures { seen_join result ≡ first_join }
    {
        Join {
            before: 0,
            minus: false,
            factor: None,
        }
    }

    // With an operand, if there is one.
    fn with(self, number: Option<u64>) -> Option<Sum>
        ensures { option_map seen_sum result ≡ joined (seen_join self) number }
    {
        let product = product_of(self.factor, number?)?;
        Some(Sum {
            before: self.before,
            minus: self.minus,
            product,
        })
    }
}

impl Sum {
    ghost use Rattle.std.specs.Prelude.{◌≡◌};
    ghost use Rattle.std.specs.Option.{option_map};
    ghost use Rattle.c_grammar.specs.Locals.{next_join, total};
    ghost use Rattle.c_terminals.specs.Seen.{seen};
    ghost use Rattle.c_locals.specs.Indices.{seen_join, seen_sum};

    fn total(self) -> Option<u64>
        ensures { result ≡ total (seen_sum self) }
    {
        if self.minus {
            self.before.checked_sub(self.product)
        } else {
            self.before.checked_add(self.product)
        }
    }

    // Behind an operator.
    fn next(self, operator: Token<'_, '_>) -> Option<Join>
        ensures { option_map seen_join result ≡ next_join (seen_sum self) (seen operator.entry) }
    {
        let minus = operator.terminal.is_sign(Sign::Minus);
        if operator.terminal.is_sign(Sign::Plus) || minus {
            let before = self.total()?;
            return Some(Join {
                before,
                minus,
                factor: None,
            });
        }
        let work = Work::of(operator)?;
        Some(Join {
            before: self.before,
            minus: self.minus,
            factor: Some(Factor {
                product: self.product,
                work,
            }),
        })
    }
}

/// A subscript that is being read.
#[derive(Drop)]
struct Reader {
    last: Last,
    /// What each open bracket is taken for, the innermost last.
    waiting: Vec<Join>,
}

impl Reader {
    ghost use Rattle.std.specs.Prelude.{◌≡◌, ◌∷◌, [], IfOk, MatchOption, OnOk};
    ghost use Rattle.std.specs.Option.{option_map};
    ghost use Rattle.c_grammar.specs.Locals.{closed_at, ended_at, has_sum, next_at, operand_at, operator_at, wants_operand};
    ghost use Rattle.c_terminals.specs.Seen.{seen};
    ghost use Rattle.c_locals.specs.Indices.{next_of, seen_join, seen_last, seen_sum, waiting_of};

    #[tactic(auto, using(crate::proofs::Innermost::waits))]
    fn push(&mut self, join: Join) -> Result<(), AllocError>
        ensures { OnOk result (waiting_of self.new.waiting.items ≡ seen_join join ∷ waiting_of self.old.waiting.items) }
    {
        self.waiting.push(join)?;
        Ok(())
    }

    #[tactic(auto, using(crate::proofs::Innermost::waits))]
    fn pop(&mut self) -> Option<Join>
        ensures { MatchOption result
            ((waiting_of self.old.waiting.items ≡ []) × (waiting_of self.new.waiting.items ≡ []))
            (λ j. waiting_of self.old.waiting.items ≡ seen_join j ∷ waiting_of self.new.waiting.items) }
    {
        self.waiting.pop()
    }

    // A sum is read, if there is one.
    fn has(&mut self, sum: Option<Sum>) -> Going
        ensures { next_of result self.new ≡ has_sum (option_map seen_sum sum) (waiting_of self.old.waiting.items) }
    {
        match sum {
            Some(sum) => {
                self.last = Last::Has(sum);
                Going::On
            }
            None => Going::Stops,
        }
    }

    // An operand is to come, if there is an operator for it.
    fn wants(&mut self, join: Option<Join>) -> Going
        ensures { next_of result self.new ≡ wants_operand (option_map seen_join join) (waiting_of self.old.waiting.items) }
    {
        match join {
            Some(join) => {
                self.last = Last::Wants(join);
                Going::On
            }
            None => Going::Stops,
        }
    }

    // A token where an operand is to come.
    fn operand(&mut self, join: Join, token: Token<'_, '_>) -> Result<Going, AllocError>
        ensures { IfOk result (λ g. next_of g self.new ≡
            operand_at (seen_join join) (waiting_of self.old.waiting.items) (seen token.entry)) }
    {
        if token.terminal.is_sign(Sign::OpenParen) {
            self.push(join)?;
            self.last = Last::Wants(Join::first());
            return Ok(Going::On);
        }
        Ok(self.has(join.with(number_of(token.terminal))))
    }

    // A closing round bracket.
    fn close(&mut self, sum: Sum) -> Going
        ensures { next_of result self.new ≡ closed_at (seen_sum sum) (waiting_of self.old.waiting.items) }
    {
        match self.pop() {
            Some(join) => self.has(join.with(sum.total())),
            None => Going::Stops,
        }
    }

    // A closing square bracket.
    fn end(&self, sum: Sum) -> Going
        ensures { next_of result self.now ≡ ended_at (seen_sum sum) (waiting_of self.now.waiting.items) }
    {
        if !self.waiting.is_empty() {
            return Going::Stops;
        }
        match sum.total() {
            Some(value) => Going::Ends(value),
            None => Going::Stops,
        }
    }

    // A token behind a sum.
    fn operator(&mut self, sum: Sum, token: Token<'_, '_>) -> Going
        ensures { next_of result self.new ≡
            operator_at (seen_sum sum) (waiting_of self.old.waiting.items) (seen token.entry) }
    {
        if token.terminal.is_sign(Sign::CloseParen) {
            return self.close(sum);
        }
        if token.terminal.is_sign(Sign::CloseBracket) {
            return self.end(sum);
        }
        self.wants(sum.next(token))
    }

    // The next token.
    fn step(&mut self, token: Token<'_, '_>) -> Result<Going, AllocError>
        ensures { IfOk result (λ g. next_of g self.new ≡
            next_at (seen_last self.old.last) (waiting_of self.old.waiting.items) (seen token.entry)) }
    {
        match self.last {
            Last::Wants(join) => self.operand(join, token),
            Last::Has(sum) => Ok(self.operator(sum, token)),
        }
    }
}

// The subscript that these tokens begin, behind its bracket.
fn index_in(alloc: Global, tokens: &[Token<'_, '_>]) -> Result<Option<Index>, AllocError>
    ensures { IfOk result (λ o. option_map seen_index o ≡ index_in (seen_all tokens.now)) }
{
    let mut reader = Reader {
        last: Last::Wants(Join::first()),
        waiting: Vec::new(alloc),
    };
    let mut len = 0usize;
    let mut rest = tokens;
    'tokens: while let [token, behind @ ..] = rest {
        match reader.step(*token)? {
            Going::On => (),
            Going::Ends(value) => return Ok(Some(Index { len, value })),
            Going::Stops => return Ok(None),
        }
        len += 1;
        rest = behind;
    }
    Ok(None)
}

// The cell that the subscript names.
fn cell_put<'a, 'l>(
    alloc: Global,
    state: &State<'a>,
    token: Token<'a, 'l>,
    cells: Cells,
    tokens: &[Token<'a, 'l>],
) -> Result<Option<Put<'a, 'l>>, AllocError>
    ensures { IfOk result (λ o. option_map (seen_put (seen_state state.now)) o ≡
        named_put (seen_state state.now) (seen token.entry) (seen_all tokens.now) (Some (seen_cells cells))) }
{
    let [open, rest @ ..] = tokens else {
        return Ok(None);
    };
    if !open.terminal.is_sign(Sign::OpenBracket) {
        return Ok(None);
    }
    let Some(index) = index_in(alloc, rest)? else {
        return Ok(None);
    };
    if index.value >= cells.len as u64 {
        return Ok(None);
    }
    let cell = cells
        .first
        .checked_add(index.value as usize)
        .ok_or(AllocError)?;
    let name = cell_name(cell)?;
    let mut done = Vec::new(alloc);
    done.push(token.at(Terminal::Name(name)))?;
    Ok(Some(Put {
        tokens: done,
        array: None,
        used: state.used,
        skip: index.len.checked_add(2).ok_or(AllocError)?,
    }))
}

/// The scalar that stands for the name of an array with a subscript.
pub fn named_put<'a, 'l>(
    alloc: Global,
    state: &State<'a>,
    token: Token<'a, 'l>,
    rest: &[Token<'a, 'l>],
) -> Result<Option<Put<'a, 'l>>, AllocError>
    ensures { IfOk result (λ o. option_map (seen_put (seen_state state.now)) o ≡
        used_put Replace (seen_state state.now) (seen token.entry) (bare (seen_all rest.now))) }
{
    let Some(cells) = state.blocks.array_of(token.terminal) else {
        return Ok(None);
    };
    let tokens = next_tokens(alloc, Ahead::new(rest), MAX_INDEX)?;
    cell_put(alloc, state, token, cells, &tokens)
}
