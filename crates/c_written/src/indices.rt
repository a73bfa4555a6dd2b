//! The second subscript of an array with rows: which numbers it may be.

ghost use Rattle.std.specs.Prelude.{◌≡◌, ◌≤◌, ◌<◌, ◌+◌, ◌^◌, length, IfSome, MatchOption};
ghost use Rattle.std.specs.Option.{option_map};
ghost use Rattle.c_grammar.specs.Terminal.{same};
ghost use Rattle.c_grammar.specs.Functions.{index_len};
ghost use Rattle.c_grammar.specs.Grids.{has_second, index_in, loop_range, second_len};
ghost use Rattle.c_terminals.specs.Ahead.{ahead};
ghost use Rattle.c_written.specs.Indices.{BeginsWith, bounds, ranges_of, seen_index};
ghost use Rattle.c_written.specs.Ranges.{seen_range};
ghost use Rattle.c_terminals.specs.Seen.{seen, seen_all, seen_terminal};

use crate::calls::index_len;
use crate::heads::passed;
use crate::range::Range;
use c_terminals::{Ahead, Terminal, Token};
use c_tokens::Sign;
use std::alloc::{AllocError, Global};

/// A name with the numbers that it may be.
#[derive(Clone, Copy)]
struct Named<'a> {
    name: &'a [u8],
    range: Range,
}

/// The names so far, in order of declaration.
#[derive(Drop)]
pub struct Ranges<'a> {
    names: Vec<Named<'a>>,
}

impl<'a> Ranges<'a> {
    ghost use Rattle.std.specs.Prelude.{◌≡◌, ◌∷◌, [], OnOk};
    ghost use Rattle.c_grammar.specs.Grids.{operand, range_of};
    ghost use Rattle.c_written.specs.Indices.{ranges_of};
    ghost use Rattle.c_written.specs.Ranges.{seen_range};
    ghost use Rattle.c_terminals.specs.Seen.{seen_terminal};

    pub fn new(alloc: Global) -> Ranges<'a>
        ensures { ranges_of result ≡ [] }
    {
        Ranges {
            names: Vec::new(alloc),
        }
    }

    /// Adds a name.
    pub fn declare(&mut self, name: &'a [u8], range: Range) -> Result<(), AllocError>
        ensures { OnOk result (ranges_of self.new ≡ (name.now, seen_range range) ∷ ranges_of self.old) }
    {
        self.names.push(Named { name, range })?;
        Ok(())
    }

    /// The numbers of the last of that name.
    fn range(&self, name: &[u8]) -> Range
        ensures { seen_range result ≡ range_of (ranges_of self.now) name.now }
    {
        let mut found = Range::anything();
        'names: for named in &self.names {
            if named.name == name {
                found = named.range;
            }
        }
        found
    }

    fn operand(&self, terminal: Terminal<'_, '_>) -> Range
        ensures { seen_range result ≡ operand (ranges_of self.now) (seen_terminal terminal.entry) }
    {
        match terminal {
            Terminal::Number(n) => Range::new(n, n),
            Terminal::Name(name) => self.range(name),
            _ => Range::anything(),
        }
    }
}

/// Behind an operand: what stands before its product, and its product.
#[derive(Clone, Copy)]
struct Sums {
    before: Range,
    /// Whether the product is taken away.
    minus: bool,
    product: Range,
}

impl Sums {
    ghost use Rattle.std.specs.Prelude.{◌≡◌, ℕ};
    ghost use Rattle.c_grammar.specs.Grids.{OnOperand, operator_on, with_product};
    ghost use Rattle.c_written.specs.Indices.{on_sums, ranges_of};
    ghost use Rattle.c_written.specs.Ranges.{seen_range};
    ghost use Rattle.c_terminals.specs.Seen.{seen};

    fn total(self) -> Range
        ensures { seen_range result ≡ with_product self.minus (seen_range self.before) (seen_range self.product) }
    {
        if self.minus {
            self.before.difference(self.product)
        } else {
            self.before.sum(self.product)
        }
    }

    /// Behind the operator and the operand that follow.
    fn next(
        self,
        ranges: &Ranges<'_>,
        operator: Token<'_, '_>,
        operand: Token<'_, '_>,
    ) -> Option<Sums>
        ensures { (k : ℕ) (go : OnOperand) → on_sums result go ≡ operator_on (ranges_of ranges.now)
            (seen_range self.before) self.minus (seen_range self.product) k (seen operator.entry) (seen operand.entry) go }
    {
        let range = ranges.operand(operand.terminal);
        if operator.terminal.is_sign(Sign::Star) {
            return Some(Sums {
                before: self.before,
                minus: self.minus,
                product: self.product.product(range),
            });
        }
        let plus = operator.terminal.is_sign(Sign::Plus);
        if !plus && !operator.terminal.is_sign(Sign::Minus) {
            return None;
        }
        Some(Sums {
            before: self.total(),
            minus: !plus,
            product: range,
        })
    }
}

/// How many tokens the second subscript has, and which numbers it may be.
#[derive(Clone, Copy)]
struct Index {
    len: usize,
    range: Range,
}

// Behind the bracket.
fn index_in(ranges: &Ranges<'_>, start: Ahead<'_, '_, '_>) -> Option<Index>
    ensures value { option_map seen_index result ≡ index_in (ranges_of ranges.now) (ahead start.entry) }
    ensures within { IfSome result (λ i. i.len < length (ahead start.entry)) }
{
    let mut ahead = start;
    let first = ahead.next()?;
    let mut sums = Sums {
        before: Range::new(0, 0),
        minus: false,
        product: ranges.operand(first.terminal),
    };
    let mut len: usize = 1;
    'operators: while let Some(operator) = ahead.next() {
        if operator.terminal.is_sign(Sign::CloseBracket) {
            let range = sums.total();
            return Some(Index { len, range });
        }
        let operand = ahead.next()?;
        sums = sums.next(ranges, operator, operand)?;
        len += 2;
    }
    None
}

/// How many tokens the subscript in brackets has that comes next, if it is surely below the number of columns.
pub fn second_len(ranges: &Ranges<'_>, columns: u64, start: Ahead<'_, '_, '_>) -> Option<usize>
    ensures value { result ≡ second_len (ranges_of ranges.now) columns (ahead start.entry) }
    ensures within { IfSome result (λ n. n + 2 ≤ length (ahead start.entry)) }
{
    let mut ahead = start;
    let open = ahead.next()?;
    if !open.terminal.is_sign(Sign::OpenBracket) {
        return None;
    }
    let index = index_in(ranges, ahead)?;
    if index.range.is_below(columns) {
        Some(index.len)
    } else {
        None
    }
}

/// Whether a first subscript comes next, and a second one that is surely within its row.
pub fn has_second(ranges: &Ranges<'_>, columns: u64, start: Ahead<'_, '_, '_>) -> bool
    requires { length (ahead start) < 2 ^ 63 }
    ensures { result ≡
        has_second (ranges_of ranges.now) columns (ahead start.entry) (index_len 0 0 (ahead start.entry)) }
{
    match index_len(start) {
        Some(len) => second_len(ranges, columns, passed(start, len)).is_some(),
        None => false,
    }
}

/// Seven tokens that follow one another.
#[derive(Clone, Copy)]
pub struct Seven<'a, 'l> {
    pub first: Token<'a, 'l>,
    pub second: Token<'a, 'l>,
    pub third: Token<'a, 'l>,
    pub fourth: Token<'a, 'l>,
    pub fifth: Token<'a, 'l>,
    pub sixth: Token<'a, 'l>,
    pub seventh: Token<'a, 'l>,
}

/// The next seven tokens.
pub fn next_seven<'a, 'l>(start: Ahead<'a, 'l, '_>) -> Option<Seven<'a, 'l>>
    ensures { MatchOption result (length (ahead start.entry) < 7) (λ s. BeginsWith (ahead start.entry) s) }
{
    let mut ahead = start;
    Some(Seven {
        first: ahead.next()?,
        second: ahead.next()?,
        third: ahead.next()?,
        fourth: ahead.next()?,
        fifth: ahead.next()?,
        sixth: ahead.next()?,
        seventh: ahead.next()?,
    })
}

// From one number up to another, by `<` or by `<=`, if there is any.
fn bounds(first: Terminal<'_, '_>, by: Terminal<'_, '_>, end: Terminal<'_, '_>) -> Range
    ensures { seen_range result ≡
        bounds (seen_terminal first.entry) (seen_terminal by.entry) (seen_terminal end.entry) }
{
    let (Terminal::Number(first), Terminal::Number(end)) = (first, end) else {
        return Range::anything();
    };
    if by.is_sign(Sign::Less) && first < end {
        return Range::new(first, end - 1);
    }
    if by.is_sign(Sign::LessEqual) && first <= end {
        return Range::new(first, end);
    }
    Range::anything()
}

fn is_same(a: Terminal<'_, '_>, b: Terminal<'_, '_>) -> bool
    ensures { result ≡ same (seen_terminal a.entry) (seen_terminal b.entry) }
{
    match a {
        Terminal::Word(word) => b.is_word(word),
        Terminal::Sign(sign) => b.is_sign(sign),
        Terminal::Name(name) => b.is_named(name),
        _ => false,
    }
}

/// The numbers of a name behind a type: those of its loop, if it is declared by the head of one.
pub fn loop_range(start: Ahead<'_, '_, '_>) -> Range
    ensures { seen_range result ≡ loop_range (ahead start.entry) }
{
    let Some(head) = next_seven(start) else {
        return Range::anything();
    };
    if !head.second.terminal.is_sign(Sign::Equal)
        || !head.fourth.terminal.is_sign(Sign::Semicolon)
    {
        return Range::anything();
    }
    if !is_same(head.first.terminal, head.fifth.terminal) {
        return Range::anything();
    }
    bounds(
        head.third.terminal,
        head.sixth.terminal,
        head.seventh.terminal,
    )
}
