//! Arrays of two dimensions, written out as arrays of one: the rows lie one behind the other, in what is done and on
//! directive lines. So are the first two dimensions of arrays of three.

ghost use Rattle.std.specs.Prelude.{◌≡◌, ◌<◌, ◌*◌, ◌^◌, ◌++◌, [], length, take, IfOk, IfSome, OnOk};
ghost use Rattle.std.specs.Option.{option_map};
ghost use Rattle.c_grammar.specs.Functions.{index_len};
ghost use Rattle.c_grammar.specs.Grids.{declared, declared_as, flat, is_row, opens_index};
ghost use Rattle.c_terminals.specs.Ahead.{ahead};
ghost use Rattle.c_written.specs.Grids.{seen_array};
ghost use Rattle.c_terminals.specs.Held.{written_all};
ghost use Rattle.c_terminals.specs.Seen.{seen_all, seen_terminal};

use crate::calls::index_len;
use crate::heads::passed;
use crate::indices::{Ranges, has_second, loop_range, next_seven, second_len};
use crate::row_sections::line_in_rows;
use crate::stack::Stack;
use crate::values::Values;
use c_terminals::{Ahead, Terminal, Token, Written, WrittenTerminal};
use c_tokens::Sign;
use directives::Word;
use std::alloc::{AllocError, Global};

/// An array with rows.
#[derive(Clone, Copy)]
struct Array<'a> {
    name: &'a [u8],
    rows: u64,
    columns: u64,
}

// Behind the type: NAME [ NUM ] [ NUM ], with fewer than 2^64 cells, and, where three dimensions are looked for, one more
// bracket.
fn declared<'a>(deep: bool, start: Ahead<'a, '_, '_>) -> Option<Array<'a>>
    ensures value { option_map seen_array result ≡ declared deep (ahead start.entry) }
    ensures cells { IfSome result (λ d. d.rows * d.columns < 2 ^ 64) }
{
    let array = next_seven(start)?;
    if !array.second.terminal.is_sign(Sign::OpenBracket)
        || !array.fourth.terminal.is_sign(Sign::CloseBracket)
    {
        return None;
    }
    if !array.fifth.terminal.is_sign(Sign::OpenBracket)
        || !array.seventh.terminal.is_sign(Sign::CloseBracket)
    {
        return None;
    }
    if deep && !opens_index(passed(start, 7)) {
        return None;
    }
    declared_as(
        array.first.terminal,
        array.third.terminal,
        array.sixth.terminal,
    )
}

fn declared_as<'a>(
    name: Terminal<'a, '_>,
    rows: Terminal<'a, '_>,
    columns: Terminal<'a, '_>,
) -> Option<Array<'a>>
    ensures value { option_map seen_array result ≡
        declared_as (seen_terminal name.entry) (seen_terminal rows.entry) (seen_terminal columns.entry) }
    ensures cells { IfSome result (λ d. d.rows * d.columns < 2 ^ 64) }
{
    match (name, rows, columns) {
        (Terminal::Name(name), Terminal::Number(rows), Terminal::Number(columns)) => {
            rows.checked_mul(columns)?;
            Some(Array {
                name,
                rows,
                columns,
            })
        }
        _ => None,
    }
}

// So many of the tokens that follow, at most, are put behind the others.
fn put_next<'a>(
    alloc: Global,
    done: &mut Vec<Written<'a>>,
    start: Ahead<'a, '_, '_>,
    count: usize,
) -> Result<(), AllocError>
    ensures { OnOk result (written_all done.new.items ≡ written_all done.old.items ++ take count (ahead start.entry)) }
{
    let mut ahead = start;
    let mut left = count;
    'tokens: while left > 0 {
        let Some(token) = ahead.next() else {
            return Ok(());
        };
        done.push(Written::of(alloc, token)?)?;
        left -= 1;
    }
    Ok(())
}

// Whether a subscript comes next.
fn opens_index(start: Ahead<'_, '_, '_>) -> bool
    ensures { result ≡ opens_index (ahead start.entry) }
{
    let mut ahead = start;
    match ahead.next() {
        Some(next) => next.terminal.is_sign(Sign::OpenBracket),
        None => false,
    }
}

// Whether a first subscript comes next, and no second one behind it.
fn is_row(start: Ahead<'_, '_, '_>) -> bool
    requires { length (ahead start) < 2 ^ 63 }
    ensures { result ≡ is_row (ahead start.entry) (index_len 0 0 (ahead start.entry)) }
{
    match index_len(start) {
        Some(len) => !opens_index(passed(start, len)),
        None => false,
    }
}

/// What has been read, and the tokens so far.
#[derive(Drop)]
struct Grids<'a> {
    alloc: Global,
    done: Vec<Written<'a>>,
    /// The arrays with rows, each with how many cells a row has.
    columns: Values<'a>,
    ranges: Ranges<'a>,
    /// Of the brackets that are open: of a first subscript, how many cells a row has.
    brackets: Stack<Option<u64>>,
    /// How many tokens are still to be left out.
    left: usize,
}

impl<'a> Array<'a> {
    ghost use Rattle.std.specs.Prelude.{◌≡◌, ◌<◌, ◌*◌, ◌^◌};

    fn cells(self) -> u64
        requires { self.rows * self.columns < 2 ^ 64 }
        ensures { result ≡ self.entry.rows * self.entry.columns }
    {
        self.rows * self.columns
    }
}

/// The bracket of a first subscript, and how many cells a row has.
#[derive(Clone, Copy)]
struct Row<'a, 'l> {
    bracket: Token<'a, 'l>,
    columns: u64,
}

impl<'a> Grids<'a> {
    ghost use Rattle.std.specs.Prelude.{◌≡◌, ◌≤◌, ◌<◌, ◌+◌, ◌^◌, ◌∷◌, [], length, IfSome, OnOk, Some, false, true};
    ghost use Rattle.std.specs.Option.{IsSome, option_map};
    ghost use Rattle.c_grammar.specs.Blocks.{is_directive};
    ghost use Rattle.c_grammar.specs.Grids.{closing_on, declared, declared_on, flat_declaration, flat_line, named_on, row_ends, token_on, with_range};
    ghost use Rattle.c_terminals.specs.Ahead.{ahead};
    ghost use Rattle.c_written.specs.Grids.{GoesOn, HasNoted, HasPopped, HasPut, added_len, columns_of, once_or_twice, open_of, row_at, row_on, seen_row, twice_at, with_grids};
    ghost use Rattle.c_written.specs.Indices.{ranges_of};
    ghost use Rattle.c_terminals.specs.Seen.{seen, seen_all, seen_terminal};

    /// A token behind the others.
    fn put(&mut self, token: Token<'a, '_>) -> Result<(), AllocError>
        ensures { OnOk result (HasPut self.old (seen token.entry ∷ []) self.new) }
    {
        self.done.push(Written::of(self.alloc, token)?)?;
        Ok(())
    }

    /// A directive line.
    fn put_line(&mut self, token: Token<'a, '_>) -> Result<(), AllocError>
        requires { is_directive (seen_terminal token.terminal) ≡ true }
        ensures { OnOk result
            (HasPut self.old (flat_line (columns_of self.old) (seen token.entry) (seen token.entry).terminal ∷ []) self.new) }
    {
        let Terminal::Line(line) = token.terminal else {
            return self.put(token);
        };
        self.done.push(Written {
            terminal: WrittenTerminal::Line(line_in_rows(self.alloc, &self.columns, line)?),
            line: token.line,
            column: token.column,
        })?;
        Ok(())
    }

    /// Takes note of the name behind a type, with the numbers of its loop.
    fn note_range(&mut self, start: Ahead<'a, '_, '_>) -> Result<(), AllocError>
        ensures { OnOk result
            (HasNoted self.old (with_range (ahead start.entry) (ranges_of self.old.ranges)) self.new) }
    {
        let mut ahead = start;
        if let Some(own) = ahead.next() {
            if let Terminal::Name(name) = own.terminal {
                self.ranges.declare(name, loop_range(start))?;
            }
        }
        Ok(())
    }

    /// The declaration of an array of one dimension with as many cells.
    fn put_declaration(&mut self, start: Ahead<'a, '_, '_>, cells: u64) -> Result<(), AllocError>
        requires { IsSome (declared false (ahead start)) }
        ensures { OnOk result (HasPut self.old (flat_declaration cells (ahead start.entry)) self.new) }
    {
        let Some(array) = next_seven(start) else {
            return Ok(());
        };
        self.put(array.first)?;
        self.put(array.second)?;
        self.put(array.third.at(Terminal::Number(cells)))?;
        self.put(array.fourth)
    }

    /// The word of a type, and what it declares.
    fn declare(
        &mut self,
        deep: bool,
        token: Token<'a, '_>,
        start: Ahead<'a, '_, '_>,
    ) -> Result<(), AllocError>
        requires { self.old.left ≡ 0 }
        ensures { OnOk result (GoesOn self.old (λ gs rs os.
            declared_on gs rs os (seen token.entry) (ahead start.entry) (declared deep (ahead start.entry))) self.new) }
    {
        self.put(token)?;
        match declared(deep, start) {
            None => self.note_range(start),
            Some(array) => {
                self.put_declaration(start, array.cells())?;
                self.columns.define(array.name, array.columns)?;
                self.left = 7;
                Ok(())
            }
        }
    }

    /// The row that the name of an array with rows begins, if its second subscript is surely within it.
    fn row<'l>(&self, token: Token<'a, 'l>, start: Ahead<'a, 'l, '_>) -> Option<Row<'a, 'l>>
        requires { length (ahead start) < 2 ^ 63 }
        ensures { option_map seen_row result ≡
            row_at (columns_of self.now) (ranges_of self.now.ranges) (seen token.entry).terminal (ahead start.entry) }
    {
        let Terminal::Name(name) = token.terminal else {
            return None;
        };
        let columns = self.columns.value(name)?;
        let mut ahead = start;
        let open = ahead.next()?;
        if open.terminal.is_sign(Sign::OpenBracket) && has_second(&self.ranges, columns, start) {
            return Some(Row {
                bracket: open,
                columns,
            });
        }
        None
    }

    /// Whether it is the name of an array with rows, and a row by itself begins, or any subscript of three dimensions.
    fn names_row(&self, deep: bool, token: Token<'a, '_>, start: Ahead<'a, '_, '_>) -> bool
        requires { length (ahead start) < 2 ^ 63 }
        ensures { result ≡ twice_at deep (columns_of self.now) (seen token.entry).terminal (ahead start.entry) }
    {
        let Terminal::Name(name) = token.terminal else {
            return false;
        };
        if self.columns.value(name).is_none() {
            return false;
        }
        let mut ahead = start;
        match ahead.next() {
            Some(open) => open.terminal.is_sign(Sign::OpenBracket) && (deep || is_row(start)),
            None => false,
        }
    }

    /// A token by itself. The name of a row stands twice, so that a fault is found there.
    fn put_name(
        &mut self,
        deep: bool,
        token: Token<'a, '_>,
        start: Ahead<'a, '_, '_>,
    ) -> Result<(), AllocError>
        requires { length (ahead start) < 2 ^ 63 }
        ensures { OnOk result (HasPut self.old
            (once_or_twice (seen token.entry) (twice_at deep (columns_of self.old) (seen token.entry).terminal (ahead start.entry))) self.new) }
    {
        if self.names_row(deep, token, start) {
            self.put(token)?;
        }
        self.put(token)
    }

    /// A name, and the multiplication of its first subscript.
    fn begin_row(&mut self, token: Token<'a, '_>, row: Row<'a, '_>) -> Result<(), AllocError>
        ensures { OnOk result
            (GoesOn self.old (λ gs rs os. row_on gs rs os (seen token.entry) (Some (seen_row row.entry)) false) self.new) }
    {
        self.put(token)?;
        self.put(row.bracket)?;
        self.put(row.bracket.at(Terminal::Number(row.columns)))?;
        self.put(row.bracket.at(Terminal::Sign(Sign::Star)))?;
        self.put(row.bracket.at(Terminal::Sign(Sign::OpenParen)))?;
        self.brackets.push(Some(row.columns))?;
        self.left = 1;
        Ok(())
    }

    /// The second subscript, which a closing bracket is before, and the end of the sum.
    fn end_row(
        &mut self,
        token: Token<'a, '_>,
        start: Ahead<'a, '_, '_>,
        len: usize,
    ) -> Result<(), AllocError>
        ensures { OnOk result (HasPut self.old (row_ends (seen token.entry) len (ahead start.entry)) self.new) }
    {
        self.put(token.at(Terminal::Sign(Sign::CloseParen)))?;
        self.put(token.at(Terminal::Sign(Sign::Plus)))?;
        self.put(token.at(Terminal::Sign(Sign::OpenParen)))?;
        put_next(self.alloc, &mut self.done, passed(start, 1), len)?;
        self.put(token.at(Terminal::Sign(Sign::CloseParen)))?;
        self.put(token)
    }

    /// Closes a bracket: how many tokens the second subscript behind it has, if it was of a first one.
    fn close(&mut self, start: Ahead<'a, '_, '_>) -> Option<usize>
        ensures len { result ≡ added_len (ranges_of self.old.ranges) (open_of self.old) (ahead start.entry) }
        ensures within { IfSome result (λ n. n + 2 ≤ length (ahead start.entry)) }
        ensures popped { HasPopped self.old self.new }
    {
        match self.brackets.pop() {
            Some(Some(columns)) => second_len(&self.ranges, columns, start),
            _ => None,
        }
    }

    /// A closing bracket.
    fn end(&mut self, token: Token<'a, '_>, start: Ahead<'a, '_, '_>) -> Result<(), AllocError>
        requires { self.old.left ≡ 0 }
        ensures { OnOk result
            (GoesOn self.old (λ gs rs os. closing_on gs rs os (seen token.entry) (ahead start.entry)) self.new) }
    {
        match self.close(start) {
            None => self.put(token),
            Some(len) => {
                self.end_row(token, start, len)?;
                self.left = len + 2;
                Ok(())
            }
        }
    }

    /// A token that is not left out.
    fn read(
        &mut self,
        deep: bool,
        token: Token<'a, '_>,
        start: Ahead<'a, '_, '_>,
    ) -> Result<(), AllocError>
        requires begun { self.old.left ≡ 0 }
        requires few { length (ahead start) < 2 ^ 63 }
        ensures { OnOk result
            (GoesOn self.old (λ gs rs os. token_on deep gs rs os (seen token.entry) (ahead start.entry)) self.new) }
    {
        if token.terminal.is_word(Word::Uint64) {
            return self.declare(deep, token, start);
        }
        if token.terminal.is_sign(Sign::OpenBracket) {
            self.put(token)?;
            self.brackets.push(None)?;
            return Ok(());
        }
        if token.terminal.is_sign(Sign::CloseBracket) {
            return self.end(token, start);
        }
        match self.row(token, start) {
            Some(row) => self.begin_row(token, row),
            None => self.put_name(deep, token, start),
        }
    }

    /// The next token, before others.
    fn take(
        &mut self,
        deep: bool,
        token: Token<'a, '_>,
        rest: &[Token<'a, '_>],
    ) -> Result<(), AllocError>
        ensures { OnOk result
            (with_grids deep self.old (seen token.entry ∷ seen_all rest.now) ≡ with_grids deep self.new (seen_all rest.now)) }
    {
        if token.terminal.is_directive() {
            return self.put_line(token);
        }
        if self.left > 0 {
            self.left -= 1;
            return Ok(());
        }
        self.read(deep, token, Ahead::new(rest))
    }
}

/// The tokens with arrays of one dimension in the place of those of two, or, where it is deep, of two in the place of those
/// of three.
pub fn flat<'a>(
    alloc: Global,
    deep: bool,
    tokens: &[Token<'a, '_>],
) -> Result<Vec<Written<'a>>, AllocError>
    ensures { IfOk result (λ v. written_all v.items ≡ flat deep [] [] [] 0 (seen_all tokens.now)) }
{
    let mut grids = Grids {
        alloc,
        done: Vec::new(alloc),
        columns: Values::new(alloc),
        ranges: Ranges::new(alloc),
        brackets: Stack::new(alloc),
        left: 0,
    };
    let mut rest = tokens;
    'tokens: while let [token, behind @ ..] = rest {
        grids.take(deep, *token, behind)?;
        rest = behind;
    }
    Ok(grids.done)
}
