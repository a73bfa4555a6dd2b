//! A directive line with its constants worked out, and with what it may leave out.

ghost use Rattle.std.specs.Prelude.{◌≡◌, ◌++◌, ◌||◌, [], IfOk, MatchOption, None, Some, drop, map};
ghost use Rattle.std.specs.Option.{option_map};
ghost use Rattle.c_tokens.specs.declared.kind.Sign.TheVariants as sign;
ghost use Rattle.c_grammar.specs.Lexeme.{Worded, same};
ghost use Rattle.c_grammar.specs.Expressions.{as_items, as_terminal};
ghost use Rattle.c_grammar.specs.LineForms.{begins_bound, begins_number, clause_of, ends_clause, is_element, is_inside, is_sign, lacks_colon, last_is, line_from, line_in_full, needs_work, several, takes_element, takes_number, word_at, worth};
ghost use Rattle.directives.specs.Ahead.{seen_line};
ghost use Rattle.directives.specs.Seen.{is_whole, seen_lexeme, seen_placed};
ghost use Rattle.c_written.specs.Forms.{all_placed, begins_rest, ends_bound, is_more, line_past, name_in, number_in, seen_bound, text_of};
ghost use Rattle.c_terminals.specs.Seen.{columns_in, seen_all, seen_terminal};
ghost use Rattle.c_written.specs.Lines.{no_end, unended};
ghost use Rattle.c_written.specs.Values.{seen_values};
ghost use Rattle.c_written.specs.Work.{seen_worked};

use crate::clauses::begins_word;
use crate::expressions::{Worked, expression};
use crate::products::{or_product, product, put_word};
use crate::stack::Stack;
use crate::values::Values;
use c_terminals::{Terminal, Token};
use c_tokens::Sign;
use directives::{Lexeme, LineTokens, PlacedLexeme, same_lexeme};
use std::alloc::{AllocError, Global};

/// A token of a line as one of a source.
fn as_terminal<'a, 'l>(lexeme: Lexeme<'a>) -> Terminal<'a, 'l>
    ensures terminal { seen_terminal result ≡ no_end (as_terminal (seen_lexeme lexeme.entry)) }
    ensures columns { columns_in result ≡ [] }
{
    match lexeme {
        Lexeme::Reserved(word) => Terminal::Word(word),
        Lexeme::Sign(sign) => Terminal::Sign(sign),
        Lexeme::Name(text) => Terminal::Name(text),
        Lexeme::Number(n) => Terminal::Number(n),
        Lexeme::BadNumber => Terminal::BadNumber,
        Lexeme::Strange | Lexeme::Ended => Terminal::Unknown,
    }
}

/// The tokens of a line as those of a source.
pub fn as_tokens<'a, 'l>(
    alloc: Global,
    line: usize,
    lexemes: &[PlacedLexeme<'a>],
) -> Result<Vec<Token<'a, 'l>>, AllocError>
    ensures { IfOk result (λ v. seen_all v.items ≡ unended (as_items line (map seen_placed lexemes.now))) }
{
    let mut tokens = Vec::new(alloc);
    'lexemes: for placed in lexemes {
        tokens.push(Token {
            terminal: as_terminal(placed.lexeme),
            line,
            column: placed.column,
        })?;
    }
    Ok(tokens)
}

pub fn is_sign(lexeme: Lexeme<'_>, sign: Sign) -> bool
    ensures { result ≡ is_sign sign (seen_lexeme lexeme.entry) }
{
    same_lexeme(Lexeme::Sign(sign), lexeme)
}

pub fn is_name(lexeme: Lexeme<'_>, name: &[u8]) -> bool
    ensures { result ≡ same (Worded name.now) (seen_lexeme lexeme.entry) }
{
    same_lexeme(Lexeme::Name(name), lexeme)
}

/// A line so far: what is written, and the tokens behind `pragma omp`.
#[derive(Drop)]
struct Forms<'v, 'a> {
    alloc: Global,
    values: &'v Values<'a>,
    lengths: &'v Values<'a>,
    done: Vec<PlacedLexeme<'a>>,
    past: Stack<Lexeme<'a>>,
    /// How many tokens are still to be left out.
    left: usize,
}

/// Whether the tokens before so many end between the brackets of a clause.
fn is_inside(past: &Stack<Lexeme<'_>>, behind: usize) -> bool
    ensures { result ≡ is_inside (drop behind (line_past past.now)) }
{
    let mut k = behind;
    'tokens: while let Some(lexeme) = past.peek(k) {
        if is_sign(lexeme, Sign::OpenParen) {
            return true;
        }
        if is_sign(lexeme, Sign::CloseParen) {
            return false;
        }
        k += 1;
    }
    false
}

/// The token's text, if it is a word.
fn text_of<'a>(lexeme: Lexeme<'a>) -> &'a [u8]
    ensures { result.now ≡ text_of (seen_lexeme lexeme.entry) }
{
    match lexeme {
        Lexeme::Name(text) => text,
        _ => &[],
    }
}

/// The word before so many tokens, or nothing.
fn word_at<'a>(past: &Stack<Lexeme<'a>>, behind: usize) -> &'a [u8]
    ensures { result.now ≡ word_at (drop behind (line_past past.now)) }
{
    match past.peek(behind) {
        Some(lexeme) => text_of(lexeme),
        None => &[],
    }
}

/// The word of the clause that is open, or nothing.
fn clause_of<'a>(past: &Stack<Lexeme<'a>>) -> &'a [u8]
    ensures { result.now ≡ clause_of (line_past past.now) }
{
    let mut k = 0;
    'tokens: while let Some(lexeme) = past.peek(k) {
        k += 1;
        if is_sign(lexeme, Sign::OpenParen) {
            return word_at(past, k);
        }
    }
    &[]
}

/// Whether the first bound of a section does not go on over the token.
fn ends_bound(lexeme: Lexeme<'_>) -> bool
    ensures { result ≡ ends_bound (seen_lexeme lexeme.entry) }
{
    is_sign(lexeme, Sign::Colon)
        || is_sign(lexeme, Sign::CloseBracket)
        || is_sign(lexeme, Sign::OpenParen)
}

/// Whether the first bound of a section is open before so many tokens.
fn lacks_colon(past: &Stack<Lexeme<'_>>, behind: usize) -> bool
    ensures { result ≡ lacks_colon (drop behind (line_past past.now)) }
{
    let mut k = behind;
    'tokens: while let Some(lexeme) = past.peek(k) {
        if is_sign(lexeme, Sign::OpenBracket) {
            return true;
        }
        if ends_bound(lexeme) {
            return false;
        }
        k += 1;
    }
    false
}

fn last_is(past: &Stack<Lexeme<'_>>, sign: Sign) -> bool
    ensures { result ≡ last_is sign (line_past past.now) }
{
    match past.peek(0) {
        Some(lexeme) => is_sign(lexeme, sign),
        None => false,
    }
}

/// Whether a clause ends with the last token.
fn ends_clause(past: &Stack<Lexeme<'_>>) -> bool
    ensures { result ≡ ends_clause (line_past past.now) }
{
    match past.peek(0) {
        Some(last) => {
            is_sign(last, Sign::CloseParen)
                || (is_name(last, b"nowait".as_slice()) && !is_inside(past, 1))
        }
        None => false,
    }
}

/// Whether a bound begins.
fn begins_bound(past: &Stack<Lexeme<'_>>) -> bool
    ensures { result ≡ begins_bound (line_past past.now) }
{
    last_is(past, Sign::OpenBracket) || (last_is(past, Sign::Colon) && lacks_colon(past, 1))
}

/// Whether a term begins, behind others.
fn begins_term(past: &Stack<Lexeme<'_>>) -> bool
    ensures { result ≡ (last_is sign.Plus (line_past past.now) || last_is sign.Minus (line_past past.now)) }
{
    last_is(past, Sign::Plus) || last_is(past, Sign::Minus)
}

/// Whether a clause has a number in brackets.
fn takes_number(word: &[u8]) -> bool
    ensures { result ≡ takes_number word.now }
{
    word == b"device".as_slice()
        || word == b"collapse".as_slice()
        || word == b"num_teams".as_slice()
        || word == b"thread_limit".as_slice()
        || word == b"num_threads".as_slice()
        || word == b"simdlen".as_slice()
        || word == b"safelen".as_slice()
}

/// Whether the number of a clause begins, or the one of a chunk.
fn begins_number(past: &Stack<Lexeme<'_>>) -> bool
    ensures { result ≡ begins_number (line_past past.now) }
{
    (last_is(past, Sign::OpenParen) && takes_number(clause_of(past)))
        || (last_is(past, Sign::Comma) && clause_of(past) == b"schedule".as_slice())
}

/// Whether an element may stand for the section of length one.
fn takes_element(word: &[u8]) -> bool
    ensures { result ≡ takes_element word.now }
{
    word == b"depend".as_slice() || word == b"to".as_slice() || word == b"from".as_slice()
}

fn is_element(past: &Stack<Lexeme<'_>>) -> bool
    ensures { result ≡ is_element (line_past past.now) }
{
    lacks_colon(past, 0) && !last_is(past, Sign::OpenBracket) && takes_element(clause_of(past))
}

/// Whether no sum of numbers has the token.
fn is_more(lexeme: Lexeme<'_>) -> bool
    ensures { result ≡ is_more (seen_lexeme lexeme.entry) }
{
    match lexeme {
        Lexeme::Sign(_) => !is_sign(lexeme, Sign::Plus),
        _ => false,
    }
}

/// Whether a token that no sum of numbers has is among the first ones.
fn needs_work(count: usize, rest: &[PlacedLexeme<'_>]) -> bool
    ensures { result ≡ needs_work count (all_placed rest.now) }
{
    let mut left = count;
    let mut rest = rest;
    'tokens: while let [placed, behind @ ..] = rest {
        if left == 0 {
            return false;
        }
        if is_more(placed.lexeme) {
            return true;
        }
        left -= 1;
        rest = behind;
    }
    false
}

/// The constant expression that a bound is, if it is more than a sum of numbers.
fn worth(worked: Option<Worked>, rest: &[PlacedLexeme<'_>]) -> Option<(usize, u64)>
    ensures { option_map seen_bound result ≡ worth (all_placed rest.now) (option_map seen_worked worked) }
{
    match worked {
        Some(Worked::Number(count, value)) => {
            if needs_work(count, rest) {
                Some((count, value))
            } else {
                None
            }
        }
        Some(Worked::Fault(_, _)) | None => None,
    }
}

/// The constant expression, if it has several tokens.
fn several(worked: Option<Worked>) -> Option<(usize, u64)>
    ensures { option_map seen_bound result ≡ several (option_map seen_worked worked) }
{
    match worked {
        Some(Worked::Number(count, value)) => {
            if count > 1 {
                Some((count, value))
            } else {
                None
            }
        }
        Some(Worked::Fault(_, _)) | None => None,
    }
}

/// The number that the token is.
fn number_of(lexeme: Lexeme<'_>) -> Option<u64>
    ensures { result ≡ number_in (seen_lexeme lexeme.entry) }
{
    match lexeme {
        Lexeme::Number(n) => Some(n),
        _ => None,
    }
}

/// The name that the token is.
fn name_of<'a>(lexeme: Lexeme<'a>) -> Option<&'a [u8]>
    ensures { MatchOption result (name_in (seen_lexeme lexeme.entry) ≡ None) (λ x. name_in (seen_lexeme lexeme.entry) ≡ Some x.now) }
{
    match lexeme {
        Lexeme::Name(text) => Some(text),
        _ => None,
    }
}

/// Whether these are the signs round a first bound behind which nothing stands yet.
fn begins_rest(colon: Lexeme<'_>, bracket: Lexeme<'_>) -> bool
    ensures { result ≡ begins_rest (seen_lexeme colon.entry) (seen_lexeme bracket.entry) }
{
    is_sign(colon, Sign::Colon) && is_sign(bracket, Sign::OpenBracket)
}

impl<'v, 'a> Forms<'v, 'a> {
    ghost use Rattle.std.specs.Prelude.{◌≡◌, ◌++◌, ◌∷◌, [], IfOk, OnOk, map};
    ghost use Rattle.std.specs.Option.{option_map};
    ghost use Rattle.c_grammar.specs.Expressions.{as_items, value_of};
    ghost use Rattle.c_grammar.specs.LineForms.{all_at, bound_at, cells_from, is_separator, left_out, onto, put_word, rest_of};
    ghost use Rattle.directives.specs.Seen.{seen_lexeme, seen_placed};
    ghost use Rattle.c_written.specs.Forms.{IsSameForm, all_placed, in_full, line_past, numbers, seen_bound, with_line};
    ghost use Rattle.c_terminals.specs.Seen.{seen_all};
    ghost use Rattle.c_written.specs.Lines.{unended};
    ghost use Rattle.c_written.specs.Values.{seen_values};

    /// Whether a comma between two clauses stands next.
    fn is_separator(&self, lexeme: Lexeme<'a>, rest: &[PlacedLexeme<'a>]) -> bool
        ensures { result ≡ is_separator (line_past self.now.past) (seen_lexeme lexeme.entry) (all_placed rest.now) }
    {
        if !is_sign(lexeme, Sign::Comma) || !ends_clause(&self.past) {
            return false;
        }
        match rest {
            [next, ..] => begins_word(next.lexeme),
            [] => false,
        }
    }

    /// The constant expression that a bound is, or that one of its terms begins with: how many tokens it has, and its
    /// value.
    fn bound(
        &self,
        rest: &[PlacedLexeme<'a>],
        tokens: &[Token<'a, '_>],
    ) -> Result<Option<(usize, u64)>, AllocError>
        requires { seen_all tokens.now ≡ unended (as_items 0 (all_placed rest.now)) }
        ensures { IfOk result (λ b. option_map seen_bound b ≡
            bound_at (seen_values self.now.values.now) (line_past self.now.past) (all_placed rest.now)) }
    {
        if begins_bound(&self.past) {
            let bound = worth(expression(self.alloc, self.values, false, tokens)?, rest);
            return Ok(or_product(self.alloc, self.values, rest, bound)?);
        }
        if begins_term(&self.past) {
            return Ok(product(self.alloc, self.values, rest)?);
        }
        if begins_number(&self.past) {
            return Ok(several(expression(self.alloc, self.values, false, tokens)?));
        }
        Ok(None)
    }

    /// How many cells there are behind the first bound, if it is a number: the rest of the array.
    fn rest_of(&self) -> Option<u64>
        ensures { numbers result ≡ rest_of (seen_values self.now.lengths.now) (line_past self.now.past) }
    {
        let colon = self.past.peek(0)?;
        let first = number_of(self.past.peek(1)?)?;
        let bracket = self.past.peek(2)?;
        let array = name_of(self.past.peek(3)?)?;
        if begins_rest(colon, bracket) {
            self.cells_from(array, first)
        } else {
            None
        }
    }

    /// How many cells of the array there are behind the first ones, if there are some.
    fn cells_from(&self, array: &[u8], first: u64) -> Option<u64>
        ensures { numbers result ≡ cells_from first (value_of (seen_values self.now.lengths.now) array.now) }
    {
        let length = self.lengths.value(array)?;
        if first < length {
            Some(length - first)
        } else {
            None
        }
    }

    fn write(&mut self, lexeme: Lexeme<'a>, column: usize) -> Result<(), AllocError>
        ensures done { OnOk result (all_placed self.new.done.items ≡
            all_placed self.old.done.items ++ all_at column (seen_lexeme lexeme.entry ∷ [])) }
        ensures past { OnOk result (line_past self.new.past ≡ seen_lexeme lexeme.entry ∷ line_past self.old.past) }
        ensures same { OnOk result (IsSameForm self.old self.new) }
    {
        self.done.push(PlacedLexeme { lexeme, column })?;
        self.past.push(lexeme)?;
        Ok(())
    }

    /// Writes what is left out before the token.
    fn write_left_out(&mut self, lexeme: Lexeme<'a>, column: usize) -> Result<(), AllocError>
        ensures done { OnOk result (all_placed self.new.done.items ≡ all_placed self.old.done.items ++
            all_at column (left_out (seen_values self.old.lengths.now) (line_past self.old.past) (seen_lexeme lexeme.entry))) }
        ensures past { OnOk result (line_past self.new.past ≡
            onto (left_out (seen_values self.old.lengths.now) (line_past self.old.past) (seen_lexeme lexeme.entry)) (line_past self.old.past)) }
        ensures same { OnOk result (IsSameForm self.old self.new) }
    {
        if is_sign(lexeme, Sign::Colon) && last_is(&self.past, Sign::OpenBracket) {
            return self.write(Lexeme::Number(0), column);
        }
        if !is_sign(lexeme, Sign::CloseBracket) {
            return Ok(());
        }
        if is_element(&self.past) {
            self.write(Lexeme::Sign(Sign::Colon), column)?;
            return self.write(Lexeme::Number(1), column);
        }
        match self.rest_of() {
            Some(cells) => self.write(Lexeme::Number(cells), column),
            None => Ok(()),
        }
    }

    /// A token by itself, behind what is left out before it.
    fn plain(&mut self, lexeme: Lexeme<'a>, column: usize) -> Result<(), AllocError>
        ensures done { OnOk result (all_placed self.new.done.items ≡ all_placed self.old.done.items ++
            all_at column (in_full (seen_values self.old.values.now) (seen_values self.old.lengths.now) (line_past self.old.past) (seen_lexeme lexeme.entry))) }
        ensures past { OnOk result (line_past self.new.past ≡ onto (in_full (seen_values self.old.values.now)
            (seen_values self.old.lengths.now) (line_past self.old.past) (seen_lexeme lexeme.entry)) (line_past self.old.past)) }
        ensures same { OnOk result (IsSameForm self.old self.new) }
    {
        let put = put_word(self.values, lexeme);
        self.write_left_out(lexeme, column)?;
        self.write(put, column)
    }

    /// The next token, which stands first among the rest of the line, in both forms.
    fn take(
        &mut self,
        placed: PlacedLexeme<'a>,
        behind: &[PlacedLexeme<'a>],
        rest: &[PlacedLexeme<'a>],
        tokens: &[Token<'a, '_>],
    ) -> Result<(), AllocError>
        requires rest { all_placed rest.now ≡ seen_placed placed ∷ all_placed behind.now }
        requires tokens { seen_all tokens.now ≡ unended (as_items 0 (all_placed rest.now)) }
        ensures { OnOk result (with_line self.old (all_placed rest.now) ≡ with_line self.new (all_placed behind.now)) }
    {
        if self.left > 0 {
            self.left -= 1;
            return Ok(());
        }
        if self.is_separator(placed.lexeme, behind) {
            return Ok(());
        }
        if let Some((count, value)) = self.bound(rest, tokens)? {
            self.left = count.saturating_sub(1);
            return self.write(Lexeme::Number(value), placed.column);
        }
        self.plain(placed.lexeme, placed.column)
    }
}

/// The tokens behind the words `pragma omp` in full.
fn written_behind<'a>(
    alloc: Global,
    values: &Values<'a>,
    lengths: &Values<'a>,
    words: [PlacedLexeme<'a>; 2],
    rest: &[PlacedLexeme<'a>],
) -> Result<Vec<PlacedLexeme<'a>>, AllocError>
    ensures { IfOk result (λ v. all_placed v.items ≡ all_placed words.entry ++
        line_from (seen_values values.now) (seen_values lengths.now) [] 0 (all_placed rest.now)) }
{
    let as_tokens = as_tokens(alloc, 0, rest)?;
    let mut forms = Forms {
        alloc,
        values,
        lengths,
        done: Vec::from_slice(alloc, &words)?,
        past: Stack::new(alloc),
        left: 0,
    };
    let mut rest = rest;
    let mut tokens = as_tokens.as_slice();
    'tokens: while let [placed, behind @ ..] = rest {
        forms.take(*placed, behind, rest, tokens)?;
        rest = behind;
        tokens = &tokens[1..];
    }
    Ok(forms.done)
}

/// A directive line in full.
pub fn line_in_full<'a>(
    alloc: Global,
    values: &Values<'a>,
    lengths: &Values<'a>,
    line: &LineTokens<'a>,
) -> Result<LineTokens<'a>, AllocError>
    ensures { IfOk result (λ l. seen_line l ≡ line_in_full (seen_values values.now) (seen_values lengths.now) (seen_line line.now)) }
{
    match line.tokens() {
        [first, second, rest @ ..] => {
            let tokens = written_behind(alloc, values, lengths, [*first, *second], rest)?;
            Ok(LineTokens::of(tokens))
        }
        _ => line.copy(alloc),
    }
}
