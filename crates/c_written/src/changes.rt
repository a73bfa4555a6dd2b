//! Changes in full: `x op= e`, `x++` and `++x`, and the heads of loops; `main()`, and its `return 0;`.

ghost use Rattle.std.specs.Prelude.{◌≡◌, IfOk};
ghost use Rattle.std.specs.Option.{option_map};
ghost use Rattle.c_grammar.specs.Blocks.{bare};
ghost use Rattle.c_grammar.specs.Changes.{begin, first_of, in_full, is_boundary, is_bracketed, is_last_return, is_name_closed, is_number_ended, is_pointed, limit_behind, limit_token, vector_len, words_len};
ghost use Rattle.c_terminals.specs.Ahead.{ahead};
ghost use Rattle.c_terminals.specs.Seen.{seen, seen_all, seen_terminal};
ghost use Rattle.c_written.specs.Changes.{head_behind, seen_where};

use crate::operators::Change;
use crate::targets::{is_sign, is_target, is_target_ended};
use c_terminals::{Ahead, Terminal, Token};
use c_tokens::Sign;
use directives::Word;
use std::alloc::{AllocError, Global};

#[derive(Clone, Copy)]
enum Where {
    /// In no head.
    Outside,
    /// In the head of a loop, with so many brackets open.
    InHead(usize),
    /// In a right side that was put in brackets, with so many open.
    Grouped(usize),
    /// In a cell or scalar behind `++` or `--`, which stood there.
    Behind(Sign),
}

/// The tokens so far.
#[derive(Drop)]
struct Changes<'a, 'l> {
    done: Vec<Token<'a, 'l>>,
    place: Where,
    /// The tokens of the statement so far.
    since: Vec<Token<'a, 'l>>,
    /// How many tokens are still to be left out.
    left: usize,
}

/// Whether a statement is over, or none has begun.
pub fn is_boundary(terminal: Terminal<'_, '_>) -> bool
    ensures { result ≡ is_boundary (seen_terminal terminal.entry) }
{
    match terminal {
        Terminal::Sign(Sign::Semicolon | Sign::OpenBrace | Sign::CloseBrace) => true,
        _ => false,
    }
}

/// Whether a number and a semicolon come next.
fn is_number_ended(rest: &[Token<'_, '_>]) -> bool
    ensures { result ≡ is_number_ended (bare (seen_all rest.now)) }
{
    let mut ahead = Ahead::new(rest);
    match ahead.next() {
        Some(number) => number.terminal.is_number() && is_sign(ahead.next(), Sign::Semicolon),
        None => false,
    }
}

/// Whether a name and a closing bracket come next.
fn is_name_closed(rest: &[Token<'_, '_>]) -> bool
    ensures { result ≡ is_name_closed (bare (seen_all rest.now)) }
{
    let mut ahead = Ahead::new(rest);
    match ahead.next() {
        Some(name) => name.terminal.is_name() && is_sign(ahead.next(), Sign::CloseParen),
        None => false,
    }
}

/// Whether `0;` and the last brace of the source come next, and nothing else.
fn is_last_return(rest: &[Token<'_, '_>]) -> bool
    ensures { result ≡ is_last_return (bare (seen_all rest.now)) }
{
    let mut ahead = Ahead::new(rest);
    match ahead.next() {
        Some(number) => match number.terminal {
            Terminal::Number(0) => {
                is_sign(ahead.next(), Sign::Semicolon)
                    && is_sign(ahead.next(), Sign::CloseBrace)
                    && ahead.next().is_none()
            }
            _ => false,
        },
        None => false,
    }
}

/// Whether `*`, a name and a closing bracket come next.
fn is_pointed(start: Ahead<'_, '_, '_>) -> bool
    ensures { result ≡ is_pointed (ahead start.entry) }
{
    let mut ahead = start;
    let Some(star) = ahead.next() else {
        return false;
    };
    let Some(name) = ahead.next() else {
        return false;
    };
    star.terminal.is_sign(Sign::Star)
        && name.terminal.is_name()
        && is_sign(ahead.next(), Sign::CloseParen)
}

/// Whether a name, `[]` and a closing bracket come next.
fn is_bracketed(start: Ahead<'_, '_, '_>) -> bool
    ensures { result ≡ is_bracketed (ahead start.entry) }
{
    let mut ahead = start;
    let Some(name) = ahead.next() else {
        return false;
    };
    name.terminal.is_name()
        && is_sign(ahead.next(), Sign::OpenBracket)
        && is_sign(ahead.next(), Sign::CloseBracket)
        && is_sign(ahead.next(), Sign::CloseParen)
}

fn vector_len(start: Ahead<'_, '_, '_>) -> usize
    ensures { result ≡ vector_len (ahead start.entry) }
{
    if is_pointed(start) {
        return 6;
    }
    if is_bracketed(start) {
        return 7;
    }
    0
}

/// How many tokens the words of the command have up to the bracket, behind the first type.
fn words_len(rest: &[Token<'_, '_>]) -> usize
    ensures { result ≡ words_len (bare (seen_all rest.now)) }
{
    let mut ahead = Ahead::new(rest);
    let Some(count) = ahead.next() else {
        return 0;
    };
    let Some(comma) = ahead.next() else {
        return 0;
    };
    let Some(kind) = ahead.next() else {
        return 0;
    };
    let Some(star) = ahead.next() else {
        return 0;
    };
    if count.terminal.is_name()
        && comma.terminal.is_sign(Sign::Comma)
        && kind.terminal.is_named(b"char".as_slice())
        && star.terminal.is_sign(Sign::Star)
    {
        return vector_len(ahead);
    }
    0
}

/// The limit with `<`, where a number and a semicolon come behind `<=`.
fn limit_behind<'a, 'l>(rest: &[Token<'a, 'l>]) -> Option<Terminal<'a, 'l>>
    ensures { option_map seen_terminal result ≡ option_map limit_token (limit_behind (bare (seen_all rest.now))) }
{
    let mut ahead = Ahead::new(rest);
    match ahead.next() {
        Some(number) => match number.terminal {
            Terminal::Number(n) => {
                if !is_sign(ahead.next(), Sign::Semicolon) {
                    return None;
                }
                if n == u64::MAX {
                    return Some(Terminal::Unworked);
                }
                Some(Terminal::Number(n + 1))
            }
            _ => None,
        },
        None => None,
    }
}

/// The next token, or this one where none follows.
fn first_of<'a, 'l>(rest: &[Token<'a, 'l>], token: Token<'a, 'l>) -> Token<'a, 'l>
    ensures { seen result ≡ first_of (bare (seen_all rest.now)) (seen token.entry) }
{
    match Ahead::new(rest).next() {
        Some(next) => next,
        None => token,
    }
}

/// Where the closing bracket of a head leads, before which so many are open.
fn head_behind(brackets: usize) -> Where
    ensures { seen_where result ≡ head_behind brackets }
{
    if brackets <= 1 {
        return Where::Outside;
    }
    Where::InHead(brackets - 1)
}

impl<'a, 'l> Changes<'a, 'l> {
    ghost use Rattle.std.specs.Prelude.{◌≡◌, ◌∷◌, ◌++◌, ◌+◌, ◌&&◌, [], OnOk, Some, codes};
    ghost use Rattle.c_tokens.specs.declared.kind.Sign.TheVariants as sign;
    ghost use Rattle.c_grammar.specs.Blocks.{at, bare};
    ghost use Rattle.c_grammar.specs.Changes.{ByNumber, ByOne, InHead, assigned, at_front, behind_front, by_kind, changed, grouped, has_words, in_group, in_head, in_state, is_empty, is_last_return, is_main, is_target, kept, kind_of, limit_behind, limited, one_at, outside, without_words};
    ghost use Rattle.c_grammar.specs.Terminal.{Mark, Name, same};
    ghost use Rattle.c_terminals.specs.Seen.{seen, seen_all, seen_terminal};
    ghost use Rattle.c_written.specs.Changes.{IsGone, IsSameState, group_ended, passed, seen_change, seen_where, state_of, stepped, with_changes};

    fn push(&mut self, token: Token<'a, 'l>) -> Result<(), AllocError>
        ensures done { OnOk result (seen_all self.new.done.items ≡
            seen_all self.old.done.items ++ seen token.entry ∷ []) }
        ensures same { OnOk result (IsSameState self.old self.new) }
    {
        self.done.push(token)?;
        Ok(())
    }

    /// A statement begins there.
    fn go_on(&mut self, behind: Where)
        ensures done { self.new.done.items ≡ self.old.done.items }
        ensures left { self.new.left ≡ self.old.left }
        ensures state { state_of self.new ≡ in_state (seen_where behind) [] }
    {
        self.place = behind;
        self.since.clear();
    }

    /// The token by itself.
    fn keep(&mut self, token: Token<'a, 'l>) -> Result<(), AllocError>
        requires { self.old.left ≡ 0 }
        ensures { OnOk result (IsGone self.old self.new (kept (seen token.entry) (state_of self.old))) }
    {
        self.push(token)?;
        if is_boundary(token.terminal) {
            self.since.clear();
            return Ok(());
        }
        self.since.push(token)?;
        Ok(())
    }

    /// Writes `=` and what is assigned, with the operator.
    fn assign(&mut self, token: Token<'a, 'l>, op: Sign) -> Result<(), AllocError>
        ensures done { OnOk result (seen_all self.new.done.items ≡
            seen_all self.old.done.items ++ assigned (seen token.entry) (seen_all self.old.since.items) op) }
        ensures same { OnOk result (IsSameState self.old self.new) }
    {
        self.push(token.at(Terminal::Sign(Sign::Equal)))?;
        self.done.extend_from_slice(&self.since)?;
        self.push(token.at(Terminal::Sign(op)))
    }

    /// Writes the token, behind which a statement begins there.
    fn pass(&mut self, token: Token<'a, 'l>, behind: Where) -> Result<(), AllocError>
        requires { self.old.left ≡ 0 }
        ensures { OnOk result (IsGone self.old self.new (passed (seen token.entry) (seen_where behind))) }
    {
        self.push(token)?;
        self.go_on(behind);
        Ok(())
    }

    /// An assignment whose right side is put in brackets.
    fn group(
        &mut self,
        token: Token<'a, 'l>,
        op: Sign,
        rest: &[Token<'a, 'l>],
    ) -> Result<(), AllocError>
        requires { self.old.left ≡ 0 }
        ensures { OnOk result (IsGone self.old self.new
            (grouped (seen token.entry) (seen_all self.old.since.items) op (bare (seen_all rest.now)))) }
    {
        self.assign(token, op)?;
        self.pass(
            first_of(rest, token).at(Terminal::Sign(Sign::OpenParen)),
            Where::Grouped(0),
        )
    }

    /// An assignment with the operator and a number, which comes next.
    fn by_number(
        &mut self,
        token: Token<'a, 'l>,
        op: Sign,
        rest: &[Token<'a, 'l>],
    ) -> Result<(), AllocError>
        requires { self.old.left ≡ 0 }
        ensures { OnOk result (IsGone self.old self.new
            (changed (seen token.entry) (seen_all self.old.since.items) (ByNumber op) (bare (seen_all rest.now))
            (state_of self.old))) }
    {
        if !is_number_ended(rest) {
            return self.group(token, op, rest);
        }
        self.assign(token, op)?;
        self.go_on(Where::Outside);
        Ok(())
    }

    /// Writes `=` and what is assigned, with the operator and one.
    fn count(&mut self, token: Token<'a, 'l>, op: Sign) -> Result<(), AllocError>
        ensures done { OnOk result (seen_all self.new.done.items ≡ seen_all self.old.done.items ++
            (assigned (seen token.entry) (seen_all self.old.since.items) op ++ one_at (seen token.entry) ∷ [])) }
        ensures same { OnOk result (IsSameState self.old self.new) }
    {
        self.assign(token, op)?;
        self.push(token.at(Terminal::Number(1)))
    }

    /// An assignment with the operator and one.
    fn by_one(
        &mut self,
        token: Token<'a, 'l>,
        op: Sign,
        rest: &[Token<'a, 'l>],
    ) -> Result<(), AllocError>
        requires { self.old.left ≡ 0 }
        ensures { OnOk result (IsGone self.old self.new
            (changed (seen token.entry) (seen_all self.old.since.items) (ByOne op) (bare (seen_all rest.now))
            (state_of self.old))) }
    {
        if !is_sign(Ahead::new(rest).next(), Sign::Semicolon) {
            return self.keep(token);
        }
        self.count(token, op)?;
        self.go_on(Where::Outside);
        Ok(())
    }

    /// A sign behind what is assigned.
    fn change(
        &mut self,
        token: Token<'a, 'l>,
        change: Change,
        rest: &[Token<'a, 'l>],
    ) -> Result<(), AllocError>
        requires { self.old.left ≡ 0 }
        ensures { OnOk result (IsGone self.old self.new
            (changed (seen token.entry) (seen_all self.old.since.items) (seen_change change)
            (bare (seen_all rest.now)) (state_of self.old))) }
    {
        match change {
            Change::With(op) => self.group(token, op, rest),
            Change::ByNumber(op) => self.by_number(token, op, rest),
            Change::ByOne(op) => self.by_one(token, op, rest),
        }
    }

    /// A sign at the front of a statement.
    fn at_front(
        &mut self,
        token: Token<'a, 'l>,
        change: Change,
        rest: &[Token<'a, 'l>],
    ) -> Result<(), AllocError>
        requires { self.old.left ≡ 0 }
        ensures { OnOk result (IsGone self.old self.new
            (at_front (seen token.entry) (seen_change change) (bare (seen_all rest.now)) (state_of self.old))) }
    {
        match change {
            Change::With(_) | Change::ByNumber(_) => self.keep(token),
            Change::ByOne(op) => {
                if !is_target_ended(rest) {
                    return self.keep(token);
                }
                self.go_on(Where::Behind(op));
                Ok(())
            }
        }
    }

    /// Whether nothing of the statement stands before.
    fn is_fresh(&self) -> bool
        ensures { result ≡ is_empty (state_of self.now).since }
    {
        self.since.is_empty()
    }

    /// Whether what stands before may be assigned.
    fn has_target(&self) -> bool
        ensures { result ≡ is_target (seen_all self.now.since.items) }
    {
        is_target(&self.since)
    }

    /// A sign that changes something, if it stands where one may.
    fn by_change(
        &mut self,
        token: Token<'a, 'l>,
        change: Change,
        rest: &[Token<'a, 'l>],
    ) -> Result<(), AllocError>
        requires { self.old.left ≡ 0 }
        ensures { OnOk result (IsGone self.old self.new
            (by_kind (seen token.entry) (Some (seen_change change)) (bare (seen_all rest.now)) (state_of self.old))) }
    {
        if self.is_fresh() {
            return self.at_front(token, change, rest);
        }
        if self.has_target() {
            return self.change(token, change, rest);
        }
        self.keep(token)
    }

    /// Whether `main` and its open bracket stand before.
    fn is_main(&self) -> bool
        ensures { result ≡ is_main (state_of self.now).since }
    {
        match self.since.as_slice() {
            [.., main, bracket] => {
                bracket.terminal.is_sign(Sign::OpenParen) && main.terminal.is_word(Word::Main)
            }
            _ => false,
        }
    }

    /// Whether the token begins the words of the command.
    fn has_words(&self, token: Token<'a, 'l>, rest: &[Token<'a, 'l>]) -> bool
        ensures { result ≡ has_words (seen token.entry) (bare (seen_all rest.now)) (state_of self.now) }
    {
        token.terminal.is_word(Word::Int) && self.is_main() && words_len(rest) > 0
    }

    /// Writes `void` for the words of the command.
    fn leave_words(
        &mut self,
        token: Token<'a, 'l>,
        rest: &[Token<'a, 'l>],
    ) -> Result<(), AllocError>
        ensures { OnOk result (IsGone self.old self.new
            (without_words (seen token.entry) (bare (seen_all rest.now)) (state_of self.old))) }
    {
        self.push(token.at(Terminal::Word(Word::Void)))?;
        self.since.push(token)?;
        self.place = Where::Outside;
        self.left = words_len(rest);
        Ok(())
    }

    /// Whether the token closes the brackets of `main`, with nothing in them.
    fn closes_main(&self, terminal: Terminal<'a, 'l>) -> bool
        ensures { result ≡ (same (Mark sign.CloseParen) (seen_terminal terminal.entry)
            && is_main (state_of self.now).since) }
    {
        terminal.is_sign(Sign::CloseParen) && self.is_main()
    }

    /// Whether the token begins the last `return 0;` of the source.
    fn returns(&self, terminal: Terminal<'a, 'l>, rest: &[Token<'a, 'l>]) -> bool
        ensures { result ≡ (same (Name (codes "return")) (seen_terminal terminal.entry)
            && is_empty (state_of self.now).since
            && is_last_return (bare (seen_all rest.now))) }
    {
        terminal.is_named(b"return".as_slice()) && self.is_fresh() && is_last_return(rest)
    }

    /// A token in no head that may change something.
    fn by_kind(&mut self, token: Token<'a, 'l>, rest: &[Token<'a, 'l>]) -> Result<(), AllocError>
        requires { self.old.left ≡ 0 }
        ensures { OnOk result (IsGone self.old self.new
            (by_kind (seen token.entry) (kind_of (seen_terminal token.entry.terminal)) (bare (seen_all rest.now))
            (state_of self.old))) }
    {
        match Change::of(token.terminal) {
            Some(change) => self.by_change(token, change, rest),
            None => self.keep(token),
        }
    }

    /// A token in no head.
    fn outside(&mut self, token: Token<'a, 'l>, rest: &[Token<'a, 'l>]) -> Result<(), AllocError>
        requires { self.old.left ≡ 0 }
        ensures { OnOk result (IsGone self.old self.new
            (outside (seen token.entry) (bare (seen_all rest.now)) (state_of self.old))) }
    {
        if token.terminal.is_word(Word::For) {
            return self.pass(token, Where::InHead(0));
        }
        if self.has_words(token, rest) {
            return self.leave_words(token, rest);
        }
        if self.closes_main(token.terminal) {
            self.push(token.at(Terminal::Word(Word::Void)))?;
            return self.keep(token);
        }
        if self.returns(token.terminal, rest) {
            self.left = 2;
            return Ok(());
        }
        self.by_kind(token, rest)
    }

    /// Writes a step by one.
    fn step(&mut self, token: Token<'a, 'l>) -> Result<(), AllocError>
        ensures done { OnOk result (seen_all self.new.done.items ≡ seen_all self.old.done.items ++
            at (seen token.entry) (Mark sign.PlusEqual) ∷ one_at (seen token.entry) ∷ []) }
        ensures same { OnOk result (IsSameState self.old self.new) }
    {
        self.push(token.at(Terminal::Sign(Sign::PlusEqual)))?;
        self.push(token.at(Terminal::Number(1)))
    }

    /// An open bracket in the head of a loop, with so many open.
    fn open_bracket(&mut self, brackets: usize, token: Token<'a, 'l>) -> Result<(), AllocError>
        requires { self.old.left ≡ 0 }
        ensures { OnOk result (IsGone self.old self.new
            (kept (seen token.entry) (in_state (InHead (brackets + 1)) []))) }
    {
        let more = brackets.checked_add(1).ok_or(AllocError)?;
        self.go_on(Where::InHead(more));
        self.keep(token)
    }

    /// A limit by `<=`, if it is one.
    fn limit(
        &mut self,
        brackets: usize,
        token: Token<'a, 'l>,
        rest: &[Token<'a, 'l>],
    ) -> Result<(), AllocError>
        requires { self.old.left ≡ 0 }
        ensures { OnOk result (IsGone self.old self.new
            (limited (seen token.entry) (bare (seen_all rest.now)) brackets (state_of self.old)
            (limit_behind (bare (seen_all rest.now))))) }
    {
        match limit_behind(rest) {
            Some(limit) => {
                self.push(token.at(Terminal::Sign(Sign::Less)))?;
                self.push(first_of(rest, token).at(limit))?;
                self.go_on(Where::InHead(brackets));
                self.left = 1;
                Ok(())
            }
            None => self.keep(token),
        }
    }

    /// A step by `++`, if it is one.
    fn step_by_one(
        &mut self,
        token: Token<'a, 'l>,
        rest: &[Token<'a, 'l>],
    ) -> Result<(), AllocError>
        requires { self.old.left ≡ 0 }
        ensures { OnOk result (IsGone self.old self.new
            (stepped (seen token.entry) (bare (seen_all rest.now)) (state_of self.old))) }
    {
        if is_sign(Ahead::new(rest).next(), Sign::CloseParen) {
            return self.step(token);
        }
        if !is_name_closed(rest) {
            return self.keep(token);
        }
        self.push(first_of(rest, token))?;
        self.left = 1;
        self.step(token)
    }

    /// A token in the head of a loop, with so many brackets open.
    fn in_head(
        &mut self,
        brackets: usize,
        token: Token<'a, 'l>,
        rest: &[Token<'a, 'l>],
    ) -> Result<(), AllocError>
        requires { self.old.left ≡ 0 }
        ensures { OnOk result (IsGone self.old self.new
            (in_head brackets (seen token.entry) (bare (seen_all rest.now)) (state_of self.old))) }
    {
        if token.terminal.is_sign(Sign::OpenParen) {
            return self.open_bracket(brackets, token);
        }
        if token.terminal.is_sign(Sign::CloseParen) {
            return self.pass(token, head_behind(brackets));
        }
        if token.terminal.is_sign(Sign::LessEqual) {
            return self.limit(brackets, token, rest);
        }
        if token.terminal.is_sign(Sign::PlusPlus) {
            return self.step_by_one(token, rest);
        }
        self.keep(token)
    }

    /// The end of a right side in brackets.
    fn end_group(&mut self, token: Token<'a, 'l>) -> Result<(), AllocError>
        requires { self.old.left ≡ 0 }
        ensures { OnOk result (IsGone self.old self.new (group_ended (seen token.entry))) }
    {
        self.push(token.at(Terminal::Sign(Sign::CloseParen)))?;
        self.pass(token, Where::Outside)
    }

    /// A token of a right side in brackets, with so many open.
    fn in_group(&mut self, brackets: usize, token: Token<'a, 'l>) -> Result<(), AllocError>
        requires { self.old.left ≡ 0 }
        ensures { OnOk result (IsGone self.old self.new (in_group brackets (seen token.entry) (state_of self.old))) }
    {
        if token.terminal.is_sign(Sign::OpenParen) {
            let more = brackets.checked_add(1).ok_or(AllocError)?;
            return self.pass(token, Where::Grouped(more));
        }
        if token.terminal.is_sign(Sign::CloseParen) {
            if brackets > 0 {
                return self.pass(token, Where::Grouped(brackets - 1));
            }
            return self.end_group(token);
        }
        if token.terminal.is_sign(Sign::Semicolon) {
            return self.end_group(token);
        }
        if is_boundary(token.terminal) {
            return self.pass(token, Where::Outside);
        }
        self.push(token)
    }

    /// A token of what stands behind `++` or `--`.
    fn behind(&mut self, op: Sign, token: Token<'a, 'l>) -> Result<(), AllocError>
        requires { self.old.left ≡ 0 }
        ensures { OnOk result (IsGone self.old self.new (behind_front op (seen token.entry) (state_of self.old))) }
    {
        if !token.terminal.is_sign(Sign::Semicolon) {
            return self.keep(token);
        }
        self.count(token, op)?;
        self.pass(token, Where::Outside)
    }

    /// The next token, before others.
    fn take(&mut self, token: Token<'a, 'l>, rest: &[Token<'a, 'l>]) -> Result<(), AllocError>
        ensures { OnOk result (with_changes self.old (seen token.entry ∷ seen_all rest.now) ≡
            with_changes self.new (seen_all rest.now)) }
    {
        let terminal = token.terminal;
        if terminal.is_directive() {
            return self.push(token);
        }
        if self.left > 0 {
            self.left -= 1;
            return Ok(());
        }
        match self.place {
            Where::Outside => self.outside(token, rest),
            Where::InHead(brackets) => self.in_head(brackets, token, rest),
            Where::Grouped(brackets) => self.in_group(brackets, token),
            Where::Behind(op) => self.behind(op, token),
        }
    }
}

/// The tokens in full.
pub fn in_full<'a, 'l>(
    alloc: Global,
    tokens: &[Token<'a, 'l>],
) -> Result<Vec<Token<'a, 'l>>, AllocError>
    ensures { IfOk result (λ v. seen_all v.items ≡ in_full begin 0 (seen_all tokens.now)) }
{
    let mut changes = Changes {
        done: Vec::new(alloc),
        place: Where::Outside,
        since: Vec::new(alloc),
        left: 0,
    };
    let mut rest = tokens;
    'tokens: while let [token, behind @ ..] = rest {
        changes.take(*token, behind)?;
        rest = behind;
    }
    Ok(changes.done)
}
