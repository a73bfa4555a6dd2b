//! The braces round a body of one statement, and the type of a further name in a declaration.

ghost use Rattle.std.specs.Prelude.{◌≡◌, IfOk};
ghost use Rattle.c_grammar.specs.Blocks.{begins_body, begins_update, brackets_behind, in_blocks, is_atomic_line, is_break, is_else, is_name, nothing_read};
ghost use Rattle.c_terminals.specs.Ahead.{next_of};
ghost use Rattle.c_terminals.specs.Seen.{seen_all, seen_terminal};

use crate::stack::Stack;
use c_terminals::{Ahead, Terminal, Token};
use c_tokens::Sign;
use directives::{Word, is_atomic};
use std::alloc::{AllocError, Global};

/// What is open.
#[derive(Clone, Copy)]
enum Open {
    /// The head of a loop, or of an `if`, with so many brackets.
    Head { choice: bool, brackets: usize },
    Block,
    /// The first branch of an `if`.
    First,
    /// Braces that were put in round a statement.
    Around,
}

impl Open {
    ghost use Rattle.std.specs.Prelude.{◌≡◌, MatchOption, false};
    ghost use Rattle.c_written.specs.declared.blocks.Open.TheVariants as opens;
    ghost use Rattle.c_written.specs.Opens.{is_around, is_first, is_head, stays};

    /// Of a head, whether it is that of an `if`, and how many brackets are open.
    fn head(self) -> Option<(bool, usize)>
        ensures { MatchOption result (is_head self ≡ false) (λ h. self ≡ opens.Head h.0 h.1) }
    {
        match self {
            Open::Head { choice, brackets } => Some((choice, brackets)),
            Open::Block | Open::First | Open::Around => None,
        }
    }

    /// Whether it stays open where a statement ends, which the word `else` may follow.
    fn stays(self, other: bool) -> bool
        ensures { result ≡ stays other self }
    {
        match self {
            Open::Head { .. } | Open::Block => true,
            Open::First => other,
            Open::Around => false,
        }
    }

    fn is_around(self) -> bool
        ensures { result ≡ is_around self }
    {
        match self {
            Open::Around => true,
            Open::Head { .. } | Open::Block | Open::First => false,
        }
    }

    fn is_first(self) -> bool
        ensures { result ≡ is_first self }
    {
        match self {
            Open::First => true,
            Open::Head { .. } | Open::Block | Open::Around => false,
        }
    }
}

/// What has been read.
#[derive(Drop)]
struct Blocks<'a, 'l> {
    done: Vec<Token<'a, 'l>>,
    /// What is open, the innermost last.
    levels: Stack<Open>,
    /// A body comes now.
    body: bool,
    /// A declaration is read.
    declares: bool,
    /// How many brackets are open in it.
    brackets: usize,
    /// The last token is the word `const`.
    constant: bool,
}

/// Whether a statement begins by the token that may be a body without braces.
fn begins_body(terminal: Terminal<'_, '_>) -> bool
    ensures { result ≡ begins_body (seen_terminal terminal.entry) }
{
    match terminal {
        Terminal::Name(_) => true,
        Terminal::Word(Word::For | Word::If | Word::Print) => true,
        Terminal::Sign(Sign::PlusPlus | Sign::MinusMinus) => true,
        _ => false,
    }
}

/// Whether a declaration does not go on behind the token.
fn is_break(terminal: Terminal<'_, '_>) -> bool
    ensures { result ≡ is_break (seen_terminal terminal.entry) }
{
    match terminal {
        Terminal::Sign(Sign::Semicolon | Sign::OpenBrace | Sign::CloseBrace) => true,
        _ => false,
    }
}

/// Whether the line says that the update behind it is atomic.
pub fn is_atomic_line(terminal: Terminal<'_, '_>) -> bool
    ensures { result ≡ is_atomic_line (seen_terminal terminal.entry) }
{
    match terminal {
        Terminal::Line(line) => is_atomic(line),
        _ => false,
    }
}

/// Whether an update begins by the token.
fn begins_update(terminal: Terminal<'_, '_>) -> bool
    ensures { result ≡ begins_update (seen_terminal terminal.entry) }
{
    match terminal {
        Terminal::Name(_) => true,
        _ => false,
    }
}

/// Whether the next token is the word `else`.
fn is_else(next: Option<Token<'_, '_>>) -> bool
    ensures { result ≡ is_else (next_of next.entry) }
{
    match next {
        Some(token) => token.terminal.is_word(Word::Else),
        None => false,
    }
}

/// Whether the next token is a name.
fn is_name(next: Option<Token<'_, '_>>) -> bool
    ensures { result ≡ is_name (next_of next.entry) }
{
    match next {
        Some(token) => {
            token.terminal.is_name() && !token.terminal.is_named(b"sizeof".as_slice())
        }
        None => false,
    }
}

/// How many brackets are open behind the token.
fn brackets_behind(terminal: Terminal<'_, '_>, brackets: usize) -> Result<usize, AllocError>
    ensures { IfOk result (λ n. n ≡ brackets_behind (seen_terminal terminal.entry) brackets) }
{
    if is_break(terminal) {
        return Ok(0);
    }
    if terminal.is_sign(Sign::OpenParen) {
        return brackets.checked_add(1).ok_or(AllocError);
    }
    if terminal.is_sign(Sign::CloseParen) {
        return Ok(brackets.saturating_sub(1));
    }
    Ok(brackets)
}

impl<'a, 'l> Blocks<'a, 'l> {
    ghost use Rattle.std.specs.Prelude.{◌≡◌, ◌==◌, ◌&&◌, ◌∷◌, ◌++◌, [], List, MatchOption, OnOk, Some, take, true, false, if◌then◌else◌};
    ghost use Rattle.c_tokens.specs.declared.kind.Sign.TheVariants as sign;
    ghost use Rattle.c_grammar.specs.Lexeme.{Uint64};
    ghost use Rattle.c_grammar.specs.Terminal.{Fixed, Mark, same};
    ghost use Rattle.c_written.specs.declared.blocks.Open.TheVariants as opens;
    ghost use Rattle.c_written.specs.Opens.{is_around, is_first_branch};
    ghost use Rattle.c_written.specs.Stack.{held, item_at};
    ghost use Rattle.c_grammar.specs.Blocks.{Around, Head, Items, Open as SpecOpen, Reading, at, bare, begins_body, begins_update, braces_at, ends, in_head, is_atomic_line, is_else, is_end, is_headless, is_name, left, line_in_block, noted, opened, otherwise, plain, read_in, with_open, without_block};
    ghost use Rattle.c_terminals.specs.Ahead.{next_of};
    ghost use Rattle.c_terminals.specs.Seen.{seen, seen_all, seen_terminal};
    ghost use Rattle.c_written.specs.Passes.{IsRead, levels_of, reading, with_blocks};

    /// Of the head that is open, whether it is that of an `if`, and how many brackets are open.
    #[tactic(auto, using(crate::proofs::Blocking::headless_first, crate::proofs::Blocking::headless_none))]
    fn head(&self) -> Option<(bool, usize)>
        ensures { MatchOption result (is_headless (levels_of self.now.levels) ≡ true)
            (λ h. item_at 0 (held self.now.levels) ≡ Some (opens.Head h.0 h.1)) }
    {
        match self.levels.peek(0) {
            Some(level) => level.head(),
            None => None,
        }
    }

    #[tactic(auto, using(crate::proofs::Blocking::head_first))]
    fn is_headless(&self) -> bool
        ensures { result ≡ is_headless (levels_of self.now.levels) }
    {
        self.head().is_none()
    }

    /// Whether a first branch is open.
    #[tactic(auto, using(crate::proofs::Blocking::first_first, crate::proofs::Blocking::first_none))]
    fn is_first_branch(&self) -> bool
        ensures { result ≡ is_first_branch (levels_of self.now.levels) }
    {
        match self.levels.peek(0) {
            Some(level) => level.is_first(),
            None => false,
        }
    }

    /// Takes note of the token as one of a declaration.
    fn note(&mut self, terminal: Terminal<'a, 'l>) -> Result<(), AllocError>
        ensures reading { OnOk result (reading self.new ≡ noted (seen_terminal terminal.entry) (reading self.old)) }
        ensures done { OnOk result (self.new.done.items ≡ self.old.done.items) }
        ensures levels { OnOk result (self.new.levels ≡ self.old.levels) }
    {
        let begins = terminal.is_word(Word::Uint64) && self.is_headless() && !self.constant;
        self.declares = !is_break(terminal) && (self.declares || begins);
        self.brackets = brackets_behind(terminal, self.brackets)?;
        self.constant = terminal.is_named(b"const".as_slice());
        Ok(())
    }

    /// Closes what is open up to the block, with it.
    fn leave_block(&mut self)
        ensures levels { levels_of self.new.levels ≡ without_block (levels_of self.old.levels) }
        ensures done { self.new.done.items ≡ self.old.done.items }
        ensures same { IsRead self.old self.new }
    {
        'levels: while let Some(level) = self.levels.pop() {
            if let Open::Block = level {
                return;
            }
        }
    }

    /// Writes the brace of what is closed, if it has one that was put in.
    fn close(&mut self, token: Token<'a, 'l>, level: Open) -> Result<(), AllocError>
        ensures done { OnOk result (seen_all self.new.done.items ≡ seen_all self.old.done.items ++
            (if is_around level then at (seen token.entry) (Mark sign.CloseBrace) ∷ [] else [])) }
        ensures levels { OnOk result (self.new.levels ≡ self.old.levels) }
        ensures same { OnOk result (IsRead self.old self.new) }
    {
        if level.is_around() {
            self.done.push(token.at(Terminal::Sign(Sign::CloseBrace)))?;
        }
        Ok(())
    }

    /// Closes what ends with a statement, and writes its braces. An `if` goes on where the word `else` follows.
    fn end_statement(&mut self, token: Token<'a, 'l>, other: bool) -> Result<(), AllocError>
        ensures done { OnOk result (seen_all self.new.done.items ≡
            seen_all self.old.done.items ++ braces_at (ends other (levels_of self.old.levels)).braces (seen token.entry)) }
        ensures levels { OnOk result (levels_of self.new.levels ≡ (ends other (levels_of self.old.levels)).levels) }
        ensures same { OnOk result (IsRead self.old self.new) }
    {
        'levels: while let Some(level) = self.levels.peek(0) {
            if level.stays(other) {
                return Ok(());
            }
            self.close(token, level)?;
            self.levels.pop();
        }
        Ok(())
    }

    /// A bracket in a head, or another token of it.
    fn in_head(
        &mut self,
        choice: bool,
        brackets: usize,
        terminal: Terminal<'a, 'l>,
    ) -> Result<(), AllocError>
        ensures reading { OnOk result ((os : List SpecOpen) → levels_of self.old.levels ≡ Head choice brackets ∷ os →
            reading self.new ≡ in_head choice brackets os (seen_terminal terminal.entry) (reading self.old)) }
        ensures done { OnOk result (self.new.done.items ≡ self.old.done.items) }
    {
        self.body = false;
        match terminal {
            Terminal::Sign(Sign::OpenParen) => {
                self.levels.pop();
                self.levels.push(Open::Head {
                    choice,
                    brackets: brackets.checked_add(1).ok_or(AllocError)?,
                })?;
            }
            Terminal::Sign(Sign::CloseParen) => {
                self.levels.pop();
                if brackets > 1 {
                    self.levels.push(Open::Head {
                        choice,
                        brackets: brackets - 1,
                    })?;
                    return Ok(());
                }
                self.body = true;
                if choice {
                    self.levels.push(Open::First)?;
                }
            }
            _ => {}
        }
        Ok(())
    }

    /// A token outside of heads opens what it opens.
    #[tactic(auto, using(crate::proofs::Blocking::otherwise_not, crate::proofs::Blocking::otherwise_popped))]
    fn open(&mut self, terminal: Terminal<'a, 'l>) -> Result<(), AllocError>
        ensures reading { OnOk result (reading self.new ≡
            opened (levels_of self.old.levels) (seen_terminal terminal.entry) (reading self.old)) }
        ensures done { OnOk result (self.new.done.items ≡ self.old.done.items) }
    {
        self.body = false;
        match terminal {
            Terminal::Word(Word::For) => self.levels.push(Open::Head {
                choice: false,
                brackets: 0,
            })?,
            Terminal::Word(Word::If) => self.levels.push(Open::Head {
                choice: true,
                brackets: 0,
            })?,
            Terminal::Sign(Sign::OpenBrace) => self.levels.push(Open::Block)?,
            Terminal::Word(Word::Else) => {
                if self.is_first_branch() {
                    self.levels.pop();
                    self.body = true;
                }
            }
            _ => {}
        }
        Ok(())
    }

    /// A token in a head, or outside of heads.
    #[tactic(auto, using(crate::proofs::Blocking::read_head, crate::proofs::Blocking::read_open))]
    fn read(&mut self, terminal: Terminal<'a, 'l>) -> Result<(), AllocError>
        ensures reading { OnOk result (reading self.new ≡
            read_in (levels_of self.old.levels) (seen_terminal terminal.entry) (reading self.old)) }
        ensures done { OnOk result (self.new.done.items ≡ self.old.done.items) }
    {
        match self.head() {
            Some((choice, brackets)) => self.in_head(choice, brackets, terminal),
            None => self.open(terminal),
        }
    }

    /// Whether the token ends a statement.
    #[tactic(auto, using(crate::proofs::Blocking::end_headless, crate::proofs::Blocking::end_in_head))]
    fn is_end(&self, terminal: Terminal<'a, 'l>) -> bool
        ensures { result ≡ is_end (levels_of self.now.levels) (seen_terminal terminal.entry) }
    {
        if !self.is_headless() {
            return false;
        }
        terminal.is_sign(Sign::Semicolon) || terminal.is_sign(Sign::CloseBrace)
    }

    /// Closes the block that the token ends, if it ends one.
    fn leave(&mut self, terminal: Terminal<'a, 'l>)
        ensures levels { levels_of self.new.levels ≡ left (levels_of self.old.levels) (seen_terminal terminal.entry) }
        ensures done { self.new.done.items ≡ self.old.done.items }
        ensures same { IsRead self.old self.new }
    {
        if terminal.is_sign(Sign::CloseBrace) {
            self.leave_block();
        }
    }

    /// Behind a token that ends a statement.
    fn end(&mut self, token: Token<'a, 'l>, other: bool) -> Result<(), AllocError>
        ensures done { OnOk result (seen_all self.new.done.items ≡ seen_all self.old.done.items ++
            braces_at (ends other (left (levels_of self.old.levels) (seen_terminal token.entry.terminal))).braces (seen token.entry)) }
        ensures reading { OnOk result (reading self.new ≡ with_open
            (ends other (left (levels_of self.old.levels) (seen_terminal token.entry.terminal))).levels false (reading self.old)) }
    {
        self.leave(token.terminal);
        self.body = false;
        self.end_statement(token, other)
    }

    /// A token where no body comes.
    fn plain(&mut self, token: Token<'a, 'l>, other: bool) -> Result<(), AllocError>
        ensures { OnOk result ((go : Reading → Items) → seen_all self.old.done.items ++ plain (seen token.entry) other (reading self.old) go ≡
            seen_all self.new.done.items ++ go (reading self.new)) }
    {
        let ends = self.is_end(token.terminal);
        self.done.push(token)?;
        self.note(token.terminal)?;
        if ends {
            return self.end(token, other);
        }
        self.read(token.terminal)
    }

    /// Whether a body without braces begins.
    fn begins(&self, terminal: Terminal<'a, 'l>) -> bool
        ensures { result ≡ (self.now.body && begins_body (seen_terminal terminal.entry)) }
    {
        self.body && begins_body(terminal)
    }

    /// A token that begins a body without braces.
    fn begin_body(
        &mut self,
        token: Token<'a, 'l>,
        next: Option<Token<'a, 'l>>,
    ) -> Result<(), AllocError>
        ensures { OnOk result ((go : Reading → Items) → seen_all self.old.done.items ++
            (at (seen token.entry) (Mark sign.OpenBrace) ∷ plain (seen token.entry) (is_else (next_of next.entry))
            (with_open (Around ∷ levels_of self.old.levels) false (reading self.old)) go) ≡
            seen_all self.new.done.items ++ go (reading self.new)) }
    {
        self.done.push(token.at(Terminal::Sign(Sign::OpenBrace)))?;
        self.levels.push(Open::Around)?;
        self.body = false;
        self.plain(token, is_else(next))
    }

    /// Whether a comma ends one declaration and begins another.
    fn parts(&self, terminal: Terminal<'a, 'l>, next: Option<Token<'a, 'l>>) -> bool
        ensures { result ≡ (self.now.declares && (self.now.brackets == 0) && same (Mark sign.Comma) (seen_terminal terminal.entry) && is_name (next_of next.entry)) }
    {
        self.declares && self.brackets == 0 && terminal.is_sign(Sign::Comma) && is_name(next)
    }

    /// A comma between two names of a declaration.
    fn part(&mut self, token: Token<'a, 'l>) -> Result<(), AllocError>
        ensures { OnOk result ((go : Reading → Items) → seen_all self.old.done.items ++
            (at (seen token.entry) (Mark sign.Semicolon) ∷ at (seen token.entry) (Fixed Uint64) ∷ go (reading self.old)) ≡
            seen_all self.new.done.items ++ go (reading self.new)) }
    {
        self.done.push(token.at(Terminal::Sign(Sign::Semicolon)))?;
        self.done.push(token.at(Terminal::Word(Word::Uint64)))?;
        Ok(())
    }

    /// Whether the line belongs to a body without braces, which begins by the token behind it.
    fn begins_before(&self, line: Terminal<'a, 'l>, next: Terminal<'a, 'l>) -> bool
        ensures { result ≡ (self.now.body && is_atomic_line (seen_terminal line.entry) && begins_update (seen_terminal next.entry)) }
    {
        self.body && is_atomic_line(line) && begins_update(next)
    }

    /// A directive line. The brace of a body that it belongs to stands before it, at the place of the update.
    fn take_line(
        &mut self,
        line: Token<'a, 'l>,
        next: Option<Token<'a, 'l>>,
    ) -> Result<(), AllocError>
        ensures { OnOk result ((go : Reading → Items) → seen_all self.old.done.items ++
            line_in_block (seen line.entry) (next_of next.entry) (reading self.old) go ≡
            seen_all self.new.done.items ++ go (reading self.new)) }
    {
        if let Some(update) = next {
            if self.begins_before(line.terminal, update.terminal) {
                self.done.push(update.at(Terminal::Sign(Sign::OpenBrace)))?;
                self.levels.push(Open::Around)?;
                self.body = false;
            }
        }
        self.done.push(line)?;
        Ok(())
    }

    /// The next token, before another behind directive lines.
    fn take(&mut self, token: Token<'a, 'l>, next: Option<Token<'a, 'l>>) -> Result<(), AllocError>
        ensures { OnOk result ((is : Items) → next_of next.entry ≡ take 1 (bare is) →
            with_blocks self.old (seen token.entry ∷ is) ≡ with_blocks self.new is) }
    {
        if token.terminal.is_directive() {
            return self.take_line(token, next);
        }
        if self.begins(token.terminal) {
            return self.begin_body(token, next);
        }
        self.body = false;
        if self.parts(token.terminal, next) {
            return self.part(token);
        }
        self.plain(token, is_else(next))
    }
}

/// The tokens with their braces and types.
pub fn in_blocks<'a, 'l>(
    alloc: Global,
    tokens: &[Token<'a, 'l>],
) -> Result<Vec<Token<'a, 'l>>, AllocError>
    ensures { IfOk result (λ v. seen_all v.items ≡ in_blocks nothing_read (seen_all tokens.now)) }
{
    let mut blocks = Blocks {
        done: Vec::new(alloc),
        levels: Stack::new(alloc),
        body: false,
        declares: false,
        brackets: 0,
        constant: false,
    };
    let mut next = Ahead::new(tokens).next();
    let mut rest = tokens;
    'tokens: while let [token, behind @ ..] = rest {
        if !token.terminal.is_directive() {
            next = Ahead::new(behind).next();
        }
        blocks.take(*token, next)?;
        rest = behind;
    }
    Ok(blocks.done)
}
