//! The pass over all tokens.

ghost use Rattle.std.specs.Prelude.{◌≡◌, ◌≤◌, ◌++◌, length, IfOk, OnOk};
ghost use Rattle.c_grammar.specs.Choices.{chosen, declared, held, written};
ghost use Rattle.c_choices.specs.Held.{cell_put, value_put};
ghost use Rattle.c_terminals.specs.Seen.{seen, seen_all};

use crate::kinds::{alone, brackets_behind, is_boundary};
use crate::lifted::put_lifted;
use crate::statements::{left_len, statement};
use c_terminals::{Ahead, Terminal, Token};
use c_tokens::Sign;
use directives::Word;
use std::alloc::{AllocError, Global};

/// A statement may have so many question marks in one another, or one behind another.
const MAX_CHOICES: usize = 4;

// `NAME = 0;` and then the assignment, behind the type.
fn put_declared<'a, 'l>(
    alloc: Global,
    done: &mut Vec<Token<'a, 'l>>,
    token: Token<'a, 'l>,
    rest: &[Token<'a, 'l>],
) -> Result<(), AllocError>
    ensures { OnOk result (seen_all done.new.items ≡
        seen_all done.old.items ++ declared (seen token.entry) (seen_all rest.now)) }
{
    done.push(token)?;
    let [name, ..] = rest else {
        return Ok(());
    };
    done.push(*name)?;
    done.push(name.at(Terminal::Sign(Sign::Equal)))?;
    done.push(name.at(Terminal::Number(0)))?;
    done.push(name.at(Terminal::Sign(Sign::Semicolon)))?;
    put_lifted(alloc, done, MAX_CHOICES, rest)
}

// The local that holds a value, in a block that it begins.
fn put_value<'a, 'l>(
    alloc: Global,
    done: &mut Vec<Token<'a, 'l>>,
    token: Token<'a, 'l>,
    value: &[Token<'a, 'l>],
) -> Result<(), AllocError>
    ensures { OnOk result (seen_all done.new.items ≡
        seen_all done.old.items ++ value_put (seen token.entry) (seen_all value.now)) }
{
    let mut declared = Vec::new(alloc);
    declared.push(token.at(Terminal::Name(b"?".as_slice())))?;
    declared.push(token.at(Terminal::Sign(Sign::Equal)))?;
    declared.extend_from_slice(value)?;
    done.push(token.at(Terminal::Sign(Sign::OpenBrace)))?;
    put_declared(
        alloc,
        done,
        token.at(Terminal::Word(Word::Uint64)),
        &declared,
    )
}

// The cell, which gets the value, and the end of the block.
fn put_cell<'a, 'l>(
    done: &mut Vec<Token<'a, 'l>>,
    token: Token<'a, 'l>,
    left: &[Token<'a, 'l>],
) -> Result<(), AllocError>
    ensures { OnOk result (seen_all done.new.items ≡
        seen_all done.old.items ++ cell_put (seen token.entry) (seen_all left.now)) }
{
    done.push(token)?;
    done.extend_from_slice(left)?;
    done.push(token.at(Terminal::Name(b"?".as_slice())))?;
    done.push(token.at(Terminal::Sign(Sign::Semicolon)))?;
    done.push(token.at(Terminal::Sign(Sign::CloseBrace)))?;
    Ok(())
}

// A cell that is assigned by the first tokens, and the value behind them, which a local holds.
fn put_held<'a, 'l>(
    alloc: Global,
    done: &mut Vec<Token<'a, 'l>>,
    token: Token<'a, 'l>,
    rest: &[Token<'a, 'l>],
    len: usize,
) -> Result<(), AllocError>
    requires { len ≤ length rest.now }
    ensures { OnOk result (seen_all done.new.items ≡
        seen_all done.old.items ++ held (seen token.entry) (seen_all rest.now) len) }
{
    put_value(alloc, done, token, &rest[len..])?;
    put_cell(done, token, &rest[..len])?;
    Ok(())
}

// The statement of these tokens.
fn put_written<'a, 'l>(
    alloc: Global,
    done: &mut Vec<Token<'a, 'l>>,
    token: Token<'a, 'l>,
    rest: &[Token<'a, 'l>],
) -> Result<(), AllocError>
    ensures { OnOk result (seen_all done.new.items ≡
        seen_all done.old.items ++ written (seen token.entry) (seen_all rest.now)) }
{
    if token.terminal.is_word(Word::Uint64) {
        return put_declared(alloc, done, token, rest);
    }
    if let Some(len) = left_len(rest) {
        return put_held(alloc, done, token, rest, len);
    }
    let mut statement = Vec::new(alloc);
    statement.push(token)?;
    statement.extend_from_slice(rest)?;
    put_lifted(alloc, done, MAX_CHOICES, &statement)
}

/// How many blocks and brackets are open, and whether a statement begins.
#[derive(Clone, Copy)]
struct State {
    blocks: usize,
    brackets: usize,
    starts: bool,
}

impl State {
    ghost use Rattle.std.specs.Prelude.{◌≡◌, IfOk, ◌<◌, ◌^◌};
    ghost use Rattle.c_grammar.specs.Constants.{depth_behind};
    ghost use Rattle.c_grammar.specs.Choices.{behind};
    ghost use Rattle.c_choices.specs.State.{seen_state};
    ghost use Rattle.c_terminals.specs.Seen.{seen};

    // How many blocks are open behind a token.
    fn blocks_behind(self, token: Token<'_, '_>) -> usize
        requires { self.blocks < 2 ^ 63 }
        ensures { result ≡ depth_behind (seen token.entry).terminal self.blocks }
    {
        if token.terminal.is_sign(Sign::OpenBrace) {
            return self.blocks + 1;
        }
        if token.terminal.is_sign(Sign::CloseBrace) {
            return self.blocks.saturating_sub(1);
        }
        self.blocks
    }

    /// Behind a token.
    fn behind(self, token: Token<'_, '_>) -> Result<State, AllocError>
        ensures { IfOk result (λ s. seen_state s ≡ behind (seen token.entry) (seen_state self)) }
    {
        const MOST: usize = 1 << 62;
        if self.blocks > MOST || self.brackets > MOST {
            return Err(AllocError);
        }
        Ok(State {
            blocks: self.blocks_behind(token),
            brackets: brackets_behind(token, self.brackets),
            starts: self.brackets == 0 && is_boundary(token.terminal),
        })
    }
}

/// The tokens so far.
#[derive(Drop)]
struct Choices<'a, 'l> {
    done: Vec<Token<'a, 'l>>,
    state: State,
    /// How many tokens are still to be left out.
    left: usize,
}

impl<'a, 'l> Choices<'a, 'l> {
    ghost use Rattle.std.specs.Prelude.{◌≡◌, ◌∷◌, None, Some, length, take, IfOk, MatchOption, OnOk};
    ghost use Rattle.c_grammar.specs.Blocks.{bare};
    ghost use Rattle.c_grammar.specs.Choices.{choice_len};
    ghost use Rattle.c_choices.specs.State.{seen_state, with_choices};
    ghost use Rattle.c_terminals.specs.Seen.{seen, seen_all};

    /// Where a statement that is put twice begins: the tokens behind its first.
    fn statement(
        &self,
        alloc: Global,
        token: Token<'a, 'l>,
        rest: &[Token<'a, 'l>],
    ) -> Result<Option<Vec<Token<'a, 'l>>>, AllocError>
        ensures { IfOk result (λ o. MatchOption o
            (choice_len (seen_state self.now.state) (seen token.entry) (bare (seen_all rest.now)) ≡ None)
            (λ v. (choice_len (seen_state self.now.state) (seen token.entry) (bare (seen_all rest.now)) ≡
            Some (length v.items)) × (seen_all v.items ≡ take (length v.items) (bare (seen_all rest.now))))) }
    {
        if self.state.starts && self.state.blocks != 0 {
            statement(alloc, token, Ahead::new(rest))
        } else {
            Ok(None)
        }
    }

    /// The next token, before others.
    fn take(
        &mut self,
        alloc: Global,
        token: Token<'a, 'l>,
        rest: &[Token<'a, 'l>],
    ) -> Result<(), AllocError>
        ensures { OnOk result (with_choices self.old (seen token.entry ∷ seen_all rest.now) ≡
            with_choices self.new (seen_all rest.now)) }
    {
        if token.terminal.is_directive() {
            self.done.push(token)?;
            return Ok(());
        }
        if self.left > 0 {
            self.left -= 1;
            return Ok(());
        }
        if let Some(statement) = self.statement(alloc, token, rest)? {
            put_written(alloc, &mut self.done, token, &statement)?;
            self.left = statement.len();
            return Ok(());
        }
        self.done.push(alone(token))?;
        self.state = self.state.behind(token)?;
        Ok(())
    }
}

/// The tokens with each conditional operator as an `if` and its `else`.
pub fn chosen<'a, 'l>(
    alloc: Global,
    tokens: &[Token<'a, 'l>],
) -> Result<Vec<Token<'a, 'l>>, AllocError>
    ensures { IfOk result (λ v. seen_all v.items ≡ chosen (seen_all tokens.now)) }
{
    let mut choices = Choices {
        done: Vec::new(alloc),
        state: State {
            blocks: 0,
            brackets: 0,
            starts: false,
        },
        left: 0,
    };
    let mut rest = tokens;
    'tokens: while let [token, behind @ ..] = rest {
        choices.take(alloc, *token, behind)?;
        rest = behind;
    }
    Ok(choices.done)
}
