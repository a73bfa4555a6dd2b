//! The pass over all tokens.

ghost use Rattle.std.specs.Prelude.{◌≡◌, ◌++◌, IfOk, OnOk};
ghost use Rattle.c_grammar.specs.Blocks.{bare};
ghost use Rattle.c_grammar.specs.Descents.{block_of, upward};
ghost use Rattle.c_terminals.specs.Held.{written_all};
ghost use Rattle.c_terminals.specs.Seen.{seen_all};
ghost use Rattle.c_descents.specs.Blocks.{seen_open};
ghost use Rattle.c_descents.specs.State.{seen_next};

use crate::blocks::{Blocks, Open, Turned};
use crate::heads::{name_in, small_in};
use crate::lines::line_with;
use crate::loops::{Loop, MAX_HEAD, loop_of};
use crate::sums::{before_sum, behind_sum, put_stand};
use c_choices::next_tokens;
use c_terminals::{Ahead, Terminal, Token, Written, WrittenTerminal};
use c_tokens::Sign;
use directives::Word;
use std::alloc::{AllocError, Global};

// These tokens are put behind the others.
fn put_tokens<'a>(
    alloc: Global,
    done: &mut Vec<Written<'a>>,
    tokens: &[Token<'a, '_>],
) -> Result<(), AllocError>
    ensures { OnOk result (written_all done.new.items ≡ written_all done.old.items ++ seen_all tokens.now) }
{
    let mut rest = tokens;
    'tokens: while let [token, behind @ ..] = rest {
        done.push(Written::of(alloc, *token)?)?;
        rest = behind;
    }
    Ok(())
}

// The block that the name of an `int` has, if there is one.
fn small_or_plain<'a>(name: Option<&'a [u8]>) -> Open<'a>
    ensures { seen_open result ≡ seen_next name.entry }
{
    match name {
        Some(name) => Open::Small(name),
        None => Open::Plain,
    }
}

// The name that a loop has which counts up, where it is an `int`, by the tokens behind the word `for`.
#[tactic(auto, using(crate::proofs::Heading::block_small, crate::proofs::Heading::block_plain))]
fn small_name<'a>(alloc: Global, rest: &[Token<'a, '_>]) -> Result<Option<&'a [u8]>, AllocError>
    ensures { IfOk result (λ o. seen_next o ≡ block_of (bare (seen_all rest.now))) }
{
    let head = next_tokens(alloc, Ahead::new(rest), 4)?;
    if small_in(&head) {
        return Ok(name_in(&head));
    }
    Ok(None)
}

/// The tokens so far.
#[derive(Drop)]
struct Descents<'a> {
    alloc: Global,
    done: Vec<Written<'a>>,
    blocks: Blocks<'a>,
    /// The name of a loop that counts up and whose block the next brace opens, if it is an `int`.
    next: Option<&'a [u8]>,
    /// A sum may stand without brackets.
    free: bool,
    /// How many tokens are still to be left out.
    left: usize,
}

impl<'a> Descents<'a> {
    ghost use Rattle.std.specs.Prelude.{◌≡◌, ◌++◌, ◌∷◌, [], OnOk, Some, true};
    ghost use Rattle.std.specs.Option.{option_map};
    ghost use Rattle.c_grammar.specs.Blocks.{bare, is_directive};
    ghost use Rattle.c_grammar.specs.Descents.{behind, line_for, put};
    ghost use Rattle.c_terminals.specs.Ahead.{ahead};
    ghost use Rattle.c_terminals.specs.Seen.{seen, seen_all, seen_terminal};
    ghost use Rattle.c_descents.specs.Blocks.{open_blocks};
    ghost use Rattle.c_descents.specs.Loops.{seen_loop};
    ghost use Rattle.c_descents.specs.State.{HasPut, IsBehind, for_with, loop_put, put_with, seen_state, with_descents};

    /// A directive line.
    fn put_line(&mut self, token: Token<'a, '_>) -> Result<(), AllocError>
        requires { is_directive (seen_terminal token.terminal) ≡ true }
        ensures { OnOk result (HasPut self.old
            (line_for (open_blocks self.old.blocks) (seen token.entry) (seen token.entry).terminal ∷ []) self.new) }
    {
        let Terminal::Line(line) = token.terminal else {
            self.done.push(Written::of(self.alloc, token)?)?;
            return Ok(());
        };
        let written = line_with(self.alloc, &self.blocks, line)?;
        self.done.push(Written {
            terminal: WrittenTerminal::Line(written),
            line: token.line,
            column: token.column,
        })?;
        Ok(())
    }

    // A token, or what stands for it.
    fn put_token(&mut self, token: Token<'a, '_>, next: Ahead<'a, '_, '_>) -> Result<(), AllocError>
        ensures { OnOk result
            (HasPut self.old (put (open_blocks self.old.blocks) self.old.free (seen token.entry) (ahead next.entry)) self.new) }
    {
        let Some(parts) = self.blocks.stands_of(token.terminal) else {
            self.done.push(Written::of(self.alloc, token)?)?;
            return Ok(());
        };
        let mut next = next;
        let free = self.free && behind_sum(next.next());
        let mut tokens = Vec::new(self.alloc);
        put_stand(&mut tokens, free, token, parts)?;
        put_tokens(self.alloc, &mut self.done, &tokens)
    }

    /// Goes behind a token, before others.
    fn go_behind(&mut self, token: Token<'a, '_>, rest: &[Token<'a, '_>]) -> Result<(), AllocError>
        ensures { OnOk result
            (IsBehind self.old (behind (seen_state self.old) (seen token.entry) (bare (seen_all rest.now))) self.new) }
    {
        self.free = before_sum(token);
        if token.terminal.is_sign(Sign::OpenBrace) {
            self.blocks.push(small_or_plain(self.next))?;
            self.next = None;
            return Ok(());
        }
        if token.terminal.is_sign(Sign::CloseBrace) {
            self.blocks.close();
            self.next = None;
            return Ok(());
        }
        if token.terminal.is_word(Word::For) {
            self.next = small_name(self.alloc, rest)?;
        }
        Ok(())
    }

    // The word `for` of a loop that counts down.
    fn put_loop<'l>(
        &mut self,
        token: Token<'a, 'l>,
        own: Loop<'a, 'l, '_>,
        rest: &[Token<'a, 'l>],
    ) -> Result<(), AllocError>
        requires { self.now.left ≡ 0 }
        ensures { OnOk result (loop_put self.old (seen token.entry) (seen_loop own.entry) (bare (seen_all rest.now)) (seen_all rest.now) ≡
            with_descents self.new (seen_all rest.now)) }
    {
        let mut tokens = Vec::new(self.alloc);
        tokens.push(token)?;
        own.put_head(&mut tokens)?;
        put_tokens(self.alloc, &mut self.done, &tokens)?;
        self.blocks.push(Open::Turned(Turned {
            name: own.name,
            small: own.small,
            stands: own.stands(self.alloc)?,
        }))?;
        self.next = None;
        self.free = false;
        self.left = own.len()?;
        Ok(())
    }

    // A token where no such loop begins, before others.
    fn put(&mut self, token: Token<'a, '_>, rest: &[Token<'a, '_>]) -> Result<(), AllocError>
        requires { self.now.left ≡ 0 }
        ensures { OnOk result (put_with self.old (seen token.entry) (bare (seen_all rest.now)) (seen_all rest.now) ≡
            with_descents self.new (seen_all rest.now)) }
    {
        self.put_token(token, Ahead::new(rest))?;
        self.go_behind(token, rest)
    }

    // The word `for`, before others.
    fn take_for<'l>(
        &mut self,
        token: Token<'a, 'l>,
        rest: &[Token<'a, 'l>],
    ) -> Result<(), AllocError>
        requires { self.now.left ≡ 0 }
        ensures { OnOk result (for_with self.old (seen token.entry) (bare (seen_all rest.now)) (seen_all rest.now) ≡
            with_descents self.new (seen_all rest.now)) }
    {
        let head = next_tokens(self.alloc, Ahead::new(rest), MAX_HEAD)?;
        if let Some(own) = loop_of(self.alloc, &self.blocks, &head)? {
            self.put_loop(token, own, rest)?;
            return Ok(());
        }
        self.put(token, rest)?;
        Ok(())
    }

    /// The next token, before others.
    fn take<'l>(&mut self, token: Token<'a, 'l>, rest: &[Token<'a, 'l>]) -> Result<(), AllocError>
        ensures { OnOk result (with_descents self.old (seen token.entry ∷ seen_all rest.now) ≡
            with_descents self.new (seen_all rest.now)) }
    {
        if token.terminal.is_directive() {
            return self.put_line(token);
        }
        if self.left > 0 {
            self.left -= 1;
            return Ok(());
        }
        if token.terminal.is_word(Word::For) {
            return self.take_for(token, rest);
        }
        self.put(token, rest)
    }
}

/// The tokens with loops that count up in the place of those that count down.
pub fn upward<'a>(alloc: Global, tokens: &[Token<'a, '_>]) -> Result<Vec<Written<'a>>, AllocError>
    ensures { IfOk result (λ v. written_all v.items ≡ upward (seen_all tokens.now)) }
{
    let mut descents = Descents {
        alloc,
        done: Vec::new(alloc),
        blocks: Blocks::new(alloc),
        next: None,
        free: false,
        left: 0,
    };
    let mut rest = tokens;
    'tokens: while let [token, behind @ ..] = rest {
        descents.take(*token, behind)?;
        rest = behind;
    }
    Ok(descents.done)
}
