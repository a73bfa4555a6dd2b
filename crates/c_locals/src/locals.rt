//! The passes over all tokens.

ghost use Rattle.std.specs.Prelude.{◌≡◌, ◌++◌, IfOk, OnOk};
ghost use Rattle.c_grammar.specs.Locals.{begin, in_scalars, scan, unrolled};
ghost use Rattle.c_terminals.specs.Held.{written_all};
ghost use Rattle.c_terminals.specs.Seen.{seen_all};
ghost use Rattle.c_locals.specs.Locals.{seen_pass};

use crate::blocks::{Blocks, Open};
use crate::declarations::declared_by;
use crate::hidden::hides;
use crate::indices::named_put;
use crate::lines::line_at;
use crate::lists::listed_put;
use crate::loops::{MAX_AHEAD, unrolled_at};
use crate::puts::{Put, State};
use crate::scalars::scalars_put;
use c_choices::next_tokens;
use c_terminals::{Ahead, Token, Written, borrowed, owned};
use directives::Word;
use std::alloc::{AllocError, Global};

/// What a pass does.
#[derive(Clone, Copy)]
enum Pass {
    /// Lists are written as assignments, and loops unrolled.
    Unroll,
    /// Cells are replaced by scalars.
    Replace,
}

// These tokens are put behind the others.
fn put_tokens<'a>(
    alloc: Global,
    done: &mut Vec<Written<'a>>,
    tokens: &[Token<'a, '_>],
) -> Result<(), AllocError>
    ensures { OnOk result (written_all done.new.items ≡ written_all done.old.items ++ seen_all tokens.now) }
{
    let mut rest = tokens;
    'tokens: while let [token, behind @ ..] = rest {
        done.push(Written::of(alloc, *token)?)?;
        rest = behind;
    }
    Ok(())
}

/// The tokens so far.
#[derive(Drop)]
struct Locals<'a> {
    alloc: Global,
    pass: Pass,
    done: Vec<Written<'a>>,
    state: State<'a>,
    /// How many tokens are still to be left out.
    left: usize,
}

impl<'a> Locals<'a> {
    ghost use Rattle.std.specs.Prelude.{◌≡◌, ◌∷◌, IfOk, OnOk, take, true};
    ghost use Rattle.std.specs.Option.{option_map};
    ghost use Rattle.c_grammar.specs.Blocks.{bare, is_directive};
    ghost use Rattle.c_grammar.specs.Locals.{declared, declared_put, line_at, plain, put_at};
    ghost use Rattle.c_locals.specs.Blocks.{open_blocks};
    ghost use Rattle.c_terminals.specs.Seen.{seen, seen_all, seen_terminal};
    ghost use Rattle.c_locals.specs.Locals.{HasPut, IsPut, seen_pass, with_locals};
    ghost use Rattle.c_locals.specs.Puts.{seen_put, seen_state};

    /// A directive line.
    fn put_line(&mut self, token: Token<'a, '_>) -> Result<(), AllocError>
        requires { is_directive (seen_terminal token.terminal) ≡ true }
        ensures { OnOk result (HasPut self.old (line_at self.old.left (seen token.entry)) self.new) }
    {
        self.done.push(line_at(self.alloc, self.left, token)?)?;
        Ok(())
    }

    // What stands for a type, where it declares an array.
    fn declared_at<'l>(
        &self,
        token: Token<'a, 'l>,
        rest: &[Token<'a, 'l>],
    ) -> Result<Option<Put<'a, 'l>>, AllocError>
        ensures { IfOk result (λ o. option_map (seen_put (seen_state self.now.state)) o ≡
            declared_put (seen_pass self.now.pass) (seen_state self.now.state) (seen token.entry) (bare (seen_all rest.now))
            (declared (open_blocks self.now.state.blocks) (take 6 (bare (seen_all rest.now))))) }
    {
        let front = next_tokens(self.alloc, Ahead::new(rest), 6)?;
        let Some(own) = declared_by(&self.state.blocks, &front) else {
            return Ok(None);
        };
        if let Pass::Replace = self.pass {
            return scalars_put(self.alloc, &self.state, token, own);
        }
        if own.listed {
            let tokens = next_tokens(self.alloc, Ahead::new(rest), MAX_AHEAD)?;
            return listed_put(self.alloc, &self.state, token, &tokens, own);
        }
        let mut tokens = Vec::new(self.alloc);
        tokens.push(token)?;
        Ok(Some(Put {
            tokens,
            array: Some(own.array(0)),
            used: self.state.used,
            skip: 0,
        }))
    }

    // What stands for a token, where it is not the token.
    fn put_at<'l>(
        &self,
        token: Token<'a, 'l>,
        rest: &[Token<'a, 'l>],
    ) -> Result<Option<Put<'a, 'l>>, AllocError>
        ensures { IfOk result (λ o. option_map (seen_put (seen_state self.now.state)) o ≡
            put_at (seen_pass self.now.pass) (seen_state self.now.state) (seen token.entry) (bare (seen_all rest.now))) }
    {
        if token.terminal.is_word(Word::Uint64) {
            return self.declared_at(token, rest);
        }
        match self.pass {
            Pass::Unroll => unrolled_at(self.alloc, &self.state, token, rest),
            Pass::Replace => named_put(self.alloc, &self.state, token, rest),
        }
    }

    // The tokens that stand for one and some behind it.
    fn put(&mut self, own: Put<'a, '_>) -> Result<(), AllocError>
        ensures { OnOk result (IsPut self.old (seen_put (seen_state self.old.state) own.entry) self.new) }
    {
        put_tokens(self.alloc, &mut self.done, &own.tokens)?;
        if let Some(array) = own.array {
            self.state.blocks.push(Open::Array(array))?;
        }
        self.state.used = own.used;
        self.left = own.skip;
        Ok(())
    }

    // A token by itself.
    fn put_plain(&mut self, token: Token<'a, '_>) -> Result<(), AllocError>
        requires { self.now.left ≡ 0 }
        ensures { OnOk result (IsPut self.old (plain (seen_state self.old.state) (seen token.entry)) self.new) }
    {
        self.done.push(Written::of(self.alloc, token)?)?;
        self.state.blocks.go_behind(token)
    }

    /// The next token, before others.
    fn take<'l>(&mut self, token: Token<'a, 'l>, rest: &[Token<'a, 'l>]) -> Result<(), AllocError>
        ensures { OnOk result (with_locals self.old (seen token.entry ∷ seen_all rest.now) ≡
            with_locals self.new (seen_all rest.now)) }
    {
        if token.terminal.is_directive() {
            return self.put_line(token);
        }
        if self.left > 0 {
            self.left -= 1;
            return Ok(());
        }
        match self.put_at(token, rest)? {
            Some(own) => self.put(own),
            None => self.put_plain(token),
        }
    }
}

// One pass.
fn scan<'a>(
    alloc: Global,
    pass: Pass,
    tokens: &[Token<'a, '_>],
) -> Result<Vec<Written<'a>>, AllocError>
    ensures { IfOk result (λ v. written_all v.items ≡ scan (seen_pass pass) begin 0 (seen_all tokens.now)) }
{
    let mut locals = Locals {
        alloc,
        pass,
        done: Vec::new(alloc),
        state: State {
            blocks: Blocks::new(alloc),
            used: 0,
        },
        left: 0,
    };
    let mut rest = tokens;
    'tokens: while let [token, behind @ ..] = rest {
        locals.take(*token, behind)?;
        rest = behind;
    }
    Ok(locals.done)
}

// Loops in loops, from outside inwards.
fn unrolled<'a>(alloc: Global, tokens: &[Token<'a, '_>]) -> Result<Vec<Written<'a>>, AllocError>
    ensures { IfOk result (λ v. written_all v.items ≡ unrolled (seen_all tokens.now)) }
{
    let tokens = scan(alloc, Pass::Unroll, tokens)?;
    let tokens = borrowed(alloc, &tokens)?;
    let tokens = scan(alloc, Pass::Unroll, &tokens)?;
    let tokens = borrowed(alloc, &tokens)?;
    scan(alloc, Pass::Unroll, &tokens)
}

/// The tokens with scalars in the place of local arrays, which stay where one of them hides a global.
pub fn in_scalars<'a>(
    alloc: Global,
    tokens: &[Token<'a, '_>],
) -> Result<Vec<Written<'a>>, AllocError>
    ensures { IfOk result (λ v. written_all v.items ≡ in_scalars (seen_all tokens.now)) }
{
    if hides(alloc, tokens)? {
        return owned(alloc, tokens);
    }
    let tokens = unrolled(alloc, tokens)?;
    let tokens = borrowed(alloc, &tokens)?;
    scan(alloc, Pass::Replace, &tokens)
}
