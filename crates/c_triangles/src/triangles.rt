//! The pass over all tokens.

ghost use Rattle.std.specs.Prelude.{◌≡◌, IfOk};
ghost use Rattle.c_grammar.specs.Triangles.{rectangular};
ghost use Rattle.c_terminals.specs.Seen.{seen_all};

use crate::blocks::{Blocks, Open};
use crate::guards::put_loop;
use crate::loops::{Loop, MAX_HEAD, loop_of};
use c_choices::next_tokens;
use c_terminals::{Ahead, Terminal, Token};
use c_tokens::Sign;
use directives::Word;
use std::alloc::{AllocError, Global};

/// The tokens so far.
#[derive(Drop)]
struct Triangles<'a, 'l> {
    done: Vec<Token<'a, 'l>>,
    blocks: Blocks<'a>,
    /// What the next brace opens.
    next: Open<'a>,
    /// How many tokens are still to be left out.
    left: usize,
}

impl<'a, 'l> Triangles<'a, 'l> {
    ghost use Rattle.std.specs.Prelude.{◌≡◌, ◌++◌, ◌∷◌, OnOk};
    ghost use Rattle.c_grammar.specs.Blocks.{bare};
    ghost use Rattle.c_grammar.specs.Triangles.{behind, closing};
    ghost use Rattle.c_triangles.specs.Blocks.{open_blocks};
    ghost use Rattle.c_triangles.specs.Loops.{seen_loop};
    ghost use Rattle.c_triangles.specs.State.{Closes, IsBehind, for_with, loop_put, put_with, seen_state, with_loops};
    ghost use Rattle.c_terminals.specs.Seen.{seen, seen_all};

    /// Goes behind a token.
    fn go_behind(&mut self, token: Token<'a, 'l>) -> Result<(), AllocError>
        ensures { OnOk result (IsBehind self.old (behind (seen_state self.old) (seen token.entry)) self.new) }
    {
        if token.terminal.is_sign(Sign::OpenBrace) {
            self.blocks.push(self.next)?;
            self.next = Open::Plain;
            return Ok(());
        }
        if token.terminal.is_sign(Sign::CloseBrace) {
            self.blocks.close();
            self.next = Open::Plain;
        }
        Ok(())
    }

    // The brace that closes the innermost block, with that of its `if`.
    fn put_closing(&mut self, token: Token<'a, 'l>) -> Result<(), AllocError>
        ensures { OnOk result (Closes self.old (closing (seen_state self.old).blocks (seen token.entry)) self.new) }
    {
        if self.blocks.is_guarded() {
            self.done.push(token.at(Terminal::Sign(Sign::CloseBrace)))?;
        }
        self.done.push(token)?;
        Ok(())
    }

    // A token where no loop begins that is understood.
    fn put(&mut self, token: Token<'a, 'l>, rest: &[Token<'a, 'l>]) -> Result<(), AllocError>
        requires { self.now.left ≡ 0 }
        ensures { OnOk result (put_with self.old (seen token.entry) (seen_all rest.now) ≡ with_loops self.new (seen_all rest.now)) }
    {
        if token.terminal.is_sign(Sign::CloseBrace) {
            self.put_closing(token)?;
        } else {
            self.done.push(token)?;
        }
        self.go_behind(token)
    }

    // The word `for` of a loop that is understood.
    fn put_loop(
        &mut self,
        token: Token<'a, 'l>,
        own: Loop<'a, 'l, '_>,
        rest: &[Token<'a, 'l>],
    ) -> Result<(), AllocError>
        requires { self.now.left ≡ 0 }
        ensures { OnOk result (loop_put self.old (seen token.entry) (seen_loop own.entry) (seen_all rest.now) ≡
            with_loops self.new (seen_all rest.now)) }
    {
        self.done.push(token)?;
        if !own.is_written() {
            self.next = own.block();
            return Ok(());
        }
        put_loop(&mut self.done, own)?;
        self.blocks.push(own.block())?;
        self.next = Open::Plain;
        self.left = own.len()?;
        Ok(())
    }

    // The word `for`.
    fn take_for(
        &mut self,
        alloc: Global,
        token: Token<'a, 'l>,
        rest: &[Token<'a, 'l>],
    ) -> Result<(), AllocError>
        requires { self.now.left ≡ 0 }
        ensures { OnOk result (for_with self.old (seen token.entry) (bare (seen_all rest.now)) (seen_all rest.now) ≡
            with_loops self.new (seen_all rest.now)) }
    {
        let head = next_tokens(alloc, Ahead::new(rest), MAX_HEAD)?;
        if let Some(own) = loop_of(&self.blocks, &head) {
            self.put_loop(token, own, rest)?;
            return Ok(());
        }
        self.put(token, rest)?;
        Ok(())
    }

    /// The next token, before others.
    fn take(
        &mut self,
        alloc: Global,
        token: Token<'a, 'l>,
        rest: &[Token<'a, 'l>],
    ) -> Result<(), AllocError>
        ensures { OnOk result (with_loops self.old (seen token.entry ∷ seen_all rest.now) ≡
            with_loops self.new (seen_all rest.now)) }
    {
        if token.terminal.is_directive() {
            self.done.push(token)?;
            return Ok(());
        }
        if self.left > 0 {
            self.left -= 1;
            return Ok(());
        }
        if token.terminal.is_word(Word::For) {
            return self.take_for(alloc, token, rest);
        }
        self.put(token, rest)
    }
}

/// The tokens with numbers for the bounds of loops whose bounds name loops around.
pub fn rectangular<'a, 'l>(
    alloc: Global,
    tokens: &[Token<'a, 'l>],
) -> Result<Vec<Token<'a, 'l>>, AllocError>
    ensures { IfOk result (λ v. seen_all v.items ≡ rectangular (seen_all tokens.now)) }
{
    let mut triangles = Triangles {
        done: Vec::new(alloc),
        blocks: Blocks::new(alloc),
        next: Open::Plain,
        left: 0,
    };
    let mut rest = tokens;
    'tokens: while let [token, behind @ ..] = rest {
        triangles.take(alloc, *token, behind)?;
        rest = behind;
    }
    Ok(triangles.done)
}
