//! Tokens so far, with the calls of macros that are open.

ghost use Rattle.std.specs.Prelude.{◌≡◌};

use crate::macros::{Macro, argument_at, fit, is_sure, macro_at};
use c_terminals::{Terminal, Token};
use c_tokens::Sign;
use std::alloc::{AllocError, Global};

/// A call that is open.
#[derive(Drop)]
pub struct Call<'a, 'l> {
    /// The macro's name.
    pub place: Token<'a, 'l>,
    /// How many brackets are open in it, with its own.
    pub depth: usize,
    /// Its arguments before the one that is read.
    pub before: Vec<Vec<Token<'a, 'l>>>,
    pub now: Vec<Token<'a, 'l>>,
}

/// The open calls.
#[derive(Drop)]
pub struct Calls<'a, 'l> {
    calls: Vec<Call<'a, 'l>>,
}

/// What is read.
#[derive(Drop)]
pub struct Reading<'a, 'l> {
    pub alloc: Global,
    pub done: Vec<Token<'a, 'l>>,
    pub calls: Calls<'a, 'l>,
    /// For how many tokens more there is room.
    pub room: usize,
}

impl<'a, 'l> Calls<'a, 'l> {
    ghost use Rattle.std.specs.Prelude.{◌≡◌, ◌∷◌, [], not, MatchOption, OnOk};
    ghost use Rattle.c_grammar.specs.Macros.{has_some};
    ghost use Rattle.c_macros.specs.Macros.{seen_call, seen_calls};

    pub fn new(alloc: Global) -> Calls<'a, 'l>
        ensures { seen_calls result ≡ [] }
    {
        Calls {
            calls: Vec::new(alloc),
        }
    }

    pub fn push(&mut self, call: Call<'a, 'l>) -> Result<(), AllocError>
        ensures { OnOk result (seen_calls self.new ≡ seen_call call.entry ∷ seen_calls self.old) }
    {
        self.calls.push(call)?;
        Ok(())
    }

    /// The innermost one.
    pub fn pop(&mut self) -> Option<Call<'a, 'l>>
        ensures { MatchOption result ((seen_calls self.old ≡ []) × (seen_calls self.new ≡ []))
            (λ c. seen_calls self.old ≡ seen_call c ∷ seen_calls self.new) }
    {
        self.calls.pop()
    }

    pub fn is_open(&self) -> bool
        ensures { result ≡ has_some (seen_calls self.now) }
    {
        !self.calls.is_empty()
    }
}

impl<'a, 'l> Reading<'a, 'l> {
    ghost use Rattle.std.specs.Prelude.{◌≡◌, ◌∷◌, [], map, IfOk};
    ghost use Rattle.c_grammar.specs.Blocks.{at};
    ghost use Rattle.c_grammar.specs.Macros.{closed, expanded_by, in_call, opened, put, put_all, put_body, put_name, put_other, put_sure, step, with_calls};
    ghost use Rattle.c_macros.specs.Macros.{all_macros, lists_of, names_of, read_so_far, seen_call, seen_calls, seen_macro, seen_reading};
    ghost use Rattle.c_terminals.specs.Seen.{seen, seen_all, seen_terminal};

    /// One more token. False where there is no room.
    pub fn put(&mut self, token: Token<'a, 'l>) -> Result<bool, AllocError>
        ensures { IfOk result (λ b. read_so_far b self.new ≡ put (seen token.entry) (seen_reading self.old)) }
    {
        if self.room == 0 {
            return Ok(false);
        }
        self.room -= 1;
        match self.calls.pop() {
            Some(mut call) => {
                call.now.push(token)?;
                self.calls.push(call)?;
            }
            None => self.done.push(token)?,
        }
        Ok(true)
    }

    fn put_sure(&mut self, token: Token<'a, 'l>) -> Result<bool, AllocError>
        ensures { IfOk result (λ b. read_so_far b self.new ≡ put_sure (seen token.entry) (seen_reading self.old)) }
    {
        if is_sure(token.terminal) {
            self.put(token)
        } else {
            Ok(false)
        }
    }

    // A token of a body at the place of the macro's name.
    fn put_at(
        &mut self,
        place: Token<'a, 'l>,
        terminal: Terminal<'a, 'l>,
    ) -> Result<bool, AllocError>
        ensures { IfOk result (λ b. read_so_far b self.new ≡
            put_sure (at (seen place.entry) (seen_terminal terminal.entry)) (seen_reading self.old)) }
    {
        if is_sure(terminal) {
            self.put(place.at(terminal))
        } else {
            Ok(false)
        }
    }

    fn put_all(&mut self, tokens: &[Token<'a, 'l>]) -> Result<bool, AllocError>
        ensures { IfOk result (λ b. read_so_far b self.new ≡ put_all (seen_all tokens.now) (seen_reading self.old)) }
    {
        let mut rest = tokens;
        'tokens: while let [token, behind @ ..] = rest {
            rest = behind;
            if !self.put_sure(*token)? {
                return Ok(false);
            }
        }
        Ok(true)
    }

    // The body at the place of the macro's name, with the arguments for the parameters.
    fn put_body(
        &mut self,
        place: Token<'a, 'l>,
        parameters: &[&[u8]],
        arguments: &[Vec<Token<'a, 'l>>],
        body: &[Terminal<'a, 'l>],
    ) -> Result<bool, AllocError>
        ensures { IfOk result (λ b. read_so_far b self.new ≡
            put_body (seen place.entry) (names_of parameters.now) (lists_of arguments.now) (map seen_terminal body.now) (seen_reading self.old)) }
    {
        let mut rest = body;
        'body: while let [terminal, behind @ ..] = rest {
            rest = behind;
            let put = match argument_at(parameters, arguments, *terminal) {
                Some(list) => self.put_all(list)?,
                None => self.put_at(place, *terminal)?,
            };
            if !put {
                return Ok(false);
            }
        }
        Ok(true)
    }

    fn put_name(&mut self, opens: bool, token: Token<'a, 'l>) -> Result<bool, AllocError>
        ensures { IfOk result (λ b. read_so_far b self.new ≡
            put_name opens (seen token.entry) (seen_reading self.old) (seen_calls self.old.calls)) }
    {
        if opens {
            self.calls.push(Call {
                place: token,
                depth: 0,
                before: Vec::new(self.alloc),
                now: Vec::new(self.alloc),
            })?;
            return Ok(true);
        }
        if self.calls.is_open() {
            return Ok(false);
        }
        self.put(token)
    }

    fn put_other(
        &mut self,
        macros: &[Macro<'a, 'l>],
        opens: bool,
        token: Token<'a, 'l>,
    ) -> Result<bool, AllocError>
        ensures { IfOk result (λ b. read_so_far b self.new ≡
            put_other (all_macros macros.now) opens (seen token.entry) (seen_reading self.old)) }
    {
        if macro_at(macros, token.terminal).is_some() {
            self.put_name(opens, token)
        } else {
            self.put(token)
        }
    }

    // A bracket; that of the call itself is no part of an argument.
    fn open(&mut self, token: Token<'a, 'l>, call: Call<'a, 'l>) -> Result<bool, AllocError>
        ensures { IfOk result (λ b. read_so_far b self.new ≡
            opened (seen token.entry) (seen_call call.entry) (seen_calls self.old.calls) (seen_reading self.old)) }
    {
        let mut call = call;
        let first = call.depth == 0;
        call.depth = call.depth.checked_add(1).ok_or(AllocError)?;
        self.calls.push(call)?;
        if first {
            return Ok(true);
        }
        self.put(token)
    }

    fn close(
        &mut self,
        macros: &[Macro<'a, 'l>],
        token: Token<'a, 'l>,
        call: Call<'a, 'l>,
    ) -> Result<bool, AllocError>
        ensures { IfOk result (λ b. read_so_far b self.new ≡
            closed (all_macros macros.now) (seen token.entry) (seen_call call.entry) (seen_calls self.old.calls) (seen_reading self.old)) }
    {
        let mut call = call;
        if call.depth > 1 {
            call.depth -= 1;
            self.calls.push(call)?;
            return self.put(token);
        }
        let Call {
            place,
            depth: _,
            mut before,
            now,
        } = call;
        before.push(now)?;
        let Some(found) = macro_at(macros, place.terminal) else {
            return Ok(false);
        };
        if !fit(&found.parameters, &before) {
            return Ok(false);
        }
        self.put_body(place, &found.parameters, &before, &found.body)
    }

    // A token in the innermost call, which was taken out.
    fn in_call(
        &mut self,
        macros: &[Macro<'a, 'l>],
        opens: bool,
        token: Token<'a, 'l>,
        call: Call<'a, 'l>,
    ) -> Result<bool, AllocError>
        ensures { IfOk result (λ b. read_so_far b self.new ≡
            in_call (all_macros macros.now) opens (seen token.entry) (seen_call call.entry) (seen_calls self.old.calls)
            (with_calls (seen_reading self.old) (seen_call call.entry ∷ seen_calls self.old.calls))) }
    {
        if !is_sure(token.terminal) {
            return Ok(false);
        }
        if token.terminal.is_sign(Sign::OpenParen) {
            return self.open(token, call);
        }
        if token.terminal.is_sign(Sign::CloseParen) {
            return self.close(macros, token, call);
        }
        if token.terminal.is_sign(Sign::Comma) && call.depth == 1 {
            let Call {
                place,
                depth,
                mut before,
                now,
            } = call;
            before.push(now)?;
            self.calls.push(Call {
                place,
                depth,
                before,
                now: Vec::new(self.alloc),
            })?;
            return Ok(true);
        }
        self.calls.push(call)?;
        self.put_other(macros, opens, token)
    }

    /// A token, which an opening bracket follows or not. False where it is not surely one of C.
    pub fn take(
        &mut self,
        macros: &[Macro<'a, 'l>],
        opens: bool,
        token: Token<'a, 'l>,
    ) -> Result<bool, AllocError>
        ensures { IfOk result (λ b. read_so_far b self.new ≡
            step (all_macros macros.now) opens (seen token.entry) (seen_reading self.old)) }
    {
        match self.calls.pop() {
            Some(call) => self.in_call(macros, opens, token, call),
            None => self.put_other(macros, opens, token),
        }
    }
}
