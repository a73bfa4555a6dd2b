//! The pass over all tokens.

ghost use Rattle.std.specs.Prelude.{◌≡◌, IfOk};
ghost use Rattle.c_grammar.specs.Devices.{on_devices};
ghost use Rattle.c_terminals.specs.Held.{written_all};
ghost use Rattle.c_terminals.specs.Seen.{seen_all};

use crate::blocks::Blocks;
use crate::heads::loop_in;
use crate::lines::line_with;
use c_terminals::{Terminal, Token, Written, WrittenTerminal};
use c_tokens::Sign;
use directives::Word;
use std::alloc::{AllocError, Global};

/// The tokens so far.
#[derive(Drop)]
struct Devices<'a> {
    alloc: Global,
    done: Vec<Written<'a>>,
    blocks: Blocks<'a>,
    /// The name of a loop whose values are devices and whose block the next brace opens.
    next: Option<&'a [u8]>,
}

impl<'a> Devices<'a> {
    ghost use Rattle.std.specs.Prelude.{◌≡◌, ◌∷◌, [], OnOk, true};
    ghost use Rattle.c_grammar.specs.Blocks.{is_directive};
    ghost use Rattle.c_grammar.specs.Devices.{behind, line_for};
    ghost use Rattle.c_terminals.specs.Seen.{seen, seen_all, seen_terminal};
    ghost use Rattle.c_devices.specs.Blocks.{open_blocks};
    ghost use Rattle.c_devices.specs.State.{HasPut, IsBehind, seen_state, with_devices};

    /// A directive line.
    fn put_line(&mut self, token: Token<'a, '_>) -> Result<(), AllocError>
        requires { is_directive (seen_terminal token.terminal) ≡ true }
        ensures { OnOk result (HasPut self.old
            (line_for (open_blocks self.old.blocks) (seen token.entry) (seen token.entry).terminal) self.new) }
    {
        let Terminal::Line(line) = token.terminal else {
            self.done.push(Written::of(self.alloc, token)?)?;
            return Ok(());
        };
        let written = line_with(self.alloc, &self.blocks, line)?;
        self.done.push(Written {
            terminal: WrittenTerminal::Line(written),
            line: token.line,
            column: token.column,
        })?;
        Ok(())
    }

    /// Goes behind a token, before others.
    fn go_behind(&mut self, token: Token<'a, '_>, rest: &[Token<'a, '_>]) -> Result<(), AllocError>
        ensures { OnOk result
            (IsBehind self.old (behind (seen_state self.old) (seen token.entry) (seen_all rest.now)) self.new) }
    {
        if token.terminal.is_sign(Sign::OpenBrace) {
            self.blocks.push(self.next)?;
            self.next = None;
            return Ok(());
        }
        if token.terminal.is_sign(Sign::CloseBrace) {
            self.blocks.close();
            self.next = None;
            return Ok(());
        }
        if token.terminal.is_word(Word::For) {
            self.next = loop_in(rest);
        }
        Ok(())
    }

    /// The next token, before others.
    fn take(&mut self, token: Token<'a, '_>, rest: &[Token<'a, '_>]) -> Result<(), AllocError>
        ensures { OnOk result (with_devices self.old (seen token.entry ∷ seen_all rest.now) ≡
            with_devices self.new (seen_all rest.now)) }
    {
        if token.terminal.is_directive() {
            return self.put_line(token);
        }
        self.done.push(Written::of(self.alloc, token)?)?;
        self.go_behind(token, rest)
    }
}

/// The tokens with a number that no device has in the place of each name in `device(NAME)` that is none.
pub fn on_devices<'a>(
    alloc: Global,
    tokens: &[Token<'a, '_>],
) -> Result<Vec<Written<'a>>, AllocError>
    ensures { IfOk result (λ v. written_all v.items ≡ on_devices (seen_all tokens.now)) }
{
    let mut devices = Devices {
        alloc,
        done: Vec::new(alloc),
        blocks: Blocks::new(alloc),
        next: None,
    };
    let mut rest = tokens;
    'tokens: while let [token, behind @ ..] = rest {
        devices.take(*token, behind)?;
        rest = behind;
    }
    Ok(devices.done)
}
