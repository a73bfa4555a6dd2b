//! Where a token stands: at the beginning of a statement, where a body may stand, in brackets.

ghost use Rattle.std.specs.Prelude.{◌≡◌};
ghost use Rattle.c_grammar.specs.Needless.{begins_if};
ghost use Rattle.c_needless.specs.States.{seen_before};

use c_terminals::{Terminal, Token};
use c_tokens::Sign;
use directives::Word;
use std::alloc::{AllocError, Global};

/// What stands before a token.
#[derive(Clone, Copy)]
pub enum Before {
    /// A statement begins.
    Begins,
    /// A bracket or the word `else`, behind which a body may stand.
    Bodied,
    Other,
}

#[derive(Drop)]
pub struct State {
    /// Which braces are open, the innermost last, and whether each is that of a block.
    braces: Vec<bool>,
    round: usize,
    before: Before,
}

fn begins_if(block: bool) -> Before
    ensures { seen_before result ≡ begins_if block }
{
    if block {
        return Before::Begins;
    }
    Before::Other
}

impl Before {
    ghost use Rattle.std.specs.Prelude.{◌≡◌};
    ghost use Rattle.c_grammar.specs.Needless.{is_begin, opens_block};
    ghost use Rattle.c_needless.specs.States.{seen_before};

    fn is_begin(self) -> bool
        ensures { result ≡ is_begin (seen_before self) }
    {
        match self {
            Before::Begins => true,
            _ => false,
        }
    }

    // Whether a brace that opens there is that of a block.
    fn opens_block(self) -> bool
        ensures { result ≡ opens_block (seen_before self) }
    {
        match self {
            Before::Other => false,
            _ => true,
        }
    }
}

impl State {
    ghost use Rattle.std.specs.Prelude.{◌≡◌, OnOk};
    ghost use Rattle.c_grammar.specs.Needless.{begin, behind, closed, is_begin, is_outside, opened, plain};
    ghost use Rattle.c_terminals.specs.Seen.{seen};
    ghost use Rattle.c_needless.specs.States.{seen_state};

    /// Before the first token.
    pub fn begin(alloc: Global) -> State
        ensures { seen_state result ≡ begin }
    {
        State {
            braces: Vec::new(alloc),
            round: 0,
            before: Before::Begins,
        }
    }

    /// Whether a statement begins.
    pub fn is_begin(&self) -> bool
        ensures { result ≡ is_begin (seen_state self.now).before }
    {
        self.before.is_begin()
    }

    /// Whether no brace is open.
    pub fn is_outside(&self) -> bool
        ensures { result ≡ is_outside (seen_state self.now).braces }
    {
        self.braces.is_empty()
    }

    fn open(&mut self) -> Result<(), AllocError>
        ensures { OnOk result (seen_state self.new ≡ opened (seen_state self.old)) }
    {
        let block = self.before.opens_block();
        self.braces.push(block)?;
        self.before = begins_if(block);
        Ok(())
    }

    fn close(&mut self)
        ensures { seen_state self.new ≡ closed (seen_state self.old) }
    {
        let block = match self.braces.pop() {
            Some(block) => block,
            None => false,
        };
        self.before = begins_if(block);
    }

    fn plain(&mut self, token: Token<'_, '_>) -> Result<(), AllocError>
        ensures { OnOk result (seen_state self.new ≡ plain (seen_state self.old) (seen token.entry)) }
    {
        if token.terminal.is_sign(Sign::OpenParen) {
            self.round = self.round.checked_add(1).ok_or(AllocError)?;
            self.before = Before::Other;
        } else if token.terminal.is_sign(Sign::CloseParen) {
            self.round = self.round.saturating_sub(1);
            self.before = Before::Bodied;
        } else if token.terminal.is_sign(Sign::Semicolon) {
            self.before = begins_if(self.round == 0);
        } else if token.terminal.is_word(Word::Else) {
            self.before = Before::Bodied;
        } else {
            self.before = Before::Other;
        }
        Ok(())
    }

    /// Behind a token.
    pub fn take(&mut self, token: Token<'_, '_>) -> Result<(), AllocError>
        ensures { OnOk result (seen_state self.new ≡ behind (seen_state self.old) (seen token.entry)) }
    {
        if let Terminal::Line(_) = token.terminal {
            return Ok(());
        }
        if token.terminal.is_sign(Sign::OpenBrace) {
            return self.open();
        }
        if token.terminal.is_sign(Sign::CloseBrace) {
            self.close();
            return Ok(());
        }
        self.plain(token)
    }
}
