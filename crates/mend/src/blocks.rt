// Which loops are around a line, and where the block behind a line ends.

use crate::lines::cut;
use base::tree::Place;
use c_tokens::{Kind, Sign, Token, tokens};
use erasure::is_directive;
use std::alloc::{AllocError, Global};

// A block that is open.
#[derive(Clone, Copy)]
struct Opened {
    line: usize,
    is_loop: bool,
}

// What is open where a token stands.
#[derive(Drop)]
struct Blocks {
    open: Vec<Opened>,
    /// Where the loop begins whose body comes next; with its directive, where it has one.
    pending: Option<usize>,
    /// How many round brackets are open.
    brackets: usize,
    /// The line of the directive that stands directly before.
    directive: Option<usize>,
}

impl Blocks {
    fn start(&self, token: &Token) -> usize {
        self.directive.unwrap_or(token.line)
    }

    fn take(&mut self, text: &[u8], token: &Token) -> Result<(), AllocError> {
        match token.kind {
            Kind::Name => {
                if cut(text, token.first, token.last.saturating_add(1)) == b"for".as_slice() {
                    self.pending = Some(self.start(token));
                }
            }
            Kind::Sign(Sign::OpenBrace) => {
                self.open.push(Opened {
                    line: self.pending.unwrap_or(token.line),
                    is_loop: self.pending.is_some(),
                })?;
                self.pending = None;
            }
            Kind::Sign(Sign::CloseBrace) => {
                let _ = self.open.pop();
            }
            Kind::Sign(Sign::OpenParen) => self.brackets = self.brackets.saturating_add(1),
            Kind::Sign(Sign::CloseParen) => self.brackets = self.brackets.saturating_sub(1),
            Kind::Sign(Sign::Semicolon) => {
                if self.brackets == 0 {
                    self.pending = None;
                }
            }
            _ => {}
        }
        self.directive = if is_directive(text, token) {
            Some(token.line)
        } else {
            None
        };
        Ok(())
    }

    // The lines at which the loops begin, the outermost first.
    fn loops(&self, alloc: Global) -> Result<Vec<usize>, AllocError> {
        let mut lines = Vec::new(alloc);
        for block in self.open.as_slice() {
            if block.is_loop {
                lines.push(block.line)?;
            }
        }
        Ok(lines)
    }
}

/// The lines at which the loops around a line begin, the outermost first.
pub fn loops_around(alloc: Global, text: &[u8], line: usize) -> Result<Vec<usize>, AllocError> {
    let mut blocks = Blocks {
        open: Vec::new(alloc),
        pending: None,
        brackets: 0,
        directive: None,
    };
    for token in tokens(text) {
        if token.line >= line {
            break;
        }
        blocks.take(text, &token)?;
    }
    blocks.loops(alloc)
}

/// The line of the brace that ends the block or loop behind a directive.
pub fn block_end(text: &[u8], directive: usize) -> Option<usize> {
    let mut depth = 0usize;
    for token in tokens(text) {
        if token.line > directive {
            match token.kind {
                Kind::Sign(Sign::OpenBrace) => depth = depth.saturating_add(1),
                Kind::Sign(Sign::CloseBrace) => {
                    depth = depth.saturating_sub(1);
                    if depth == 0 {
                        return Some(token.line);
                    }
                }
                _ => {}
            }
        }
    }
    None
}

// The heads of loops that are read. Each but the first begins the body of the one before it.
#[derive(Drop)]
struct Heads {
    places: Vec<Place>,
    in_head: bool,
    /// How many brackets are open in the head.
    brackets: usize,
}

impl Heads {
    fn take_in_head(&mut self, token: &Token) {
        match token.kind {
            Kind::Sign(Sign::OpenParen) => self.brackets = self.brackets.saturating_add(1),
            Kind::Sign(Sign::CloseParen) => {
                self.brackets = self.brackets.saturating_sub(1);
                self.in_head = self.brackets > 0;
            }
            _ => {}
        }
    }

    // Whether a token between two heads may stand there.
    fn take(&mut self, text: &[u8], token: &Token) -> Result<bool, AllocError> {
        if self.in_head {
            self.take_in_head(token);
            return Ok(true);
        }
        if let Kind::Sign(Sign::OpenBrace) = token.kind {
            return Ok(true);
        }
        if cut(text, token.first, token.last.saturating_add(1)) != b"for".as_slice() {
            return Ok(false);
        }
        self.places.push(Place {
            line: token.line,
            column: token.column,
        })?;
        self.in_head = true;
        Ok(true)
    }
}

/// Where the loops inside the one behind a directive stand, the outermost first, as far as each begins the body of the one
/// around it.
pub fn loops_inside(
    alloc: Global,
    text: &[u8],
    directive: usize,
) -> Result<Vec<Place>, AllocError> {
    let mut heads = Heads {
        places: Vec::new(alloc),
        in_head: false,
        brackets: 0,
    };
    for token in tokens(text) {
        if token.line > directive && !heads.take(text, &token)? {
            break;
        }
    }
    let Heads { mut places, .. } = heads;
    if !places.is_empty() {
        let _ = places.remove(0);
    }
    Ok(places)
}
