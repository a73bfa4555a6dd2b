// Where a directive can stand behind statements, and at the end of a block.

use crate::lines::cut;
use base::tree::Place;
use c_tokens::{Kind, Sign, Token, tokens};
use erasure::is_directive;
use std::alloc::{AllocError, Global};

// Statements that are read, one after the other.
#[derive(Clone, Copy)]
struct Run {
    /// Where the statement begins that is read; none where the next token begins one.
    begin: Option<Place>,
    /// How many braces are open in it.
    braces: usize,
    /// How many other brackets are open in it.
    brackets: usize,
}

fn place_of(token: &Token) -> Place {
    Place {
        line: token.line,
        column: token.column,
    }
}

fn is_before(token: &Token, place: Place) -> bool {
    token.line < place.line || (token.line == place.line && token.column < place.column)
}

fn is_return(text: &[u8], token: &Token) -> bool {
    matches!(token.kind, Kind::Name)
        && cut(text, token.first, token.last.saturating_add(1)) == b"return".as_slice()
}

impl Run {
    fn new() -> Run {
        Run {
            begin: None,
            braces: 0,
            brackets: 0,
        }
    }

    // Whether the block around ends with a token.
    fn is_end(&self, text: &[u8], token: &Token) -> bool {
        match token.kind {
            Kind::Sign(Sign::CloseBrace) => self.braces == 0,
            _ => self.begin.is_none() && is_return(text, token),
        }
    }

    fn take(&mut self, token: &Token) {
        if self.begin.is_none() {
            self.begin = Some(place_of(token));
        }
        match token.kind {
            Kind::Sign(Sign::OpenBrace) => self.braces = self.braces.saturating_add(1),
            Kind::Sign(Sign::CloseBrace) => {
                self.braces = self.braces.saturating_sub(1);
                if self.braces == 0 {
                    self.begin = None;
                }
            }
            Kind::Sign(Sign::OpenParen) => self.brackets = self.brackets.saturating_add(1),
            Kind::Sign(Sign::CloseParen) => self.brackets = self.brackets.saturating_sub(1),
            Kind::Sign(Sign::Semicolon) => {
                if self.braces == 0 && self.brackets == 0 {
                    self.begin = None;
                }
            }
            _ => {}
        }
    }
}

/// Where what follows the statements without directives begins that begin at a place: a directive, a statement with
/// one, or the end of their block.
pub fn behind_statements(text: &[u8], place: Place) -> Option<Place> {
    let mut run = Run::new();
    for token in tokens(text) {
        if is_before(&token, place) {
            continue;
        }
        if is_directive(text, &token) {
            return Some(run.begin.unwrap_or(place_of(&token)));
        }
        if run.is_end(text, &token) {
            return Some(place_of(&token));
        }
        run.take(&token);
    }
    None
}

/// Where the block around a line ends: at its brace, or at the `return` before it.
pub fn end_of_block(text: &[u8], line: usize) -> Option<Place> {
    let mut run = Run::new();
    for token in tokens(text) {
        if token.line < line {
            continue;
        }
        if run.is_end(text, &token) {
            return Some(place_of(&token));
        }
        match token.kind {
            Kind::Line => {}
            _ => run.take(&token),
        }
    }
    None
}

/// The tokens of the statement that follows a line, without those of lines that begin with `#`.
pub fn statement_tokens(alloc: Global, text: &[u8], line: usize) -> Result<Vec<Token>, AllocError> {
    let mut run = Run::new();
    let mut found = Vec::new(alloc);
    for token in tokens(text) {
        if token.line <= line || matches!(token.kind, Kind::Line) {
            continue;
        }
        if run.is_end(text, &token) {
            return Ok(found);
        }
        run.take(&token);
        found.push(token)?;
        if run.begin.is_none() {
            return Ok(found);
        }
    }
    Ok(found)
}
