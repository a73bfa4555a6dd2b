// The loops around a place: each has a block, or a statement without braces.

use crate::source::{is_before, text_of};
use base::tree::Place;
use c_tokens::{Kind, Tokens};
use std::alloc::{AllocError, Global};

// What has a head in brackets, and then a body.
#[derive(Clone, Copy, PartialEq, Eq)]
enum Head {
    Loop,
    Branch,
}

// What is open.
#[derive(Clone, Copy)]
enum Level<'a> {
    // A block, which may be the body of a loop of that name.
    Block(Option<&'a str>),
    // A loop whose body has no braces.
    Loop(&'a str),
    // The first branch of an `if`.
    First,
}

#[derive(Drop)]
struct Nest<'a> {
    levels: Vec<Level<'a>>,
    // The head that is read, and how many brackets are open in it.
    head: Option<Head>,
    brackets: u32,
    // The name of the loop whose head was read last.
    name: Option<&'a str>,
    // Whose body is to come.
    body: Option<Head>,
    // A statement has ended.
    is_over: bool,
    last: &'a str,
}

// How many levels stay open behind a statement, where the word `else` may follow.
fn left_open(levels: &[Level<'_>], is_else: bool) -> usize {
    let mut left = 0;
    'levels: for (level, open) in levels.iter().enumerate() {
        match open {
            Level::Block(_) => left = level.saturating_add(1),
            Level::First if is_else => left = level,
            _ => {}
        }
    }
    left
}

// At which level the innermost block is.
fn innermost_block(levels: &[Level<'_>]) -> usize {
    let mut at = 0;
    'levels: for (level, open) in levels.iter().enumerate() {
        if matches!(open, Level::Block(_)) {
            at = level;
        }
    }
    at
}

impl<'a> Nest<'a> {
    fn open_head(&mut self, head: Head) {
        self.head = Some(head);
        self.brackets = 0;
        if head == Head::Loop {
            self.name = None;
        }
    }

    fn end_head(&mut self) -> Result<(), AllocError> {
        self.body = self.head;
        if self.head == Some(Head::Branch) {
            self.levels.push(Level::First)?;
        }
        self.head = None;
        Ok(())
    }

    // The name of a loop stands before the first `=`.
    fn take_in_head(&mut self, text: &'a str) -> Result<(), AllocError> {
        if text == "(" {
            self.brackets = self.brackets.saturating_add(1);
        } else if text == ")" {
            self.brackets = self.brackets.saturating_sub(1);
            if self.brackets == 0 {
                self.end_head()?;
            }
        } else if text == "=" && self.name.is_none() {
            self.name = Some(self.last);
        }
        Ok(())
    }

    // The loop's name, if it is a loop whose body comes.
    fn take_body(&mut self) -> Option<&'a str> {
        let is_loop = self.body == Some(Head::Loop);
        self.body = None;
        if is_loop { self.name } else { None }
    }

    fn take_in_block(&mut self, text: &'a str) -> Result<(), AllocError> {
        let name = self.take_body();
        if text == "{" {
            self.levels.push(Level::Block(name))?;
            return Ok(());
        }
        if let Some(name) = name {
            self.levels.push(Level::Loop(name))?;
        }
        if text == "for" {
            self.open_head(Head::Loop);
        } else if text == "if" {
            self.open_head(Head::Branch);
        } else if text == "}" {
            self.levels.truncate(innermost_block(&self.levels));
        }
        self.is_over = text == "}" || text == ";";
        Ok(())
    }

    fn take(&mut self, text: &'a str) -> Result<(), AllocError> {
        self.end_statement(text == "else");
        if self.head.is_some() {
            self.take_in_head(text)?;
        } else {
            self.take_in_block(text)?;
        }
        self.last = text;
        Ok(())
    }

    fn end_statement(&mut self, is_else: bool) {
        if self.is_over {
            self.levels.truncate(left_open(&self.levels, is_else));
            self.is_over = false;
        }
    }

    fn names(&self, alloc: Global) -> Result<Vec<&'a str>, AllocError> {
        let mut names = Vec::new(alloc);
        'levels: for level in self.levels.as_slice() {
            match level {
                Level::Block(Some(name)) => names.push(*name)?,
                Level::Loop(name) => names.push(*name)?,
                _ => {}
            }
        }
        Ok(names)
    }
}

/// The names of the loops around a place, the outermost first.
pub fn loops_around<'a>(
    alloc: Global,
    bytes: &'a [u8],
    place: Place,
) -> Result<Vec<&'a str>, AllocError> {
    let mut nest = Nest {
        levels: Vec::new(alloc),
        head: None,
        brackets: 0,
        name: None,
        body: None,
        is_over: false,
        last: "",
    };
    'tokens: for token in Tokens::new(bytes) {
        if !is_before(&token, place) {
            break;
        }
        // a directive stands among the tokens of a statement, and is none of them
        if !matches!(token.kind, Kind::Line) {
            nest.take(text_of(bytes, &token))?;
        }
    }
    nest.end_statement(false);
    if let Some(name) = nest.take_body() {
        nest.levels.push(Level::Loop(name))?;
    }
    nest.names(alloc)
}
