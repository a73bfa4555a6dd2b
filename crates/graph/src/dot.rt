// The text of a graph while it is made.

use crate::escape::{escaped, quoted};
use std::alloc::{AllocError, Global};

/// A graph. Its words are this program's own; each text of a source goes through `escaped` or `quoted`.
#[derive(Drop)]
pub struct Dot {
    alloc: Global,
    text: Vec<u8>,
}

impl Dot {
    /// An empty text.
    pub fn new(alloc: Global) -> Dot {
        Dot {
            alloc,
            text: Vec::new(alloc),
        }
    }

    /// Adds words of DOT, which are no text of a source.
    pub fn add(&mut self, words: &'static str) -> Result<(), AllocError> {
        self.text.extend_from_slice(words.as_bytes())
    }

    /// Adds a number.
    pub fn add_number(&mut self, number: u64) -> Result<(), AllocError> {
        let text = format!(in self.alloc; "{number}")?;
        self.text.extend_from_slice(text.as_bytes())
    }

    /// Adds a number below a million, with a comma behind the thousands.
    pub fn add_amount(&mut self, number: usize) -> Result<(), AllocError> {
        if number < 1_000 {
            return self.add_number(number as u64);
        }
        let text = format!(in self.alloc; "{},{:03}", number / 1_000, number % 1_000)?;
        self.text.extend_from_slice(text.as_bytes())
    }

    /// Adds a text inside a string.
    pub fn add_inside(&mut self, bytes: &[u8]) -> Result<(), AllocError> {
        let text = escaped(self.alloc, bytes)?;
        self.text.extend_from_slice(&text)
    }

    /// Adds a text as a string.
    pub fn add_quoted(&mut self, bytes: &[u8]) -> Result<(), AllocError> {
        let text = quoted(self.alloc, bytes)?;
        self.text.extend_from_slice(&text)
    }

    /// The bytes of the text.
    pub fn into_bytes(self) -> Vec<u8> {
        let Dot { text, .. } = self;
        text
    }
}
