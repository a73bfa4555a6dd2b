// The text of a page while it is made.

use crate::escape::escaped;
use std::alloc::{AllocError, Global};

/// A page. Its markup is this program's own; each text of a source goes through `escaped`.
#[derive(Drop)]
pub struct Page {
    pub alloc: Global,
    text: Vec<u8>,
}

impl Page {
    /// An empty page.
    pub fn new(alloc: Global) -> Page {
        Page {
            alloc,
            text: Vec::new(alloc),
        }
    }

    /// Adds markup, which is no text of a source.
    pub fn add(&mut self, markup: &'static str) -> Result<(), AllocError> {
        self.text.extend_from_slice(markup.as_bytes())
    }

    /// Adds bytes of a source.
    pub fn add_bytes(&mut self, bytes: &[u8]) -> Result<(), AllocError> {
        let text = escaped(self.alloc, bytes)?;
        self.text.extend_from_slice(&text)
    }

    /// Adds a text.
    pub fn add_text(&mut self, text: &str) -> Result<(), AllocError> {
        self.add_bytes(text.as_bytes())
    }

    /// Adds a number.
    pub fn add_number(&mut self, number: u64) -> Result<(), AllocError> {
        let text = format!(in self.alloc; "{number}")?;
        self.add_text(&text)
    }

    /// Adds a number and a word, of which there is one form for one and another for more.
    pub fn add_count(
        &mut self,
        number: u64,
        one: &'static str,
        more: &'static str,
    ) -> Result<(), AllocError> {
        self.add_number(number)?;
        self.add(if number == 1 { one } else { more })
    }

    /// Adds the part of a whole that is before a place, in hundredths, behind `%`.
    pub fn add_percent(&mut self, at: u64, whole: u64) -> Result<(), AllocError> {
        let parts = at.min(whole).saturating_mul(100_000) / whole.max(1);
        let text = format!(in self.alloc; "{}.{:03}%", parts / 1_000, parts % 1_000)?;
        self.add_text(&text)
    }

    /// The bytes of the page.
    pub fn into_bytes(self) -> Vec<u8> {
        let Page { text, .. } = self;
        text
    }
}
