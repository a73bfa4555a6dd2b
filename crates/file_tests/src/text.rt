//! A text to which its parts are added. Whether memory was wanting for one of them is told at its end, once for all.

use std::alloc::{AllocError, Global};
use std::fmt::{Debug, Display};
use std::io;
use std::io::Write;

#[derive(Drop)]
pub(crate) struct Text {
    bytes: Vec<u8>,
    lacks_memory: bool,
}

impl Text {
    pub(crate) fn new(alloc: Global) -> Text {
        Text {
            bytes: Vec::new(alloc),
            lacks_memory: false,
        }
    }

    /// Where to write what other crates print. What they answer is for `keep`.
    pub(crate) fn bytes(&mut self) -> &mut Vec<u8> {
        &mut self.bytes
    }

    pub(crate) fn lack(&mut self) {
        self.lacks_memory = true;
    }

    /// Takes note of what writing to the text came to, which fails only for want of memory.
    pub(crate) fn keep(&mut self, written: io::Result<()>) {
        self.lacks_memory |= written.is_err();
    }

    pub(crate) fn add_bytes(&mut self, bytes: &[u8]) {
        self.lacks_memory |= self.bytes.extend_from_slice(bytes).is_err();
    }

    pub(crate) fn add(&mut self, text: &str) {
        self.add_bytes(text.as_bytes())
    }

    pub(crate) fn add_shown<T: Display + Copy>(&mut self, it: T) {
        let written = write!(self.bytes, "{it}");
        self.keep(written)
    }

    /// Adds a word, and behind it a number or whatever it is.
    pub(crate) fn add_with<T: Display + Copy>(&mut self, word: &str, it: T) {
        self.add(word);
        self.add_shown(it)
    }

    pub(crate) fn add_line<T: Display + Copy>(&mut self, it: T) {
        self.add_shown(it);
        self.add("\n")
    }

    pub(crate) fn add_debug<T: Debug + Copy>(&mut self, it: T) {
        let written = write!(self.bytes, "{it:?}");
        self.keep(written)
    }

    pub(crate) fn end(self) -> Result<Vec<u8>, AllocError> {
        if self.lacks_memory {
            return Err(AllocError);
        }
        Ok(self.bytes)
    }
}
