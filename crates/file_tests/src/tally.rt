//! How many texts are as wanted, and those that are not.

use crate::text::Text;
use std::alloc::Global;
use std::io;
use std::io::Write;

#[derive(Drop)]
pub(crate) struct Tally {
    right: u64,
    wrong: u64,
    /// The texts that are not as wanted, each below the name of its file.
    text: Text,
}

impl Tally {
    pub(crate) fn new(alloc: Global) -> Tally {
        Tally {
            right: 0,
            wrong: 0,
            text: Text::new(alloc),
        }
    }

    fn add_wrong(&mut self, name: &str, ending: &str, text: &[u8]) {
        self.wrong = self.wrong.saturating_add(1);
        self.text.add("== ");
        self.text.add(name);
        self.text.add(ending);
        self.text.add("\n");
        self.text.add_bytes(text);
        self.text.add("\n");
    }

    /// Compares a text with that of the file with that name and ending.
    pub(crate) fn compare(&mut self, name: &str, ending: &str, text: &[u8], wanted: &[u8]) {
        if text == wanted {
            self.right = self.right.saturating_add(1);
        } else {
            self.add_wrong(name, ending, text);
        }
    }

    /// Prints what is not as wanted and how many of these things are, and answers whether all are.
    pub(crate) fn tell<W: Write>(self, things: &str, out: &mut W) -> io::Result<bool> {
        let (right, wrong) = (self.right, self.wrong);
        out.write_all(&self.text.end()?)?;
        writeln!(out, "{right} {things} as wanted, {wrong} not")?;
        Ok(wrong == 0)
    }
}
