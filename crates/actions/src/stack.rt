// What is left of a strand, by value.

ghost use Rattle.std.specs.Prelude.{◌≡◌, ◌∷◌, [], OnOk, OnErr};
ghost use Rattle.actions.specs.Rest.{Popped, frames_of};

use crate::frame::Frame;
use std::alloc::{AllocError, Global};

/// What is left of a strand, the next part on top.
#[derive(Drop)]
pub struct Frames<'p> {
    all: Vec<Frame<'p>>,
}

impl<'p> Frames<'p> {
    /// Nothing.
    pub fn new(alloc: Global) -> Frames<'p>
        ensures { frames_of result ≡ [] }
    {
        Frames {
            all: Vec::new(alloc),
        }
    }

    /// A part comes before the others.
    pub fn push(&mut self, frame: Frame<'p>) -> Result<(), AllocError>
        ensures pushed { OnOk result (frames_of self.new ≡ frame.entry ∷ frames_of self.old) }
        ensures unchanged { OnErr result (frames_of self.new ≡ frames_of self.old) }
    {
        self.all.push(frame)?;
        Ok(())
    }

    /// The next part leaves.
    pub fn pop(&mut self) -> Option<Frame<'p>>
        ensures { Popped (frames_of self.old) result (frames_of self.new) }
    {
        self.all.pop()
    }

    /// The next part.
    pub fn top(&self) -> Option<Frame<'p>>
        ensures { result ≡ Rattle.actions.specs.Rest.top (frames_of self.now) }
    {
        self.all.last().copied()
    }
}
