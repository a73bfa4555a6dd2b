//! A list of which the last item comes first.

use std::alloc::{AllocError, Global};

#[derive(Drop)]
pub struct Stack<T> {
    items: Vec<T>,
}

impl<T: Copy> Stack<T> {
    ghost use Rattle.std.specs.Prelude.{◌≡◌, ◌∷◌, [], length, MatchOption, OnOk};
    ghost use Rattle.c_written.specs.Stack.{held, item_at};

    pub fn new(alloc: Global) -> Stack<T>
        ensures { held result ≡ [] }
    {
        Stack {
            items: Vec::new(alloc),
        }
    }

    pub fn push(&mut self, item: T) -> Result<(), AllocError>
        ensures { OnOk result (held self.new ≡ item ∷ held self.old) }
    {
        self.items.push(item)?;
        Ok(())
    }

    pub fn pop(&mut self) -> Option<T>
        ensures { MatchOption result ((held self.old ≡ []) × (held self.new ≡ [])) (λ x. held self.old ≡ x ∷ held self.new) }
    {
        self.items.pop()
    }

    pub fn len(&self) -> usize
        ensures { result ≡ length (held self.now) }
    {
        self.items.len()
    }

    /// The item that so many items were put on.
    pub fn peek(&self, below: usize) -> Option<T>
        ensures { result ≡ item_at below (held self.now) }
    {
        if below < self.items.len() {
            return Some(self.items[self.items.len() - 1 - below]);
        }
        None
    }

    pub fn clear(&mut self)
        ensures { held self.new ≡ [] }
    {
        self.items.clear();
    }
}
