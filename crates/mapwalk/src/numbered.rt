// What footprints of items tell.

ghost use Rattle.std.specs.Prelude.{◌≡◌, ◌++◌, ◌∷◌, ◌<◌, ℕ, [], None, OnOk, get_or, length, slice_get, true};
ghost use Rattle.mapwalk.specs.Found.{all_found, told};

use crate::found::{Footprints, Next};
use ranges::Footprint;
use std::alloc::{AllocError, Global};

impl Footprints {
    /// Of no item.
    pub fn new(alloc: Global) -> Footprints
        ensures { all_found result ≡ [] }
    {
        Footprints {
            distinct: Vec::new(alloc),
            numbers: Vec::new(alloc),
        }
    }

    /// Of how many items.
    pub fn len(&self) -> usize
        ensures { result ≡ length (all_found self.now) }
    {
        self.numbers.len()
    }

    /// The footprint of an item.
    pub fn get(&self, item: usize) -> &Option<Footprint>
        requires { item < length (all_found self.now) }
        ensures { result.now ≡ get_or (all_found self.now) item result.now }
    {
        &self.distinct[self.numbers[item]]
    }

    /// Whether two items are known to have the same footprint: they have one number, or neither has a region.
    pub(crate) fn is_shared(&self, earlier: usize, item: usize) -> bool
        ensures { result ≡ true → slice_get (all_found self.now) earlier ≡ slice_get (all_found self.now) item }
    {
        match (self.numbers.get(earlier), self.numbers.get(item)) {
            (Some(left), Some(right)) => {
                left == right || self.distinct[*left].is_none() && self.distinct[*right].is_none()
            }
            _ => false,
        }
    }

    /// The number of an item's footprint.
    pub(crate) fn number_of(&self, item: usize) -> Option<usize> {
        self.numbers.get(item).copied()
    }

    // Of one more item: the footprint with this number.
    fn push_number(&mut self, number: usize) -> Result<(), AllocError>
        requires { number < length self.old.distinct.items }
        ensures pushed { OnOk result (all_found self.new ≡ all_found self.old ++ get_or self.old.distinct.items number None ∷ []) }
    {
        self.numbers.push(number)?;
        Ok(())
    }

    fn push_own(&mut self, found: Option<Footprint>) -> Result<(), AllocError>
        ensures pushed { OnOk result (all_found self.new ≡ all_found self.old ++ found ∷ []) }
    {
        let number = self.distinct.len();
        self.distinct.push(found)?;
        self.push_number(number)
    }

    /// Of one more item.
    pub fn push(&mut self, next: Next) -> Result<(), AllocError>
        requires { (earlier : ℕ) → next ≡ Next.Shared earlier → earlier < length (all_found self.old) }
        ensures pushed { OnOk result (all_found self.new ≡ all_found self.old ++ told (all_found self.old) next ∷ []) }
    {
        match next {
            Next::Own(found) => self.push_own(found),
            Next::Shared(earlier) => {
                let number = self.numbers[earlier];
                self.push_number(number)
            }
        }
    }
}
