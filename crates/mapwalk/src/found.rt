// The footprints of items, each kept once.

ghost use Rattle.std.specs.Prelude.{length};
ghost use Rattle.mapwalk.specs.Numbered.{AllUnder};

use ranges::Footprint;

/// The footprint of the next item: its own, or the one of this earlier item.
#[derive(Drop)]
pub enum Next {
    Own(Option<Footprint>),
    Shared(usize),
}

/// The footprints of the first items of a program, none for an item without a region. Those of items that touch alike are
/// kept once: each item has the number of its footprint.
#[derive(Drop)]
pub struct Footprints {
    pub(crate) distinct: Vec<Option<Footprint>>,
    pub(crate) numbers: Vec<usize>,
    ghost inside: { AllUnder (length distinct.items) numbers.items },
}
