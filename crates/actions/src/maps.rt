// Map items, and a section, whose cells lie in a device.

ghost use Rattle.present.specs.Blocks.{IsSection};
ghost use Rattle.present.specs.Table.{AreSections};

use base::item::{MapItem, Section};

/// Map items in turn.
#[derive(Clone, Copy)]
pub struct Maps<'p> {
    pub items: &'p [MapItem],
    ghost sections: { AreSections items.now },
}

/// A section of a block.
#[derive(Clone, Copy)]
pub struct Held {
    pub section: Section,
    ghost is_section: { IsSection section },
}
