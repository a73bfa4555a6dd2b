// The present table without values: the blocks and their counts.

ghost use Rattle.mapwalk.specs.Counts.{CountUpTo};
ghost use Rattle.mapwalk.specs.Spots.{AreOrdered};

use crate::blocks::{Block, Place, copies_in, copies_out, left};
use crate::ordered::{create, recount, remove};
use crate::rows::Acts;
use crate::spots::{Found, Spot, find};
use base::item::{MapItem, Section};
use std::alloc::{AllocError, Global};

/// The blocks in the order of their creation and of their places, and how many entries there were.
#[derive(Drop)]
pub struct Blocks {
    pub blocks: Vec<Block>,
    spots: Vec<Spot>,
    pub entries: u128,
    ghost counted: { CountUpTo entries blocks.items },
    ghost ordered: { AreOrdered blocks.items spots.items },
}

impl Blocks {
    ghost use Rattle.std.specs.Prelude.{◌≡◌, ◌+◌, ◌<◌, ◌^◌, [], IfOk, OnOk};
    ghost use Rattle.base.specs.Map.{blocks_after, entry, exit, presence};
    ghost use Rattle.mapwalk.specs.Acts.{entry_of, exit_of};
    ghost use Rattle.mapwalk.specs.Blocks.{present_at};
    ghost use Rattle.mapwalk.specs.Spots.{IsHeldAt, IsInsideAt};
    ghost use Rattle.mapwalk.specs.Table.{blocks_of};

    pub fn new(alloc: Global) -> Blocks
        ensures none { blocks_of result ≡ [] }
        ensures entries { result.entries ≡ 0 }
    {
        Blocks {
            blocks: Vec::new(alloc),
            spots: Vec::new(alloc),
            entries: 0,
        }
    }

    // The block of a spot, and its number.
    fn held(&self, section: &Section, at: usize) -> (usize, Block)
        requires { IsInsideAt self.now.blocks.items self.now.spots.items section.now at }
        ensures { IsHeldAt self.now.blocks.items self.now.spots.items section.now at result.0 result.1 }
    {
        let _section = section;
        let number = self.spots[at].number;
        (number, self.blocks[number])
    }

    /// Where a section lies.
    pub fn place(&self, section: &Section) -> Place
        ensures { present_at result ≡ presence (blocks_of self.now) section.now }
    {
        match find(&self.blocks, &self.spots, section) {
            Found::Absent(_) => Place::Absent,
            Found::Inside(at) => Place::Inside(self.held(section, at).1),
            Found::InPart => Place::InPart,
        }
    }

    /// One entry, which rests or works.
    pub fn enter(&mut self, item: &MapItem, rests: bool) -> Result<Acts, AllocError>
        requires { self.old.entries + 1 < 2 ^ 128 }
        ensures acts { IfOk result (λ a. a ≡ entry_of rests item.now (blocks_of self.old)) }
        ensures blocks { OnOk result (blocks_of self.new ≡ blocks_after (blocks_of self.old) (entry item.now (blocks_of self.old))) }
        ensures entries { OnOk result (self.new.entries ≡ self.old.entries + 1) }
    {
        match find(&self.blocks, &self.spots, &item.section) {
            Found::Absent(_) if item.present => {
                self.entries += 1;
                Ok(Acts::look(item.section, true))
            }
            Found::Absent(at) => {
                self.entries += 1;
                create(&mut self.blocks, &mut self.spots, at, item.section)?;
                Ok(Acts {
                    creates: true,
                    copies_in: copies_in(item, 1),
                    ..Acts::look(item.section, rests)
                })
            }
            Found::Inside(at) => {
                let (number, block) = self.held(&item.section, at);
                let count = block.count + 1;
                self.entries += 1;
                recount(&mut self.blocks, number, count);
                Ok(Acts {
                    copies_in: copies_in(item, count),
                    ..Acts::look(block.section, rests)
                })
            }
            Found::InPart => {
                self.entries += 1;
                Ok(Acts::look(item.section, true))
            }
        }
    }

    /// One exit, which rests or works.
    pub fn leave(&mut self, item: &MapItem, rests: bool) -> Acts
        ensures acts { result ≡ exit_of rests item.now (blocks_of self.old) }
        ensures blocks { blocks_of self.new ≡ blocks_after (blocks_of self.old) (exit item.now (blocks_of self.old)) }
        ensures entries { self.new.entries ≡ self.old.entries }
    {
        match find(&self.blocks, &self.spots, &item.section) {
            Found::Absent(_) => Acts::look(item.section, rests),
            Found::InPart => Acts::look(item.section, true),
            Found::Inside(at) => {
                let (number, block) = self.held(&item.section, at);
                let count = left(item.kind, block.count);
                if count == 0 {
                    remove(&mut self.blocks, &mut self.spots, at);
                } else {
                    recount(&mut self.blocks, number, count);
                }
                Acts {
                    removes: count == 0,
                    copies_out: copies_out(item, count),
                    ..Acts::look(block.section, rests)
                }
            }
        }
    }
}
