// Entries and exits on the table of one device.

ghost use Rattle.std.specs.Prelude.{◌≡◌, IfOk, OnOk, map, option_map};
ghost use Rattle.base.specs.Map.{blocks_after, entry, exit};
ghost use Rattle.maps.specs.Maps.{exited};
ghost use Rattle.maps.specs.Shown.{block_of, moved_of};

use crate::blocks::{
    Block, Place, entry_copies, exit_copies, exit_count, place_in, recount, remove,
};
use base::item::{MapItem, Section};
use std::alloc::AllocError;

/// What an entry or an exit did: the block that has its section, whether the block was created or removed, and whether
/// values are copied.
#[derive(Clone, Copy)]
pub struct Moved {
    pub block: Section,
    pub changes: bool,
    pub copies: bool,
}

/// One entry. None where the section overlaps a block in part, or is to be present and is absent.
pub fn enter(blocks: &mut Vec<Block>, item: &MapItem) -> Result<Option<Moved>, AllocError>
    ensures moved { IfOk result (λ m. m ≡ option_map moved_of (entry item.now (map block_of blocks.old.items))) }
    ensures blocks { OnOk result (map block_of blocks.new.items ≡ blocks_after (map block_of blocks.old.items) (entry item.now (map block_of blocks.old.items))) }
{
    match place_in(blocks, &item.section) {
        Place::Absent if item.present => Ok(None),
        Place::Absent => {
            blocks.push(Block {
                section: item.section,
                count: 1,
            })?;
            Ok(Some(Moved {
                block: item.section,
                changes: true,
                copies: entry_copies(item, 1),
            }))
        }
        Place::Inside(block) => {
            let Some(count) = block.count.checked_add(1) else {
                return Err(AllocError);
            };
            recount(blocks, &block.section, count);
            Ok(Some(Moved {
                block: block.section,
                changes: false,
                copies: entry_copies(item, count),
            }))
        }
        Place::InPart => Ok(None),
    }
}

/// One exit. None where the section is not inside a block.
pub fn leave(blocks: &mut Vec<Block>, item: &MapItem) -> Option<Moved>
    ensures moved { result ≡ option_map moved_of (exited item.now (map block_of blocks.old.items)) }
    ensures blocks { map block_of blocks.new.items ≡ blocks_after (map block_of blocks.old.items) (exit item.now (map block_of blocks.old.items)) }
{
    match place_in(blocks, &item.section) {
        Place::Absent | Place::InPart => None,
        Place::Inside(block) => {
            let count = exit_count(item.kind, block.count);
            if count == 0 {
                remove(blocks, &block.section);
            } else {
                recount(blocks, &block.section, count);
            }
            Some(Moved {
                block: block.section,
                changes: count == 0,
                copies: exit_copies(item, count),
            })
        }
    }
}
