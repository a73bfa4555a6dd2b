// What is done with the map items of an item.

ghost use Rattle.std.specs.Prelude.{◌≡◌, OnOk, map};
ghost use Rattle.std.specs.Io.KnownBytes.{Appends};
ghost use Rattle.base.specs.Map.{blocks_after, entry, exit, presence};
ghost use Rattle.maps.specs.Maps.{after, after_deed, deed_lines, entry_lines, exit_lines, exited, told, update_lines};
ghost use Rattle.maps.specs.Shown.{block_of};

use crate::blocks::{Block, Place, copies_from, copies_to, count_in, place_in};
use crate::lines::{Spot, act_text, act_text_if, count_text};
use crate::moves::{enter, leave};
use base::item::MapItem;
use base::tree::Program;
use std::io;
use std::io::Write;

/// What is done with a map item.
#[derive(Clone, Copy)]
pub enum Deed {
    Enter,
    Leave,
    Update,
}

fn tell_entry<W: Write>(
    program: &Program,
    spot: Spot,
    item: &MapItem,
    blocks: &mut Vec<Block>,
    out: &mut W,
) -> io::Result<()>
    ensures lines { OnOk result (Appends (W.contents out.old) (W.contents out.new) (entry_lines program.now spot item.now (entry item.now (map block_of blocks.old.items)))) }
    ensures blocks { OnOk result (map block_of blocks.new.items ≡ blocks_after (map block_of blocks.old.items) (entry item.now (map block_of blocks.old.items))) }
{
    let Some(moved) = enter(blocks, item)? else {
        return Ok(());
    };
    act_text_if(moved.changes, program, spot, "create", &moved.block, out)?;
    let count = count_in(blocks, &moved.block);
    count_text(program, spot, &moved.block, count, out)?;
    act_text_if(moved.copies, program, spot, "copy-to", &item.section, out)
}

fn tell_exit<W: Write>(
    program: &Program,
    spot: Spot,
    item: &MapItem,
    blocks: &mut Vec<Block>,
    out: &mut W,
) -> io::Result<()>
    ensures lines { OnOk result (Appends (W.contents out.old) (W.contents out.new) (exit_lines program.now spot item.now (exited item.now (map block_of blocks.old.items)))) }
    ensures blocks { map block_of blocks.new.items ≡ blocks_after (map block_of blocks.old.items) (exit item.now (map block_of blocks.old.items)) }
{
    let Some(left) = leave(blocks, item) else {
        return Ok(());
    };
    act_text_if(left.copies, program, spot, "copy-from", &item.section, out)?;
    let count = count_in(blocks, &left.block);
    count_text(program, spot, &left.block, count, out)?;
    act_text_if(left.changes, program, spot, "remove", &left.block, out)
}

fn tell_update<W: Write>(
    program: &Program,
    spot: Spot,
    item: &MapItem,
    blocks: &[Block],
    out: &mut W,
) -> io::Result<()>
    ensures { OnOk result (Appends (W.contents out.old) (W.contents out.new) (update_lines program.now spot item.now (presence (map block_of blocks.now) item.now.section))) }
{
    match place_in(blocks, &item.section) {
        Place::Absent | Place::InPart => Ok(()),
        Place::Inside(_) => {
            let (to, from) = (copies_to(item.kind), copies_from(item.kind));
            act_text_if(to, program, spot, "copy-to", &item.section, out)?;
            act_text_if(from, program, spot, "copy-from", &item.section, out)
        }
    }
}

fn tell_deed<W: Write>(
    program: &Program,
    spot: Spot,
    deed: Deed,
    item: &MapItem,
    blocks: &mut Vec<Block>,
    out: &mut W,
) -> io::Result<()>
    ensures lines { OnOk result (Appends (W.contents out.old) (W.contents out.new) (deed_lines program.now spot deed item.now (map block_of blocks.old.items))) }
    ensures blocks { OnOk result (map block_of blocks.new.items ≡ after_deed deed item.now (map block_of blocks.old.items)) }
{
    match deed {
        Deed::Enter => tell_entry(program, spot, item, blocks, out),
        Deed::Leave => tell_exit(program, spot, item, blocks, out),
        Deed::Update => tell_update(program, spot, item, blocks, out),
    }
}

/// The lines of map items, each in turn.
pub fn tell_deeds<W: Write>(
    program: &Program,
    spot: Spot,
    deed: Deed,
    maps: &[MapItem],
    blocks: &mut Vec<Block>,
    out: &mut W,
) -> io::Result<()>
    ensures lines { OnOk result (Appends (W.contents out.old) (W.contents out.new) (told (deed_lines program.now spot deed) (after_deed deed) maps.now (map block_of blocks.old.items))) }
    ensures blocks { OnOk result (map block_of blocks.new.items ≡ after (after_deed deed) maps.now (map block_of blocks.old.items)) }
{
    'maps: for map in maps {
        tell_deed(program, spot, deed, map, blocks, out)?;
    }
    Ok(())
}
