//! The subnodes of a node at all levels.
ghost use Rattle.std.specs.Prelude.{◌≤◌, length, IfOk};
ghost use Rattle.data_tree.specs.Source.{Later};
ghost use Rattle.data_tree.specs.Stops.{Reads};
ghost use Rattle.subnode_tree.specs.Subnodes.{tree_from, tree_of};

use crate::blocks::SubEntry;
use crate::entries::level_of;
use data_tree::{BlockSource, TreeStop};
use pst_base::{Bid, MemOr};
use std::alloc::Global;

/// The subnodes from a level on: so many levels may follow, and so many entries may still come.
fn tree_from<S: BlockSource>(
    alloc: Global,
    deeper: u8,
    room: u64,
    bid: Bid,
    s: &mut S,
) -> Result<Vec<SubEntry>, MemOr<TreeStop>>
    requires { deeper ≤ 8 }
    ensures later { Later (S.view s.old) (S.view s.new) }
    ensures few { IfOk result (λ found. length found.items ≤ room) }
    ensures reads { Reads (λ found. found.items) (S.view s.old) (S.view s.new) (λ find. tree_from find deeper room bid) result }
{
    let mut found = Vec::new(alloc);
    if bid.bits == 0 {
        return Ok(found);
    }
    let entries = level_of(alloc, 9 - deeper, bid, s)?;
    let mut left = room;
    for entry in entries.iter() {
        if deeper == 0 {
            return Err(MemOr::Refused(TreeStop::Deep));
        }
        if left == 0 {
            return Err(MemOr::Refused(TreeStop::Many));
        }
        let inner = tree_from(alloc, deeper - 1, left - 1, entry.subnodes, s)?;
        found.push(*entry)?;
        found.extend_from_slice(inner.as_slice())?;
        left -= 1 + inner.len() as u64;
    }
    Ok(found)
}

/// An entry for each subnode of a node at every level, each before those below it. It reads the blocks that list subnodes, and not their data.
///
/// `Missing` where there is no block with an id that it reads; `Form` of a block that isn't of its layout, or whose NIDs don't ascend, or reach below the one that it is listed with; `Deep` where a subnode stands below level 8; `Many` where there are more than one for each 24 bytes of the file; `Source` by the source.
#[tactic(auto, unfolding(crate::specs::Subnodes::tree_of))]
pub(crate) fn read_entries<S: BlockSource>(
    alloc: Global,
    bid: Bid,
    s: &mut S,
) -> Result<Vec<SubEntry>, MemOr<TreeStop>>
    ensures later { Later (S.view s.old) (S.view s.new) }
    ensures reads { Reads (λ found. found.items) (S.view s.old) (S.view s.new) (λ find. tree_of find (S.view s.old).eof bid) result }
{
    let room = s.limit() / 24;
    tree_from(alloc, 8, room, bid, s)
}
