//! How many subnodes a node has.
ghost use Rattle.std.specs.Prelude.{◌≡◌, ◌≤◌, ℕ, List, Option, Ok, IfOk};
ghost use Rattle.data_tree.specs.Source.{Later};
ghost use Rattle.data_tree.specs.Stops.{Reads};
ghost use Rattle.subnode_tree.specs.Subnodes.{subs_from, subs_of};
ghost use Rattle.subnode_tree.specs.Counts.{counted, all_counted};

use crate::entries::level_of;
use data_tree::{BlockSizes, TreeStop, measure_data};
use pst_base::{Bid, MemOr};
use std::alloc::Global;

/// How many subnodes stand directly in a node, and how many at all levels.
#[derive(Drop)]
struct Counted {
    direct: u64,
    all: u64,
}

/// The subnodes from a level on: so many levels may follow, and so many subnodes may still come.
fn count_from<S: BlockSizes>(
    alloc: Global,
    deeper: u8,
    room: u64,
    bid: Bid,
    s: &mut S,
) -> Result<Counted, MemOr<TreeStop>>
    requires { deeper ≤ 8 }
    ensures later { Later (S.view s.old) (S.view s.new) }
    ensures few { IfOk result (λ found. found.all ≤ room) }
    ensures direct { IfOk result (λ found. (find : ℕ → Option (List ℕ)) → (S.view s.old).holds find → counted (subs_from find (S.view s.old).eof deeper room bid) ≡ Ok found.direct) }
    ensures reads { Reads (λ found. found.all) (S.view s.old) (S.view s.new) (λ find. all_counted (subs_from find (S.view s.old).eof deeper room bid)) result }
{
    if bid.bits == 0 {
        return Ok(Counted { direct: 0, all: 0 });
    }
    let entries = level_of(alloc, 9 - deeper, bid, s)?;
    let mut left = room;
    for entry in entries.iter() {
        if deeper == 0 {
            return Err(MemOr::Refused(TreeStop::Deep));
        }
        if left == 0 {
            return Err(MemOr::Refused(TreeStop::Many));
        }
        measure_data(alloc, entry.content, s)?;
        let inner = count_from(alloc, deeper - 1, left - 1, entry.subnodes, s)?;
        left -= 1 + inner.all;
    }
    Ok(Counted {
        direct: entries.len() as u64,
        all: room - left,
    })
}

/// How many subnodes stand directly in a node. It walks the subnodes at all levels and the blocks that name their data, and reads no data block.
///
/// `Missing` where there is no block with an id that is named; `Form` of a block that names others or lists subnodes and isn't of its layout, or names what may not stand below it, or whose NIDs don't ascend, or reach below the one that it is listed with; `Long` where the data of one subnode passes the file's length; `Deep` where a subnode stands below level 8; `Many` where there are more than one for each 24 bytes of the file; `Source` by the source. Each comes where `read_subs` gives it, unless a data block can't be read.
#[tactic(auto, unfolding(crate::specs::Subnodes::subs_of))]
pub fn count_subs<S: BlockSizes>(alloc: Global, bid: Bid, s: &mut S) -> Result<u64, MemOr<TreeStop>>
    ensures later { Later (S.view s.old) (S.view s.new) }
    ensures reads { Reads (λ count. count) (S.view s.old) (S.view s.new) (λ find. counted (subs_of find (S.view s.old).eof bid)) result }
{
    let room = s.limit() / 24;
    let found = count_from(alloc, 8, room, bid, s)?;
    Ok(found.direct)
}
