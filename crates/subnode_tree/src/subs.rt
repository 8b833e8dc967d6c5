//! The subnodes of a node with their data.
ghost use Rattle.std.specs.Prelude.{◌≡◌, ◌≤◌, length, IfOk};
ghost use Rattle.data_tree.specs.Source.{Later};
ghost use Rattle.data_tree.specs.Stops.{Reads};
ghost use Rattle.subnode_tree.specs.Subnodes.{subs_from, subs_of};

use crate::entries::level_of;
use data_tree::{BlockSource, TreeStop, read_data};
use pst_base::{Bid, MemOr, Sub, Subs};
use std::alloc::Global;

/// The subnodes from a level on, and how many they are at all levels: so many levels may follow, and so many subnodes may still come.
fn subs_from<S: BlockSource>(
    alloc: Global,
    deeper: u8,
    room: u64,
    bid: Bid,
    s: &mut S,
) -> Result<(Subs, u64), MemOr<TreeStop>>
    requires { deeper ≤ 8 }
    ensures later { Later (S.view s.old) (S.view s.new) }
    ensures counted { IfOk result (λ found. found.1 ≡ length found.0) }
    ensures few { IfOk result (λ found. found.1 ≤ room) }
    ensures reads { Reads (λ found. found.0) (S.view s.old) (S.view s.new) (λ find. subs_from find (S.view s.old).eof deeper room bid) result }
{
    let mut found = Vec::new(alloc);
    if bid.bits == 0 {
        return Ok((Subs::from_vec(found), 0));
    }
    let entries = level_of(alloc, 9 - deeper, bid, s)?;
    let mut left = room;
    for entry in entries.iter() {
        if deeper == 0 {
            return Err(MemOr::Refused(TreeStop::Deep));
        }
        if left == 0 {
            return Err(MemOr::Refused(TreeStop::Many));
        }
        let nid = entry.nid;
        let blocks = read_data(alloc, entry.content, s)?;
        let (subs, count) = subs_from(alloc, deeper - 1, left - 1, entry.subnodes, s)?;
        found.push(Sub { nid, blocks, subs })?;
        left -= 1 + count;
    }
    Ok((Subs::from_vec(found), room - left))
}

/// The subnodes of a node at all levels, with their data. A subnode's data is read before what stands below it, and that before the next subnode.
///
/// `Missing` where there is no block with an id that is named; `Form` of a block that names others or lists subnodes and isn't of its layout, or names what may not stand below it, or whose NIDs don't ascend, or reach below the one that it is listed with; `Long` where the data of one subnode passes the file's length; `Deep` where a subnode stands below level 8; `Many` where there are more than one for each 24 bytes of the file; `Source` by the source.
#[tactic(auto, unfolding(crate::specs::Subnodes::subs_of))]
pub fn read_subs<S: BlockSource>(
    alloc: Global,
    bid: Bid,
    s: &mut S,
) -> Result<Subs, MemOr<TreeStop>>
    ensures later { Later (S.view s.old) (S.view s.new) }
    ensures reads { Reads (λ subs. subs) (S.view s.old) (S.view s.new) (λ find. subs_of find (S.view s.old).eof bid) result }
{
    let room = s.limit() / 24;
    let (subs, _) = subs_from(alloc, 8, room, bid, s)?;
    Ok(subs)
}
