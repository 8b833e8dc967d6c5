//! The ids of the data blocks of a node's subnodes.
ghost use Rattle.std.specs.Prelude.{◌≡◌, map, Some, IfOk};
ghost use Rattle.data_tree.specs.Source.{Later};
ghost use Rattle.data_tree.specs.Stops.{Reads};
ghost use Rattle.subnode_tree.specs.Bids.{bids_each, entry_bids, sub_bids_of};

use crate::blocks::SubEntry;
use crate::kept::Kept;
use crate::walk::read_entries;
use data_tree::{BlockSource, TreeStop, read_bids};
use pst_base::{Bid, MemOr};
use std::alloc::{AllocError, Global};

/// Each of some ids at its position.
fn all_kept(alloc: Global, bids: &[Bid]) -> Result<Kept, AllocError>
    ensures { IfOk result (λ kept. kept ≡ map Some bids.now) }
{
    let mut kept = Vec::with_capacity(alloc, bids.len())?;
    for bid in bids {
        kept.push(Some(*bid))?;
    }
    Ok(Kept::from_vec(kept))
}

/// The ids of a subnode's data blocks.
fn entry_bids<S: BlockSource>(
    alloc: Global,
    entry: SubEntry,
    s: &mut S,
) -> Result<Kept, MemOr<TreeStop>>
    ensures later { Later (S.view s.old) (S.view s.new) }
    ensures reads { Reads (λ kept. kept) (S.view s.old) (S.view s.new) (λ find. entry_bids find entry) result }
{
    let bids = read_bids(alloc, entry.content, s)?;
    Ok(all_kept(alloc, bids.as_slice())?)
}

/// The same of some subnodes.
fn bids_each<S: BlockSource>(
    alloc: Global,
    entries: &[SubEntry],
    s: &mut S,
) -> Result<Vec<Kept>, MemOr<TreeStop>>
    ensures later { Later (S.view s.old) (S.view s.new) }
    ensures reads { Reads (λ all. all.items) (S.view s.old) (S.view s.new) (λ find. bids_each find entries.now) result }
{
    let mut all = Vec::new(alloc);
    for entry in entries {
        let here = entry_bids(alloc, *entry, s)?;
        all.push(here)?;
    }
    Ok(all)
}

/// The ids of the data blocks of all subnodes of a node, in the order of `read_subs`: each subnode before those below it. All are given as kept, so that a plan that takes the answer as it is writes no data block. It reads no data block.
///
/// `Missing` where there is no block with an id that it reads; `Form` of a block that isn't of its layout, or names what may not stand below it, or whose NIDs don't ascend, or reach below the one that it is listed with; `Deep` where a subnode stands below level 8; `Many` where there are more than one for each 24 bytes of the file; `Source` by the source.
#[tactic(auto, unfolding(crate::specs::Bids::sub_bids_of))]
pub fn read_sub_bids<S: BlockSource>(
    alloc: Global,
    bid: Bid,
    s: &mut S,
) -> Result<Vec<Kept>, MemOr<TreeStop>>
    ensures later { Later (S.view s.old) (S.view s.new) }
    ensures reads { Reads (λ all. all.items) (S.view s.old) (S.view s.new) (λ find. sub_bids_of find (S.view s.old).eof bid) result }
{
    let entries = read_entries(alloc, bid, s)?;
    bids_each(alloc, entries.as_slice(), s)
}
