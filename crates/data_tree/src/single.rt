//! One data block of a tree.
ghost use Rattle.std.specs.Prelude.{◌≡◌, slice_get};
ghost use Rattle.data_tree.specs.Single.{fetched_if, single_among, single_of};
ghost use Rattle.data_tree.specs.Source.{Later};
ghost use Rattle.data_tree.specs.Stops.{Reads};

use crate::source::{BlockSource, TreeStop, fetch};
use crate::tree::read_bids;
use pst_base::{Bid, Bytes, MemOr};
use std::alloc::Global;

/// The id at a position.
fn bid_at(bids: &[Bid], position: usize) -> Option<Bid>
    ensures { result ≡ slice_get bids.now position }
{
    bids.get(position).copied()
}

/// The data of the block with an id, if there is an id.
fn fetch_if<S: BlockSource>(
    alloc: Global,
    bid: Option<Bid>,
    s: &mut S,
) -> Result<Option<Bytes>, MemOr<TreeStop>>
    ensures later { Later (S.view s.old) (S.view s.new) }
    ensures reads { Reads (λ block. block) (S.view s.old) (S.view s.new) (λ find. fetched_if find bid) result }
{
    match bid {
        Some(bid) => Ok(Some(fetch(alloc, bid, s)?)),
        None => Ok(None),
    }
}

/// How many blocks these are, and the data of the one at a position.
fn single_among<S: BlockSource>(
    alloc: Global,
    bids: &[Bid],
    position: usize,
    s: &mut S,
) -> Result<(usize, Option<Bytes>), MemOr<TreeStop>>
    ensures later { Later (S.view s.old) (S.view s.new) }
    ensures reads { Reads (λ single. single) (S.view s.old) (S.view s.new) (λ find. single_among find position bids.now) result }
{
    let block = fetch_if(alloc, bid_at(bids, position), s)?;
    Ok((bids.len(), block))
}

/// How many data blocks a tree has, and the one at a position, `None` where there is none. It reads the blocks that name others, and that one.
///
/// `Missing`, `Form` and `Source` come as in `read_data`.
#[tactic(auto, unfolding(crate::specs::Single::single_of))]
pub fn read_single<S: BlockSource>(
    alloc: Global,
    bid: Bid,
    position: usize,
    s: &mut S,
) -> Result<(usize, Option<Bytes>), MemOr<TreeStop>>
    ensures later { Later (S.view s.old) (S.view s.new) }
    ensures reads { Reads (λ single. single) (S.view s.old) (S.view s.new) (λ find. single_of find position bid) result }
{
    let bids = read_bids(alloc, bid, s)?;
    single_among(alloc, bids.as_slice(), position, s)
}
