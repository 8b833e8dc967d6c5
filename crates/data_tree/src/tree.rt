//! The ids of a tree's data blocks.
ghost use Rattle.data_tree.specs.Source.{Later};
ghost use Rattle.data_tree.specs.Stops.{Reads};
ghost use Rattle.data_tree.specs.Tree.{below, all_below, listed, bids_of};

use crate::listing::{is_internal, is_listing, leaves, names};
use crate::source::{BlockSource, TreeStop, fetch};
use pst_base::{Bid, MemOr};
use std::alloc::Global;

/// The data blocks below a block that `parent`, a block of level 2, names.
#[tactic(auto, unfolding(crate::specs::Tree::below))]
pub(crate) fn below<S: BlockSource>(
    alloc: Global,
    parent: Bid,
    bid: Bid,
    s: &mut S,
) -> Result<Vec<Bid>, MemOr<TreeStop>>
    ensures later { Later (S.view s.old) (S.view s.new) }
    ensures reads { Reads (λ bids. bids.items) (S.view s.old) (S.view s.new) (λ find. below find parent bid) result }
{
    if !is_internal(bid) {
        return Err(MemOr::Refused(TreeStop::Form { bid: parent }));
    }
    let block = fetch(alloc, bid, s)?;
    if !is_listing(block.as_slice(), 1) {
        return Err(MemOr::Refused(TreeStop::Form { bid: parent }));
    }
    leaves(alloc, bid, block.as_slice())
}

/// The data blocks below all that `parent`, a block of level 2, names.
fn all_below<S: BlockSource>(
    alloc: Global,
    parent: Bid,
    bids: &[Bid],
    s: &mut S,
) -> Result<Vec<Bid>, MemOr<TreeStop>>
    ensures later { Later (S.view s.old) (S.view s.new) }
    ensures reads { Reads (λ bids. bids.items) (S.view s.old) (S.view s.new) (λ find. all_below find parent bids.now) result }
{
    let mut found = Vec::new(alloc);
    for bid in bids {
        let here = below(alloc, parent, *bid, s)?;
        found.extend_from_slice(here.as_slice())?;
    }
    Ok(found)
}

/// The data blocks that a block of level 1 or 2 leads to.
#[tactic(auto, unfolding(crate::specs::Tree::listed))]
fn listed<S: BlockSource>(
    alloc: Global,
    bid: Bid,
    b: &[u8],
    s: &mut S,
) -> Result<Vec<Bid>, MemOr<TreeStop>>
    ensures later { Later (S.view s.old) (S.view s.new) }
    ensures reads { Reads (λ bids. bids.items) (S.view s.old) (S.view s.new) (λ find. listed find bid b.now) result }
{
    if is_listing(b, 1) {
        return leaves(alloc, bid, b);
    }
    if !is_listing(b, 2) {
        return Err(MemOr::Refused(TreeStop::Form { bid }));
    }
    let names = names(alloc, b, 2)?;
    all_below(alloc, bid, names.as_slice(), s)
}

/// The ids of the data blocks of a tree, in their order. It reads only blocks that name others, so a data block that isn't there stays unseen.
///
/// `Missing` where there is no block with an id that it reads; `Form` of a block that names others and isn't of its layout, or that names what may not stand below it; `Source` by the source.
#[tactic(auto, unfolding(crate::specs::Tree::bids_of))]
pub fn read_bids<S: BlockSource>(
    alloc: Global,
    bid: Bid,
    s: &mut S,
) -> Result<Vec<Bid>, MemOr<TreeStop>>
    ensures later { Later (S.view s.old) (S.view s.new) }
    ensures reads { Reads (λ bids. bids.items) (S.view s.old) (S.view s.new) (λ find. bids_of find bid) result }
{
    let mut bids = Vec::new(alloc);
    if bid.bits == 0 {
        return Ok(bids);
    }
    if !is_internal(bid) {
        bids.push(bid)?;
        return Ok(bids);
    }
    let block = fetch(alloc, bid, s)?;
    listed(alloc, bid, block.as_slice(), s)
}
