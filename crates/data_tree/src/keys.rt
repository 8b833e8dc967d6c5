//! The blocks that a data tree reaches, those that name others too.
ghost use Rattle.std.specs.Prelude.{◌≡◌, ◌∷◌, true, IfOk};
ghost use Rattle.pst_base.specs.Ids.{key_of};
ghost use Rattle.data_tree.specs.Source.{Later};
ghost use Rattle.data_tree.specs.Stops.{Reads, ReadsAlone};
ghost use Rattle.data_tree.specs.Tree.{is_listing};
ghost use Rattle.data_tree.specs.Keys.{below_keys, data_keys_read, keys_of, leaf_keys, led_keys, marked_keys, under_keys};

use crate::listing::{is_internal, is_listing, leaves, names};
use crate::source::{BlockSource, TreeStop, fetch};
use crate::tree::below;
use pst_base::{Bid, MemOr};
use std::alloc::{AllocError, Global};

/// The keys of some ids.
fn keys_of(alloc: Global, bids: &[Bid]) -> Result<Vec<u64>, AllocError>
    ensures { IfOk result (λ keys. keys.items ≡ keys_of bids.now) }
{
    let mut keys = Vec::with_capacity(alloc, bids.len())?;
    for bid in bids {
        keys.push(bid.key())?;
    }
    Ok(keys)
}

/// The key of a block, and then these.
fn behind(alloc: Global, bid: Bid, mut others: Vec<u64>) -> Result<Vec<u64>, AllocError>
    ensures { IfOk result (λ keys. keys.items ≡ key_of bid.bits ∷ others.items) }
{
    let mut keys = Vec::with_capacity(alloc, 1 + others.len())?;
    keys.push(bid.key())?;
    keys.append(&mut others)?;
    Ok(keys)
}

/// A block that `parent`, a block of level 2, names, and those that it names.
fn below_keys<S: BlockSource>(
    alloc: Global,
    parent: Bid,
    bid: Bid,
    s: &mut S,
) -> Result<Vec<u64>, MemOr<TreeStop>>
    ensures later { Later (S.view s.old) (S.view s.new) }
    ensures reads { Reads (λ keys. keys.items) (S.view s.old) (S.view s.new) (λ find. below_keys find parent bid) result }
{
    let bids = below(alloc, parent, bid, s)?;
    let keys = keys_of(alloc, bids.as_slice())?;
    Ok(behind(alloc, bid, keys)?)
}

/// The same of all that `parent` names.
fn under_keys<S: BlockSource>(
    alloc: Global,
    parent: Bid,
    bids: &[Bid],
    s: &mut S,
) -> Result<Vec<u64>, MemOr<TreeStop>>
    ensures later { Later (S.view s.old) (S.view s.new) }
    ensures reads { Reads (λ keys. keys.items) (S.view s.old) (S.view s.new) (λ find. under_keys find parent bids.now) result }
{
    let mut keys = Vec::new(alloc);
    for bid in bids {
        let here = below_keys(alloc, parent, *bid, s)?;
        keys.extend_from_slice(here.as_slice())?;
    }
    Ok(keys)
}

/// The data blocks that a block of level 1 names.
fn leaf_keys(alloc: Global, bid: Bid, b: &[u8]) -> Result<Vec<u64>, MemOr<TreeStop>>
    requires { is_listing 1 b.now ≡ true }
    ensures { ReadsAlone (λ keys. keys.items) result (leaf_keys bid b.now) }
{
    let bids = leaves(alloc, bid, b)?;
    Ok(keys_of(alloc, bids.as_slice())?)
}

/// The blocks that a block of level 1 or 2 leads to.
fn led_keys<S: BlockSource>(
    alloc: Global,
    bid: Bid,
    b: &[u8],
    s: &mut S,
) -> Result<Vec<u64>, MemOr<TreeStop>>
    ensures later { Later (S.view s.old) (S.view s.new) }
    ensures reads { Reads (λ keys. keys.items) (S.view s.old) (S.view s.new) (λ find. led_keys find bid b.now) result }
{
    if is_listing(b, 1) {
        return leaf_keys(alloc, bid, b);
    }
    if !is_listing(b, 2) {
        return Err(MemOr::Refused(TreeStop::Form { bid }));
    }
    let names = names(alloc, b, 2)?;
    under_keys(alloc, bid, names.as_slice(), s)
}

/// A block that names others, and those that it leads to.
fn marked_keys<S: BlockSource>(
    alloc: Global,
    bid: Bid,
    s: &mut S,
) -> Result<Vec<u64>, MemOr<TreeStop>>
    ensures later { Later (S.view s.old) (S.view s.new) }
    ensures reads { Reads (λ keys. keys.items) (S.view s.old) (S.view s.new) (λ find. marked_keys find bid) result }
{
    let block = fetch(alloc, bid, s)?;
    let keys = led_keys(alloc, bid, block.as_slice(), s)?;
    Ok(behind(alloc, bid, keys)?)
}

/// The keys of all blocks of a data tree, its data blocks and those that name others: each place that names a block gives its key once. It reads only blocks that name others.
///
/// It stops where `read_bids` does.
pub fn read_data_keys<S: BlockSource>(
    alloc: Global,
    bid: Bid,
    s: &mut S,
) -> Result<Vec<u64>, MemOr<TreeStop>>
    ensures later { Later (S.view s.old) (S.view s.new) }
    ensures reads { Reads (λ keys. keys.items) (S.view s.old) (S.view s.new) (λ find. data_keys_read find bid) result }
{
    let mut keys = Vec::new(alloc);
    if bid.bits == 0 {
        return Ok(keys);
    }
    if !is_internal(bid) {
        keys.push(bid.key())?;
        return Ok(keys);
    }
    marked_keys(alloc, bid, s)
}
