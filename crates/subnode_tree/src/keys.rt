//! The blocks that a node's subnodes reach, those that name or list others too.
ghost use Rattle.std.specs.Prelude.{◌≡◌, ◌∷◌, Some, map, IfOk};
ghost use Rattle.pst_base.specs.Ids.{key_of};
ghost use Rattle.data_tree.specs.Source.{Later};
ghost use Rattle.data_tree.specs.Stops.{Reads};
ghost use Rattle.subnode_tree.specs.KeyReads.{entries_keys_read, entry_keys_read, list_keys_read, sub_keys_read, walked_keys};
ghost use Rattle.subnode_tree.specs.Keys.{listed_in};

use crate::blocks::{Listed, SubEntry, is_inner, is_leaf, names};
use crate::walk::read_entries;
use data_tree::{BlockSource, TreeStop, fetch, read_data_keys};
use pst_base::{Bid, MemOr};
use std::alloc::{AllocError, Global};

/// The blocks that a block lists: none where it is of level 0.
fn listed_in(alloc: Global, b: &[u8]) -> Result<Vec<Listed>, AllocError>
    ensures { IfOk result (λ all. map (λ listed. key_of listed.block.bits) all.items ≡ listed_in (Some b.now)) }
{
    if is_leaf(b) {
        return Ok(Vec::new(alloc));
    }
    if !is_inner(b) {
        return Ok(Vec::new(alloc));
    }
    names(alloc, b)
}

/// The key of a block, and those of the blocks that it lists.
fn keys_with(alloc: Global, bid: Bid, all: &[Listed]) -> Result<Vec<u64>, AllocError>
    ensures { IfOk result (λ keys. keys.items ≡ key_of bid.bits ∷ map (λ listed. key_of listed.block.bits) all.now) }
{
    let mut keys = Vec::with_capacity(alloc, 1 + all.len())?;
    keys.push(bid.key())?;
    for listed in all {
        keys.push(listed.block.key())?;
    }
    Ok(keys)
}

/// A block that lists subnodes, if there is one, and those that it lists.
fn list_keys<S: BlockSource>(
    alloc: Global,
    bid: Bid,
    s: &mut S,
) -> Result<Vec<u64>, MemOr<TreeStop>>
    ensures later { Later (S.view s.old) (S.view s.new) }
    ensures reads { Reads (λ keys. keys.items) (S.view s.old) (S.view s.new) (λ find. list_keys_read find bid) result }
{
    if bid.bits == 0 {
        return Ok(Vec::new(alloc));
    }
    let block = fetch(alloc, bid, s)?;
    let all = listed_in(alloc, block.as_slice())?;
    Ok(keys_with(alloc, bid, all.as_slice())?)
}

/// The data of a subnode, and the blocks that list what stands below it.
fn entry_keys<S: BlockSource>(
    alloc: Global,
    entry: SubEntry,
    s: &mut S,
) -> Result<Vec<u64>, MemOr<TreeStop>>
    ensures later { Later (S.view s.old) (S.view s.new) }
    ensures reads { Reads (λ keys. keys.items) (S.view s.old) (S.view s.new) (λ find. entry_keys_read find entry) result }
{
    let mut keys = read_data_keys(alloc, entry.content, s)?;
    let mut list = list_keys(alloc, entry.subnodes, s)?;
    keys.append(&mut list)?;
    Ok(keys)
}

/// The same of some subnodes.
fn entries_keys<S: BlockSource>(
    alloc: Global,
    entries: &[SubEntry],
    s: &mut S,
) -> Result<Vec<u64>, MemOr<TreeStop>>
    ensures later { Later (S.view s.old) (S.view s.new) }
    ensures reads { Reads (λ keys. keys.items) (S.view s.old) (S.view s.new) (λ find. entries_keys_read find entries.now) result }
{
    let mut keys = Vec::new(alloc);
    for entry in entries {
        let here = entry_keys(alloc, *entry, s)?;
        keys.extend_from_slice(here.as_slice())?;
    }
    Ok(keys)
}

/// The blocks that list a node's subnodes, and what each of these leads to.
#[tactic(auto, unfolding(crate::specs::KeyReads::walked_keys))]
fn walked_keys<S: BlockSource>(
    alloc: Global,
    bid: Bid,
    s: &mut S,
) -> Result<Vec<u64>, MemOr<TreeStop>>
    ensures later { Later (S.view s.old) (S.view s.new) }
    ensures reads { Reads (λ keys. keys.items) (S.view s.old) (S.view s.new) (λ find. walked_keys find (S.view s.old).eof bid) result }
{
    let entries = read_entries(alloc, bid, s)?;
    let mut keys = list_keys(alloc, bid, s)?;
    let mut more = entries_keys(alloc, entries.as_slice(), s)?;
    keys.append(&mut more)?;
    Ok(keys)
}

/// The keys of all blocks that a node's subnodes reach at every level: those that list subnodes, and of each subnode its data blocks and those that name them. Each place that names or lists a block gives its key once. It reads no data block.
///
/// It stops where `read_sub_bids` does.
pub fn read_sub_keys<S: BlockSource>(
    alloc: Global,
    bid: Bid,
    s: &mut S,
) -> Result<Vec<u64>, MemOr<TreeStop>>
    ensures later { Later (S.view s.old) (S.view s.new) }
    ensures reads { Reads (λ keys. keys.items) (S.view s.old) (S.view s.new) (λ find. sub_keys_read find (S.view s.old).eof bid) result }
{
    walked_keys(alloc, bid, s)
}
