//! The blocks and the entry of one node that is put.
ghost use Rattle.std.specs.Prelude.{◌≡◌, ◌≤◌, ◌+◌, ◌*◌, ◌%◌, ◌^◌, ◌++◌, length, IfOk};
ghost use Rattle.std.specs.List.{All};
ghost use Rattle.data_tree.specs.Keys.{keys_of};
ghost use Rattle.data_tree.specs.Plan.{IsContent, bids_in};
ghost use Rattle.node_layout.specs.Joined.{kept_keys};
ghost use Rattle.subnode_tree.specs.Plan.{IsForm, paired};
ghost use Rattle.content_plan.specs.Keep.{Keeps, all_kept_keys};
ghost use Rattle.content_plan.specs.Put.{PutsNode, PutsOver};
ghost use Rattle.content_plan.specs.Told.{content_of};

use crate::content::Old;
use crate::keep::{kept_list, push_key};
use crate::matching::keep_subs;
use btree_pages::NodeEntry;
use data_tree::plan_data_keep;
use node_port::NodeRec;
use pst_base::{Bid, Bytes, Nid};
use std::alloc::{AllocError, Global};
use subnode_tree::{Kept, plan_subs_keep};

/// More than the numbers of all blocks that memory holds.
pub(crate) const LIMIT: u64 = 0x4000_0000_0000_0000;

/// A node that is put: its entry, its new blocks, and the keys that it will reach.
#[derive(Drop)]
pub(crate) struct Put {
    pub(crate) entry: NodeEntry,
    pub(crate) blocks: Vec<(Bid, Bytes)>,
    pub(crate) keys: Vec<u64>,
    /// The number that the next block may have.
    pub(crate) next: u64,
}

/// The keys of the blocks that stay of some data.
fn kept_keys(alloc: Global, keep: &[Option<Bid>]) -> Result<Vec<u64>, AllocError>
    ensures { IfOk result (λ keys. keys.items ≡ kept_keys keep.now) }
{
    let mut keys = Vec::new(alloc);
    for id in keep {
        push_key(&mut keys, *id)?;
    }
    Ok(keys)
}

/// The keys of those that stay of all subnodes.
fn all_kept_keys(alloc: Global, keep: &[Kept]) -> Result<Vec<u64>, AllocError>
    ensures { IfOk result (λ keys. keys.items ≡ all_kept_keys keep.now) }
{
    let mut keys = Vec::new(alloc);
    for own in keep {
        let mut here = kept_keys(alloc, own.as_slice())?;
        keys.append(&mut here)?;
    }
    Ok(keys)
}

/// The keys of blocks.
fn block_keys(alloc: Global, blocks: &[(Bid, Bytes)]) -> Result<Vec<u64>, AllocError>
    ensures { IfOk result (λ keys. keys.items ≡ keys_of (bids_in blocks.now)) }
{
    let mut keys = Vec::with_capacity(alloc, blocks.len())?;
    for block in blocks {
        keys.push(block.0.key())?;
    }
    Ok(keys)
}

/// The keys of the blocks that stay, and of the new ones.
fn reached(
    alloc: Global,
    keep: &[Option<Bid>],
    sub_keep: &[Kept],
    blocks: &[(Bid, Bytes)],
) -> Result<Vec<u64>, AllocError>
    ensures { IfOk result (λ keys. keys.items ≡ (kept_keys keep.now ++ all_kept_keys sub_keep.now) ++ keys_of (bids_in blocks.now)) }
{
    let mut keys = kept_keys(alloc, keep)?;
    let mut more = all_kept_keys(alloc, sub_keep)?;
    let mut new = block_keys(alloc, blocks)?;
    keys.append(&mut more)?;
    keys.append(&mut new)?;
    Ok(keys)
}

/// The number, unless it is too large for what follows.
pub(crate) fn limited(next: u64) -> Result<u64, AllocError>
    ensures same { IfOk result (λ number. number ≡ next) }
    ensures high { IfOk result (λ number. number ≤ 2 ^ 62) }
{
    if next > LIMIT {
        return Err(AllocError);
    }
    Ok(next)
}

/// The blocks and the entry of a node of which some data blocks stay.
fn put_keep(
    alloc: Global,
    nid: Nid,
    node: &NodeRec,
    keep: &[Option<Bid>],
    sub_keep: &[Kept],
    next: u64,
) -> Result<Put, AllocError>
    requires content { IsContent node.now.blocks }
    requires form { IsForm node.now.subs }
    requires keeps { Keeps next keep.now node.now.blocks }
    requires sub_keeps { All (λ pair. Keeps next pair.0 pair.1) (paired sub_keep.now node.now.subs) }
    requires long { length sub_keep.now ≡ length node.now.subs }
    requires low { 4 ≤ next }
    requires high { next ≤ 2 ^ 62 }
    requires apart { next % 4 ≡ 0 }
    ensures after { IfOk result (λ put. put.next ≡ next + 4 * length put.blocks.items) }
    ensures puts { IfOk result (λ put. PutsNode next nid node.now keep.now sub_keep.now put.entry put.blocks.items put.keys.items) }
{
    let mut content = plan_data_keep(alloc, node.blocks.as_slice(), keep, next)?;
    let after = limited(content.next)?;
    let mut subs = plan_subs_keep(alloc, &node.subs, sub_keep, after)?;
    content.blocks.append(&mut subs.blocks)?;
    let keys = reached(alloc, keep, sub_keep, content.blocks.as_slice())?;
    Ok(Put {
        entry: NodeEntry {
            nid,
            content: content.bid,
            subnodes: subs.bid,
            parent: node.parent,
        },
        blocks: content.blocks,
        keys,
        next: subs.next,
    })
}

/// The blocks and the entry of a node where there was this one, of which data blocks with ids below `limit` stay where their bytes and their positions do.
pub(crate) fn put_over(
    alloc: Global,
    nid: Nid,
    node: &NodeRec,
    old: &Old,
    limit: u64,
    next: u64,
) -> Result<Put, AllocError>
    requires content { IsContent node.now.blocks }
    requires form { IsForm node.now.subs }
    requires low { 4 ≤ next }
    requires limit { limit ≤ next }
    requires high { next ≤ 2 ^ 62 }
    requires apart { next % 4 ≡ 0 }
    ensures after { IfOk result (λ put. put.next ≡ next + 4 * length put.blocks.items) }
    ensures puts { IfOk result (λ put. PutsOver limit next nid node.now (content_of old.now) put.entry put.blocks.items put.keys.items) }
{
    let keep = kept_list(
        alloc,
        limit,
        old.ids.as_slice(),
        old.blocks.as_slice(),
        node.blocks.as_slice(),
    )?;
    let sub_keep = keep_subs(alloc, limit, old, &node.subs)?;
    put_keep(alloc, nid, node, keep.as_slice(), sub_keep.as_slice(), next)
}
