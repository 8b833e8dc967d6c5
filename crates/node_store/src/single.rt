//! One data block of a node of a file.
ghost use Rattle.std.specs.Prelude.{◌≡◌, ℕ, List, Option, Ok, IfOk, IfErr};
ghost use Rattle.pst_outside.specs.Calls.{Untouched};
ghost use Rattle.data_tree.specs.Single.{single_of};
ghost use Rattle.file_layout.specs.Nodes.{NodeMap};
ghost use Rattle.lays_kept.specs.Stands.{AreThose};
ghost use Rattle.node_port.specs.Nodes.{Nodes, block_in, node_at};
ghost use Rattle.node_store.specs.Told.{AsksBlocks, KeepsTelling, StopsKeeping, StopsReading, TellsBlocks, TellsNodes};

use crate::blocks::TreeBlocks;
use crate::node::{BLOCK_PAGE, NODE_PAGE, PageCaches, keep_stop, tree_stop};
use btree_pages::NodeEntry;
use data_tree::{TreeStop, read_single};
use file_pages::{FileTree, entry_at};
use node_port::{KeepStop, NodeBlock};
use page_cache::PageCache;
use pst_base::{Bid, Bytes, MemOr, Nid};
use pst_header::Header;
use pst_outside::Outside;
use std::alloc::Global;

/// How many data blocks a tree of blocks has, and the one at a position.
fn single_in<W: Outside>(
    alloc: Global,
    bid: Bid,
    position: usize,
    s: &mut TreeBlocks<'_, W>,
) -> Result<(usize, Option<Bytes>), MemOr<TreeStop>>
    ensures names { (s.new.world.ghost_name ≡ s.old.world.ghost_name) × (s.new.cache.ghost_name ≡ s.old.cache.ghost_name) }
    ensures asks { AsksBlocks (W.view s.old.world.now) (W.view s.new.world.now) s.old.tree s.old.tree s.old.cache.now s.new.cache.now }
    ensures reads { IfOk result (λ single. (find : ℕ → Option (List ℕ)) → TellsBlocks (W.view s.old.world.now) s.old.tree s.old.cache.now find → single_of find position bid ≡ Ok single) }
    ensures stops { IfErr result (λ stop. StopsReading stop (W.view s.old.world.now) (W.view s.new.world.now) s.old.tree s.old.cache.now (λ find. single_of find position bid)) }
{
    read_single(alloc, bid, position, s)
}

/// The same by the block tree of a file.
fn read_tree<W: Outside>(
    alloc: Global,
    w: &mut W,
    cache: &mut PageCache,
    tree: FileTree,
    bid: Bid,
    position: usize,
) -> Result<(usize, Option<Bytes>), MemOr<TreeStop>>
    ensures reads { IfOk result (λ single. (find : ℕ → Option (List ℕ)) → TellsBlocks (W.view w.old) tree cache.old find → single_of find position bid ≡ Ok single) }
    ensures stops { IfErr result (λ stop. StopsReading stop (W.view w.old) (W.view w.new) tree cache.old (λ find. single_of find position bid)) }
    ensures asks { AsksBlocks (W.view w.old) (W.view w.new) tree tree cache.old cache.new }
{
    let mut source = TreeBlocks {
        world: w,
        cache,
        tree,
        changes: 0,
    };
    single_in(alloc, bid, position, &mut source)
}

/// The data block at a position of the node with an id in the file behind a header, and how many it has; `None` where the file has no such node. No other data block is read. It stops as `read_node`.
pub fn read_node_block<W: Outside>(
    alloc: Global,
    w: &mut W,
    header: &Header,
    nid: Nid,
    position: usize,
    caches: &mut PageCaches,
) -> Result<Option<NodeBlock>, KeepStop>
    ensures block { IfOk result (λ block. (m : NodeMap) (N : Nodes) → TellsNodes (W.view w.old) header.now caches.old m → AreThose m N → block ≡ block_in position (node_at N nid.bits)) }
    ensures stops { IfErr result (StopsKeeping (W.view w.old) (W.view w.new) ((m : NodeMap) × TellsNodes (W.view w.old) header.now caches.old m)) }
    ensures keeps { KeepsTelling (W.view w.old) (W.view w.new) header.now caches.old caches.new }
    ensures untouched { Untouched (W.view w.old) (W.view w.new) }
{
    let tree = FileTree {
        kind: NODE_PAGE,
        root: header.nbt,
        eof: header.eof,
    };
    let entry = match entry_at::<NodeEntry, W>(w, &mut caches.nodes, tree, u64::from(nid.bits)) {
        Ok(Some(entry)) => entry,
        Ok(None) => return Ok(None),
        Err(stop) => return Err(keep_stop(stop)),
    };
    let blocks = FileTree {
        kind: BLOCK_PAGE,
        root: header.bbt,
        eof: header.eof,
    };
    match read_tree(
        alloc,
        w,
        &mut caches.blocks,
        blocks,
        entry.content,
        position,
    ) {
        Ok((count, block)) => Ok(Some(NodeBlock { count, block })),
        Err(stop) => Err(tree_stop(header.bbt.ib, stop)),
    }
}
