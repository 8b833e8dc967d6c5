//! The data and the subnodes of a node.
ghost use Rattle.std.specs.Prelude.{◌≡◌, ℕ, List, Option, Ok, IfOk, IfErr};
ghost use Rattle.file_layout.specs.Nodes.{node_at};
ghost use Rattle.data_tree.specs.Tree.{blocks_of};
ghost use Rattle.subnode_tree.specs.Subnodes.{subs_of};
ghost use Rattle.node_store.specs.Told.{AsksBlocks, IsNodeOf, StopsReading, TellsBlocks};

use crate::blocks::TreeBlocks;
use btree_pages::NodeEntry;
use data_tree::{TreeStop, read_data};
use file_pages::FileTree;
use node_port::NodeRec;
use page_cache::PageCache;
use pst_base::{Bid, Blocks, MemOr, Subs};
use pst_outside::Outside;
use std::alloc::Global;
use subnode_tree::read_subs;

/// The data of a tree of blocks.
fn data_in<W: Outside>(
    alloc: Global,
    bid: Bid,
    s: &mut TreeBlocks<'_, W>,
) -> Result<Blocks, MemOr<TreeStop>>
    ensures names { (s.new.world.ghost_name ≡ s.old.world.ghost_name) × (s.new.cache.ghost_name ≡ s.old.cache.ghost_name) }
    ensures asks { AsksBlocks (W.view s.old.world.now) (W.view s.new.world.now) s.old.tree s.new.tree s.old.cache.now s.new.cache.now }
    ensures reads { IfOk result (λ blocks. (find : ℕ → Option (List ℕ)) → TellsBlocks (W.view s.old.world.now) s.old.tree s.old.cache.now find → blocks_of find s.old.tree.eof bid ≡ Ok blocks) }
    ensures stops { IfErr result (λ stop. StopsReading stop (W.view s.old.world.now) (W.view s.new.world.now) s.old.tree s.old.cache.now (λ find. blocks_of find s.old.tree.eof bid)) }
{
    read_data(alloc, bid, s)
}

/// The subnodes of a tree of blocks that list them.
fn subs_in<W: Outside>(
    alloc: Global,
    bid: Bid,
    s: &mut TreeBlocks<'_, W>,
) -> Result<Subs, MemOr<TreeStop>>
    ensures names { (s.new.world.ghost_name ≡ s.old.world.ghost_name) × (s.new.cache.ghost_name ≡ s.old.cache.ghost_name) }
    ensures asks { AsksBlocks (W.view s.old.world.now) (W.view s.new.world.now) s.old.tree s.new.tree s.old.cache.now s.new.cache.now }
    ensures reads { IfOk result (λ subs. (find : ℕ → Option (List ℕ)) → TellsBlocks (W.view s.old.world.now) s.old.tree s.old.cache.now find → subs_of find s.old.tree.eof bid ≡ Ok subs) }
    ensures stops { IfErr result (λ stop. StopsReading stop (W.view s.old.world.now) (W.view s.new.world.now) s.old.tree s.old.cache.now (λ find. subs_of find s.old.tree.eof bid)) }
{
    read_subs(alloc, bid, s)
}

/// The node of an entry.
fn node_of<W: Outside>(
    alloc: Global,
    entry: NodeEntry,
    s: &mut TreeBlocks<'_, W>,
) -> Result<NodeRec, MemOr<TreeStop>>
    ensures names { (s.new.world.ghost_name ≡ s.old.world.ghost_name) × (s.new.cache.ghost_name ≡ s.old.cache.ghost_name) }
    ensures asks { AsksBlocks (W.view s.old.world.now) (W.view s.new.world.now) s.old.tree s.old.tree s.old.cache.now s.new.cache.now }
    ensures node { IfOk result (λ node. (find : ℕ → Option (List ℕ)) → TellsBlocks (W.view s.old.world.now) s.old.tree s.old.cache.now find → IsNodeOf find s.old.tree.eof entry node) }
    ensures stops { IfErr result (λ stop. StopsReading stop (W.view s.old.world.now) (W.view s.new.world.now) s.old.tree s.old.cache.now (λ find. node_at find s.old.tree.eof entry)) }
{
    let blocks = data_in(alloc, entry.content, s)?;
    let subs = subs_in(alloc, entry.subnodes, s)?;
    Ok(NodeRec {
        parent: entry.parent,
        blocks,
        subs,
    })
}

/// The node of an entry, by the block tree of a file.
pub(crate) fn read_content<W: Outside>(
    alloc: Global,
    w: &mut W,
    cache: &mut PageCache,
    tree: FileTree,
    entry: NodeEntry,
) -> Result<NodeRec, MemOr<TreeStop>>
    ensures node { IfOk result (λ node. (find : ℕ → Option (List ℕ)) → TellsBlocks (W.view w.old) tree cache.old find → IsNodeOf find tree.eof entry node) }
    ensures stops { IfErr result (λ stop. StopsReading stop (W.view w.old) (W.view w.new) tree cache.old (λ find. node_at find tree.eof entry)) }
    ensures asks { AsksBlocks (W.view w.old) (W.view w.new) tree tree cache.old cache.new }
{
    let mut source = TreeBlocks {
        world: w,
        cache,
        tree,
        changes: 0,
    };
    node_of(alloc, entry, &mut source)
}
