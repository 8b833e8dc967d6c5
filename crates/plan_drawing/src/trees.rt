//! Both trees of a file after edits.
ghost use Rattle.std.specs.Prelude.{◌≡◌, ◌<◌, ◌+◌, ◌^◌, length, IfOk, IfErr};
ghost use Rattle.btree_pages.specs.Entries.{node_key};
ghost use Rattle.file_blocks.specs.Blocks.{entry_key, file_of};
ghost use Rattle.file_layout.specs.Nodes.{NodeMap};
ghost use Rattle.node_layout.specs.Joined.{node_id};
ghost use Rattle.node_store.specs.Told.{CachesBoth, KeepsTelling, StopsKeeping, TellsNodes};
ghost use Rattle.pst_base.specs.Ids.{key_of};
ghost use Rattle.pst_outside.specs.Calls.{Untouched};
ghost use Rattle.tree_edit.specs.Edits.{AreEdits};
ghost use Rattle.tree_edit.specs.Plans.{AreWritable};
ghost use Rattle.plan_drawing.specs.Trees.{ArePlanned};

use crate::draw::number_after;
use btree_pages::{BlockEntry, NodeEntry};
use file_pages::{FileTree, change_at};
use node_port::KeepStop;
use node_store::{BLOCK_PAGE, NODE_PAGE, PageCaches, keep_stop};
use pst_base::Bref;
use pst_header::Header;
use pst_outside::Outside;
use std::alloc::{AllocError, Global};
use tree_edit::{Plan, are_edits};

/// What edits of both trees come to.
#[derive(Drop)]
pub struct Trees {
    /// Of the block tree.
    pub blocks: Plan<BlockEntry>,
    /// Of the node tree.
    pub nodes: Plan<NodeEntry>,
}

impl Trees {
    /// How many pages are new. More than 2^62 are answered as want of memory, which would come first.
    pub fn new_pages(&self) -> Result<u64, AllocError>
        ensures count { IfOk result (λ many. many ≡ length self.now.blocks.pages.items + length self.now.nodes.pages.items) }
        ensures low { IfOk result (λ many. many < 2 ^ 62) }
    {
        number_after(self.blocks.pages.len() as u64, 1, self.nodes.pages.len())
    }
}

/// The stop where the page or block at a place isn't what it was.
pub fn changed_at(at: Bref) -> KeepStop
    ensures { result ≡ KeepStop.Changed at.ib 0 0 }
{
    KeepStop::Changed {
        ib: at.ib,
        stored: 0,
        computed: 0,
    }
}

/// The block tree of a file.
pub fn block_tree(header: &Header) -> FileTree
    ensures kind { result.kind ≡ 0x80 }
    ensures root { result.root ≡ header.now.bbt }
    ensures eof { result.eof ≡ header.now.eof }
{
    FileTree {
        kind: BLOCK_PAGE,
        root: header.bbt,
        eof: header.eof,
    }
}

/// The node tree of a file.
fn node_tree(header: &Header) -> FileTree
    ensures kind { result.kind ≡ 0x81 }
    ensures root { result.root ≡ header.now.nbt }
    ensures eof { result.eof ≡ header.now.eof }
{
    FileTree {
        kind: NODE_PAGE,
        root: header.nbt,
        eof: header.eof,
    }
}

/// Plans both trees of a file after edits. It writes nothing.
pub fn change_trees<W: Outside>(
    alloc: Global,
    w: &mut W,
    header: &Header,
    caches: &mut PageCaches,
    blocks: &[(u64, Option<BlockEntry>)],
    nodes: &[(u64, Option<NodeEntry>)],
) -> Result<Trees, KeepStop>
    requires edits { AreEdits node_id 0 (2 ^ 64) nodes.now }
    ensures plans { IfOk result (λ trees. CachesBoth (W.view w.old) header.now caches.old → ArePlanned header.now (file_of (W.view w.old).here) blocks.now nodes.now trees) }
    ensures writes_blocks { IfOk result (λ trees. AreWritable entry_key key_of 24 trees.blocks.pages.items) }
    ensures writes_nodes { IfOk result (λ trees. AreWritable node_id node_key 32 trees.nodes.pages.items) }
    ensures stops { IfErr result (StopsKeeping (W.view w.old) (W.view w.new) (AreEdits entry_key 0 (2 ^ 64) blocks.now × ((m : NodeMap) × TellsNodes (W.view w.old) header.now caches.old m))) }
    ensures keeps { KeepsTelling (W.view w.old) (W.view w.new) header.now caches.old caches.new }
    ensures untouched { Untouched (W.view w.old) (W.view w.new) }
{
    if !are_edits(blocks) {
        return Err(changed_at(header.bbt));
    }
    let tree = block_tree(header);
    let blocks = match change_at::<BlockEntry, W>(alloc, w, &mut caches.blocks, tree, blocks) {
        Ok(plan) => plan,
        Err(stop) => return Err(keep_stop(stop)),
    };
    let tree = node_tree(header);
    match change_at::<NodeEntry, W>(alloc, w, &mut caches.nodes, tree, nodes) {
        Ok(nodes) => Ok(Trees { blocks, nodes }),
        Err(stop) => Err(keep_stop(stop)),
    }
}
