//! The nodes of a file.
ghost use Rattle.std.specs.Prelude.{◌≡◌, IfOk, IfErr};
ghost use Rattle.pst_outside.specs.Calls.{Untouched};
ghost use Rattle.file_layout.specs.Nodes.{NodeMap};
ghost use Rattle.lays_kept.specs.Stands.{AreThose};
ghost use Rattle.node_port.specs.Nodes.{IsNext, Nodes, content_of, node_at};
ghost use Rattle.node_store.specs.Told.{Begins, KeepsTelling, StopsKeeping, TellsNodes, keep_stop, part_of, reached, tree_stop};

use crate::content::read_content;
use btree_pages::NodeEntry;
use data_tree::TreeStop;
use file_pages::{FileTree, entry_at, entry_from};
use node_port::{KeepStop, NodeRec};
use page_cache::PageCache;
use pst_base::{Bid, MemOr, Nid, SourceStop};
use pst_header::Header;
use pst_outside::Outside;
use std::alloc::Global;

/// The kind of the pages of the block tree ([MS-PST] 2.2.2.7.1).
pub const BLOCK_PAGE: u8 = 0x80;

/// The kind of the pages of the node tree.
pub const NODE_PAGE: u8 = 0x81;

/// The pages of a file's two trees that were read last.
#[derive(Drop)]
pub struct PageCaches {
    pub blocks: PageCache,
    pub nodes: PageCache,
}

/// A stop of a search in a tree of pages, as a keeper gives it.
pub fn keep_stop(stop: MemOr<SourceStop>) -> KeepStop
    ensures { result ≡ keep_stop stop }
{
    match stop {
        MemOr::Memory => KeepStop::Memory,
        MemOr::Refused(SourceStop::Failed) => KeepStop::Fault,
        MemOr::Refused(
            SourceStop::Changed {
                ib,
                stored,
                computed,
            },
        ) => KeepStop::Changed {
            ib,
            stored,
            computed,
        },
    }
}

/// A stop of a reading of blocks, as a keeper gives it, where `ib` is the place of what leads to them.
pub fn tree_stop(ib: u64, stop: MemOr<TreeStop>) -> KeepStop
    ensures { result ≡ tree_stop ib stop }
{
    match stop {
        MemOr::Memory => KeepStop::Memory,
        MemOr::Refused(TreeStop::Source(stop)) => keep_stop(MemOr::Refused(stop)),
        MemOr::Refused(_) => KeepStop::Changed {
            ib,
            stored: 0,
            computed: 0,
        },
    }
}

/// How far a node is read.
#[derive(Clone, Copy, Debug, PartialEq, Eq)]
pub(crate) enum Reach {
    /// With its subnodes.
    Whole,
    /// Its data alone.
    Data,
}

/// An entry as far as its node is read: one that names no subnodes leads to none.
fn reached(entry: NodeEntry, reach: Reach) -> NodeEntry
    ensures { result ≡ reached reach entry }
{
    match reach {
        Reach::Whole => entry,
        Reach::Data => NodeEntry {
            subnodes: Bid { bits: 0 },
            ..entry
        },
    }
}

/// The node with an id in the file behind a header, so far as it is to be read; `None` where it has none.
fn read_part<W: Outside>(
    alloc: Global,
    w: &mut W,
    header: &Header,
    nid: Nid,
    reach: Reach,
    caches: &mut PageCaches,
) -> Result<Option<NodeRec>, KeepStop>
    ensures node { IfOk result (λ node. (m : NodeMap) (N : Nodes) → TellsNodes (W.view w.old) header.now caches.old m → AreThose m N → node ≡ part_of reach (node_at N nid.bits)) }
    ensures stops { IfErr result (StopsKeeping (W.view w.old) (W.view w.new) ((m : NodeMap) × TellsNodes (W.view w.old) header.now caches.old m)) }
    ensures keeps { KeepsTelling (W.view w.old) (W.view w.new) header.now caches.old caches.new }
    ensures untouched { Untouched (W.view w.old) (W.view w.new) }
{
    let tree = FileTree {
        kind: NODE_PAGE,
        root: header.nbt,
        eof: header.eof,
    };
    let entry = match entry_at::<NodeEntry, W>(w, &mut caches.nodes, tree, u64::from(nid.bits)) {
        Ok(Some(entry)) => entry,
        Ok(None) => return Ok(None),
        Err(stop) => return Err(keep_stop(stop)),
    };
    let blocks = FileTree {
        kind: BLOCK_PAGE,
        root: header.bbt,
        eof: header.eof,
    };
    let entry = reached(entry, reach);
    match read_content(alloc, w, &mut caches.blocks, blocks, entry) {
        Ok(node) => Ok(Some(node)),
        Err(stop) => Err(tree_stop(header.bbt.ib, stop)),
    }
}

/// The node with an id in the file behind a header; `None` where it has none.
///
/// `Fault` comes where the disk failed, `Changed` where the file doesn't lay nodes under the header: at a page or a block that isn't there or isn't whole, or, with two zeros, at the root of the block tree where blocks don't make data and subnodes.
pub fn read_node<W: Outside>(
    alloc: Global,
    w: &mut W,
    header: &Header,
    nid: Nid,
    caches: &mut PageCaches,
) -> Result<Option<NodeRec>, KeepStop>
    ensures node { IfOk result (λ node. (m : NodeMap) (N : Nodes) → TellsNodes (W.view w.old) header.now caches.old m → AreThose m N → node ≡ node_at N nid.bits) }
    ensures stops { IfErr result (StopsKeeping (W.view w.old) (W.view w.new) ((m : NodeMap) × TellsNodes (W.view w.old) header.now caches.old m)) }
    ensures keeps { KeepsTelling (W.view w.old) (W.view w.new) header.now caches.old caches.new }
    ensures untouched { Untouched (W.view w.old) (W.view w.new) }
{
    read_part(alloc, w, header, nid, Reach::Whole, caches)
}

/// The same without its subnodes: the record has none, and no block of theirs is read. It stops as `read_node`.
pub fn read_node_data<W: Outside>(
    alloc: Global,
    w: &mut W,
    header: &Header,
    nid: Nid,
    caches: &mut PageCaches,
) -> Result<Option<NodeRec>, KeepStop>
    ensures node { IfOk result (λ node. (m : NodeMap) (N : Nodes) → TellsNodes (W.view w.old) header.now caches.old m → AreThose m N → node ≡ content_of (node_at N nid.bits)) }
    ensures stops { IfErr result (StopsKeeping (W.view w.old) (W.view w.new) ((m : NodeMap) × TellsNodes (W.view w.old) header.now caches.old m)) }
    ensures keeps { KeepsTelling (W.view w.old) (W.view w.new) header.now caches.old caches.new }
    ensures untouched { Untouched (W.view w.old) (W.view w.new) }
{
    read_part(alloc, w, header, nid, Reach::Data, caches)
}

/// The least key above an id, or of all.
fn key_after(after: Option<Nid>) -> u64
    ensures { Begins after result }
{
    match after {
        Some(nid) => u64::from(nid.bits) + 1,
        None => 0,
    }
}

/// The least id of a node above one in the file behind a header, or the least of all for `None`; `None` where there is none. It stops as `read_node`.
pub fn next_node<W: Outside>(
    w: &mut W,
    header: &Header,
    after: Option<Nid>,
    caches: &mut PageCaches,
) -> Result<Option<Nid>, KeepStop>
    ensures next { IfOk result (λ next. (m : NodeMap) (N : Nodes) → TellsNodes (W.view w.old) header.now caches.old m → AreThose m N → IsNext N after next) }
    ensures stops { IfErr result (StopsKeeping (W.view w.old) (W.view w.new) ((m : NodeMap) × TellsNodes (W.view w.old) header.now caches.old m)) }
    ensures keeps { KeepsTelling (W.view w.old) (W.view w.new) header.now caches.old caches.new }
    ensures untouched { Untouched (W.view w.old) (W.view w.new) }
{
    let low = key_after(after);
    let tree = FileTree {
        kind: NODE_PAGE,
        root: header.nbt,
        eof: header.eof,
    };
    match entry_from::<NodeEntry, W>(w, &mut caches.nodes, tree, low) {
        Ok(Some(entry)) => Ok(Some(entry.nid)),
        Ok(None) => Ok(None),
        Err(stop) => Err(keep_stop(stop)),
    }
}
