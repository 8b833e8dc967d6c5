//! The entries of the file's trees.
ghost use Rattle.std.specs.Prelude.{◌≡◌, ◌≤◌, ℕ, length, IfOk, IfErr, Err};
ghost use Rattle.pst_outside.specs.Calls.{Rose, Untouched};
ghost use Rattle.btree_pages.specs.Entries.{block_of, node_of};
ghost use Rattle.file_layout.specs.Nodes.{blocks_in, block_tree, node_tree, nodes_in};
ghost use Rattle.file_layout.specs.Trees.{Found, IsWhole, file_of};
ghost use Rattle.pst_header.specs.declared.header.Header.{Header as Headers};
ghost use Rattle.copy_pieces.specs.Source.{HasTrees, HasEntries};
ghost use Rattle.copy_pieces.specs.Stops.{StopsCopy, tree_stop};

use crate::stops::{CompactStop, changed};
use btree_pages::{BlockEntry, NodeEntry};
use file_layout::{OpenStop, read_tree};
use pst_header::Header;
use pst_outside::Outside;
use std::alloc::Global;

/// The kind of the block tree's pages.
pub const BLOCK_TREE: u8 = 0x80;

/// The kind of the node tree's pages.
pub const NODE_TREE: u8 = 0x81;

/// The entries of both trees of a file.
#[derive(Drop)]
pub struct Entries {
    pub blocks: Vec<BlockEntry>,
    pub nodes: Vec<NodeEntry>,
}

/// Why a tree can't be read that was whole.
fn tree_stop(stop: OpenStop) -> CompactStop
    ensures { result ≡ tree_stop stop }
{
    match stop {
        OpenStop::Fault => CompactStop::Fault,
        OpenStop::Memory => CompactStop::Memory,
        OpenStop::Changed {
            ib,
            stored,
            computed,
        } => CompactStop::Changed {
            ib,
            stored,
            computed,
        },
        OpenStop::Refused(_) => changed(0),
    }
}

/// The entries of the block tree.
fn read_blocks<W: Outside>(
    alloc: Global,
    w: &mut W,
    header: &Header,
) -> Result<Vec<BlockEntry>, CompactStop>
    requires { (W.view w.old).tells → HasTrees header.now (W.view w.old).here }
    ensures entries { IfOk result (λ entries. (W.view w.new).tells → (found : Found) → IsWhole (block_tree (file_of (W.view w.new).here) header.now.eof) header.now.bbt found → entries.items ≡ blocks_in found) }
    ensures stops { IfErr result (λ stop. StopsCopy stop (W.view w.new)) }
    ensures fault { result ≡ Err CompactStop.Fault → Rose (W.view w.old).disk_faults (W.view w.new).disk_faults }
    ensures same { Untouched (W.view w.old) (W.view w.new) }
{
    let mut entries = Vec::new(alloc);
    let mut pages = Vec::new(alloc);
    match read_tree(
        w,
        BLOCK_TREE,
        header.eof,
        header.bbt,
        &mut entries,
        &mut pages,
    ) {
        Ok(()) => Ok(entries),
        Err(stop) => Err(tree_stop(stop)),
    }
}

/// The entries of the node tree.
fn read_nodes<W: Outside>(
    alloc: Global,
    w: &mut W,
    header: &Header,
) -> Result<Vec<NodeEntry>, CompactStop>
    requires { (W.view w.old).tells → HasTrees header.now (W.view w.old).here }
    ensures entries { IfOk result (λ entries. (W.view w.new).tells → (found : Found) → IsWhole (node_tree (file_of (W.view w.new).here) header.now.eof) header.now.nbt found → entries.items ≡ nodes_in found) }
    ensures stops { IfErr result (λ stop. StopsCopy stop (W.view w.new)) }
    ensures fault { result ≡ Err CompactStop.Fault → Rose (W.view w.old).disk_faults (W.view w.new).disk_faults }
    ensures same { Untouched (W.view w.old) (W.view w.new) }
{
    let mut entries = Vec::new(alloc);
    let mut pages = Vec::new(alloc);
    match read_tree(
        w,
        NODE_TREE,
        header.eof,
        header.nbt,
        &mut entries,
        &mut pages,
    ) {
        Ok(()) => Ok(entries),
        Err(stop) => Err(tree_stop(stop)),
    }
}

/// The entries of both trees of a file that lays nodes under this header.
pub fn read_entries<W: Outside>(
    alloc: Global,
    w: &mut W,
    header: &Header,
) -> Result<Entries, CompactStop>
    requires { (W.view w.old).tells → HasTrees header.now (W.view w.old).here }
    ensures entries { IfOk result (λ entries. (W.view w.new).tells → HasEntries header.now (W.view w.new).here entries) }
    ensures stops { IfErr result (λ stop. StopsCopy stop (W.view w.new)) }
    ensures fault { result ≡ Err CompactStop.Fault → Rose (W.view w.old).disk_faults (W.view w.new).disk_faults }
    ensures same { Untouched (W.view w.old) (W.view w.new) }
{
    let blocks = read_blocks(alloc, w, header)?;
    let nodes = read_nodes(alloc, w, header)?;
    Ok(Entries { blocks, nodes })
}
