//! The nodes of a file.
ghost use Rattle.std.specs.Prelude.{◌≡◌, true, ℕ, List, Option, Ok, Err, IfOk, IfErr};
ghost use Rattle.pst_outside.specs.Calls.{Rose, Untouched};
ghost use Rattle.file_blocks.specs.Blocks.{rise_from, entry_with};
ghost use Rattle.file_blocks.specs.Stops.{Holds};
ghost use Rattle.data_tree.specs.Measure.{measured};
ghost use Rattle.data_tree.specs.Tree.{blocks_of};
ghost use Rattle.subnode_tree.specs.Counts.{counted};
ghost use Rattle.subnode_tree.specs.Subnodes.{subs_of};
ghost use Rattle.file_layout.specs.Nodes.{node_at};
ghost use Rattle.file_scan.specs.Parts.{StopsReading, Asks, IsLineOf, place_in, stop_at, StopsAtNodes, AreLines};
ghost use Rattle.file_scan.specs.Scan.{ib_of};
ghost use Rattle.pst_base.specs.Ids.{key_of};

use btree_pages::{BlockEntry, NodeEntry};
use data_tree::{TreeStop, measure_data};
use file_blocks::{BlockRefusal, FileBlocks, find_entry};
use file_layout::{NodeFault, OpenRefusal, OpenStop};
use pst_base::{Bid, MemOr, Nid, SourceStop};
use pst_outside::Outside;
use std::alloc::Global;
use subnode_tree::count_subs;

/// What is told of a node.
#[derive(Clone, Copy, Debug, PartialEq, Eq)]
pub struct NodeLine {
    pub nid: Nid,
    /// The node's parent, as its entry says.
    pub parent: Nid,
    /// How many bytes its own data has.
    pub bytes: u64,
    /// How many subnodes stand directly in it.
    pub subs: u64,
}

/// How many bytes a tree's data has.
fn data_len<W: Outside>(
    alloc: Global,
    bid: Bid,
    s: &mut FileBlocks<'_, W>,
) -> Result<u64, MemOr<TreeStop>>
    ensures same_reference { s.new.world.ghost_name ≡ s.old.world.ghost_name }
    ensures asks { Asks (W.view s.old.world.now) (W.view s.new.world.now) s.old.eof s.new.eof s.old.entries.now s.new.entries.now }
    ensures reads { IfOk result (λ len. (find : ℕ → Option (List ℕ)) → Holds (W.view s.old.world.now) s.old.eof s.old.entries.now find → measured (blocks_of find s.old.eof bid) ≡ Ok len) }
    ensures stops { IfErr result (λ stop. StopsReading stop (W.view s.old.world.now) s.old.eof s.old.entries.now (λ find. measured (blocks_of find s.old.eof bid))) }
    ensures fault { result ≡ Err (MemOr.Refused (TreeStop.Source SourceStop.Failed)) → Rose (W.view s.old.world.now).disk_faults (W.view s.new.world.now).disk_faults }
{
    measure_data(alloc, bid, s)
}

/// How many subnodes stand directly in a node.
fn subs_len<W: Outside>(
    alloc: Global,
    bid: Bid,
    s: &mut FileBlocks<'_, W>,
) -> Result<u64, MemOr<TreeStop>>
    ensures same_reference { s.new.world.ghost_name ≡ s.old.world.ghost_name }
    ensures asks { Asks (W.view s.old.world.now) (W.view s.new.world.now) s.old.eof s.new.eof s.old.entries.now s.new.entries.now }
    ensures reads { IfOk result (λ count. (find : ℕ → Option (List ℕ)) → Holds (W.view s.old.world.now) s.old.eof s.old.entries.now find → counted (subs_of find s.old.eof bid) ≡ Ok count) }
    ensures stops { IfErr result (λ stop. StopsReading stop (W.view s.old.world.now) s.old.eof s.old.entries.now (λ find. counted (subs_of find s.old.eof bid))) }
    ensures fault { result ≡ Err (MemOr.Refused (TreeStop.Source SourceStop.Failed)) → Rose (W.view s.old.world.now).disk_faults (W.view s.new.world.now).disk_faults }
{
    count_subs(alloc, bid, s)
}

/// What is told of the node of an entry, by the entries of a file's blocks.
fn node_line<W: Outside>(
    alloc: Global,
    w: &mut W,
    eof: u64,
    blocks: &[BlockEntry],
    node: NodeEntry,
) -> Result<NodeLine, MemOr<TreeStop>>
    ensures line { IfOk result (λ line. (find : ℕ → Option (List ℕ)) → Holds (W.view w.old) eof blocks.now find → IsLineOf find eof node line) }
    ensures stops { IfErr result (λ stop. StopsReading stop (W.view w.old) eof blocks.now (λ find. node_at find eof node)) }
    ensures fault { result ≡ Err (MemOr.Refused (TreeStop.Source SourceStop.Failed)) → Rose (W.view w.old).disk_faults (W.view w.new).disk_faults }
    ensures same { Untouched (W.view w.old) (W.view w.new) }
{
    let mut source = FileBlocks {
        world: w,
        entries: blocks,
        eof,
        changes: 0,
    };
    let bytes = data_len(alloc, node.content, &mut source)?;
    let subs = subs_len(alloc, node.subnodes, &mut source)?;
    Ok(NodeLine {
        nid: node.nid,
        parent: node.parent,
        bytes,
        subs,
    })
}

/// Where the block of an id begins, by the entries of a file's blocks.
fn place_of(blocks: &[BlockEntry], bid: Bid) -> u64
    ensures { rise_from 0 blocks.now ≡ true → result ≡ ib_of (entry_with (key_of bid.bits) blocks.now) }
{
    match find_entry(blocks, bid) {
        Some(entry) => entry.at.ib,
        None => 0,
    }
}

/// Where the block begins whose form is at fault; 0 for any other stop.
pub(crate) fn place_in(blocks: &[BlockEntry], stop: MemOr<TreeStop>) -> u64
    ensures { rise_from 0 blocks.now ≡ true → result ≡ place_in blocks.now stop }
{
    match stop {
        MemOr::Refused(TreeStop::Form { bid }) => place_of(blocks, bid),
        _ => 0,
    }
}

/// The stop of a scan at a node, where a block whose form is at fault begins at `place`.
pub(crate) fn stop_at(place: u64, nid: Nid, stop: MemOr<TreeStop>) -> OpenStop
    ensures { result ≡ stop_at place nid stop }
{
    let refusal = match stop {
        MemOr::Memory => return OpenStop::Memory,
        MemOr::Refused(TreeStop::Source(SourceStop::Failed)) => return OpenStop::Fault,
        MemOr::Refused(
            TreeStop::Source(
                SourceStop::Changed {
                    ib,
                    stored,
                    computed,
                },
            ),
        ) => {
            return OpenStop::Changed {
                ib,
                stored,
                computed,
            };
        }
        MemOr::Refused(TreeStop::Missing { bid }) => OpenRefusal::Missing { bid },
        MemOr::Refused(TreeStop::Form { .. }) => OpenRefusal::Block {
            ib: place,
            fault: BlockRefusal::Form,
        },
        MemOr::Refused(TreeStop::Long) => OpenRefusal::Node {
            nid,
            fault: NodeFault::Long,
        },
        MemOr::Refused(TreeStop::Deep) => OpenRefusal::Node {
            nid,
            fault: NodeFault::Deep,
        },
        MemOr::Refused(TreeStop::Many) => OpenRefusal::Node {
            nid,
            fault: NodeFault::Many,
        },
    };
    OpenStop::Refused(refusal)
}

/// What is told of the nodes of these entries, by the entries of a file's blocks.
pub(crate) fn node_lines<W: Outside>(
    alloc: Global,
    w: &mut W,
    eof: u64,
    blocks: &[BlockEntry],
    nodes: &[NodeEntry],
) -> Result<Vec<NodeLine>, OpenStop>
    ensures lines { IfOk result (λ lines. (find : ℕ → Option (List ℕ)) → Holds (W.view w.old) eof blocks.now find → AreLines find eof nodes.now lines.items) }
    ensures stops { IfErr result (λ stop. StopsAtNodes stop (W.view w.old) eof blocks.now nodes.now) }
    ensures fault { result ≡ Err OpenStop.Fault → Rose (W.view w.old).disk_faults (W.view w.new).disk_faults }
    ensures same { Untouched (W.view w.old) (W.view w.new) }
{
    let mut lines = Vec::with_capacity(alloc, nodes.len())?;
    for node in nodes {
        match node_line(alloc, w, eof, blocks, *node) {
            Ok(line) => lines.push(line)?,
            Err(stop) => return Err(stop_at(place_in(blocks, stop), node.nid, stop)),
        }
    }
    Ok(lines)
}
