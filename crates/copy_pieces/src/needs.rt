//! How long the copy must be for its nodes.
ghost use Rattle.std.specs.Prelude.{◌≡◌, ℕ, List, Option, Ok, Err, IfOk, IfErr};
ghost use Rattle.pst_outside.specs.Calls.{Rose, Untouched};
ghost use Rattle.file_blocks.specs.Stops.{Holds};
ghost use Rattle.file_layout.specs.Nodes.{AreNodes, Node, node_at};
ghost use Rattle.node_needs.specs.Needs.{need_of, needs};
ghost use Rattle.copy_pieces.specs.Stops.{StopsLook, StopsNode, look_stop};

use crate::stops::{CompactStop, changed};
use btree_pages::{BlockEntry, NodeEntry};
use data_tree::TreeStop;
use file_blocks::FileBlocks;
use node_needs::node_need;
use pst_base::{MemOr, SourceStop};
use pst_outside::Outside;
use std::alloc::Global;

/// The stop of a look at a node. Where it isn't the source's, the node isn't as it was found.
fn need_stop(stop: MemOr<TreeStop>) -> CompactStop
    ensures { result ≡ look_stop stop }
{
    match stop {
        MemOr::Memory => CompactStop::Memory,
        MemOr::Refused(TreeStop::Source(SourceStop::Failed)) => CompactStop::Fault,
        MemOr::Refused(
            TreeStop::Source(
                SourceStop::Changed {
                    ib,
                    stored,
                    computed,
                },
            ),
        ) => CompactStop::Changed {
            ib,
            stored,
            computed,
        },
        MemOr::Refused(_) => changed(0),
    }
}

/// What a node needs.
fn need_in<W: Outside>(
    alloc: Global,
    node: NodeEntry,
    s: &mut FileBlocks<'_, W>,
) -> Result<u64, CompactStop>
    ensures same_reference { s.new.world.ghost_name ≡ s.old.world.ghost_name }
    ensures need { IfOk result (λ need. (find : ℕ → Option (List ℕ)) (n : Node) → Holds (W.view s.old.world.now) s.old.eof s.old.entries.now find → node_at find s.old.eof node ≡ Ok n → need ≡ need_of n) }
    ensures stops { IfErr result (λ stop. StopsNode stop (W.view s.old.world.now) s.old.eof s.old.entries.now node) }
    ensures fault { result ≡ Err CompactStop.Fault → Rose (W.view s.old.world.now).disk_faults (W.view s.new.world.now).disk_faults }
    ensures same { Untouched (W.view s.old.world.now) (W.view s.new.world.now) }
{
    match node_need(alloc, node, s) {
        Ok(need) => Ok(need),
        Err(stop) => Err(need_stop(stop)),
    }
}

/// What the node of an entry needs, by the entries of a file's blocks.
fn need_at<W: Outside>(
    alloc: Global,
    w: &mut W,
    eof: u64,
    blocks: &[BlockEntry],
    node: NodeEntry,
) -> Result<u64, CompactStop>
    ensures need { IfOk result (λ need. (find : ℕ → Option (List ℕ)) (n : Node) → Holds (W.view w.old) eof blocks.now find → node_at find eof node ≡ Ok n → need ≡ need_of n) }
    ensures stops { IfErr result (λ stop. StopsNode stop (W.view w.old) eof blocks.now node) }
    ensures fault { result ≡ Err CompactStop.Fault → Rose (W.view w.old).disk_faults (W.view w.new).disk_faults }
    ensures same { Untouched (W.view w.old) (W.view w.new) }
{
    let mut source = FileBlocks {
        world: w,
        entries: blocks,
        eof,
        changes: 0,
    };
    need_in(alloc, node, &mut source)
}

/// What the most demanding of these nodes needs.
pub fn most_need<W: Outside>(
    alloc: Global,
    w: &mut W,
    eof: u64,
    blocks: &[BlockEntry],
    nodes: &[NodeEntry],
) -> Result<u64, CompactStop>
    ensures need { IfOk result (λ need. (find : ℕ → Option (List ℕ)) (are : List Node) → Holds (W.view w.old) eof blocks.now find → AreNodes find eof nodes.now are → need ≡ needs are) }
    ensures stops { IfErr result (λ stop. StopsLook stop (W.view w.old) eof blocks.now nodes.now) }
    ensures fault { result ≡ Err CompactStop.Fault → Rose (W.view w.old).disk_faults (W.view w.new).disk_faults }
    ensures same { Untouched (W.view w.old) (W.view w.new) }
{
    let mut most = 0;
    for node in nodes {
        let need = need_at(alloc, w, eof, blocks, *node)?;
        most = need.max(most);
    }
    Ok(most)
}
