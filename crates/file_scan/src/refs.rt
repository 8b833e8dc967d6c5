//! How often the blocks of a file are referred to.
ghost use Rattle.std.specs.Prelude.{◌≡◌, ℕ, List, Option, Ok, Err, IfOk, IfErr};
ghost use Rattle.pst_outside.specs.Calls.{Rose, Untouched};
ghost use Rattle.file_blocks.specs.Stops.{Holds};
ghost use Rattle.node_reach.specs.Reach.{node_keys_read, uses_of};
ghost use Rattle.ref_counts.specs.Tables.{refs_in};
ghost use Rattle.file_scan.specs.Parts.{StopsReading, NeverStops};

use crate::nodes::{place_in, stop_at};
use btree_pages::{BlockEntry, NodeEntry};
use data_tree::TreeStop;
use file_blocks::FileBlocks;
use file_layout::OpenStop;
use node_reach::read_node_keys;
use pst_base::{MemOr, SourceStop};
use pst_outside::Outside;
use ref_counts::RefCounts;
use std::alloc::Global;

/// The blocks that a node reaches.
fn keys_in<W: Outside>(
    alloc: Global,
    node: NodeEntry,
    s: &mut FileBlocks<'_, W>,
) -> Result<Vec<u64>, MemOr<TreeStop>>
    ensures same_reference { s.new.world.ghost_name ≡ s.old.world.ghost_name }
    ensures reads { IfOk result (λ keys. (find : ℕ → Option (List ℕ)) → Holds (W.view s.old.world.now) s.old.eof s.old.entries.now find → node_keys_read find s.old.eof node ≡ Ok keys.items) }
    ensures stops { IfErr result (λ stop. StopsReading stop (W.view s.old.world.now) s.old.eof s.old.entries.now (λ find. node_keys_read find s.old.eof node)) }
    ensures fault { result ≡ Err (MemOr.Refused (TreeStop.Source SourceStop.Failed)) → Rose (W.view s.old.world.now).disk_faults (W.view s.new.world.now).disk_faults }
    ensures same { Untouched (W.view s.old.world.now) (W.view s.new.world.now) }
{
    read_node_keys(alloc, node, s)
}

/// The blocks that the node of an entry reaches, by the entries of a file's blocks.
fn keys_of<W: Outside>(
    alloc: Global,
    w: &mut W,
    eof: u64,
    blocks: &[BlockEntry],
    node: NodeEntry,
) -> Result<Vec<u64>, MemOr<TreeStop>>
    ensures reads { IfOk result (λ keys. (find : ℕ → Option (List ℕ)) → Holds (W.view w.old) eof blocks.now find → node_keys_read find eof node ≡ Ok keys.items) }
    ensures stops { IfErr result (λ stop. StopsReading stop (W.view w.old) eof blocks.now (λ find. node_keys_read find eof node)) }
    ensures fault { result ≡ Err (MemOr.Refused (TreeStop.Source SourceStop.Failed)) → Rose (W.view w.old).disk_faults (W.view w.new).disk_faults }
    ensures same { Untouched (W.view w.old) (W.view w.new) }
{
    let mut source = FileBlocks {
        world: w,
        entries: blocks,
        eof,
        changes: 0,
    };
    keys_in(alloc, node, &mut source)
}

/// How often the nodes of these entries of the node tree, which have been read, reach each block of a file that ends at `eof` and whose block tree has the entries `blocks`. It reads only blocks that name or list others, and writes nothing.
///
/// `Fault` comes only where the disk failed, `Memory` where there was none, and any other stop only where something isn't as it was read.
pub fn count_refs<W: Outside>(
    alloc: Global,
    w: &mut W,
    eof: u64,
    blocks: &[BlockEntry],
    nodes: &[NodeEntry],
) -> Result<RefCounts, OpenStop>
    ensures refs { IfOk result (λ refs. (find : ℕ → Option (List ℕ)) → Holds (W.view w.old) eof blocks.now find → (key : ℕ) → refs_in refs key ≡ uses_of find key nodes.now) }
    ensures stops { IfErr result (λ stop. NeverStops stop (W.view w.old) eof blocks.now nodes.now) }
    ensures fault { result ≡ Err OpenStop.Fault → Rose (W.view w.old).disk_faults (W.view w.new).disk_faults }
    ensures same { Untouched (W.view w.old) (W.view w.new) }
{
    let mut keys = Vec::new(alloc);
    for node in nodes {
        match keys_of(alloc, w, eof, blocks, *node) {
            Ok(mut more) => keys.append(&mut more)?,
            Err(stop) => return Err(stop_at(place_in(blocks, stop), node.nid, stop)),
        }
    }
    Ok(RefCounts::count(alloc, keys)?)
}
