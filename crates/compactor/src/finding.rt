//! What is found of the file that is copied.
ghost use Rattle.std.specs.Prelude.{◌≡◌, IfOk, IfErr, OnOk, Err};
ghost use Rattle.pst_header.specs.Format.{IsWritable};
ghost use Rattle.pst_outside.specs.Calls.{Rose, Untouched};
ghost use Rattle.copy_pieces.specs.Stops.{StopsCopy, tree_stop};
ghost use Rattle.compactor.specs.Source.{IsSource};
ghost use Rattle.compactor.specs.Steps.{IsFound};

use crate::source::Source;
use copy_pieces::{CompactStop, Entries, changed, check_header, most_need, read_entries};
use file_layout::OpenStop;
use file_scan::count_refs;
use pst_outside::Outside;
use ref_counts::RefCounts;
use std::alloc::Global;

/// The entries of a file's trees, how often its nodes refer to each block, and how long the copy must be for its nodes.
#[derive(Drop)]
pub(crate) struct Found {
    pub entries: Entries,
    pub refs: RefCounts,
    pub need: u64,
}

/// Why the references of nodes can't be counted that were read.
fn refs_stop(stop: OpenStop) -> CompactStop
    ensures { result ≡ tree_stop stop }
{
    match stop {
        OpenStop::Fault => CompactStop::Fault,
        OpenStop::Memory => CompactStop::Memory,
        OpenStop::Changed {
            ib,
            stored,
            computed,
        } => CompactStop::Changed {
            ib,
            stored,
            computed,
        },
        OpenStop::Refused(_) => changed(0),
    }
}

/// Reads what the copy is made of, and writes nothing.
pub(crate) fn find<W: Outside>(
    alloc: Global,
    w: &mut W,
    source: &Source,
) -> Result<Found, CompactStop>
    requires source { (W.view w.old).tells → IsSource (W.view w.old).here source.now }
    ensures found { IfOk result (λ found. (W.view w.new).tells → IsFound (W.view w.new).here source.now found) }
    ensures writable { OnOk result (IsWritable source.now.header) }
    ensures stops { IfErr result (λ stop. StopsCopy stop (W.view w.new)) }
    ensures fault { result ≡ Err CompactStop.Fault → Rose (W.view w.old).disk_faults (W.view w.new).disk_faults }
    ensures same { Untouched (W.view w.old) (W.view w.new) }
{
    check_header(w, &source.header)?;
    let entries = read_entries(alloc, w, &source.header)?;
    let (blocks, nodes) = (entries.blocks.as_slice(), entries.nodes.as_slice());
    let refs = match count_refs(alloc, w, source.header.eof, blocks, nodes) {
        Ok(refs) => refs,
        Err(stop) => return Err(refs_stop(stop)),
    };
    let need = most_need(alloc, w, source.header.eof, blocks, nodes)?;
    Ok(Found {
        entries,
        refs,
        need,
    })
}
