//! The copy, part by part.
ghost use Rattle.std.specs.Prelude.{◌≡◌, ◌<◌, ◌^◌, [], map, IfOk, IfErr, OnOk, Err};
ghost use Rattle.pst_outside.specs.Calls.{Rose};
ghost use Rattle.copy_part.specs.Keeps.{IsStable, KeepsSource};
ghost use Rattle.file_blocks.specs.Blocks.{entry_key};
ghost use Rattle.node_layout.specs.Joined.{node_id};
ghost use Rattle.tree_edit.specs.Shapes.{RiseIn};
ghost use Rattle.compactor.specs.Compacted.{IsCompacted, StopsCompact};
ghost use Rattle.compactor.specs.Source.{IsSource};
ghost use Rattle.compactor.specs.Steps.{AreUnordered};

use crate::finding::{Found, find};
use crate::planning::{Plan, plan_copy};
use crate::rising::are_rising;
use crate::source::Source;
use crate::writing::write_copy;
use copy_pieces::{CompactStop, changed};
use pst_outside::Outside;
use std::alloc::Global;

/// The most bytes that a file may have: those before the first region, and 8192 regions.
const LARGEST: u64 = 0x4400 + 253_952 * 8192;

/// Looks whether the entries of the copy ascend by their keys, as those of a tree do.
fn check_order(found: &Found, plan: &Plan) -> Result<(), CompactStop>
    ensures blocks { OnOk result (RiseIn 0 (2 ^ 64) (map entry_key plan.now.blocks.items)) }
    ensures nodes { OnOk result (RiseIn 0 (2 ^ 64) (map node_id found.now.entries.nodes.items)) }
    ensures stops { IfErr result (λ stop. (stop ≡ CompactStop.Changed 0 0 0) × AreUnordered plan.now.blocks.items found.now.entries.nodes.items) }
{
    if are_rising(plan.blocks.as_slice()) && are_rising(found.entries.nodes.as_slice()) {
        return Ok(());
    }
    Err(changed(0))
}

/// Writes the file without holes into Copy, which has no bytes, makes it stable, and answers where it ends. The header is written last, once all else is stable.
///
/// `Large` comes before anything is written, where the copy would end past 2,080,392,192 bytes. `Fault` comes only where the disk failed, `Changed` where something isn't as it was found, never over a world that tells. What a stop leaves of Copy is no file.
pub fn compact<W: Outside>(alloc: Global, w: &mut W, source: &Source) -> Result<u64, CompactStop>
    requires source { (W.view w.old).tells → IsSource (W.view w.old).here source.now }
    requires empty { (W.view w.old).tells → (W.view w.old).here.copy ≡ [] }
    requires numbers { source.now.next_page < 2 ^ 61 }
    ensures keeps { KeepsSource (W.view w.old) (W.view w.new) }
    ensures fault { result ≡ Err CompactStop.Fault → Rose (W.view w.old).disk_faults (W.view w.new).disk_faults }
    ensures stops { IfErr result (λ stop. StopsCompact source.now stop (W.view w.old) (W.view w.new)) }
    ensures compacted { IfOk result (λ eof. (W.view w.new).tells → IsCompacted (W.view w.old).here source.now eof (W.view w.new).here.copy) }
    ensures stable { OnOk result (IsStable (W.view w.new)) }
{
    let found = find(alloc, w, source)?;
    let plan = plan_copy(alloc, &found, source.next_page)?;
    if plan.eof > LARGEST {
        return Err(CompactStop::Large { eof: plan.eof });
    }
    check_order(&found, &plan)?;
    write_copy(alloc, w, source, found.entries.nodes.as_slice(), &plan)?;
    Ok(plan.eof)
}
