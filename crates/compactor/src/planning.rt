//! What is planned of the copy.
ghost use Rattle.std.specs.Prelude.{◌≡◌, ◌<◌, ◌^◌, Err, IfOk, IfErr};
ghost use Rattle.copy_layout.specs.Order.{IsEnd};
ghost use Rattle.file_scan.specs.Parts.{AllShort};
ghost use Rattle.ref_counts.specs.Tables.{refs_in};
ghost use Rattle.compactor.specs.Steps.{IsPlan};

use crate::finding::Found;
use btree_pages::{BlockEntry, NodeEntry};
use copy_layout::end_of_regions;
use copy_pieces::{CompactStop, choose, place};
use copy_trees::{TreePages, plan_tree};
use std::alloc::Global;

/// The greatest length that is thought of.
const LIMIT: u64 = 1 << 60;

/// The blocks of the file that are copied, their entries in the copy, the pages of both trees, and where the copy ends.
#[derive(Drop)]
pub(crate) struct Plan {
    pub chosen: Vec<BlockEntry>,
    pub blocks: Vec<BlockEntry>,
    pub nodes: TreePages,
    pub tree: TreePages,
    pub eof: u64,
}

/// Where a copy ends that needs so many bytes. More than memory holds is answered as want of it.
fn end_for(need: u64) -> Result<u64, CompactStop>
    ensures end { IfOk result (IsEnd need) }
    ensures memory { IfErr result (λ stop. stop ≡ CompactStop.Memory) }
{
    if need > LIMIT {
        return Err(CompactStop::Memory);
    }
    Ok(end_of_regions(need))
}

/// Gives each part of the copy its place, and its pages numbers from `first` on.
pub(crate) fn plan_copy(alloc: Global, found: &Found, first: u64) -> Result<Plan, CompactStop>
    requires numbers { first < 2 ^ 61 }
    ensures planned { IfOk result (IsPlan (refs_in found.now.refs) found.now.entries.blocks.items found.now.entries.nodes.items found.now.need first) }
    ensures short { IfOk result (λ plan. AllShort plan.chosen.items) }
    ensures stops { IfErr result (λ stop. AllShort found.now.entries.blocks.items → stop ≡ CompactStop.Memory) }
    ensures fault { result ≡ Err CompactStop.Fault → ⊥ }
{
    let chosen = choose(alloc, found.entries.blocks.as_slice(), &found.refs)?;
    let placed = place(alloc, chosen.as_slice(), &found.refs)?;
    let nodes = plan_tree::<NodeEntry>(alloc, found.entries.nodes.len(), placed.end, first)?;
    let tree = plan_tree::<BlockEntry>(alloc, placed.entries.len(), nodes.end, nodes.next_page)?;
    let eof = end_for(tree.end.max(found.need))?;
    Ok(Plan {
        chosen,
        blocks: placed.entries,
        nodes,
        tree,
        eof,
    })
}
