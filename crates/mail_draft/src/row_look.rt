//! Whether a table has a row, of the blocks on the way to it.
ghost use Rattle.std.specs.Prelude.{◌≡◌, ℕ, List, IfErr, IfOk, length, slice_get};
ghost use Rattle.node_port.specs.Nodes.{Nodes, block_in, node_at};
ghost use Rattle.mail_tree.specs.Tree.{Shown, Tree};
ghost use Rattle.mail_draft.specs.Answers.{IsCaused, IsNoMatter, Looks};
ghost use Rattle.mail_draft.specs.RowLooks.{AreOf, AreSome, TellsLook};

use crate::stop::Stop;
use content_glance::heap_edit::{KnownBlocks, KnownHeap};
use content_glance::{Untold, look_for_row};
use node_port::{NodeBlock, NodeReader};
use pst_base::{Bytes, Nid};
use pst_outside::Outside;
use std::alloc::{AllocError, Global};

/// So many blocks are read one by one at most: the way to a row of a table that this program wrote has four.
const MOST_BLOCKS: usize = 8;

/// A data block of a node, and how many it has.
fn block_at<W: Outside, K: NodeReader<W>>(
    alloc: Global,
    keeper: &mut K,
    w: &mut W,
    nid: Nid,
    position: usize,
) -> Result<Option<NodeBlock>, Stop>
    ensures block { IfOk result (λ block. (N : Nodes) → K.holds keeper.old (W.view w.old) N → block ≡ block_in position (node_at N nid.bits)) }
    ensures calm { IfErr result (λ stop. (N : Nodes) → K.holds keeper.old (W.view w.old) N → IsNoMatter stop) }
    ensures looks { Looks (K.holds keeper.old (W.view w.old)) (K.holds keeper.new (W.view w.new)) (K.last keeper.old) (K.last keeper.new) (K.room keeper.old) (K.room keeper.new) (W.view w.old) (W.view w.new) }
    ensures cause { IfErr result (IsCaused K.has_disk (W.view w.old).disk_faults (W.view w.new).disk_faults) }
{
    Ok(keeper.data_block(alloc, w, nid, position)?)
}

/// A heap of so many blocks, of which none is known.
fn unknown_heap(alloc: Global, count: usize) -> KnownHeap
    ensures { (blocks : List (List ℕ)) → length blocks ≡ count → AreSome result blocks }
{
    KnownHeap::new(alloc, KnownBlocks::new(alloc, count))
}

/// The heap with this block known as well, if there is one.
fn with_block(
    mut heap: KnownHeap,
    position: usize,
    block: Option<Bytes>,
) -> Result<KnownHeap, AllocError>
    ensures { IfOk result (λ h. (blocks : List (List ℕ)) → block ≡ slice_get blocks position → AreSome heap blocks → AreSome h blocks) }
{
    match block {
        Some(block) => {
            heap.know(position, block)?;
            Ok(heap)
        }
        None => Ok(heap),
    }
}

/// The heap in a node of which the first block is known.
fn first_known<W: Outside, K: NodeReader<W>>(
    alloc: Global,
    keeper: &mut K,
    w: &mut W,
    nid: Nid,
) -> Result<KnownHeap, Stop>
    ensures known { IfOk result (λ h. (N : Nodes) → K.holds keeper.old (W.view w.old) N → AreOf h (node_at N nid.bits)) }
    ensures calm { IfErr result (λ stop. (N : Nodes) → K.holds keeper.old (W.view w.old) N → IsNoMatter stop) }
    ensures looks { Looks (K.holds keeper.old (W.view w.old)) (K.holds keeper.new (W.view w.new)) (K.last keeper.old) (K.last keeper.new) (K.room keeper.old) (K.room keeper.new) (W.view w.old) (W.view w.new) }
    ensures cause { IfErr result (IsCaused K.has_disk (W.view w.old).disk_faults (W.view w.new).disk_faults) }
{
    match block_at(alloc, keeper, w, nid, 0)? {
        Some(found) => {
            let heap = unknown_heap(alloc, found.count);
            Ok(with_block(heap, 0, found.block)?)
        }
        None => Ok(unknown_heap(alloc, 0)),
    }
}

/// The heap in a node with the block at a position known as well.
fn more_known<W: Outside, K: NodeReader<W>>(
    alloc: Global,
    keeper: &mut K,
    w: &mut W,
    nid: Nid,
    heap: KnownHeap,
    position: usize,
) -> Result<KnownHeap, Stop>
    ensures known { IfOk result (λ h. (N : Nodes) → K.holds keeper.old (W.view w.old) N → AreOf heap (node_at N nid.bits) → AreOf h (node_at N nid.bits)) }
    ensures calm { IfErr result (λ stop. (N : Nodes) → K.holds keeper.old (W.view w.old) N → IsNoMatter stop) }
    ensures looks { Looks (K.holds keeper.old (W.view w.old)) (K.holds keeper.new (W.view w.new)) (K.last keeper.old) (K.last keeper.new) (K.room keeper.old) (K.room keeper.new) (W.view w.old) (W.view w.new) }
    ensures cause { IfErr result (IsCaused K.has_disk (W.view w.old).disk_faults (W.view w.new).disk_faults) }
{
    match block_at(alloc, keeper, w, nid, position)? {
        Some(found) => Ok(with_block(heap, position, found.block)?),
        None => Ok(heap),
    }
}

/// Whether the table at an id of the nodes has a row, of the blocks on the way to it; `None` where they don't tell it in that way.
pub(crate) fn row_by_blocks<W: Outside, K: NodeReader<W>>(
    alloc: Global,
    keeper: &mut K,
    w: &mut W,
    table: Nid,
    row: Nid,
) -> Result<Option<bool>, Stop>
    ensures answer { (T : Tree) → Shown (K.holds keeper.old (W.view w.old)) (K.last keeper.old) T → TellsLook T table.bits row.bits result }
    ensures looks { Looks (K.holds keeper.old (W.view w.old)) (K.holds keeper.new (W.view w.new)) (K.last keeper.old) (K.last keeper.new) (K.room keeper.old) (K.room keeper.new) (W.view w.old) (W.view w.new) }
    ensures cause { IfErr result (IsCaused K.has_disk (W.view w.old).disk_faults (W.view w.new).disk_faults) }
{
    let mut heap = first_known(alloc, keeper, w, table)?;
    for _ in 0..MOST_BLOCKS {
        match look_for_row(&heap, row.bits) {
            Ok(has) => return Ok(Some(has)),
            Err(Untold::Lacks(position)) => {
                heap = more_known(alloc, keeper, w, table, heap, position)?;
            }
            Err(Untold::Unclear) => return Ok(None),
        }
    }
    Ok(None)
}
