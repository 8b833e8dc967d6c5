//! What a transaction has of nodes, by their ids.
ghost use Rattle.std.specs.Prelude.{◌≡◌, ◌↔◌, ℕ, Some, IsSome, IfOk, IsTrue, OnOk, option_copied};
ghost use Rattle.std.specs.Ordering.{nat_cmp};
ghost use Rattle.std.specs.BTreeMap as tree;
ghost use Rattle.staged_nodes.specs.Staged.{Staged, with_changes};
ghost use Rattle.node_port.specs.Nodes.{IsAfter, Nodes, block_in, changed, content_of};
ghost use Rattle.staged_nodes.specs.Staging.{HasChanges, HasSlots, IsAbove, IsGone, IsNextFull, IsNextPut, IsNextSlot, LiesOver, SameChanges, change_at};
ghost use Rattle.staged_nodes.specs.declared.slots.Slot.TheVariants.{Changed};

use node_port::{NodeBlock, NodeRec};
use pst_base::{Nid, Subs};
use std::alloc::{AllocError, Global};
use std::collections::BTreeMap;
use std::ops::Bound;

/// What a transaction has of one node: room for a change, or what the node is now, `None` where it is gone.
#[derive(Debug, Drop)]
pub enum Slot {
    Empty,
    Changed(Option<NodeRec>),
}

/// Slots by the bits of their ids.
pub(crate) type Slots = BTreeMap<u32, Slot>;

/// What became of the node of an id, if it was changed.
pub(crate) fn find(slots: &Slots, nid: u32) -> Option<&Option<NodeRec>>
    ensures { option_copied result ≡ change_at slots.now nid }
{
    match slots.get(&nid) {
        Some(Slot::Changed(node)) => Some(node),
        _ => None,
    }
}

/// A copy of what a node is. It fails only where memory runs out.
pub(crate) fn copied(alloc: Global, node: &Option<NodeRec>) -> Result<Option<NodeRec>, AllocError>
    ensures { IfOk result (λ copy. copy ≡ node.now) }
{
    match node {
        Some(node) => Ok(Some(node.copy(alloc)?)),
        None => Ok(None),
    }
}

/// The same without subnodes.
pub(crate) fn copied_content(
    alloc: Global,
    node: &Option<NodeRec>,
) -> Result<Option<NodeRec>, AllocError>
    ensures { IfOk result (λ copy. copy ≡ content_of node.now) }
{
    match node {
        Some(node) => Ok(Some(NodeRec {
            parent: node.parent,
            blocks: node.blocks.copy(alloc)?,
            subs: Subs::new(alloc),
        })),
        None => Ok(None),
    }
}

/// A data block of a node, and how many it has.
pub(crate) fn copied_block(
    alloc: Global,
    node: &Option<NodeRec>,
    position: usize,
) -> Result<Option<NodeBlock>, AllocError>
    ensures { IfOk result (λ block. block ≡ block_in position node.now) }
{
    match node {
        Some(node) => Ok(Some(node.data_block(alloc, position)?)),
        None => Ok(None),
    }
}

/// Whether the node of an id is gone.
pub(crate) fn is_gone(slots: &Slots, nid: u32) -> bool
    ensures { IsTrue result ↔ IsGone slots.now nid }
{
    matches!(find(slots, nid), Some(None))
}

/// Makes a slot for an id, if there is none. An `Err` changes nothing.
fn make_slot(slots: &mut Slots, nid: u32) -> Result<(), AllocError>
    ensures same { SameChanges slots.old slots.new }
    ensures slot { OnOk result (IsSome (tree.get nat_cmp slots.new nid)) }
{
    if !slots.contains_key(&nid) {
        slots.insert(nid, Slot::Empty)?;
    }
    Ok(())
}

/// Makes a slot for each change. An `Err` leaves the changes as they were.
pub(crate) fn make_slots(
    slots: &mut Slots,
    changes: &[(Nid, Option<NodeRec>)],
) -> Result<(), AllocError>
    ensures same { SameChanges slots.old slots.new }
    ensures ready { OnOk result (HasSlots slots.new changes.now) }
{
    for change in changes {
        make_slot(slots, change.0.bits)?;
    }
    Ok(())
}

/// Puts a change into its slot. Takes no memory.
fn fill(slots: &mut Slots, nid: u32, node: Option<NodeRec>)
    requires { IsSome (tree.get nat_cmp slots.old nid) }
    ensures { tree.Updates nat_cmp slots.old slots.new nid (Some (Changed node)) }
{
    if let Some(slot) = slots.get_mut(&nid) {
        *slot = Slot::Changed(node);
    }
}

/// Puts each change into its slot. Takes no memory.
pub(crate) fn fill_all(slots: &mut Slots, changes: Vec<(Nid, Option<NodeRec>)>)
    requires { HasSlots slots.old changes.items }
    ensures changes { (F : Staged) → HasChanges slots.old F → HasChanges slots.new (with_changes F changes.items) }
    ensures over { (N M : Nodes) → LiesOver N slots.old M → LiesOver N slots.new (changed M changes.items) }
{
    for (nid, node) in changes {
        fill(slots, nid.bits, node);
    }
}

/// The next slot above an id, or the first for `None`, and whether a node is put there.
fn next_slot(slots: &Slots, after: Option<u32>) -> Option<(u32, bool)>
    ensures { IsNextSlot slots.now after result }
{
    let start = match after {
        Some(nid) => Bound::Excluded(nid),
        None => Bound::Unbounded,
    };
    match slots.range((start, Bound::Unbounded)).next() {
        Some((nid, slot)) => Some((*nid, matches!(slot, Slot::Changed(Some(_))))),
        None => None,
    }
}

/// The next number above one, or the first for `None`, whose slot puts a node.
fn next_full(slots: &Slots, after: Option<u32>) -> Option<u32>
    ensures { IsNextFull slots.now after result }
{
    let mut passed = after;
    while let Some((nid, is_put)) = next_slot(slots, passed) {
        if is_put {
            return Some(nid);
        }
        passed = Some(nid);
    }
    None
}

/// The number of an id, if there is one.
fn bits_of(nid: Option<Nid>) -> Option<u32>
    ensures { (q : ℕ) → IsAfter nid q ↔ IsAbove result q }
{
    match nid {
        Some(nid) => Some(nid.bits),
        None => None,
    }
}

/// The next id above one, or the first for `None`, whose node is put.
pub(crate) fn next_put(slots: &Slots, after: Option<Nid>) -> Option<Nid>
    ensures { IsNextPut slots.now after result }
{
    match next_full(slots, bits_of(after)) {
        Some(bits) => Some(Nid { bits }),
        None => None,
    }
}
