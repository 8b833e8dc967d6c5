//! Nodes by their ids, in slots of which some are empty.
ghost use Rattle.std.specs.Prelude.{◌≡◌, Some, IsSome, OnOk, option_copied};
ghost use Rattle.std.specs.Ordering.{nat_cmp};
ghost use Rattle.std.specs.BTreeMap as tree;
ghost use Rattle.node_port.specs.Nodes.{changed, Nodes};
ghost use Rattle.node_port.specs.Slots.{kept, HasSlots, Keeps, SameNodes, IsNextSlot, IsNextKept};

use crate::node::NodeRec;
use pst_base::Nid;
use std::alloc::AllocError;
use std::collections::BTreeMap;
use std::ops::Bound;

/// Slots by the bits of their ids.
pub(crate) type Slots = BTreeMap<u32, Option<NodeRec>>;

/// The node in a slot, if there is one.
pub(crate) fn find(slots: &Slots, nid: u32) -> Option<&NodeRec>
    ensures { option_copied result ≡ kept (tree.get nat_cmp slots.now nid) }
{
    match slots.get(&nid) {
        Some(slot) => slot.as_ref(),
        None => None,
    }
}

/// Makes a slot for an id, if there is none. An `Err` changes nothing.
fn make_slot(slots: &mut Slots, nid: u32) -> Result<(), AllocError>
    ensures same { SameNodes slots.old slots.new }
    ensures slot { OnOk result (IsSome (tree.get nat_cmp slots.new nid)) }
{
    if !slots.contains_key(&nid) {
        slots.insert(nid, None)?;
    }
    Ok(())
}

/// Makes a slot for each change. An `Err` leaves the nodes as they were.
pub(crate) fn make_slots(
    slots: &mut Slots,
    changes: &[(Nid, Option<NodeRec>)],
) -> Result<(), AllocError>
    ensures same { SameNodes slots.old slots.new }
    ensures ready { OnOk result (HasSlots slots.new changes.now) }
{
    for change in changes {
        make_slot(slots, change.0.bits)?;
    }
    Ok(())
}

/// Puts a node into a slot, or empties it. Takes no memory.
fn fill(slots: &mut Slots, nid: u32, node: Option<NodeRec>)
    requires { IsSome (tree.get nat_cmp slots.old nid) }
    ensures { tree.Updates nat_cmp slots.old slots.new nid (Some node) }
{
    if let Some(slot) = slots.get_mut(&nid) {
        *slot = node;
    }
}

/// Puts each change into its slot. Takes no memory.
pub(crate) fn fill_all(slots: &mut Slots, changes: Vec<(Nid, Option<NodeRec>)>)
    requires { HasSlots slots.old changes.items }
    ensures { (N : Nodes) → Keeps slots.old N → Keeps slots.new (changed N changes.items) }
{
    for (nid, node) in changes {
        fill(slots, nid.bits, node);
    }
}

/// The next slot above an id, or the first for `None`, and whether a node is in it.
fn next_slot(slots: &Slots, after: Option<u32>) -> Option<(u32, bool)>
    ensures { IsNextSlot slots.now after result }
{
    let start = match after {
        Some(nid) => Bound::Excluded(nid),
        None => Bound::Unbounded,
    };
    match slots.range((start, Bound::Unbounded)).next() {
        Some((nid, slot)) => Some((*nid, slot.is_some())),
        None => None,
    }
}

/// The next id above one, or the first for `None`, whose slot has a node.
pub(crate) fn next_kept(slots: &Slots, after: Option<u32>) -> Option<u32>
    ensures { IsNextKept slots.now after result }
{
    let mut passed = after;
    while let Some((nid, has_node)) = next_slot(slots, passed) {
        if has_node {
            return Some(nid);
        }
        passed = Some(nid);
    }
    None
}
