//! Nodes in memory as they were, for pins.
ghost use Rattle.std.specs.Prelude.{◌≡◌, ◌↔◌, true, IfOk};
ghost use Rattle.std.specs.Ordering.{nat_cmp};
ghost use Rattle.std.specs.BTreeMap as tree;
ghost use Rattle.node_port.specs.Nodes.{IsAfter, Nodes};
ghost use Rattle.node_port.specs.Slots.{Keeps};
ghost use Rattle.mail_session.specs.Memory.{Copies, IsBeyond, IsNextCopied, IsNextNode};

use crate::nowhere::Nowhere;
use node_port::{MapKeeper, NodeReader, NodeRec};
use pst_base::Nid;
use std::alloc::{AllocError, Global};
use std::collections::BTreeMap;
use std::ops::Bound;

/// A pin: its number, and the nodes as they were when it was made, by the bits of their ids.
#[derive(Drop)]
pub(crate) struct MemoryPin {
    pub(crate) number: u32,
    pub(crate) nodes: BTreeMap<u32, NodeRec>,
}

impl MemoryPin {
    /// The node with an id.
    pub(crate) fn get(&self, alloc: Global, nid: Nid) -> Result<Option<NodeRec>, AllocError>
        ensures { IfOk result (λ node. node ≡ tree.get nat_cmp self.now.nodes nid.bits) }
    {
        match self.nodes.get(&nid.bits) {
            Some(node) => Ok(Some(node.copy(alloc)?)),
            None => Ok(None),
        }
    }

    /// The least id of its nodes above this one, or of all for `None`.
    pub(crate) fn next_after(&self, nid: Option<Nid>) -> Option<Nid>
        ensures { IsNextCopied self.now.nodes nid result }
    {
        let start = match nid {
            Some(nid) => Bound::Excluded(nid.bits),
            None => Bound::Unbounded,
        };
        match self.nodes.range((start, Bound::Unbounded)).next() {
            Some((bits, _)) => Some(Nid { bits: *bits }),
            None => None,
        }
    }
}

/// Whether an id is above another, or there is none to be above.
fn is_after(passed: Option<Nid>, nid: Nid) -> bool
    ensures { (result ≡ true) ↔ IsAfter passed nid.bits }
{
    match passed {
        Some(passed) => passed.bits < nid.bits,
        None => true,
    }
}

/// The least node above an id, or of all for `None`.
fn next_node(
    alloc: Global,
    keeper: &mut MapKeeper,
    passed: Option<Nid>,
) -> Result<Option<(Nid, NodeRec)>, AllocError>
    ensures next { IfOk result (λ next. (N : Nodes) → Keeps keeper.old.nodes N → IsNextNode N passed next) }
    ensures beyond { IfOk result (IsBeyond passed) }
    ensures stays { (N : Nodes) → Keeps keeper.old.nodes N → Keeps keeper.new.nodes N }
    ensures counts { keeper.new.counts.last ≡ keeper.old.counts.last }
{
    let mut nowhere = Nowhere::new();
    let nid = match keeper.next_after(&mut nowhere, passed) {
        Ok(Some(nid)) => nid,
        Ok(None) => return Ok(None),
        Err(_) => return Err(AllocError),
    };
    // (it is above, which the types don't say)
    if !is_after(passed, nid) {
        return Err(AllocError);
    }
    match keeper.get(alloc, &mut nowhere, nid) {
        Ok(Some(node)) => Ok(Some((nid, node))),
        _ => Err(AllocError),
    }
}

/// The nodes of a keeper once more.
pub(crate) fn copy_nodes(
    alloc: Global,
    keeper: &mut MapKeeper,
) -> Result<BTreeMap<u32, NodeRec>, AllocError>
    ensures copies { IfOk result (λ nodes. (N : Nodes) → Keeps keeper.old.nodes N → Copies nodes N) }
    ensures stays { (N : Nodes) → Keeps keeper.old.nodes N → Keeps keeper.new.nodes N }
    ensures counts { keeper.new.counts.last ≡ keeper.old.counts.last }
{
    let mut nodes = BTreeMap::new(alloc);
    let mut passed = None;
    while let Some((nid, node)) = next_node(alloc, keeper, passed)? {
        nodes.insert(nid.bits, node)?;
        passed = Some(nid);
    }
    Ok(nodes)
}
