//! What changes of nodes come to.
ghost use Rattle.std.specs.Prelude.{◌≡◌, ◌≤◌, ◌+◌, ◌*◌, ◌%◌, ◌^◌, ◌++◌, [], true, length, IfOk, IfErr};
ghost use Rattle.data_tree.specs.Plan.{AreSmall, Rise};
ghost use Rattle.file_layout.specs.Nodes.{NodeMap};
ghost use Rattle.node_layout.specs.Joined.{node_id};
ghost use Rattle.node_port.specs.Nodes.{ascend};
ghost use Rattle.node_port.specs.Stops.{size};
ghost use Rattle.node_store.specs.Told.{KeepsTelling, StopsKeeping, TellsNodes};
ghost use Rattle.pst_outside.specs.Calls.{Untouched};
ghost use Rattle.tree_edit.specs.Edits.{AreEdits};
ghost use Rattle.content_plan.specs.Plan.{IsContentPlan, puts_in};

use crate::node::plan_node;
use crate::put::limited;
use btree_pages::NodeEntry;
use node_port::{KeepStop, NodeRec};
use node_store::PageCaches;
use pst_base::{Bid, Bytes, Nid};
use pst_header::Header;
use pst_outside::Outside;
use std::alloc::{AllocError, Global};

/// What changes of nodes come to.
#[derive(Drop)]
pub struct ContentPlan {
    /// The edits of the node tree, ascending by id: a node's new entry, or that it is to go.
    pub edits: Vec<(u64, Option<NodeEntry>)>,
    /// The new blocks, in the order of their ids.
    pub blocks: Vec<(Bid, Bytes)>,
    /// The keys that the nodes with an edit reach in the file now, each as often as they do.
    pub taken: Vec<u64>,
    /// The keys that the nodes that are put will reach, each as often as they will: new blocks, and those that stay.
    pub put: Vec<u64>,
}

impl ContentPlan {
    /// No changes. Takes no memory.
    fn new(alloc: Global) -> ContentPlan
        ensures edits { result.edits.items ≡ [] }
        ensures blocks { result.blocks.items ≡ [] }
        ensures taken { result.taken.items ≡ [] }
        ensures put { result.put.items ≡ [] }
    {
        ContentPlan {
            edits: Vec::new(alloc),
            blocks: Vec::new(alloc),
            taken: Vec::new(alloc),
            put: Vec::new(alloc),
        }
    }

    /// This plan, and then another.
    fn with(mut self, mut more: ContentPlan) -> Result<ContentPlan, AllocError>
        ensures edits { IfOk result (λ plan. plan.edits.items ≡ self.edits.items ++ more.edits.items) }
        ensures blocks { IfOk result (λ plan. plan.blocks.items ≡ self.blocks.items ++ more.blocks.items) }
        ensures taken { IfOk result (λ plan. plan.taken.items ≡ self.taken.items ++ more.taken.items) }
        ensures put { IfOk result (λ plan. plan.put.items ≡ self.put.items ++ more.put.items) }
    {
        self.edits.append(&mut more.edits)?;
        self.blocks.append(&mut more.blocks)?;
        self.taken.append(&mut more.taken)?;
        self.put.append(&mut more.put)?;
        Ok(self)
    }
}

/// Plans the contents of changed nodes, which ascend strictly by id, with new blocks from the number `next` on, a multiple of 4 from 4 to 2^62. It writes nothing.
///
/// New blocks have the next ids in the order of the changes: of each node its data, then that of its subnodes ([MS-PST] 2.2.2.8.3). A data block stays where its bytes and its position in its node or subnode stay, once in a data tree. A subnode is the one that was there where its id and those of all subnodes above it are the same.
///
/// `Fault` and `Changed` come as of `read_node`. `Memory` comes for want of memory, and also where a content hasn't the form of a node, or the numbers would pass 2^62.
pub fn plan_contents<W: Outside>(
    alloc: Global,
    w: &mut W,
    header: &Header,
    caches: &mut PageCaches,
    changes: &[(Nid, Option<NodeRec>)],
    next: u64,
) -> Result<ContentPlan, KeepStop>
    requires order { ascend 0 changes.now ≡ true }
    requires low { 4 ≤ next }
    requires high { next ≤ 2 ^ 62 }
    requires apart { next % 4 ≡ 0 }
    ensures plan { IfOk result (λ plan. (m : NodeMap) → (tells : TellsNodes (W.view w.old) header.now caches.old m) → IsContentPlan tells.lays next changes.now plan) }
    ensures numbered { IfOk result (λ plan. Rise next plan.blocks.items) }
    ensures small { IfOk result (λ plan. AreSmall plan.blocks.items) }
    ensures most { IfOk result (λ plan. 2 * (length plan.blocks.items + puts_in plan.edits.items) ≤ 3 * size changes.now) }
    ensures edits { IfOk result (λ plan. AreEdits node_id 0 (2 ^ 64) plan.edits.items) }
    ensures stops { IfErr result (StopsKeeping (W.view w.old) (W.view w.new) ((m : NodeMap) × TellsNodes (W.view w.old) header.now caches.old m)) }
    ensures keeps { KeepsTelling (W.view w.old) (W.view w.new) header.now caches.old caches.new }
    ensures untouched { Untouched (W.view w.old) (W.view w.new) }
{
    let mut plan = ContentPlan::new(alloc);
    let mut free = next;
    for change in changes {
        let (one, after) = plan_node(alloc, w, header, caches, change, next, free)?;
        free = limited(after)?;
        plan = plan.with(one)?;
    }
    Ok(plan)
}
