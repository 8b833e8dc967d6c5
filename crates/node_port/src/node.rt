//! A node, and changes of nodes.
ghost use Rattle.std.specs.Prelude.{◌≡◌, IfOk};
ghost use Rattle.node_port.specs.Nodes.{ascend, counted};

use pst_base::{Blocks, Bytes, Nid, Subs};
use std::alloc::{AllocError, Global};

/// A node ([MS-PST] 2.2.2.7.7.4): the id of its parent, its data blocks, and its subnodes.
#[derive(Debug, Drop)]
pub struct NodeRec {
    pub parent: Nid,
    pub blocks: Blocks,
    pub subs: Subs,
}

impl NodeRec {
    /// The same node again.
    pub fn copy(&self, alloc: Global) -> Result<NodeRec, AllocError>
        ensures { IfOk result (λ n. n ≡ self.now) }
    {
        Ok(NodeRec {
            parent: self.parent,
            blocks: self.blocks.copy(alloc)?,
            subs: self.subs.copy(alloc)?,
        })
    }

    /// Its data block at a position, and how many it has.
    pub fn data_block(&self, alloc: Global, position: usize) -> Result<NodeBlock, AllocError>
        ensures { IfOk result (λ block. block ≡ counted position self.now.blocks) }
    {
        let block = match self.blocks.as_slice().get(position) {
            Some(block) => Some(block.copy(alloc)?),
            None => None,
        };
        Ok(NodeBlock {
            count: self.blocks.len(),
            block,
        })
    }
}

/// One data block of a node, `None` where it has none at the position that was asked for, and how many it has.
#[derive(Debug, Drop)]
pub struct NodeBlock {
    pub count: usize,
    pub block: Option<Bytes>,
}

/// The counter of indices for each kind of node ([MS-PST] 2.2.2.6, rgnid).
#[derive(Clone, Copy, Debug, PartialEq, Eq)]
pub struct Counts {
    pub last: [u32; 32],
}

/// What is to change: nodes, ascending strictly by id, each with its new content or `None` where it is to go; and the new counters. `room` is the number of data blocks for which room is asked.
#[derive(Debug, Drop)]
pub struct Changes {
    pub nodes: Vec<(Nid, Option<NodeRec>)>,
    pub counts: Counts,
    pub room: u64,
}

impl Changes {
    /// Whether the nodes ascend strictly by id, as a keeper needs them.
    pub fn ascend(&self) -> bool
        ensures { result ≡ ascend 0 self.now.nodes.items }
    {
        let mut low = 0u64;
        for change in self.nodes.iter() {
            let nid = u64::from(change.0.bits);
            if nid < low {
                return false;
            }
            low = nid + 1;
        }
        true
    }
}
