//! What is read of a node that is there.
use pst_base::{Blocks, Subs};
use subnode_tree::Kept;

/// The data of a node and of its subnodes, with the ids of the data blocks, each at its position.
#[derive(Drop)]
pub(crate) struct Old {
    pub(crate) ids: Kept,
    pub(crate) blocks: Blocks,
    pub(crate) sub_ids: Vec<Kept>,
    pub(crate) subs: Subs,
}
