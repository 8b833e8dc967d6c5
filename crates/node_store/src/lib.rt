//! The nodes of a file over a world, read on demand.
//!
//! `read_node` gives the node with an id, with its data and its subnodes, `read_node_data` the same without reading its subnodes, `read_node_block` one of its data blocks, and `next_node` the least id above one. They read the pages of the file's trees on the way alone, through a cache, and the blocks of the one node. Promises: over a world that tells a file which lays nodes, with caches that have no other pages than the file's, the answers are those nodes'; each stop has its cause; nothing is written, and the caches have no other pages than the file's still.
//!
//! `TreeBlocks` is the file's blocks as a source for other readings.
//!
//! Leaves to others: which header counts, and what nodes mean.
#![tactic(auto)]

mod blocks;
mod content;
mod node;
mod single;

pub use blocks::TreeBlocks;
pub use node::{
    BLOCK_PAGE, NODE_PAGE, PageCaches, keep_stop, next_node, read_node, read_node_data, tree_stop,
};
pub use single::read_node_block;
