//! The blocks that a node reaches: those of its data and of its subnodes at all levels, those that name or list others too.
//!
//! `node_keys` says which they are, by their keys, and `uses_of` how often the nodes of some entries reach a block. `read_node_keys` reads them from a source of blocks, and stops only by a fault of the trees, by the source, or by want of memory. Where a node's data and subnodes are read, no fault of the trees comes (`keys-read`).
//!
//! Leaves to others: what becomes of blocks that no node reaches.
#![tactic(auto)]

mod read;

pub use read::read_node_keys;
