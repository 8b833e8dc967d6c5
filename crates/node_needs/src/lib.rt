//! How long a file must be so that its nodes are read in it: no data of a node or a subnode is longer than the file, and the file has 24 bytes for each subnode of a node.
//!
//! Promises: `node_need` gives what one node needs (`need_of`), of which it reads no data block. A node reads the same in any file with its blocks that has as many bytes (`node-fits`), and in no shorter one.
//!
//! Leaves to others: which blocks a file has.
#![tactic(auto)]

mod need;

pub use need::node_need;
