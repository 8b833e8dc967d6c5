//! A file with nodes, laid where there is none, and its keeper.
//!
//! Promises: `lay_nodes` lays a file without nodes and commits the nodes to it; its keeper holds just these (`laid`), and the file is as a commit leaves it (`made`). Where Main or Side has bytes, nothing is written.
//!
//! `FoundStore` is what is asked of a planner that is made of what was found of a file, by a scan or by this.
//!
//! Leaves to others: what the nodes mean, and what a stop within it leaves, which is no file with these nodes yet.
#![tactic(auto)]

mod lay;
mod store;

pub use lay::{LayingStop, lay_nodes};
pub use store::FoundStore;
