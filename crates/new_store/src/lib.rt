//! The nodes of a new store.
//!
//! Promises: `new_store` gives nodes that show the tree of a new store of a name (`IsStart`), and where its folders stand.
//!
//! Leaves to others: what keeps the nodes.
#![tactic(auto)]

mod contexts;
mod entries;
mod folders;
mod keys;
mod making;
mod tables;
mod writing;

pub use making::{NewStore, new_store};
