//! Finding the tree that nodes have: the folders from the root down, with their tables and messages.
//!
//! Promises: `look_folders` gives the places of the folders exactly where the nodes have a tree (`HasTree`), and beside them which messages are unread, of just those that its plain folders list, and what the folders are named (`AreListed`, `AreKnown`); and else what is wrong (`HasFault`), which excludes every tree (`fault_excludes`). It only looks (`Looks`), over any reader of nodes. `table_of` gives the table that a node is.
//!
//! The laws say that where folders stand as `HasTree` says, there is a tree with those places that the nodes show, it is whole, and an opening finds it; that nodes show at most one tree; that what a look knows of their messages is so of that tree; and that the nodes of a whole tree that an opening finds show that one.
//!
//! Leaves to others: where nodes come from, and what the commands make of a tree.
#![tactic(auto)]

mod flags;
mod forms;
mod look;
mod nodes;
mod shown;
mod stops;

pub use forms::table_of;
pub use look::look_folders;
pub use mail_draft;
pub use shown::{one_tree, shows_flags, shows_found, shows_tree};
pub use stops::{LookRefusal, LookStop, TreeFault};
