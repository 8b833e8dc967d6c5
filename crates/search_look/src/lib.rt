//! Finding the searches that nodes have beside their tree: its own search folders, and the searches with criteria among them.
//!
//! Promises: `look_searches` gives the searches exactly where the nodes have some for the folders of their tree (`HasSearches`), and else what is wrong (`HasSearchFault`), which excludes all searches (`fault_excludes`). A search folder is one of the store's own just where its nodes say so (`AreOwn`); all others are left as they are. It only looks (`Looks`), over any reader of nodes.
//!
//! The laws say that where folders stand as `HasTree` says and searches as `HasSearches` says, there is a tree with these that the nodes show; that nodes that show one have a tree and searches; that they show at most one; and that what a look knows of their messages is so of it, and of all of them.
//!
//! Leaves to others: the tree itself (`tree_look`), and what the searches are to list.
#![tactic(auto)]

mod criteria;
mod law;
mod list;
mod look;
mod shown;
mod stops;

pub use law::fault_excludes;
pub use look::look_searches;
pub use shown::{
    has_searches, has_tree, knows_messages, one_searching, search_flags, shows_searches,
};
pub use stops::{SearchRefusal, SearchStop};
