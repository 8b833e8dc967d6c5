//! The opening of nodes as a store: its folders and messages, its searches, and whether each of these that runs lists what filtering lists.
//!
//! Promises: `open_store` knows a tree with searches that the nodes show (`KnowsTree`), or says why they show none (`StopsTree`): the first thing that is wrong with folders, tables and messages, then with the searches in the order of their folders, and last a running search whose list isn't what it is to be. `look_store` is the same without that last check: it knows a tree with searches that the nodes show, whatever these list (`LooksTree`), which is enough for one who only reads.
//!
//! Leaves to others: what nodes stand in, and the looks themselves (`tree_look`, `search_look`, `list_check`).
#![tactic(auto)]

mod open;
mod stops;

pub use open::{OpenedTree, look_store, open_store};
pub use stops::{TreeRefusal, TreeStop};
