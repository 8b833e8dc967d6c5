//! A store with searches: a store of the tree that the nodes of a keeper show, which knows its searches beside it, and whose commands are those where there are searches.
//!
//! Promises: `plan` answers what the step of a command says of every tree with searches that the store has, and changes nothing; `commit` makes the store have the tree and the searches after it, and a crash at any moment leaves a disk that stands for the tree from before or that after. `save` leaves both. A command asks the restriction of a running search of the messages that it touches alone (`most`).
//!
//! Leaves to others: what nodes are kept in, and lines and replies as text.
#![tactic(auto)]

mod commands;
mod entry;
mod planned;
mod store;

pub use mail_draft;
pub use mail_store;
pub use planned::PlannedSearch;
pub use search_folders;
pub use search_folders::{mail_folders, search_results};
pub use store::{SearchStore, commit, plan, save};
