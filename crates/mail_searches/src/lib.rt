//! The tree of a store with its searches: what they list, what commands do to them, and the step of each command.
//!
//! This crate is the meaning of searches. `specs/` says what a search is to list (`Searches`), which messages a command touches (`Touching`), what these change in the lists of searches (`Relisting`), how a list is built (`Building`), what `mksearch`, `criteria`, `getcriteria` and `ls` refuse and change (`Criteria`), the step (`Step`), and what keeps a tree with searches in order (`Searching`). `OwnSearch` and `Searches` are the searches in memory; `touch` asks of a message what becomes of it in their lists, and counts each restriction that it reaches.
//!
//! Leaves to others: the criteria of a search and where they stand (`search_obj`), whether a restriction holds (`restr_eval`), the step of a command without searches (`mail_tree`), what follows of the definitions (`search_lists`), and how nodes are read and written.
#![tactic(auto)]

mod following;
mod known;
mod law;
mod own;
mod relisting;
mod scoping;

pub use following::{OwnSearch, Searches};
pub use known::KnownSearches;
pub use law::criteria_are_found;
pub use own::OwnFolders;
pub use relisting::relist;
