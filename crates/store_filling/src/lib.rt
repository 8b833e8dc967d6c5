//! A large input, made over a store.
//!
//! Promises, over any keeper and any world that tells what it holds, from a store that has a tree with its searches in order, tidy or not, and a disk with nothing pending: `fill_store` carries out the commands of a large input (`fill_command`), each by one commit, and counts at the end what `ls` lists (`AreCounted`). It ends at the first command that is refused or stops. Each turn has the room of the disk before it and takes that disk to the next as the keeper's commit of the nodes of its objects does. A stop at any moment leaves a disk that stands for the tree after some of the turns (`StoreFillEnds`).
//!
//! Leaves to others: the commands themselves (`bulk_maker`), what a keeper's disk is, and how the counts are said.
#![tactic(auto)]

mod commands;
mod counting;
mod doing;
mod filling;
mod places;

pub use commands::Made;
pub use counting::FillCounts;
pub use filling::fill_store;
pub use mail_reading;
pub use mail_reading::mail_draft::Stop;
pub use places::FillPlaces;
pub use store_session;
pub use store_session::{mail_store, search_store};
