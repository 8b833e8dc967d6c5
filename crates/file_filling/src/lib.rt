//! A large input, made in two files.
//!
//! Promises: `fill_file` opens the files as a session does, and makes a large input in their store, each command of it by one commit (`FillOpened`). A stop at any moment since the call's start leaves files that are read as the tree after some of the commands. A refusal of the opening names what is at fault and leaves the world untouched.
//!
//! Leaves to others: the commands (`store_filling`), and how what they come to is said.
#![tactic(auto)]

mod fill;

pub use file_session;
pub use file_session::mail_transactions::staged_store::staged_nodes;
pub use file_session::{FileRun, mail_transactions, pinned_session};
pub use fill::{FileFill, fill_file};
pub use store_filling::{FillCounts, Stop, mail_reading, mail_store, search_store, store_session};
