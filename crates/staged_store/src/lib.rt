//! A store within a transaction: lines are answered over the nodes of a keeper with changes that aren't committed, and the keeper stays as it is.
//!
//! Promises, over any keeper that holds nodes which with the changes so far show a tree with its searches in order (`IsUnderway`): `answer_within` answers a line by that tree, and leaves the changes with which the nodes show the tree after it (`SaysOn`): a command of the store by its step, where there is room for it in the file and in the transaction, and its changes are those of its objects; a line on views by the table of its folder as it is; a line on the message in an attachment by what it comes to. The world is untouched, what the keeper holds and its pins tell stays, and a reply is made before anything is changed.
//!
//! Leaves to others: how a transaction begins and ends, and committing its changes (`mail_transactions`).
#![tactic(auto)]

mod lines;
mod reading;
mod settling;
mod staging;
mod underway;
mod viewing;

pub use lines::answer_within;
pub use pinned_session;
pub use staged_nodes;
pub use staging::transaction_spoken;
pub use underway::StagedStore;
