//! A session over a store with searches and transactions: lines are read and answered over any keeper with pins, and the replies said.
//!
//! Promises, over any keeper and any world that tells what it holds, from a store without pins that has a tree with its searches in order, tidy or not, and a disk with nothing pending (`SessionEnds`): each line is answered once and in order, and the replies are those of a run from that tree and disk (`Run`). Outside of a transaction a line is answered as `pinned_session` does, and each turn has the room of the disk before it, beside the pins that are open, and takes that disk to the next as a commit or a save makes it, or leaves it. Between `begin` and `commit` each line is answered by the tree as the lines before it left it, and nothing is written; `commit` makes of all changes one commit of just the nodes that they touch, and never lacks room; `rollback` takes the tree and the views from before. A reply is made before its line changes anything, and said after that. A stop at any moment leaves a disk that stands for the committed tree after some of the turns, never for one within a transaction, among them each whose reply had begun and at most one whose reply wasn't said whole; with its searches that tree is in order, and tidy where it was at the start, and so is the present tree after each turn. At the end the disk stands for the last committed tree, unless it failed. Each end has its cause.
//!
//! Leaves to others: what a line outside of a transaction and within one comes to (`pinned_session`, `staged_store`), what a keeper's disk and its pins are (`Keeper.stands`, `Pinner`), opening it, and how the input is cut into lines (`line_server`).
#![tactic(auto)]

mod answerer;
mod committing;
mod lines;
mod opening;
mod session;
mod store;

pub use lines::answer_line;
pub use session::run_session;
pub use staged_store;
pub use staged_store::pinned_session;
pub use store::{OpenTransaction, SessionStore};
