//! Commands carried out over a store with searches, as the turns of a session do, over any keeper.
//!
//! Promises, over any keeper and any world that tells what it holds, from a store that has a tree with its searches in order, tidy or not, and a disk with nothing pending (`Has`): `carry_out` makes the reply of a command before anything is changed, and leaves the tree of its step, or says why not (`CommandAnswers`). It takes the disk to the next as the keeper's commit of the nodes of the command's objects does, or as its save does for `save`, by writing as many bytes as these say, and else leaves it and writes nothing. A stop at any moment leaves a disk that stands for the tree before or that after, which is in order, and tidy where it was. `Turns` says what turns of a session come to, whatever its state is: a stop leaves the state after some of them, among them each whose reply had begun and at most one whose reply wasn't said whole.
//!
//! Leaves to others: what a keeper's disk is (`Keeper.stands`), opening it, what lines are (`session_lines`), and the session itself (`pinned_session`).
#![tactic(auto)]

mod carrying;
mod planning;
mod session;

pub use carrying::{StoreStop, carry_out, refusal_spoken, reply_spoken, stopped};
pub use planning::plan_counted;
pub use search_store;
pub use search_store::mail_store::Store;
pub use search_store::{
    SearchStore, mail_draft, mail_folders, mail_store, search_folders, search_results,
};
pub use session::{SessionEnd, end_of};
