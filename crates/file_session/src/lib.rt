//! Sessions over the two files of a store, from the opening to the end.
//!
//! Promises: `run_file` opens the files and answers the lines of the input over the tree with its searches that they are read as (`EndsOpened`): the replies are those of a run from that tree and those files, each turn of which has the room of the files before it and takes them to the next as a commit or a save makes them, or leaves them; and a stop at any moment since the call's start, the opening's own writes included, leaves files that are read as the tree after some of the turns, among them each whose reply had begun and at most one whose reply wasn't said whole. A refusal names what is at fault and leaves the world untouched. `make_file` makes files that are read as the tree of a new store.
//!
//! Leaves to others: the words of the command line, and how refusals are printed.
#![tactic(auto)]

mod make;
mod run;

pub use file_laying;
pub use file_open;
pub use mail_transactions;
pub use mail_transactions::pinned_session;
pub use make::{FileMade, make_file};
pub use run::{FileRun, run_file, unopened};
