//! Opening a file: its scan, a keeper of its nodes, the tree that they have, and last its gate.
//!
//! Promises: `open_file` gives a keeper of the nodes that the two files lay, with the places of the folders of their tree and which of its messages are unread (`IsOpened`), exactly where the files have such a tree and numbers are left (`ReadsFresh`). A refusal names what is at fault and excludes every tree (`StopsOpening`). All but the closing of the gate comes before anything is written, and a stop at any moment leaves the same nodes. `look_file` opens a file to be read alone, and writes nothing: it gives a keeper of the nodes exactly where they show a tree with searches, whatever these list and whether numbers are left or not (`IsLooked`, `ReadsTree`); a refusal excludes every such tree (`StopsLooking`). `open_mendable` opens such a file for the mending of its searches, and closes its gate. `check_file` looks whether `open_file` would open a file, and gives its header and next numbers (`IsChecked`).
//!
//! Leaves to others: how nodes are read and changes planned (`FoundStore` of `file_laying`), and how refusals are printed.
#![tactic(auto)]

mod header;
mod keep;
mod open;
mod stops;

pub use file_laying;
pub use open::{CheckedFile, OpenedFile, check_file, look_file, open_file, open_mendable};
pub use stops::{FileRefusal, FileStop};
pub use store_open;
