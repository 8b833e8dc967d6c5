//! Mending the searches of a store in two files.
//!
//! Promises: `mend_file` opens the files whatever their running searches list and whether numbers are left, and mends their searches one after another, each by one commit (`FileMendEnds`). A stop at any moment since the call's start leaves files that are read as the tree with the first of its own search folders mended. A refusal of the opening names what is at fault and leaves the world untouched.
//!
//! Leaves to others: what mending a search comes to (`search_mending`), and how it is said.
#![tactic(auto)]

mod mend;

pub use file_open;
pub use file_open::store_open;
pub use mend::{FileMend, mend_file};
pub use search_mends::{MendStop, Mended};
