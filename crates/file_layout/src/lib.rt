//! What a file of a store is: its header, its two trees of pages, and the node map that it lays.
//!
//! Promises: `open_header` answers `opening` of the two files' bytes, which is the header that counts or the first refusal. `read_tree` gives the entries of a tree exactly where the bytes have one (`IsWhole`), and a refusal names a page that is reached and at fault. Both over any world that tells what it holds; they write nothing, and a device's failure and want of memory are their only other answers. `Lays` says which node map the bytes are.
//!
//! Leaves to others: reading what the trees' entries point to, and how refusals are printed.
#![tactic(auto)]

mod opening;
mod stops;
mod tree_pages;
mod trees;

pub use file_blocks::BlockRefusal;
pub use opening::{Opened, counted_header, open_header};
pub use stops::{NodeFault, OpenRefusal, OpenStop, PageRefusal};
pub use tree_pages::Seat;
pub use trees::{keys_rise, read_tree};
