//! The scan of a whole file: its nodes, and what a keeper needs of it, or why it is refused.
//!
//! Promises: `scan_nodes` gives the lines of the node map that the bytes lay (`Lays`) exactly where they lay one, and `scan_file` the used slots, the number of pages, both next numbers and the references to blocks of such a file (`IsFound`); `scan_blocks` gives the entries of the block tree under a header that the caller has read (`LaysBlocks`). A refusal names what is at fault and excludes every node map. Over any world that tells what it holds; all three write nothing, and a device's failure and want of memory are their only other answers.
//!
//! Leaves to others: how refusals are printed.
#![tactic(auto)]

mod blocks;
mod next;
mod nodes;
mod places;
mod refs;
mod runs;
mod scan;

pub use nodes::NodeLine;
pub use refs::count_refs;
pub use scan::{FoundFile, scan_blocks, scan_file, scan_nodes};
