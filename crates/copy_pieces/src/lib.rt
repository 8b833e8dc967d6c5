//! The pieces that a copy without holes is made of.
//!
//! Promises: `choose` and `place` give the blocks that a file's nodes reach and the places that they get in the copy (`AreMoved`, `InOrder`), and `copy_blocks` writes them there (`AddsBlocks`). `put_fixed` writes the fixed pages of all regions with their maps (`AddsFixed`), and `copy_header` gives the header (`Succeeds`). `read_entries` reads the entries of both trees again that a scan found whole, and `most_need` what the nodes need. Each writes to Copy alone (`KeepsSource`), and stops only by the disk, for memory, or where something isn't as it was found (`StopsCopy`).
//!
//! Leaves to others: the pages of both trees, the order of these calls, and what comes of them.
#![tactic(auto)]

mod blocks;
mod fixed;
mod header;
mod needs;
mod placing;
mod source;
mod stops;

pub use blocks::copy_blocks;
pub use fixed::{put_fixed, used_slots};
pub use header::{Made, check_header, copy_header};
pub use needs::most_need;
pub use placing::{Placed, choose, place};
pub use source::{BLOCK_TREE, Entries, NODE_TREE, read_entries};
pub use stops::{CompactStop, changed};
