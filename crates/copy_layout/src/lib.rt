//! Where the blocks and pages of a file without holes stand.
//!
//! Promises: `next_block` and `next_page` give the first place behind another at which a block or a page meets no fixed page of the file ([MS-PST] 2.2.2.7.2 to 2.2.2.7.5): blocks stand at multiples of 64, pages at multiples of 512 (`IsNext`). `end_of_regions` gives the least end of a file that isn't below what it needs (`IsEnd`). Places that follow each other so meet neither one another nor a map page (`order-once`).
//!
//! Leaves to others: which blocks and pages there are.
#![tactic(auto)]

mod next;

pub use next::{end_of_regions, next_block, next_page};
