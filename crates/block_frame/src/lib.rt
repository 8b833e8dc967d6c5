//! The frame of a block ([MS-PST] 2.2.2.8.1): up to 8176 bytes of data, zeros, and a trailer with the length, a signature, a checksum and an id, together a multiple of 64 bytes.
//!
//! Promises: `BlockView::read` accepts just the blocks that `Block.antt` calls so, names the first fault of any other with the two numbers that it compared, and copies nothing. `seal` gives a block's exact bytes, which read as the data.
//!
//! Where a block lies in the file, and what its data means, is left to others.
#![tactic(auto)]

mod block;
mod sealing;

pub use block::{BlockFault, BlockView, disk_size};
pub use sealing::seal;
