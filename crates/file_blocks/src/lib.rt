//! The blocks of a file, which its block tree names ([MS-PST] 2.2.2.8).
//!
//! Promises: `check_block_in` says whether an entry of the block tree names a whole block, and what is wrong with it first, by the bytes of a run of the file, which `find_run` gives for entries whose blocks stand near one another. `FileBlocks` is a source of blocks over a world: from entries whose blocks were found whole it gives each block's data, and tells what it found changed since.
//!
//! Which entries a file has is left to others.
#![tactic(auto)]

mod check;
mod entries;
mod runs;
mod source;

pub use check::{BlockRefusal, BlockStop, has_room, read_block};
pub use entries::{entry_index, find_entry};
pub use runs::{Run, check_block_in, find_run};
pub use source::{FileBlocks, changed};
